// The lines of refusals. They take no memory.
ghost use Rattle.std.specs.Prelude.{◌≡◌, ◌+◌, ◌≤◌, ◌++◌, length};
ghost use Rattle.std.specs.Fmt.{decimal};
ghost use Rattle.tce_command.specs.Report as reports;

use crate::refusal::{Refusal, wants_memory};
use crate::status::Status;
use crate::trouble::{ArrayTrouble, EinsumTrouble, SpillTrouble, SymTrouble};
use arrayvec::ArrayString;
use tce_fields::decimal_text;
use tce_space::Name;
use tce_spec::{Limit, SpecFault};
use tce_tree::TreeFault;

pub(crate) type Line = ArrayString<256>;

// The line of words that are those of no command.
pub(crate) fn words_line() -> Line
    ensures { result.bytes ≡ reports.error_text Status.BadWords }
{
    fixed("error 1: bad words\n")
}

// The line of a refusal.
pub(crate) fn refusal_line(refusal: &Refusal) -> Line
    ensures { result.bytes ≡ reports.refusal_line refusal.now }
{
    match refusal {
        Refusal::Specification(fault) if wants_memory(fault) => memory_line(),
        Refusal::Specification(fault) => joined("error 2: ", spec_text(fault).as_str(), "\n"),
        Refusal::Missing(name) => joined("error 3: no file ", name.as_str(), "\n"),
        Refusal::Array(tensor, trouble) => array_line(tensor, *trouble),
        Refusal::Budget(least) => numbered("error 5: budget needs ", *least as u128, "\n"),
        Refusal::Intermediates(memory) => numbered("error 6: intermediates ", *memory, "\n"),
        Refusal::Flat(len) => numbered("error 11: flat length ", *len as u128, "\n"),
        Refusal::Tensor(name) => joined("error 12: no tensor ", name.as_str(), "\n"),
        Refusal::Misfit(place) => numbered("error 13: element ", *place as u128, " does not fit\n"),
        Refusal::Einsum(EinsumTrouble::Spec(fault)) if wants_memory(fault) => memory_line(),
        Refusal::Einsum(trouble) => joined("error 14: ", einsum_text(trouble).as_str(), "\n"),
        Refusal::Spill(trouble) => joined("error 15: ", spill_text(*trouble).as_str(), "\n"),
        Refusal::Symmetry(tensor, trouble) => symmetry_line(tensor, *trouble),
        Refusal::Disk => fixed("error 8: disk fault\n"),
        Refusal::Memory => memory_line(),
    }
}

fn memory_line() -> Line
    ensures { result.bytes ≡ reports.error_text Status.WantOfMemory }
{
    fixed("error 10: want of memory\n")
}

fn fixed(text: &str) -> Line
    requires { length text.now ≤ 256 }
    ensures bytes { result.bytes ≡ text.now }
    ensures len { length result.bytes ≤ length text.now }
{
    let mut line = Line::new();
    line.push_str(text);
    line
}

fn joined(before: &str, text: &str, after: &str) -> Line
    requires { length before.now + length text.now + length after.now ≤ 256 }
    ensures bytes { result.bytes ≡ before.now ++ text.now ++ after.now }
    ensures len { length result.bytes ≤ length before.now + length text.now + length after.now }
{
    let mut line = fixed(before);
    line.push_str(text);
    line.push_str(after);
    line
}

pub(crate) fn numbered(before: &str, number: u128, after: &str) -> Line
    requires { length before.now + length after.now ≤ 216 }
    ensures bytes { result.bytes ≡ before.now ++ decimal number ++ after.now }
    ensures len { length result.bytes ≤ length before.now + 40 + length after.now }
{
    let digits = decimal_text(number);
    joined(before, digits.as_str(), after)
}

// Where a text is no specification, and what is wrong there.
fn spec_text(fault: &SpecFault) -> Line
    requires { reports.IsOfText fault.now }
    ensures text { result.bytes ≡ reports.place_text fault.now ++ reports.fault_text fault.now }
    ensures len { length result.bytes ≤ 150 }
{
    let mut line = place_text(fault);
    line.push_str(fault_text(fault).as_str());
    line
}

fn place_text(fault: &SpecFault) -> Line
    ensures text { result.bytes ≡ reports.place_text fault.now }
    ensures len { length result.bytes ≤ 50 }
{
    match fault {
        SpecFault::TooLong | SpecFault::Memory => Line::new(),
        SpecFault::BadText(line)
        | SpecFault::TooManyNodes(line)
        | SpecFault::NameTwice(line, _)
        | SpecFault::UnknownName(line, _)
        | SpecFault::BadNumber(line)
        | SpecFault::LimitPassed(line, _)
        | SpecFault::RankDiffers(line, _)
        | SpecFault::RangeDiffers(line, _)
        | SpecFault::IndexTwice(line, _)
        | SpecFault::ResultIsOperand(line, _)
        | SpecFault::Tree(line, _)
        | SpecFault::ResultIndices(line) => numbered("line ", *line as u128, ": "),
    }
}

// What is wrong in the place.
fn fault_text(fault: &SpecFault) -> Line
    requires { reports.IsOfText fault.now }
    ensures text { result.bytes ≡ reports.fault_text fault.now }
    ensures len { length result.bytes ≤ 100 }
{
    match fault {
        SpecFault::TooLong => fixed("too long"),
        SpecFault::BadText(_) => fixed("bad text"),
        SpecFault::TooManyNodes(_) => fixed("more than 32 operations"),
        SpecFault::NameTwice(_, name) => named("", name, " declared twice"),
        SpecFault::UnknownName(_, name) => named("unknown name ", name, ""),
        SpecFault::BadNumber(_) => fixed("bad number"),
        SpecFault::LimitPassed(_, limit) => joined("limit of ", limit_text(*limit), " passed"),
        SpecFault::RankDiffers(_, name) => named("rank of ", name, " differs"),
        SpecFault::RangeDiffers(_, name) => named("range of ", name, " differs"),
        SpecFault::IndexTwice(_, name) => named("index ", name, " twice"),
        SpecFault::ResultIsOperand(_, name) => named("", name, " is result and operand"),
        SpecFault::Tree(_, fault) => tree_text(fault),
        SpecFault::ResultIndices(_) => fixed("result indexes differ"),
        SpecFault::Memory => unreachable!(),
    }
}

fn named(before: &str, name: &Name, after: &str) -> Line
    requires { length before.now + length after.now ≤ 40 }
    ensures bytes { result.bytes ≡ before.now ++ name.now.bytes ++ after.now }
    ensures len { length result.bytes ≤ 60 }
{
    joined(before, name.as_str(), after)
}

fn limit_text(limit: Limit) -> &'static str
    ensures text { result.now ≡ reports.limit_text limit }
    ensures len { length result.now ≤ 20 }
{
    match limit {
        Limit::Ranges => "ranges",
        Limit::Indexes => "indexes",
        Limit::Tensors => "tensors",
        Limit::Rank => "rank",
        Limit::TileWords => "tile words",
        Limit::ArrayWords => "array words",
    }
}

fn tree_text(fault: &TreeFault) -> Line
    requires { reports.IsOfTree fault.now }
    ensures text { result.bytes ≡ reports.tree_text fault.now }
    ensures len { length result.bytes ≤ 100 }
{
    match fault {
        TreeFault::NoOperation => fixed("no operation"),
        TreeFault::SumOverAbsent(name) => named("sum over absent ", name, ""),
        TreeFault::TooManyLoops(node) => numbered(
            "node ",
            *node as u128,
            " has more than 10 loops",
        ),
        TreeFault::VolumeTooLarge(node) => {
            numbered("node ", *node as u128, " has too many iterations")
        }
        TreeFault::Memory => unreachable!(),
    }
}

// The line of a file that is no array.
fn array_line(tensor: &Name, trouble: ArrayTrouble) -> Line
    ensures { result.bytes
        ≡ reports.error_text (Status.ArrayRefused tensor.now (reports.fault_of trouble)) }
{
    let mut line = named("error 4: ", tensor, ".tca: ");
    line.push_str(array_text(trouble).as_str());
    line.push_str("\n");
    line
}

fn einsum_text(trouble: &EinsumTrouble) -> Line
    requires { reports.IsOfEinsum trouble.now }
    ensures text { result.bytes ≡ reports.einsum_text trouble.now }
    ensures len { length result.bytes ≤ 150 }
{
    match trouble {
        EinsumTrouble::BadText => fixed("bad text"),
        EinsumTrouble::BadSize(label) => label_text(*label),
        EinsumTrouble::BadPath(item) => numbered("path item ", *item as u128, ""),
        EinsumTrouble::Spec(fault) => spec_text(fault),
    }
}

// A label is a letter; no other byte is told.
fn label_text(label: u8) -> Line
    ensures text { result.bytes ≡ reports.label_text label }
    ensures len { length result.bytes ≤ 9 }
{
    let mut line = fixed("size of ");
    if label < 128 {
        line.push(label as char);
    }
    line
}

fn spill_text(trouble: SpillTrouble) -> Line
    ensures text { result.bytes ≡ reports.spill_text trouble }
    ensures len { length result.bytes ≤ 120 }
{
    match trouble {
        SpillTrouble::TooManyTensors => fixed("32 tensors"),
        SpillTrouble::LimitTooSmall(root, least) => {
            let mut line = numbered("piece ", root as u128, " needs ");
            line.push_str(decimal_text(least).as_str());
            line
        }
    }
}

// The line of a file in which a tensor is stored once for each pair.
fn symmetry_line(tensor: &Name, trouble: SymTrouble) -> Line
    ensures { result.bytes ≡ reports.sym_line tensor.now.bytes trouble }
{
    let mut line = named("error 16: ", tensor, ".sym: ");
    line.push_str(sym_text(trouble).as_str());
    line.push_str("\n");
    line
}

fn sym_text(trouble: SymTrouble) -> Line
    ensures text { result.bytes ≡ reports.sym_text trouble }
    ensures len { length result.bytes ≤ 60 }
{
    match trouble {
        SymTrouble::BadLength(len) => numbered("length ", len as u128, ""),
        SymTrouble::BadHeader(place) => numbered("head byte ", place as u128, ""),
    }
}

fn array_text(trouble: ArrayTrouble) -> Line
    ensures text { result.bytes ≡ reports.array_text (reports.fault_of trouble) }
    ensures len { length result.bytes ≤ 60 }
{
    match trouble {
        ArrayTrouble::BadLength(len) => numbered("length ", len as u128, ""),
        ArrayTrouble::BadHeader(place) => numbered("head byte ", place as u128, ""),
    }
}
