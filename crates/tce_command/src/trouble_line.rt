// The lines of refused certificates. They take no memory.
ghost use Rattle.std.specs.Prelude.{◌≡◌, ◌+◌, ◌*◌, ◌≤◌, ◌++◌, length, codes, All};
ghost use Rattle.std.specs.Fmt.{decimal};
ghost use Rattle.tce_space.specs.Limits.{max_loops};
ghost use Rattle.tce_space.specs.Space.{IsDeclared};
ghost use Rattle.tce_report.specs.NodeLine.{set_text};
ghost use Rattle.tce_cert.specs.Lines.{classes_text};
ghost use Rattle.tce_command.specs.Report as reports;

use crate::line::numbered;
use crate::trouble::CertFlaw;
use arrayvec::ArrayString;
use tce_fields::{decimal_text, members_of};
use tce_nesting::Nesting;
use tce_report::push_names;
use tce_space::{IndexSet, Space};

/// The line of a refused certificate: a set and at most ten classes of at most 24 names each, and less than 100 bytes beside them.
#[derive(Drop)]
pub struct TroubleLine {
    pub text: LongText,
}

type LongText = ArrayString<4700>;

pub(crate) fn trouble_line(space: &Space, flaw: &CertFlaw) -> TroubleLine
    requires { reports.NamesDeclared space.now (reports.trouble_of flaw.now) }
    ensures { result.text.bytes ≡ reports.cert_line space.now (reports.trouble_of flaw.now) }
{
    let mut line = LongText::new();
    line.push_str("error 7: ");
    push_flaw(&mut line, space, flaw);
    line.push_str("\n");
    TroubleLine { text: line }
}

// What is wrong, and where.
fn push_flaw(line: &mut LongText, space: &Space, flaw: &CertFlaw)
    requires declared { reports.NamesDeclared space.now (reports.trouble_of flaw.now) }
    requires room { length line.old.bytes ≤ 9 }
    ensures text { line.new.bytes ≡ line.old.bytes ++ reports.flaw_text space.now flaw.now }
    ensures room { length line.new.bytes ≤ 4690 }
{
    match flaw {
        CertFlaw::BadText(at) => push_numbered(line, "line ", *at as u128, ": bad text"),
        CertFlaw::WrongTree(at) => {
            push_numbered(line, "line ", *at as u128, ": does not fit the tree")
        }
        CertFlaw::NotLegal(v) => push_numbered(line, "node ", *v as u128, ": fusion not legal"),
        CertFlaw::OrderWrong(v) => push_numbered(line, "node ", *v as u128, ": loop order"),
        CertFlaw::SizeWrong(v, size) => push_size(line, *v, *size),
        CertFlaw::TotalWrong(total) => push_numbered(line, "memory ", *total, ""),
        CertFlaw::NotCovered(v, fused, classes, cost) => {
            push_step(line, space, *v, *fused, classes, *cost)
        }
        CertFlaw::BelowTotal(sum) => push_numbered(line, "below total ", *sum, ""),
    }
}

// Appends a number between two texts.
fn push_numbered(line: &mut LongText, before: &str, number: u128, after: &str)
    requires parts { length before.now + length after.now ≤ 216 }
    requires room { length line.old.bytes + length before.now + 40 + length after.now ≤ 4700 }
    ensures text { line.new.bytes ≡ line.old.bytes ++ (before.now ++ decimal number ++ after.now) }
    ensures length { length line.new.bytes ≤ length line.old.bytes + length before.now + 40 + length after.now }
{
    line.push_str(numbered(before, number, after).as_str());
}

// The size that a node's array has.
fn push_size(line: &mut LongText, v: u8, size: u128)
    requires { length line.old.bytes ≤ 9 }
    ensures text { line.new.bytes
        ≡ line.old.bytes ++ (codes "node " ++ decimal v ++ codes ": size " ++ decimal size) }
    ensures length { length line.new.bytes ≤ 200 }
{
    push_numbered(line, "node ", v as u128, ": size ");
    line.push_str(decimal_text(size).as_str());
}

// The step for which no row stands.
fn push_step(
    line: &mut LongText,
    space: &Space,
    v: u8,
    fused: IndexSet,
    classes: &Nesting,
    cost: u128,
)
    requires fused { IsDeclared space.now fused }
    requires classes { All (IsDeclared space.now) classes.now }
    requires room { length line.old.bytes ≤ 9 }
    ensures text { line.new.bytes
        ≡ line.old.bytes ++ reports.step_text space.now v fused classes.now cost }
    ensures room { length line.new.bytes ≤ 4690 }
{
    push_numbered(line, "node ", v as u128, ": fused ");
    push_set(line, space, fused);
    line.push_str(" classes ");
    push_classes(line, space, classes.classes());
    push_numbered(line, " cost ", cost, " not covered");
}

// Appends the classes with `/` between them, or `-` where there are none.
fn push_classes(line: &mut LongText, space: &Space, classes: &[IndexSet])
    requires declared { All (IsDeclared space.now) classes.now }
    requires few { length classes.now ≤ max_loops }
    requires room { length line.old.bytes ≤ 480 }
    ensures text { line.new.bytes ≡ line.old.bytes ++ classes_text space.now classes.now }
    ensures length { length line.new.bytes ≤ length line.old.bytes + 4100 }
{
    let Some((first, rest)) = classes.split_first() else {
        line.push('-');
        return;
    };
    push_set(line, space, *first);
    for class in rest {
        line.push('/');
        push_set(line, space, *class);
    }
}

// Appends the names of a set's members in order of declaration, or `-` where it has none.
fn push_set(line: &mut LongText, space: &Space, set: IndexSet)
    requires declared { IsDeclared space.now set }
    requires room { length line.old.bytes + 409 ≤ 4700 }
    ensures text { line.new.bytes ≡ line.old.bytes ++ set_text space.now set }
    ensures length { length line.new.bytes ≤ length line.old.bytes + 409 }
{
    let mut names = ArrayString::new();
    push_names(&mut names, space, members_of(set).as_slice());
    line.push_str(names.as_str());
}
