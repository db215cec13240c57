// A tensor of a known shape, expanded from the elements that are stored once for each pair.
ghost use Rattle.std.specs.Prelude.{◌≡◌, ◌≢◌, ◌≤◌, Err, IfErr, OnOk, IsErrOf, length};
ghost use Rattle.tce_space.specs.Limits.{max_name_bytes};
ghost use Rattle.tce_outside.specs.Files.{file, others};
ghost use Rattle.tce_outside.specs.Fault.{FaultReported, HasFailed};
ghost use Rattle.tce_sym.specs.Storage.{AreRight};
ghost use Rattle.tce_sym.specs.Told.{IsStoredIn, Expands, MayExpand};
ghost use Rattle.tce_flat.specs.Tensors.{sym_file};
ghost use Rattle.tce_flat.specs.Done.{IsExpanding};
ghost use Rattle.tce_flat.specs.NoHalf.{LeavesExpanding};
ghost use Rattle.tce_flat.specs.Tools.{SymStands};
ghost use Rattle.tce_flat.specs.Told.{RefusesSym, ArrayAlone, KeepsFiles, Reports};

use crate::naming::{file_of, report};
use std::alloc::Global;
use tce_array::{Form, form_len};
use tce_command::{Refusal, SymTrouble};
use tce_outside::{Disk, OutFault};
use tce_space::{Name, Shape};
use tce_sym::{MOST_LINE_WORDS, SymFault, Symmetry, expand, expand_through, open_sym};

// The refusal of a tensor whose stored elements are refused.
fn sym_refusal(fault: SymFault, tensor: &str, packed: &str) -> Refusal
    requires tensor { length tensor.now ≤ max_name_bytes }
    requires packed { packed.now ≡ sym_file tensor.now }
    ensures { SymStands tensor.now fault result }
{
    let mut name = Name::new();
    name.push_str(tensor);
    match fault {
        SymFault::NoFile => Refusal::missing(packed),
        SymFault::BadLength(len) => Refusal::Symmetry(name, SymTrouble::BadLength(len)),
        SymFault::BadHeader(place) => Refusal::Symmetry(name, SymTrouble::BadHeader(place)),
        SymFault::Disk => Refusal::Disk,
    }
}

// How many words for lines are of use for an array of this shape.
fn line_words(shape: &Shape) -> usize
    ensures { 32 ≤ result }
{
    let few = shape.elements().min(MOST_LINE_WORDS as u64 / 4);
    (4 * few as usize).max(4096)
}

// Makes the array file of stored elements. Where there is no memory for many lines of them, few do, and it takes longer.
fn expand_file<D: Disk>(
    alloc: Global,
    shape: &Shape,
    s: &Symmetry,
    packed: &str,
    array: &str,
    disk: &mut D,
) -> Result<(), OutFault>
    requires names { packed.now ≢ array.now }
    requires right { AreRight shape.now.extents s.now }
    requires file { IsStoredIn (D.files disk.old) packed.now shape.now.extents s.now }
    ensures expanded { OnOk result
        (Expands packed.now s.now array.now shape.now (D.files disk.old) (D.files disk.new)) }
    ensures memory { IsErrOf result OutFault.Memory → D.files disk.new ≡ D.files disk.old }
    ensures no_half { MayExpand packed.now s.now array.now shape.now
        (D.files disk.old) (D.files disk.new) }
    ensures others { others array.now (D.files disk.new) ≡ others array.now (D.files disk.old) }
    ensures fault_reported { FaultReported D.faults disk.old disk.new (HasFailed result) }
{
    let Ok(mut lines) = vec![in alloc; 0; line_words(shape)] else {
        return expand(disk, shape, s, packed, array);
    };
    let expanded = expand_through(disk, shape, s, packed, array, &mut lines);
    expanded
}

/// Expands a tensor.
pub fn expand_tensor<D: Disk>(
    alloc: Global,
    shape: &Shape,
    tensor: &str,
    disk: &mut D,
) -> Result<String, Refusal>
    requires { length tensor.now ≤ max_name_bytes }
    ensures done { Reports result
        (IsExpanding (D.files disk.old) (D.files disk.new) shape.now tensor.now) }
    ensures refused { IfErr result (RefusesSym (D.files disk.old) tensor.now shape.now) }
    ensures unchanged { KeepsFiles result (D.files disk.old) (D.files disk.new) }
    ensures no_half { LeavesExpanding tensor.now shape.now (D.files disk.old) (D.files disk.new) }
    ensures others { ArrayAlone tensor.now (D.files disk.old) (D.files disk.new) }
    ensures fault_reported { FaultReported D.faults disk.old disk.new (result ≡ Err Refusal.Disk) }
{
    let packed = file_of(tensor, ".sym");
    let array = file_of(tensor, ".tca");
    let len = form_len(Form::One, shape);
    let Ok(text) = report(alloc, "expand", array.as_str(), len) else {
        return Err(Refusal::Memory);
    };
    let s = match open_sym(disk, packed.as_str(), shape) {
        Ok(s) => s,
        Err(fault) => return Err(sym_refusal(fault, tensor, packed.as_str())),
    };
    match expand_file(alloc, shape, &s, packed.as_str(), array.as_str(), disk) {
        Ok(()) => Ok(text),
        Err(OutFault::Failed) => Err(Refusal::Disk),
        Err(OutFault::Memory) => Err(Refusal::Memory),
    }
}
