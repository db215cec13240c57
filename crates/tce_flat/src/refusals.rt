// Refusals for what the tools answer.
ghost use Rattle.std.specs.Prelude.{◌≡◌, ◌≢◌, ◌≤◌, IsTrue, length};
ghost use Rattle.tce_space.specs.Limits.{max_name_bytes};
ghost use Rattle.tce_flat.specs.Tools.{IsOfFiles, Stands};

use tce_array::ArrayFault;
use tce_command::{ArrayTrouble, Refusal};
use tce_space::Name;
use tce_tools::ToolFault;

// The refusal of a tensor whose array file is refused.
fn array_refusal(fault: ArrayFault, tensor: &str, input: &str) -> Refusal
    requires tensor { length tensor.now ≤ max_name_bytes }
    requires input { length input.now ≤ 204 }
    requires of_files { fault ≢ ArrayFault.Disk }
    ensures { Stands tensor.now input.now (ToolFault.Array fault) result }
{
    let mut name = Name::new();
    name.push_str(tensor);
    match fault {
        ArrayFault::NoFile => Refusal::missing(input),
        ArrayFault::BadLength(len) => Refusal::Array(name, ArrayTrouble::BadLength(len)),
        ArrayFault::BadHeader(place) => Refusal::Array(name, ArrayTrouble::BadHeader(place)),
        ArrayFault::Disk => unreachable!(),
    }
}

/// The refusal of a command on this tensor whose input is this file.
pub fn refusal_of(fault: ToolFault, tensor: &str, input: &str) -> Refusal
    requires tensor { length tensor.now ≤ max_name_bytes }
    requires input { length input.now ≤ 204 }
    requires of_files { IsOfFiles fault }
    ensures { Stands tensor.now input.now fault result }
{
    match fault {
        ToolFault::NoFlat => Refusal::missing(input),
        ToolFault::FlatLength(len) => Refusal::Flat(len),
        ToolFault::Array(fault) => array_refusal(fault, tensor, input),
        ToolFault::DoesNotFit(place) => Refusal::Misfit(place),
        ToolFault::Disk => Refusal::Disk,
        ToolFault::Memory => Refusal::Memory,
    }
}
