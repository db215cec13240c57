// Why a command is refused.
ghost use Rattle.std.specs.Prelude.{◌≡◌, ◌≤◌, length};
ghost use Rattle.tce_command.specs.Refusals.{NamesFile};
ghost use Rattle.tce_command.specs.Report.{IsWellFormed, einsum_status, status_of, wants_memory};

use crate::status::Status;
use crate::trouble::{ArrayTrouble, EinsumTrouble, SpillTrouble, SymTrouble};
use tce_space::{FileName, Name};
use tce_spec::SpecFault;
use tce_tree::TreeFault;

/// Why a command is refused.
#[derive(Clone, Copy)]
pub enum Refusal {
    /// The text is no specification.
    Specification(SpecFault),
    /// This file is not there.
    Missing(FileName),
    /// The file of this tensor is there, and no array of the tensor's shape.
    Array(Name, ArrayTrouble),
    /// The budget is below this number of words.
    Budget(u64),
    /// The intermediates need this number of words, which is too many.
    Intermediates(u128),
    /// The flat file has this length in bytes, which is not that of the tensor's elements.
    Flat(u64),
    /// No tensor of this name is declared.
    Tensor(Name),
    /// The element at this place in row-major order is the first that cannot be stored in the form.
    Misfit(u64),
    /// The einsum text, its sizes or its path is refused.
    Einsum(EinsumTrouble),
    /// The tree is not cut for the limit.
    Spill(SpillTrouble),
    /// The file in which this tensor is stored once for each pair is refused.
    Symmetry(Name, SymTrouble),
    /// The disk failed.
    Disk,
    /// There was no memory.
    Memory,
}

// Whether a fault is want of memory.
pub(crate) fn wants_memory(fault: &SpecFault) -> bool
    ensures { result ≡ wants_memory fault.now }
{
    matches!(
        fault,
        SpecFault::Memory | SpecFault::Tree(_, TreeFault::Memory)
    )
}

// The status of an einsum that is refused so.
fn einsum_status(trouble: &EinsumTrouble) -> Status
    ensures { result ≡ einsum_status trouble.now }
{
    match trouble {
        EinsumTrouble::Spec(fault) if wants_memory(fault) => Status::WantOfMemory,
        _ => Status::EinsumRefused(*trouble),
    }
}

impl Refusal {
    /// The refusal of a file that is not there.
    pub fn missing(name: &str) -> Self
        requires { length name.now ≤ 204 }
        ensures { NamesFile name.now result }
    {
        let mut file = FileName::new();
        file.push_str(name);
        Refusal::Missing(file)
    }

    /// The status of a command that is refused so.
    pub fn status(&self) -> Status
        ensures value { result ≡ status_of self.now }
        ensures well_formed { IsWellFormed result }
    {
        match self {
            Refusal::Specification(fault) if wants_memory(fault) => Status::WantOfMemory,
            Refusal::Specification(fault) => Status::SpecRefused(*fault),
            Refusal::Missing(file) => Status::NoFile(*file),
            Refusal::Array(tensor, trouble) => Status::ArrayRefused(*tensor, trouble.fault()),
            Refusal::Budget(least) => Status::BudgetTooSmall(*least),
            Refusal::Intermediates(memory) => Status::IntermediatesTooLarge(*memory),
            Refusal::Flat(len) => Status::FlatRefused(*len),
            Refusal::Tensor(name) => Status::UnknownTensor(*name),
            Refusal::Misfit(place) => Status::DoesNotFit(*place),
            Refusal::Einsum(trouble) => einsum_status(trouble),
            Refusal::Spill(trouble) => Status::SpillRefused(*trouble),
            Refusal::Symmetry(_, trouble) => Status::SymRefused(*trouble),
            Refusal::Disk => Status::DiskFault,
            Refusal::Memory => Status::WantOfMemory,
        }
    }
}
