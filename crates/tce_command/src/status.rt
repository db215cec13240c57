// What a command ends with.
ghost use Rattle.std.specs.Prelude.{◌≡◌};
ghost use Rattle.std.specs.Process.{exit_status};
ghost use Rattle.tce_command.specs.Report.{code_of};

use crate::trouble::{CertTrouble, EinsumTrouble, SpillTrouble, SymTrouble};
use std::process::ExitCode;
use tce_array::ArrayFault;
use tce_space::{FileName, Name};
use tce_spec::SpecFault;

/// What a command ends with.
#[derive(Drop)]
pub enum Status {
    /// The command is done and reported.
    Done,
    /// The words are those of no command.
    BadWords,
    /// The text is no specification.
    SpecRefused(SpecFault),
    /// This file is not there.
    NoFile(FileName),
    /// The file of this tensor is no array of the tensor's shape: its length or its head differs.
    ArrayRefused(Name, ArrayFault),
    /// The budget is below this number of words.
    BudgetTooSmall(u64),
    /// The intermediates need this number of words, which is too many.
    IntermediatesTooLarge(u128),
    /// The certificate is refused.
    CertRefused(CertTrouble),
    /// The disk failed.
    DiskFault,
    /// The sink failed at the report of a finished command.
    SinkFault,
    /// There was no memory.
    WantOfMemory,
    /// The flat file has this length in bytes, which is not that of the tensor's elements.
    FlatRefused(u64),
    /// No tensor of this name is declared.
    UnknownTensor(Name),
    /// The element at this place in row-major order is the first that cannot be stored in the form.
    DoesNotFit(u64),
    /// The einsum text, its sizes or its path is refused.
    EinsumRefused(EinsumTrouble),
    /// The tree is not cut for the limit.
    SpillRefused(SpillTrouble),
    /// The file in which the tensor is stored once for each pair is refused.
    SymRefused(SymTrouble),
}

impl Status {
    /// The number of the exit status.
    pub fn code(&self) -> u8
        ensures { result ≡ code_of self.now }
    {
        match self {
            Status::Done => 0,
            Status::BadWords => 1,
            Status::SpecRefused(_) => 2,
            Status::NoFile(_) => 3,
            Status::ArrayRefused(_, _) => 4,
            Status::BudgetTooSmall(_) => 5,
            Status::IntermediatesTooLarge(_) => 6,
            Status::CertRefused(_) => 7,
            Status::DiskFault => 8,
            Status::SinkFault => 9,
            Status::WantOfMemory => 10,
            Status::FlatRefused(_) => 11,
            Status::UnknownTensor(_) => 12,
            Status::DoesNotFit(_) => 13,
            Status::EinsumRefused(_) => 14,
            Status::SpillRefused(_) => 15,
            Status::SymRefused(_) => 16,
        }
    }

    /// The exit status of the process.
    pub fn exit_code(&self) -> ExitCode
        ensures { exit_status result ≡ code_of self.now }
    {
        ExitCode::from(self.code())
    }
}
