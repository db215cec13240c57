// Refusals for the faults of a run.
ghost use Rattle.std.specs.Prelude.{◌≡◌, ◌≢◌, ◌++◌, codes};
ghost use Rattle.tce_job.specs.Refusals.{NamesDeclared};
ghost use Rattle.tce_run.specs.Told.{IsOfFiles, IsToldAs, IsToldOver, NamesOneOf, TellsArray};

use tce_array::ArrayFault;
use tce_command::{ArrayTrouble, Refusal};
use tce_job::JobFault;
use tce_space::{FileName, Name};
use tce_spec::{Declarations, Spec};

// The name of the file of an array.
fn array_file(name: Name) -> FileName
    ensures { result.bytes ≡ name.bytes ++ codes ".tca" }
{
    let mut file = FileName::new();
    file.push_str(name.as_str());
    file.push_str(".tca");
    file
}

/// The refusal of an array by the name of its tensor: by its file where that is not there, else by its name.
pub fn array_refusal(name: Name, fault: ArrayFault) -> Refusal
    requires { fault ≢ ArrayFault.Disk }
    ensures { TellsArray name.bytes fault result }
{
    match fault {
        ArrayFault::NoFile => Refusal::Missing(array_file(name)),
        ArrayFault::BadLength(len) => Refusal::Array(name, ArrayTrouble::BadLength(len)),
        ArrayFault::BadHeader(at) => Refusal::Array(name, ArrayTrouble::BadHeader(at)),
        ArrayFault::Disk => unreachable!(),
    }
}

/// The refusal that tells a fault of a run over these declarations: of an operand by its file where that is not there, else
/// by its name.
pub(crate) fn refusal_over(declarations: &Declarations, fault: JobFault) -> Refusal
    requires declared { NamesOneOf declarations.now fault }
    requires of_files { IsOfFiles fault }
    ensures { IsToldOver declarations.now fault result }
{
    match fault {
        JobFault::BudgetTooSmall(least) => Refusal::Budget(least),
        JobFault::IntermediatesTooLarge(memory) => Refusal::Intermediates(memory),
        JobFault::Array(t, fault) => array_refusal(declarations.tensor(t).name, fault),
        JobFault::Disk => Refusal::Disk,
        JobFault::Memory => Refusal::Memory,
    }
}

/// The refusal that tells a fault of a run of a specification.
pub fn refusal_of(spec: &Spec, fault: JobFault) -> Refusal
    requires declared { NamesDeclared spec.now fault }
    requires of_files { IsOfFiles fault }
    ensures { IsToldAs spec.now fault result }
{
    refusal_over(spec.declarations(), fault)
}
