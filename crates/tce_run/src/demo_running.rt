// The run of an example.
ghost use Rattle.std.specs.Prelude.{◌≡◌, OnOk, IfOk, IfErr, Err};
ghost use Rattle.std.specs.Option.{ForSome};
ghost use Rattle.tce_outside.specs.Files.{others};
ghost use Rattle.tce_outside.specs.Fault.{FaultReported};
ghost use Rattle.tce_command.specs.Refusals.{IsFree};
ghost use Rattle.tce_job.specs.Laws.{LeavesNoHalfResult};
ghost use Rattle.tce_job.specs.Refusals.{NamesDeclared, IsFree as IsFreeFault};
ghost use Rattle.tce_job.specs.Told.{ResultAlone, WritesResult};
ghost use Rattle.tce_run.specs.DemoSpecification.{IsDemo};
ghost use Rattle.tce_run.specs.Told.{IsOfFiles, IsToldAs};
ghost use Rattle.tce_run.specs.DemoDone.{IsOfRun, HasAllOperands, HasRunReport, LeavesRoom};

use crate::refusals::refusal_of;
use std::alloc::Global;
use tce_command::Refusal;
use tce_job::{JobFault, RunReport, run_job};
use tce_outside::Disk;
use tce_spec::Spec;
use tce_words::Room;

// The words that tiles may take.
const BUDGET: u64 = 16384;

// The refusal of a command whose run is refused: that which the run itself has.
fn run_refusal(spec: &Spec, fault: JobFault) -> Refusal
    requires declared { NamesDeclared spec.now fault }
    requires of_files { IsOfFiles fault }
    ensures told { IsToldAs spec.now fault result }
    ensures free { IsFreeFault fault → IsFree result }
    ensures disk_alone { result ≡ Refusal.Disk → fault ≡ JobFault.Disk }
    ensures disk_told { fault ≡ JobFault.Disk → result ≡ Refusal.Disk }
{
    refusal_of(spec, fault)
}

/// Runs an example whose operands have their arrays. Where the disk tells that they have them, only the disk and memory
/// can fail.
pub fn run_example<D: Disk, R: Room>(
    alloc: Global,
    spec: &Spec,
    disk: &mut D,
    room: &mut R,
) -> Result<RunReport, Refusal>
    requires spec { IsDemo spec.now }
    requires operands { HasAllOperands (D.files disk.old) spec.now }
    ensures told { OnOk result (WritesResult spec.now (D.files disk.old) (D.files disk.new)) }
    ensures reported { IfOk result
        (HasRunReport spec.now (R.takings room.old) (R.takings room.new)) }
    ensures refused { IfErr result (λ refusal. ForSome (D.files disk.old) (λ _. IsFree refusal)) }
    ensures takings { LeavesRoom spec.now (R.takings room.old) (R.takings room.new) result }
    ensures as_run { IfErr result (IsOfRun spec.now) }
    ensures no_half { LeavesNoHalfResult spec.now (D.files disk.old) (D.files disk.new) }
    ensures others { ResultAlone spec.now (D.files disk.old) (D.files disk.new) }
    ensures fault_reported { FaultReported D.faults disk.old disk.new (result ≡ Err Refusal.Disk) }
{
    match run_job(alloc, spec, BUDGET, disk, room) {
        Ok(report) => Ok(report),
        Err(fault) => Err(run_refusal(spec, fault)),
    }
}
