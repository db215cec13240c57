// The command.
ghost use Rattle.std.specs.Prelude.{◌≡◌, ◌≤◌, Err, IfOk, IfErr};
ghost use Rattle.tce_space.specs.Limits.{max_memory};
ghost use Rattle.tce_outside.specs.Fault.{FaultReported};
ghost use Rattle.tce_command.specs.Command.{NamesSpec};
ghost use Rattle.tce_command.specs.Refusals.{SameOrDisk};
ghost use Rattle.tce_job.specs.Laws.{LeavesNoHalfResult};
ghost use Rattle.tce_job.specs.Told.{ResultAlone};
ghost use Rattle.tce_run.specs.Done.{IsRun, IsRoomLeft, OnlyResultDiffers};
ghost use Rattle.tce_run.specs.OfSource.{IsRunFault, IsRunOf};
ghost use Rattle.tce_run.specs.Refusals.{IsRunRefusalIfTold};

use crate::refusals::refusal_of;
use std::alloc::Global;
use tce_command::{Refusal, read_source};
use tce_job::run_job;
use tce_outside::Disk;
use tce_spec::Spec;
use tce_words::Room;

/// Runs the specification in a file: puts the file of its result in place of whatever has that name, and gives the report.
///
/// The budget, in words, is for tiles; it is at most 2^40. The specification is refused first; then `Budget` comes with
/// three of the largest tiles in words, `Intermediates` with the least memory in words where it is above 2^40, and
/// `Missing` with the file, or `Array` with the name, of the first operand by first use that is refused. After every
/// refusal but `Disk` all files are as they were; after `Disk` the result's file is as it was, absent, begins with zeros as no
/// array does, or is whole but for its head.
pub fn run<D: Disk, R: Room>(
    alloc: Global,
    spec: &str,
    budget: u64,
    disk: &mut D,
    room: &mut R,
) -> Result<Vec<u8>, Refusal>
    requires spec { NamesSpec spec.now }
    requires budget { budget ≤ max_memory }
    ensures done { IfOk result (λ report. IsRun (D.files disk.old) (D.files disk.new)
        (R.takings room.old) (R.takings room.new) spec.now budget report.items) }
    ensures refused { IfErr result (IsRunRefusalIfTold (D.files disk.old) spec.now budget) }
    ensures unchanged { IfErr result (SameOrDisk (D.files disk.old) (D.files disk.new)) }
    ensures takings { IfErr result (λ refusal. IsRoomLeft refusal (D.files disk.old)
        (R.takings room.old) (R.takings room.new) spec.now budget) }
    ensures others { OnlyResultDiffers spec.now (D.files disk.old) (D.files disk.new) }
    ensures fault_reported { FaultReported D.faults disk.old disk.new (result ≡ Err Refusal.Disk) }
{
    let source = read_source(alloc, disk, spec)?;
    let ran = run_source(alloc, &source, budget, disk, room);
    drop(source);
    ran
}

// The same of a specification that was read.
fn run_source<D: Disk, R: Room>(
    alloc: Global,
    source: &Spec,
    budget: u64,
    disk: &mut D,
    room: &mut R,
) -> Result<Vec<u8>, Refusal>
    requires { budget ≤ max_memory }
    ensures done { IfOk result (λ report. IsRunOf (D.files disk.old) (D.files disk.new)
        (R.takings room.old) (R.takings room.new) source.now budget report.items) }
    ensures refused { IfErr result (IsRunFault (D.files disk.old) (D.files disk.new)
        (R.takings room.old) (R.takings room.new) source.now budget) }
    ensures no_half { LeavesNoHalfResult source.now (D.files disk.old) (D.files disk.new) }
    ensures others { ResultAlone source.now (D.files disk.old) (D.files disk.new) }
    ensures fault_reported { FaultReported D.faults disk.old disk.new (result ≡ Err Refusal.Disk) }
{
    match run_job(alloc, source, budget, disk, room) {
        Ok(report) => Ok(report.text.into_vec()),
        Err(fault) => Err(refusal_of(source, fault)),
    }
}
