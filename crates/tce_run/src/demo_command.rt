// The command.
ghost use Rattle.std.specs.Prelude.{◌≡◌, ◌≤◌, Err, IfOk, IfErr};
ghost use Rattle.std.specs.Option.{ForSome};
ghost use Rattle.std.specs.String.{string_bytes};
ghost use Rattle.tce_outside.specs.Fault.{FaultReported};
ghost use Rattle.tce_command.specs.Refusals.{IsFree};
ghost use Rattle.tce_run.specs.DemoSpecification.{IsDemo};
ghost use Rattle.tce_run.specs.DemoFiles.{IsSeed, DemoOthersStay, LeavesOperands};
ghost use Rattle.tce_run.specs.DemoInput.{PutsInput};
ghost use Rattle.tce_run.specs.DemoDone.{IsDemonstrated, IsDemoRefusal, IsOfRun, LeavesDemonstration, IsRunOfExample, LeavesDemoRoom, LeavesExample, LeavesRoom};

use crate::demo_input::{Example, make_example, write_input};
use crate::demo_report::report;
use crate::demo_running::run_example;
use crate::demo_sum::result_sum;
use std::alloc::Global;
use tce_command::Refusal;
use tce_outside::{Disk, OutFault};
use tce_tools::Buffers;
use tce_words::Room;

// Writes the files that a run needs.
fn put_input<D: Disk>(
    disk: &mut D,
    made: &Example,
    seed: u64,
    buffers: &mut Buffers,
) -> Result<(), Refusal>
    requires spec { IsDemo made.now.spec }
    requires seed { IsSeed seed }
    ensures written { PutsInput made.now seed (D.files disk.old) (D.files disk.new) result }
    ensures free { IfErr result IsFree }
    ensures no_half { LeavesOperands made.now.spec seed (D.files disk.old) (D.files disk.new) }
    ensures others { DemoOthersStay (D.files disk.old) (D.files disk.new) }
    ensures fault_reported { FaultReported D.faults disk.old disk.new (result ≡ Err Refusal.Disk) }
{
    match write_input(disk, made, seed, buffers) {
        Ok(()) => Ok(()),
        Err(OutFault::Failed) => Err(Refusal::Disk),
        Err(OutFault::Memory) => Err(Refusal::Memory),
    }
}

// Writes the files of an example, runs it, and gives the report.
fn demonstrate<D: Disk, R: Room>(
    alloc: Global,
    made: &Example,
    seed: u64,
    disk: &mut D,
    room: &mut R,
    buffers: &mut Buffers,
) -> Result<String, Refusal>
    requires spec { IsDemo made.now.spec }
    requires seed { IsSeed seed }
    ensures done { IfOk result (λ report. IsRunOfExample made.now seed
        (D.files disk.old) (D.files disk.new) (R.takings room.old) (R.takings room.new)
        (string_bytes report)) }
    ensures refused { IfErr result (λ refusal. ForSome (D.files disk.old) (λ _. IsFree refusal)) }
    ensures as_run { IfErr result (IsOfRun made.now.spec) }
    ensures takings { LeavesRoom made.now.spec (R.takings room.old) (R.takings room.new) result }
    ensures no_half { LeavesExample made.now seed (D.files disk.old) (D.files disk.new) }
    ensures others { DemoOthersStay (D.files disk.old) (D.files disk.new) }
    ensures fault_reported { FaultReported D.faults disk.old disk.new (result ≡ Err Refusal.Disk) }
{
    put_input(disk, made, seed, buffers)?;
    let run = run_example(alloc, &made.spec, disk, room)?;
    let Ok(sum) = result_sum(disk, &made.spec, buffers) else {
        return Err(Refusal::Disk);
    };
    match report(alloc, run.memory, run.tiles, sum) {
        Ok(text) => Ok(text),
        Err(_) => Err(Refusal::Memory),
    }
}

/// Makes the example with these extents and the numbers drawn after the seed, runs it, and gives the report.
///
/// The tiles of the run take at most 16,384 words. Over a disk that tells its files only want of memory and failures of
/// the disk are refused; over another a run may be refused for an array too, as a run is. After each refusal the text may
/// hold anything or be absent, each of the five arrays is as it was, absent, begins with zeros or is whole but for its head,
/// and the takings are as they were, or have that of the run.
pub fn demo<D: Disk, R: Room>(
    alloc: Global,
    seed: u64,
    v: u64,
    o: u64,
    disk: &mut D,
    room: &mut R,
) -> Result<String, Refusal>
    requires seed { (1 ≤ seed) × (seed ≤ 2147483646) }
    requires v { (1 ≤ v) × (v ≤ 32) }
    requires o { (1 ≤ o) × (o ≤ 32) }
    ensures done { IfOk result (λ report. IsDemonstrated (D.files disk.old) (D.files disk.new)
        (R.takings room.old) (R.takings room.new) seed v o (string_bytes report)) }
    ensures refused { IfErr result (λ refusal. ForSome (D.files disk.old) (λ _. IsFree refusal)) }
    ensures as_run { IfErr result (IsDemoRefusal v o) }
    ensures takings { LeavesDemoRoom v o (R.takings room.old) (R.takings room.new) result }
    ensures no_half { LeavesDemonstration seed v o (D.files disk.old) (D.files disk.new) }
    ensures others { DemoOthersStay (D.files disk.old) (D.files disk.new) }
    ensures fault_reported { FaultReported D.faults disk.old disk.new (result ≡ Err Refusal.Disk) }
{
    let Ok(made) = make_example(alloc, v, o) else {
        return Err(Refusal::Memory);
    };
    let Ok(mut buffers) = Buffers::new(alloc) else {
        return Err(Refusal::Memory);
    };
    let done = demonstrate(alloc, &made, seed, disk, room, &mut buffers);
    drop(made);
    done
}
