// The command that runs several formulas.
ghost use Rattle.std.specs.Prelude.{◌≡◌, ◌≤◌, Err, IfOk, IfErr};
ghost use Rattle.tce_space.specs.Limits.{max_memory};
ghost use Rattle.tce_outside.specs.Fault.{FaultReported};
ghost use Rattle.tce_command.specs.Command.{NamesSpec};
ghost use Rattle.tce_job.specs.Several.{OnlyResultsDiffer};
ghost use Rattle.tce_run.specs.BatchDone.{IsBatchLeft, IsBatchRoomLeft, IsBatchRun, OnlyBatchDiffers};
ghost use Rattle.tce_run.specs.BatchOfFormulas.{AreRun, IsFormulaFault};
ghost use Rattle.tce_run.specs.BatchRefusals.{IsBatchRefusalOn};

use crate::batch_reading::read_batch_source;
use crate::refusals::refusal_over;
use std::alloc::Global;
use tce_batch::{Batch, run_batch};
use tce_command::Refusal;
use tce_outside::Disk;
use tce_words::Room;

/// Runs the formulas in a file in order, each as `run` runs one, and gives the report; a result may be an operand of a
/// later formula.
///
/// The budget, in words, is for the tiles of each formula; it is at most 2^40. The text is refused first; then for each
/// formula in turn `Budget` and `Intermediates` come, and after those of all formulas, for each in turn, `Missing` or
/// `Array` of the first operand by first use that is no earlier result and is refused. After every refusal but `Disk` and
/// `Memory` all files are as they were. After `Memory` the results of the first formulas are complete and all other files
/// as they were; after `Disk` the same holds but for the result of the formula at which the disk failed, in whose place is no
/// half of a result.
pub fn run_all<D: Disk, R: Room>(
    alloc: Global,
    spec: &str,
    budget: u64,
    disk: &mut D,
    room: &mut R,
) -> Result<Vec<u8>, Refusal>
    requires spec { NamesSpec spec.now }
    requires budget { budget ≤ max_memory }
    ensures done { IfOk result (λ report. IsBatchRun (D.files disk.old) (D.files disk.new) (R.takings room.old) (R.takings room.new) spec.now budget report.items) }
    ensures refused { IfErr result (IsBatchRefusalOn (D.files disk.old) spec.now budget) }
    ensures left { IfErr result (λ refusal. IsBatchLeft refusal (D.files disk.old) (D.files disk.new) spec.now) }
    ensures takings { IfErr result (λ refusal. IsBatchRoomLeft refusal (D.files disk.old) (D.files disk.new) (R.takings room.old) (R.takings room.new) spec.now budget) }
    ensures others { OnlyBatchDiffers spec.now (D.files disk.old) (D.files disk.new) }
    ensures fault_reported { FaultReported D.faults disk.old disk.new (result ≡ Err Refusal.Disk) }
{
    let batch = read_batch_source(alloc, disk, spec)?;
    let ran = run_formulas(alloc, &batch, budget, disk, room);
    drop(batch);
    ran
}

// The same of formulas that were read.
fn run_formulas<D: Disk, R: Room>(
    alloc: Global,
    batch: &Batch,
    budget: u64,
    disk: &mut D,
    room: &mut R,
) -> Result<Vec<u8>, Refusal>
    requires { budget ≤ max_memory }
    ensures done { IfOk result (λ report. AreRun (D.files disk.old) (D.files disk.new) (R.takings room.old) (R.takings room.new) batch.now budget report.items) }
    ensures refused { IfErr result (IsFormulaFault (D.files disk.old) (D.files disk.new) (R.takings room.old) (R.takings room.new) batch.now budget) }
    ensures others { OnlyResultsDiffer batch.now (D.files disk.old) (D.files disk.new) }
    ensures fault_reported { FaultReported D.faults disk.old disk.new (result ≡ Err Refusal.Disk) }
{
    match run_batch(alloc, batch, budget, disk, room) {
        Ok(report) => Ok(report.text.into_vec()),
        Err(refused) => Err(refusal_over(batch.declarations(), refused.fault)),
    }
}
