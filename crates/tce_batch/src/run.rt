// The formulas in turn.
ghost use Rattle.std.specs.Prelude.{◌≡◌, ◌<◌, ◌≤◌, IfOk, IfErr, OnOk, Err, length};
ghost use Rattle.tce_outside.specs.Files.{others};
ghost use Rattle.tce_job.specs.Laws.{LeavesNoHalfResult};
ghost use Rattle.tce_job.specs.Refusals.{IsAffordable};
ghost use Rattle.tce_job.specs.Run.{IsReported};
ghost use Rattle.tce_job.specs.Prepared.{IsRoomLeft as IsRoomLeftByOne};
ghost use Rattle.tce_space.specs.Limits.{max_memory};
ghost use Rattle.tce_outside.specs.Fault.{FaultReported};
ghost use Rattle.tce_job.specs.declared.fault.JobFault.{JobFault as Fault};
ghost use Rattle.tce_job.specs.Told.{IsRefusalOf, FailsOrKeeps, WritesResult, ResultAlone, Reports, LeavesRoom as LeavesRoomByOne};
ghost use Rattle.tce_batch.specs.Reports.{HasRun};
ghost use Rattle.tce_job.specs.Several.{OnlyResultsDiffer};
ghost use Rattle.tce_batch.specs.Plans.{AreKept, IsKeptFor, IsKeptIn};
ghost use Rattle.tce_batch.specs.Refusals.{AffordableBelow, IsBatchCause, IsExact};
ghost use Rattle.tce_batch.specs.Left.{IsLeft};
ghost use Rattle.tce_batch.specs.Told.{HoldsOf, HasAllSources, WritesResults, IsFreeIn, HasDiskFault};

use crate::batch::Batch;
use crate::fault::BatchFault;
use crate::plans::{KeptPlan, find_plans};
use crate::report::{BatchReport, first_line, push_section};
use crate::sources::open_sources;
use std::alloc::Global;
use tce_job::{Bytes, JobFault, PlannedRun, RunReport, opened_forms, run_by};
use tce_outside::Disk;
use tce_spec::Spec;
use tce_words::Room;

// Runs a specification by the plan that was kept of it, as `run_job` does by one that it finds.
fn run_kept<D: Disk, R: Room>(
    alloc: Global,
    spec: &Spec,
    kept: &KeptPlan,
    budget: u64,
    disk: &mut D,
    room: &mut R,
) -> Result<RunReport, JobFault>
    requires kept { IsKeptFor spec.now kept.now }
    requires affordable { IsAffordable spec.now budget }
    requires budget { budget ≤ max_memory }
    ensures told { OnOk result (WritesResult spec.now (D.files disk.old) (D.files disk.new)) }
    ensures reported { Reports result spec.now budget (R.takings room.old) (R.takings room.new) }
    ensures refused { IfErr result (IsRefusalOf (D.files disk.old) spec.now budget) }
    ensures unchanged { FailsOrKeeps result (D.files disk.old) (D.files disk.new) }
    ensures takings { LeavesRoomByOne result spec.now budget
        (R.takings room.old) (R.takings room.new) }
    ensures no_half { LeavesNoHalfResult spec.now (D.files disk.old) (D.files disk.new) }
    ensures others { ResultAlone spec.now (D.files disk.old) (D.files disk.new) }
    ensures fault_reported { FaultReported D.faults disk.old disk.new (result ≡ Err Fault.Disk) }
{
    // A tree has at most 32 nodes.
    let _nodes = spec.tree().count();
    let Ok(plan) = kept.plan(alloc) else {
        return Err(JobFault::Memory);
    };
    match opened_forms(spec, disk) {
        Ok(forms) => {
            let planned = PlannedRun { plan, forms };
            run_by(alloc, spec, budget, planned, disk, room)
        }
        Err(fault) => {
            drop(plan);
            Err(fault)
        }
    }
}

// Runs a formula by the plan that was kept of it.
fn run_formula<D: Disk, R: Room>(
    alloc: Global,
    batch: &Batch,
    kept: &KeptPlan,
    budget: u64,
    disk: &mut D,
    room: &mut R,
) -> Result<RunReport, JobFault>
    requires number { kept.now.number < length batch.now }
    requires kept { IsKeptIn batch.now kept.now }
    requires affordable { AffordableBelow batch.now budget (length batch.now) }
    requires budget { budget ≤ max_memory }
    ensures told { OnOk result (HoldsOf batch.now kept.now.number
        (λ s. WritesResult s (D.files disk.old) (D.files disk.new))) }
    ensures reported { IfOk result (λ report. HoldsOf batch.now kept.now.number
        (λ s. IsReported s budget (R.takings room.old) (R.takings room.new) report)) }
    ensures refused { IfErr result (λ fault. HoldsOf batch.now kept.now.number
        (λ s. IsRefusalOf (D.files disk.old) s budget fault)) }
    ensures unchanged { FailsOrKeeps result (D.files disk.old) (D.files disk.new) }
    ensures takings { IfErr result (λ fault. HoldsOf batch.now kept.now.number
        (λ s. IsRoomLeftByOne fault s budget (R.takings room.old) (R.takings room.new))) }
    ensures no_half { HoldsOf batch.now kept.now.number
        (λ s. LeavesNoHalfResult s (D.files disk.old) (D.files disk.new)) }
    ensures others { HoldsOf batch.now kept.now.number
        (λ s. ResultAlone s (D.files disk.old) (D.files disk.new)) }
    ensures fault_reported { FaultReported D.faults disk.old disk.new (result ≡ Err Fault.Disk) }
{
    let Ok(spec) = batch.spec(alloc, kept.number) else {
        return Err(JobFault::Memory);
    };
    let ran = run_kept(alloc, &spec, kept, budget, disk, room);
    drop(spec);
    ran
}

// Runs all formulas in turn, by the plans that were kept of them.
fn run_all<D: Disk, R: Room>(
    alloc: Global,
    batch: &Batch,
    plans: &[KeptPlan],
    budget: u64,
    disk: &mut D,
    room: &mut R,
) -> Result<Vec<u8>, BatchFault>
    requires budget { budget ≤ max_memory }
    requires kept { AreKept batch.now (length batch.now) plans.now }
    requires affordable { AffordableBelow batch.now budget (length batch.now) }
    requires sources { HasAllSources (D.files disk.old) batch.now }
    ensures told { OnOk result (WritesResults batch.now (D.files disk.old) (D.files disk.new)) }
    ensures reported { IfOk result
        (λ text. HasRun batch.now budget (R.takings room.old) (R.takings room.new) text.items) }
    ensures refused { IfErr result (IsBatchCause (D.files disk.old) batch.now budget) }
    ensures free { IfErr result (IsFreeIn (D.files disk.old)) }
    ensures left { IfErr result (IsLeft (D.files disk.old) (D.files disk.new)
        (R.takings room.old) (R.takings room.new) batch.now budget) }
    ensures fault_reported { FaultReported D.faults disk.old disk.new (HasDiskFault result) }
{
    let count = batch.len();
    let Ok(mut text) = first_line(alloc) else {
        return Err(BatchFault {
            formula: 1,
            fault: JobFault::Memory,
        });
    };
    for number in 0..count {
        let formula = number as u64 + 1;
        match run_formula(alloc, batch, &plans[number], budget, disk, room) {
            Ok(report) => {
                let pushed = push_section(alloc, &mut text, formula, report.text.as_slice());
                drop(report);
                let Ok(()) = pushed else {
                    return Err(BatchFault {
                        formula,
                        fault: JobFault::Memory,
                    });
                };
            }
            Err(fault) => return Err(BatchFault { formula, fault }),
        }
    }
    Ok(text)
}

// Opens the files of all operands that are no earlier result, and runs the formulas by the plans that were kept of them.
fn run_planned<D: Disk, R: Room>(
    alloc: Global,
    batch: &Batch,
    plans: &[KeptPlan],
    budget: u64,
    disk: &mut D,
    room: &mut R,
) -> Result<BatchReport, BatchFault>
    requires budget { budget ≤ max_memory }
    requires kept { AreKept batch.now (length batch.now) plans.now }
    requires affordable { AffordableBelow batch.now budget (length batch.now) }
    ensures told { OnOk result (WritesResults batch.now (D.files disk.old) (D.files disk.new)) }
    ensures reported { IfOk result
        (λ report. HasRun batch.now budget (R.takings room.old) (R.takings room.new) report.text) }
    ensures sources { OnOk result (HasAllSources (D.files disk.old) batch.now) }
    ensures refused { IfErr result (IsBatchCause (D.files disk.old) batch.now budget) }
    ensures exactly { IsExact (D.files disk.old) batch.now budget result }
    ensures left { IfErr result (IsLeft (D.files disk.old) (D.files disk.new)
        (R.takings room.old) (R.takings room.new) batch.now budget) }
    ensures others { OnlyResultsDiffer batch.now (D.files disk.old) (D.files disk.new) }
    ensures fault_reported { FaultReported D.faults disk.old disk.new (HasDiskFault result) }
{
    open_sources(alloc, batch, disk)?;
    let text = run_all(alloc, batch, plans, budget, disk, room)?;
    Ok(BatchReport {
        text: Bytes::of(text),
    })
}

/// Runs several formulas in order, each as `run_job` runs one: a result may be an operand of a later formula.
///
/// The budget, in words, is for the tiles of each run; it is at most 2^40. Before any file is touched, the first formula
/// with a fault decides: for all formulas in turn `BudgetTooSmall` and then `IntermediatesTooLarge`, and after that for
/// all formulas in turn `Array` with the first operand by first use that is no earlier result and is refused. A failure
/// of the disk, or want of memory, before the first run is told of formula 1. After `Disk` or `Memory` at a formula the
/// results of the formulas in front of it are complete, and its own file is as `run_job` leaves it.
///
/// The plan of each formula is found once, at the start, and kept for its run.
pub fn run_batch<D: Disk, R: Room>(
    alloc: Global,
    batch: &Batch,
    budget: u64,
    disk: &mut D,
    room: &mut R,
) -> Result<BatchReport, BatchFault>
    requires { budget ≤ max_memory }
    ensures told { OnOk result (WritesResults batch.now (D.files disk.old) (D.files disk.new)) }
    ensures reported { IfOk result
        (λ report. HasRun batch.now budget (R.takings room.old) (R.takings room.new) report.text) }
    ensures affordable { OnOk result (AffordableBelow batch.now budget (length batch.now)) }
    ensures sources { OnOk result (HasAllSources (D.files disk.old) batch.now) }
    ensures refused { IfErr result (IsBatchCause (D.files disk.old) batch.now budget) }
    ensures exactly { IsExact (D.files disk.old) batch.now budget result }
    ensures left { IfErr result (IsLeft (D.files disk.old) (D.files disk.new)
        (R.takings room.old) (R.takings room.new) batch.now budget) }
    ensures others { OnlyResultsDiffer batch.now (D.files disk.old) (D.files disk.new) }
    ensures fault_reported { FaultReported D.faults disk.old disk.new (HasDiskFault result) }
{
    let plans = find_plans(alloc, batch, budget)?;
    let ran = run_planned(alloc, batch, plans.as_slice(), budget, disk, room);
    drop(plans);
    ran
}
