// A whole run: what it prepares, its code, and the result in its file.
ghost use Rattle.std.specs.Prelude.{◌≡◌, ◌⊎◌, ◌≤◌, IfOk, IfErr, OnOk, IsErr, Err};
ghost use Rattle.tce_space.specs.Limits.{max_memory};
ghost use Rattle.tce_outside.specs.Files.{others};
ghost use Rattle.tce_outside.specs.Fault.{FaultReported};
ghost use Rattle.tce_array.specs.declared.form.Form.TheVariants.{One};
ghost use Rattle.tce_array.specs.OnDisk.{HasRoomForHead, HoldsHead, SameBehindHead};
ghost use Rattle.tce_spec.specs.Operands.{shape_of};
ghost use Rattle.tce_job.specs.Laws.{LeavesNoHalfResult};
ghost use Rattle.tce_job.specs.TensorFiles.{file_of};
ghost use Rattle.tce_job.specs.Takings.{least_budget};
ghost use Rattle.tce_job.specs.Opened.{AreOpenedOn};
ghost use Rattle.tce_job.specs.declared.fault.JobFault.{JobFault as Fault};
ghost use Rattle.tce_job.specs.Refusals.{IsFree};
ghost use Rattle.tce_job.specs.Prepared.{IsCarriedPlan, IsReport};
ghost use Rattle.tce_job.specs.Run.{IsBegun};
ghost use Rattle.tce_job.specs.Told.{CanRunIn, IsRefusalOf, RefusesExactly, GrantsAble, FailsOrKeeps, WritesResult, ResultAlone, Takes, MayTake, Reports, LeavesRoom, TouchesWithin};

use crate::fault::JobFault;
use crate::naming::file_of;
use crate::planning::tested;
use crate::prepared::{PlannedRun, Prepared};
use crate::preparing::begin;
use crate::report::RunReport;
use std::alloc::Global;
use tce_array::{Form, write_head};
use tce_exec::run_code;
use tce_outside::{Disk, Failed};
use tce_spec::Spec;
use tce_words::Room;

/// Runs the code of a run that was begun, writes the tiles of the result to its file, and last the head of that file.
///
/// `Failed` comes only where the disk failed; then the result's file begins with zeros, or is whole but for its head, so
/// that it is no array or the result. What was prepared is of no more use afterwards, but its cache tells how often the
/// run touched tiles.
pub fn run_prepared<D: Disk>(
    spec: &Spec,
    prepared: &mut Prepared,
    disk: &mut D,
) -> Result<(), Failed>
    requires { IsBegun spec.now (D.files disk.old) prepared.old }
    ensures told { OnOk result (WritesResult spec.now (D.files disk.old) (D.files disk.new)) }
    ensures no_half { LeavesNoHalfResult spec.now (D.files disk.old) (D.files disk.new) }
    ensures report { prepared.new.report ≡ prepared.old.report }
    ensures touches { OnOk result (TouchesWithin spec.now prepared.old prepared.new) }
    ensures others { ResultAlone spec.now (D.files disk.old) (D.files disk.new) }
    ensures fault_reported { FaultReported D.faults disk.old disk.new (IsErr result) }
{
    let tree = spec.tree();
    let _nodes = tree.count();
    run_code(
        spec.space(),
        tree,
        &prepared.plan.fusion,
        &prepared.orders,
        spec.result(),
        &prepared.code,
        &prepared.layout,
        &mut prepared.words,
        &mut prepared.cache,
        disk,
    )?;
    prepared.cache.flush(disk, &prepared.words)?;
    write_result_head(spec, disk)
}

// Writes the head of the result's file, which makes it an array.
fn write_result_head<D: Disk>(spec: &Spec, disk: &mut D) -> Result<(), Failed>
    requires { HasRoomForHead (D.files disk.old)
        (file_of spec.now spec.now.result) One (shape_of spec.now spec.now.result) }
    ensures written { OnOk result (HoldsHead D.files disk.old disk.new
        (file_of spec.now spec.now.result) One (shape_of spec.now spec.now.result)) }
    ensures behind { SameBehindHead (file_of spec.now spec.now.result) One
        (shape_of spec.now spec.now.result) (D.files disk.old) (D.files disk.new) }
    ensures others { ResultAlone spec.now (D.files disk.old) (D.files disk.new) }
    ensures fault_reported { FaultReported D.faults disk.old disk.new (IsErr result) }
{
    let number = spec.result().tensor;
    let name = file_of(spec, number);
    write_head(disk, name.as_str(), Form::One, &spec.tensor(number).shape)
}

/// Runs a specification by any plan whose orders carry its fusion, over operands that were opened.
///
/// The budget, in words, is for tiles. It is at least three of the largest tiles, and at most 2^40, as is the memory of
/// the plan. The run takes its memory once, the words of the room last, and after that makes the file of the result.
/// It answers `Memory`, after which all files are as they were, or `Disk`, after which the result's file is as it was, is
/// absent, begins with zeros, or is whole but for its head.
pub fn run_by<D: Disk, R: Room>(
    alloc: Global,
    spec: &Spec,
    budget: u64,
    planned: PlannedRun,
    disk: &mut D,
    room: &mut R,
) -> Result<RunReport, JobFault>
    requires enough { least_budget spec.now ≤ budget }
    requires limit { budget ≤ max_memory }
    requires plan { IsCarriedPlan spec.now.declarations.space spec.now.tree planned.plan }
    requires small { planned.plan.memory ≤ max_memory }
    requires opened { AreOpenedOn (D.files disk.old) spec.now planned.forms.0 }
    ensures told { OnOk result (WritesResult spec.now (D.files disk.old) (D.files disk.new)) }
    ensures report { IfOk result (IsReport spec.now budget planned.plan) }
    ensures taken { OnOk result
        (Takes spec.now budget planned.plan (R.takings room.old) (R.takings room.new)) }
    ensures free { IfErr result IsFree }
    ensures unchanged { FailsOrKeeps result (D.files disk.old) (D.files disk.new) }
    ensures no_half { LeavesNoHalfResult spec.now (D.files disk.old) (D.files disk.new) }
    ensures takings { MayTake result spec.now budget planned.plan
        (R.takings room.old) (R.takings room.new) }
    ensures others { ResultAlone spec.now (D.files disk.old) (D.files disk.new) }
    ensures fault_reported { FaultReported D.faults disk.old disk.new (result ≡ Err Fault.Disk) }
{
    // Specifications keep their rules.
    let _space = spec.space();
    let mut prepared = begin(alloc, spec, budget, planned, disk, room)?;
    let ran = run_prepared(spec, &mut prepared, disk);
    let report = prepared.into_report();
    match ran {
        Ok(()) => Ok(report),
        Err(Failed) => Err(JobFault::Disk),
    }
}

/// Runs a specification: puts the file of its result in place of whatever has that name, from the arrays of its
/// operands.
///
/// The budget, in words, is for tiles; it is at most 2^40. The run takes its memory once, the words of the room last,
/// and after that makes the file of the result. It is refused for the first cause in this order: `BudgetTooSmall` with
/// three of the largest tiles in words, `IntermediatesTooLarge` with the least memory in words, `Array` with the first
/// operand by first use that is refused and its fault, which is never `Disk`. After every refusal but `Disk` all files
/// are as they were; after `Disk` the result's file is as it was, is absent, begins with zeros as no array does, or is
/// whole but for its head.
pub fn run_job<D: Disk, R: Room>(
    alloc: Global,
    spec: &Spec,
    budget: u64,
    disk: &mut D,
    room: &mut R,
) -> Result<RunReport, JobFault>
    requires { budget ≤ max_memory }
    ensures told { OnOk result (WritesResult spec.now (D.files disk.old) (D.files disk.new)) }
    ensures reported { Reports result spec.now budget (R.takings room.old) (R.takings room.new) }
    ensures able { OnOk result (CanRunIn (D.files disk.old) spec.now budget) }

    // Words are taken only where the run can be run.
    ensures tested { (R.takings room.new ≡ R.takings room.old)
        ⊎ CanRunIn (D.files disk.old) spec.now budget }

    // Why a run is refused, and that it is refused so wherever there is a cause.
    ensures refused { IfErr result (IsRefusalOf (D.files disk.old) spec.now budget) }
    ensures exactly { RefusesExactly (D.files disk.old) spec.now budget result }
    ensures granted { GrantsAble (D.files disk.old) spec.now budget result }
    ensures fault_reported { FaultReported D.faults disk.old disk.new (result ≡ Err Fault.Disk) }

    // What a refused run leaves.
    ensures unchanged { FailsOrKeeps result (D.files disk.old) (D.files disk.new) }
    ensures no_half { LeavesNoHalfResult spec.now (D.files disk.old) (D.files disk.new) }
    ensures takings { LeavesRoom result spec.now budget (R.takings room.old) (R.takings room.new) }
    ensures others { ResultAlone spec.now (D.files disk.old) (D.files disk.new) }
{
    let (plan, forms) = tested(alloc, spec, budget, disk)?;
    let planned = PlannedRun { plan, forms };
    run_by(alloc, spec, budget, planned, disk, room)
}
