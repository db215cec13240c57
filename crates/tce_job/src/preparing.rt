// A run by a plan, up to the file of its result.
ghost use Rattle.std.specs.Prelude.{◌≡◌, ◌≤◌, ◌+◌, [], ◌∷◌, ◌++◌, replicate, Err, IfOk, IfErr, OnOk, OnErr};
ghost use Rattle.tce_space.specs.Limits.{max_memory};
ghost use Rattle.tce_outside.specs.Files.{others};
ghost use Rattle.tce_outside.specs.Fault.{FaultReported};
ghost use Rattle.tce_tree.specs.Fusion.{Carries, OrdersFit};
ghost use Rattle.tce_tree.specs.Orders.{lists_of};
ghost use Rattle.tce_code.specs.CodeFor.{IsCodeFor};
ghost use Rattle.tce_code.specs.Plan.{plan_of};
ghost use Rattle.tce_job.specs.Takings.{least_budget, tile_take};
ghost use Rattle.tce_job.specs.Laws.{LeavesNoHalfResult};
ghost use Rattle.tce_job.specs.Opened.{AreOpenedOn};
ghost use Rattle.tce_job.specs.declared.fault.JobFault.{JobFault as Fault};
ghost use Rattle.tce_job.specs.Refusals.{IsFree};
ghost use Rattle.tce_job.specs.Prepared.{IsCarriedPlan, IsPrepared, IsEmptyCache, IsReport};
ghost use Rattle.tce_job.specs.Run.{IsBegun};
ghost use Rattle.tce_job.specs.Told.{FailsOrKeeps, MakesResult, ResultAlone, Takes, MayTake};

use crate::arrays::arrays_of;
use crate::bytes::Bytes;
use crate::fault::JobFault;
use crate::naming::file_of;
use crate::opening::Forms;
use crate::ordering::running_orders;
use crate::prepared::{PlannedRun, Prepared};
use crate::reads::Model;
use crate::report::RunReport;
use crate::takings::{frame_count, tile_take};
use std::alloc::{AllocError, Global};
use tce_array::{Form, form_len};
use tce_cache::Cache;
use tce_code::{Code, generate};
use tce_layout::lay_out;
use tce_nesting::Plan;
use tce_outside::{Disk, OutFault};
use tce_report::run_text;
use tce_spec::Spec;
use tce_tree::Orders;
use tce_words::{Room, Words};

// A cache for the arrays of a run, whose frames stand behind the words of its intermediates.
fn empty_cache(
    alloc: Global,
    spec: &Spec,
    budget: u64,
    forms: &Forms,
    memory: u64,
) -> Result<Cache, AllocError>
    requires { least_budget spec.now ≤ budget }
    ensures { IfOk result (IsEmptyCache spec.now budget forms.now.0 memory) }
{
    let arrays = arrays_of(alloc, spec, forms)?;
    let cache = Cache::new(
        alloc,
        &arrays,
        memory,
        frame_count(spec, budget),
        spec.largest_tile(),
    );
    drop(arrays);
    cache
}

// The report of a run by this plan.
fn report_of(alloc: Global, spec: &Spec, budget: u64, plan: &Plan) -> Result<RunReport, AllocError>
    requires enough { least_budget spec.now ≤ budget }
    requires plan { IsCarriedPlan spec.now.declarations.space spec.now.tree plan.now }
    ensures { IfOk result (IsReport spec.now budget plan.now) }
{
    let result = spec.result().tensor;
    let tiles = tile_take(spec, budget);
    let bytes = form_len(Form::One, &spec.tensor(result).shape);
    let file = file_of(spec, result);
    let text = run_text(alloc, spec.space(), spec.tree(), plan, tiles, &file, bytes)?;
    Ok(RunReport {
        memory: plan.memory,
        tiles,
        bytes,
        text: Bytes::of(text),
    })
}

// The orders in which the loops of a run by this plan go.
fn orders_of(spec: &Spec, budget: u64, plan: &Plan) -> Orders
    requires enough { least_budget spec.now ≤ budget }
    requires plan { IsCarriedPlan spec.now.declarations.space spec.now.tree plan.now }
    ensures fit { OrdersFit spec.now.tree (lists_of result.0.items) }
    ensures carried { Carries spec.now.tree plan.now.fusion.0.items (lists_of result.0.items) }
{
    let tree = spec.tree();
    let frames = frame_count(spec, budget);
    let model = Model::of(spec.space(), tree, &plan.fusion, spec.result(), frames);
    running_orders(tree, &plan.fusion, &plan.orders, &model)
}

// The code of a run by this plan, with its loops in these orders, and its report.
fn code_and_report(
    alloc: Global,
    spec: &Spec,
    budget: u64,
    plan: &Plan,
    orders: &Orders,
) -> Result<(Code, RunReport), AllocError>
    requires enough { least_budget spec.now ≤ budget }
    requires plan { IsCarriedPlan spec.now.declarations.space spec.now.tree plan.now }
    requires fit { OrdersFit spec.now.tree (lists_of orders.now.0.items) }
    requires carried { Carries spec.now.tree plan.now.fusion.0.items
        (lists_of orders.now.0.items) }
    ensures code { IfOk result (λ pair. IsCodeFor spec.now.tree
        (plan_of plan.now.fusion.0.items (lists_of orders.now.0.items)) pair.0) }
    ensures report { IfOk result (λ pair. IsReport spec.now budget plan.now pair.1) }
{
    let code = generate(alloc, spec.tree(), &plan.fusion, orders)?;
    match report_of(alloc, spec, budget, plan) {
        Ok(report) => Ok((code, report)),
        Err(refused) => {
            drop(code);
            Err(refused)
        }
    }
}

// The cache of a run, and the words of the room, which are taken last.
fn cache_and_words<R: Room>(
    alloc: Global,
    spec: &Spec,
    budget: u64,
    forms: &Forms,
    memory: u64,
    room: &mut R,
) -> Result<(Cache, Words), AllocError>
    requires enough { least_budget spec.now ≤ budget }
    requires limit { budget ≤ max_memory }
    requires small { memory ≤ max_memory }
    ensures cache { IfOk result (λ pair. IsEmptyCache spec.now budget forms.now.0 memory pair.0) }
    ensures words { IfOk result
        (λ pair. pair.1 ≡ replicate (memory + tile_take spec.now budget) 0) }
    ensures taken { OnOk result (R.takings room.new
        ≡ R.takings room.old ++ (memory, tile_take spec.now budget) ∷ []) }
    ensures refused { OnErr result (R.takings room.new ≡ R.takings room.old) }
{
    let cache = empty_cache(alloc, spec, budget, forms, memory)?;
    match room.take(memory, tile_take(spec, budget)) {
        Ok(words) => Ok((cache, words)),
        Err(refused) => {
            drop(cache);
            Err(refused)
        }
    }
}

// Takes all memory of a run, the words of the room last.
fn take_memory<R: Room>(
    alloc: Global,
    spec: &Spec,
    budget: u64,
    forms: &Forms,
    plan: Plan,
    room: &mut R,
) -> Result<Prepared, AllocError>
    requires enough { least_budget spec.now ≤ budget }
    requires limit { budget ≤ max_memory }
    requires plan { IsCarriedPlan spec.now.declarations.space spec.now.tree plan }
    requires small { plan.memory ≤ max_memory }
    ensures prepared { IfOk result (IsPrepared spec.now budget forms.now.0) }
    ensures plan { IfOk result (λ p. p.plan ≡ plan) }
    ensures taken { OnOk result
        (Takes spec.now budget plan (R.takings room.old) (R.takings room.new)) }
    ensures refused { OnErr result (R.takings room.new ≡ R.takings room.old) }
{
    let orders = orders_of(spec, budget, &plan);
    let (code, report) = match code_and_report(alloc, spec, budget, &plan, &orders) {
        Ok(written) => written,
        Err(refused) => {
            drop(orders);
            drop(plan);
            return Err(refused);
        }
    };
    match cache_and_words(alloc, spec, budget, forms, plan.memory as u64, room) {
        Ok((cache, words)) => {
            let layout = lay_out(spec.space(), spec.tree(), &plan.fusion);
            Ok(Prepared {
                plan,
                orders,
                code,
                layout,
                words,
                cache,
                report,
            })
        }
        Err(refused) => {
            drop(code);
            drop(report);
            drop(orders);
            drop(plan);
            Err(refused)
        }
    }
}

// Makes the file of the result, of zeros: its head comes when all its elements are there.
fn make_result<D: Disk>(spec: &Spec, disk: &mut D) -> Result<(), JobFault>
    ensures made { OnOk result (MakesResult spec.now (D.files disk.old) (D.files disk.new)) }
    ensures free { IfErr result IsFree }
    ensures unchanged { FailsOrKeeps result (D.files disk.old) (D.files disk.new) }
    ensures no_half { LeavesNoHalfResult spec.now (D.files disk.old) (D.files disk.new) }
    ensures others { ResultAlone spec.now (D.files disk.old) (D.files disk.new) }
    ensures fault_reported { FaultReported D.faults disk.old disk.new (result ≡ Err Fault.Disk) }
{
    let result = spec.result().tensor;
    let name = file_of(spec, result);
    match disk.make(
        name.as_str(),
        form_len(Form::One, &spec.tensor(result).shape),
    ) {
        Ok(()) => Ok(()),
        Err(OutFault::Failed) => Err(JobFault::Disk),
        Err(OutFault::Memory) => Err(JobFault::Memory),
    }
}

/// Takes the memory of a run by a plan over operands that were opened, the words of the room last, and after that makes
/// the file of its result, of zeros and yet without a head.
///
/// `run_prepared` then runs it. It answers `Memory`, after which all files are as they were, or `Disk`, after which the
/// result's file is as it was, begins with zeros, or is absent.
pub fn begin<D: Disk, R: Room>(
    alloc: Global,
    spec: &Spec,
    budget: u64,
    planned: PlannedRun,
    disk: &mut D,
    room: &mut R,
) -> Result<Prepared, JobFault>
    requires enough { least_budget spec.now ≤ budget }
    requires limit { budget ≤ max_memory }
    requires plan { IsCarriedPlan spec.now.declarations.space spec.now.tree planned.plan }
    requires small { planned.plan.memory ≤ max_memory }
    requires opened { AreOpenedOn (D.files disk.old) spec.now planned.forms.0 }
    ensures begun { IfOk result (IsBegun spec.now (D.files disk.new)) }
    ensures prepared { IfOk result (IsPrepared spec.now budget planned.forms.0) }
    ensures plan { IfOk result (λ p. p.plan ≡ planned.plan) }
    ensures made { OnOk result (MakesResult spec.now (D.files disk.old) (D.files disk.new)) }
    ensures taken { OnOk result
        (Takes spec.now budget planned.plan (R.takings room.old) (R.takings room.new)) }
    ensures free { IfErr result IsFree }
    ensures unchanged { FailsOrKeeps result (D.files disk.old) (D.files disk.new) }
    ensures no_half { LeavesNoHalfResult spec.now (D.files disk.old) (D.files disk.new) }
    ensures takings { MayTake result spec.now budget planned.plan
        (R.takings room.old) (R.takings room.new) }
    ensures others { ResultAlone spec.now (D.files disk.old) (D.files disk.new) }
    ensures fault_reported { FaultReported D.faults disk.old disk.new (result ≡ Err Fault.Disk) }
{
    // Specifications keep their rules.
    let _space = spec.space();
    let PlannedRun { plan, forms } = planned;
    let Ok(prepared) = take_memory(alloc, spec, budget, &forms, plan, room) else {
        return Err(JobFault::Memory);
    };
    match make_result(spec, disk) {
        Ok(()) => Ok(prepared),
        Err(fault) => {
            drop(prepared);
            Err(fault)
        }
    }
}
