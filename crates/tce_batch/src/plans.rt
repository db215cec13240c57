// The plan of every formula, found before any formula is run.
ghost use Rattle.std.specs.Prelude.{◌≡◌, ◌≢◌, ◌<◌, ◌≤◌, IfOk, IfErr, OnOk, length};
ghost use Rattle.tce_job.specs.Refusals.{IsAffordable, IsCause};
ghost use Rattle.tce_job.specs.declared.fault.JobFault.{JobFault as Fault};
ghost use Rattle.tce_batch.specs.Plans.{AreKept, IsKeptBehind, IsKeptOf, IsOneMore, IsPlanOf};
ghost use Rattle.tce_batch.specs.Refusals.{AffordableBelow, IsCostFault};
ghost use Rattle.tce_batch.specs.Told.{HoldsOf};

use crate::batch::Batch;
use crate::fault::{BatchFault, before_runs};
use arrayvec::ArrayVec;
use std::alloc::{AllocError, Global};
use tce_job::{JobFault, affordable_plan};
use tce_nesting::{Plan, Tables};
use tce_space::MAX_NODES;
use tce_spec::Spec;
use tce_tree::{Fusion, Orders};

/// The plan of a formula until it is run, without the rows that show it to be least: they may take far more memory than
/// all else, and no run needs them.
#[derive(Drop)]
pub(crate) struct KeptPlan {
    /// The number of the formula, from 0.
    pub(crate) number: usize,
    fusion: Fusion,
    orders: Orders,
    sizes: ArrayVec<u128, MAX_NODES>,
    memory: u128,
}

impl KeptPlan {
    // What is kept of a plan.
    fn of(number: usize, plan: Plan) -> KeptPlan
        ensures number { result.number ≡ number }
        ensures plan { IsKeptOf plan result }
    {
        let Plan {
            fusion,
            orders,
            sizes,
            memory,
            tables,
        } = plan;
        drop(tables);
        KeptPlan {
            number,
            fusion,
            orders,
            sizes,
            memory,
        }
    }

    /// The plan, with no rows.
    pub(crate) fn plan(&self, alloc: Global) -> Result<Plan, AllocError>
        requires { length self.now.sizes.items ≤ 31 }
        ensures { IfOk result (IsPlanOf self.now) }
    {
        Ok(Plan {
            fusion: Fusion(self.fusion.0.clone()?),
            orders: Orders(self.orders.0.clone()?),
            sizes: self.sizes.clone()?,
            memory: self.memory,
            tables: Tables::new(alloc, self.sizes.len() as u8)?,
        })
    }
}

// Finds the plan of a formula, and puts it behind the others with the formula's number, from 0.
fn keep_plan(
    alloc: Global,
    spec: &Spec,
    budget: u64,
    number: usize,
    plans: &mut Vec<KeptPlan>,
) -> Result<(), JobFault>
    ensures affordable { OnOk result (IsAffordable spec.now budget) }
    ensures kept { OnOk result (IsKeptBehind spec.now number plans.old.items plans.new.items) }
    ensures refused { IfErr result (IsCause (λ _. ⊥) spec.now budget) }
    ensures failed { IfErr result (λ fault. fault ≢ Fault.Disk) }
{
    let plan = affordable_plan(alloc, spec, budget)?;
    match plans.push(KeptPlan::of(number, plan)) {
        Ok(()) => Ok(()),
        Err(_) => Err(JobFault::Memory),
    }
}

// The same by the formula's number.
fn find_plan(
    alloc: Global,
    batch: &Batch,
    budget: u64,
    number: usize,
    plans: &mut Vec<KeptPlan>,
) -> Result<(), JobFault>
    requires { number < length batch.now }
    ensures affordable { OnOk result (HoldsOf batch.now number (λ s. IsAffordable s budget)) }
    ensures kept { OnOk result (IsOneMore batch.now number plans.old.items plans.new.items) }
    ensures refused { IfErr result
        (λ fault. HoldsOf batch.now number (λ s. IsCause (λ _. ⊥) s budget fault)) }
    ensures failed { IfErr result (λ fault. fault ≢ Fault.Disk) }
{
    let Ok(spec) = batch.spec(alloc, number) else {
        return Err(JobFault::Memory);
    };
    let kept = keep_plan(alloc, &spec, budget, number, plans);
    drop(spec);
    kept
}

/// Finds the plans of all formulas, or refuses the first formula that costs too much.
pub(crate) fn find_plans(
    alloc: Global,
    batch: &Batch,
    budget: u64,
) -> Result<Vec<KeptPlan>, BatchFault>
    ensures affordable { OnOk result (AffordableBelow batch.now budget (length batch.now)) }
    ensures kept { IfOk result (λ plans. AreKept batch.now (length batch.now) plans.items) }
    ensures refused { IfErr result (IsCostFault batch.now budget) }
{
    let count = batch.len();
    let mut plans = Vec::new(alloc);
    for number in 0..count {
        if let Err(fault) = find_plan(alloc, batch, budget, number, &mut plans) {
            drop(plans);
            return Err(before_runs(number, fault));
        }
    }
    Ok(plans)
}
