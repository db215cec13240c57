// What a run tests before it takes its memory: the budget, the memory for intermediates, and the operands.
ghost use Rattle.std.specs.Prelude.{◌≡◌, ◌≢◌, ◌≤◌, Err, IfOk, IfErr, OnOk};
ghost use Rattle.tce_space.specs.Limits.{max_memory};
ghost use Rattle.tce_outside.specs.Fault.{FaultReported};
ghost use Rattle.tce_array.specs.declared.fault.ArrayFault.TheVariants as array_fault;
ghost use Rattle.tce_search.specs.LeastPlan.{IsLeastPlan};
ghost use Rattle.tce_job.specs.Opened.{AreOpenedOn};
ghost use Rattle.tce_job.specs.declared.fault.JobFault.{JobFault as Fault};
ghost use Rattle.tce_job.specs.Refusals.{IsAffordable, IsCause, IsOpeningFault, IsFaultOf};
ghost use Rattle.tce_job.specs.Told.{IsLeastPlanOf, IsRefusalOf};

use crate::fault::JobFault;
use crate::opening::{Forms, Refused, open_operands};
use crate::takings::least_budget;
use std::alloc::Global;
use tce_array::ArrayFault;
use tce_nesting::Plan;
use tce_outside::Disk;
use tce_search::search;
use tce_space::MAX_MEMORY;
use tce_spec::Spec;

/// A plan of a least fusion, where the budget is at least three of the largest tiles, in words, and the plan's memory at
/// most 2^40 words.
///
/// It is refused with `BudgetTooSmall` and these three tiles, with `IntermediatesTooLarge` and the memory of the plan, or
/// with `Memory`.
pub fn affordable_plan(alloc: Global, spec: &Spec, budget: u64) -> Result<Plan, JobFault>
    ensures plan { IfOk result (IsLeastPlan spec.now.declarations.space spec.now.tree) }
    ensures small { IfOk result (λ plan. plan.memory ≤ max_memory) }
    ensures affordable { OnOk result (IsAffordable spec.now budget) }
    ensures refused { IfErr result (IsCause (λ _. ⊥) spec.now budget) }
    ensures no_fault { result ≢ Err JobFault.Disk }
{
    let least = least_budget(spec);
    if budget < least {
        return Err(JobFault::BudgetTooSmall(least));
    }
    let Ok(plan) = search(alloc, spec.space(), spec.tree()) else {
        return Err(JobFault::Memory);
    };
    if plan.memory > MAX_MEMORY as u128 {
        let memory = plan.memory;
        drop(plan);
        return Err(JobFault::IntermediatesTooLarge(memory));
    }
    Ok(plan)
}

// The fault of a run for an operand that is refused.
fn fault_of(refused: Refused) -> JobFault
    ensures { IsFaultOf refused result }
{
    match refused.fault {
        ArrayFault::Disk => JobFault::Disk,
        ArrayFault::NoFile => JobFault::Array(refused.tensor, ArrayFault::NoFile),
        ArrayFault::BadLength(len) => JobFault::Array(refused.tensor, ArrayFault::BadLength(len)),
        ArrayFault::BadHeader(at) => JobFault::Array(refused.tensor, ArrayFault::BadHeader(at)),
    }
}

/// The forms of the files of a specification's operands.
///
/// It is refused with `Array` and the first operand by first use that is refused, or with `Disk`.
pub fn opened_forms<D: Disk>(spec: &Spec, disk: &mut D) -> Result<Forms, JobFault>
    ensures opened { IfOk result (λ forms. AreOpenedOn (D.files disk.old) spec.now forms.0) }
    ensures refused { IfErr result (IsOpeningFault (D.files disk.old) spec.now) }
    ensures same { D.files disk.new ≡ D.files disk.old }
    ensures fault_reported { FaultReported D.faults disk.old disk.new (result ≡ Err Fault.Disk) }
{
    match open_operands(spec, disk) {
        Ok(forms) => Ok(forms),
        Err(refused) => Err(fault_of(refused)),
    }
}

/// Tests all that a run needs, and gives a plan of a least fusion and the forms of the operands.
pub fn tested<D: Disk>(
    alloc: Global,
    spec: &Spec,
    budget: u64,
    disk: &mut D,
) -> Result<(Plan, Forms), JobFault>
    ensures plan { IfOk result (λ pair. IsLeastPlanOf spec.now pair.0) }
    ensures small { IfOk result (λ pair. pair.0.memory ≤ max_memory) }
    ensures affordable { OnOk result (IsAffordable spec.now budget) }
    ensures opened { IfOk result (λ pair. AreOpenedOn (D.files disk.old) spec.now pair.1.0) }
    ensures refused { IfErr result (IsRefusalOf (D.files disk.old) spec.now budget) }
    ensures same { D.files disk.new ≡ D.files disk.old }
    ensures fault_reported { FaultReported D.faults disk.old disk.new (result ≡ Err Fault.Disk) }
{
    let plan = affordable_plan(alloc, spec, budget)?;
    match opened_forms(spec, disk) {
        Ok(forms) => Ok((plan, forms)),
        Err(fault) => {
            drop(plan);
            Err(fault)
        }
    }
}
