//! Fusions that are drawn, and runs by them.
ghost use Rattle.std.specs.Prelude.{◌≤◌, IfOk, IfSome};
ghost use Rattle.tce_space.specs.Limits.{max_memory};
ghost use Rattle.tce_job.specs.Prepared.{IsCarriedPlan};

use crate::job::draws::Draws;
use arrayvec::ArrayVec;
use std::alloc::Global;
use std::test::Fail;
use tce_fusion::{is_legal, memory, standard_orders};
use tce_job::{PlannedRun, begin, least_budget, open_operands, run_by, run_prepared};
use tce_nesting::{Plan, Tables};
use tce_outside::MemDisk;
use tce_space::IndexSet;
use tce_spec::Spec;
use tce_tree::{Fusion, Tree};
use tce_words::HeapRoom;

// The fusion that fuses nothing.
fn unfused(tree: &Tree) -> Fusion {
    let mut sets = ArrayVec::new();
    for _ in 0..tree.count() {
        let _full = sets.try_push(IndexSet::empty());
    }
    Fusion(sets)
}

// Fuses an index above a node too, where the fusion stays legal.
fn fuse(tree: &Tree, fusion: &mut Fusion, v: usize, index: u64) {
    if fusion.0.len() <= v || 24 <= index {
        return;
    }
    let before = fusion.0[v];
    fusion.0[v] = before.with(index as u8);
    if !fusion.fits(tree) || !is_legal(tree, fusion) {
        fusion.0[v] = before;
    }
}

/// A legal fusion, drawn.
pub fn drawn_fusion(draws: &mut Draws, tree: &Tree) -> Fusion {
    let mut fusion = unfused(tree);
    for _ in 0..draws.below(40) {
        let v = draws.below(tree.count() as u64) as usize;
        fuse(tree, &mut fusion, v, draws.below(4));
    }
    fusion
}

// No size for each node but the root.
fn no_sizes(tree: &Tree) -> Result<ArrayVec<u128, 32>, Fail> {
    let mut sizes = ArrayVec::new();
    for _ in 1..tree.count() {
        sizes.try_push(0)?;
    }
    Ok(sizes)
}

// The plan of a fusion with its standard orders; none where the fusion is not legal or takes too many words.
fn plan_by(alloc: Global, spec: &Spec, fusion: Fusion) -> Result<Option<Plan>, Fail>
    ensures carried { IfOk result (λ found. IfSome found (IsCarriedPlan spec.now.declarations.space spec.now.tree)) }
    ensures small { IfOk result (λ found. IfSome found (λ plan. plan.memory ≤ max_memory)) }
{
    let space = spec.space();
    let tree = spec.tree();
    if !fusion.fits(tree) || !is_legal(tree, &fusion) {
        return Ok(None);
    }
    let memory = memory(space, tree, &fusion);
    let orders = standard_orders(tree, &fusion);
    let sizes = no_sizes(tree)?;
    let tables = Tables::new(alloc, tree.count() - 1)?;
    let plan = Plan {
        fusion,
        orders,
        sizes,
        memory,
        tables,
    };
    if !plan.fits(tree) || plan.memory > 1 << 40 {
        return Ok(None);
    }
    Ok(Some(plan))
}

/// Whether a specification is run by this fusion.
pub fn is_run_by(
    alloc: Global,
    spec: &Spec,
    budget: u64,
    fusion: Fusion,
    disk: &mut MemDisk,
) -> Result<bool, Fail> {
    if budget < least_budget(spec) || 1 << 40 < budget {
        return Ok(false);
    }
    let Ok(forms) = open_operands(spec, disk) else {
        return Ok(false);
    };
    let Some(plan) = plan_by(alloc, spec, fusion)? else {
        return Ok(false);
    };
    let mut room = HeapRoom::new(alloc);
    let planned = PlannedRun { plan, forms };
    Ok(run_by(alloc, spec, budget, planned, disk, &mut room).is_ok())
}

/// How often a run by the fusion that fuses nothing touches tiles, where it succeeds.
pub fn touches_unfused(
    alloc: Global,
    spec: &Spec,
    budget: u64,
    disk: &mut MemDisk,
) -> Result<Option<u128>, Fail> {
    let fusion = unfused(spec.tree());
    if budget < least_budget(spec) || 1 << 40 < budget {
        return Ok(None);
    }
    let Ok(forms) = open_operands(spec, disk) else {
        return Ok(None);
    };
    let Some(plan) = plan_by(alloc, spec, fusion)? else {
        return Ok(None);
    };
    let mut room = HeapRoom::new(alloc);
    let planned = PlannedRun { plan, forms };
    let Ok(mut prepared) = begin(alloc, spec, budget, planned, disk, &mut room) else {
        return Ok(None);
    };
    let answer = run_prepared(spec, &mut prepared, disk);
    Ok(answer.is_ok().then_some(prepared.cache.touches()))
}
