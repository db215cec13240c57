// Cuts with a plan of each piece.
ghost use Rattle.std.specs.Prelude.{◌≡◌, ◌<◌, ◌≤◌, Some, None, IfOk, IfSome, IfNone, length, slice_index_or, slice_set};
ghost use Rattle.tce_search.specs.LeastPlan.{IsExceeded};
ghost use Rattle.tce_spill.specs.Planned.{IsWithoutRows, IsLeastButRows};

use std::alloc::{AllocError, Global};
use tce_nesting::{Plan, Tables};
use tce_search::{search, search_within};
use tce_spec::Spec;

/// The nodes that are cut, with a plan of a least fusion for each piece.
///
/// The plans are without the rows that show them to be least: these may take far more memory than all else, and no run
/// needs them.
#[derive(Drop)]
pub struct PlannedCuts {
    /// Bit `v` stands for node `v`.
    pub nodes: u32,
    /// The plan of each piece in the place of its root, and nothing for the other nodes.
    pub plans: Vec<Option<Plan>>,
}

// A plan without its rows.
fn without_rows(alloc: Global, plan: Plan) -> Result<Plan, AllocError>
    ensures { IfOk result (IsWithoutRows plan) }
{
    match Tables::new(alloc, plan.tables.lists()) {
        Ok(tables) => Ok(Plan {
            fusion: plan.fusion,
            orders: plan.orders,
            sizes: plan.sizes,
            memory: plan.memory,
            tables,
        }),
        Err(error) => {
            drop(plan);
            Err(error)
        }
    }
}

/// A plan of a least fusion of a specification's tree, without rows.
pub(crate) fn least_plan(alloc: Global, spec: &Spec) -> Result<Plan, AllocError>
    ensures { IfOk result (IsLeastButRows spec.now.declarations.space spec.now.tree) }
{
    let plan = search(alloc, spec.space(), spec.tree())?;
    without_rows(alloc, plan)
}

/// The same, where its memory is at most the limit; none where each fusion of the tree takes more.
pub(crate) fn least_plan_within(
    alloc: Global,
    spec: &Spec,
    guess: u128,
    limit: u64,
) -> Result<Option<Plan>, AllocError>
    ensures plan { IfOk result
        (λ found. IfSome found (IsLeastButRows spec.now.declarations.space spec.now.tree)) }
    ensures within { IfOk result (λ found. IfSome found (λ plan. plan.memory ≤ limit)) }
    ensures none { IfOk result
        (λ found. IfNone found (IsExceeded spec.now.declarations.space spec.now.tree limit)) }
{
    match search_within(alloc, spec.space(), spec.tree(), guess, limit)? {
        Some(plan) => Ok(Some(without_rows(alloc, plan)?)),
        None => Ok(None),
    }
}

/// Puts the plan of a joined piece in the place of its root, and takes that of its lower part away.
pub(crate) fn put_joined(plans: &mut Vec<Option<Plan>>, lower: u8, root: u8, joined: Plan)
    requires lower { lower < length plans.old.items }
    requires root { root < length plans.old.items }
    ensures { plans.new.items ≡ slice_set (slice_set plans.old.items lower None) root (Some joined) }
{
    plans[lower as usize] = None;
    plans[root as usize] = Some(joined);
}

/// What a joined piece mostly takes at least: what both of its parts take, and an element of the node between them.
///
/// It only says where to search.
pub(crate) fn joined_guess(plans: &[Option<Plan>], lower: u8, root: u8) -> u128 {
    let parts = memory_at(plans, lower).saturating_add(memory_at(plans, root));
    parts.saturating_add(1)
}

fn memory_at(plans: &[Option<Plan>], v: u8) -> u128 {
    match plans.get(v as usize) {
        Some(Some(plan)) => plan.memory,
        _ => 0,
    }
}
