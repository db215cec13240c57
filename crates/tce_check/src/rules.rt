// The rules of a plan, in order.
ghost use Rattle.std.specs.Prelude.{◌≡◌, ◌↔◌, ◌+◌, ◌-◌, ◌<◌, ℕ, MatchOption};
ghost use Rattle.tce_tree.specs.ContractionTree.{operations};
ghost use Rattle.tce_tree.specs.Measure.{IsMeasured};
ghost use Rattle.tce_tree.specs.Memory.{size_at};
ghost use Rattle.tce_fusion.specs.Least.{IsLeast};
ghost use Rattle.tce_nesting.specs.Plan.{PlanFits};
ghost use Rattle.tce_check.specs.First.{IsFirst};
ghost use Rattle.tce_check.specs.Verdict.{HasSize, IsVerdict};

use crate::root::first_below;
use crate::tables::first_uncovered_node;
use crate::verdict::Verdict;
use tce_fusion::{first_illegal, first_not_carried, memory, size_of};
use tce_nesting::Plan;
use tce_space::Space;
use tce_tree::Tree;

/// Whether a plan shows that its fusion is legal and that no legal fusion of the tree takes less memory; else the first rule that it breaks, at the first place.
///
/// The rules in order, and for those on nodes the least node first:
///
/// - The fusion is legal.
/// - The orders carry it.
/// - The stated size of each node but the root is the number of elements that it keeps.
/// - The stated memory is their sum.
/// - Each step from rows of a node's operands has a row at the node that is coarser on the parent's loops and costs no more: by the left row, then the right row, then the fused set as a number with bit `i` for index `i`.
/// - At the root no two rows without conflict have a sum below the memory: by the left row, then the right row.
pub fn check(space: &Space, tree: &Tree, plan: &Plan) -> Verdict
    requires measured { IsMeasured space.now tree.now }
    requires fits { PlanFits tree.now plan.now }
    ensures exact { (verdict : Verdict) → (result ≡ verdict) ↔
        IsVerdict space.now tree.now plan.now verdict }
    ensures least { result ≡ Verdict.Accepted → IsLeast space.now tree.now plan.now.fusion.0.items }
{
    if let Some(v) = first_illegal(tree, &plan.fusion) {
        return Verdict::NotLegal(v);
    }
    if let Some(v) = first_not_carried(tree, &plan.fusion, &plan.orders) {
        return Verdict::OrderWrong(v);
    }
    if let Some((v, size)) = first_wrong_size(space, tree, plan) {
        return Verdict::SizeWrong(v, size);
    }
    let total = memory(space, tree, &plan.fusion);
    if plan.memory != total {
        return Verdict::TotalWrong(total);
    }
    if let Some((v, step)) = first_uncovered_node(space, tree, &plan.tables) {
        return step.refused(v);
    }
    match first_below(tree, &plan.tables, plan.memory) {
        Some(sum) => Verdict::BelowTotal(sum),
        None => Verdict::Accepted,
    }
}

// The least node but the root whose stated size is not what it keeps, and what it keeps.
fn first_wrong_size(space: &Space, tree: &Tree, plan: &Plan) -> Option<(u8, u128)>
    requires measured { IsMeasured space.now tree.now }
    requires fits { PlanFits tree.now plan.now }
    ensures { MatchOption result ((v : ℕ) → v < operations tree.now - 1 →
        HasSize space.now tree.now plan.now v)
        (λ found. IsFirst (operations tree.now - 1) (HasSize space.now tree.now plan.now)
        (λ w. (found.1 ≡ size_at space.now tree.now plan.now.fusion.0.items w) ×
        ¬ HasSize space.now tree.now plan.now w) found.0) }
{
    for v in 0..tree.count() - 1 {
        let size = size_of(space, tree, &plan.fusion, v);
        if plan.sizes[v as usize] != size {
            return Some((v, size));
        }
    }
    None
}
