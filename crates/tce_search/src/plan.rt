// Plans of least fusions.
ghost use Rattle.std.specs.Prelude.{◌≡◌, ℕ, false, ◌+◌, ◌-◌, ◌<◌, ◌≤◌, ◌++◌, length, slice_index, slice_set, All, IfSome, IfNone, IfOk, OnOk};
ghost use Rattle.tce_space.specs.Limits.{cost_limit};
ghost use Rattle.tce_tree.specs.ContractionTree.{operations};
ghost use Rattle.tce_tree.specs.Fusion.{FusionFits};
ghost use Rattle.tce_tree.specs.Measure.{IsMeasured};
ghost use Rattle.tce_tree.specs.Memory.{size_at};
ghost use Rattle.tce_fusion.specs.Scope.{IsLegal};
ghost use Rattle.tce_fusion.specs.Row.{rows_at};
ghost use Rattle.tce_search.specs.Laws.{rows_of};
ghost use Rattle.tce_search.specs.CandidateLists as list;
ghost use Rattle.tce_search.specs.CandidateLists.{AreFound};
ghost use Rattle.tce_search.specs.LeastPlan.{IsAnswer, IsPlainAnswer, IsLeastPlan, IsPlanOf, IsBelowFusions, IsExceeded};

use crate::bounds::Bounds;
use crate::candidate::Candidate;
use crate::found::Found;
use crate::node::find_candidates;
use crate::pass::look_ahead;
use crate::root::least_fusion;
use arrayvec::ArrayVec;
use std::alloc::{AllocError, Global};
use tce_fusion::{memory, size_of, standard_orders};
use tce_nesting::{Plan, Tables};
use tce_space::{MAX_NODES, Space};
use tce_tree::{Fusion, Tree};

// No fusion takes as much as this.
const LAST_LIMIT: u128 = 1 << 95;

/// What a round answers.
#[derive(Drop)]
enum Answer {
    /// A plan of a least fusion.
    Least(Plan),
    /// No legal fusion takes less memory than this.
    AtLeast(u128),
}

/// A plan of a legal fusion of the tree such that no legal fusion takes less memory, with its standard orders, the sizes of its nodes, its memory in elements, and tables of states that show it to be least.
///
/// It is sought below a limit that grows until there is one, so that states which cost more need not be told apart (a search in rounds, after Korf 1985). Where that is short, one more round right above its memory makes the tables shorter.
///
/// The tables have for each step from rows of a node's operands a row that is coarser on the loops of the node's parent and costs no more, and no row that is so for another row of its node. Only want of memory is refused.
pub fn search(alloc: Global, space: &Space, tree: &Tree) -> Result<Plan, AllocError>
    requires { IsMeasured space.now tree.now }
    ensures { IfOk result (IsLeastPlan space.now tree.now) }
{
    let _indexes = space.index_count();
    let _nodes = tree.count();
    let plan = search_below(alloc, space, tree, 0, LAST_LIMIT)?;
    Ok(plan.unwrap())
}

/// The plan that [`search`] finds, where its memory is at most the limit, in elements; `None` exactly where each legal fusion takes more.
///
/// It goes no further than the limit, however much the least fusion takes. A guess of that memory only makes the search short where it is right. Only want of memory is refused.
pub fn search_within(
    alloc: Global,
    space: &Space,
    tree: &Tree,
    guess: u128,
    limit: u64,
) -> Result<Option<Plan>, AllocError>
    requires { IsMeasured space.now tree.now }
    ensures plan { IfOk result (λ found. IfSome found (IsLeastPlan space.now tree.now)) }
    ensures within { IfOk result (λ found. IfSome found (λ plan. plan.memory ≤ limit)) }
    ensures none { IfOk result (λ found. IfNone found (IsExceeded space.now tree.now limit)) }
{
    let near = guess.saturating_add(1);
    search_below(alloc, space, tree, near, limit as u128 + 1)
}

// The plan of a least fusion, where it takes less memory than the end. The rounds go no further, and one of them to `near`.
fn search_below(
    alloc: Global,
    space: &Space,
    tree: &Tree,
    near: u128,
    end: u128,
) -> Result<Option<Plan>, AllocError>
    requires measured { IsMeasured space.now tree.now }
    requires small { end < cost_limit }
    ensures plan { IfOk result (λ found. IfSome found (IsLeastPlan space.now tree.now)) }
    ensures below { IfOk result (λ found. IfSome found (λ plan. plan.memory < end)) }
    ensures none { IfOk result (λ found. IfNone found (IsBelowFusions space.now tree.now end)) }
{
    let mut bounds = Bounds::new(near);
    let mut least = 0;
    while least < end {
        bounds.raise(end);
        match search_round(alloc, space, tree, &mut bounds)? {
            Answer::Least(plan) => return Ok(Some(shortened(alloc, space, tree, &bounds, plan)?)),
            Answer::AtLeast(memory) => least = memory,
        }
        look_ahead(alloc, space, tree, &mut bounds, end)?;
    }
    Ok(None)
}

// The plan of a round, or where one more round right above its memory is short the plan of that: its tables have no states that cost more.
fn shortened(
    alloc: Global,
    space: &Space,
    tree: &Tree,
    bounds: &Bounds,
    plan: Plan,
) -> Result<Plan, AllocError>
    requires measured { IsMeasured space.now tree.now }
    requires small { bounds.now.ceiling < cost_limit }
    requires least { IsLeastPlan space.now tree.now plan }
    requires below { plan.memory < bounds.now.ceiling }
    ensures least { IfOk result (IsLeastPlan space.now tree.now) }
    ensures below { IfOk result (λ found. found.memory < bounds.now.ceiling) }
{
    let Some(mut closer) = bounds.right_above(plan.memory) else {
        return Ok(plan);
    };
    match search_round(alloc, space, tree, &mut closer)? {
        Answer::Least(shorter) => Ok(shorter),
        Answer::AtLeast(_) => Ok(plan),
    }
}

// A plan of a least fusion, where one takes less memory than the ceiling and what is known of subtrees does not hide it.
fn search_round(
    alloc: Global,
    space: &Space,
    tree: &Tree,
    bounds: &mut Bounds,
) -> Result<Answer, AllocError>
    requires measured { IsMeasured space.now tree.now }
    requires small { bounds.old.ceiling < cost_limit }
    ensures answer { IfOk result (IsAnswer space.now tree.now bounds.old.ceiling) }
    ensures plain { bounds.old.learns ≡ false → IfOk result (IsPlainAnswer bounds.old.ceiling) }
    ensures same { bounds.new.ceiling ≡ bounds.old.ceiling }
    ensures learns { bounds.new.learns ≡ bounds.old.learns }
{
    let found = find_candidates(alloc, space, tree, bounds)?;
    plan_below(alloc, space, tree, &found, bounds.ceiling)
}

// The plan of the least fusion that the candidates of all nodes but the root make, where it takes less memory than the ceiling and they are states; else that memory, which no legal fusion is below.
fn plan_below(
    alloc: Global,
    space: &Space,
    tree: &Tree,
    found: &Found,
    ceiling: u128,
) -> Result<Answer, AllocError>
    requires measured { IsMeasured space.now tree.now }
    requires count { length found.now.lists + 1 ≡ operations tree.now }
    requires found { AreFound space.now tree.now found.now }
    ensures answer { IfOk result (IsAnswer space.now tree.now ceiling) }
    ensures plain { found.now.least ≡ ceiling → IfOk result (IsPlainAnswer ceiling) }
{
    let root = tree.count() - 1;
    let leaf = [Candidate::default()];
    let lefts = found.of_left(tree, root, &leaf);
    let rights = found.of_right(tree, root, &leaf);
    let whole = least_fusion(lefts, rights, tree.loops(root)).unwrap();
    if !whole.is_below(tree, ceiling) {
        return Ok(Answer::AtLeast(whole.memory));
    }
    let plan = plan_of(alloc, space, tree, Fusion(whole.sets), found)?;
    Ok(Answer::Least(plan))
}

// The plan of a legal fusion, with the states of all candidates as its tables.
fn plan_of(
    alloc: Global,
    space: &Space,
    tree: &Tree,
    fusion: Fusion,
    found: &Found,
) -> Result<Plan, AllocError>
    requires measured { IsMeasured space.now tree.now }
    requires fits { FusionFits tree.now fusion.0.items }
    requires legal { IsLegal tree.now fusion.0.items }
    requires lists { length found.now.lists + 1 ≡ operations tree.now }
    ensures { IfOk result (IsPlanOf space.now tree.now fusion.0.items (list.tables_of found.now.lists)) }
{
    let tables = tables_of(alloc, tree.count() - 1, found)?;
    Ok(Plan {
        orders: standard_orders(tree, &fusion),
        sizes: sizes_of(space, tree, &fusion),
        memory: memory(space, tree, &fusion),
        fusion,
        tables,
    })
}

// The elements that each node but the root keeps.
fn sizes_of(space: &Space, tree: &Tree, fusion: &Fusion) -> ArrayVec<u128, MAX_NODES>
    requires measured { IsMeasured space.now tree.now }
    requires fits { FusionFits tree.now fusion.now.0.items }
    ensures count { length result.items + 1 ≡ operations tree.now }
    ensures sizes { (v : ℕ) → v < operations tree.now - 1 → slice_index result.items v ≡ size_at space.now tree.now fusion.now.0.items v }
    ensures limit { All (λ n. n < cost_limit) result.items }
{
    let mut sizes = ArrayVec::<u128, MAX_NODES>::new();
    for v in 0..tree.count() - 1 {
        sizes.push(size_of(space, tree, fusion, v));
    }
    sizes
}

// The states of the candidates of that many nodes.
fn tables_of(alloc: Global, count: u8, found: &Found) -> Result<Tables, AllocError>
    requires count { count ≡ length found.now.lists }
    requires limit { count ≤ 31 }
    ensures { IfOk result (λ tables. tables ≡ list.tables_of found.now.lists) }
{
    let mut tables = Tables::new(alloc, count)?;
    for v in 0..count {
        push_rows(&mut tables, v, found.candidates(v))?;
    }
    Ok(tables)
}

// Appends the states of candidates to the rows of a node.
fn push_rows(tables: &mut Tables, v: u8, candidates: &[Candidate]) -> Result<(), AllocError>
    requires { v < length tables.old }
    ensures { OnOk result (tables.new ≡ slice_set tables.old v (rows_at tables.old v ++ rows_of candidates.now)) }
{
    for candidate in candidates {
        tables.push(v, candidate.row.clone()?)?;
    }
    Ok(())
}
