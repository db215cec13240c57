// A short pass over few candidates of each node, which tells how far the search has to go.
ghost use Rattle.std.specs.Prelude.{◌≡◌, ◌+◌, ◌<◌, length, IfOk};
ghost use Rattle.tce_space.specs.Limits.{cost_limit};
ghost use Rattle.tce_tree.specs.ContractionTree.{operations};
ghost use Rattle.tce_tree.specs.Measure.{IsMeasured};
ghost use Rattle.tce_search.specs.CandidateLists.{AreKept};

use crate::ahead::Aheads;
use crate::bounds::Bounds;
use crate::candidate::Candidate;
use crate::fewer::cheapest_few;
use crate::found::Found;
use crate::limits::Limits;
use crate::node::{candidates_of_node, outer_loops};
use crate::root::least_fusion;
use std::alloc::{AllocError, Global};
use tce_space::Space;
use tce_tree::Tree;

// So many candidates of a node are kept for each largest upper part on the outer loops.
const KEPT: usize = 10;

/// Takes note of how far the next round has to go, where a pass is worth its time and finds a fusion below the end.
///
/// It only chooses the next ceiling: what the next round finds is shown to be least without it.
pub(crate) fn look_ahead(
    alloc: Global,
    space: &Space,
    tree: &Tree,
    bounds: &mut Bounds,
    end: u128,
) -> Result<(), AllocError>
    requires measured { IsMeasured space.now tree.now }
    requires some { 0 < bounds.old.ceiling }
    requires small { end < cost_limit }
    ensures ceiling { bounds.new.ceiling ≡ bounds.old.ceiling }
    ensures learns { bounds.new.learns ≡ bounds.old.learns }
{
    let Some(ahead) = bounds.ahead(end) else {
        return Ok(());
    };
    let found = few_candidates(alloc, space, tree, &ahead)?;
    if let Some(memory) = memory_at_root(space, tree, &found, ahead.ceiling) {
        bounds.expect(memory);
    }
    Ok(())
}

// A few candidates of all nodes but the root, of those that the few of its operands lead to: states, and what stands for others.
fn few_candidates(
    alloc: Global,
    space: &Space,
    tree: &Tree,
    bounds: &Bounds,
) -> Result<Found, AllocError>
    requires measured { IsMeasured space.now tree.now }
    requires small { bounds.now.ceiling < cost_limit }
    ensures count { IfOk result (λ found. length found.lists + 1 ≡ operations tree.now) }
    ensures kept { IfOk result (AreKept space.now tree.now) }
{
    let aheads = Aheads::new(alloc, space, tree)?;
    let mut found = Found::new(alloc, 0);
    for v in 0..tree.count() - 1 {
        let limits = Limits {
            ahead: aheads.of(tree, v),
            target: bounds.target(tree, v),
            least: 0,
        };
        let candidates = candidates_of_node(alloc, space, tree, &found, v, &limits)?;
        let few = cheapest_few(alloc, candidates, outer_loops(tree, v), KEPT)?;
        found.push(few)?;
    }
    Ok(found)
}

// The memory of the least fusion that the candidates make, where it takes less than the ceiling and they are states.
fn memory_at_root(space: &Space, tree: &Tree, found: &Found, ceiling: u128) -> Option<u128>
    requires count { length found.now.lists + 1 ≡ operations tree.now }
    requires kept { AreKept space.now tree.now found.now }
{
    let root = tree.count() - 1;
    let _indexes = space.index_count();
    let leaf = [Candidate::default()];
    let lefts = found.of_left(tree, root, &leaf);
    let rights = found.of_right(tree, root, &leaf);
    match least_fusion(lefts, rights, tree.loops(root)) {
        Some(whole) if whole.is_below(tree, ceiling) => Some(whole.memory),
        _ => None,
    }
}
