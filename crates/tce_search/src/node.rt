// The candidates of the nodes, from the leaves up.
ghost use Rattle.std.specs.Prelude.{◌≡◌, ℕ, false, ◌+◌, ◌<◌, ◌≤◌, [], ◌∷◌, ◌++◌, length, IfOk};
ghost use Rattle.tce_space.specs.Limits.{cost_limit};
ghost use Rattle.tce_tree.specs.ContractionTree.{operations, node_loops, parent};
ghost use Rattle.tce_tree.specs.Measure.{IsMeasured};
ghost use Rattle.tce_search.specs.CandidateLists.{AreCandidates, AreKept, AreFound, AreLow};

use crate::ahead::Aheads;
use crate::bounds::{Bounds, least_cost};
use crate::candidate::Candidate;
use crate::found::Found;
use crate::limits::Limits;
use crate::table::{NodeLoops, candidates_of};
use std::alloc::{AllocError, Global};
use tce_nesting::choices;
use tce_space::{IndexSet, Space};
use tce_tree::Tree;

/// The candidates of all nodes but the root: states that are of use below the ceiling, and what stands for all others.
pub(crate) fn find_candidates(
    alloc: Global,
    space: &Space,
    tree: &Tree,
    bounds: &mut Bounds,
) -> Result<Found, AllocError>
    requires measured { IsMeasured space.now tree.now }
    requires small { bounds.old.ceiling < cost_limit }
    ensures count { IfOk result (λ found. length found.lists + 1 ≡ operations tree.now) }
    ensures found { IfOk result (AreFound space.now tree.now) }
    ensures plain { bounds.old.learns ≡ false → IfOk result (λ found. found.least ≡ bounds.old.ceiling) }
    ensures same { bounds.new.ceiling ≡ bounds.old.ceiling }
    ensures learns { bounds.new.learns ≡ bounds.old.learns }
{
    let mut aheads = aheads_of_round(alloc, space, tree, bounds)?;
    let mut found = Found::new(alloc, bounds.least());
    for v in 0..tree.count() - 1 {
        let limits = Limits {
            ahead: aheads.of(tree, v),
            target: bounds.target(tree, v),
            least: found.least(),
        };
        let candidates = candidates_of_node(alloc, space, tree, &found, v, &limits)?;
        bounds.learn(v, candidates.as_slice());
        aheads = aheads.after(alloc, space, tree, v, candidates.as_slice())?;
        found.push(candidates)?;
    }
    Ok(found)
}

// What is ahead of the nodes, where the round looks that far.
fn aheads_of_round(
    alloc: Global,
    space: &Space,
    tree: &Tree,
    bounds: &Bounds,
) -> Result<Aheads, AllocError>
    requires { IsMeasured space.now tree.now }
{
    if bounds.looks_ahead() {
        Aheads::new(alloc, space, tree)
    } else {
        Ok(Aheads::none(alloc, tree))
    }
}

/// The candidates of the node whose number is next. What bounds states costs no less than the cheapest ones of both operands with one element.
pub(crate) fn candidates_of_node(
    alloc: Global,
    space: &Space,
    tree: &Tree,
    found: &Found,
    v: u8,
    limits: &Limits,
) -> Result<Vec<Candidate>, AllocError>
    requires measured { IsMeasured space.now tree.now }
    requires inside { v < operations tree.now }
    requires next { length found.now.lists ≡ v }
    requires kept { AreKept space.now tree.now found.now }
    requires limits { AreLow found.now.least limits.now }
    ensures { IfOk result (λ candidates. AreCandidates space.now tree.now found.now.least (found.now.lists ++ candidates.items ∷ []) v) }
{
    let _count = tree.count();
    let leaf = [Candidate::default()];
    let lefts = found.of_left(tree, v, &leaf);
    let rights = found.of_right(tree, v, &leaf);
    let mut choices = choices(space, tree, v);
    // What fuses more mostly stands for what fuses less, so it comes first.
    choices.reverse();
    let loops = NodeLoops {
        own: tree.loops(v),
        outer: outer_loops(tree, v),
    };
    let cheapest = least_cost(lefts)
        .saturating_add(least_cost(rights))
        .saturating_add(1);
    let tighter = Limits {
        ahead: limits.ahead,
        target: limits.target,
        least: limits.least.max(cheapest.min(limits.target)),
    };
    candidates_of(alloc, lefts, rights, loops, choices.as_slice(), &tighter)
}

/// The loops of the node's parent, and none at the root.
pub(crate) fn outer_loops(tree: &Tree, v: u8) -> IndexSet
    requires { v < operations tree.now }
    ensures { (p : ℕ) → parent tree.now v ≡ Some p → result ≡ node_loops tree.now p }
{
    match tree.parent(v) {
        Some(p) => tree.loops(p),
        None => IndexSet::empty(),
    }
}
