// The fusion of least memory that candidates of the root's operands make.
ghost use Rattle.std.specs.Prelude.{◌≡◌, ◌⊎◌, ◌↔◌, IsTrue, ℕ, ◌+◌, ◌<◌, ◌≤◌, length, IfSome};
ghost use Rattle.tce_space.specs.Limits.{max_loops, max_nodes};
ghost use Rattle.tce_space.specs.IndexSet.{count};
ghost use Rattle.tce_tree.specs.ContractionTree.{operations};
ghost use Rattle.tce_search.specs.Candidates.{IsLimited, AreOperands};
ghost use Rattle.tce_search.specs.Root.{IsMadeOf, IsMadeOfSome, IsAtMost, IsBound, IsBoundOfAll};

use crate::candidate::{Candidate, joined_sets};
use crate::steps::join_rows;
use arrayvec::ArrayVec;
use tce_space::{IndexSet, MAX_NODES};
use tce_tree::Tree;

/// A fusion of a whole tree, as the sets of its nodes, and its memory.
#[derive(Drop)]
pub(crate) struct WholeFusion {
    pub(crate) sets: ArrayVec<IndexSet, MAX_NODES>,
    pub(crate) memory: u128,
}

impl WholeFusion {
    /// Whether it takes less memory than the ceiling, and has a set for each node of the tree. What is made of a row that only bounds states has fewer.
    pub(crate) fn is_below(&self, tree: &Tree, ceiling: u128) -> bool
        ensures { IsTrue result ↔ ((self.now.memory < ceiling) × (length self.now.sets.items ≡ operations tree.now)) }
    {
        self.memory < ceiling && self.sets.len() == tree.count() as usize
    }
}

/// The fusion of least memory that two candidates of the root's operands make, the first of these; `None` exactly where each two have a conflict.
pub(crate) fn least_fusion(
    lefts: &[Candidate],
    rights: &[Candidate],
    loops: IndexSet,
) -> Option<WholeFusion>
    requires { AreOperands loops lefts.now rights.now }
    ensures bound { IsBoundOfAll loops result lefts.now rights.now }
    ensures made { IfSome result (IsMadeOfSome loops lefts.now rights.now) }
{
    let mut best = None;
    for left in lefts {
        for right in rights {
            best = lesser(best, left, right, loops);
        }
    }
    best
}

// The best so far, or what two candidates make where they have no conflict and it needs less memory.
fn lesser(
    best: Option<WholeFusion>,
    left: &Candidate,
    right: &Candidate,
    loops: IndexSet,
) -> Option<WholeFusion>
    requires loops { count loops ≤ max_loops }
    requires left { IsLimited left.now }
    requires right { IsLimited right.now }
    requires room { length left.now.sets.items + length right.now.sets.items < max_nodes }
    ensures bound { IsBound loops result left.now right.now }
    ensures kept { (limit : ℕ) → IsAtMost best limit → IsAtMost result limit }
    ensures made { IfSome result (λ whole. (best ≡ Some whole) ⊎ IsMadeOf loops left.now right.now whole) }
{
    let Some(joined) = join_rows(&left.row, &right.row, loops) else {
        return best;
    };
    if let Some(whole) = &best {
        if whole.memory <= joined.cost {
            return best;
        }
    }
    Some(WholeFusion {
        sets: joined_sets(
            left.sets.as_slice(),
            right.sets.as_slice(),
            IndexSet::empty(),
        ),
        memory: joined.cost,
    })
}
