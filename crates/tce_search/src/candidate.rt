// Candidates: states with the fusions that reach them, and rows without one, which bound states.
ghost use Rattle.std.specs.Prelude.{◌≡◌, ◌+◌, ◌<◌, [], ◌∷◌, ◌++◌, length};
ghost use Rattle.tce_space.specs.Limits.{max_nodes};
ghost use Rattle.tce_search.specs.Candidates.{limit_candidate};

use arrayvec::ArrayVec;
use tce_nesting::{Nesting, Row};
use tce_space::{IndexSet, MAX_NODES};

/// A state of a subtree, with the sets that are fused above its nodes, in their order; or a row without sets, which bounds states.
#[derive(Default, Drop, PartialEq, Eq)]
pub struct Candidate {
    pub row: Row,
    pub sets: ArrayVec<IndexSet, MAX_NODES>,
}

// The candidate that stands for every state that costs at least the limit: no classes and no sets, at that cost.
pub(crate) fn at_limit(limit: u128) -> Candidate
    ensures { result ≡ limit_candidate limit }
{
    Candidate {
        row: Row {
            classes: Nesting::none(),
            cost: limit,
        },
        sets: ArrayVec::new(),
    }
}

// The sets of the left operand's nodes, then those of the right one's.
pub(crate) fn both_sets(left: &[IndexSet], right: &[IndexSet]) -> ArrayVec<IndexSet, MAX_NODES>
    requires { length left.now + length right.now < max_nodes }
    ensures { result.items ≡ left.now ++ right.now }
{
    let mut sets = ArrayVec::<IndexSet, MAX_NODES>::new();
    for set in left {
        sets.push(*set);
    }
    for set in right {
        sets.push(*set);
    }
    sets
}

// The sets with one more.
pub(crate) fn with_set(sets: &[IndexSet], own: IndexSet) -> ArrayVec<IndexSet, MAX_NODES>
    requires { length sets.now < max_nodes }
    ensures { result.items ≡ sets.now ++ own ∷ [] }
{
    let mut all = ArrayVec::<IndexSet, MAX_NODES>::new();
    for set in sets {
        all.push(*set);
    }
    all.push(own);
    all
}

#[tactic(auto, using(std::proofs::lemmas::List::append_assoc))]
/// The sets of the left operand's nodes, then those of the right one's, then the node's own. There are at most 32.
pub fn joined_sets(
    left: &[IndexSet],
    right: &[IndexSet],
    own: IndexSet,
) -> ArrayVec<IndexSet, MAX_NODES>
    requires { length left.now + length right.now < max_nodes }
    ensures { result.items ≡ left.now ++ (right.now ++ own ∷ []) }
{
    with_set(both_sets(left, right).as_slice(), own)
}
