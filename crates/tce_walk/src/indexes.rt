// Lists of loops, and the indexes that they name.
ghost use Rattle.std.specs.Prelude.{◌≡◌, ◌<◌, not, length, All, IsTrue, IfSome};
ghost use Rattle.std.specs.List.{list_all};
ghost use Rattle.tce_space.specs.IndexSet.{has};
ghost use Rattle.tce_tree.specs.ContractionTree.{operations};
ghost use Rattle.tce_tree.specs.WellFormed.{among, is_distinct};
ghost use Rattle.tce_walk.specs.FoundTerms.{AreSummed, IsSetOf};

use arrayvec::ArrayVec;
use tce_space::{IndexSet, LoopOrder, MAX_INDEXES, Space};
use tce_tree::Tree;

// Whether this is none of the loops.
pub(crate) fn is_apart(loops: &[u8], i: u8) -> bool
    ensures { IsTrue result → IsTrue (not (among loops.now i)) }
{
    for d in 0..loops.len() {
        if loops[d] == i {
            return false;
        }
    }
    true
}

// Whether no loop stands twice.
pub(crate) fn are_distinct(loops: &[u8]) -> bool
    ensures { IsTrue result → IsTrue (is_distinct loops.now) }
{
    match loops {
        [] => true,
        [first, rest @ ..] => is_apart(rest, *first) && are_distinct(rest),
    }
}

// Whether all loops are in the set.
pub(crate) fn are_in(set: IndexSet, loops: &[u8]) -> bool
    ensures { IsTrue result → IsTrue (list_all (has set) loops.now) }
{
    for d in 0..loops.len() {
        if loops[d] >= MAX_INDEXES as u8 || !set.has(loops[d]) {
            return false;
        }
    }
    true
}

// Whether no loop is in the set.
pub(crate) fn are_outside(set: IndexSet, loops: &[u8]) -> bool
    ensures { IsTrue result → IsTrue (list_all (λ i. not (has set i)) loops.now) }
{
    for d in 0..loops.len() {
        if loops[d] >= MAX_INDEXES as u8 || set.has(loops[d]) {
            return false;
        }
    }
    true
}

// Whether all loops are declared.
pub(crate) fn are_declared(space: &Space, loops: &[u8]) -> bool
    ensures { IsTrue result → All (λ i. i < length space.now.indexes) loops.now }
{
    for d in 0..loops.len() {
        if loops[d] >= space.index_count() {
            return false;
        }
    }
    true
}

// The set of loops, where they are numbers of indexes.
pub(crate) fn set_of(loops: &[u8]) -> Option<IndexSet>
    ensures { IfSome result (IsSetOf loops.now) }
{
    for d in 0..loops.len() {
        if loops[d] >= MAX_INDEXES as u8 {
            return None;
        }
    }
    Some(IndexSet::of_list(loops))
}

// Whether the loops are those over which the node sums, each once.
pub(crate) fn are_summed(tree: &Tree, v: u8, loops: &[u8]) -> bool
    requires { v < operations tree.now }
    ensures { IsTrue result → AreSummed tree.now v loops.now }
{
    let _nodes = tree.count();
    match set_of(loops) {
        Some(set) => are_distinct(loops) && set == tree.loops(v).minus(tree.dims(v)),
        None => false,
    }
}

// The loops once more, where they are few.
pub(crate) fn copied(loops: &[u8]) -> Option<LoopOrder>
    ensures { IfSome result (λ copy. copy.0.items ≡ loops.now) }
{
    let mut copy = LoopOrder(ArrayVec::new());
    if copy.0.try_extend_from_slice(loops).is_err() {
        return None;
    }
    Some(copy)
}
