// Fusions and loop orders, and whether they fit a tree.
ghost use Rattle.std.specs.Prelude.{◌≡◌, ◌↔◌, ◌&&◌, IsTrue, IsPermutation, not};
ghost use Rattle.tce_space.specs.IndexSet.{IsIndexSet, has, members};
ghost use Rattle.tce_tree.specs.Fusion.{FusionFits, OrdersFit};
ghost use Rattle.tce_tree.specs.Orders.{lists_of};

use crate::tree::Tree;
use arrayvec::ArrayVec;
use tce_space::{IndexSet, LoopOrder, MAX_INDEXES, MAX_NODES};

/// The indexes that are fused on the edge from each node to its parent, by the node's number.
#[derive(Drop)]
pub struct Fusion(pub ArrayVec<IndexSet, MAX_NODES>);

/// The sequence of each node's loops, outermost first, by the node's number.
#[derive(Drop)]
pub struct Orders(pub ArrayVec<LoopOrder, MAX_NODES>);

impl Fusion {
    /// Whether there is one set per node, each within the node's dims, and the root's is empty.
    pub fn fits(&self, tree: &Tree) -> bool
        ensures { IsTrue result ↔ FusionFits tree.now self.now.0.items }
    {
        let count = tree.count();
        if self.0.len() != count as usize {
            return false;
        }
        for v in 0..count {
            if !self.0[v as usize].within(tree.dims(v)) {
                return false;
            }
        }
        self.0[count as usize - 1] == IndexSet::empty()
    }
}

impl Orders {
    /// Whether there is one order per node, each a permutation of the node's loops.
    pub fn fits(&self, tree: &Tree) -> bool
        ensures { IsTrue result ↔ OrdersFit tree.now (lists_of self.now.0.items) }
    {
        let count = tree.count();
        if self.0.len() != count as usize {
            return false;
        }
        for v in 0..count {
            if !is_order_of(self.0[v as usize].0.as_slice(), tree.loops(v)) {
                return false;
            }
        }
        true
    }
}

/// Whether the order has each of the loops once, and nothing else.
pub fn is_order_of(order: &[u8], loops: IndexSet) -> bool
    ensures { IsTrue result ↔ IsPermutation (members loops) order.now }
{
    let _bits = loops.bits();
    let mut seen = IndexSet::empty();
    for index in order {
        if !is_new(*index, loops, seen) {
            return false;
        }
        seen = seen.with(*index);
    }
    seen == loops
}

// Whether the number is one of the loops, and has not been seen.
fn is_new(index: u8, loops: IndexSet, seen: IndexSet) -> bool
    requires { IsIndexSet loops }
    ensures { result ≡ (has loops index && not (has seen index)) }
{
    if index >= MAX_INDEXES as u8 {
        return false;
    }
    loops.has(index) && !seen.has(index)
}
