// The blocks of a box, one after the other.
ghost use Rattle.std.specs.Prelude.{◌≡◌, ℕ, ◌+◌, ◌*◌, ◌≤◌, if◌then◌else◌, IsTrue, List, length, drop, replicate, slice_get, Some, None};
ghost use Rattle.std.specs.List.{All};
ghost use Rattle.std.specs.Option.{option_map};
ghost use Rattle.tce_space.specs.Limits.{max_loops};
ghost use Rattle.tce_block.specs.Parts.{Part, block as block_of, blocks, beginnings, lengths};
ghost use Rattle.tce_block.specs.Numbers.{IsNumbered};
ghost use Rattle.tce_block.specs.Cuts.{IsCut, extents_of, edges_of, part_of};

use crate::cut::{Block, Cut};
use crate::numbers::advance;
use arrayvec::ArrayVec;
use std::marker::Model;
use tce_space::MAX_LOOPS;

/// The blocks of a box that are still to come. Contracts see them as the list of these blocks; no block is kept.
#[derive(Drop)]
pub struct Blocks {
    extents: ArrayVec<u64, MAX_LOOPS>,
    edges: ArrayVec<u64, MAX_LOOPS>,
    counts: ArrayVec<u64, MAX_LOOPS>,
    numbers: ArrayVec<u64, MAX_LOOPS>,
    finished: bool,
}

impl Model for Blocks {
    ghost use Rattle.std.specs.Prelude.{List};
    ghost use Rattle.tce_block.specs.Parts.{Part};

    ghost Value = { List Part };

    ghost use Rattle.tce_block.specs.Inside.{blocks_left, IsRight};

    ghost view = { blocks_left };

    ghost invariant = { IsRight };
}

impl Blocks {
    /// All blocks of the box with these loops, in row-major order of their numbers: the last loop is the fastest.
    ///
    /// In each dimension the block with the number `b`, counted from 0, begins at `b * edge` and ends before the
    /// lesser of `(b + 1) * edge` and the extent. Without cuts there is one block, which has no dimensions. The
    /// indexes of the cuts do not matter here.
    pub fn new(cuts: &ArrayVec<Cut, MAX_LOOPS>) -> Self
        requires { All IsCut cuts.now.items }
        ensures { result ≡ blocks (extents_of cuts.now.items) (edges_of cuts.now.items) }
    {
        let mut extents = ArrayVec::new();
        let mut edges = ArrayVec::new();
        let mut counts = ArrayVec::new();
        let mut numbers = ArrayVec::new();
        for cut in cuts.as_slice() {
            extents.push(cut.extent);
            edges.push(cut.edge);
            counts.push(cut.extent.div_ceil(cut.edge));
            numbers.push(0);
        }
        Self {
            extents,
            edges,
            counts,
            numbers,
            finished: false,
        }
    }

    /// Begins with all blocks of a box, as `new` does. Where the box is that of before, its lists are kept.
    pub fn restart(&mut self, cuts: &ArrayVec<Cut, MAX_LOOPS>)
        requires { All IsCut cuts.now.items }
        ensures { self.new ≡ blocks (extents_of cuts.now.items) (edges_of cuts.now.items) }
    {
        if are_cut_so(cuts, &self.extents, &self.edges) {
            clear(&mut self.numbers);
            self.finished = false;
        } else {
            *self = Self::new(cuts);
        }
    }

    /// The next block, or `None` exactly after the last one, however often it is asked.
    pub fn next(&mut self) -> Option<Block>
        ensures block { option_map part_of result ≡ slice_get self.old 0 }
        ensures rest { self.new ≡ drop 1 self.old }
    {
        let mut block = Block::default();
        if self.next_in(&mut block) {
            Some(block)
        } else {
            None
        }
    }

    /// Makes `block` the next one in place, and tells whether there is one. After the last one there is none, however often
    /// it is asked.
    pub fn next_in(&mut self, block: &mut Block) -> bool
        ensures block { (if result then Some (part_of block.new) else None) ≡ slice_get self.old 0 }
        ensures rest { self.new ≡ drop 1 self.old }
    {
        if self.finished {
            return false;
        }
        fill_block(&self.extents, &self.edges, &self.numbers, block);
        self.finished = advance(&mut self.numbers, &self.counts);
        true
    }
}

// Whether cuts have these extents and edges.
fn are_cut_so(cuts: &[Cut], extents: &[u64], edges: &[u64]) -> bool
    ensures { IsTrue result
        → (extents.now ≡ extents_of cuts.now) × (edges.now ≡ edges_of cuts.now) }
{
    if extents.len() != cuts.len() || edges.len() != cuts.len() {
        return false;
    }
    for d in 0..cuts.len() {
        if extents[d] != cuts[d].extent || edges[d] != cuts[d].edge {
            return false;
        }
    }
    true
}

// Makes all numbers 0.
fn clear(numbers: &mut [u64])
    ensures { numbers.new ≡ replicate (length numbers.old) 0 }
{
    for d in 0..numbers.len() {
        numbers[d] = 0;
    }
}

// Makes the block the one with these numbers. The block before has as many dimensions, so that its lists are written over.
pub(crate) fn fill_block(extents: &[u64], edges: &[u64], numbers: &[u64], block: &mut Block)
    requires { IsNumbered extents.now edges.now numbers.now }
    ensures { part_of block.new ≡ block_of extents.now edges.now numbers.now }
{
    set_len(&mut block.from, numbers.len());
    set_len(&mut block.len, numbers.len());
    put_block(
        extents,
        edges,
        numbers,
        block.from.as_mut_slice(),
        block.len.as_mut_slice(),
    );
}

// Gives a list this length, if it has another one.
#[inline]
fn set_len(list: &mut ArrayVec<u64, MAX_LOOPS>, n: usize)
    requires { n ≤ max_loops }
    ensures { length list.new.items ≡ n }
{
    if list.len() == n {
        return;
    }
    list.clear();
    for _ in 0..n {
        list.push(0);
    }
}

// Puts where the block begins in each dimension, and how long it is there.
fn put_block(extents: &[u64], edges: &[u64], numbers: &[u64], from: &mut [u64], len: &mut [u64])
    requires numbers { IsNumbered extents.now edges.now numbers.now }
    requires from { length from.old ≡ length numbers.now }
    requires len { length len.old ≡ length numbers.now }
    ensures from { from.new ≡ beginnings edges.now numbers.now }
    ensures len { len.new ≡ lengths extents.now edges.now numbers.now }
{
    for d in 0..numbers.len() {
        let first = numbers[d] * edges[d];
        let end = (first + edges[d]).min(extents[d]);
        from[d] = first;
        len[d] = end - first;
    }
}
