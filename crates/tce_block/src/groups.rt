// The blocks of a box, group by group.
ghost use Rattle.std.specs.Prelude.{◌≡◌, ◌+◌, ◌<◌, ◌≤◌, ◌^◌, ◌⊎◌, ℕ, if◌then◌else◌, IsTrue, List, length, map, drop, slice_get, get_or, Some, None};
ghost use Rattle.std.specs.List.{All};
ghost use Rattle.tce_space.specs.Limits.{max_loops};
ghost use Rattle.tce_space.specs.Tiling.{counts_along};
ghost use Rattle.tce_block.specs.Parts.{Part};
ghost use Rattle.tce_block.specs.Numbers.{AreWithin};
ghost use Rattle.tce_block.specs.Cuts.{IsCut, extents_of, edges_of, part_of};
ghost use Rattle.tce_block.specs.Grouped.{HasLengths, grouped_blocks, ones, pairs_left, shifted};

use crate::blocks::{Blocks, fill_block};
use crate::cut::{Block, Cut};
use arrayvec::ArrayVec;
use std::marker::Model;
use tce_space::MAX_LOOPS;

/// The blocks of a box that are still to come, where the blocks of a group follow one another. Contracts see them as the
/// list of these blocks; no block is kept.
#[derive(Drop)]
pub struct GroupedBlocks {
    extents: ArrayVec<u64, MAX_LOOPS>,
    edges: ArrayVec<u64, MAX_LOOPS>,
    // The groups behind this one: parts of the box of the blocks' numbers.
    groups: Blocks,
    group: Block,
    // The numbers of this group that are still to come, counted from its first.
    numbers: Blocks,
}

impl Model for GroupedBlocks {
    ghost use Rattle.std.specs.Prelude.{List};
    ghost use Rattle.tce_block.specs.Parts.{Part};

    ghost Value = { List Part };

    ghost use Rattle.tce_block.specs.Grouped.{grouped_left, IsGrouped};

    ghost view = { grouped_left };

    ghost invariant = { IsGrouped };
}

impl GroupedBlocks {
    /// All blocks of the box with these loops. `sizes` cut the box of the blocks' numbers: in each dimension its extent is
    /// the count of blocks, and its edge says how many of them a group has. Groups, and the blocks of one, come in row-major
    /// order of their numbers: the last loop is the fastest.
    pub fn new(cuts: &ArrayVec<Cut, MAX_LOOPS>, sizes: &ArrayVec<Cut, MAX_LOOPS>) -> Self
        requires cuts { All IsCut cuts.now.items }
        requires sizes { All IsCut sizes.now.items }
        requires counts { extents_of sizes.now.items ≡ counts_along (extents_of cuts.now.items) (edges_of cuts.now.items) }
        ensures { result ≡ grouped_blocks (extents_of cuts.now.items) (edges_of cuts.now.items) (edges_of sizes.now.items) }
    {
        let mut extents = ArrayVec::new();
        let mut edges = ArrayVec::new();
        for cut in cuts.as_slice() {
            extents.push(cut.extent);
            edges.push(cut.edge);
        }
        let point = ArrayVec::new();
        let mut numbers = Blocks::new(&point);
        let _point = numbers.next();
        Self {
            extents,
            edges,
            groups: Blocks::new(sizes),
            group: Block::default(),
            numbers,
        }
    }

    /// Makes `block` the next one in place, and tells whether there is one. After the last one there is none, however often
    /// it is asked.
    pub fn next_in(&mut self, block: &mut Block) -> bool
        ensures block { (if result then Some (part_of block.new) else None) ≡ slice_get self.old 0 }
        ensures rest { self.new ≡ drop 1 self.old }
    {
        let mut number = Block::default();
        if !next_number(
            &mut self.groups,
            &mut self.group,
            &mut self.numbers,
            &mut number,
        ) {
            return false;
        }
        let numbers = shifted_numbers(self.group.from.as_slice(), number.from.as_slice());
        fill_block(&self.extents, &self.edges, &numbers, block);
        true
    }
}

// Makes `number` the next one, in the next group where this one has no more, and tells whether there is one.
fn next_number(
    groups: &mut Blocks,
    group: &mut Block,
    numbers: &mut Blocks,
    number: &mut Block,
) -> bool
    requires { All HasLengths groups.old }
    ensures pair { (if result then Some (part_of group.new, part_of number.new) else None)
        ≡ slice_get (pairs_left (part_of group.old) numbers.old groups.old) 0 }
    ensures rest { pairs_left (part_of group.new) numbers.new groups.new
        ≡ drop 1 (pairs_left (part_of group.old) numbers.old groups.old) }
    ensures groups { (groups.new ≡ groups.old) ⊎ (groups.new ≡ drop 1 groups.old) }
{
    if numbers.next_in(number) {
        return true;
    }
    if !groups.next_in(group) {
        return false;
    }
    let cuts = single_cuts(group.len.as_slice());
    numbers.restart(&cuts);
    numbers.next_in(number)
}

// Loops of these lengths, whose blocks are single numbers.
fn single_cuts(lengths: &[u64]) -> ArrayVec<Cut, MAX_LOOPS>
    requires lengths { AreWithin lengths.now (ones lengths.now) }
    requires few { length lengths.now ≤ max_loops }
    ensures cuts { All IsCut result.items }
    ensures extents { extents_of result.items ≡ lengths.now }
    ensures edges { edges_of result.items ≡ ones lengths.now }
{
    let mut cuts = ArrayVec::new();
    for extent in lengths {
        let cut = Cut {
            index: 0,
            extent: *extent,
            edge: 1,
        };
        cuts.push(cut);
    }
    cuts
}

// The numbers, counted from others on.
fn shifted_numbers(from: &[u64], numbers: &[u64]) -> ArrayVec<u64, MAX_LOOPS>
    requires long { length from.now ≡ length numbers.now }
    requires few { length numbers.now ≤ max_loops }
    requires low { (d : ℕ) → d < length numbers.now → get_or from.now d 0 + get_or numbers.now d 0 < 2 ^ 32 }
    ensures { result.items ≡ shifted from.now numbers.now }
{
    let mut shifted = ArrayVec::new();
    for d in 0..numbers.len() {
        shifted.push(from[d] + numbers[d]);
    }
    shifted
}
