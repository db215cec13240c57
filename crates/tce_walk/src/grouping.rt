// How the blocks of a band follow one another.
ghost use Rattle.std.specs.Prelude.{◌≡◌, ◌<◌, ◌≤◌, length};
ghost use Rattle.std.specs.List.{All};
ghost use Rattle.tce_space.specs.Tiling.{counts_along};
ghost use Rattle.tce_space.specs.Limits.{max_loops};
ghost use Rattle.tce_block.specs.Cuts.{IsCut, extents_of, edges_of};

use crate::band_search::Band;
use crate::indexes::set_of;
use crate::straight::straight_body;
use crate::terms::{Term, TermOperand};
use crate::walk::Walk;
use arrayvec::ArrayVec;
use tce_block::Cut;
use tce_code::Op;
use tce_space::{IndexSet, MAX_INDEXES, MAX_LOOPS, MAX_NODES, Space};
use tce_tree::{Operand, Tree};

// How many tensors a band reads at most, each operation two.
const MAX_READINGS: usize = 2 * MAX_NODES;

// A tensor that each block of a band reads, and the loops inside the block over which it is read.
#[derive(Clone, Copy)]
pub(crate) struct Reading {
    tensor: u8,
    indexes: IndexSet,
    inside: IndexSet,
}

impl Default for Reading {
    fn default() -> Self {
        Reading {
            tensor: 0,
            indexes: IndexSet::empty(),
            inside: IndexSet::empty(),
        }
    }
}

pub(crate) type Readings = ArrayVec<Reading, MAX_READINGS>;

// Adds an operand, where it is a tensor.
fn add_operand(operand: &Operand, inside: IndexSet, readings: &mut Readings) {
    let Operand::Leaf(leaf) = operand else {
        return;
    };
    let Some(indexes) = set_of(leaf.indexes.as_slice()) else {
        return;
    };
    if readings.len() < MAX_READINGS {
        let reading = Reading {
            tensor: leaf.tensor,
            indexes,
            inside,
        };
        readings.push(reading);
    }
}

fn add_left(tree: &Tree, v: u8, inside: IndexSet, readings: &mut Readings) {
    if v < tree.count() {
        add_operand(tree.left(v), inside, readings);
    }
}

fn add_right(tree: &Tree, v: u8, inside: IndexSet, readings: &mut Readings) {
    if v < tree.count() {
        if let Some(right) = tree.right(v) {
            add_operand(right, inside, readings);
        }
    }
}

// What terms read.
pub(crate) fn readings_of_terms(tree: &Tree, terms: &[Term]) -> Readings {
    let mut readings = ArrayVec::new();
    for term in terms {
        let inside = set_of(term.loops.0.as_slice()).unwrap_or(IndexSet::empty());
        match term.operand {
            TermOperand::Product(v) => {
                add_left(tree, v, inside, &mut readings);
                add_right(tree, v, inside, &mut readings);
            }
            TermOperand::Left(v) => add_left(tree, v, inside, &mut readings),
            TermOperand::Right(v) => add_right(tree, v, inside, &mut readings),
        }
    }
    readings
}

// What the operations of a body read.
fn readings_of_body(tree: &Tree, ops: &[Op]) -> Readings {
    let mut readings = ArrayVec::new();
    for op in ops {
        match op {
            Op::Mul(v) | Op::Add(v) | Op::Sub(v) | Op::Acc(v) => {
                add_left(tree, *v, IndexSet::empty(), &mut readings);
                add_right(tree, *v, IndexSet::empty(), &mut readings);
            }
            Op::Open(_) | Op::Close | Op::Clear(_) => {}
        }
    }
    readings
}

// What the operations of a band's body read, where it has operations alone.
pub(crate) fn readings_of_band(walk: &Walk, band: &Band) -> Readings
    requires { band.now.at ≤ length walk.now.ops.now }
{
    match straight_body(walk.ops, band.at) {
        Some(ops) => readings_of_body(walk.tree, ops),
        None => ArrayVec::new(),
    }
}

// How many blocks a group has along each loop: some along the first, one along the second and all along the others; or all
// along each.
pub(crate) fn group_sizes(
    space: &Space,
    cuts: &[Cut],
    readings: &[Reading],
    frames: usize,
) -> ArrayVec<Cut, MAX_LOOPS>
    requires cuts { All IsCut cuts.now }
    requires few { length cuts.now ≤ max_loops }
    ensures cuts { All IsCut result.items }
    ensures counts { extents_of result.items ≡ counts_along (extents_of cuts.now) (edges_of cuts.now) }
{
    let first = first_size(space, cuts, readings, frames as u64);
    let mut sizes = ArrayVec::new();
    for d in 0..cuts.len() {
        let count = cuts[d].extent.div_ceil(cuts[d].edge);
        let size = size_along(d, first, count);
        let cut = Cut {
            index: cuts[d].index,
            extent: count,
            edge: size,
        };
        sizes.push(cut);
    }
    sizes
}

// How many of a loop's blocks a group has.
fn size_along(d: usize, first: u64, count: u64) -> u64
    requires { 0 < count }
    ensures some { 0 < result }
    ensures limit { result ≤ count }
{
    if first < 2 || d > 1 {
        count
    } else if d == 0 {
        first.min(count)
    } else {
        1
    }
}

// How many blocks along the first loop a group has; less than 2 where it has all blocks.
//
// It has as many as the frames hold, where these blocks share tiles that would be read again for each of them. Where each
// reading depends on the first two loops, two blocks of one tensor may be the same with both loops exchanged: then two.
fn first_size(space: &Space, cuts: &[Cut], readings: &[Reading], frames: u64) -> u64
    requires { All IsCut cuts.now }
{
    if cuts.len() < 2 || is_whole(&cuts[0]) || is_whole(&cuts[1]) {
        return 0;
    }
    let row = cuts[0].index;
    let column = cuts[1].index;
    let others = indexes_of(&cuts[2..]);
    let sweep = others.union(indexes_of(&cuts[1..2]));
    let mut swept = tiles_of(space, sweep);
    let mut own = tiles_of(space, others);
    let mut shared: u64 = 0;
    let mut shares = false;
    let mut depend = true;
    for reading in readings {
        let tiles = tiles_along(space, reading, others);
        swept = swept.saturating_add(tiles_along(space, reading, sweep));
        if has(reading.indexes, row) {
            own = own.saturating_add(tiles);
            depend = depend && has(reading.indexes, column);
        } else {
            shared = shared.saturating_add(tiles);
            shares = true;
        }
    }
    if !shares && depend {
        return if are_repeated(readings) { 2 } else { 0 };
    }
    if !shares || swept <= frames {
        return 0;
    }
    // (an eighth of the frames is left to what comes in between)
    (frames - frames / 8).saturating_sub(shared) / own.max(1)
}

// Whether a loop is one block.
fn is_whole(cut: &Cut) -> bool {
    cut.extent <= cut.edge
}

fn has(set: IndexSet, index: u8) -> bool {
    index < MAX_INDEXES as u8 && set.has(index)
}

fn indexes_of(cuts: &[Cut]) -> IndexSet {
    let mut indexes = IndexSet::empty();
    for cut in cuts {
        if cut.index < MAX_INDEXES as u8 {
            indexes = indexes.with(cut.index);
        }
    }
    indexes
}

// Whether a tensor is read twice.
fn are_repeated(readings: &[Reading]) -> bool {
    for k in 0..readings.len() {
        for j in 0..k {
            if readings[j].tensor == readings[k].tensor {
                return true;
            }
        }
    }
    false
}

// Into how many tiles the edges cut what is read along some loops.
fn tiles_along(space: &Space, reading: &Reading, loops: IndexSet) -> u64 {
    tiles_of(space, reading.indexes.meet(reading.inside.union(loops)))
}

fn tiles_of(space: &Space, loops: IndexSet) -> u64 {
    let mut tiles: u64 = 1;
    for i in 0..space.index_count() {
        if loops.has(i) {
            tiles = tiles.saturating_mul(space.extent(i).div_ceil(space.edge(i)));
        }
    }
    tiles
}
