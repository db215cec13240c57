// Runs of elements that stand together in a file, whether it is flat or cut into tiles.
ghost use Rattle.std.specs.Prelude.{◌≡◌, ◌<◌, ◌≤◌, false, IsTrue, length};
ghost use Rattle.tce_space.specs.Box.{place, IsInside};
ghost use Rattle.tce_space.specs.Tiling.{IsTiling, elements, padded_words, word_number};
ghost use Rattle.tce_tools.specs.Runs.{IsRun, IsRowMajor};
ghost use Rattle.tce_tools.specs.Bands.{StaysInArray, StaysInTile};

use arrayvec::ArrayVec;
use tce_array::{Form, address};
use tce_space::{MAX_RANK, Shape};

/// The most elements of a run.
pub const LONGEST_RUN: usize = 4096;

/// Elements that follow each other both in row-major order and tile by tile.
#[derive(Clone, Copy)]
pub struct Run {
    /// The place of the first element in row-major order.
    pub start: u64,
    /// The number of its word in an array file.
    pub word: u64,
    /// How many elements there are.
    pub len: u64,
}

/// The coordinates of the element at this place in row-major order.
pub fn coords_at(shape: &Shape, number: u64) -> ArrayVec<u64, MAX_RANK>
    requires { number < elements shape.now }
    ensures inside { IsInside shape.now.extents result.items }
    ensures place { place shape.now.extents result.items ≡ number }
    ensures few { elements shape.now ≤ padded_words shape.now }
    ensures limits { IsTiling shape.now }
{
    let mut coords = ArrayVec::new();
    let mut rest = shape.elements();
    let mut left = number;
    let extents = shape.extents();
    for extent in extents {
        rest /= *extent;
        coords.push(left / rest);
        left %= rest;
    }
    coords
}

/// How many words stand before an element's in an array file.
pub fn word_number(shape: &Shape, coords: &[u64]) -> u64
    requires { IsInside shape.now.extents coords.now }
    ensures { result ≡ word_number shape.now coords.now }
{
    (address(Form::One, shape, coords) - Form::One.head_len(shape)) / 8
}

/// Whether the words of an array file are in row-major order: there is one dimension, or tiles of one element, or one
/// tile without padding.
pub fn is_row_major(shape: &Shape) -> bool
    ensures yes { IsTrue result → IsRowMajor shape.now }
    ensures no { result ≡ false → 1 < length shape.now.extents }
{
    if shape.extents().len() < 2 {
        return true;
    }
    shape.tile_words() == 1 || shape.edges() == shape.extents()
}

/// How many steps along a dimension are left in the tile and in the array.
pub fn steps_left(shape: &Shape, coords: &[u64], dimension: usize) -> u64
    requires coords { IsInside shape.now.extents coords.now }
    requires dimension { dimension < length shape.now.extents }
    ensures some { 0 < result }
    ensures in_array { StaysInArray shape.now coords.now dimension result }
    ensures in_tile { StaysInTile shape.now coords.now dimension result }
{
    let extent = shape.extents()[dimension];
    let edge = shape.edges()[dimension];
    let x = coords[dimension];
    (extent - x).min(edge - x % edge)
}

/// The run from this element on, in row-major order: in tiles the rest of a tile's row.
pub fn run_at(shape: &Shape, start: u64) -> Run
    requires { start < elements shape.now }
    ensures run { IsRun shape.now result }
    ensures start { result.start ≡ start }
{
    if is_row_major(shape) {
        let len = (shape.elements() - start).min(LONGEST_RUN as u64);
        return Run {
            start,
            word: start,
            len,
        };
    }
    let coords = coords_at(shape, start);
    let last = shape.extents().len() - 1;
    let row = steps_left(shape, coords.as_slice(), last);
    Run {
        start,
        word: word_number(shape, coords.as_slice()),
        len: row.min(LONGEST_RUN as u64),
    }
}
