// Bands: elements that stand together in a flat file, and in pieces in an array file.
ghost use Rattle.std.specs.Prelude.{◌≡◌, ◌*◌, ◌%◌, ◌<◌, false, IsTrue, length, drop};
ghost use Rattle.tce_space.specs.Box.{place, product, IsInside};
ghost use Rattle.tce_space.specs.Tiling.{elements, padded_words, tile_words, tile_counts, word_number};
ghost use Rattle.tce_tools.specs.Bands.{IsBand, IsBehind};

use crate::run::{coords_at, is_row_major, steps_left, word_number};
use tce_space::Shape;

/// The most elements of a band, and the most words of its pieces.
pub const LONGEST_BAND: usize = 32768;

/// Elements that follow each other in row-major order, and that stand in an array file in pieces of one length, at equal
/// distances.
#[derive(Clone, Copy)]
pub struct Band {
    /// The place of the first element in row-major order.
    pub start: u64,
    /// How many elements there are.
    pub len: u64,
    /// The number of the first word of the first piece.
    pub word: u64,
    /// How many pieces there are.
    pub pieces: u64,
    /// The words of a piece.
    pub piece_len: u64,
    /// The words from the start of a piece to that of the next one.
    pub stride: u64,
}

// What a step along a dimension takes: the elements, and the tiles and the words of a tile, of the dimensions behind it.
#[derive(Clone, Copy)]
struct Behind {
    dimension: usize,
    elements: u64,
    tiles: u64,
    words: u64,
}

// The last dimension.
fn last_dimension(shape: &Shape) -> Behind
    requires { 0 < length shape.now.extents }
    ensures behind { IsBehind shape.now result }
    ensures single { result.elements ≡ 1 }
{
    Behind {
        dimension: shape.extents().len() - 1,
        elements: 1,
        tiles: 1,
        words: 1,
    }
}

// The first dimension of which a step fits the longest band, with its padding.
fn first_short(shape: &Shape) -> Behind
    requires { 0 < length shape.now.extents }
    ensures { IsBehind shape.now result }
{
    let extents = shape.extents();
    let edges = shape.edges();
    let mut elements = shape.elements();
    let mut tiles = shape.tiles();
    let mut words = shape.tile_words();
    for dimension in 0..extents.len() {
        elements /= extents[dimension];
        tiles /= extents[dimension].div_ceil(edges[dimension]);
        words /= edges[dimension];
        if tiles <= LONGEST_BAND as u64 / words {
            return Behind {
                dimension,
                elements,
                tiles,
                words,
            };
        }
    }
    last_dimension(shape)
}

// The rest of the tile, or of the array, along a dimension, from the first element of a step on.
fn steps_at(shape: &Shape, start: u64, behind: Behind) -> Band
    requires element { start < elements shape.now }
    requires behind { IsBehind shape.now behind }
    requires first { start % behind.elements ≡ 0 }
    ensures band { IsBand shape.now result }
    ensures start { result.start ≡ start }
{
    let coords = coords_at(shape, start);
    let in_band = LONGEST_BAND as u64 / (behind.tiles * behind.words);
    let steps = steps_left(shape, coords.as_slice(), behind.dimension).min(in_band);
    Band {
        start,
        len: steps * behind.elements,
        word: word_number(shape, coords.as_slice()),
        pieces: behind.tiles,
        piece_len: steps * behind.words,
        stride: shape.tile_words(),
    }
}

/// The band from this element on, in row-major order.
pub fn band_at(shape: &Shape, start: u64) -> Band
    requires { start < elements shape.now }
    ensures band { IsBand shape.now result }
    ensures start { result.start ≡ start }
{
    let elements = shape.elements();
    if is_row_major(shape) {
        let len = (elements - start).min(LONGEST_BAND as u64);
        return Band {
            start,
            len,
            word: start,
            pieces: 1,
            piece_len: len,
            stride: len,
        };
    }
    let behind = first_short(shape);
    if start % behind.elements == 0 {
        return steps_at(shape, start, behind);
    }
    steps_at(shape, start, last_dimension(shape))
}
