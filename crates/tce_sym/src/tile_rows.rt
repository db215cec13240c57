// Rows of tiles: words that follow each other in an array file, along the last dimension.
ghost use Rattle.std.specs.Prelude.{◌≡◌, ◌<◌, ◌≤◌, length};
ghost use Rattle.tce_space.specs.Box.{IsInside};
ghost use Rattle.tce_space.specs.Tiling.{IsTiling, elements, padded_words};
ghost use Rattle.tce_tools.specs.Runs.{IsRowMajor};
ghost use Rattle.tce_sym.specs.TileRows.{IsWordOf, IsTileRow, ReachesEnd};

use crate::symmetry::push_all;
use arrayvec::ArrayVec;
use tce_space::{MAX_RANK, Shape};
use tce_tools::{coords_at, is_row_major};

/// Words that follow each other in a row of a tile, or of the array where its words are in row-major order.
#[derive(Drop)]
pub struct TileRow {
    /// The coordinates of the first word, which are beyond the extents where it is padding.
    pub coords: ArrayVec<u64, MAX_RANK>,
    /// How many words there are.
    pub len: u64,
    /// How many of them are elements; the others, behind them, are padding.
    pub used: u64,
}

// The coordinates of a word.
fn coords_of(shape: &Shape, word: u64) -> ArrayVec<u64, MAX_RANK>
    requires { word < padded_words shape.now }
    ensures { IsWordOf shape.now word result.items }
{
    let extents = shape.extents();
    let edges = shape.edges();
    let mut coords = ArrayVec::new();
    push_all(&mut coords, extents);
    let mut tile = word / shape.tile_words();
    let mut inner = word % shape.tile_words();
    for done in 0..extents.len() {
        let d = extents.len() - 1 - done;
        let edge = edges[d];
        let count = extents[d].div_ceil(edge);
        coords[d] = tile % count * edge + inner % edge;
        tile /= count;
        inner /= edge;
    }
    coords
}

// How many elements there are from these coordinates on, along the last dimension; none where they are beyond the extents.
fn elements_left(extents: &[u64], coords: &[u64]) -> u64
    requires rank { length coords.now ≡ length extents.now }
    requires some { 0 < length extents.now }
    ensures inside { 0 < result → IsInside extents.now coords.now }
    ensures row { ReachesEnd extents.now coords.now result }
    ensures outside { result ≡ 0 → IsInside extents.now coords.now → ⊥ }
{
    for d in 0..extents.len() {
        if extents[d] <= coords[d] {
            return 0;
        }
    }
    let last = extents.len() - 1;
    extents[last] - coords[last]
}

// The row of a tile from a word on.
fn tile_row(shape: &Shape, word: u64) -> TileRow
    requires word { word < padded_words shape.now }
    requires rank { 0 < length shape.now.extents }
    ensures { IsTileRow shape.now word result }
{
    let coords = coords_of(shape, word);
    let last = shape.edges().len() - 1;
    let edge = shape.edges()[last];
    let len = edge - coords[last] % edge;
    let used = elements_left(shape.extents(), coords.as_slice()).min(len);
    TileRow { coords, len, used }
}

// The row of the array from an element on, where words are in row-major order.
fn array_row(shape: &Shape, word: u64) -> TileRow
    requires word { word < elements shape.now }
    requires rank { 0 < length shape.now.extents }
    requires order { IsRowMajor shape.now }
    ensures { IsTileRow shape.now word result }
{
    let coords = coords_at(shape, word);
    let last = shape.extents().len() - 1;
    let len = shape.extents()[last] - coords[last];
    TileRow {
        coords,
        len,
        used: len,
    }
}

/// The row from a word on.
pub fn tile_row_at(shape: &Shape, word: u64) -> TileRow
    requires word { word < padded_words shape.now }
    requires rank { 0 < length shape.now.extents }
    ensures row { IsTileRow shape.now word result }
    ensures limits { IsTiling shape.now }
{
    let elements = shape.elements();
    if word < elements && is_row_major(shape) {
        return array_row(shape, word);
    }
    tile_row(shape, word)
}
