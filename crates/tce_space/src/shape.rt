// The shape of an array that is cut into tiles.
ghost use Rattle.std.specs.Prelude.{◌≡◌, ◌<◌, ◌≤◌, ◌^◌, length, All, IfOk, ⊤};
ghost use Rattle.tce_space.specs.Limits.{max_rank};
ghost use Rattle.tce_space.specs.Tiling.{Tiling, ArePositive, WordsAreApart, counts_along, no_dimensions, tile_words, padded_words, tiling_with};
ghost use Rattle.tce_space.specs.Refusals.{RefusesTiles, RefusesArrays};

use crate::limits::{MAX_ARRAY_WORDS, MAX_RANK, MAX_TILE_WORDS};
use crate::product::{product_of, product_within};
use arrayvec::ArrayVec;
use std::alloc::AllocError;
use std::marker::Model;

/// Why there is no array of some ranges.
#[derive(Clone, Copy)]
pub enum ShapeFault {
    /// A tile has more than 2^20 words.
    TileWords,
    /// The tiles together have more than 2^48 words.
    ArrayWords,
}

/// The extents of an array, and the edges of the tiles into which it is cut.
///
/// A tile has at most 2^20 words, and all tiles together have at most 2^48. Tiles that reach over an extent are padded.
#[derive(Drop)]
pub struct Shape {
    extents: ArrayVec<u64, MAX_RANK>,
    edges: ArrayVec<u64, MAX_RANK>,
}

impl Model for Shape {
    ghost use Rattle.tce_space.specs.Tiling.{Tiling, IsTiling};

    ghost Value = { Tiling };

    ghost view = { λ s. record { extents = s.extents.items; edges = s.edges.items } };

    ghost invariant = { λ s. IsTiling (record { extents = s.extents.items; edges = s.edges.items }) };
}

// In each dimension the number of tiles.
fn tile_counts_of(extents: &[u64], edges: &[u64]) -> ArrayVec<u64, MAX_RANK>
    requires same_rank { length edges.now ≡ length extents.now }
    requires rank { length extents.now ≤ max_rank }
    requires positive { ArePositive edges.now }
    ensures { result.items ≡ counts_along extents.now edges.now }
{
    let mut counts = ArrayVec::new();
    for d in 0..extents.len() {
        counts.push(extents[d].div_ceil(edges[d]));
    }
    counts
}

// The shape with these extents and edges.
pub(crate) fn shape_of(
    extents: ArrayVec<u64, MAX_RANK>,
    edges: ArrayVec<u64, MAX_RANK>,
) -> Result<Shape, ShapeFault>
    requires same_rank { length edges.items ≡ length extents.items }
    requires sizes { All (λ n. (0 < n) × (n < 2 ^ 32)) extents.items }
    requires positive { ArePositive edges.items }
    ensures made { IfOk result (λ shape. shape ≡ tiling_with extents.items edges.items) }
    ensures tile_words { RefusesTiles (tiling_with extents.items edges.items) result }
    ensures array_words { RefusesArrays (tiling_with extents.items edges.items) result }
{
    let Some(tile_words) = product_within(edges.as_slice(), MAX_TILE_WORDS) else {
        return Err(ShapeFault::TileWords);
    };
    let counts = tile_counts_of(extents.as_slice(), edges.as_slice());
    match product_within(counts.as_slice(), MAX_ARRAY_WORDS / tile_words) {
        Some(_) => Ok(Shape { extents, edges }),
        None => Err(ShapeFault::ArrayWords),
    }
}

impl Shape {
    ghost use Rattle.tce_space.specs.Tiling.{IsTiling, tile_words, tiles, padded_words, elements, file_len};

    /// The extents, in elements.
    pub fn extents(&self) -> &[u64]
        ensures items { result.now ≡ self.now.extents }
        ensures limits { IsTiling self.now }
    {
        self.extents.as_slice()
    }

    /// The edges of a tile, in elements.
    pub fn edges(&self) -> &[u64]
        ensures items { result.now ≡ self.now.edges }
        ensures limits { IsTiling self.now }
    {
        self.edges.as_slice()
    }

    /// How many words a tile has.
    pub fn tile_words(&self) -> u64
        ensures words { result ≡ tile_words self.now }
        ensures limits { IsTiling self.now }
    {
        product_of(self.edges())
    }

    /// How many tiles there are.
    pub fn tiles(&self) -> u64
        ensures tiles { result ≡ tiles self.now }
        ensures limits { IsTiling self.now }
    {
        product_of(tile_counts_of(self.extents(), self.edges()).as_slice())
    }

    /// How many words the tiles have together.
    pub fn padded_words(&self) -> u64
        ensures words { result ≡ padded_words self.now }
        ensures limits { IsTiling self.now }
    {
        self.tile_words() * self.tiles()
    }

    /// How many elements the array has.
    pub fn elements(&self) -> u64
        ensures elements { result ≡ elements self.now }
        ensures within { result ≤ padded_words self.now }
        ensures limits { IsTiling self.now }
    {
        product_of(self.extents())
    }

    /// How many bytes the file of the array has: its head, and eight bytes for each word of the tiles.
    pub fn file_len(&self) -> u64
        ensures bytes { result ≡ file_len self.now }
        ensures limits { IsTiling self.now }
    {
        16 + 16 * self.extents().len() as u64 + 8 * self.padded_words()
    }
}

/// A clone takes no memory.
impl Clone for Shape {
    ghost is_clone = { λ s t. t ≡ s };

    ghost is_infallible = { λ _. ⊤ };

    fn clone(&self) -> Result<Self, AllocError> {
        Ok(Shape {
            extents: self.extents.clone()?,
            edges: self.edges.clone()?,
        })
    }
}

/// The shape of an array of one element.
impl Default for Shape {
    ghost is_default = { λ s. s ≡ no_dimensions };

    fn default() -> Self {
        Shape {
            extents: ArrayVec::new(),
            edges: ArrayVec::new(),
        }
    }
}

/// Different elements are different words of the file.
pub fn words_are_apart()
    ensures { WordsAreApart }
{}
