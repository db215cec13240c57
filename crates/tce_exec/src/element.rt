// The elements of tensors.
ghost use Rattle.std.specs.Prelude.{◌≡◌, ◌<◌, ◌≤◌, length, map, slice_index, All};
ghost use Rattle.tce_space.specs.Limits.{max_indexes, max_rank};
ghost use Rattle.tce_space.specs.Box.{IsInside};
ghost use Rattle.tce_space.specs.Tiling.{tile_number, place_in_tile, tile_words, tiles, IsTiling};

use arrayvec::ArrayVec;
use tce_space::{MAX_RANK, Numbers, Shape};

/// Where an element of an array stands.
#[derive(Clone, Copy)]
pub struct ElementPlace {
    /// The number of its tile.
    pub tile: u64,
    /// How many words of the tile stand before it.
    pub place: u64,
}

/// The coordinates of the element that a tensor with these indexes has at these numbers. An index may stand twice.
pub fn coordinates_of(indexes: &[u8], numbers: &Numbers) -> ArrayVec<u64, MAX_RANK>
    requires rank { length indexes.now ≤ max_rank }
    requires known { All (λ i. i < max_indexes) indexes.now }
    ensures { result.items ≡ map (slice_index numbers.now) indexes.now }
{
    let mut coordinates = ArrayVec::new();
    for index in indexes {
        coordinates.push(numbers[*index as usize]);
    }
    coordinates
}

/// The tile in which the element with these coordinates lies, and its place there.
pub fn place_of_element(shape: &Shape, coordinates: &[u64]) -> ElementPlace
    requires { IsInside shape.now.extents coordinates.now }
    ensures tile { result.tile ≡ tile_number shape.now coordinates.now }
    ensures place { result.place ≡ place_in_tile shape.now coordinates.now }
    ensures tile_exists { result.tile < tiles shape.now }
    ensures in_tile { result.place < tile_words shape.now }
{
    let extents = shape.extents();
    let edges = shape.edges();
    let mut tile = 0;
    let mut place = 0;
    for d in 0..extents.len() {
        let edge = edges[d];
        tile = tile * extents[d].div_ceil(edge) + coordinates[d] / edge;
        place = place * edge + coordinates[d] % edge;
    }
    ElementPlace { tile, place }
}
