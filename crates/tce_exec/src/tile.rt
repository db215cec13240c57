// The windows of tiles.
ghost use Rattle.std.specs.Prelude.{◌≡◌, ◌+◌, ◌<◌, ◌≤◌, ◌^◌, length, map, slice_index, All};
ghost use Rattle.tce_space.specs.Limits.{max_indexes};
ghost use Rattle.tce_space.specs.Box.{IsInside};
ghost use Rattle.tce_space.specs.Tiling.{IsTiling, tile_words};
ghost use Rattle.tce_exec.specs.OperandWindows.{IsTileWindow, AreTileSteps};

use crate::element::{coordinates_of, place_of_element};
use crate::window::Window;
use tce_space::{MAX_INDEXES, Numbers, Shape};

/// Where the words of a tile stand from the first turn of a block on, whose numbers are `first`: `indexes` are those of
/// the tensor's dimensions, of which an index may have several, and `at` is the place of the tile's first word.
pub fn tile_window(shape: &Shape, indexes: &[u8], first: &Numbers, at: u64) -> Window
    requires known { All (λ i. i < max_indexes) indexes.now }
    requires inside { IsInside shape.now.extents (map (slice_index first.now) indexes.now) }
    requires room { at + tile_words shape.now ≤ 2 ^ 60 }
    ensures { IsTileWindow shape.now indexes.now (slice_index first.now) at result }
{
    let steps = tile_steps(shape, indexes);
    let coordinates = coordinates_of(indexes, first);
    let element = place_of_element(shape, &coordinates);
    Window {
        first: at + element.place,
        steps,
    }
}

/// How far apart the words of a tile stand, for each index: `indexes` are those of the tensor's dimensions.
pub fn tile_steps(shape: &Shape, indexes: &[u8]) -> Numbers
    requires known { All (λ i. i < max_indexes) indexes.now }
    requires each { length indexes.now ≡ length shape.now.extents }
    ensures steps { AreTileSteps shape.now.edges indexes.now result }
    ensures limits { IsTiling shape.now }
{
    let edges = shape.edges();
    let mut steps = [0; MAX_INDEXES];
    let mut behind = 1;
    for d in (0..indexes.len()).rev() {
        steps[indexes[d] as usize] += behind;
        behind *= edges[d];
    }
    steps
}
