// Loops that are cut at the edges of their ranges.
ghost use Rattle.std.specs.Prelude.{◌≡◌, ◌<◌, ◌≤◌, length, map, All};
ghost use Rattle.tce_space.specs.Limits.{max_loops};
ghost use Rattle.tce_space.specs.Space.{extent_at, edge_at};
ghost use Rattle.tce_block.specs.Cuts.{IsCut, extents_of, edges_of, part_of};
ghost use Rattle.tce_walk.specs.TermRuns.{last_part};

use arrayvec::ArrayVec;
use tce_block::{Block, Cut};
use tce_space::{MAX_LOOPS, Space};

/// The cuts of loops, each with the extent and the edge of its index's range.
pub fn cuts_of(space: &Space, loops: &[u8]) -> ArrayVec<Cut, MAX_LOOPS>
    requires few { length loops.now ≤ max_loops }
    requires declared { All (λ i. i < length space.now.indexes) loops.now }
    ensures cuts { All IsCut result.items }
    ensures extents { extents_of result.items ≡ map (extent_at space.now) loops.now }
    ensures edges { edges_of result.items ≡ map (edge_at space.now) loops.now }
{
    let mut cuts = ArrayVec::new();
    for index in loops {
        let cut = Cut {
            index: *index,
            extent: space.extent(*index),
            edge: space.edge(*index),
        };
        cuts.push(cut);
    }
    cuts
}

// The last numbers of the loops, as a block.
pub(crate) fn last_block(space: &Space, loops: &[u8]) -> Block
    requires few { length loops.now ≤ max_loops }
    requires declared { All (λ i. i < length space.now.indexes) loops.now }
    ensures { part_of result ≡ last_part (extent_at space.now) loops.now }
{
    let mut block = Block::default();
    for index in loops {
        block.from.push(space.extent(*index) - 1);
        block.len.push(1);
    }
    block
}
