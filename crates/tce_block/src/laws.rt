// What holds of the blocks of every box.
ghost use Rattle.tce_block.specs.Laws.{BlocksCoverTheBox, BlocksFitTheBox, BlocksStayBetweenEdges, BlocksAreCounted};
ghost use Rattle.tce_block.specs.Last.{BlocksLast};
ghost use Rattle.tce_block.specs.Sums.{BlocksSum};

/// Each place of a box is in exactly one block, and no block reaches out of the box.
pub fn blocks_cover_the_box()
    ensures { BlocksCoverTheBox }
{}

/// In each dimension a block has at least one number and at most an edge, and ends inside the extent.
pub fn blocks_fit_the_box()
    ensures { BlocksFitTheBox }
{}

/// No block crosses a multiple of an edge.
pub fn blocks_stay_between_edges()
    ensures { BlocksStayBetweenEdges }
{}

/// There are as many blocks as the product of the least numbers of edges that cover the extents.
pub fn blocks_are_counted()
    ensures { BlocksAreCounted }
{}

/// A sum over a box modulo 2^64 is the sum of its sums over the blocks, whatever the orders of the loops.
pub fn blocks_sum()
    ensures { BlocksSum }
{}

/// The last assignment of a box is the last of its last block, also among those with given numbers at some indexes.
pub fn blocks_last()
    ensures { BlocksLast }
{}
