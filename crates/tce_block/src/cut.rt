// Loops that are cut, and the blocks that they are cut into.
use arrayvec::ArrayVec;
use tce_space::MAX_LOOPS;

/// One loop of a box: its index, how many numbers it runs through, and the edge of the tiles at which it is cut.
#[derive(Clone, Copy, Default)]
pub struct Cut {
    /// The number of the loop's index, which no block depends on.
    pub index: u8,
    /// How many numbers the loop runs through, from 0 on: from 1 to 2^32 - 1.
    pub extent: u64,
    /// The loop is cut at the multiples of the edge, which is from 1 to the extent.
    pub edge: u64,
}

/// A block of a box: in each dimension its first number, and how many numbers it has there.
#[derive(Default, Drop, PartialEq, Eq)]
pub struct Block {
    /// The first number in each dimension.
    pub from: ArrayVec<u64, MAX_LOOPS>,
    /// How many numbers the block has in each dimension, at least 1.
    pub len: ArrayVec<u64, MAX_LOOPS>,
}
