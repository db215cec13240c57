//! Boxes of loops, cut at the edges of tiles into blocks, and the loops over one block of words.
//!
//! A box has an extent in each dimension. It is cut at the multiples of an edge in each dimension. [`Blocks`] gives
//! the blocks one after the other in row-major order of their numbers, the last dimension fastest. No block is kept:
//! the next one is made from its numbers. [`GroupedBlocks`] gives them group by group: neighbouring blocks that share tiles
//! follow one another.
//!
//! In the loops over one block, operands and results stand at places that are a base and a step for each loop, and the
//! innermost loop is one run.
#![tactic(auto)]

mod blocks;
mod cut;
mod groups;
mod laws;
mod loops;
mod numbers;
mod results;
mod rows;
mod runs;
pub mod stride_laws;
mod sums;

pub use blocks::Blocks;
pub use cut::{Block, Cut};
pub use groups::GroupedBlocks;
pub use laws::{
    blocks_are_counted, blocks_cover_the_box, blocks_fit_the_box, blocks_last,
    blocks_stay_between_edges, blocks_sum,
};
pub use loops::{Loop, SumLoop};
pub use results::{compute, grow_by_products};
pub use sums::grow;
