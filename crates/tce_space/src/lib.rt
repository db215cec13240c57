//! Index spaces: names, sets of indexes, loop orders, boxes of coordinates and the shapes of tiled arrays, with their limits.
//! The arithmetic of two numbers.
#![tactic(auto)]

mod arithmetic;
mod index_set;
mod limits;
mod loop_order;
mod name;
mod product;
mod row_major;
mod shape;
mod space;

pub use arithmetic::Arithmetic;
pub use index_set::{IndexSet, sets_are_their_members};
pub use limits::{
    COST_LIMIT, MAX_ARRAY_WORDS, MAX_INDEXES, MAX_LOOPS, MAX_MEMORY, MAX_NODES, MAX_RANGES,
    MAX_RANK, MAX_SPEC_BYTES, MAX_TENSORS, MAX_TILE_WORDS, MAX_VOLUME, Numbers,
};
pub use loop_order::LoopOrder;
pub use name::{FileName, Name, is_name};
pub use row_major::{place, places_are_in_order};
pub use shape::{Shape, ShapeFault, words_are_apart};
pub use space::{Space, SpaceFault, volumes_grow};
