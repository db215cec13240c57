//! A block of words, seen as a list of fixed length, the runs over it, and the rooms that give blocks out.
#![tactic(auto)]

mod block;
mod bytes;
pub mod laws;
mod products;
mod room;
mod rows;
mod runs;
mod sums;
mod words;

pub use room::{HeapRoom, RefusingRoom, Room};
pub use runs::Strided;
pub use words::Words;
