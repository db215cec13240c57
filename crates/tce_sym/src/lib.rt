//! Symmetric storage: a tensor that does not change when two of its coordinates are exchanged, or that turns its sign
//! then, is stored once for each pair of these coordinates.
//!
//! A file of stored elements has a head of 32 bytes: the bytes `TCSYMM01`, the two positions, the lower first and counted
//! from 0, and the sign, 0 for a tensor that does not change and 1 for one that turns its sign, eight bytes each. Then come
//! the stored words: for each place of the other coordinates in row-major order all pairs, by the second coordinate and
//! then by the first. All numbers are little-endian.
//!
//! `specs/Storage.antt` says what is stored and where, and what the whole array is, `specs/Faults.antt` what opening a file
//! answers. The function of `laws.rt` does nothing: its contract is a law of these definitions.
#![tactic(auto)]

mod cells;
mod expansion;
mod fault;
mod laws;
mod lines;
mod opening;
mod rows;
mod slots;
mod symmetry;
mod tile_rows;
mod walks;
mod whole;

pub use expansion::{MOST_LINE_WORDS, expand, expand_through};
pub use fault::SymFault;
pub use laws::stored_places_are_theirs;
pub use opening::open_sym;
pub use symmetry::{Symmetry, stored_place};
