//! Where the intermediates of a fusion stand in one list of words.
//!
//! [`lay_out`] gives each node but the root a slot with one word for each assignment of its dims that are not fused, in
//! row-major order of the indexes by number. The root is the result and has no slot.
#![tactic(auto)]

mod layout;
mod slot;

pub use layout::lay_out;
pub use slot::{Layout, Slot};
