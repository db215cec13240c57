//! Runs loop code over a machine: whole tails, bodies of operations, single operations and clearing are the machine's, other
//! loops are gone through here.
//!
//! The loop code of a tree is a flat list of operations. Loops that hold nothing but one operation, or that of a product
//! and then that of the sum that takes it, are a tail. A tail without a constant operand is handed to the machine whole,
//! so that it may run block by block.
//!
//! Other loops that stand directly in one another are a band, where it does not matter in which sequence their body comes to
//! their numbers. A band is cut at the edges of tiles, and all of a block is done before the next one. Blocks that share
//! tiles follow one another in groups. A body of operations
//! alone is handed to the machine with its block; any other is gone through at each of the block's numbers. Every loop that
//! begins neither a tail nor a band is run turn by turn.
//!
//! What a tail leaves does not depend on the sequence of its loops (`specs/Tails.antt`, `specs/TailLaws.antt`). A tail is
//! cut at the edges of tiles into blocks; what a part of its loops leaves is said in closed form, as a function of
//! states, and the parts, one after the other, leave what the tail leaves (`specs/Parts.antt`, `specs/PartLaws.antt`).
//! The functions of `tail_laws.rt`, `part_laws.rt` and `band_laws.rt` do nothing: their contracts are these laws.
#![tactic(auto)]

mod band_laws;
mod band_search;
mod combination;
mod counts;
mod cuts;
mod grouping;
mod indexes;
mod laws;
mod machine;
mod part_laws;
mod running;
mod search;
mod straight;
mod summands;
mod tail_laws;
mod term_runs;
mod terms;
mod values;
mod walk;

pub use band_laws::{blocks_make_bands, values_make_bands};
pub use cuts::cuts_of;
pub use laws::{joined_tails_are_known, single_tails_are_known, sum_tails_are_known};
pub use machine::{Body, Machine, Tail};
pub use part_laws::{parts_keep_words, parts_make_tails};
pub use running::run_program;
pub use tail_laws::{
    joined_tails_add_up, single_tails_end_at_last, sum_tails_add_up, touches_are_few,
};
pub use terms::{Combination, Term, TermOperand};
