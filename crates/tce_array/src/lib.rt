//! Array files: a head with the rank, the extents and the edges of the tiles, and then the words, tile by tile.
//!
//! The tiles stand in row-major order of their numbers, and the words of a tile in row-major order of the
//! coordinates inside it. A word of a tile that is no element is padding: it is written as 0 and never looked at.
//! A [`Form`] says how many bytes a word takes. All numbers are little-endian.
//!
//! `specs/Forms.antt` says what a file, its elements and their places are, `specs/Faults.antt` what opening a file
//! answers. The functions of `laws.rt` do nothing: their contracts are laws of these definitions.
#![tactic(auto)]

mod element;
mod fault;
mod form;
mod head;
mod laws;
mod opening;
mod place;

pub use element::address;
pub use fault::ArrayFault;
pub use form::Form;
pub use laws::{
    files_are_their_elements, files_hold_their_elements, forms_are_told, heads_come_last,
    padding_is_zero, parts_hold_their_words, places_are_apart, tile_writes_stay_in_their_tile,
    tiles_stand_together, words_that_fit, writes_change_their_words,
};
pub use opening::{create, open, write_head};
pub use place::form_len;
