//! Specifications from einsum texts: the labels of each operand, those of the output, a size for each label, and a path
//! that says in which order the operands are multiplied.
//!
//! The grammar of a text is `specs/Text.antt`.
#![tactic(auto)]

mod entries;
mod fault;
mod formula;
mod input;
mod label_set;
mod laws;
mod lines;
mod missized;
mod numbering;
mod parts;
mod path;
mod produced;
mod ranges;
mod size;
mod specification;
mod text;
mod words;

pub use fault::EinsumFault;
pub use input::{Input, read_input};
pub use laws::{
    every_path_has_the_value, every_text_has_its_value, examples_produce_their_texts,
    paths_leave_one_entry, paths_leave_their_entries, products_associate, products_commute,
    products_have_no_order, reading_is_the_grammar, sizes_are_few, specifications_have_the_value,
    sums_exchange, sums_have_no_order, sums_join, sums_move_out_of_left_operands,
    sums_move_out_of_right_operands, texts_have_one_reading,
};
pub use path::Item;
pub use size::Size;
pub use specification::from_einsum;
pub use text::Einsum;
