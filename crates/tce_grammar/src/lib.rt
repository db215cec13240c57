//! The lines of a specification: tokens, names, formulas and the four forms of a line.
//!
//! A specification is a text of lines. This crate says what each line says, exactly: [`first_line`] cuts a text into
//! its lines, and [`read_line`] reads one. A line is skipped, or it says one [`Statement`], or it has none of the four
//! forms. What the statements of a text mean together, and which numbers and names may stand, is for the crate above.
//!
//! The grammar is `specs/Grammar.antt`, over the tokens of `specs/Tokens.antt`. Tokens, statements and formulas borrow
//! the text. Numbers stay texts of digits of any length.
//!
//! The canonical text of statements is `specs/Canonical.antt`; a [`Printer`] prints tokens with its spaces. The
//! functions that do nothing carry laws of these definitions: a line has one reading, and a canonical text says the
//! statements that it was made of.
#![tactic(auto)]

mod formula;
mod laws;
mod line;
mod lines;
mod name;
mod parser;
mod printer;
mod read_error;
mod statement;
mod token;
mod tokenizer;

pub use formula::Formula;
pub use laws::{
    canonical_examples_are_printed, canonical_formulas_mean_themselves,
    canonical_texts_say_their_statements, every_line_has_one_reading, examples_are_their_lines,
    joined_lines_are_the_lines, printed_tokens_are_read_back, text_examples_have_their_lines,
    tokens_print_the_line,
};
pub use line::{Line, read_line};
pub use lines::first_line;
pub use name::name_of;
pub use printer::Printer;
pub use statement::Statement;
pub use token::Token;
