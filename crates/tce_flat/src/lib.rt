//! The commands that move the elements of a tensor between its array file and a flat file, or into another form.
//!
//! [`pack`] makes an array file of a flat file, [`unpack`] a flat file of an array file, [`convert`] an array file of the
//! second version, and [`expand`] an array file of the elements that are stored once for each pair. Each reads a
//! specification, finds the tensor by its name, and moves the elements. What each leaves and reports is `specs/Done.antt`,
//! and why it refuses `specs/Refusals.antt`.
#![tactic(auto)]

mod commands;
mod expanding;
mod laws;
mod moving;
mod naming;
mod refusals;
mod tensor;

pub use commands::{convert, expand, pack, unpack};
pub use laws::flat_commands_have_one_answer;
