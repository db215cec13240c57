//! The lines of a plan's nodes, and the texts that `plan` and `run` report.
//!
//! Texts are bytes of ASCII. Indexes stand as their names with commas between them, `-` where there are none.
//! [`read_node_line`] reads a node's line back, without memory: a value is given exactly where its line is this line.
#![tactic(auto)]

mod laws;
mod name_lists;
mod node_form;
mod node_lines;
mod node_reader;
mod report;

pub use laws::written_lines_say_the_plan;
pub use name_lists::push_names;
pub use node_lines::node_line;
pub use node_reader::{LineFault, NodeLine, read_node_line};
pub use report::{plan_text, run_text};
