//! Certificates: plans as texts, which anyone may write and check.
//!
//! A certificate has the lines of a plan's nodes, as in a report, its memory, and the table of each node but the root. Each
//! line is read here: a value is given exactly where its line is this line. The readers of single lines, of the opening, the
//! memory, the head of a table, a row and the end, take no memory.
#![tactic(auto)]

mod classes;
mod cursor;
mod cut;
mod due;
mod fault;
mod forms;
mod laws;
mod names;
mod nodes;
mod read;
mod rows;
mod tables;
mod write;

pub use cut::cut_at;
pub use fault::CertFault;
pub use forms::{has_form, is_end_line, is_opening_line, read_memory_line, read_table_line};
pub use laws::{certificates_have_no_fault, first_faults_are_alone, plans_are_their_certificates};
pub use read::read_cert;
pub use rows::read_row_line;
pub use write::write_cert;
