//! The commands of the program as words, the files of specifications that they name, and how commands end: refusals,
//! statuses and what stands on the sink.
//!
//! [`read_command`] reads words. [`read_source`] reads the file of a specification whole, and then as what it is. A command is
//! refused with a [`Refusal`], whose [`Status`] has an exit status and a line; [`refuse`] puts that line on a sink, and
//! [`finish`] puts the report of a command that is done.
#![tactic(auto)]

mod command;
mod command_refusal;
mod laws;
mod line;
mod number;
mod reading;
mod refusal;
mod report;
mod source_laws;
mod source_reading;
mod status;
mod trouble;
mod trouble_line;

pub use command::Command;
pub use command_refusal::CommandRefusal;
pub use laws::words_are_one_command;
pub use number::read_number;
pub use reading::read_command;
pub use refusal::Refusal;
pub use report::{finish, refuse, refuse_words};
pub use source_laws::sources_have_one_outcome;
pub use source_reading::{is_memory, read_source, read_text};
pub use status::Status;
pub use trouble::{ArrayTrouble, CertFlaw, CertTrouble, EinsumTrouble, SpillTrouble, SymTrouble};
pub use trouble_line::TroubleLine;
