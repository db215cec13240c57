//! The commands that run formulas: each reads a specification, and writes the files of results from those of operands.
//!
//! [`run`] writes one result and gives the report. What it leaves and reports is `specs/Done.antt`, and why it is refused
//! `specs/Refusals.antt`. [`refusal_of`] tells a fault of a run, and [`array_refusal`] that of an array, for all commands here.
//!
//! [`run_all`] runs the formulas of a file in order, so that the files of earlier results are those of later operands.
//! [`read_batch_source`] reads them (`specs/BatchSource.antt`). What they leave and report is `specs/BatchDone.antt`, and why
//! they are refused `specs/BatchRefusals.antt`. [`spill`] runs the pieces of a tree that is cut for a limit of memory
//! (`specs/SpillDone.antt`, `specs/SpillRefusals.antt`).
//!
//! [`demo`] writes the files of an example, runs it, and reports the memory of the run and the sum of the result's elements.
//! What it leaves and reports is `specs/DemoDone.antt`. An example is a specification with extents that can be chosen, and
//! arrays of its operands. [`make_example`] makes the text and reads it, and [`write_input`] writes the files that a run of it
//! needs. What the text specifies is `specs/DemoSpecification.antt`, and what the files hold `specs/DemoFiles.antt`.
#![tactic(auto)]

mod batch;
mod batch_reading;
mod command;
mod demo_command;
mod demo_input;
mod demo_laws;
mod demo_report;
mod demo_running;
mod demo_sum;
mod laws;
mod refusals;
mod sequence_laws;
mod spill_refusals;
mod spilling;

pub use batch::run_all;
pub use batch_reading::read_batch_source;
pub use command::run;
pub use demo_command::demo;
pub use demo_input::{Example, make_example, write_input};
pub use demo_laws::{demos_are_canonical, demos_are_specified};
pub use laws::runs_have_one_answer;
pub use refusals::{array_refusal, refusal_of};
pub use sequence_laws::{
    batch_sources_have_one_outcome, batches_have_one_answer, spills_have_one_answer,
};
pub use spilling::spill;
