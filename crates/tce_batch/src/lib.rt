//! Several formulas over one set of declarations, in order: read from a text, and run, where a result may be an operand of a
//! later formula.
//!
//! [`read_batch`] reads a text whose formula lines may be more than one. `specs/Texts.antt` says which texts of one
//! formula it stands for, and `specs/Outcome.antt` what they specify together: the first of these texts that has a fault
//! decides. The text is read once, each formula line over the declarations in front of the first.
//!
//! [`run_batch`] finds the plan of every formula, and tests the files of all operands that are no earlier result, before
//! it touches a file. Then it runs the formulas in turn, each by the plan that was found: no plan is sought twice.
//! `specs/Refusals.antt` says why it is refused, `specs/Plans.antt` what is kept of a plan, `specs/Left.antt` what it
//! leaves, and `specs/Reports.antt` what it takes and reports.
#![tactic(auto)]

mod batch;
mod fault;
mod laws;
mod line;
mod plans;
mod read;
mod report;
mod run;
mod sources;

pub use batch::Batch;
pub use fault::BatchFault;
pub use laws::every_text_has_one_batch;
pub use read::read_batch;
pub use report::BatchReport;
pub use run::run_batch;
