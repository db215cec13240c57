//! One run of a specification.
//!
//! [`run_job`] goes in a fixed order: the budget, the least memory for intermediates, the operands by first use, then
//! all memory of the run, and the file of the result, so that want of memory leaves no half-written result. Then it runs
//! the code and writes the result to its file. `specs/Refusals.antt` says why a run is refused, `specs/Prepared.antt`
//! what it has, and `specs/Run.antt` what it leaves. How a run goes does not ask whether its plan is least: [`run_by`] runs
//! by any plan, in one piece, or by [`begin`] and [`run_prepared`]. [`affordable_plan`] and [`opened_forms`] are what is
//! tested first.
//!
//! The file of a tensor `T` is `T.tca`. `specs/TensorFiles.antt` says what its elements are, and `specs/ResultBytes.antt`
//! what the result's file holds, by the formula alone.
//!
//! A run holds tiles in frames, each of which has room for the largest tile of the operands and the result. An operation
//! touches a tile of each operand and one of the result, so three frames are the least, and there are never more frames
//! than tiles, or than three. `specs/Takings.antt` says how many words these are.
//!
//! [`open_operands`] tests the files of the operands in the order of their first use, and finds the form of each.
//! [`arrays_of`] lists the arrays for a cache, by the numbers of their tensors. `specs/Opened.antt` and
//! `specs/Arrays.antt` say what these give, `specs/Reading.antt` what a cache reads, and `specs/Finished.antt` when a
//! result is finished. The functions of `laws.rt`, `result_laws.rt` and `frame_laws.rt` do nothing: their contracts are
//! laws of these definitions.
#![tactic(auto)]

mod arrays;
mod bytes;
mod fault;
mod frame_laws;
mod laws;
mod naming;
mod opening;
mod ordering;
mod planning;
mod prepared;
mod preparing;
mod reads;
mod references;
mod report;
mod result_laws;
mod run;
mod takings;

pub use arrays::arrays_of;
pub use bytes::Bytes;
pub use fault::JobFault;
pub use frame_laws::frames_have_room;
pub use laws::{
    flushed_results_are_told, made_results_are_zero, opened_arrays_are_read,
    operands_are_those_of_the_tree,
};
pub use naming::file_of;
pub use opening::{Forms, Refused, open_operands};
pub use planning::{affordable_plan, opened_forms};
pub use prepared::{PlannedRun, Prepared};
pub use preparing::begin;
pub use report::RunReport;
pub use result_laws::{results_are_told, tensors_have_files};
pub use run::{run_by, run_job, run_prepared};
pub use takings::{frame_count, least_budget, tile_count, tile_take};
