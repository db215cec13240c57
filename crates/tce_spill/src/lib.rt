//! Trees cut into pieces that each take at most a given memory, and the pieces run in the order of their roots.
//!
//! [`cuts`] finds the cuts for a limit, which are `specs/CutsFor.antt`, and [`planned_cuts`] a plan of each piece besides,
//! which is `specs/Planned.antt`; why there are none is `specs/CutRefusals.antt`. Which nodes may be cut and what the pieces
//! are is told in `tce_spec`.
//!
//! [`run_spill`] finds the cuts for a limit of memory, tests the budget and the operands before it touches a file, and
//! then runs the pieces in turn: each reads the arrays of the cut nodes below it, and writes that of its root.
//! `specs/PieceRuns.antt` lists the pieces, `specs/Values.antt` says which arrays they leave, `specs/RunRefusals.antt` why they
//! are refused, `specs/Left.antt` what is left then, and `specs/Reports.antt` what they take and report.
#![tactic(auto)]

mod cutting;
mod fault;
mod laws;
mod node_set;
mod opening;
mod planned;
mod plans;
mod report;
mod run;
mod spilling;
mod storage;

pub use cutting::{cuts, planned_cuts};
pub use fault::SpillFault;
pub use laws::{
    cuts_are_one, cuts_meet_limits, more_cuts_take_no_more, no_cut_is_idle, parts_take_no_more,
    renumbered_is_alike,
};
pub use planned::PlannedCuts;
pub use report::SpillReport;
pub use run::run_spill;
pub use storage::storable;
