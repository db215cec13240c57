//! The search for a fusion of least memory: the candidates of each node from those of its operands, and at the root the
//! two that together cost least (after Lam et al. 1999).
//!
//! Candidates of a node are states that its subtree may have under some fusion, each with that fusion, and no more of them
//! than the search for a least one needs. Beside them stand rows without a fusion, which bound states that are of no use ahead
//! (`limits.rt`). `steps.rt` says what states of the operands of a node become there.
#![tactic(auto)]

mod ahead;
mod bounds;
mod candidate;
mod candidate_list;
mod fewer;
mod found;
mod groups;
mod joins;
mod laws;
mod limits;
mod node;
mod ordered;
mod pass;
mod plan;
mod root;
mod runs;
mod side;
mod starts;
mod steps;
mod subset_numbers;
mod table;
mod thinned;
mod upper;

pub use candidate::{Candidate, joined_sets};
pub use fewer::cheapest_few;
pub use laws::{covered_pairs_cover_steps, leaves_have_states, steps_are_states};
pub use limits::{Ahead, Limits};
pub use plan::{search, search_within};
pub use steps::{is_stood_for, join_rows, stands_for, step};
pub use subset_numbers::SubsetNumbers;
pub use table::{NodeLoops, candidates_of};
