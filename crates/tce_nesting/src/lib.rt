//! States of subtrees as classes of loops, and plans that show a fusion to be least.
//!
//! A [`Nesting`] is such a state, and a [`Row`] a nesting with its cost. [`choices`] are the sets that may be fused above a
//! node. [`Ends`] and a [`Stretch`] tell of many rows or sets at once that they have a conflict or are not allowed. A [`Plan`]
//! states a fusion with its orders and sizes, and [`Tables`] of rows that show it least.
//!
//! The functions of `laws.rt` do nothing: their contracts are laws of these definitions.
#![tactic(auto)]

mod choice;
mod ends;
mod laws;
mod nesting;
mod plan;
mod row;
mod runs;
mod stretches;
mod subset_list;
mod tables;

pub use choice::{Choice, choices};
pub use ends::{Ends, ends_of, have_conflict};
pub use laws::{
    coarser_is_preorder, joins_tell_steps, nestings_are_their_relations, restrictions_cut,
};
pub use nesting::Nesting;
pub use plan::Plan;
pub use row::Row;
pub use runs::Run;
pub use stretches::{MAX_CHOICES, Stretch, allows_none, stretches_of};
pub use subset_list::subsets;
pub use tables::Tables;
