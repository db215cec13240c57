//! Fusions of the loops of a tree (after Lam et al. 1999 and Baumgartner et al. 2005).
//!
//! [`is_legal`] says which fusions are legal, [`memory`] how much memory they leave, and [`standard_orders`] the loop orders
//! that carry them. `specs/` has the states of subtrees, which say which loops have to be above which, and when tables of
//! states cover all fusions.
//!
//! The functions that do nothing carry laws of these definitions.
#![tactic(auto)]

mod legality;
mod orders;
mod scopes;
mod sizes;
mod state_laws;

pub use legality::{first_illegal, is_legal};
pub use orders::{first_not_carried, standard_orders};
pub use sizes::{memory, size_of};
pub use state_laws::{
    bound_leaves_no_sum, choices_are_steps, costs_add_up, covered_leaves_no_step,
    first_choice_is_first_step, first_low_pair_is_first_below, joins_tell_scopes,
    later_tables_do_not_matter, leaf_row_is_reached, leaf_row_stands, least_by_cover,
    legal_where_states_exist, operands_are_joined, parts_are_index_sets, root_is_reached,
    rows_stand_together, some_rows_join, standing_is_order, states_have_classes, steps_are_reached,
    total_is_bound,
};
