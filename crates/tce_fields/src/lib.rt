//! The texts of which the lines of reports and certificates are made: parts with a separator between them, lists of
//! names with a comma between them, and numbers in decimal. No call takes memory.
#![tactic(auto)]

mod decimal;
mod indexes;
mod names;
mod number;
mod parts;

pub use decimal::decimal_text;
pub use indexes::{indexes_named, members_of, set_named};
pub use names::read_names;
pub use number::read_number;
pub use parts::split_parts;
