//! The commands, through the one call of the program. Expected numbers and texts were worked out by hand.

mod batches;
mod certificates;
mod demonstrations;
mod einsums;
pub mod failing;
mod flat_files;
pub mod given;
mod limits;
mod losing;
mod plans;
mod refused;
mod runs;
mod stored_pairs;
