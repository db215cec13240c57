//! Tests of the commands, through the one call of the program, and of the lines of what is refused. Expected numbers and texts were worked out by hand.
#![tactic(auto)]

#[cfg(test)]
mod command;
#[cfg(test)]
mod spill;
#[cfg(test)]
mod status;
#[cfg(test)]
mod top;
