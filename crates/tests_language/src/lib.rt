//! Tests of the language of specifications, and of einsums as specifications.
#![tactic(auto)]

#[cfg(test)]
mod canonical;
#[cfg(test)]
mod declarations;
#[cfg(test)]
mod einsum;
#[cfg(test)]
mod formula;
#[cfg(test)]
mod given;
#[cfg(test)]
mod grammar;
#[cfg(test)]
mod round_trip;
#[cfg(test)]
mod spec;
