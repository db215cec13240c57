//! Tests of whole runs: formulas that are drawn and evaluated apart, trees that are drawn and run in pieces, and touches of tiles.
#![tactic(auto)]

#[cfg(test)]
mod job;
