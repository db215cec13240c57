//! Tests of the search, of the check of a plan, of pieces of trees and cuts for limits, and of reports and certificates.
#![tactic(auto)]

#[cfg(test)]
mod cert;
#[cfg(test)]
mod cert_lines;
#[cfg(test)]
mod check;
#[cfg(test)]
mod cuts;
#[cfg(test)]
mod given;
#[cfg(test)]
mod pieces;
#[cfg(test)]
mod report;
#[cfg(test)]
mod search;
