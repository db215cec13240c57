//! Tests of array files, the cache over them, flat files, files of stored pairs and files that are written.
#![tactic(auto)]

#[cfg(test)]
mod array;
#[cfg(test)]
mod cache;
#[cfg(test)]
mod given;
#[cfg(test)]
mod symmetric;
#[cfg(test)]
mod tools;
#[cfg(test)]
mod writing;
