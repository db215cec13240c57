//! Tests of sets of indexes and shapes, fields of lines, kernels, words, frames, the outside, the disk that does not read
//! holes, and the files and the standard output of the system.
#![tactic(auto)]

#[cfg(test)]
mod fields;
#[cfg(test)]
mod frames;
#[cfg(test)]
mod given;
#[cfg(test)]
mod kernel;
#[cfg(test)]
mod outside;
#[cfg(test)]
mod space;
#[cfg(test)]
mod sparse_disk;
#[cfg(test)]
mod system;
#[cfg(test)]
mod words;
