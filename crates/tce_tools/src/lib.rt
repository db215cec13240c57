//! Array files and flat files: packing, unpacking, converting and summing the elements of an array, and the data of
//! the demonstration.
//!
//! A flat file has the elements of an array alone, in row-major order, eight bytes each, the lowest first. An array
//! file has them tile by tile behind a head, as `tce_array` says. Elements move between files in bands: at most 32,768
//! that follow each other in row-major order, and that stand in an array file in pieces of one length at equal distances.
//! The caller lends the [`Buffers`], whose length is fixed, however large the files are. Other crates read and write runs of
//! words by [`read_words`], [`write_words`] and [`write_start`], and whole files by [`write_file`].
#![tactic(auto)]

mod band;
mod banding;
mod buffers;
mod conversion;
mod copying;
mod demo;
mod fault;
mod laws;
mod packing;
mod run;
mod shuffle;
mod storage;
mod sum;
mod transfer;
mod writing;

pub use band::{Band, LONGEST_BAND, band_at};
pub use banding::write_band;
pub use buffers::Buffers;
pub use conversion::convert;
pub use demo::{demo_array, demo_spec};
pub use fault::ToolFault;
pub use laws::flat_files_hold_their_elements;
pub use packing::{pack, unpack};
pub use run::{coords_at, is_row_major};
pub use storage::{ElementFile, Storage, write_start};
pub use sum::cell_sum;
pub use transfer::{read_words, write_words};
pub use writing::write_file;
