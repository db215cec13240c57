//! The files of the system as a disk, its standard output as a sink, and a disk that does not read what was never written.
//!
//! [`FileDisk`] and [`OutSink`] are the devices of the system. Each output of a command is made by one call of `make` and ended
//! by its only write at place 0: of the head of an array, the first band of a flat file, or a whole text. So that write makes a
//! new file whole, which is a draft until then and takes the place of an old one by a rename.
//!
//! A [`SparseDisk`] over a disk knows the holes of the file that was made last: bytes that were not written since, so that they
//! are 0. What lies in holes is not read. A run makes the file of its result and then reads each tile of it before it writes to
//! it, and the first time the tile lies in a hole. `specs/Holes.antt` says what a hole is, and `specs/Told.antt` what contracts
//! see of the disk.
#![tactic(auto)]

mod disk;
mod holes;
mod kept;
mod new_file;
mod place;
mod sink;
mod sparse_disk;

pub use disk::{FileDisk, read_fully, write_fully};
pub use sink::OutSink;
pub use sparse_disk::SparseDisk;
