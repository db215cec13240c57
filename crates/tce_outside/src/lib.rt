//! What lies outside of a computation: a disk with named files, and a sink for text.
//!
//! The traits `Disk` and `Sink` say what a caller may count on, also of a real disk, of which no contract can
//! know what it holds: such a device tells nothing, and the clauses on its contents then hold of nothing. A
//! call that answers a failure has its cause in the device's count of faults. The devices in memory tell
//! their contents; `FaultyDisk` and `FaultySink` also fail, at stated calls.
#![tactic(auto)]

mod device;
mod faulty_disk;
mod faulty_sink;
mod laws;
mod memory;
mod schedule;

pub use device::{Disk, Failed, OutFault, Sink};
pub use faulty_disk::FaultyDisk;
pub use faulty_sink::FaultySink;
pub use laws::{a_device_tells_or_not, other_files_stay};
pub use memory::{MemDisk, MemSink};
