// A disk and a sink, with what they mean and how often they failed.
ghost use Rattle.std.specs.Prelude.{◌≡◌, ◌+◌, List, ℕ, length, Option, IfOk, OnOk, IsErr, IsErrOf, take};
ghost use Rattle.std.specs.Option.{ForSome};
ghost use Rattle.tce_outside.specs.Files.{Files, HasPart, others, written, IsKeptOrZeros, holding_zeros, appended, IsLengthIn, IsPartIn, KeepsBefore, KeepsFrom};
ghost use Rattle.tce_outside.specs.Fault.{FaultReported, HasFailed};

use thiserror::Error;

/// The device failed.
#[derive(Clone, Copy, Debug, PartialEq, Eq, Error)]
#[error("the device failed")]
pub struct Failed;

/// The device failed, or found no memory.
#[derive(Clone, Copy, Debug, PartialEq, Eq, Error)]
pub enum OutFault {
    /// The device failed: its count of faults rose in the call.
    #[error("the device failed")]
    Failed,
    /// Want of memory: nothing was changed.
    #[error("want of memory")]
    Memory,
}

/// A disk with named files.
///
/// Contracts see two meanings: the files, where the disk tells them, as a finite map from names to lists of
/// bytes; and a count of faults, which never falls and which stops at 2^64 - 1. A call answers that the disk
/// failed only where the count rose in that call, or stands at its end; where it answers no failure the count is
/// what it was.
///
/// No call changes whether the disk tells its files: each equation over `files` below holds of a disk that
/// tells nothing only where it tells nothing afterwards.
pub trait Disk {
    /// The files, where the disk tells them.
    ghost files: { Self → Option Files };

    /// How often the disk has failed.
    ghost faults: { Self → ℕ };

    /// The length of a file in bytes, or `None` exactly where there is no file of this name. Nothing changes.
    fn size(&mut self, name: &str) -> Result<Option<u64>, Failed>
        ensures length { IfOk result (IsLengthIn (files self.old) name.now) }
        ensures same { files self.new ≡ files self.old }
        ensures fault_reported { FaultReported faults self.old self.new (IsErr result) };

    /// Puts a file of `len` zero bytes in the place of whatever has this name.
    ///
    /// For want of memory no file changes. Where the disk fails, the file of this name may be as it was, have
    /// zeros alone, fewer or more of them, or be absent. All other files stay in every case.
    fn make(&mut self, name: &str, len: u64) -> Result<(), OutFault>
        ensures made { OnOk result (files self.new ≡ holding_zeros name.now len (files self.old)) }
        ensures memory { IsErrOf result OutFault.Memory → files self.new ≡ files self.old }
        ensures zeros { IsKeptOrZeros name.now (files self.old) (files self.new) }
        ensures others { others name.now (files self.new) ≡ others name.now (files self.old) }
        ensures fault_reported { FaultReported faults self.old self.new (HasFailed result) };

    /// Reads the bytes of a file from place `at` on until `out` is full. Where the disk fails, `out` may hold
    /// anything. Nothing changes on the disk.
    fn read_at(&mut self, name: &str, at: u64, out: &mut [u8]) -> Result<(), Failed>
        requires { ForSome (files self.old) (λ fs. HasPart fs name.now at (length out.old)) }
        ensures read { OnOk result
            (IsPartIn (files self.old) name.now at (length out.old) out.new) }
        ensures same { files self.new ≡ files self.old }
        ensures fault_reported { FaultReported faults self.old self.new (IsErr result) };

    /// Writes all of `bytes` over the same number of bytes of a file from place `at` on.
    ///
    /// Where the disk fails, that part of the file may hold anything, and the file may end in it. What stands before
    /// the part and behind it, if anything, stays in every case, and so do all other files.
    fn write_at(&mut self, name: &str, at: u64, bytes: &[u8]) -> Result<(), Failed>
        requires { ForSome (files self.old) (λ fs. HasPart fs name.now at (length bytes.now)) }
        ensures written { OnOk result
            (files self.new ≡ written name.now at bytes.now (files self.old)) }
        ensures before { KeepsBefore name.now at (files self.old) (files self.new) }
        ensures behind { KeepsFrom name.now (at + length bytes.now)
            (files self.old) (files self.new) }
        ensures others { others name.now (files self.new) ≡ others name.now (files self.old) }
        ensures fault_reported { FaultReported faults self.old self.new (IsErr result) };
}

/// Where text is put.
///
/// Contracts see all bytes put so far, where the sink tells them, and a count of faults as that of a disk. No
/// call changes whether the sink tells its bytes.
pub trait Sink {
    /// All bytes put, where the sink tells them.
    ghost bytes: { Self → Option (List ℕ) };

    /// How often the sink has failed.
    ghost faults: { Self → ℕ };

    /// Puts all of a piece behind what was put before. For want of memory nothing is put; where the sink
    /// fails, a prefix of the piece may have been put.
    fn put(&mut self, piece: &[u8]) -> Result<(), OutFault>
        ensures whole { OnOk result (bytes self.new ≡ appended piece.now (bytes self.old)) }
        ensures memory { IsErrOf result OutFault.Memory → bytes self.new ≡ bytes self.old }
        ensures prefix { (k : ℕ) × (bytes self.new ≡ appended (take k piece.now) (bytes self.old)) }
        ensures fault_reported { FaultReported faults self.old self.new (HasFailed result) };
}
