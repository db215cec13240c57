// A disk in memory that fails at stated calls.
ghost use Rattle.std.specs.Prelude.{◌≡◌, ◌+◌, ◌↔◌, IsTrue, IsErr, IsErrOf, OnOk, OnErr, IfOk, Some, length};
ghost use Rattle.tce_outside.specs.Files.{with_part, HasPart, part, IsKeptOrZeros, with_zeros, length_of, KeepsBefore, KeepsFrom, SameOthers};
ghost use Rattle.tce_outside.specs.Schedule.{new_schedule, fails_next, after_call};

use crate::device::{Disk, Failed, OutFault};
use crate::memory::MemDisk;
use crate::schedule::FaultSchedule;
use std::marker::Model;

/// A disk in memory that fails at stated calls, for tests of what a failure leaves. It tells its files.
///
/// The calls of `size`, `make`, `read_at` and `write_at` are counted together, from 0 on. The call of a number
/// that is in the list answers that the disk failed, and changes nothing but the counts of calls and faults.
/// Each other call is that of the disk inside.
#[derive(Drop)]
pub struct FaultyDisk {
    inner: MemDisk,
    schedule: FaultSchedule,
}

impl Model for FaultyDisk {
    ghost use Rattle.tce_outside.specs.Schedule.{FaultyFiles, faulty_files_code};

    ghost Value = { FaultyFiles };

    ghost coded = { faulty_files_code };

    ghost view = { λ d. record { files = d.inner; schedule = d.schedule } };
}

impl FaultyDisk {
    /// This disk, whose calls with the numbers in `failing` are to fail. The order of the numbers does not
    /// matter, nor how often one stands there.
    pub fn new(inner: MemDisk, failing: Vec<u64>) -> Self
        ensures { result ≡ record { files = inner; schedule = new_schedule failing.items } }
    {
        FaultyDisk {
            inner,
            schedule: FaultSchedule::new(failing),
        }
    }

    /// The disk inside, as the calls so far have left it.
    pub fn inner(&self) -> &MemDisk
        ensures { result.now ≡ self.now.files }
    {
        &self.inner
    }

    /// How many calls have failed, up to 2^64 - 1.
    pub fn faults(&self) -> u64
        ensures { result ≡ self.now.schedule.faults }
    {
        self.schedule.faults()
    }
}

impl Disk for FaultyDisk {
    ghost files = { λ d. Some d.files };

    ghost faults = { λ d. d.schedule.faults };

    fn size(&mut self, name: &str) -> Result<Option<u64>, Failed>
        ensures fails { IsErr result ↔ IsTrue (fails_next self.old.schedule) }
        ensures length { IfOk result (λ len. len ≡ length_of self.old.files name.now) }
        ensures same { self.new.files ≡ self.old.files }
        ensures counted { self.new.schedule ≡ after_call self.old.schedule }
    {
        if self.schedule.count_call() {
            return Err(Failed);
        }
        self.inner.size(name)
    }

    fn make(&mut self, name: &str, len: u64) -> Result<(), OutFault>
        ensures fails { IsErrOf result OutFault.Failed ↔ IsTrue (fails_next self.old.schedule) }
        ensures made { OnOk result (self.new.files ≡ with_zeros self.old.files name.now len) }
        ensures err { OnErr result (self.new.files ≡ self.old.files) }
        ensures zeros { IsKeptOrZeros name.now (Some self.old.files) (Some self.new.files) }
        ensures others { SameOthers name.now self.old.files self.new.files }
        ensures counted { self.new.schedule ≡ after_call self.old.schedule }
    {
        if self.schedule.count_call() {
            return Err(OutFault::Failed);
        }
        self.inner.make(name, len)
    }

    fn read_at(&mut self, name: &str, at: u64, out: &mut [u8]) -> Result<(), Failed>
        requires { HasPart self.old.files name.now at (length out.old) }
        ensures fails { IsErr result ↔ IsTrue (fails_next self.old.schedule) }
        ensures read { OnOk result (out.new ≡ part self.old.files name.now at (length out.old)) }
        ensures unread { OnErr result (out.new ≡ out.old) }
        ensures same { self.new.files ≡ self.old.files }
        ensures counted { self.new.schedule ≡ after_call self.old.schedule }
    {
        if self.schedule.count_call() {
            return Err(Failed);
        }
        self.inner.read_at(name, at, out)
    }

    fn write_at(&mut self, name: &str, at: u64, bytes: &[u8]) -> Result<(), Failed>
        requires { HasPart self.old.files name.now at (length bytes.now) }
        ensures fails { IsErr result ↔ IsTrue (fails_next self.old.schedule) }
        ensures written { OnOk result
            (self.new.files ≡ with_part self.old.files name.now at bytes.now) }
        ensures err { OnErr result (self.new.files ≡ self.old.files) }
        ensures before { KeepsBefore name.now at (Some self.old.files) (Some self.new.files) }
        ensures behind { KeepsFrom name.now (at + length bytes.now)
            (Some self.old.files) (Some self.new.files) }
        ensures others { SameOthers name.now self.old.files self.new.files }
        ensures counted { self.new.schedule ≡ after_call self.old.schedule }
    {
        if self.schedule.count_call() {
            return Err(Failed);
        }
        self.inner.write_at(name, at, bytes)
    }
}
