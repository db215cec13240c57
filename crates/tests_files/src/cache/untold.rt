//! A disk that tells nothing of its files. What a call needs of them is looked at as it runs.
ghost use Rattle.std.specs.Prelude.{◌≡◌, ◌≤◌, None, IsTrue, length};
ghost use Rattle.tce_outside.specs.Fault.{Rose};
ghost use Rattle.tce_outside.specs.Files.{HasPart};

use tce_outside::{Disk, Failed, FaultyDisk, MemDisk, OutFault};

/// A disk in memory that fails at stated calls. A read or a write past the end of a file is a failure, too.
#[derive(Drop)]
pub struct UntoldDisk {
    inner: FaultyDisk,
    faults: u64,
    reads: u64,
    writes: u64,
}

// Whether a file of the disk has this part.
fn has_part(disk: &MemDisk, name: &str, at: u64, len: usize) -> bool
    ensures { IsTrue result → HasPart disk.now name.now at len }
{
    let at = at as usize;
    match disk.file(name) {
        Some(bytes) => at <= bytes.len() && len <= bytes.len() - at,
        None => false,
    }
}

impl UntoldDisk {
    /// A disk that tells nothing of its files, over one that may fail.
    pub fn new(inner: FaultyDisk) -> UntoldDisk {
        UntoldDisk {
            inner,
            faults: 0,
            reads: 0,
            writes: 0,
        }
    }

    /// The bytes of a file.
    pub fn file(&self, name: &str) -> Option<&[u8]> {
        self.inner.inner().file(name)
    }

    /// How many calls have failed, how many have read and how many have written.
    pub fn counts(&self) -> [u64; 3] {
        [self.faults, self.reads, self.writes]
    }

    fn count_fault(&mut self)
        ensures rose { Rose self.old.faults self.new.faults }
        ensures later { self.old.faults ≤ self.new.faults }
    {
        self.faults = self.faults.saturating_add(1);
    }
}

impl Disk for UntoldDisk {
    ghost files = { λ _. None };

    ghost faults = { λ d. d.faults };

    fn size(&mut self, name: &str) -> Result<Option<u64>, Failed> {
        match self.inner.size(name) {
            Ok(len) => Ok(len),
            Err(failed) => {
                self.count_fault();
                Err(failed)
            }
        }
    }

    fn make(&mut self, name: &str, len: u64) -> Result<(), OutFault> {
        match self.inner.make(name, len) {
            Ok(()) => Ok(()),
            Err(OutFault::Failed) => {
                self.count_fault();
                Err(OutFault::Failed)
            }
            Err(OutFault::Memory) => Err(OutFault::Memory),
        }
    }

    fn read_at(&mut self, name: &str, at: u64, out: &mut [u8]) -> Result<(), Failed> {
        self.reads = self.reads.saturating_add(1);
        if has_part(self.inner.inner(), name, at, out.len()) {
            if self.inner.read_at(name, at, out).is_ok() {
                return Ok(());
            }
        }
        self.count_fault();
        Err(Failed)
    }

    fn write_at(&mut self, name: &str, at: u64, bytes: &[u8]) -> Result<(), Failed> {
        self.writes = self.writes.saturating_add(1);
        if has_part(self.inner.inner(), name, at, bytes.len()) {
            if self.inner.write_at(name, at, bytes).is_ok() {
                return Ok(());
            }
        }
        self.count_fault();
        Err(Failed)
    }
}
