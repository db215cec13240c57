//! A disk that tells nothing of its files, and on which one of them is not what it was when it is looked for.
ghost use Rattle.std.specs.Prelude.{◌≡◌, ◌≤◌, None, IsTrue, length};
ghost use Rattle.tce_outside.specs.Fault.{Rose};
ghost use Rattle.tce_outside.specs.Files.{HasPart};

use tce_outside::{Disk, Failed, MemDisk, OutFault};

/// A disk in memory that answers one length, or none, whenever the length of one file is asked for.
#[derive(Drop)]
pub struct LosingDisk {
    inner: MemDisk,
    lost: &'static str,
    len: Option<u64>,
    faults: u64,
}

// Whether a file of the disk has this part.
fn has_part(disk: &MemDisk, name: &str, at: u64, len: usize) -> bool
    ensures { IsTrue result → HasPart disk.now name.now at len }
{
    let at = at as usize;
    match disk.file(name) {
        Some(bytes) => at <= bytes.len() && len <= bytes.len() - at,
        None => false,
    }
}

impl LosingDisk {
    /// A disk with these files, of which the one with this name has this length, or none.
    pub fn new(inner: MemDisk, lost: &'static str, len: Option<u64>) -> LosingDisk {
        LosingDisk {
            inner,
            lost,
            len,
            faults: 0,
        }
    }

    fn count_fault(&mut self)
        ensures rose { Rose self.old.faults self.new.faults }
        ensures later { self.old.faults ≤ self.new.faults }
    {
        self.faults = self.faults.saturating_add(1);
    }
}

impl Disk for LosingDisk {
    ghost files = { λ _. None };

    ghost faults = { λ d. d.faults };

    fn size(&mut self, name: &str) -> Result<Option<u64>, Failed> {
        if name == self.lost {
            return Ok(self.len);
        }
        match self.inner.size(name) {
            Ok(len) => Ok(len),
            Err(failed) => {
                self.count_fault();
                Err(failed)
            }
        }
    }

    fn make(&mut self, name: &str, len: u64) -> Result<(), OutFault> {
        match self.inner.make(name, len) {
            Ok(()) => Ok(()),
            Err(OutFault::Failed) => {
                self.count_fault();
                Err(OutFault::Failed)
            }
            Err(OutFault::Memory) => Err(OutFault::Memory),
        }
    }

    fn read_at(&mut self, name: &str, at: u64, out: &mut [u8]) -> Result<(), Failed> {
        if has_part(&self.inner, name, at, out.len()) {
            if self.inner.read_at(name, at, out).is_ok() {
                return Ok(());
            }
        }
        self.count_fault();
        Err(Failed)
    }

    fn write_at(&mut self, name: &str, at: u64, bytes: &[u8]) -> Result<(), Failed> {
        if has_part(&self.inner, name, at, bytes.len()) {
            if self.inner.write_at(name, at, bytes).is_ok() {
                return Ok(());
            }
        }
        self.count_fault();
        Err(Failed)
    }
}
