//! A disk that does not read holes.
ghost use Rattle.std.specs.Prelude.{◌≡◌, ◌+◌, ◌<◌, ◌≤◌, ◌⊎◌, ℕ, length, replicate, IsTrue};
ghost use Rattle.std.specs.String.{string_bytes};
ghost use Rattle.tce_system.specs.Holes.{IsHole, AreHoles, AreOutside};

use crate::holes::Holes;
use std::alloc::Global;
use std::marker::Model;
use tce_outside::{Disk, Failed, OutFault};

/// A disk over another one, whose files are those of the other. Of the file that was made last it knows which pieces were not
/// written since; where all bytes of a read lie in such pieces, they are zeros, and the other disk is not asked.
///
/// For want of memory, and of files of more than 2^41 bytes, it knows none. Contracts see the files and the count of faults of
/// the disk inside.
#[derive(Drop)]
pub struct SparseDisk<D: Disk + Drop> {
    alloc: Global,
    disk: D,
    name: String,
    holes: Holes,
}

impl<D: Disk + Drop> Model for SparseDisk<D> {
    ghost use Rattle.tce_system.specs.Told.{Told, told_code};

    ghost Value = { Told };

    ghost coded = { told_code };

    ghost use Rattle.std.specs.String.{string_bytes};
    ghost use Rattle.tce_system.specs.Holes.{AreZeros};

    ghost view = { λ s. record { files = D.files s.disk; faults = D.faults s.disk } };

    ghost invariant = { λ s. AreZeros (D.files s.disk) (string_bytes s.name) s.holes };
}

// Whether a part of a file is known to lie in holes, where those of the file `known` are.
fn is_hole(holes: &Holes, known: &str, name: &str, at: u64, n: u64) -> bool
    ensures { IsTrue result → (known.now ≡ name.now) × AreHoles holes.now at n }
{
    known == name && holes.cover(at, n)
}

// Makes all bytes 0.
fn clear(out: &mut [u8])
    ensures { out.new ≡ replicate (length out.old) 0 }
{
    out.fill(0);
}

// Takes note of a write to a part of a file, where the holes of the file `known` are known.
fn note_write(holes: &mut Holes, known: &str, name: &str, at: u64, n: u64)
    ensures { (p : ℕ) → IsHole holes.new p
        → (known.now ≡ name.now) × IsHole holes.old p × ((p < at) ⊎ (at + n ≤ p)) }
{
    if known == name {
        holes.mark(at, n);
    } else {
        holes.forget();
    }
}

impl<D: Disk + Drop> SparseDisk<D> {
    /// This disk, of whose files no hole is known. What is known later takes its memory from `alloc`: at most 2 MiB, and
    /// twice that while a file is made.
    pub fn new(alloc: Global, disk: D) -> Self
        ensures { result ≡ record { files = D.files disk; faults = D.faults disk } }
    {
        SparseDisk {
            alloc,
            disk,
            name: String::new(alloc),
            holes: Holes::none(alloc),
        }
    }

    /// The disk inside.
    pub fn inner(&self) -> &D
        ensures files { D.files result.now ≡ self.now.files }
        ensures faults { D.faults result.now ≡ self.now.faults }
    {
        &self.disk
    }
}

impl<D: Disk + Drop> Disk for SparseDisk<D> {
    ghost files = { λ s. s.files };

    ghost faults = { λ s. s.faults };

    fn size(&mut self, name: &str) -> Result<Option<u64>, Failed> {
        self.disk.size(name)
    }

    fn make(&mut self, name: &str, len: u64) -> Result<(), OutFault> {
        self.holes.forget();
        let known = String::from_str(self.alloc, name);
        let holes = Holes::of(self.alloc, len);
        self.disk.make(name, len)?;
        if let Ok(known) = known {
            self.name = known;
            self.holes = holes;
        }
        Ok(())
    }

    fn read_at(&mut self, name: &str, at: u64, out: &mut [u8]) -> Result<(), Failed> {
        if is_hole(&self.holes, self.name.as_str(), name, at, out.len() as u64) {
            clear(out);
            return Ok(());
        }
        self.disk.read_at(name, at, out)
    }

    fn write_at(&mut self, name: &str, at: u64, bytes: &[u8]) -> Result<(), Failed> {
        note_write(
            &mut self.holes,
            self.name.as_str(),
            name,
            at,
            bytes.len() as u64,
        );
        match self.disk.write_at(name, at, bytes) {
            Ok(()) => Ok(()),
            Err(fault) => {
                self.holes.forget();
                Err(fault)
            }
        }
    }
}
