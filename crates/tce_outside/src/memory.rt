// A disk and a sink in memory. They tell their contents and never fail.
ghost use Rattle.std.specs.Prelude.{◌≡◌, ◌++◌, [], List, ℕ, OnOk, OnErr, Some, position, ◌+◌, ◌≤◌, length};
ghost use Rattle.std.specs.Option.{option_copied};
ghost use Rattle.std.specs.Str.{bytes_eq};
ghost use Rattle.std.specs.String.{string_bytes};
ghost use Rattle.std.specs.FinMap as map;
ghost use Rattle.tce_outside.specs.Files.{file, with_file, HasPart, overwritten};
ghost use Rattle.tce_outside.specs.Memory.{files_of, OthersStay, PutsFile, PutsPart};

use crate::device::{Disk, Failed, OutFault, Sink};
use std::alloc::{AllocError, Global};
use std::marker::Model;

/// A file in memory.
#[derive(Drop)]
pub struct MemFile {
    pub name: String,
    pub bytes: Vec<u8>,
}

/// A disk in memory. It tells its files, as a finite map from names to lists of bytes, and never fails.
#[derive(Drop)]
pub struct MemDisk {
    alloc: Global,
    files: Vec<MemFile>,
}

impl Model for MemDisk {
    ghost use Rattle.std.specs.Coded.{coded_ℕ, coded_list};
    ghost use Rattle.std.specs.FinMap as map;
    ghost use Rattle.tce_outside.specs.Files.{Files};

    ghost Value = { Files };

    ghost coded = { map.code (coded_list coded_ℕ) (coded_list coded_ℕ) };

    ghost use Rattle.tce_outside.specs.Memory.{files_of};

    ghost view = { λ d. files_of d.files.items };
}

/// A sink in memory. It tells all bytes put, and never fails.
#[derive(Drop)]
pub struct MemSink {
    bytes: Vec<u8>,
}

impl Model for MemSink {
    ghost use Rattle.std.specs.Prelude.{List, ℕ};

    ghost Value = { List ℕ };

    ghost view = { λ s. s.bytes.items };
}

impl MemDisk {
    /// A disk without files. Its files will take their memory from `alloc`.
    pub fn new(alloc: Global) -> Self
        ensures { result ≡ map.empty }
    {
        Self {
            alloc,
            files: Vec::new(alloc),
        }
    }

    /// Puts a file of these bytes in the place of whatever has this name. For want of memory no file changes.
    pub fn put_file(&mut self, name: &str, bytes: &[u8]) -> Result<(), AllocError>
        ensures ok { OnOk result (self.new ≡ with_file self.old name.now bytes.now) }
        ensures err { OnErr result (self.new ≡ self.old) }
    {
        let bytes = bytes.to_vec(self.alloc)?;
        set_file(self.alloc, &mut self.files, name, bytes)
    }

    /// The bytes of a file, or `None` exactly where there is no file of this name.
    pub fn file(&self, name: &str) -> Option<&[u8]>
        ensures { option_copied result ≡ file self.now name.now }
    {
        match place_of(&self.files, name) {
            Some(place) => Some(self.files[place].bytes.as_slice()),
            None => None,
        }
    }
}

// The place of the first file of this name.
fn place_of(files: &[MemFile], name: &str) -> Option<usize>
    ensures { result ≡ position (λ f. bytes_eq (string_bytes f.name) name.now) files.now }
{
    files.iter().position(|f| f.name.as_str() == name)
}

// Puts bytes in the place of the first file of this name, or at the end.
fn set_file(
    alloc: Global,
    files: &mut Vec<MemFile>,
    name: &str,
    bytes: Vec<u8>,
) -> Result<(), AllocError>
    ensures ok { OnOk result (PutsFile name.now bytes.items files.old.items files.new.items) }
    ensures err { OnErr result (files_of files.new.items ≡ files_of files.old.items) }
    ensures others { OthersStay name.now files.old.items files.new.items }
{
    match place_of(files, name) {
        Some(place) => {
            let file = &mut files[place];
            file.bytes = bytes;
        }
        None => {
            let name = String::from_str(alloc, name)?;
            files.push(MemFile { name, bytes })?;
        }
    }
    Ok(())
}

// Writes over a part of the first file of this name.
fn set_part(files: &mut Vec<MemFile>, name: &str, at: usize, bytes: &[u8])
    requires { HasPart (files_of files.old.items) name.now at (length bytes.now) }
    ensures part { PutsPart name.now at bytes.now files.old.items files.new.items }
    ensures others { OthersStay name.now files.old.items files.new.items }
{
    let Some(place) = place_of(files, name) else {
        unreachable!()
    };
    let file = &mut files[place];
    overwrite(&mut file.bytes, at, bytes);
}

// Writes over a part.
fn overwrite(old: &mut [u8], at: usize, bytes: &[u8])
    requires { at + length bytes.now ≤ length old.old }
    ensures { old.new ≡ overwritten old.old at bytes.now }
{
    old[at..at + bytes.len()].copy_from_slice(bytes);
}

impl Disk for MemDisk {
    ghost files = { λ d. Some d };

    ghost faults = { λ _. 0 };

    fn size(&mut self, name: &str) -> Result<Option<u64>, Failed> {
        match self.file(name) {
            Some(bytes) => Ok(Some(bytes.len() as u64)),
            None => Ok(None),
        }
    }

    fn make(&mut self, name: &str, len: u64) -> Result<(), OutFault> {
        let alloc = self.alloc;
        let Ok(bytes) = vec![in alloc; 0; len as usize] else {
            return Err(OutFault::Memory);
        };
        match set_file(alloc, &mut self.files, name, bytes) {
            Ok(()) => Ok(()),
            Err(_) => Err(OutFault::Memory),
        }
    }

    fn read_at(&mut self, name: &str, at: u64, out: &mut [u8]) -> Result<(), Failed> {
        let Some(bytes) = self.file(name) else {
            unreachable!()
        };
        let rest = &bytes[at as usize..];
        out.copy_from_slice(&rest[..out.len()]);
        Ok(())
    }

    fn write_at(&mut self, name: &str, at: u64, bytes: &[u8]) -> Result<(), Failed> {
        set_part(&mut self.files, name, at as usize, bytes);
        Ok(())
    }
}

impl MemSink {
    /// A sink into which nothing has been put. Its bytes will take their memory from `alloc`.
    pub fn new(alloc: Global) -> Self
        ensures { result ≡ [] }
    {
        Self {
            bytes: Vec::new(alloc),
        }
    }

    /// All bytes put so far.
    pub fn bytes(&self) -> &[u8]
        ensures { result.now ≡ self.now }
    {
        &self.bytes
    }
}

impl Sink for MemSink {
    ghost bytes = { λ s. Some s };

    ghost faults = { λ _. 0 };

    fn put(&mut self, piece: &[u8]) -> Result<(), OutFault> {
        match self.bytes.extend_from_slice(piece) {
            Ok(()) => Ok(()),
            Err(_) => Err(OutFault::Memory),
        }
    }
}
