// Real files.
ghost use Rattle.std.specs.Prelude.{◌≡◌, None, OnOk, is_err, if◌then◌else◌};
ghost use Rattle.std.specs.HashMap.{get_by_text};
ghost use Rattle.tce_outside.specs.Schedule.{one_more};
ghost use Rattle.tce_system.specs.Counted.{has_failed};

use crate::kept::KeptFiles;
use crate::new_file::{Made, NewFile, file_of, forget, stay_beside};
use crate::place::{is_file, length_of, opened, place_of};
use std::alloc::Global;
use std::fs::{File, OpenOptions};
use std::os::unix::fs::FileExt;
use std::rt::Files;
use tce_outside::{Disk, Failed, OutFault};

/// The files of the system. It tells nothing of what they hold.
///
/// A file stays open after the first call that looks at it, so that a later call sees the same file, whatever stands under its
/// name by then, and costs one call of the system. A new file is a draft until the bytes that it begins with are written, which
/// come last. Then it is flushed and moved to where its name leads, in the place of an old file there, which keeps its bytes
/// under its other names and for whoever has it open.
///
/// Where there is no memory left to remember a name, no file is made any more: it might be the one of that name.
#[derive(Drop)]
pub struct FileDisk<'a, R: Files<File = File>> {
    alloc: Global,
    files: &'a R,
    reading: KeptFiles,
    making: Option<NewFile<'a, R>>,
    made: Vec<Made>,
    forgets: bool,
    faults: u64,
}

impl<'a, R: Files<File = File>> FileDisk<'a, R> {
    /// The files that `files` reaches. What is remembered of them takes its memory from `alloc`.
    pub fn new(alloc: Global, files: &'a R) -> Self
        ensures { result.faults ≡ 0 }
    {
        FileDisk {
            alloc,
            files,
            reading: KeptFiles::new(alloc),
            making: None,
            made: Vec::new(alloc),
            forgets: false,
            faults: 0,
        }
    }

    /// How many calls have failed, up to 2^64 - 1.
    pub fn faults(&self) -> u64
        ensures { result ≡ self.now.faults }
    {
        self.faults
    }

    // Counts a failure.
    fn count_fault(&mut self)
        ensures { self.new.faults ≡ one_more self.old.faults }
    {
        self.faults = self.faults.saturating_add(1);
    }

    // The file of this name, where it is open.
    fn open_file(&self, name: &str) -> Option<&File> {
        if let Some(new) = &self.making {
            if new.name() == name {
                return Some(new.file());
            }
        }
        if let Some(file) = self.reading.get(name) {
            return Some(file);
        }
        file_of(&self.made, name)
    }

    // Keeps a file open that was opened by this name.
    fn keep(&mut self, name: &str, file: File)
        ensures { self.new.faults ≡ self.old.faults }
    {
        if !self.reading.keep(name, file) {
            self.forgets = true;
        }
    }

    // The length of a file, which is opened for it.
    fn length(&mut self, name: &str) -> Result<Option<u64>, OutFault>
        ensures { self.new.faults ≡ self.old.faults }
    {
        if let Some(file) = self.open_file(name) {
            return Ok(Some(length_of(file)?));
        }
        let Some(file) = opened(self.files, name)? else {
            return Ok(None);
        };
        let length = length_of(&file)?;
        self.keep(name, file);
        Ok(Some(length))
    }

    // Puts a file, which is whole, in its place.
    fn put(&mut self, new: NewFile<'a, R>) -> Result<(), OutFault>
        ensures reading { self.new.reading ≡ self.old.reading }
        ensures faults { self.new.faults ≡ self.old.faults }
    {
        let made = new.put()?;
        if self.made.push(made).is_err() {
            self.forgets = true;
        }
        Ok(())
    }

    // Begins a file of zeros. One that was begun before, under another name, is taken to be whole.
    fn begin(&mut self, name: &str, len: u64) -> Result<(), OutFault>
        ensures closed { OnOk result (get_by_text self.new.reading.files name.now ≡ None) }
        ensures faults { self.new.faults ≡ self.old.faults }
    {
        if let Some(new) = self.making.take() {
            if new.name() != name {
                self.put(new)?;
            }
        }
        if self.forgets {
            return Err(OutFault::Memory);
        }
        let place = place_of(self.files, self.alloc, name)?;
        self.reading.stay_beside(self.files, name, &place)?;
        stay_beside(&self.made, self.files, name, &place)?;
        let new = NewFile::begin(self.files, self.alloc, name, place, len)?;
        self.reading.close(name);
        forget(&mut self.made, name);
        self.making = Some(new);
        Ok(())
    }

    // Reads until `out` is full.
    fn filled(&mut self, name: &str, at: u64, out: &mut [u8]) -> bool
        ensures { self.new.faults ≡ self.old.faults }
    {
        if let Some(file) = self.open_file(name) {
            return read_fully(file, at, out);
        }
        let Ok(Some(file)) = opened(self.files, name) else {
            return false;
        };
        let filled = read_fully(&file, at, out);
        self.keep(name, file);
        filled
    }

    // Puts the file that was begun, which is whole, in its place.
    fn is_put(&mut self) -> bool
        ensures { self.new.faults ≡ self.old.faults }
    {
        match self.making.take() {
            Some(new) => self.put(new).is_ok(),
            None => true,
        }
    }

    // Writes all of the bytes. Those that a new file begins with make it whole.
    fn wrote(&mut self, name: &str, at: u64, bytes: &[u8]) -> bool
        ensures { self.new.faults ≡ self.old.faults }
    {
        let Some(new) = &self.making else {
            return wrote_over(self.files, name, at, bytes);
        };
        if new.name() != name {
            return wrote_over(self.files, name, at, bytes);
        }
        write_fully(new.file(), at, bytes) && (at > 0 || self.is_put())
    }
}

// Writes all of the bytes over those of a file that was not made here, or is whole, and flushes it behind those that it begins
// with.
fn wrote_over<R: Files<File = File>>(files: &R, name: &str, at: u64, bytes: &[u8]) -> bool {
    if !is_file(files, name) {
        return false;
    }
    match OpenOptions::new().write(true).open(files, name) {
        Ok(file) => write_fully(&file, at, bytes) && (at > 0 || file.sync_all().is_ok()),
        Err(_) => false,
    }
}

/// Reads until `out` is full, however few bytes one call of the system gives, and answers whether that went well.
pub fn read_fully<F: FileExt>(file: &F, at: u64, out: &mut [u8]) -> bool {
    file.read_exact_at(out, at).is_ok()
}

/// Writes all of the bytes, however few one call of the system takes, and answers whether that went well.
pub fn write_fully<F: FileExt>(file: &F, at: u64, bytes: &[u8]) -> bool {
    file.write_all_at(bytes, at).is_ok()
}

impl<R: Files<File = File>> Disk for FileDisk<'_, R> {
    ghost files = { λ _. None };

    ghost faults = { λ d. d.faults };

    fn size(&mut self, name: &str) -> Result<Option<u64>, Failed>
        ensures counted { self.new.faults ≡ (if is_err result then one_more self.old.faults else self.old.faults) }
    {
        if let Ok(len) = self.length(name) {
            return Ok(len);
        }
        self.count_fault();
        Err(Failed)
    }

    fn make(&mut self, name: &str, len: u64) -> Result<(), OutFault>
        ensures counted { self.new.faults ≡ (if has_failed result then one_more self.old.faults else self.old.faults) }
    {
        match self.begin(name, len) {
            Ok(()) => Ok(()),
            Err(OutFault::Memory) => Err(OutFault::Memory),
            Err(_) => {
                self.count_fault();
                Err(OutFault::Failed)
            }
        }
    }

    fn read_at(&mut self, name: &str, at: u64, out: &mut [u8]) -> Result<(), Failed>
        ensures counted { self.new.faults ≡ (if is_err result then one_more self.old.faults else self.old.faults) }
    {
        if self.filled(name, at, out) {
            return Ok(());
        }
        self.count_fault();
        Err(Failed)
    }

    fn write_at(&mut self, name: &str, at: u64, bytes: &[u8]) -> Result<(), Failed>
        ensures counted { self.new.faults ≡ (if is_err result then one_more self.old.faults else self.old.faults) }
    {
        if self.wrote(name, at, bytes) {
            return Ok(());
        }
        self.count_fault();
        Err(Failed)
    }
}
