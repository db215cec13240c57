// Files that stay open between the calls that use them.
ghost use Rattle.std.specs.Prelude.{◌≡◌, ◌⊎◌, None, Some};
ghost use Rattle.std.specs.Option.{option_copied};
ghost use Rattle.std.specs.HashMap.{get_by_text, IsEmpty, IsUnchanged};
ghost use Rattle.tce_system.specs.Kept.{KeepsOthers};

use crate::place::{Place, is_name_of};
use std::alloc::Global;
use std::collections::HashMap;
use std::fs::File;
use std::rt::Files;
use tce_outside::OutFault;

/// How many files one table keeps open at most; a system often allows a process some 1,000, and a command uses at most 40.
const MOST_KEPT: usize = 256;

/// A table of open files by name.
#[derive(Drop)]
pub struct KeptFiles {
    alloc: Global,
    files: HashMap<String, File>,
}

impl KeptFiles {
    /// An empty table, which takes its memory from `alloc`.
    pub fn new(alloc: Global) -> Self
        ensures { IsEmpty result.files }
    {
        KeptFiles {
            alloc,
            files: HashMap::new(alloc),
        }
    }

    /// The file that is kept open under this name.
    pub fn get(&self, name: &str) -> Option<&File>
        ensures { option_copied result ≡ get_by_text self.now.files name.now }
    {
        self.files.get(name)
    }

    /// Answers a failure where one of these names but this one is that of the place to which this one leads.
    pub fn stay_beside<R: Files>(
        &self,
        files: &R,
        name: &str,
        place: &Place,
    ) -> Result<(), OutFault> {
        for other in self.files.keys() {
            if other.as_str() != name && is_name_of(files, other.as_str(), place)? {
                return Err(OutFault::Failed);
            }
        }
        Ok(())
    }

    /// Keeps a file open under this name, and answers whether it does. Where the table is full or there is no memory, the file
    /// is closed, and the next call that uses it opens it again.
    pub fn keep(&mut self, name: &str, file: File) -> bool
        ensures kept { (get_by_text self.new.files name.now ≡ Some file) ⊎ IsUnchanged self.old.files self.new.files }
        ensures others { KeepsOthers self.old.files self.new.files name.now }
    {
        if self.files.len() >= MOST_KEPT {
            return false;
        }
        match String::from_str(self.alloc, name) {
            Ok(name) => self.files.insert(name, file).is_ok(),
            Err(_) => false,
        }
    }

    /// Closes the file that is kept open under this name.
    pub fn close(&mut self, name: &str)
        ensures closed { get_by_text self.new.files name.now ≡ None }
        ensures others { KeepsOthers self.old.files self.new.files name.now }
    {
        let _ = self.files.remove(name);
    }
}
