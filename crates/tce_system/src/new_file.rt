// A file that is not yet whole.
use crate::place::{Place, fault_of, folder_of, is_name_of, is_same};
use std::alloc::Global;
use std::fs::{File, Metadata, OpenOptions, TryLockError};
use std::io::{self, ErrorKind};
use std::os::unix::fs::PermissionsExt;
use std::rt::Files;
use tce_outside::OutFault;

/// How many runs make files in one folder at once, at most.
const MOST_DRAFTS: u32 = 4096;

/// How many numbers in a row without a draft that was left end the search for more.
const MOST_GAP: u32 = 16;

/// A file under the name of a draft, in the folder of the place to which its own name leads. It is moved to that place when it is
/// whole; where it is dropped before, it is removed.
pub struct NewFile<'a, R: Files<File = File>> {
    files: &'a R,
    name: String,
    place: String,
    draft: String,
    file: File,
}

impl<R: Files<File = File>> Drop for NewFile<'_, R> {
    fn drop(self) {
        // Another run may have a draft there by now, where the system has no locks.
        if !matches!(is_at(self.files, &self.draft, &self.file), Ok(false)) {
            let _ = self.files.remove_file(&self.draft);
        }
        let NewFile {
            files: _,
            name: _,
            place: _,
            draft: _,
            file: _,
        } = self;
    }
}

/// A file that was made, and where it was put.
#[derive(Drop)]
pub struct Made {
    pub name: String,
    pub place: String,
    pub file: File,
}

/// The file of this name among those that were made.
pub fn file_of<'a>(made: &'a [Made], name: &str) -> Option<&'a File> {
    for one in made.iter() {
        if one.name.as_str() == name {
            return Some(&one.file);
        }
    }
    None
}

/// Closes the file of this name among those that were made.
pub fn forget(made: &mut Vec<Made>, name: &str) {
    made.retain(|one| one.name.as_str() != name);
}

/// Answers a failure where the file of another name stands at this place, which would be lost.
pub fn stay_beside<R: Files>(
    made: &[Made],
    files: &R,
    name: &str,
    place: &Place,
) -> Result<(), OutFault> {
    for one in made.iter() {
        if one.name.as_str() != name && is_name_of(files, &one.place, place)? {
            return Err(OutFault::Failed);
        }
    }
    Ok(())
}

// Whether an open file is what stands at a path.
fn is_at<R: Files<File = File>>(files: &R, path: &str, file: &File) -> Result<bool, OutFault> {
    let standing = match files.symlink_metadata(path) {
        Ok(standing) => standing,
        Err(error) if error.kind() == ErrorKind::NotFound => return Ok(false),
        Err(error) => return Err(fault_of(&error)),
    };
    match file.metadata() {
        Ok(open) => Ok(is_same(&standing, &open)),
        Err(error) => Err(fault_of(&error)),
    }
}

// Locks a file until it is closed, or until the process ends in any way. It is another run's where that has locked it. Where the
// system has no locks it is taken to be this run's.
fn is_ours(file: &File) -> bool {
    !matches!(file.try_lock(), Err(TryLockError::WouldBlock))
}

// A new file at a path, or `None` where something stands there or another run takes it.
fn created<R: Files<File = File>>(files: &R, path: &str) -> Result<Option<File>, OutFault> {
    let opened = OpenOptions::new()
        .read(true)
        .write(true)
        .create_new(true)
        .open(files, path);
    let file = match opened {
        Ok(file) => file,
        Err(error) if error.kind() == ErrorKind::AlreadyExists => return Ok(None),
        Err(error) => return Err(fault_of(&error)),
    };
    if !is_ours(&file) {
        return Ok(None);
    }
    match is_at(files, path, &file) {
        Ok(true) => Ok(Some(file)),
        Ok(false) => Ok(None),
        Err(fault) => {
            let _ = files.remove_file(path);
            Err(fault)
        }
    }
}

// What an answer on another run's draft says, where it may be gone or not be this user's.
fn unless_theirs<T>(answer: io::Result<T>) -> Result<Option<T>, OutFault> {
    match answer {
        Ok(value) => Ok(Some(value)),
        Err(error) => match error.kind() {
            ErrorKind::NotFound => Ok(None),
            ErrorKind::PermissionDenied => Ok(None),
            _ => Err(fault_of(&error)),
        },
    }
}

// Removes the draft at a path, where it was left by a run that has ended, and answers whether it did.
fn is_cleared<R: Files<File = File>>(files: &R, path: &str) -> Result<bool, OutFault> {
    match unless_theirs(files.symlink_metadata(path))? {
        Some(found) if found.is_file() => {}
        _ => return Ok(false),
    }
    let mut how = OpenOptions::new();
    let opened = how.read(true).write(true).open(files, path);
    let Some(left) = unless_theirs(opened)? else {
        return Ok(false);
    };
    if !is_ours(&left) || !is_at(files, path, &left)? {
        return Ok(false);
    }
    Ok(unless_theirs(files.remove_file(path))?.is_some())
}

// The path of the draft of this number in a folder.
fn draft_path(alloc: Global, folder: &str, number: u32) -> Result<String, OutFault> {
    match format!(in alloc; "{folder}/tce-unfinished~{number}") {
        Ok(path) => Ok(path),
        Err(_) => Err(OutFault::Memory),
    }
}

// A new draft at a path, also in the place of one that was left there, or `None` where another run's or something else stands.
fn taken<R: Files<File = File>>(files: &R, path: &str) -> Result<Option<File>, OutFault> {
    if let Some(file) = created(files, path)? {
        return Ok(Some(file));
    }
    if is_cleared(files, path)? {
        return created(files, path);
    }
    Ok(None)
}

// Removes the drafts that were left behind this number. Where a run was killed beside others, lower numbers may be free.
fn clear_behind<R: Files<File = File>>(
    files: &R,
    alloc: Global,
    folder: &str,
    number: u32,
) -> Result<(), OutFault> {
    let mut gap = 0;
    for next in number..MOST_DRAFTS {
        let path = draft_path(alloc, folder, next + 1)?;
        if is_cleared(files, &path)? {
            gap = 0;
        } else if gap < MOST_GAP {
            gap += 1;
        } else {
            return Ok(());
        }
    }
    Ok(())
}

// A draft that was begun.
#[derive(Drop)]
struct Draft {
    number: u32,
    path: String,
    file: File,
}

// A new draft in a folder.
fn draft_in<R: Files<File = File>>(
    files: &R,
    alloc: Global,
    folder: &str,
) -> Result<Draft, OutFault> {
    for number in 1..=MOST_DRAFTS {
        let path = draft_path(alloc, folder, number)?;
        if let Some(file) = taken(files, &path)? {
            return Ok(Draft { number, path, file });
        }
    }
    Err(OutFault::Failed)
}

// What stands at a place may be replaced: it is a file that may be written to.
fn may_replace<R: Files<File = File>>(
    files: &R,
    path: &str,
    found: &Metadata,
) -> Result<(), OutFault> {
    if !found.is_file() {
        return Err(OutFault::Failed);
    }
    match OpenOptions::new().write(true).open(files, path) {
        Ok(_) => Ok(()),
        Err(error) => Err(fault_of(&error)),
    }
}

// Gives a file the permissions of another one.
fn take_permissions(file: &File, of: &Metadata) -> Result<(), OutFault> {
    let own = match file.metadata() {
        Ok(own) => own,
        Err(error) => return Err(fault_of(&error)),
    };
    if own.permissions().mode() == of.permissions().mode() {
        return Ok(());
    }
    match file.set_permissions(of.permissions()) {
        Ok(()) => Ok(()),
        Err(error) => Err(fault_of(&error)),
    }
}

// Flushes a folder, so that the name of a file in it stays. A folder that may not be read cannot be opened for this, and then a
// flush of the file has to do; some systems flush no folders.
fn flush_folder<R: Files<File = File>>(
    files: &R,
    folder: &str,
    file: &File,
) -> Result<(), OutFault> {
    let flushed = match OpenOptions::new().read(true).open(files, folder) {
        Ok(folder) => folder.sync_all(),
        Err(error) if error.kind() == ErrorKind::PermissionDenied => file.sync_all(),
        Err(error) => Err(error),
    };
    match flushed {
        Ok(()) => Ok(()),
        Err(error) if error.kind() == ErrorKind::InvalidInput => Ok(()),
        Err(error) => Err(fault_of(&error)),
    }
}

impl<'a, R: Files<File = File>> NewFile<'a, R> {
    /// A file of `len` zeros that is to have this name, and to stand at the place to which the name leads.
    pub fn begin(
        files: &'a R,
        alloc: Global,
        name: &str,
        place: Place,
        len: u64,
    ) -> Result<Self, OutFault> {
        let Place { path, found } = place;
        if let Some(found) = &found {
            may_replace(files, &path, found)?;
        }
        let Ok(name) = String::from_str(alloc, name) else {
            return Err(OutFault::Memory);
        };
        let Draft {
            number,
            path: draft,
            file,
        } = draft_in(files, alloc, folder_of(&path))?;
        let new = NewFile {
            files,
            name,
            place: path,
            draft,
            file,
        };
        clear_behind(files, alloc, folder_of(&new.place), number)?;
        if let Some(found) = &found {
            take_permissions(&new.file, found)?;
        }
        match new.file.set_len(len) {
            Ok(()) => Ok(new),
            Err(error) => Err(fault_of(&error)),
        }
    }

    /// The name that it is to have.
    pub fn name(&self) -> &str {
        &self.name
    }

    /// What is to be read and written.
    pub fn file(&self) -> &File {
        &self.file
    }

    // Flushes the file and puts it in its place.
    fn is_moved(&self) -> bool {
        self.file.sync_all().is_ok()
            && matches!(is_at(self.files, &self.draft, &self.file), Ok(true))
            && self.files.rename(&self.draft, &self.place).is_ok()
    }

    /// Puts the file, which is whole now, in its place, on the disk.
    pub fn put(self) -> Result<Made, OutFault> {
        if !self.is_moved() {
            return Err(OutFault::Failed);
        }
        let NewFile {
            files,
            name,
            place,
            draft: _,
            file,
        } = self;
        flush_folder(files, folder_of(&place), &file)?;
        Ok(Made { name, place, file })
    }
}
