// Where the files of names stand.
use std::alloc::Global;
use std::fs::{File, Metadata, OpenOptions};
use std::io::{Error, ErrorKind};
use std::os::unix::fs::MetadataExt;
use std::rt::Files;
use tce_outside::OutFault;

/// How many links are followed from a name to its file, as the system does.
const MOST_LINKS: u32 = 40;

/// How often a name is looked at until two looks agree.
const MOST_LOOKS: u32 = 16;

/// Where a name leads: the path of what is no link, and what stands there, if anything.
#[derive(Drop)]
pub struct Place {
    pub path: String,
    pub found: Option<Metadata>,
}

/// What a call of the system answered, where it did not do what was asked.
pub fn fault_of(error: &Error) -> OutFault {
    if error.kind() == ErrorKind::OutOfMemory {
        OutFault::Memory
    } else {
        OutFault::Failed
    }
}

/// The folder in which a path stands.
pub fn folder_of(path: &str) -> &str {
    match path.rsplit_once('/') {
        None => ".",
        Some(("", _)) => "/",
        Some((folder, _)) => folder,
    }
}

// The name of a path in its folder.
fn name_of(path: &str) -> &str {
    match path.rsplit_once('/') {
        None => path,
        Some((_, name)) => name,
    }
}

/// Whether both are one file.
pub fn is_same(one: &Metadata, other: &Metadata) -> bool {
    one.dev() == other.dev() && one.ino() == other.ino()
}

/// What a name shows, or `None` where there is nothing, or its link leads to nothing.
pub fn shown<R: Files>(files: &R, name: &str) -> Result<Option<Metadata>, OutFault> {
    match files.metadata(name) {
        Ok(found) => Ok(Some(found)),
        Err(error) if error.kind() == ErrorKind::NotFound => Ok(None),
        Err(error) => Err(fault_of(&error)),
    }
}

/// Whether a name shows a regular file.
pub fn is_file<R: Files>(files: &R, name: &str) -> bool {
    match shown(files, name) {
        Ok(Some(found)) => found.is_file(),
        _ => false,
    }
}

/// Opens a file for reading, or answers `None` where there is none. What is no regular file is not opened, since to open it may
/// take until somebody writes to it.
pub fn opened<R: Files<File = File>>(files: &R, name: &str) -> Result<Option<File>, OutFault> {
    match shown(files, name)? {
        None => return Ok(None),
        Some(found) if found.is_file() => {}
        Some(_) => return Err(OutFault::Failed),
    }
    match OpenOptions::new().read(true).open(files, name) {
        Ok(file) => Ok(Some(file)),
        Err(error) => Err(fault_of(&error)),
    }
}

/// The length of an open file.
pub fn length_of(file: &File) -> Result<u64, OutFault> {
    match file.metadata() {
        Ok(found) => Ok(found.len()),
        Err(error) => Err(fault_of(&error)),
    }
}

// What stands at a path, be it a link.
fn standing<R: Files>(files: &R, path: &str) -> Result<Option<Metadata>, OutFault> {
    match files.symlink_metadata(path) {
        Ok(found) => Ok(Some(found)),
        Err(error) if error.kind() == ErrorKind::NotFound => Ok(None),
        Err(error) => Err(fault_of(&error)),
    }
}

// The path to which the link at a path leads.
fn behind_link<R: Files>(files: &R, alloc: Global, path: &str) -> Result<String, OutFault> {
    let text = match files.read_link(alloc, path) {
        Ok(text) => text.into_string(),
        Err(error) => return Err(fault_of(&error)),
    };
    if text.as_str().starts_with('/') {
        return Ok(text);
    }
    let folder = folder_of(path);
    match format!(in alloc; "{folder}/{text}") {
        Ok(path) => Ok(path),
        Err(_) => Err(OutFault::Memory),
    }
}

// Follows the links at a path to what is none.
fn followed<R: Files>(files: &R, alloc: Global, name: &str) -> Result<Place, OutFault> {
    let Ok(mut path) = String::from_str(alloc, name) else {
        return Err(OutFault::Memory);
    };
    for _ in 0..MOST_LINKS {
        match standing(files, &path)? {
            Some(found) if found.is_symlink() => path = behind_link(files, alloc, &path)?,
            found => return Ok(Place { path, found }),
        }
    }
    Err(OutFault::Failed)
}

// Whether what a name shows is what stands at the place to which its links lead by their texts.
fn agree(shown: &Option<Metadata>, place: &Place) -> bool {
    match (shown, &place.found) {
        (Some(shown), Some(found)) => is_same(shown, found),
        (None, None) => true,
        _ => false,
    }
}

/// Where a name leads. A link that the system follows otherwise than by its text, as one to an open pipe, is a fault.
pub fn place_of<R: Files>(files: &R, alloc: Global, name: &str) -> Result<Place, OutFault> {
    // Another run may put a new file there between the two calls.
    for _ in 0..MOST_LOOKS {
        let shown = shown(files, name)?;
        let place = followed(files, alloc, name)?;
        if agree(&shown, &place) {
            return Ok(place);
        }
    }
    Err(OutFault::Failed)
}

// Whether both paths are one name in one folder, by whatever way that folder is reached.
fn are_one_name<R: Files>(files: &R, one: &str, other: &str) -> Result<bool, OutFault> {
    if name_of(one) != name_of(other) {
        return Ok(false);
    }
    let one = shown(files, folder_of(one))?;
    let other = shown(files, folder_of(other))?;
    match (one, other) {
        (Some(one), Some(other)) => Ok(is_same(&one, &other)),
        _ => Ok(false),
    }
}

/// Whether a name is itself that of a place, and no link to it nor a second name of the file there.
pub fn is_name_of<R: Files>(files: &R, name: &str, place: &Place) -> Result<bool, OutFault> {
    let Some(found) = &place.found else {
        return Ok(false);
    };
    match standing(files, name)? {
        Some(own) if is_same(&own, found) => {
            if own.nlink() == 1 {
                Ok(true)
            } else {
                are_one_name(files, name, &place.path)
            }
        }
        _ => Ok(false),
    }
}
