// The elements of one file, stored in another.
ghost use Rattle.std.specs.Prelude.{◌≡◌, ◌≢◌, ◌≤◌, length, OnOk, IsErrOf};
ghost use Rattle.tce_outside.specs.Files.{others};
ghost use Rattle.tce_outside.specs.Fault.{FaultReported, HasFailed};
ghost use Rattle.tce_tools.specs.Answers.{IsOfCopy};
ghost use Rattle.tce_tools.specs.Told.{HasStoredIn, Copies, CopiesBare, MayCopy, KeepsFiles, IsDiskFault};

use crate::band::band_at;
use crate::banding::{read_band, write_band};
use crate::buffers::Buffers;
use crate::fault::ToolFault;
use crate::storage::{ElementFile, Storage, make, write_start};
use tce_outside::{Disk, Failed, OutFault};
use tce_space::Shape;

/// Two files for the elements of an array, and how each stores them.
#[derive(Clone, Copy)]
pub(crate) struct Copying<'a> {
    /// The shape of the array.
    pub(crate) shape: &'a Shape,
    /// The file that has the elements.
    pub(crate) source: &'a str,
    pub(crate) from: Storage,
    /// The file that is made.
    pub(crate) target: &'a str,
    pub(crate) to: Storage,
}

// Makes a file of the elements that another one has, with zeros in the place of its start. The first band comes last, so
// that a flat file too begins with zeros until all others are there.
fn copy_elements<D: Disk>(
    disk: &mut D,
    files: Copying,
    bytes: &mut [u8],
    tiled: &mut [u64],
    buffer: &mut [u64],
) -> Result<(), OutFault>
    requires names { files.source.now ≢ files.target.now }
    requires source { HasStoredIn (D.files disk.old) files.source.now files.from files.shape.now }
    requires bytes { 262144 ≤ length bytes.old }
    requires tiled { 32768 ≤ length tiled.old }
    requires words { 32768 ≤ length buffer.old }
    ensures copied { OnOk result
        (CopiesBare files.entry.source.now files.entry.from files.entry.target.now files.entry.to
        files.entry.shape.now (D.files disk.old) (D.files disk.new)) }
    ensures memory { IsErrOf result OutFault.Memory → D.files disk.new ≡ D.files disk.old }
    ensures no_half { MayCopy files.entry.source.now files.entry.from files.entry.target.now files.entry.to
        files.entry.shape.now (D.files disk.old) (D.files disk.new) }
    ensures others { others files.entry.target.now (D.files disk.new)
        ≡ others files.entry.target.now (D.files disk.old) }
    ensures fault_reported { FaultReported D.faults disk.old disk.new (HasFailed result) }
{
    make(disk, files.target, files.to, files.shape)?;
    let read = ElementFile {
        name: files.source,
        storage: files.from,
        shape: files.shape,
    };
    let made = ElementFile {
        name: files.target,
        storage: files.to,
        shape: files.shape,
    };
    let shape = files.shape;
    let elements = shape.elements();
    let first = band_at(shape, 0);
    let mut done = first.len;
    while done < elements {
        let band = band_at(shape, done);
        let words = &mut buffer[..band.len as usize];
        let Ok(()) = read_band(disk, &read, band, bytes, tiled, words) else {
            return Err(OutFault::Failed);
        };
        let Ok(()) = write_band(disk, &made, band, bytes, tiled, words) else {
            return Err(OutFault::Failed);
        };
        done += band.len;
    }
    let start = &mut buffer[..first.len as usize];
    let Ok(()) = read_band(disk, &read, first, bytes, tiled, start) else {
        return Err(OutFault::Failed);
    };
    let Ok(()) = write_band(disk, &made, first, bytes, tiled, start) else {
        return Err(OutFault::Failed);
    };
    Ok(())
}

/// Makes a file of the elements that another one has. What stands before them, the head of an array file, comes last.
///
/// For want of memory no file changes. Where the disk fails, the file that is made is as it was, is absent, begins with
/// zeros, or is whole but for its head, or a flat file for its first 262,144 bytes.
pub fn copy<D: Disk>(disk: &mut D, files: Copying, buffers: &mut Buffers) -> Result<(), ToolFault>
    requires names { files.source.now ≢ files.target.now }
    requires source { HasStoredIn (D.files disk.old) files.source.now files.from files.shape.now }
    ensures copied { OnOk result
        (Copies files.entry.source.now files.entry.from files.entry.target.now files.entry.to
        files.entry.shape.now (D.files disk.old) (D.files disk.new)) }
    ensures own { IsOfCopy result }
    ensures refused { KeepsFiles result (D.files disk.old) (D.files disk.new) }
    ensures no_half { MayCopy files.entry.source.now files.entry.from files.entry.target.now files.entry.to
        files.entry.shape.now (D.files disk.old) (D.files disk.new) }
    ensures others { others files.entry.target.now (D.files disk.new)
        ≡ others files.entry.target.now (D.files disk.old) }
    ensures fault_reported { FaultReported D.faults disk.old disk.new (IsDiskFault result) }
{
    let _limits = files.shape.elements();
    copy_elements(
        disk,
        files,
        &mut buffers.bytes,
        &mut buffers.tiled,
        &mut buffers.words,
    )?;
    match write_start(disk, files.target, files.to, files.shape) {
        Ok(()) => Ok(()),
        Err(Failed) => Err(ToolFault::Disk),
    }
}
