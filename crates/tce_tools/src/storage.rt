// The two ways in which a file stores the elements of an array.
ghost use Rattle.std.specs.Prelude.{◌≡◌, ℕ, List, Option, OnOk, IsErr, IsErrOf};
ghost use Rattle.tce_outside.specs.Files.{Files, others, IsKeptOrZeros, KeepsFrom};
ghost use Rattle.tce_outside.specs.Fault.{FaultReported, HasFailed};
ghost use Rattle.tce_tools.specs.Storage.{start_len};
ghost use Rattle.tce_tools.specs.Told.{HasStoredIn, MakesZeros, holding_bare, holding_whole};

use tce_array::{Form, form_len, write_head};
use tce_outside::{Disk, Failed, OutFault};
use tce_space::Shape;

/// How a file stores the elements of an array.
#[derive(Clone, Copy)]
pub enum Storage {
    /// In row-major order, eight bytes each, and nothing else.
    Flat,
    /// Tile by tile behind a head, in this form.
    Array(Form),
}

/// A file that stores the elements of an array.
#[derive(Clone, Copy)]
pub struct ElementFile<'a> {
    /// The name of the file.
    pub name: &'a str,
    /// How it stores the elements.
    pub storage: Storage,
    /// The shape of the array.
    pub shape: &'a Shape,
}

/// Puts a file of zeros, as long as one of elements that is stored so, in the place of whatever has this name.
///
/// For want of memory no file changes; where the disk fails, the file of this name is as it was, has zeros alone, or is
/// absent.
pub fn make<D: Disk>(
    disk: &mut D,
    name: &str,
    storage: Storage,
    shape: &Shape,
) -> Result<(), OutFault>
    ensures made { OnOk result
        (MakesZeros name.now storage shape.now (D.files disk.old) (D.files disk.new)) }
    ensures memory { IsErrOf result OutFault.Memory → D.files disk.new ≡ D.files disk.old }
    ensures zeros { IsKeptOrZeros name.now (D.files disk.old) (D.files disk.new) }
    ensures others { others name.now (D.files disk.new) ≡ others name.now (D.files disk.old) }
    ensures fault_reported { FaultReported D.faults disk.old disk.new (HasFailed result) }
{
    match storage {
        Storage::Flat => disk.make(name, 8 * shape.elements()),
        Storage::Array(form) => disk.make(name, form_len(form, shape)),
    }
}

/// Writes what stands before the elements, which is the head of an array file and nothing in a flat one.
///
/// It comes last: before that zeros stand in its place, and the file is no array. Where the disk fails, these bytes may
/// hold anything. All that stands behind them and all other files stay in every case.
pub fn write_start<D: Disk>(
    disk: &mut D,
    name: &str,
    storage: Storage,
    shape: &Shape,
) -> Result<(), Failed>
    requires { HasStoredIn (D.files disk.old) name.now storage shape.now }
    ensures written { OnOk result ((before : Option Files) (element : Files → List ℕ → ℕ)
        → D.files disk.old ≡ holding_bare name.now storage shape.now element before
        → D.files disk.new ≡ holding_whole name.now storage shape.now element before) }
    ensures behind { KeepsFrom name.now (start_len storage shape.now)
        (D.files disk.old) (D.files disk.new) }
    ensures others { others name.now (D.files disk.new) ≡ others name.now (D.files disk.old) }
    ensures fault_reported { FaultReported D.faults disk.old disk.new (IsErr result) }
{
    match storage {
        Storage::Flat => Ok(()),
        Storage::Array(form) => write_head(disk, name, form, shape),
    }
}
