// Array files in other forms.
ghost use Rattle.std.specs.Prelude.{◌≡◌, ◌≢◌, ℕ, false, IsTrue, Ok, Some, None, OnOk, IfSome, IfNone, IsErr, length};
ghost use Rattle.tce_outside.specs.Files.{others};
ghost use Rattle.tce_outside.specs.Fault.{FaultReported};
ghost use Rattle.tce_array.specs.Forms.{Fits};
ghost use Rattle.tce_tools.specs.Answers.{IsOfConvert, AllNarrow, IsFirstWide};
ghost use Rattle.tce_tools.specs.Told.{HasStoredIn, AllFit, IsFirstMisfitIn, IsConvertAnswerTo, Converts, MayConvert, KeepsFiles, IsDiskFault};

use crate::band::band_at;
use crate::banding::read_band;
use crate::buffers::Buffers;
use crate::copying::{Copying, copy};
use crate::fault::ToolFault;
use crate::storage::{ElementFile, Storage};
use tce_array::{Form, open};
use tce_outside::{Disk, Failed};
use tce_space::Shape;

// Whether a word can be stored in four bytes: as a signed number it is from -2^31 to 2^31 - 1.
fn fits_narrow(word: u64) -> bool
    ensures yes { IsTrue result → Fits Form.Narrow word }
    ensures no { result ≡ false → Fits Form.Narrow word → ⊥ }
{
    word < 1 << 31 || word >= 0xFFFF_FFFF_8000_0000
}

// The first of the words that cannot be stored in four bytes.
fn first_misfit(words: &[u64]) -> Option<usize>
    ensures none { IfNone result (AllNarrow words.now (length words.now)) }
    ensures some { IfSome result (IsFirstWide words.now) }
{
    for p in 0..words.len() {
        if !fits_narrow(words[p]) {
            return Some(p);
        }
    }
    None
}

// The first element, in row-major order, that cannot be stored in four bytes.
fn find_misfit<D: Disk>(
    disk: &mut D,
    shape: &Shape,
    name: &str,
    form: Form,
    buffers: &mut Buffers,
) -> Result<Option<u64>, Failed>
    requires { HasStoredIn (D.files disk.old) name.now (Storage.Array form) shape.now }
    ensures none { result ≡ Ok None
        → AllFit Form.Narrow (D.files disk.old) name.now form shape.now }
    ensures some { (k : ℕ) → result ≡ Ok (Some k)
        → IsFirstMisfitIn Form.Narrow (D.files disk.old) name.now form shape.now k }
    ensures same { D.files disk.new ≡ D.files disk.old }
    ensures fault_reported { FaultReported D.faults disk.old disk.new (IsErr result) }
{
    let bytes = buffers.bytes.as_mut_slice();
    let tiled = buffers.tiled.as_mut_slice();
    let buffer = buffers.words.as_mut_slice();
    let read = ElementFile {
        name,
        storage: Storage::Array(form),
        shape,
    };
    let elements = shape.elements();
    let mut done = 0;
    while done < elements {
        let band = band_at(shape, done);
        let words = &mut buffer[..band.len as usize];
        read_band(disk, &read, band, bytes, tiled, words)?;
        if let Some(place) = first_misfit(words) {
            return Ok(Some(done + place as u64));
        }
        done += band.len;
    }
    Ok(None)
}

// The first element of an array file that cannot be stored in a form.
fn misfit_for<D: Disk>(
    disk: &mut D,
    shape: &Shape,
    name: &str,
    form: Form,
    wanted: Form,
    buffers: &mut Buffers,
) -> Result<Option<u64>, Failed>
    requires { HasStoredIn (D.files disk.old) name.now (Storage.Array form) shape.now }
    ensures none { result ≡ Ok None → wanted ≡ Form.Narrow
        → AllFit wanted (D.files disk.old) name.now form shape.now }
    ensures some { (k : ℕ) → result ≡ Ok (Some k) → (wanted ≡ Form.Narrow)
        × IsFirstMisfitIn wanted (D.files disk.old) name.now form shape.now k }
    ensures same { D.files disk.new ≡ D.files disk.old }
    ensures fault_reported { FaultReported D.faults disk.old disk.new (IsErr result) }
{
    match wanted {
        Form::Narrow => find_misfit(disk, shape, name, form, buffers),
        _ => Ok(None),
    }
}

/// Makes an array file in a form of the elements of another array file, whatever its form.
///
/// `Array` where the file is no array of the shape; else `DoesNotFit` with the place in row-major order of the first
/// element that cannot be stored in the form, which is so in `Narrow` for one that as a signed number is below -2^31 or
/// above 2^31 - 1. `Disk` only where the disk failed, and then the file `to` is as it was, is absent, begins with zeros as
/// no array does, or is whole but for its head, which is written last; every other refusal changes no file.
pub fn convert<D: Disk>(
    disk: &mut D,
    shape: &Shape,
    array: &str,
    form: Form,
    to: &str,
    buffers: &mut Buffers,
) -> Result<(), ToolFault>
    requires { array.now ≢ to.now }
    ensures converted { OnOk result
        (Converts array.now form to.now shape.now (D.files disk.old) (D.files disk.new)) }
    ensures answer { IsConvertAnswerTo (D.files disk.old) array.now form shape.now result }
    ensures own { IsOfConvert form result }
    ensures refused { KeepsFiles result (D.files disk.old) (D.files disk.new) }
    ensures no_half { MayConvert array.now form to.now shape.now
        (D.files disk.old) (D.files disk.new) }
    ensures others { others to.now (D.files disk.new) ≡ others to.now (D.files disk.old) }
    ensures fault_reported { FaultReported D.faults disk.old disk.new (IsDiskFault result) }
{
    let found = open(disk, array, shape)?;
    if let Some(place) = misfit_for(disk, shape, array, found, form, buffers)? {
        return Err(ToolFault::DoesNotFit(place));
    }
    let files = Copying {
        shape,
        source: array,
        from: Storage::Array(found),
        target: to,
        to: Storage::Array(form),
    };
    copy(disk, files, buffers)
}
