// The sum of an array's elements.
ghost use Rattle.std.specs.Prelude.{◌≡◌, IfOk, IsErr};
ghost use Rattle.tce_base.specs.Word.{wrapping_sum};
ghost use Rattle.tce_outside.specs.Fault.{FaultReported};
ghost use Rattle.tce_tools.specs.Told.{HasFormIn, IsSumOf};

use crate::band::band_at;
use crate::banding::read_band;
use crate::buffers::Buffers;
use crate::storage::{ElementFile, Storage};
use tce_array::Form;
use tce_outside::{Disk, Failed};
use tce_space::Shape;

// The sum of words modulo 2^64.
fn sum_of(words: &[u64]) -> u64
    ensures { result ≡ wrapping_sum words.now }
{
    let mut total: u64 = 0;
    for word in words {
        total = total.wrapping_add(*word);
    }
    total
}

/// The sum of all elements of an array file of this form, modulo 2^64. Padding is not looked at. No file changes.
pub fn cell_sum<D: Disk>(
    disk: &mut D,
    form: Form,
    shape: &Shape,
    array: &str,
    buffers: &mut Buffers,
) -> Result<u64, Failed>
    requires { HasFormIn (D.files disk.old) array.now form shape.now }
    ensures sum { IfOk result (IsSumOf (D.files disk.old) array.now form shape.now) }
    ensures same { D.files disk.new ≡ D.files disk.old }
    ensures fault_reported { FaultReported D.faults disk.old disk.new (IsErr result) }
{
    let bytes = buffers.bytes.as_mut_slice();
    let tiled = buffers.tiled.as_mut_slice();
    let buffer = buffers.words.as_mut_slice();
    let read = ElementFile {
        name: array,
        storage: Storage::Array(form),
        shape,
    };
    let elements = shape.elements();
    let mut done = 0;
    let mut total: u64 = 0;
    while done < elements {
        let band = band_at(shape, done);
        let words = &mut buffer[..band.len as usize];
        read_band(disk, &read, band, bytes, tiled, words)?;
        total = total.wrapping_add(sum_of(words));
        done += band.len;
    }
    Ok(total)
}
