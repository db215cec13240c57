// Array files from flat files, and back.
ghost use Rattle.std.specs.Prelude.{◌≡◌, ◌≢◌, OnOk};
ghost use Rattle.tce_outside.specs.Files.{others};
ghost use Rattle.tce_outside.specs.Fault.{FaultReported};
ghost use Rattle.tce_tools.specs.Answers.{IsOfPack, IsOfUnpack};
ghost use Rattle.tce_tools.specs.Told.{IsPackAnswerTo, IsUnpackAnswerTo, Packs, Unpacks, MayPack, MayUnpack, KeepsFiles, IsDiskFault};

use crate::buffers::Buffers;
use crate::copying::{Copying, copy};
use crate::fault::ToolFault;
use crate::storage::Storage;
use tce_array::{Form, open};
use tce_outside::Disk;
use tce_space::Shape;

/// Makes an array file, in the first form, of the elements of a flat file.
///
/// `NoFlat` where there is no such flat file; else `FlatLength` with its length in bytes where that is not 8 for each
/// element. `Disk` only where the disk failed, and then the array file is as it was, is absent, begins with zeros as no
/// array does, or is whole but for its head, which is written last; every other refusal changes no file.
#[tactic(auto, using(crate::proofs::NoHalf::same_left))]
pub fn pack<D: Disk>(
    disk: &mut D,
    shape: &Shape,
    flat: &str,
    array: &str,
    buffers: &mut Buffers,
) -> Result<(), ToolFault>
    requires { flat.now ≢ array.now }
    ensures packed { OnOk result
        (Packs flat.now array.now shape.now (D.files disk.old) (D.files disk.new)) }
    ensures answer { IsPackAnswerTo (D.files disk.old) flat.now shape.now result }
    ensures own { IsOfPack result }
    ensures refused { KeepsFiles result (D.files disk.old) (D.files disk.new) }
    ensures no_half { MayPack flat.now array.now shape.now (D.files disk.old) (D.files disk.new) }
    ensures others { others array.now (D.files disk.new) ≡ others array.now (D.files disk.old) }
    ensures fault_reported { FaultReported D.faults disk.old disk.new (IsDiskFault result) }
{
    let Some(len) = disk.size(flat)? else {
        return Err(ToolFault::NoFlat);
    };
    if len != 8 * shape.elements() {
        return Err(ToolFault::FlatLength(len));
    }
    let files = Copying {
        shape,
        source: flat,
        from: Storage::Flat,
        target: array,
        to: Storage::Array(Form::One),
    };
    copy(disk, files, buffers)
}

/// Makes a flat file of the elements of an array file, whatever its form.
///
/// `Array` where the file is no array of the shape. `Disk` only where the disk failed, and then the flat file is as it
/// was, is absent, begins with zeros, or is whole but for its first 262,144 bytes, which are written last; every other
/// refusal changes no file.
#[tactic(auto, using(crate::proofs::NoHalf::same_left))]
pub fn unpack<D: Disk>(
    disk: &mut D,
    shape: &Shape,
    array: &str,
    flat: &str,
    buffers: &mut Buffers,
) -> Result<(), ToolFault>
    requires { array.now ≢ flat.now }
    ensures unpacked { OnOk result
        (Unpacks array.now flat.now shape.now (D.files disk.old) (D.files disk.new)) }
    ensures answer { IsUnpackAnswerTo (D.files disk.old) array.now shape.now result }
    ensures own { IsOfUnpack result }
    ensures refused { KeepsFiles result (D.files disk.old) (D.files disk.new) }
    ensures no_half { MayUnpack array.now flat.now shape.now (D.files disk.old) (D.files disk.new) }
    ensures others { others flat.now (D.files disk.new) ≡ others flat.now (D.files disk.old) }
    ensures fault_reported { FaultReported D.faults disk.old disk.new (IsDiskFault result) }
{
    let form = open(disk, array, shape)?;
    let files = Copying {
        shape,
        source: array,
        from: Storage::Array(form),
        target: flat,
        to: Storage::Flat,
    };
    copy(disk, files, buffers)
}
