// Elements of a tensor of a known shape, moved between its files.
ghost use Rattle.std.specs.Prelude.{◌≡◌, ◌≢◌, ◌≤◌, Err, IfErr, length};
ghost use Rattle.tce_space.specs.Limits.{max_name_bytes};
ghost use Rattle.tce_outside.specs.Files.{others};
ghost use Rattle.tce_outside.specs.Fault.{FaultReported};
ghost use Rattle.tce_flat.specs.Tensors.{array_file};
ghost use Rattle.tce_flat.specs.Done.{IsPacking, IsUnpacking, IsConverting};
ghost use Rattle.tce_flat.specs.NoHalf.{LeavesPacking, LeavesUnpacking, LeavesConverting};
ghost use Rattle.tce_flat.specs.Told.{RefusesFlat, RefusesArray, RefusesForm, ArrayAlone, ConvertedAlone, KeepsFiles, Reports};

use crate::naming::{file_of, report};
use crate::refusals::refusal_of;
use std::alloc::Global;
use tce_array::{Form, form_len};
use tce_command::Refusal;
use tce_outside::Disk;
use tce_space::Shape;
use tce_tools::Buffers;

/// Packs a tensor.
pub fn pack_tensor<D: Disk>(
    alloc: Global,
    shape: &Shape,
    tensor: &str,
    flat: &str,
    disk: &mut D,
) -> Result<String, Refusal>
    requires tensor { length tensor.now ≤ max_name_bytes }
    requires flat { length flat.now ≤ 200 }
    requires apart { flat.now ≢ array_file tensor.now }
    ensures done { Reports result
        (IsPacking (D.files disk.old) (D.files disk.new) shape.now tensor.now flat.now) }
    ensures refused { IfErr result (RefusesFlat (D.files disk.old) flat.now shape.now) }
    ensures unchanged { KeepsFiles result (D.files disk.old) (D.files disk.new) }
    ensures no_half { LeavesPacking tensor.now flat.now shape.now
        (D.files disk.old) (D.files disk.new) }
    ensures others { ArrayAlone tensor.now (D.files disk.old) (D.files disk.new) }
    ensures fault_reported { FaultReported D.faults disk.old disk.new (result ≡ Err Refusal.Disk) }
{
    let array = file_of(tensor, ".tca");
    let Ok(text) = report(alloc, "pack", array.as_str(), form_len(Form::One, shape)) else {
        return Err(Refusal::Memory);
    };
    let Ok(mut buffers) = Buffers::new(alloc) else {
        return Err(Refusal::Memory);
    };
    match tce_tools::pack(disk, shape, flat, array.as_str(), &mut buffers) {
        Ok(()) => Ok(text),
        Err(fault) => Err(refusal_of(fault, tensor, flat)),
    }
}

/// Unpacks a tensor.
pub fn unpack_tensor<D: Disk>(
    alloc: Global,
    shape: &Shape,
    tensor: &str,
    flat: &str,
    disk: &mut D,
) -> Result<String, Refusal>
    requires tensor { length tensor.now ≤ max_name_bytes }
    requires apart { array_file tensor.now ≢ flat.now }
    ensures done { Reports result
        (IsUnpacking (D.files disk.old) (D.files disk.new) shape.now tensor.now flat.now) }
    ensures refused { IfErr result (RefusesArray (D.files disk.old) tensor.now shape.now) }
    ensures unchanged { KeepsFiles result (D.files disk.old) (D.files disk.new) }
    ensures no_half { LeavesUnpacking tensor.now flat.now shape.now
        (D.files disk.old) (D.files disk.new) }
    ensures others { others flat.now (D.files disk.new) ≡ others flat.now (D.files disk.old) }
    ensures fault_reported { FaultReported D.faults disk.old disk.new (result ≡ Err Refusal.Disk) }
{
    let array = file_of(tensor, ".tca");
    let Ok(text) = report(alloc, "unpack", flat, 8 * shape.elements()) else {
        return Err(Refusal::Memory);
    };
    let Ok(mut buffers) = Buffers::new(alloc) else {
        return Err(Refusal::Memory);
    };
    match tce_tools::unpack(disk, shape, array.as_str(), flat, &mut buffers) {
        Ok(()) => Ok(text),
        Err(fault) => Err(refusal_of(fault, tensor, array.as_str())),
    }
}

/// Converts the array of a tensor.
pub fn convert_tensor<D: Disk>(
    alloc: Global,
    shape: &Shape,
    tensor: &str,
    form: Form,
    disk: &mut D,
) -> Result<String, Refusal>
    requires tensor { length tensor.now ≤ max_name_bytes }
    ensures done { Reports result
        (IsConverting (D.files disk.old) (D.files disk.new) shape.now tensor.now form) }
    ensures refused { IfErr result (RefusesForm (D.files disk.old) tensor.now form shape.now) }
    ensures unchanged { KeepsFiles result (D.files disk.old) (D.files disk.new) }
    ensures no_half { LeavesConverting tensor.now form shape.now
        (D.files disk.old) (D.files disk.new) }
    ensures others { ConvertedAlone tensor.now (D.files disk.old) (D.files disk.new) }
    ensures fault_reported { FaultReported D.faults disk.old disk.new (result ≡ Err Refusal.Disk) }
{
    let array = file_of(tensor, ".tca");
    let converted = file_of(tensor, ".v2.tca");
    let Ok(text) = report(alloc, "convert", converted.as_str(), form_len(form, shape)) else {
        return Err(Refusal::Memory);
    };
    let Ok(mut buffers) = Buffers::new(alloc) else {
        return Err(Refusal::Memory);
    };
    match tce_tools::convert(
        disk,
        shape,
        array.as_str(),
        form,
        converted.as_str(),
        &mut buffers,
    ) {
        Ok(()) => Ok(text),
        Err(fault) => Err(refusal_of(fault, tensor, array.as_str())),
    }
}
