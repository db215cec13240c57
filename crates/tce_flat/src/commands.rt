// The commands.
ghost use Rattle.std.specs.Prelude.{◌≡◌, Err, IfErr};
ghost use Rattle.tce_outside.specs.Files.{others};
ghost use Rattle.tce_outside.specs.Fault.{FaultReported};
ghost use Rattle.tce_command.specs.Command as commands;
ghost use Rattle.tce_command.specs.Command.{KeepsRules};
ghost use Rattle.tce_flat.specs.Done.{IsPacked, IsUnpacked, IsConverted, IsExpanded};
ghost use Rattle.tce_flat.specs.Told.{RefusesPack, RefusesUnpack, RefusesConvert, RefusesExpand, LeavesPack, LeavesUnpack, LeavesConvert, LeavesExpand, ArrayAlone, ConvertedAlone, KeepsFiles, Reports};

use crate::expanding::expand_tensor;
use crate::moving::{convert_tensor, pack_tensor, unpack_tensor};
use crate::tensor::find_shape;
use std::alloc::Global;
use tce_array::Form;
use tce_command::Refusal;
use tce_outside::Disk;

/// Makes the array file of a tensor of the elements of a flat file, and gives the report.
///
/// All memory but the disk's own is taken before the file is made.
pub fn pack<D: Disk>(
    alloc: Global,
    spec: &str,
    tensor: &str,
    flat: &str,
    disk: &mut D,
) -> Result<String, Refusal>
    requires { KeepsRules (commands.pack spec.now tensor.now flat.now) }
    ensures done { Reports result
        (IsPacked (D.files disk.old) (D.files disk.new) spec.now tensor.now flat.now) }
    ensures refused { IfErr result (RefusesPack (D.files disk.old) spec.now tensor.now flat.now) }
    ensures unchanged { KeepsFiles result (D.files disk.old) (D.files disk.new) }
    ensures no_half { LeavesPack spec.now tensor.now flat.now
        (D.files disk.old) (D.files disk.new) }
    ensures others { ArrayAlone tensor.now (D.files disk.old) (D.files disk.new) }
    ensures fault_reported { FaultReported D.faults disk.old disk.new (result ≡ Err Refusal.Disk) }
{
    let shape = find_shape(alloc, spec, tensor, disk)?;
    let done = pack_tensor(alloc, &shape, tensor, flat, disk);
    drop(shape);
    done
}

/// Makes a flat file of the elements of a tensor's array file, and gives the report.
///
/// All memory but the disk's own is taken before the file is made.
pub fn unpack<D: Disk>(
    alloc: Global,
    spec: &str,
    tensor: &str,
    flat: &str,
    disk: &mut D,
) -> Result<String, Refusal>
    requires { KeepsRules (commands.unpack spec.now tensor.now flat.now) }
    ensures done { Reports result
        (IsUnpacked (D.files disk.old) (D.files disk.new) spec.now tensor.now flat.now) }
    ensures refused { IfErr result (RefusesUnpack (D.files disk.old) spec.now tensor.now) }
    ensures unchanged { KeepsFiles result (D.files disk.old) (D.files disk.new) }
    ensures no_half { LeavesUnpack spec.now tensor.now flat.now
        (D.files disk.old) (D.files disk.new) }
    ensures others { others flat.now (D.files disk.new) ≡ others flat.now (D.files disk.old) }
    ensures fault_reported { FaultReported D.faults disk.old disk.new (result ≡ Err Refusal.Disk) }
{
    let shape = find_shape(alloc, spec, tensor, disk)?;
    let done = unpack_tensor(alloc, &shape, tensor, flat, disk);
    drop(shape);
    done
}

/// Makes a second array file of the elements of a tensor's array file, in the form that is asked for, and gives the
/// report.
///
/// All memory but the disk's own is taken before the file is made.
pub fn convert<D: Disk>(
    alloc: Global,
    spec: &str,
    tensor: &str,
    form: Form,
    disk: &mut D,
) -> Result<String, Refusal>
    requires { KeepsRules (commands.convert spec.now tensor.now form) }
    ensures done { Reports result
        (IsConverted (D.files disk.old) (D.files disk.new) spec.now tensor.now form) }
    ensures refused { IfErr result (RefusesConvert (D.files disk.old) spec.now tensor.now form) }
    ensures unchanged { KeepsFiles result (D.files disk.old) (D.files disk.new) }
    ensures no_half { LeavesConvert spec.now tensor.now form (D.files disk.old) (D.files disk.new) }
    ensures others { ConvertedAlone tensor.now (D.files disk.old) (D.files disk.new) }
    ensures fault_reported { FaultReported D.faults disk.old disk.new (result ≡ Err Refusal.Disk) }
{
    let shape = find_shape(alloc, spec, tensor, disk)?;
    let done = convert_tensor(alloc, &shape, tensor, form, disk);
    drop(shape);
    done
}

/// Makes the array file of a tensor of the file in which it is stored once for each pair of exchanged coordinates, and
/// gives the report.
///
/// All memory but the disk's own is taken before the file is made.
pub fn expand<D: Disk>(
    alloc: Global,
    spec: &str,
    tensor: &str,
    disk: &mut D,
) -> Result<String, Refusal>
    requires { KeepsRules (commands.expand spec.now tensor.now) }
    ensures done { Reports result
        (IsExpanded (D.files disk.old) (D.files disk.new) spec.now tensor.now) }
    ensures refused { IfErr result (RefusesExpand (D.files disk.old) spec.now tensor.now) }
    ensures unchanged { KeepsFiles result (D.files disk.old) (D.files disk.new) }
    ensures no_half { LeavesExpand spec.now tensor.now (D.files disk.old) (D.files disk.new) }
    ensures others { ArrayAlone tensor.now (D.files disk.old) (D.files disk.new) }
    ensures fault_reported { FaultReported D.faults disk.old disk.new (result ≡ Err Refusal.Disk) }
{
    let shape = find_shape(alloc, spec, tensor, disk)?;
    let done = expand_tensor(alloc, &shape, tensor, disk);
    drop(shape);
    done
}
