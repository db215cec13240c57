// Tensors, found by their names in the file of a specification.
ghost use Rattle.std.specs.Prelude.{◌≡◌, ◌≤◌, Err, IfOk, IfErr, length};
ghost use Rattle.tce_space.specs.Limits.{max_name_bytes};
ghost use Rattle.tce_outside.specs.Fault.{FaultReported};
ghost use Rattle.tce_flat.specs.Tensors.{DeclaresTensor};
ghost use Rattle.tce_flat.specs.Refusals.{IsUndeclared};
ghost use Rattle.tce_flat.specs.Told.{FindsTensor, RefusesTensor};

use std::alloc::Global;
use tce_command::{Refusal, read_source};
use tce_outside::Disk;
use tce_space::{Name, Shape};
use tce_spec::Spec;

// The shape of the tensor of this name.
fn shape_named(spec: &Spec, tensor: &str) -> Result<Shape, Refusal>
    requires { length tensor.now ≤ max_name_bytes }
    ensures declared { IfOk result (DeclaresTensor spec.now tensor.now) }
    ensures refused { IfErr result (IsUndeclared spec.now tensor.now) }
{
    let Some(number) = spec.tensor_named(tensor) else {
        let mut name = Name::new();
        name.push_str(tensor);
        return Err(Refusal::Tensor(name));
    };
    match spec.tensor(number).shape.clone() {
        Ok(shape) => Ok(shape),
        Err(_) => Err(Refusal::Memory),
    }
}

/// Reads a specification, and finds the shape of its tensor of this name.
pub fn find_shape<D: Disk>(
    alloc: Global,
    spec: &str,
    tensor: &str,
    disk: &mut D,
) -> Result<Shape, Refusal>
    requires spec { length spec.now ≤ 200 }
    requires tensor { length tensor.now ≤ max_name_bytes }
    ensures found { IfOk result (FindsTensor (D.files disk.old) spec.now tensor.now) }
    ensures refused { IfErr result (RefusesTensor (D.files disk.old) spec.now tensor.now) }
    ensures same { D.files disk.new ≡ D.files disk.old }
    ensures fault_reported { FaultReported D.faults disk.old disk.new (result ≡ Err Refusal.Disk) }
{
    let source = read_source(alloc, disk, spec)?;
    let found = shape_named(&source, tensor);
    drop(source);
    found
}
