// The arrays of a specification.
ghost use Rattle.std.specs.Prelude.{◌<◌, ◌≤◌, IfOk, length};
ghost use Rattle.tce_space.specs.Tiling.{tile_words};
ghost use Rattle.tce_spec.specs.Operands.{largest_tile};
ghost use Rattle.tce_job.specs.Arrays.{IsArrayOf, AreArraysOf, HasOwnShape};

use crate::naming::file_of;
use crate::opening::Forms;
use std::alloc::{AllocError, Global};
use tce_array::Form;
use tce_cache::ArrayRef;
use tce_space::Shape;
use tce_spec::Spec;

// The shape of a tensor, or of the result where the tensor's tiles are larger than those that a run moves.
fn shape_for(spec: &Spec, t: u8) -> Result<Shape, AllocError>
    requires { t < length spec.now.declarations.tensors }
    ensures own { IfOk result (HasOwnShape spec.now t) }
    ensures fits { IfOk result (λ shape. tile_words shape ≤ largest_tile spec.now) }
{
    let own = &spec.tensor(t).shape;
    if own.tile_words() <= spec.largest_tile() {
        let shape = own.clone()?;
        return Ok(shape);
    }
    let shape = spec.tensor(spec.result().tensor).shape.clone()?;
    Ok(shape)
}

// The array of a tensor.
fn array_of(spec: &Spec, forms: &Forms, t: u8) -> Result<ArrayRef, AllocError>
    requires { t < length spec.now.declarations.tensors }
    ensures { IfOk result (IsArrayOf spec.now forms.now.0 t) }
{
    let is_result = t == spec.result().tensor;
    Ok(ArrayRef {
        file: file_of(spec, t),
        shape: shape_for(spec, t)?,
        form: if is_result {
            Form::One
        } else {
            forms.0[t as usize]
        },
        writable: is_result,
    })
}

/// The arrays for the cache of a run, by the numbers of their tensors. Only the result's may be written.
///
/// A tensor that the formula does not use has an array as well, which is never touched.
pub fn arrays_of(alloc: Global, spec: &Spec, forms: &Forms) -> Result<Vec<ArrayRef>, AllocError>
    ensures { IfOk result (λ arrays. AreArraysOf spec.now forms.now.0 arrays.items) }
{
    // A specification keeps its rules.
    let _tree = spec.tree();
    let mut arrays = Vec::with_capacity(alloc, spec.tensor_count() as usize)?;
    for t in 0..spec.tensor_count() {
        arrays.push(array_of(spec, forms, t)?)?;
    }
    Ok(arrays)
}
