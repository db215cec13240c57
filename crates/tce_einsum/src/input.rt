//! An einsum with a path that fits it.

ghost use Rattle.tce_einsum.specs.Input.{AnswersInput};

use crate::fault::EinsumFault;
use crate::missized::bad_size;
use crate::path::{Item, read_path};
use crate::text::{Einsum, read_text};
use std::alloc::Global;

/// An einsum and the items of its path. Each label has one size, and the path leaves one entry of the operands.
#[derive(Drop)]
pub struct Input<'a> {
    pub einsum: Einsum<'a>,
    pub items: Vec<Item>,
}

/// Reads an einsum and its path.
///
/// `BadText`, else `BadSize`, else `BadPath`, as [`EinsumFault`] says.
pub fn read_input<'a>(alloc: Global, text: &'a [u8], path: &[u8]) -> Result<Input<'a>, EinsumFault>
    ensures { AnswersInput text.now path.now result }
{
    let whole = read_text(alloc, text)?;
    if let Some(label) = bad_size(&whole) {
        drop(whole);
        return Err(EinsumFault::BadSize(label));
    }
    match read_path(alloc, path, whole.operands.len() as u64) {
        Ok(items) => Ok(Input {
            einsum: whole,
            items,
        }),
        Err(fault) => {
            drop(whole);
            Err(fault)
        }
    }
}
