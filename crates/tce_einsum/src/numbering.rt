//! The numbers of labels.

ghost use Rattle.std.specs.Prelude.{◌≡◌, ◌<◌, ◌≤◌, ◌==◌, All, IfOk, length, position};
ghost use Rattle.tce_einsum.specs.Code as code;
ghost use Rattle.tce_einsum.specs.Numbered as model;

use crate::size::Size;
use std::alloc::{AllocError, Global};

/// The place of the size of a label.
pub(crate) fn place_of(sizes: &[Size], label: u8) -> Option<usize>
    ensures { result ≡ position (λ size. size.label == label) sizes.now }
{
    sizes.iter().position(|size| size.label == label)
}

/// The number of a label: the place of its size, or how many sizes there are.
fn number_of(sizes: &[Size], label: u8) -> u8
    requires { length sizes.now ≤ 26 }
    ensures number { result ≡ model.number_of (code.sizes sizes.now) label }
    ensures below { result < 32 }
{
    match place_of(sizes, label) {
        Some(place) => place as u8,
        None => sizes.len() as u8,
    }
}

/// The numbers of labels.
pub(crate) fn numbers_of(
    alloc: Global,
    sizes: &[Size],
    labels: &[u8],
) -> Result<Vec<u8>, AllocError>
    requires { length sizes.now ≤ 26 }
    ensures numbers { IfOk result (λ v. v.items ≡ model.numbers_of (code.sizes sizes.now) labels.now) }
    ensures below { IfOk result (λ v. All (λ i. i < 32) v.items) }
{
    let mut found = Vec::new(alloc);
    let mut rest = labels;
    while let [label, behind @ ..] = rest {
        found.push(number_of(sizes, *label))?;
        rest = behind;
    }
    Ok(found)
}
