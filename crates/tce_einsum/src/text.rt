//! The text of an einsum.

ghost use Rattle.std.specs.Prelude.{◌≡◌, option_map};
ghost use Rattle.std.specs.List.{list_all};
ghost use Rattle.tce_fields.specs.Reading.{texts};
ghost use Rattle.tce_einsum.specs.Code.{Gives, einsum};
ghost use Rattle.tce_einsum.specs.Text.{are_labels};
ghost use Rattle.tce_einsum.specs.Reading.{operands_of, output_of, einsum_in, einsum_of};

use crate::fault::EinsumFault;
use crate::parts::{cut, split};
use crate::size::{Size, are_labels, read_sizes};
use std::alloc::Global;

/// The labels of each operand and of the output, and the sizes. A label is its letter.
#[derive(Drop)]
pub struct Einsum<'a> {
    pub operands: Vec<&'a [u8]>,
    pub output: &'a [u8],
    pub sizes: Vec<Size<'a>>,
}

fn all_labels(operands: &[&[u8]]) -> bool
    ensures { result ≡ list_all (λ operand. are_labels operand.now) operands.now }
{
    operands.iter().all(|operand| are_labels(*operand))
}

/// The operands, with commas between them.
#[tactic(auto, unfolding(crate::specs::Reading::operands_of))]
fn read_operands<'a>(alloc: Global, text: &'a [u8]) -> Result<Vec<&'a [u8]>, EinsumFault>
    ensures { Gives (λ v. texts v.items) result (operands_of text.now) }
{
    let operands = split(alloc, text, b',')?;
    if all_labels(operands.as_slice()) {
        Ok(operands)
    } else {
        Err(EinsumFault::BadText)
    }
}

/// The output, behind the dash of the arrow.
#[tactic(auto, unfolding(crate::specs::Reading::output_of))]
fn read_output<'a>(text: &'a [u8]) -> Option<&'a [u8]>
    ensures { option_map (λ labels. labels.now) result ≡ output_of text.now }
{
    match text {
        [b'>', labels @ ..] if are_labels(labels) => Some(labels),
        _ => None,
    }
}

/// An einsum by the texts of its parts.
fn read_parts<'a>(
    alloc: Global,
    operands: &'a [u8],
    output: &'a [u8],
    sizes: &'a [u8],
) -> Result<Einsum<'a>, EinsumFault>
    ensures { Gives einsum result (einsum_in operands.now output.now sizes.now) }
{
    let operands = read_operands(alloc, operands)?;
    let Some(output) = read_output(output) else {
        return Err(EinsumFault::BadText);
    };
    let sizes = read_sizes(alloc, sizes)?;
    Ok(Einsum {
        operands,
        output,
        sizes,
    })
}

/// Reads the text of an einsum, `operands->output@sizes` without blanks, as `ik,kj->ij@i=2,k=2,j=2`.
#[tactic(auto, unfolding(crate::specs::Reading::einsum_of))]
pub(crate) fn read_text<'a>(alloc: Global, text: &'a [u8]) -> Result<Einsum<'a>, EinsumFault>
    ensures { Gives einsum result (einsum_of text.now) }
{
    let Some((head, sizes)) = cut(text, b'@') else {
        return Err(EinsumFault::BadText);
    };
    let Some((operands, output)) = cut(head, b'-') else {
        return Err(EinsumFault::BadText);
    };
    read_parts(alloc, operands, output, sizes)
}
