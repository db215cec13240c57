//! Labels that have not one size.

ghost use Rattle.std.specs.Prelude.{◌≡◌, ◌==◌, MatchOption, if◌then◌else◌};
ghost use Rattle.std.specs.List.{list_any, count_by};
ghost use Rattle.tce_fields.specs.Reading.{texts};
ghost use Rattle.tce_einsum.specs.Code.{einsum};
ghost use Rattle.tce_einsum.specs.Sizes.{stands, size_count, is_missized, IsBadSize, AreSized};

use crate::size::Size;
use crate::text::Einsum;

fn is_among(letters: &[u8], label: u8) -> bool
    ensures { result ≡ list_any (λ b. b == label) letters.now }
{
    letters.iter().any(|letter| *letter == label)
}

fn any_has(operands: &[&[u8]], label: u8) -> bool
    ensures { result ≡ list_any (λ operand. list_any (λ b. b == label) operand.now) operands.now }
{
    operands.iter().any(|operand| is_among(*operand, label))
}

/// Whether a label stands in one of these operands.
fn is_in_any(operands: &[&[u8]], label: u8) -> bool
    ensures { result ≡ list_any (list_any (λ b. b == label)) (texts operands.now) }
{
    any_has(operands, label)
}

/// Whether a label stands in an operand or in the output.
fn stands(whole: &Einsum, label: u8) -> bool
    ensures { result ≡ stands (einsum whole.now) label }
{
    is_in_any(whole.operands.as_slice(), label) || is_among(whole.output, label)
}

fn count_with(found: &[Size], label: u8) -> usize
    ensures { result ≡ count_by (λ size. size.label == label) found.now }
{
    found.iter().filter(|size| size.label == label).count()
}

/// How many sizes a label has.
fn size_count(whole: &Einsum, label: u8) -> usize
    ensures { result ≡ size_count (einsum whole.now) label }
{
    count_with(whole.sizes.as_slice(), label)
}

/// How many sizes a label is to have.
fn wanted(stands: bool) -> usize
    ensures { result ≡ (if stands then 1 else 0) }
{
    if stands { 1 } else { 0 }
}

/// Whether a label that stands in an operand or in the output has not one size, or another has a size.
fn is_missized(whole: &Einsum, label: u8) -> bool
    ensures { result ≡ is_missized (einsum whole.now) label }
{
    size_count(whole, label) != wanted(stands(whole, label))
}

/// The least letter that has not one size though it stands in an operand or in the output, or has a size and stands in
/// neither.
pub(crate) fn bad_size(whole: &Einsum) -> Option<u8>
    ensures { MatchOption result (AreSized (einsum whole.now)) (IsBadSize (einsum whole.now)) }
{
    for label in b'a'..b'{' {
        if is_missized(whole, label) {
            return Some(label);
        }
    }
    None
}
