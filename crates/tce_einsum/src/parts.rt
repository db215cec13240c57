//! Texts with a byte between their parts.

ghost use Rattle.std.specs.Prelude.{◌≡◌, ◌==◌, ◌<◌, ◌∷◌, [], IfOk, IfSome, length, option_map, position, MatchOption};
ghost use Rattle.std.specs.List.{slice_split};
ghost use Rattle.tce_fields.specs.Reading.{texts};
ghost use Rattle.tce_einsum.specs.Reading.{cut};

use std::alloc::{AllocError, Global};

/// Where a byte first stands.
fn place_of(text: &[u8], byte: u8) -> Option<usize>
    ensures { result ≡ position (λ b. b == byte) text.now }
{
    text.iter().position(|b| *b == byte)
}

/// What stands in front of the first such byte, and what stands behind it.
pub(crate) fn cut(text: &[u8], byte: u8) -> Option<(&[u8], &[u8])>
    ensures halves { option_map (λ r. (r.0.now, r.1.now)) result ≡ cut byte text.now }
    ensures parts { MatchOption result
        (slice_split (λ b. b == byte) text.now ≡ text.now ∷ [])
        (λ r. slice_split (λ b. b == byte) text.now ≡ r.0.now ∷ slice_split (λ b. b == byte) r.1.now) }
    ensures shorter { IfSome result (λ r. length r.1.now < length text.now) }
{
    match place_of(text, byte) {
        Some(end) => Some((&text[..end], &text[end + 1..])),
        None => None,
    }
}

/// The parts of a text between such bytes, the empty ones too; the empty text is one part.
pub(crate) fn split<'a>(
    alloc: Global,
    text: &'a [u8],
    byte: u8,
) -> Result<Vec<&'a [u8]>, AllocError>
    ensures { IfOk result (λ v. texts v.items ≡ slice_split (λ b. b == byte) text.now) }
{
    text.split(|b| *b == byte).collect(alloc)
}
