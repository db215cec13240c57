// Parts of a text with a separator between them.
ghost use Rattle.std.specs.Prelude.{◌≡◌, ◌<◌, ◌==◌, [], ◌∷◌, length, position, MatchOption, IfSome};
ghost use Rattle.std.specs.List.{slice_split};
ghost use Rattle.tce_fields.specs.Fields.{AreParts};
ghost use Rattle.tce_fields.specs.Reading.{GivesExactly, texts_if_some};

use arrayvec::ArrayVec;

// Where the separator first stands.
fn first_separator(text: &[u8], separator: u8) -> Option<usize>
    ensures { result ≡ position (λ b. b == separator) text.now }
{
    text.iter().position(|byte| *byte == separator)
}

// The part in front of the first separator, and what stands behind it.
fn cut_first(text: &[u8], separator: u8) -> Option<(&[u8], &[u8])>
    ensures parts { MatchOption result
        (slice_split (λ b. b == separator) text.now ≡ text.now ∷ [])
        (λ cut. slice_split (λ b. b == separator) text.now ≡ cut.0.now ∷ slice_split (λ b. b == separator) cut.1.now) }
    ensures shorter { IfSome result (λ cut. length cut.1.now < length text.now) }
{
    match first_separator(text, separator) {
        Some(end) => Some((&text[..end], &text[end + 1..])),
        None => None,
    }
}

/// The parts of a text between its separators, the empty ones too; the empty text is one part. `None` where there are more than `N`.
pub fn split_parts<const N: usize>(text: &[u8], separator: u8) -> Option<ArrayVec<&[u8], N>>
    ensures { GivesExactly (texts_if_some result) (AreParts separator N text.now) }
{
    let mut parts = ArrayVec::new();
    let mut rest = text;
    while let Some((part, behind)) = cut_first(rest, separator) {
        if parts.is_full() {
            return None;
        }
        parts.push(part);
        rest = behind;
    }
    if parts.is_full() {
        return None;
    }
    parts.push(rest);
    Some(parts)
}
