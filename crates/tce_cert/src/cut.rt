// Texts with separators.
ghost use Rattle.std.specs.Prelude.{◌≡◌, ◌==◌, position};
ghost use Rattle.tce_cert.specs.Cut.{CutsAt};

// Where the separator first stands.
fn first_separator(text: &[u8], separator: u8) -> Option<usize>
    ensures { result ≡ position (λ b. b == separator) text.now }
{
    text.iter().position(|byte| *byte == separator)
}

/// What stands in front of the first separator, and what stands behind it. `None` where the text has no separator.
pub fn cut_at(text: &[u8], separator: u8) -> Option<(&[u8], &[u8])>
    ensures { CutsAt separator text.now result }
{
    match first_separator(text, separator) {
        Some(end) => Some((&text[..end], &text[end + 1..])),
        None => None,
    }
}
