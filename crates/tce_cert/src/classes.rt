// Classes as they are written.
ghost use Rattle.std.specs.Prelude.{◌≡◌, ◌↔◌, codes, IsTrue, All};
ghost use Rattle.tce_cert.specs.Forms.{IsClassText, IsClassesText};

use tce_fields::{read_names, split_parts};
use tce_space::MAX_INDEXES;

const NONE: &[u8] = b"-";

/// Whether a text stands for no classes.
pub(crate) fn is_none(text: &[u8]) -> bool
    ensures { IsTrue result ↔ (text.now ≡ codes "-") }
{
    text == NONE
}

// Whether a text is some names with commas between them.
fn is_class(text: &[u8]) -> bool
    ensures { IsTrue result ↔ IsClassText text.now }
{
    match read_names::<MAX_INDEXES>(text) {
        Some(names) => !names.is_empty(),
        None => false,
    }
}

// Whether all texts are classes.
fn all_classes(parts: &[&[u8]]) -> bool
    ensures { IsTrue result ↔ All (λ part. IsClassText part.now) parts.now }
{
    parts.iter().all(|part| is_class(*part))
}

/// Whether a text is at most ten classes with `/` between them, or `-` for none.
pub(crate) fn are_classes(text: &[u8]) -> bool
    ensures { IsTrue result ↔ IsClassesText text.now }
{
    if is_none(text) {
        return true;
    }
    match split_parts::<10>(text, b'/') {
        Some(parts) => all_classes(parts.as_slice()),
        None => false,
    }
}
