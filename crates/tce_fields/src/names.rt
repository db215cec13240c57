// Lists of names.
ghost use Rattle.std.specs.Prelude.{◌≡◌, codes, option_map};
ghost use Rattle.std.specs.List.{list_all};
ghost use Rattle.std.specs.Str.{bytes_eq};
ghost use Rattle.tce_space.specs.Name.{is_name};
ghost use Rattle.tce_fields.specs.Fields.{AreListed};
ghost use Rattle.tce_fields.specs.Reading.{GivesExactly, texts};

use crate::parts::split_parts;
use arrayvec::ArrayVec;
use tce_space::is_name;

const NONE: &[u8] = b"-";

// Whether the list has no names.
fn is_none(text: &[u8]) -> bool
    ensures { result ≡ bytes_eq text.now (codes "-") }
{
    text == NONE
}

// Whether all parts are names.
fn are_names(parts: &[&[u8]]) -> bool
    ensures { result ≡ list_all (λ part. is_name part.now) parts.now }
{
    parts.iter().all(|part| is_name(*part))
}

/// The names of a list with a comma between each two, or none where it is `-`. `None` where a part is no name, or there are more than `N`.
pub fn read_names<const N: usize>(text: &[u8]) -> Option<ArrayVec<&[u8], N>>
    ensures { GivesExactly (option_map (λ names. texts names.items) result) (AreListed N text.now) }
{
    if is_none(text) {
        return Some(ArrayVec::new());
    }
    match split_parts(text, b',') {
        Some(names) if are_names(names.as_slice()) => Some(names),
        _ => None,
    }
}
