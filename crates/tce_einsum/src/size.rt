//! The sizes of labels.

ghost use Rattle.std.specs.Prelude.{◌≡◌, option_map};
ghost use Rattle.std.specs.List.{list_all};
ghost use Rattle.tce_space.specs.Name.{is_digit};
ghost use Rattle.tce_fields.specs.Digits.{starts_as_number};
ghost use Rattle.tce_fields.specs.Reading.{texts};
ghost use Rattle.tce_einsum.specs.Code.{Gives, size, sizes};
ghost use Rattle.tce_einsum.specs.Text.{is_label, are_labels, is_number};
ghost use Rattle.tce_einsum.specs.Reading.{cut, numbers_of, size_of, sizes_in, sizes_of};

use crate::fault::EinsumFault;
use crate::parts::{cut, split};
use std::alloc::Global;

/// How many digits a number has at most.
const MAX_DIGITS: usize = 20;

/// The extent of a label, and the edge of its tiles where one is given, by their digits.
#[derive(Clone, Copy)]
pub struct Size<'a> {
    pub label: u8,
    pub extent: &'a [u8],
    pub edge: Option<&'a [u8]>,
}

fn is_label(byte: u8) -> bool
    ensures { result ≡ is_label byte }
{
    byte.is_ascii_lowercase()
}

pub(crate) fn are_labels(letters: &[u8]) -> bool
    ensures { result ≡ are_labels letters.now }
{
    letters.iter().all(|letter| is_label(*letter))
}

/// Whether the first byte may begin a number: a leading 0 stands alone.
fn starts_as_number(text: &[u8]) -> bool
    ensures { result ≡ starts_as_number text.now }
{
    match text {
        [] => false,
        [digit] => digit.is_ascii_digit(),
        [digit, _, ..] => matches!(*digit, b'1'..=b'9'),
    }
}

fn are_digits(text: &[u8]) -> bool
    ensures { result ≡ list_all is_digit text.now }
{
    text.iter().all(|byte| byte.is_ascii_digit())
}

fn is_number(text: &[u8]) -> bool
    ensures { result ≡ is_number text.now }
{
    starts_as_number(text) && are_digits(text) && text.len() <= MAX_DIGITS
}

/// The size of a label, by the text behind the sign of equality.
fn read_numbers<'a>(label: u8, digits: &'a [u8]) -> Option<Size<'a>>
    ensures { option_map size result ≡ numbers_of label digits.now (cut 47 digits.now) }
{
    match cut(digits, b'/') {
        None if is_number(digits) => {
            Some(Size {
                label,
                extent: digits,
                edge: None,
            })
        }
        Some((extent, edge)) if is_number(extent) && is_number(edge) => {
            Some(Size {
                label,
                extent,
                edge: Some(edge),
            })
        }
        _ => None,
    }
}

/// The size of a label: `label=EXTENT` or `label=EXTENT/EDGE`.
#[tactic(auto, unfolding(crate::specs::Reading::size_of))]
fn read_size<'a>(text: &'a [u8]) -> Option<Size<'a>>
    ensures { option_map size result ≡ size_of text.now }
{
    match text {
        [label, b'=', digits @ ..] if is_label(*label) => read_numbers(*label, digits),
        _ => None,
    }
}

fn read_all<'a>(alloc: Global, parts: &[&'a [u8]]) -> Result<Vec<Size<'a>>, EinsumFault>
    ensures { Gives (λ v. sizes v.items) result (sizes_in (texts parts.now)) }
{
    let mut found = Vec::new(alloc);
    let mut rest = parts;
    while let [first, behind @ ..] = rest {
        let Some(size) = read_size(*first) else {
            return Err(EinsumFault::BadText);
        };
        found.push(size)?;
        rest = behind;
    }
    Ok(found)
}

/// The sizes of a text: none, or one or more with commas between them.
#[tactic(auto, unfolding(crate::specs::Reading::sizes_of))]
pub(crate) fn read_sizes<'a>(alloc: Global, text: &'a [u8]) -> Result<Vec<Size<'a>>, EinsumFault>
    ensures { Gives (λ v. sizes v.items) result (sizes_of text.now) }
{
    if text.is_empty() {
        return Ok(Vec::new(alloc));
    }
    let parts = split(alloc, text, b',')?;
    read_all(alloc, parts.as_slice())
}
