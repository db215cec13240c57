//! Names of ranges, indexes and tensors.

ghost use Rattle.std.specs.Prelude.{◌≡◌, IsTrue};
ghost use Rattle.tce_space.specs.Name.{is_letter, is_digit, is_word_byte, is_name};

use std::str;
use tce_space::Name;

pub(crate) const RANGE: &[u8] = b"range";

pub(crate) const TILE: &[u8] = b"tile";

pub(crate) const INDEX: &[u8] = b"index";

pub(crate) const TENSOR: &[u8] = b"tensor";

pub(crate) const SUM: &[u8] = b"sum";

pub(crate) fn is_digit(byte: u8) -> bool
    ensures { result ≡ is_digit byte }
{
    byte.is_ascii_digit()
}

pub(crate) fn is_letter(byte: u8) -> bool
    ensures { result ≡ is_letter byte }
{
    byte.is_ascii_uppercase() || byte.is_ascii_lowercase()
}

pub(crate) fn is_word_byte(byte: u8) -> bool
    ensures { result ≡ is_word_byte byte }
{
    is_letter(byte) || is_digit(byte) || byte == b'_'
}

/// The name of these bytes. [`tce_space::is_name`] tells whether they are one.
pub fn name_of(letters: &[u8]) -> Name
    requires { IsTrue (is_name letters.now) }
    ensures { result.bytes ≡ letters.now }
{
    let Ok(text) = str::from_utf8(letters) else {
        return Name::new();
    };
    match Name::from(text) {
        Ok(name) => name,
        Err(_) => Name::new(),
    }
}
