// Numbers as decimal words.
ghost use Rattle.std.specs.Prelude.{◌≡◌};
ghost use Rattle.std.specs.Fmt.{decimal};
ghost use Rattle.tce_command.specs.Number.{starts_as_number, ReadsNumber};

use std::str;

// Whether the first byte may begin a number: a leading 0 stands alone, and no sign is taken.
fn starts_as_number(digits: &[u8]) -> bool
    ensures { result ≡ starts_as_number digits.now }
{
    match digits {
        [] => false,
        [digit] => digit.is_ascii_digit(),
        [digit, _, ..] => matches!(*digit, b'1'..=b'9'),
    }
}

/// Reads the decimal digits of a number below 2^64, with no sign and no leading zero.
///
/// Any other text gives `None`: one without digits, with another byte or with a number that is too large.
pub fn read_number(digits: &[u8]) -> Option<u64>
    ensures { ReadsNumber digits.now result }
{
    if !starts_as_number(digits) {
        return None;
    }
    let Ok(text) = str::from_utf8(digits) else {
        return None;
    };
    match text.parse::<u64>() {
        Ok(value) => Some(value),
        Err(_) => None,
    }
}
