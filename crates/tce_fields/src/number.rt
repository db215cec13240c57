// Numbers in decimal.
ghost use Rattle.std.specs.Prelude.{◌≡◌};
ghost use Rattle.tce_fields.specs.Digits.{starts_as_number};
ghost use Rattle.tce_fields.specs.Fields.{IsNumber};
ghost use Rattle.tce_fields.specs.Reading.{GivesExactly};

use std::str;
use tce_space::COST_LIMIT;

// Whether the first byte may begin a number: a leading 0 stands alone, and no sign is taken.
fn starts_as_number(text: &[u8]) -> bool
    ensures { result ≡ starts_as_number text.now }
{
    match text {
        [] => false,
        [digit] => digit.is_ascii_digit(),
        [digit, _, ..] => matches!(*digit, b'1'..=b'9'),
    }
}

/// The number below 2^96 that a text states in decimal, without a sign and without leading zeros. `None` for each other text.
pub fn read_number(text: &[u8]) -> Option<u128>
    ensures { GivesExactly result (IsNumber text.now) }
{
    if !starts_as_number(text) {
        return None;
    }
    let Ok(digits) = str::from_utf8(text) else {
        return None;
    };
    match digits.parse::<u128>() {
        Ok(number) if number < COST_LIMIT => Some(number),
        _ => None,
    }
}
