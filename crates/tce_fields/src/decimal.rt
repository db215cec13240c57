// Numbers in decimal.
ghost use Rattle.std.specs.Prelude.{◌≡◌, ◌++◌, ◌+◌, ◌≤◌, length};
ghost use Rattle.std.specs.Fmt.{decimal};

use arrayvec::ArrayString;

/// A number in decimal, without leading zeros: at most 39 digits.
pub fn decimal_text(number: u128) -> ArrayString<40>
    ensures bytes { result.bytes ≡ decimal number }
    ensures short { length result.bytes ≤ 39 }
{
    let mut text = ArrayString::new();
    push_decimal(&mut text, number);
    text
}

// Appends a number in decimal.
fn push_decimal(text: &mut ArrayString<40>, number: u128)
    requires { length text.old.bytes + length (decimal number) ≤ 40 }
    ensures { text.new.bytes ≡ text.old.bytes ++ decimal number }
{
    if number >= 10 {
        push_decimal(text, number / 10);
    }
    text.push(char::from(b'0' + (number % 10) as u8));
}
