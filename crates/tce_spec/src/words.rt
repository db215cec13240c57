//! Words, numbers and symbols on a line, and lists of names.

ghost use Rattle.std.specs.Prelude.{◌≡◌, ◌<◌, length, All, OnOk};
ghost use Rattle.std.specs.Fmt.{decimal};
ghost use Rattle.tce_grammar.specs.Tokens as tokens;
ghost use Rattle.tce_grammar.specs.Printed.{with_token};
ghost use Rattle.tce_spec.specs.Lines.{with_ranges, with_indexes};

use std::alloc::{AllocError, Global};
use tce_grammar::{Printer, Token};
use tce_space::Space;

pub(crate) fn push_word(printer: &mut Printer, text: &str) -> Result<(), AllocError>
    ensures { OnOk result (printer.new ≡ with_token printer.old (tokens.word text.now)) }
{
    printer.push(Token::Word(text.as_bytes()))
}

pub(crate) fn push_symbol(printer: &mut Printer, byte: u8) -> Result<(), AllocError>
    ensures { OnOk result (printer.new ≡ with_token printer.old (tokens.symbol byte)) }
{
    printer.push(Token::Symbol(byte))
}

/// Prints a number in decimal, without leading zeros.
pub(crate) fn push_number(
    alloc: Global,
    printer: &mut Printer,
    number: u64,
) -> Result<(), AllocError>
    ensures { OnOk result (printer.new ≡ with_token printer.old (tokens.number (decimal number))) }
{
    let digits = format!(in alloc; "{number}")?;
    printer.push(Token::Number(digits.as_str().as_bytes()))
}

/// Prints the names of ranges with commas between them.
pub(crate) fn push_range_list(
    printer: &mut Printer,
    space: &Space,
    ranges: &[u8],
) -> Result<(), AllocError>
    requires { All (λ r. r < length space.now.ranges) ranges.now }
    ensures { OnOk result (printer.new ≡ with_ranges printer.old space.now ranges.now) }
{
    let Some((first, rest)) = ranges.split_first() else {
        return Ok(());
    };
    push_word(printer, space.range_name(*first).as_str())?;
    for range in rest {
        push_symbol(printer, b',')?;
        push_word(printer, space.range_name(*range).as_str())?;
    }
    Ok(())
}

/// Prints the names of indexes with commas between them.
pub(crate) fn push_index_list(
    printer: &mut Printer,
    space: &Space,
    indexes: &[u8],
) -> Result<(), AllocError>
    requires { All (λ i. i < length space.now.indexes) indexes.now }
    ensures { OnOk result (printer.new ≡ with_indexes printer.old space.now indexes.now) }
{
    let Some((first, rest)) = indexes.split_first() else {
        return Ok(());
    };
    push_word(printer, space.index_name(*first).as_str())?;
    for index in rest {
        push_symbol(printer, b',')?;
        push_word(printer, space.index_name(*index).as_str())?;
    }
    Ok(())
}
