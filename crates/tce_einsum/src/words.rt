//! Names and lists of names, as they are printed.

ghost use Rattle.std.specs.Prelude.{◌≡◌, ◌∷◌, ◌++◌, [], map, codes, OnOk};
ghost use Rattle.std.specs.Fmt.{decimal};
ghost use Rattle.tce_grammar.specs.Tokens as tokens;
ghost use Rattle.tce_grammar.specs.Grammar.{listed, bracketed};
ghost use Rattle.tce_grammar.specs.Printed.{with_token, with_tokens};
ghost use Rattle.tce_einsum.specs.Produced.{range_name, operand_name, letter_names};

use std::alloc::{AllocError, Global};
use tce_grammar::{Printer, Token};

pub(crate) fn push_word(printer: &mut Printer, text: &str) -> Result<(), AllocError>
    ensures { OnOk result (printer.new ≡ with_token printer.old (tokens.word text.now)) }
{
    printer.push(Token::Word(text.as_bytes()))
}

pub(crate) fn push_symbol(printer: &mut Printer, byte: u8) -> Result<(), AllocError>
    ensures { OnOk result (printer.new ≡ with_token printer.old (tokens.symbol byte)) }
{
    printer.push(Token::Symbol(byte))
}

pub(crate) fn push_letter(printer: &mut Printer, letter: u8) -> Result<(), AllocError>
    ensures { OnOk result (printer.new ≡ with_token printer.old (tokens.word (letter ∷ []))) }
{
    printer.push(Token::Word([letter].as_slice()))
}

pub(crate) fn push_range_name(
    alloc: Global,
    printer: &mut Printer,
    range: usize,
) -> Result<(), AllocError>
    ensures { OnOk result (printer.new ≡ with_token printer.old (tokens.word (range_name range))) }
{
    let name = format!(in alloc; "N{range}")?;
    push_word(printer, name.as_str())
}

pub(crate) fn push_operand_name(
    alloc: Global,
    printer: &mut Printer,
    operand: u64,
) -> Result<(), AllocError>
    ensures { OnOk result (printer.new ≡ with_token printer.old (tokens.word (operand_name operand))) }
{
    let name = format!(in alloc; "X{operand}")?;
    push_word(printer, name.as_str())
}

/// Prints a letter, and a comma if others stand behind it.
fn push_listed_letter(printer: &mut Printer, letter: u8, behind: &[u8]) -> Result<(), AllocError>
    ensures { OnOk result (with_tokens printer.new (listed (letter_names behind.now))
        ≡ with_tokens printer.old (listed (letter_names (letter ∷ behind.now)))) }
{
    push_letter(printer, letter)?;
    if behind.is_empty() {
        return Ok(());
    }
    push_symbol(printer, b',')
}

/// Prints letters with commas between them.
pub(crate) fn push_letters(printer: &mut Printer, letters: &[u8]) -> Result<(), AllocError>
    ensures { OnOk result (printer.new ≡ with_tokens printer.old (listed (letter_names letters.now))) }
{
    let mut rest = letters;
    while let [letter, behind @ ..] = rest {
        push_listed_letter(printer, *letter, behind)?;
        rest = behind;
    }
    Ok(())
}

/// Prints letters in brackets.
pub(crate) fn push_bracketed_letters(
    printer: &mut Printer,
    letters: &[u8],
) -> Result<(), AllocError>
    ensures { OnOk result (printer.new ≡ with_tokens printer.old
        (tokens.symbol 91 ∷ (listed (letter_names letters.now) ++ tokens.symbol 93 ∷ []))) }
{
    push_symbol(printer, b'[')?;
    push_letters(printer, letters)?;
    push_symbol(printer, b']')
}

/// Prints the name of a range, and a comma if others stand behind it.
fn push_listed_range(
    alloc: Global,
    printer: &mut Printer,
    range: usize,
    behind: &[usize],
) -> Result<(), AllocError>
    ensures { OnOk result (with_tokens printer.new (listed (map range_name behind.now))
        ≡ with_tokens printer.old (listed (map range_name (range ∷ behind.now)))) }
{
    push_range_name(alloc, printer, range)?;
    if behind.is_empty() {
        return Ok(());
    }
    push_symbol(printer, b',')
}

/// Prints the names of ranges with commas between them.
pub(crate) fn push_range_names(
    alloc: Global,
    printer: &mut Printer,
    ranges: &[usize],
) -> Result<(), AllocError>
    ensures { OnOk result (printer.new ≡ with_tokens printer.old (listed (map range_name ranges.now))) }
{
    let mut rest = ranges;
    while let [range, behind @ ..] = rest {
        push_listed_range(alloc, printer, *range, behind)?;
        rest = behind;
    }
    Ok(())
}
