//! The text that an einsum and its path produce.

ghost use Rattle.std.specs.Prelude.{◌≡◌, ◌≤◌, ◌∷◌, ◌++◌, [], length, IfOk, OnOk};
ghost use Rattle.tce_grammar.specs.Tokens.{symbol};
ghost use Rattle.tce_grammar.specs.Grammar.{bracketed};
ghost use Rattle.tce_grammar.specs.Printed.{with_tokens};
ghost use Rattle.tce_spec.specs.Lines.{with_line, with_lines};
ghost use Rattle.tce_einsum.specs.Code as code;
ghost use Rattle.tce_einsum.specs.Entries.{entry_at};
ghost use Rattle.tce_einsum.specs.EntriesCode.{AreEntries, trees_in};
ghost use Rattle.tce_einsum.specs.Path.{Leave};
ghost use Rattle.tce_einsum.specs.Produced as produced;

use crate::entries::{Entries, contraction_of};
use crate::formula::push_expression;
use crate::input::Input;
use crate::lines::{print_indexes, print_operands, print_ranges, print_result};
use crate::ranges::{range_numbers, ranges_of};
use crate::text::Einsum;
use crate::words::{push_bracketed_letters, push_symbol, push_word};
use std::alloc::{AllocError, Global};
use tce_grammar::Printer;

/// Prints the lines of ranges, labels, operands and the result.
fn print_declarations(
    alloc: Global,
    printer: &mut Printer,
    whole: &Einsum,
) -> Result<(), AllocError>
    ensures { OnOk result (printer.new ≡ with_lines printer.old
        (produced.range_statements (code.sizes whole.now.sizes.items)
        ++ (produced.index_statements (code.sizes whole.now.sizes.items)
        ++ produced.tensor_statements (code.einsum whole.now)))) }
{
    let sizes = whole.sizes.as_slice();
    let ranges = ranges_of(alloc, sizes)?;
    let numbers = range_numbers(alloc, sizes, ranges.as_slice())?;
    let numbers = numbers.as_slice();
    print_ranges(alloc, printer, ranges.as_slice())?;
    print_indexes(alloc, printer, sizes, numbers)?;
    print_operands(alloc, printer, sizes, numbers, whole.operands.as_slice())?;
    print_result(alloc, printer, sizes, numbers, whole.output)
}

/// Prints what the formula gives, and the sign of equality.
fn push_result(printer: &mut Printer, labels: &[u8]) -> Result<(), AllocError>
    ensures { OnOk result (printer.new ≡ with_tokens printer.old
        (bracketed produced.result_name (produced.letter_names labels.now) ++ symbol 61 ∷ [])) }
{
    push_word(printer, "Y")?;
    push_bracketed_letters(printer, labels)?;
    push_symbol(printer, b'=')
}

/// Prints the line of the formula, which gives the result by the one entry that is left.
fn print_formula(
    alloc: Global,
    printer: &mut Printer,
    whole: &Einsum,
    left: &Entries,
) -> Result<(), AllocError>
    requires one { length left.now.entries.items ≡ 1 }
    requires entries { AreEntries left.now }
    ensures { OnOk result (printer.new ≡ with_line printer.old
        (produced.formula_statement (code.einsum whole.now) (entry_at (trees_in left.now) 0))) }
{
    push_result(printer, whole.output)?;
    let place = left.entries[0].node;
    push_expression(
        alloc,
        printer,
        whole.sizes.as_slice(),
        left.nodes.as_slice(),
        place,
    )?;
    printer.end_line()
}

/// The text that an einsum and its path produce.
pub(crate) fn print_produced(alloc: Global, input: &Input) -> Result<Vec<u8>, AllocError>
    requires few { length input.now.einsum.sizes.items ≤ 26 }
    requires leave { Leave (length input.now.einsum.operands.items) (code.items input.now.items.items) 1 }
    ensures { IfOk result (λ text. text.items ≡ produced.produced_text (code.einsum input.now.einsum) (code.items input.now.items.items)) }
{
    let left = contraction_of(alloc, input)?;
    let mut printer = Printer::new(alloc);
    print_declarations(alloc, &mut printer, &input.einsum)?;
    print_formula(alloc, &mut printer, &input.einsum, &left)?;
    Ok(printer.into_text())
}
