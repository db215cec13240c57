//! The lines of a produced text.

ghost use Rattle.std.specs.Prelude.{◌≡◌, ◌≢◌, ◌<◌, ◌≤◌, ◌-◌, ◌+◌, ℕ, ◌∷◌, ◌++◌, [], get_or, length, map, take, drop, codes, OnOk};
ghost use Rattle.tce_space.specs.Space.{Index, no_index};
ghost use Rattle.tce_fields.specs.Reading.{texts};
ghost use Rattle.tce_grammar.specs.Grammar.{declaration};
ghost use Rattle.tce_grammar.specs.Canonical.{edge_tokens};
ghost use Rattle.tce_grammar.specs.Printed.{with_tokens};
ghost use Rattle.tce_spec.specs.Lines.{with_line, with_lines};
ghost use Rattle.tce_einsum.specs.Code as code;
ghost use Rattle.tce_einsum.specs.Entries.{numbered};
ghost use Rattle.tce_einsum.specs.Produced as produced;
ghost use Rattle.tce_einsum.specs.ProducedCode.{tiled, tileds};

use crate::ranges::{Tiled, ranges_of_labels};
use crate::size::Size;
use crate::words::{
    push_letter, push_operand_name, push_range_name, push_range_names, push_symbol, push_word,
};
use std::alloc::{AllocError, Global};
use tce_grammar::{Printer, Token};

/// Prints the edge of a range's tiles, unless it is 1.
fn push_edge(printer: &mut Printer, edge: &[u8]) -> Result<(), AllocError>
    ensures { OnOk result (printer.new ≡ with_tokens printer.old (edge_tokens (produced.written_edge edge.now))) }
{
    if edge == b"1".as_slice() {
        return Ok(());
    }
    push_word(printer, "tile")?;
    printer.push(Token::Number(edge))
}

fn print_range(
    alloc: Global,
    printer: &mut Printer,
    number: usize,
    range: Tiled,
) -> Result<(), AllocError>
    ensures { OnOk result (printer.new ≡ with_line printer.old (produced.range_statement number (tiled range.entry))) }
{
    push_word(printer, "range")?;
    push_range_name(alloc, printer, number)?;
    printer.push(Token::Number(range.extent))?;
    push_edge(printer, range.edge)?;
    printer.end_line()
}

/// Prints a line for each range.
pub(crate) fn print_ranges(
    alloc: Global,
    printer: &mut Printer,
    ranges: &[Tiled],
) -> Result<(), AllocError>
    ensures { OnOk result (printer.new ≡ with_lines printer.old (numbered produced.range_statement 0 (tileds ranges.now))) }
{
    let mut number: usize = 0;
    let mut rest = ranges;
    while let [range, behind @ ..] = rest {
        print_range(alloc, printer, number, *range)?;
        number += 1;
        rest = behind;
    }
    Ok(())
}

fn print_operand(
    alloc: Global,
    printer: &mut Printer,
    sizes: &[Size],
    numbers: &[usize],
    operand: u64,
    labels: &[u8],
) -> Result<(), AllocError>
    requires { numbers.now ≡ produced.range_numbers (code.sizes sizes.now) }
    ensures { OnOk result (printer.new ≡ with_line printer.old (produced.operand_statement (code.sizes sizes.now) operand labels.now)) }
{
    let ranges = ranges_of_labels(alloc, sizes, numbers, labels)?;
    push_word(printer, "tensor")?;
    push_operand_name(alloc, printer, operand)?;
    push_symbol(printer, b'[')?;
    push_range_names(alloc, printer, ranges.as_slice())?;
    push_symbol(printer, b']')?;
    printer.end_line()
}

/// Prints a line for each operand.
pub(crate) fn print_operands(
    alloc: Global,
    printer: &mut Printer,
    sizes: &[Size],
    numbers: &[usize],
    operands: &[&[u8]],
) -> Result<(), AllocError>
    requires { numbers.now ≡ produced.range_numbers (code.sizes sizes.now) }
    ensures { OnOk result (printer.new ≡ with_lines printer.old
        (numbered (produced.operand_statement (code.sizes sizes.now)) 0 (texts operands.now))) }
{
    let mut operand: u64 = 0;
    let mut rest = operands;
    while let [labels, behind @ ..] = rest {
        print_operand(alloc, printer, sizes, numbers, operand, *labels)?;
        operand += 1;
        rest = behind;
    }
    Ok(())
}

/// Prints the line of the result.
pub(crate) fn print_result(
    alloc: Global,
    printer: &mut Printer,
    sizes: &[Size],
    numbers: &[usize],
    labels: &[u8],
) -> Result<(), AllocError>
    requires { numbers.now ≡ produced.range_numbers (code.sizes sizes.now) }
    ensures { OnOk result (printer.new ≡ with_line printer.old
        (declaration produced.result_name (produced.range_names (code.sizes sizes.now) labels.now))) }
{
    let ranges = ranges_of_labels(alloc, sizes, numbers, labels)?;
    push_word(printer, "tensor")?;
    push_word(printer, "Y")?;
    push_symbol(printer, b'[')?;
    push_range_names(alloc, printer, ranges.as_slice())?;
    push_symbol(printer, b']')?;
    printer.end_line()
}

/// The end of the sizes from `first` on that are of its range.
fn group_end(numbers: &[usize], first: usize) -> usize
    requires { first < length numbers.now }
    ensures some { first < result }
    ensures within { result ≤ length numbers.now }
    ensures same { (k : ℕ) → first ≤ k → k < result → get_or numbers.now k 16 ≡ get_or numbers.now first 16 }
    ensures ends { result < length numbers.now → get_or numbers.now result 16 ≢ get_or numbers.now first 16 }
{
    for place in first + 1..numbers.len() {
        if numbers[place] != numbers[first] {
            return place;
        }
    }
    numbers.len()
}

/// Prints the line of the labels from `first` up to `end`, which are of one range.
fn print_group(
    alloc: Global,
    printer: &mut Printer,
    sizes: &[Size],
    range: usize,
    first: usize,
    end: usize,
) -> Result<(), AllocError>
    requires some { first < end }
    requires within { end ≤ length sizes.now }
    ensures { OnOk result (printer.new ≡ with_line printer.old (produced.index_statement
        (record { of_range = range; names = map (λ (i : Index). i.name) (take (end - first) (drop first (produced.indexes (code.sizes sizes.now)))) }))) }
{
    push_word(printer, "index")?;
    push_range_name(alloc, printer, range)?;
    for place in first..end {
        let size = sizes[place];
        push_letter(printer, size.label)?;
    }
    printer.end_line()
}

/// Prints the labels in order of their sizes, neighbours of one range on one line.
pub(crate) fn print_indexes(
    alloc: Global,
    printer: &mut Printer,
    sizes: &[Size],
    numbers: &[usize],
) -> Result<(), AllocError>
    requires { numbers.now ≡ produced.range_numbers (code.sizes sizes.now) }
    ensures { OnOk result (printer.new ≡ with_lines printer.old (produced.index_statements (code.sizes sizes.now))) }
{
    let mut first = 0;
    while first < numbers.len() {
        let end = group_end(numbers, first);
        print_group(alloc, printer, sizes, numbers[first], first, end)?;
        first = end;
    }
    Ok(())
}
