//! The lines of ranges.

ghost use Rattle.std.specs.Prelude.{◌≡◌, ◌<◌, length, OnOk};
ghost use Rattle.tce_grammar.specs.Canonical.{edge_tokens};
ghost use Rattle.tce_grammar.specs.Printed.{with_tokens};
ghost use Rattle.tce_spec.specs.Statements.{edge_digits, range_line, range_statements};
ghost use Rattle.tce_spec.specs.Lines.{with_line, with_lines};

use crate::words::{push_number, push_word};
use std::alloc::{AllocError, Global};
use tce_grammar::Printer;
use tce_space::Space;

/// Prints the edge of a range's tiles, unless it is 1.
fn push_edge(alloc: Global, printer: &mut Printer, edge: u64) -> Result<(), AllocError>
    ensures { OnOk result (printer.new ≡ with_tokens printer.old (edge_tokens (edge_digits edge))) }
{
    if edge == 1 {
        return Ok(());
    }
    push_word(printer, "tile")?;
    push_number(alloc, printer, edge)
}

fn print_range(
    alloc: Global,
    printer: &mut Printer,
    space: &Space,
    range: u8,
) -> Result<(), AllocError>
    requires { range < length space.now.ranges }
    ensures { OnOk result (printer.new ≡ with_line printer.old (range_line space.now range)) }
{
    push_word(printer, "range")?;
    push_word(printer, space.range_name(range).as_str())?;
    push_number(alloc, printer, space.range_extent(range))?;
    push_edge(alloc, printer, space.range_edge(range))?;
    printer.end_line()
}

/// Prints a line for each range, in order of declaration.
pub(crate) fn print_ranges(
    alloc: Global,
    printer: &mut Printer,
    space: &Space,
) -> Result<(), AllocError>
    ensures { OnOk result (printer.new ≡ with_lines printer.old (range_statements space.now)) }
{
    for range in 0..space.range_count() {
        print_range(alloc, printer, space, range)?;
    }
    Ok(())
}
