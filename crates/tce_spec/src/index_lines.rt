//! The lines of indexes.

ghost use Rattle.std.specs.Prelude.{◌≡◌, ◌<◌, ◌≤◌, ◌-◌, ℕ, length, map, take, drop, OnOk};
ghost use Rattle.tce_space.specs.Space.{Index, index_at};
ghost use Rattle.tce_spec.specs.Statements.{index_statement, SameRange, OtherRange, index_statements};
ghost use Rattle.tce_spec.specs.Lines.{with_line, with_lines};

use crate::words::push_word;
use std::alloc::AllocError;
use tce_grammar::Printer;
use tce_space::Space;

/// The end of the indexes from `first` on that are of its range.
fn group_end(space: &Space, first: u8) -> u8
    requires { first < length space.now.indexes }
    ensures some { first < result }
    ensures within { result ≤ length space.now.indexes }
    ensures same { (k : ℕ) → first ≤ k → k < result → SameRange space.now k first }
    ensures ends { result < length space.now.indexes → OtherRange space.now result first }
{
    let range = space.range_of(first);
    let count = space.index_count();
    for index in first + 1..count {
        if space.range_of(index) != range {
            return index;
        }
    }
    count
}

/// Prints the line of the indexes from `first` up to `end`, which are of one range.
fn print_group(printer: &mut Printer, space: &Space, first: u8, end: u8) -> Result<(), AllocError>
    requires some { first < end }
    requires within { end ≤ length space.now.indexes }
    ensures { OnOk result (printer.new ≡ with_line printer.old (index_statement space.now
        (record { of_range = (index_at space.now first).of_range; names = map (λ (i : Index). i.name) (take (end - first) (drop first space.now.indexes)) }))) }
{
    push_word(printer, "index")?;
    push_word(printer, space.range_name(space.range_of(first)).as_str())?;
    for index in first..end {
        push_word(printer, space.index_name(index).as_str())?;
    }
    printer.end_line()
}

/// Prints the indexes in order of declaration, neighbours of one range on one line.
pub(crate) fn print_indexes(printer: &mut Printer, space: &Space) -> Result<(), AllocError>
    ensures { OnOk result (printer.new ≡ with_lines printer.old (index_statements space.now)) }
{
    let count = space.index_count();
    let mut first = 0;
    while first < count {
        let end = group_end(space, first);
        print_group(printer, space, first, end)?;
        first = end;
    }
    Ok(())
}
