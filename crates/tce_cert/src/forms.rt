// What lines state.
ghost use Rattle.std.specs.Prelude.{◌≡◌, ◌↔◌, ℕ, List, IsTrue, MatchOption};
ghost use Rattle.tce_fields.specs.Reading.{GivesExactly};
ghost use Rattle.tce_cert.specs.Lines.{opening_line, end_line};
ghost use Rattle.tce_cert.specs.Forms.{StatesMemory, StatesTable, StatesNumbers, StatesCost, BeginsWithCost, HasMemoryForm, HasTableForm, HasRowForm, HasForm};

use crate::classes::are_classes;
use crate::cut::cut_at;
use tce_fields::read_number;

const OPENING: &[u8] = b"tce certificate 1";

const END: &[u8] = b"end";

/// Whether a line is the first of certificates.
pub fn is_opening_line(line: &[u8]) -> bool
    ensures { IsTrue result ↔ (line.now ≡ opening_line) }
{
    line == OPENING
}

/// Whether a line is the last of certificates.
pub fn is_end_line(line: &[u8]) -> bool
    ensures { IsTrue result ↔ (line.now ≡ end_line) }
{
    line == END
}

/// The memory that a line states.
pub fn read_memory_line(line: &[u8]) -> Option<u128>
    ensures { GivesExactly result (StatesMemory line.now) }
{
    match line.strip_prefix(b"memory ") {
        Some(number) => read_number(number),
        None => None,
    }
}

/// The node and the number of rows that the head line of a table states.
pub fn read_table_line(line: &[u8]) -> Option<(u128, u128)>
    ensures { GivesExactly result (λ stated. StatesTable line.now stated.0 stated.1) }
{
    match line.strip_prefix(b"table ") {
        Some(numbers) => read_numbers(numbers),
        None => None,
    }
}

// Two numbers with a blank between them.
fn read_numbers(text: &[u8]) -> Option<(u128, u128)>
    ensures { GivesExactly result (λ stated. StatesNumbers text.now stated.0 stated.1) }
{
    let (first, second) = cut_at(text, b' ')?;
    Some((read_number(first)?, read_number(second)?))
}

/// The cost that the line of a row states, and its classes as they are written there. `None` where the line states no cost.
pub(crate) fn read_cost_line(line: &[u8]) -> Option<(u128, &[u8])>
    ensures { MatchOption result
        ((cost : ℕ) (classes : List ℕ) → StatesCost line.now cost classes → ⊥)
        (λ stated. StatesCost line.now stated.0 stated.1.now) }
{
    match line.strip_prefix(b"row ") {
        Some(stated) => read_cost(stated),
        None => None,
    }
}

// A number, and what stands behind the blank behind it.
fn read_cost(text: &[u8]) -> Option<(u128, &[u8])>
    ensures { MatchOption result
        ((cost : ℕ) (classes : List ℕ) → BeginsWithCost text.now cost classes → ⊥)
        (λ stated. BeginsWithCost text.now stated.0 stated.1.now) }
{
    let (cost, classes) = cut_at(text, b' ')?;
    Some((read_number(cost)?, classes))
}

// Whether a line has the form of a row.
fn has_row_form(line: &[u8]) -> bool
    ensures { IsTrue result ↔ HasRowForm line.now }
{
    match read_cost_line(line) {
        Some((_, classes)) => are_classes(classes),
        None => false,
    }
}

// Whether a line has the form of the memory.
fn has_memory_form(line: &[u8]) -> bool
    ensures { IsTrue result ↔ HasMemoryForm line.now }
{
    read_memory_line(line).is_some()
}

// Whether a line has the form of the head of a table.
fn has_table_form(line: &[u8]) -> bool
    ensures { IsTrue result ↔ HasTableForm line.now }
{
    read_table_line(line).is_some()
}

/// Whether a line has one of the five forms.
pub fn has_form(line: &[u8]) -> bool
    ensures { IsTrue result ↔ HasForm line.now }
{
    if is_opening_line(line) || is_end_line(line) {
        return true;
    }
    if has_memory_form(line) || has_table_form(line) {
        return true;
    }
    has_row_form(line)
}
