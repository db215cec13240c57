// Which of some loops rows put below no other of them.
ghost use Rattle.std.specs.Prelude.{IsTrue, All};
ghost use Rattle.tce_fusion.specs.Row as states;
ghost use Rattle.tce_check.specs.Kept.{IsUppermost, IsRowAt};
ghost use Rattle.tce_check.specs.Branch.{Passes};

use tce_nesting::Row;
use tce_space::{IndexSet, MAX_INDEXES};

// A loop that comes next, and those among which it does.
#[derive(Clone, Copy, Default)]
pub(crate) struct Turn {
    pub(crate) rest: IndexSet,
    pub(crate) index: u8,
}

// Whether a row puts no other of the rest above a loop of it.
pub(crate) fn is_uppermost(row: &Row, rest: IndexSet, index: u8) -> bool
    ensures { IsUppermost rest row.now index → IsTrue result }
{
    let _bits = rest.bits();
    for class in row.classes.classes() {
        let part = class.meet(rest);
        if !part.within(IndexSet::empty()) {
            return index < MAX_INDEXES as u8 && part.has(index);
        }
    }
    true
}

// The same of the row at a place.
pub(crate) fn is_uppermost_at(rows: &[Row], place: u32, rest: IndexSet, index: u8) -> bool
    ensures { (row : states.Row) → IsRowAt rows.now place row → IsUppermost rest row index →
        IsTrue result }
{
    match rows.get(place as usize) {
        Some(row) => is_uppermost(row, rest, index),
        None => false,
    }
}

// Whether a row puts no other of the rest above a loop, at each turn.
pub(crate) fn passes(row: &Row, turns: &[Turn]) -> bool
    ensures { Passes turns.now row.now → IsTrue result }
{
    for turn in turns {
        if !is_uppermost(row, turn.rest, turn.index) {
            return false;
        }
    }
    true
}
