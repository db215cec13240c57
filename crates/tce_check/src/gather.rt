// Lists of rows that come to the same, each but once at its least cost.
ghost use Rattle.std.specs.Prelude.{◌<◌, ◌≤◌, ◌+◌, length};
ghost use Rattle.tce_fusion.specs.Row as states;
ghost use Rattle.tce_check.specs.Kept.{IsRowAt, HasKept, StandIn};
ghost use Rattle.tce_check.specs.Branch.{AreGathered};

use crate::branch::Branch;
use crate::groups::stands_for;
use crate::uppermost::passes;
use tce_nesting::{Nesting, Row};
use tce_space::IndexSet;

// How many rows are kept at once.
pub(crate) const ROOM: usize = 16_384;

// A slot is one more than a place of the list, below this, and above it a part of the number of the row's classes.
const PLACES: u32 = 65_536;

// How many slots there are: a row is looked for from the remainder of its number on.
const SLOTS: usize = 32_768;

// How many slots are looked at.
const PROBES: usize = 24;

// A number that is the same for rows which put the same loops of the rest above each other, and mostly another for others.
fn number_of(classes: &Nesting, branch: &Branch) -> u64 {
    let mut number = (branch.rest.bits() as u64 + 1).wrapping_mul(0x9e37_79b9_7f4a_7c15);
    let mut reached = IndexSet::empty();
    for class in classes.classes() {
        let next = reached.union(class.meet(branch.rest));
        if branch.rest.within(next) {
            return number;
        }
        if next.bits() != reached.bits() {
            number = (number ^ number >> 29 ^ next.bits() as u64).wrapping_mul(
                0xbf58_476d_1ce4_e5b9,
            );
        }
        reached = next;
    }
    number
}

// The place of the list at which a row with this number is kept already, or so many as there are, where the next one is noted.
fn place_of(slots: &mut [u32], number: u64, count: usize) -> usize {
    let mark = (number >> 48) as u32;
    let mut slot = (number >> 16) as usize % SLOTS;
    for _ in 0..PROBES {
        let Some(entry) = slots.get_mut(slot) else {
            return count;
        };
        if *entry == 0 {
            if count < ROOM {
                *entry = mark * PLACES + count as u32 + 1;
            }
            return count;
        }
        if *entry / PLACES == mark {
            return (*entry % PLACES).saturating_sub(1) as usize;
        }
        slot = (slot + 1) % SLOTS;
    }
    count
}

// Keeps a row, if none stands for it that is kept at a place of the list. Tells how many are kept then.
fn keep(
    rows: &[Row],
    places: &mut [u32],
    count: usize,
    place: usize,
    at: u32,
    rest: IndexSet,
) -> usize
    requires room { count < length places.old }
    requires inside { at < length rows.now }
    ensures more { result ≤ count + 1 }
    ensures others { StandIn rest rows.now places.old count places.new result }
    ensures row { (row : states.Row) → IsRowAt rows.now at row → HasKept rest rows.now places.new
        result row }
{
    let row = &rows[at as usize];
    if place < count {
        if let Some(known) = rows.get(places[place] as usize) {
            if stands_for(known, row, rest) {
                return count;
            }
            if stands_for(row, known, rest) {
                places[place] = at;
                return count;
            }
        }
    }
    places[count] = at;
    count + 1
}

// Keeps rows from a place on that pass and cost less than the limit, until there is no room. Tells how many are kept, and the place of the first row that was not looked at.
//
// The slots take 128 KiB of stack, which are not to stand in the frame of what calls this.
#[inline(never)]
pub(crate) fn gather(
    rows: &[Row],
    from: usize,
    branch: &Branch,
    limit: u128,
    places: &mut [u32],
) -> (usize, usize)
    ensures room { result.0 ≤ length places.new }
    ensures gathered { AreGathered branch.now limit rows.now from result.1 places.new result.0 }
{
    let mut slots = [0; SLOTS];
    let mut count = 0;
    for at in from..rows.len() {
        let row = &rows[at];
        if row.cost < limit && passes(row, branch.turns.as_slice()) {
            if places.len() <= count || u32::MAX as usize <= at {
                return (count, at);
            }
            let place = place_of(&mut slots, number_of(&row.classes, branch), count);
            count = keep(rows, places, count, place, at as u32, branch.rest);
        }
    }
    (count, rows.len())
}
