// Lists of places of rows, of which the first so many count.
ghost use Rattle.std.specs.Prelude.{◌≤◌, length};
ghost use Rattle.tce_fusion.specs.Row as states;
ghost use Rattle.tce_check.specs.Kept.{IsKept, IsRowAt, IsUppermost, StayKept};

use crate::uppermost::is_uppermost_at;
use tce_nesting::Row;
use tce_space::IndexSet;

// The cost of the row at a place.
fn cost_of(rows: &[Row], place: u32) -> u128
    ensures { (row : states.Row) → IsRowAt rows.now place row → result ≤ row.cost }
{
    match rows.get(place as usize) {
        Some(row) => row.cost,
        None => u128::MAX,
    }
}

// The least cost of the rows at the first places.
pub(crate) fn least_cost(rows: &[Row], places: &[u32], count: usize) -> u128
    requires { count ≤ length places.now }
    ensures { (row : states.Row) → IsKept rows.now places.now count row → result ≤ row.cost }
{
    let mut least = u128::MAX;
    for at in 0..count {
        least = least.min(cost_of(rows, places[at]));
    }
    least
}

// Moves to the front the places of all rows that put no other of the rest above a loop, and tells how many there are.
pub(crate) fn sift(
    rows: &[Row],
    places: &mut [u32],
    count: usize,
    rest: IndexSet,
    index: u8,
) -> usize
    requires { count ≤ length places.old }
    ensures fewer { result ≤ count }
    ensures stays { StayKept count places.old places.new }
    ensures front { (row : states.Row) → IsKept rows.now places.new count row →
        IsUppermost rest row index → IsKept rows.now places.new result row }
{
    let mut kept = 0;
    for at in 0..count {
        if is_uppermost_at(rows, places[at], rest, index) {
            places.swap(kept, at);
            kept += 1;
        }
    }
    kept
}
