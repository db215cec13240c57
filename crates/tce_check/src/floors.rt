// From which cost on a row stands for all states that have a part of the loops above all other outer loops.
ghost use Rattle.std.specs.Prelude.{◌≤◌};
ghost use Rattle.tce_space.specs.IndexSet.{count};
ghost use Rattle.tce_space.specs.Limits.{max_loops};
ghost use Rattle.tce_check.specs.Joint.{IsBound};
ghost use Rattle.tce_check.specs.Reach.{AreFloors, AreBoundFloors, IsLowered};

use crate::parts::{PARTS, PartCost, place_among};
use tce_nesting::{Nesting, Row, subsets};
use tce_space::IndexSet;

// For each part of the loops the least such cost that is seen of the bound and of the rows with one class.
pub(crate) fn floors_of(
    rows: &[Row],
    loops: IndexSet,
    outer: IndexSet,
    bound: Option<u128>,
) -> [PartCost; PARTS]
    requires bound { IsBound outer rows.now bound }
    requires few { count loops ≤ max_loops }
    ensures { AreFloors outer rows.now result }
{
    let mut floors = bounds_of(loops, bound);
    for row in rows {
        if row.classes.classes().len() == 1 {
            let place = place_among(row.classes.classes()[0], loops);
            if place < PARTS {
                floors[place] = lower(&floors[place], row, outer);
            }
        }
    }
    floors
}

// The bound for each part.
fn bounds_of(loops: IndexSet, bound: Option<u128>) -> [PartCost; PARTS]
    requires { count loops ≤ max_loops }
    ensures { AreBoundFloors bound result }
{
    let cost = bound.unwrap_or(u128::MAX);
    let mut floors = [PartCost {
        part: IndexSet::empty(),
        cost,
    }; PARTS];
    let parts = subsets(loops);
    for place in 0..PARTS {
        if let Some(part) = parts.as_slice().get(place) {
            floors[place] = PartCost { part: *part, cost };
        }
    }
    floors
}

// The floor with the cost of the row where it is lesser and the row is coarser than the nesting with the part alone; else the floor as it was.
fn lower(floor: &PartCost, row: &Row, outer: IndexSet) -> PartCost
    ensures { IsLowered outer row.now floor.now result }
{
    if floor.cost <= row.cost || floor.part.within(IndexSet::empty()) {
        return *floor;
    }
    if row
        .classes
        .coarser(&Nesting::none().with_class(floor.part), outer)
    {
        PartCost {
            part: floor.part,
            cost: row.cost,
        }
    } else {
        *floor
    }
}
