// Runs of neighbours with the same ends, which are told to have a conflict together.
ghost use Rattle.std.specs.Prelude.{◌<◌, ◌-◌, ◌^◌};
ghost use Rattle.tce_nesting.specs.Ends.{IsAlone, IsLonger};

use crate::ends::{Ends, ends_of};
use crate::row::Row;
use tce_space::IndexSet;

/// The ends of a row, which are those of all from it on up to a later place, and the least of their costs.
#[derive(Clone, Copy, Default)]
pub struct Run {
    pub ends: Ends,
    pub cost: u128,
    pub until: usize,
}

impl Run {
    /// The run of the row at a place alone.
    pub fn alone(row: &Row, loops: IndexSet, place: usize) -> Run
        requires { place < 2 ^ 64 - 1 }
        ensures { IsAlone loops row.now place result }
    {
        Run {
            ends: ends_of(row, loops),
            cost: row.cost,
            until: place + 1,
        }
    }

    /// This run, and with it the one from the next row on where that has the same ends.
    pub fn and_next(&self, next: &Run) -> Run
        ensures { IsLonger self.now next.now result }
    {
        if self.ends.least.bits() != next.ends.least.bits() {
            return *self;
        }
        if self.ends.largest.bits() != next.ends.largest.bits() {
            return *self;
        }
        Run {
            ends: self.ends,
            cost: self.cost.min(next.cost),
            until: next.until,
        }
    }
}
