// Costs of parts of some loops, found by the number of a part among the subsets of the loops.
ghost use Rattle.tce_check.specs.Reach.{IsNoCost, IsCostOf};

use tce_space::{IndexSet, MAX_LOOPS};

// How many subsets a node's loops have at most.
pub(crate) const PARTS: usize = 1024;

// A part of some loops, and a cost that holds of it.
#[derive(Clone, Copy)]
pub(crate) struct PartCost {
    pub(crate) part: IndexSet,
    pub(crate) cost: u128,
}

impl PartCost {
    // No cost.
    pub(crate) fn none() -> PartCost
        ensures { IsNoCost result }
    {
        PartCost {
            part: IndexSet::empty(),
            cost: u128::MAX,
        }
    }
}

// The number of a part among the subsets of some loops. No answer rests on it, since each cost is kept with its part.
pub(crate) fn place_among(part: IndexSet, loops: IndexSet) -> usize {
    let mut place = 0;
    let mut rest = loops.bits();
    for bit in 0..MAX_LOOPS {
        let later = rest & rest.wrapping_sub(1);
        if part.bits() & (rest ^ later) != 0 {
            place |= 1 << bit;
        }
        rest = later;
    }
    place
}

// The cost at a place where it is that of the part, else the greatest number.
pub(crate) fn cost_at(costs: &[PartCost], place: usize, part: IndexSet) -> u128
    ensures { IsCostOf costs.now part result }
{
    if let Some(found) = costs.get(place) {
        if found.part.bits() == part.bits() {
            return found.cost;
        }
    }
    u128::MAX
}
