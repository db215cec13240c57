// What one operand of a node costs at least beside each state of the other.
use crate::bounds::least_cost;
use crate::candidate::Candidate;
use crate::subset_numbers::SubsetNumbers;
use std::alloc::{AllocError, Global};
use tce_space::IndexSet;

// A node has so many loops at most that there are as many sets of them.
const MOST_SETS: usize = 1024;

/// What the candidates of a left operand cost at least, by the set of the node's loops that the right one puts above the others: no more than those without conflict.
#[derive(Drop)]
pub(crate) struct Side {
    costs: Vec<u128>,
    least: u128,
}

impl Side {
    /// That of some candidates, where these are the node's loops.
    pub(crate) fn new(
        alloc: Global,
        candidates: &[Candidate],
        loops: IndexSet,
    ) -> Result<Side, AllocError> {
        let numbers = SubsetNumbers::new(loops);
        let all = numbers.number(loops).min(MOST_SETS - 1);
        let mut costs = vec![in alloc; u128::MAX; all + 1]?;
        for candidate in candidates {
            lower_beside(costs.as_mut_slice(), candidate, &numbers, all);
        }
        Ok(Side {
            costs,
            least: least_cost(candidates),
        })
    }

    /// How much more that is for each set, by its number, than for the cheapest.
    pub(crate) fn more(&self, place: usize) -> u128 {
        match self.costs.get(place) {
            Some(cost) => cost.saturating_sub(self.least),
            None => 0,
        }
    }

    /// How many sets there are.
    pub(crate) fn sets(&self) -> usize {
        self.costs.len()
    }
}

// Lowers the costs of the sets that have no conflict with a candidate to its own: those that have all of its first classes, and besides some of the next.
fn lower_beside(costs: &mut [u128], candidate: &Candidate, numbers: &SubsetNumbers, all: usize) {
    let mut from = 0;
    for class in candidate.row.classes.classes() {
        let to = from | numbers.number(*class);
        lower_between(costs, from, to, candidate.row.cost);
        from = to;
    }
    lower_between(costs, from, all, candidate.row.cost);
}

// Lowers the costs of the sets that have the one within themselves and lie within the other, by their numbers.
fn lower_between(costs: &mut [u128], from: usize, to: usize, cost: u128) {
    let mut number = from;
    for _ in 0..MOST_SETS {
        if let Some(least) = costs.get_mut(number) {
            *least = (*least).min(cost);
        }
        if number == to {
            return;
        }
        number = (number | !to).wrapping_add(1) & to | from;
    }
}
