// From which cost on a state of a node is of no use, by the loops that it puts above the others of the node's parent.
ghost use Rattle.std.specs.Prelude.{ℕ, ◌<◌, ◌≤◌, IfSome, All};
ghost use Rattle.tce_fusion.specs.Relation.{above};
ghost use Rattle.tce_fusion.specs.Row.{StandsFor};
ghost use Rattle.tce_nesting.specs.Plan.{LiesWithin};

use crate::side::Side;
use crate::subset_numbers::SubsetNumbers;
use std::alloc::{AllocError, Global};
use tce_nesting::{Nesting, Row};
use tce_space::IndexSet;

/// What a node and all above it keep together at least, in elements, for each set of its loops that a joined state puts above the others.
///
/// A set that may be fused above the node lies within that set, or has it within itself. So its loops that are no dims of the node matter only as far as there are some.
#[derive(Drop)]
pub struct Ahead {
    loops: IndexSet,
    dims: IndexSet,
    numbers: SubsetNumbers,
    within: Vec<u128>,
    beyond: Vec<u128>,
}

impl Ahead {
    /// The costs of the subsets of the dims by their numbers: of each alone, and together with loops that are no dims. A set without a cost has 0.
    pub fn new(loops: IndexSet, dims: IndexSet, within: Vec<u128>, beyond: Vec<u128>) -> Ahead {
        Ahead {
            loops,
            dims,
            numbers: SubsetNumbers::new(dims),
            within,
            beyond,
        }
    }

    // The loops that the parent sums, where costs are known: it fuses none of them.
    pub(crate) fn summed(&self) -> IndexSet {
        if self.beyond.is_empty() {
            return IndexSet::empty();
        }
        self.loops.minus(self.dims)
    }

    // The same for the right operand alone, with what the left one costs more beside each set than it does at least.
    pub(crate) fn beside(&self, alloc: Global, side: &Side) -> Result<Ahead, AllocError> {
        let mut within = Vec::with_capacity(alloc, side.sets())?;
        for place in 0..side.sets() {
            let kept = match self.within.get(place) {
                Some(cost) => *cost,
                None => 0,
            };
            within.push(kept.saturating_add(side.more(place)))?;
        }
        Ok(Ahead {
            loops: self.loops,
            dims: self.dims,
            numbers: self.numbers,
            within,
            beyond: self.beyond.clone()?,
        })
    }

    /// The cost of a set. All loops are above no others, so they cost what none of them does.
    pub fn of(&self, set: IndexSet) -> u128 {
        let above = if self.loops.within(set) {
            IndexSet::empty()
        } else {
            set
        };
        let costs = if above.within(self.dims) {
            &self.within
        } else {
            &self.beyond
        };
        match costs.get(self.numbers.number(above)) {
            Some(cost) => *cost,
            None => 0,
        }
    }
}

/// How much the states of a node and all that is ahead of them may cost together, and what that is at least: the costs of its parent. No state is of no use that costs less than the least.
///
/// They only choose which states are told apart: whatever they are, a row stands for each state.
#[derive(Clone, Copy)]
pub struct Limits<'a> {
    pub ahead: &'a Ahead,
    pub target: u128,
    pub least: u128,
}

impl<'a> Limits<'a> {
    /// From which cost on states are of no use that put these loops above the others.
    pub fn of(&self, set: IndexSet) -> u128
        ensures low { self.now.least ≤ result }
        ensures small { (most : ℕ) → self.now.target < most → self.now.least < most → result < most }
    {
        self.target
            .saturating_sub(self.ahead.of(set))
            .max(self.least)
    }
}

/// A row that stands for all states that are of no use for what this one puts above the others, where it is one of them: it has the one class of these loops.
pub(crate) fn bound_of(row: &Row, limits: &Limits) -> Option<Row>
    ensures stands { IfSome result (λ bound. (outer : ℕ) → StandsFor outer (above row.now.classes) row.now.cost bound) }
    ensures least { IfSome result (λ bound. limits.now.least ≤ bound.cost) }
    ensures within { IfSome result (λ bound. (dims : ℕ) → All (LiesWithin dims) row.now.classes → All (LiesWithin dims) bound.classes) }
{
    let mut reached = IndexSet::empty();
    for class in row.classes.classes() {
        reached = reached.union(*class);
        let cost = limits.of(reached);
        if cost <= row.cost {
            return Some(Row {
                classes: Nesting::none().with_class(reached),
                cost,
            });
        }
    }
    None
}
