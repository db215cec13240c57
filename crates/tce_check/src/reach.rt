// From which sum of costs on rows of a node stand for all steps from rows that together put a part of the loops above the others.
ghost use Rattle.std.specs.Prelude.{◌≤◌, ◌⊎◌, IsTrue, All};
ghost use Rattle.tce_space.specs.IndexSet.{count};
ghost use Rattle.tce_space.specs.Limits.{max_loops};
ghost use Rattle.tce_check.specs.Joint.{IsBound};
ghost use Rattle.tce_check.specs.Node.{IsReady, IsReachOf, IsReachWith, IsDear};
ghost use Rattle.tce_check.specs.Reach.{IsNoCost, IsCostOf, IsReached, ReachesAll};

use crate::floors::floors_of;
use crate::parts::{PartCost, cost_at, place_among};
use crate::steps::{Kept, Node};
use tce_nesting::{Choice, Row, Run, subsets};
use tce_space::IndexSet;

// A node with fewer rows has no reaches, since they would save less than they cost.
const FEW: usize = 1000;

// Keeps the reach of each part of a node's loops, where there are many rows.
pub(crate) fn fill_reaches(
    reaches: &mut [PartCost],
    rows: &[Row],
    choices: &[Choice],
    loops: IndexSet,
    outer: IndexSet,
    bound: Option<u128>,
)
    requires bound { IsBound outer rows.now bound }
    requires few { count loops ≤ max_loops }
    ensures { All (IsReached outer rows.now choices.now) reaches.new }
{
    if rows.len() < FEW {
        fill(reaches, &[], &[], choices, loops);
    } else {
        fill_many(reaches, rows, choices, loops, outer, bound);
    }
}

// The same, where there are many rows. The floors take 32 KiB of stack, which are not to stand in the frame of what calls this.
#[inline(never)]
fn fill_many(
    reaches: &mut [PartCost],
    rows: &[Row],
    choices: &[Choice],
    loops: IndexSet,
    outer: IndexSet,
    bound: Option<u128>,
)
    requires bound { IsBound outer rows.now bound }
    requires few { count loops ≤ max_loops }
    ensures { All (IsReached outer rows.now choices.now) reaches.new }
{
    let floors = floors_of(rows, loops, outer, bound);
    fill(reaches, subsets(loops).as_slice(), &floors, choices, loops);
}

// The reach of each of the parts at its place, and no cost behind them.
fn fill(
    reaches: &mut [PartCost],
    parts: &[IndexSet],
    floors: &[PartCost],
    choices: &[Choice],
    loops: IndexSet,
)
    ensures { All (λ reach. IsNoCost reach ⊎ ReachesAll floors.now choices.now reach) reaches.new }
{
    for place in 0..reaches.len() {
        reaches[place] = match parts.get(place) {
            Some(part) => reach_of(*part, floors, choices, loops),
            None => PartCost::none(),
        };
    }
}

// The reach of a part: from this sum of costs on, the floors tell of a row for each choice.
//
// A set that may be fused is within the part or has the part within it, and so the set or the part is above all other outer loops in what is left.
fn reach_of(part: IndexSet, floors: &[PartCost], choices: &[Choice], loops: IndexSet) -> PartCost
    ensures { ReachesAll floors.now choices.now result }
{
    let own = cost_at(floors, place_among(part, loops), part);
    let mut cost: u128 = 0;
    for choice in choices {
        let floor = if choice.fused.within(part) {
            cost_at(floors, place_among(choice.fused, loops), choice.fused)
        } else if part.within(choice.fused) {
            own
        } else {
            continue;
        };
        cost = cost.max(floor.saturating_sub(choice.size));
    }
    PartCost { part, cost }
}

impl<'a> Kept<'a> {
    // The reach at a place where it is that of the part, else the greatest number.
    fn reach_at(&self, place: usize, part: IndexSet) -> u128
        ensures { IsCostOf self.now.reaches.now part result }
    {
        cost_at(self.reaches, place, part)
    }
}

impl<'a> Node<'a> {
    // The least reach of rows that have these tops where they are joined.
    pub(crate) fn reach_with(&self, tops: &[IndexSet]) -> u128
        requires { IsReady self.now }
        ensures { IsReachWith self.now tops.now result }
    {
        let mut least = u128::MAX;
        if self.rows.len() < FEW {
            return least;
        }
        let loops = self.tree.loops(self.number);
        for top in tops {
            least = least.min(self.kept.reach_at(place_among(*top, loops), *top));
        }
        least
    }

    // Whether a left row with this reach and each right row of a run cost so much that rows stand for all steps from them.
    pub(crate) fn is_dear(&self, left: &Row, reach: u128, run: &Run) -> bool
        requires ready { IsReady self.now }
        requires reach { IsReachOf self.now left.now reach }
        ensures { IsTrue result → IsDear self.now left.now run.now }
    {
        let both = left.cost.saturating_add(run.cost);
        reach <= both || self.stands_for_all(both)
    }
}
