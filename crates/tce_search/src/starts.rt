// Which runs of right candidates left ones may be joined with.
ghost use Rattle.std.specs.Prelude.{◌≡◌, IsTrue, IfOk};
ghost use Rattle.tce_search.specs.Ends.{KnowsRuns, IsRuledOut, AreStarts, AreFor, IsServed};

use crate::candidate::Candidate;
use std::alloc::{AllocError, Global};
use tce_nesting::{Ends, Row, Run, ends_of, have_conflict};
use tce_space::IndexSet;

/// The right operand's candidates, for each the longest run from it on, and the limit of what is joined.
#[derive(Clone, Copy)]
pub(crate) struct Rights<'a> {
    pub(crate) candidates: &'a [Candidate],
    pub(crate) runs: &'a [Run],
    pub(crate) limit: u128,
}

/// The ends of left candidates and the least of their costs, and where those runs of right ones start that these do not rule out.
#[derive(Drop)]
pub(crate) struct Starts {
    pub(crate) ends: Ends,
    pub(crate) cost: u128,
    pub(crate) places: Vec<usize>,
}

// Whether all left candidates with the ends that cost no less have a conflict with those of a run, or cost the limit or more together.
fn is_ruled_out(ends: &Ends, cost: u128, run: &Run, limit: u128) -> bool
    ensures { IsTrue result → IsRuledOut limit ends.now cost run.now }
{
    if limit.saturating_sub(cost) <= run.cost {
        return true;
    }
    have_conflict(ends, &run.ends)
}

/// The starts for the ends and the least cost of left candidates.
pub(crate) fn starts_of(
    alloc: Global,
    rights: &Rights,
    loops: IndexSet,
    ends: Ends,
    cost: u128,
) -> Result<Starts, AllocError>
    requires { KnowsRuns loops rights.now }
    ensures starts { IfOk result (AreStarts rights.now) }
    ensures ends { IfOk result (λ starts. starts.ends ≡ ends) }
    ensures cost { IfOk result (λ starts. starts.cost ≡ cost) }
{
    let mut places = Vec::new(alloc);
    let mut place = 0;
    while place < rights.candidates.len() {
        let run = rights.runs[place];
        if is_ruled_out(&ends, cost, &run, rights.limit) {
            place = run.until;
            continue;
        }
        places.push(place)?;
        place = run.until;
    }
    Ok(Starts { ends, cost, places })
}

/// The starts for a left candidate: those of the candidate before it, where it has the same ends and costs no less.
pub(crate) fn starts_for(
    alloc: Global,
    starts: Starts,
    left: &Row,
    rights: &Rights,
    loops: IndexSet,
) -> Result<Starts, AllocError>
    requires runs { KnowsRuns loops rights.now }
    requires starts { AreStarts rights.now starts }
    ensures starts { IfOk result (AreStarts rights.now) }
    ensures left { IfOk result (AreFor loops left.now) }
{
    let ends = ends_of(left, loops);
    if serve(&starts, &ends, left.cost) {
        return Ok(starts);
    }
    starts_of(alloc, rights, loops, ends, left.cost)
}

// Whether the starts are those for the ends, and for no more than a cost.
fn serve(starts: &Starts, ends: &Ends, cost: u128) -> bool
    ensures { IsTrue result → IsServed starts.now ends.now cost }
{
    starts.ends.least.bits() == ends.least.bits()
        && starts.ends.largest.bits() == ends.largest.bits()
        && starts.cost <= cost
}
