// What the candidates of a node's operands are together, before a set is chosen for the node.
ghost use Rattle.std.specs.Prelude.{◌≡◌, ◌⊎◌, ◌↔◌, ◌+◌, ◌<◌, ◌≤◌, [], length, IsTrue, IfOk, OnOk, All, AllPairs, Contains};
ghost use Rattle.tce_space.specs.Limits.{max_loops};
ghost use Rattle.tce_space.specs.IndexSet.{count};
ghost use Rattle.tce_search.specs.Candidates.{StandForAll, IsLimited, LeavesRoom, HaveRoom};
ghost use Rattle.tce_search.specs.Ends.{AreStarts, AreFor, KnowsRuns};
ghost use Rattle.tce_search.specs.Groups.{LeavesOpen};
ghost use Rattle.tce_search.specs.Joins.{IsJoinBelow, IsSomeJoinBelow, JoinCovered, AreJoinable, RunCovered, AllCovered, HasGrownBy, HasNext};

use crate::candidate::{Candidate, both_sets};
use crate::candidate_list::CandidateList;
use crate::runs::runs_of;
use crate::starts::{Rights, Starts, starts_for, starts_of};
use crate::steps::join_rows;
use crate::thinned::thinned;
use std::alloc::{AllocError, Global};
use tce_nesting::Ends;
use tce_space::IndexSet;

// Whether two operands' candidates together cost less than the limit.
fn are_below(left: &Candidate, right: &Candidate, limit: u128) -> bool
    requires left { IsLimited left.now }
    requires right { IsLimited right.now }
    ensures { IsTrue result ↔ left.now.row.cost + right.now.row.cost < limit }
{
    left.row.cost + right.row.cost < limit
}

// Appends what two operands' candidates are together, where they have no conflict, it costs less than the limit, and no candidate stands for it.
fn add_join(
    list: &mut CandidateList,
    left: &Candidate,
    right: &Candidate,
    limit: u128,
) -> Result<(), AllocError>
    requires loops { count list.old.outer ≤ max_loops }
    requires left { IsLimited left.now }
    requires right { IsLimited right.now }
    requires room { LeavesRoom left.now right.now }
    ensures covered { OnOk result (JoinCovered limit list.old.outer list.new.candidates left.now right.now) }
    ensures outer { OnOk result (list.new.outer ≡ list.old.outer) }
    ensures others { OnOk result (StandForAll list.old.outer list.old.candidates list.new.candidates) }
    ensures later { OnOk result (AllPairs (LeavesOpen list.old.outer) list.old.candidates → AllPairs (LeavesOpen list.old.outer) list.new.candidates) }
    ensures origin { OnOk result (All (λ x. Contains list.old.candidates x ⊎ IsJoinBelow limit list.old.outer left.now right.now x) list.new.candidates) }
{
    if !are_below(left, right, limit) {
        return Ok(());
    }
    let Some(row) = join_rows(&left.row, &right.row, list.outer()) else {
        return Ok(());
    };
    if list.covers(&row) {
        return Ok(());
    }
    let sets = both_sets(left.sets.as_slice(), right.sets.as_slice());
    list.push(Candidate { row, sets })?;
    Ok(())
}

// Appends what a left candidate and the right ones from a place on up to another one are together. Where it costs the limit or more with one and all later ones of its run, these are passed over.
fn add_run(
    list: &mut CandidateList,
    left: &Candidate,
    rights: &Rights,
    from: usize,
    until: usize,
) -> Result<(), AllocError>
    requires joinable { AreJoinable list.old.outer left.now rights.now }
    requires inside { until ≤ length rights.now.candidates.now }
    ensures covered { OnOk result
        (RunCovered list.old.outer list.new.candidates left.now rights.now from until) }
    ensures grown { OnOk result (HasGrownBy left.now rights.now list.old list.new) }
{
    let mut place = from;
    while place < until {
        let run = rights.runs[place];
        if rights.limit.saturating_sub(left.row.cost) <= run.cost {
            place = run.until;
            continue;
        }
        add_join(list, left, &rights.candidates[place], rights.limit)?;
        place += 1;
    }
    Ok(())
}

// Appends what a left candidate and the right ones are together, of those runs that are not ruled out.
fn add_joins(
    list: &mut CandidateList,
    left: &Candidate,
    rights: &Rights,
    starts: &Starts,
) -> Result<(), AllocError>
    requires joinable { AreJoinable list.old.outer left.now rights.now }
    requires starts { AreStarts rights.now starts.now }
    requires own { AreFor list.old.outer left.now.row starts.now }
    ensures covered { OnOk result
        (AllCovered list.old.outer list.new.candidates left.now rights.now) }
    ensures grown { OnOk result (HasGrownBy left.now rights.now list.old list.new) }
{
    for start in starts.places.as_slice() {
        add_run(list, left, rights, *start, rights.runs[*start].until)?;
    }
    Ok(())
}

// Appends what each left candidate and the right ones are together, by the runs of these.
fn add_joins_by_runs(
    alloc: Global,
    list: &mut CandidateList,
    lefts: &[Candidate],
    side: &Rights,
    loops: IndexSet,
) -> Result<(), AllocError>
    requires loops { count loops ≤ max_loops }
    requires outer { list.old.outer ≡ loops }
    requires empty { list.old.candidates ≡ [] }
    requires lefts { All IsLimited lefts.now }
    requires rights { All IsLimited side.now.candidates.now }
    requires room { HaveRoom lefts.now side.now.candidates.now }
    requires runs { KnowsRuns loops side.now }
    ensures outer { OnOk result (list.new.outer ≡ loops) }
    ensures covered { OnOk result (All (λ left. All (JoinCovered side.now.limit loops list.new.candidates left) side.now.candidates.now) lefts.now) }
    ensures joins { OnOk result (All (IsSomeJoinBelow side.now.limit loops lefts.now side.now.candidates.now) list.new.candidates) }
    ensures later { OnOk result (AllPairs (LeavesOpen loops) list.new.candidates) }
{
    let mut starts = starts_of(alloc, side, loops, Ends::default(), 0)?;
    for left in lefts {
        starts = starts_for(alloc, starts, &left.row, side, loops)?;
        add_joins(list, left, side, &starts)?;
    }
    Ok(())
}

// Appends what the operands' candidates are together.
fn add_all_joins(
    alloc: Global,
    list: &mut CandidateList,
    lefts: &[Candidate],
    rights: &[Candidate],
    loops: IndexSet,
    limit: u128,
) -> Result<(), AllocError>
    requires loops { count loops ≤ max_loops }
    requires outer { list.old.outer ≡ loops }
    requires empty { list.old.candidates ≡ [] }
    requires lefts { All IsLimited lefts.now }
    requires rights { All IsLimited rights.now }
    requires room { HaveRoom lefts.now rights.now }
    ensures outer { OnOk result (list.new.outer ≡ loops) }
    ensures covered { OnOk result (All (λ left. All (JoinCovered limit loops list.new.candidates left) rights.now) lefts.now) }
    ensures joins { OnOk result (All (IsSomeJoinBelow limit loops lefts.now rights.now) list.new.candidates) }
    ensures later { OnOk result (AllPairs (LeavesOpen loops) list.new.candidates) }
{
    let runs = runs_of(alloc, rights, loops)?;
    let side = Rights {
        candidates: rights,
        runs: runs.as_slice(),
        limit,
    };
    add_joins_by_runs(alloc, list, lefts, &side, loops)
}

/// What the operands' candidates are together, pair by pair: joined rows below the limit, so many that for each pair one of them is coarser on the node's loops and costs no more.
///
/// Each set that may be fused above the joined rows of a pair may be fused above those that are coarser, and what that leaves is coarser too. So the choices of the node need be tried on these alone.
pub(crate) fn joins_of(
    alloc: Global,
    lefts: &[Candidate],
    rights: &[Candidate],
    loops: IndexSet,
    limit: u128,
) -> Result<Vec<Candidate>, AllocError>
    requires loops { count loops ≤ max_loops }
    requires lefts { All IsLimited lefts.now }
    requires rights { All IsLimited rights.now }
    requires room { HaveRoom lefts.now rights.now }
    ensures covered { IfOk result (λ joins. All (λ left. All (JoinCovered limit loops joins.items left) rights.now) lefts.now) }
    ensures joins { IfOk result (λ joins. All (IsSomeJoinBelow limit loops lefts.now rights.now) joins.items) }
    ensures next { IfOk result (λ joins. All HasNext joins.items) }
{
    let mut list = CandidateList::new(alloc, loops, lefts.len().saturating_add(rights.len()))?;
    add_all_joins(alloc, &mut list, lefts, rights, loops, limit)?;
    thinned(alloc, list)
}
