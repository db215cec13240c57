// A few candidates of a node, for a pass that does not go through all of them.
ghost use Rattle.std.specs.Prelude.{IfOk, All, Contains, IsPermutation};

use crate::candidate::Candidate;
use crate::ordered::by_ends;
use std::alloc::{AllocError, Global};
use tce_nesting::{Row, ends_of};
use tce_space::IndexSet;

/// Of a node's candidates those states that cost least, at most so many for each largest upper part on the outer loops, in the order of a table.
///
/// They need not cover the others: what is found with them alone is a state, but perhaps not a least one. Only want of memory is refused.
pub fn cheapest_few(
    alloc: Global,
    candidates: Vec<Candidate>,
    outer: IndexSet,
    most: usize,
) -> Result<Vec<Candidate>, AllocError>
    ensures { IfOk result (λ few. All (Contains candidates.items) few.items) }
{
    let ordered = by_part(candidates, outer)?;
    let kept = last_of_each(alloc, ordered, outer, most)?;
    let few = by_ends(kept, outer)?;
    Ok(few)
}

// The candidates by their largest upper part, and then from the dearest to the cheapest.
fn by_part(mut candidates: Vec<Candidate>, outer: IndexSet) -> Result<Vec<Candidate>, AllocError>
    ensures { IfOk result (λ ordered. IsPermutation candidates.items ordered.items) }
{
    candidates.sort_by_cached_key(|candidate| rank_of(&candidate.row, outer))?;
    Ok(candidates)
}

// What candidates are ordered by.
fn rank_of(row: &Row, outer: IndexSet) -> (u32, u128) {
    let ends = ends_of(row, outer);
    (ends.largest.bits(), u128::MAX - row.cost)
}

// How many sets a candidate has at most: those that have fewer are no states.
fn most_sets(candidates: &[Candidate]) -> usize {
    let mut most = 0;
    for candidate in candidates {
        most = most.max(candidate.sets.len());
    }
    most
}

// Of neighbours with the same largest upper part the last states, at most so many, from the last of all on.
fn last_of_each(
    alloc: Global,
    candidates: Vec<Candidate>,
    outer: IndexSet,
    most: usize,
) -> Result<Vec<Candidate>, AllocError>
    ensures { IfOk result (λ kept. All (Contains candidates.items) kept.items) }
{
    let full = most_sets(candidates.as_slice());
    let mut rest = candidates;
    let mut kept = Vec::new(alloc);
    let mut part = IndexSet::empty();
    let mut count = 0;
    while let Some(candidate) = rest.pop() {
        let largest = ends_of(&candidate.row, outer).largest;
        if largest.bits() != part.bits() {
            part = largest;
            count = 0;
        }
        if count < most && candidate.sets.len() == full {
            count += 1;
            kept.push(candidate)?;
        }
    }
    Ok(kept)
}
