// Candidates in an order in which those with the same ends are neighbours.
ghost use Rattle.std.specs.Prelude.{IfOk, IsPermutation};

use crate::candidate::Candidate;
use std::alloc::AllocError;
use tce_nesting::{Row, ends_of};
use tce_space::IndexSet;

/// The candidates by their ends on the outer loops, and then by cost.
pub(crate) fn by_ends(
    mut candidates: Vec<Candidate>,
    outer: IndexSet,
) -> Result<Vec<Candidate>, AllocError>
    ensures { IfOk result (λ ordered. IsPermutation candidates.items ordered.items) }
{
    candidates.sort_by_cached_key(|candidate| rank_of(&candidate.row, outer))?;
    Ok(candidates)
}

// What candidates are ordered by.
fn rank_of(row: &Row, outer: IndexSet) -> (u32, u32, u128) {
    let ends = ends_of(row, outer);
    (ends.least.bits(), ends.largest.bits(), row.cost)
}
