// Lists of candidates of which none stands for another.
ghost use Rattle.std.specs.Prelude.{IfOk, All, AllPairs, Contains};
ghost use Rattle.tce_search.specs.Candidates.{StandForAll, AreApart};
ghost use Rattle.tce_search.specs.Groups.{LeavesOpen};

use crate::candidate::Candidate;
use crate::candidate_list::CandidateList;
use std::alloc::{AllocError, Global};

/// The candidates without those for whose states a later one stands, in their order.
pub(crate) fn thinned(alloc: Global, list: CandidateList) -> Result<Vec<Candidate>, AllocError>
    requires { AllPairs (LeavesOpen list.outer) list.candidates }
    ensures others { IfOk result (λ kept. StandForAll list.outer list.candidates kept.items) }
    ensures apart { IfOk result (λ kept. AllPairs (AreApart list.outer) kept.items) }
    ensures origin { IfOk result (λ kept. All (Contains list.candidates) kept.items) }
{
    let mut kept = CandidateList::new(alloc, list.outer(), list.count())?;
    let mut rest = list.into_candidates();
    while let Some(candidate) = rest.pop() {
        if !kept.covers(&candidate.row) {
            kept.push(candidate)?;
        }
    }
    let mut candidates = kept.into_candidates();
    candidates.reverse();
    Ok(candidates)
}
