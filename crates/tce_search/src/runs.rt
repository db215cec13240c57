// Runs of neighbours with the same ends, which are ruled out together.
ghost use Rattle.std.specs.Prelude.{IfOk};
ghost use Rattle.tce_nesting.specs.Ends.{AreRuns};
ghost use Rattle.tce_search.specs.Laws.{rows_of};

use crate::candidate::Candidate;
use std::alloc::{AllocError, Global};
use tce_nesting::Run;
use tce_space::IndexSet;

/// For each candidate the longest run from it on.
pub(crate) fn runs_of(
    alloc: Global,
    candidates: &[Candidate],
    loops: IndexSet,
) -> Result<Vec<Run>, AllocError>
    ensures { IfOk result (λ runs. AreRuns loops (rows_of candidates.now) runs.items) }
{
    let mut runs = single_runs(alloc, candidates, loops)?;
    let mut place = candidates.len();
    while 1 < place {
        place -= 1;
        let longer = runs[place - 1].and_next(&runs[place]);
        runs[place - 1] = longer;
    }
    Ok(runs)
}

// For each candidate the run of it alone.
fn single_runs(
    alloc: Global,
    candidates: &[Candidate],
    loops: IndexSet,
) -> Result<Vec<Run>, AllocError>
    ensures { IfOk result (λ runs. AreRuns loops (rows_of candidates.now) runs.items) }
{
    let mut runs = Vec::with_capacity(alloc, candidates.len())?;
    for candidate in candidates {
        let run = Run::alone(&candidate.row, loops, runs.len());
        runs.push(run)?;
    }
    Ok(runs)
}
