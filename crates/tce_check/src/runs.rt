// Runs of neighbours with the same ends, block by block.
ghost use Rattle.std.specs.Prelude.{◌≤◌, ◌<◌, ◌+◌, ℕ, length, slice_index_or};
ghost use Rattle.tce_nesting.specs.Ends.{AreRuns, IsRun};
ghost use Rattle.tce_nesting.specs.declared.runs.Run as own;

use tce_nesting::{Row, Run};
use tce_space::IndexSet;

// The runs of so many rows are kept at once.
pub(crate) const BLOCK: usize = 1024;

// For each row the longest run from it on.
pub(crate) fn runs_of(rows: &[Row], loops: IndexSet) -> [Run; BLOCK]
    requires { length rows.now ≤ 1024 }
    ensures { AreRuns loops rows.now result }
{
    let mut runs = [Run::default(); BLOCK];
    let mut place = rows.len();
    while 0 < place {
        place -= 1;
        let run = run_from(rows, &runs, place, loops);
        runs[place] = run;
    }
    runs
}

// The longest run from a row on, where that from the next one on is known.
fn run_from(rows: &[Row], runs: &[Run], place: usize, loops: IndexSet) -> Run
    requires inside { place < length rows.now }
    requires count { length rows.now ≤ length runs.now }
    requires later { (k : ℕ) (r : own.Run) → place + 1 ≤ k → k < length rows.now →
        IsRun loops rows.now k (slice_index_or runs.now k r) }
    ensures { IsRun loops rows.now place result }
{
    let alone = Run::alone(&rows[place], loops, place);
    if place + 1 == rows.len() {
        return alone;
    }
    alone.and_next(&runs[place + 1])
}
