//! Rows of products that are added to a run of words.
ghost use Rattle.std.specs.Prelude.{◌≡◌, ℕ, ◌+◌, ◌*◌, ◌^◌, ◌<◌, ◌≤◌, length};
ghost use Rattle.tce_words.specs.Added.{reach, rows_added};
ghost use Rattle.tce_words.specs.Rows.{AreRowsAdded};
ghost use Rattle.tce_words.specs.Run.{IsWithin, with_part};
ghost use Rattle.tce_words.specs.Runs.{AreRowsWithin, AreRowsApart, IsBeside};

use crate::products::mul_add_run;
use crate::runs::{Run, is_beside, stretch};

// The run, where all factors and all rows lie beside the words from `out` on.
fn mul_add_beside(words: &mut [u64], out: usize, factors: Run, rows: Run, n: usize, count: usize)
    requires some { 0 < n }
    requires more { 0 < count }
    requires out { out + n ≤ length words.old }
    requires factors { factors.first + reach factors.step count 1 ≤ length words.old }
    requires rows { rows.first + reach rows.step count n ≤ length words.old }
    requires beside_factors { IsBeside out n factors.first (reach factors.step count 1) }
    requires beside_rows { IsBeside out n rows.first (reach rows.step count n) }
    ensures { words.new ≡ with_part words.old out
        (rows_added words.old out factors.first factors.step rows.first rows.step n count) }
{
    let last = count - 1;
    let (front, rest) = words.split_at_mut(out);
    let (target, back) = rest.split_at_mut(n);
    let scales = stretch(front, back, out, n, factors.first, last * factors.step + 1);
    let scaled = stretch(front, back, out, n, rows.first, last * rows.step + n);
    tce_kernel::mul_add_rows(target, scales, factors.step, scaled, rows.step, count);
}

// The rows one by one.
fn mul_add_each(words: &mut [u64], out: usize, factors: Run, rows: Run, n: usize, count: usize)
    requires some { 0 < n }
    requires out { IsWithin (length words.old) out 1 n }
    requires factors { IsWithin (length words.old) factors.first factors.step count }
    requires rows { AreRowsWithin (length words.old) rows.first rows.step n count }
    requires apart_from_factors { AreRowsApart out factors.first factors.step 0 n count }
    requires apart_from_rows { AreRowsApart out rows.first rows.step 1 n count }
    ensures { AreRowsAdded out factors.first factors.step rows.first rows.step n count
        words.old words.new }
{
    for k in 0..count {
        let factor = Run {
            first: factors.first + k * factors.step,
            step: 0,
        };
        let row = Run {
            first: rows.first + k * rows.step,
            step: 1,
        };
        mul_add_run(
            words,
            Run {
                first: out,
                step: 1,
            },
            factor,
            row,
            n,
        );
    }
}

// The n words from `out` on grow by the products of the words of so many rows and their factors.
pub(crate) fn mul_add_rows(
    words: &mut [u64],
    out: usize,
    factors: Run,
    rows: Run,
    n: usize,
    count: usize,
)
    requires limit { length words.old < 2 ^ 60 }
    requires out { IsWithin (length words.old) out 1 n }
    requires factors { IsWithin (length words.old) factors.first factors.step count }
    requires rows { AreRowsWithin (length words.old) rows.first rows.step n count }
    requires apart_from_factors { AreRowsApart out factors.first factors.step 0 n count }
    requires apart_from_rows { AreRowsApart out rows.first rows.step 1 n count }
    ensures { AreRowsAdded out factors.first factors.step rows.first rows.step n count
        words.old words.new }
{
    if n == 0 || count == 0 {
        return;
    }
    let last = count - 1;
    if is_beside(out, n, factors.first, last * factors.step + 1)
        && is_beside(out, n, rows.first, last * rows.step + n)
    {
        mul_add_beside(words, out, factors, rows, n, count);
    } else {
        mul_add_each(words, out, factors, rows, n, count);
    }
}
