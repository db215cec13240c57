//! Rows of products that are added to a run of words, which stays in registers over all rows.
//!
//! The factors are words of a slice, and the rows begin at words of another, each a step after the one before.
ghost use Rattle.std.specs.Prelude.{◌≡◌, ◌∷◌, []};
ghost use Rattle.tce_kernel.specs.Scaled.{AreFactorsWithin, AreRowsWithin, with_rows};
ghost use Rattle.std.specs.Prelude.{length};

use crate::LANES;
use std::simd::prelude::*;

// So many blocks of lanes are held at once: with their factor and the words of a row they fill sixteen registers of four words.
const WIDE: usize = 4 * LANES;

// The words of a wide block.
fn grow_wide(
    out: &mut [u64],
    factors: &[u64],
    factor_step: usize,
    rows: &[u64],
    row_step: usize,
    count: usize,
)
    requires wide { length out.old ≡ 32 }
    requires factors { AreFactorsWithin (length factors.now) factor_step count }
    requires rows { AreRowsWithin (length rows.now) row_step count 32 }
    ensures { out.new ≡ with_rows out.old factors.now factor_step rows.now row_step count }
{
    let mut a = u64x8::from_slice(out);
    let mut b = u64x8::from_slice(&out[LANES..]);
    let mut c = u64x8::from_slice(&out[2 * LANES..]);
    let mut d = u64x8::from_slice(&out[3 * LANES..]);
    for k in 0..count {
        let factor = u64x8::splat(factors[k * factor_step]);
        let row = k * row_step;
        a += factor * u64x8::from_slice(&rows[row..]);
        b += factor * u64x8::from_slice(&rows[row + LANES..]);
        c += factor * u64x8::from_slice(&rows[row + 2 * LANES..]);
        d += factor * u64x8::from_slice(&rows[row + 3 * LANES..]);
    }
    a.copy_to_slice(out);
    b.copy_to_slice(&mut out[LANES..]);
    c.copy_to_slice(&mut out[2 * LANES..]);
    d.copy_to_slice(&mut out[3 * LANES..]);
}

// The words of one block of lanes.
fn grow_lanes(
    out: &mut [u64],
    factors: &[u64],
    factor_step: usize,
    rows: &[u64],
    row_step: usize,
    count: usize,
)
    requires lanes { length out.old ≡ 8 }
    requires factors { AreFactorsWithin (length factors.now) factor_step count }
    requires rows { AreRowsWithin (length rows.now) row_step count 8 }
    ensures { out.new ≡ with_rows out.old factors.now factor_step rows.now row_step count }
{
    let mut lanes = u64x8::from_slice(out);
    for k in 0..count {
        lanes += u64x8::splat(factors[k * factor_step]) * u64x8::from_slice(&rows[k * row_step..]);
    }
    lanes.copy_to_slice(out);
}

// One word.
fn grown(
    word: u64,
    factors: &[u64],
    factor_step: usize,
    rows: &[u64],
    row_step: usize,
    count: usize,
) -> u64
    requires factors { AreFactorsWithin (length factors.now) factor_step count }
    requires rows { AreRowsWithin (length rows.now) row_step count 1 }
    ensures { result ∷ [] ≡ with_rows (word ∷ []) factors.now factor_step rows.now row_step count }
{
    let mut total = word;
    for k in 0..count {
        total = total.wrapping_add(factors[k * factor_step].wrapping_mul(rows[k * row_step]));
    }
    total
}

/// Adds to each word of `out` the products of so many factors and the words at its place of as many rows. Each factor and each
/// row's first word is a step after the one before, in `factors` and `rows`.
pub fn mul_add_rows(
    out: &mut [u64],
    factors: &[u64],
    factor_step: usize,
    rows: &[u64],
    row_step: usize,
    count: usize,
)
    requires factors { AreFactorsWithin (length factors.now) factor_step count }
    requires rows { AreRowsWithin (length rows.now) row_step count (length out.old) }
    ensures { out.new ≡ with_rows out.old factors.now factor_step rows.now row_step count }
{
    if count == 0 {
        return;
    }
    let wide = out.len() / WIDE;
    for block in 0..wide {
        let at = WIDE * block;
        grow_wide(
            &mut out[at..at + WIDE],
            factors,
            factor_step,
            &rows[at..],
            row_step,
            count,
        );
    }
    for block in 4 * wide..out.len() / LANES {
        let at = LANES * block;
        grow_lanes(
            &mut out[at..at + LANES],
            factors,
            factor_step,
            &rows[at..],
            row_step,
            count,
        );
    }
    for at in LANES * (out.len() / LANES)..out.len() {
        out[at] = grown(out[at], factors, factor_step, &rows[at..], row_step, count);
    }
}
