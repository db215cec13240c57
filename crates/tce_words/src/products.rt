//! Runs of products.
ghost use Rattle.std.specs.Prelude.{◌≡◌, ◌+◌, ◌≤◌, ◌⊎◌, map, length};
ghost use Rattle.std.specs.Simd.Lanes.{zip2};
ghost use Rattle.tce_base.specs.Word.{wrapping_add, wrapping_mul};
ghost use Rattle.tce_words.specs.Rows.{row_of};
ghost use Rattle.tce_words.specs.Run.{IsWithin, AreApart, IsDistinct, with_part};
ghost use Rattle.tce_words.specs.Runs.{IsTimes, IsTimesAdded, dot_of};

use crate::runs::{Run, part};
use tce_kernel::{dot, mul_add_sv, mul_add_vv, mul_sv, mul_vv, sum};

fn mul_strided(words: &mut [u64], out: Run, a: Run, b: Run, n: usize)
    requires out { IsWithin (length words.old) out.first out.step n }
    requires a { IsWithin (length words.old) a.first a.step n }
    requires b { IsWithin (length words.old) b.first b.step n }
    requires apart_from_a { AreApart out.first out.step a.first a.step n }
    requires apart_from_b { AreApart out.first out.step b.first b.step n }
    requires distinct { IsDistinct out.first out.step n }
    ensures { IsTimes out.first out.step a.first a.step b.first b.step n words.old words.new }
{
    for t in 0..n {
        words[out.first + t * out.step] = words[a.first + t * a.step].wrapping_mul(
            words[b.first + t * b.step],
        );
    }
}

fn mul_contiguous(words: &mut [u64], out: usize, a: usize, b: usize, n: usize)
    requires out { out + n ≤ length words.old }
    requires a { a + n ≤ length words.old }
    requires b { b + n ≤ length words.old }
    requires apart_from_a { (a + n ≤ out) ⊎ (out + n ≤ a) }
    requires apart_from_b { (b + n ≤ out) ⊎ (out + n ≤ b) }
    ensures { words.new ≡ with_part words.old out
        (zip2 wrapping_mul (row_of words.old a n) (row_of words.old b n)) }
{
    let (front, rest) = words.split_at_mut(out);
    let (target, back) = rest.split_at_mut(n);
    let a_words = part(front, back, out, a, n);
    let b_words = part(front, back, out, b, n);
    mul_vv(target, a_words, b_words);
}

pub(crate) fn mul_scaled(words: &mut [u64], out: usize, factor: u64, b: usize, n: usize)
    requires out { out + n ≤ length words.old }
    requires b { b + n ≤ length words.old }
    requires apart { (b + n ≤ out) ⊎ (out + n ≤ b) }
    ensures { words.new ≡ with_part words.old out
        (map (wrapping_mul factor) (row_of words.old b n)) }
{
    let (front, rest) = words.split_at_mut(out);
    let (target, back) = rest.split_at_mut(n);
    mul_sv(target, factor, part(front, back, out, b, n));
}

// Each word of the run out becomes the product of the words of the other two.
pub(crate) fn mul_run(words: &mut [u64], out: Run, a: Run, b: Run, n: usize)
    requires out { IsWithin (length words.old) out.first out.step n }
    requires a { IsWithin (length words.old) a.first a.step n }
    requires b { IsWithin (length words.old) b.first b.step n }
    requires apart_from_a { AreApart out.first out.step a.first a.step n }
    requires apart_from_b { AreApart out.first out.step b.first b.step n }
    requires distinct { IsDistinct out.first out.step n }
    ensures { IsTimes out.first out.step a.first a.step b.first b.step n words.old words.new }
{
    if n == 0 {
        return;
    }
    match (out.step, a.step, b.step) {
        (1, 1, 1) => mul_contiguous(words, out.first, a.first, b.first, n),
        (1, 0, 1) => {
            let factor = words[a.first];
            mul_scaled(words, out.first, factor, b.first, n);
        }
        (1, 1, 0) => {
            let factor = words[b.first];
            mul_scaled(words, out.first, factor, a.first, n);
        }
        _ => mul_strided(words, out, a, b, n),
    }
}

fn mul_add_strided(words: &mut [u64], out: Run, a: Run, b: Run, n: usize)
    requires out { IsWithin (length words.old) out.first out.step n }
    requires a { IsWithin (length words.old) a.first a.step n }
    requires b { IsWithin (length words.old) b.first b.step n }
    requires apart_from_a { AreApart out.first out.step a.first a.step n }
    requires apart_from_b { AreApart out.first out.step b.first b.step n }
    requires distinct { IsDistinct out.first out.step n }
    ensures { IsTimesAdded out.first out.step a.first a.step b.first b.step n words.old words.new }
{
    for t in 0..n {
        let product = words[a.first + t * a.step].wrapping_mul(words[b.first + t * b.step]);
        words[out.first + t * out.step] = words[out.first + t * out.step].wrapping_add(product);
    }
}

fn mul_add_contiguous(words: &mut [u64], out: usize, a: usize, b: usize, n: usize)
    requires out { out + n ≤ length words.old }
    requires a { a + n ≤ length words.old }
    requires b { b + n ≤ length words.old }
    requires apart_from_a { (a + n ≤ out) ⊎ (out + n ≤ a) }
    requires apart_from_b { (b + n ≤ out) ⊎ (out + n ≤ b) }
    ensures { words.new ≡ with_part words.old out
        (zip2 wrapping_add (row_of words.old out n) (zip2 wrapping_mul (row_of words.old a n) (row_of words.old b n))) }
{
    let (front, rest) = words.split_at_mut(out);
    let (target, back) = rest.split_at_mut(n);
    let a_words = part(front, back, out, a, n);
    let b_words = part(front, back, out, b, n);
    mul_add_vv(target, a_words, b_words);
}

fn mul_add_scaled(words: &mut [u64], out: usize, factor: u64, b: usize, n: usize)
    requires out { out + n ≤ length words.old }
    requires b { b + n ≤ length words.old }
    requires apart { (b + n ≤ out) ⊎ (out + n ≤ b) }
    ensures { words.new ≡ with_part words.old out
        (zip2 wrapping_add (row_of words.old out n) (map (wrapping_mul factor) (row_of words.old b n))) }
{
    let (front, rest) = words.split_at_mut(out);
    let (target, back) = rest.split_at_mut(n);
    mul_add_sv(target, factor, part(front, back, out, b, n));
}

// Each word of the run out grows by the product of the words of the other two.
pub(crate) fn mul_add_run(words: &mut [u64], out: Run, a: Run, b: Run, n: usize)
    requires out { IsWithin (length words.old) out.first out.step n }
    requires a { IsWithin (length words.old) a.first a.step n }
    requires b { IsWithin (length words.old) b.first b.step n }
    requires apart_from_a { AreApart out.first out.step a.first a.step n }
    requires apart_from_b { AreApart out.first out.step b.first b.step n }
    requires distinct { IsDistinct out.first out.step n }
    ensures { IsTimesAdded out.first out.step a.first a.step b.first b.step n words.old words.new }
{
    if n == 0 {
        return;
    }
    match (out.step, a.step, b.step) {
        (1, 1, 1) => mul_add_contiguous(words, out.first, a.first, b.first, n),
        (1, 0, 1) => {
            let factor = words[a.first];
            mul_add_scaled(words, out.first, factor, b.first, n);
        }
        (1, 1, 0) => {
            let factor = words[b.first];
            mul_add_scaled(words, out.first, factor, a.first, n);
        }
        _ => mul_add_strided(words, out, a, b, n),
    }
}

fn dot_strided(words: &[u64], a: Run, b: Run, n: usize) -> u64
    requires a { IsWithin (length words.now) a.first a.step n }
    requires b { IsWithin (length words.now) b.first b.step n }
    ensures { result ≡ dot_of words.now a.first a.step b.first b.step n }
{
    let mut total: u64 = 0;
    for t in 0..n {
        let product = words[a.first + t * a.step].wrapping_mul(words[b.first + t * b.step]);
        total = total.wrapping_add(product);
    }
    total
}

// The sum of the products along the two runs.
pub(crate) fn dot_run(words: &[u64], a: Run, b: Run, n: usize) -> u64
    requires a { IsWithin (length words.now) a.first a.step n }
    requires b { IsWithin (length words.now) b.first b.step n }
    ensures { result ≡ dot_of words.now a.first a.step b.first b.step n }
{
    if n == 0 {
        return 0;
    }
    match (a.step, b.step) {
        (1, 1) => dot(&words[a.first..a.first + n], &words[b.first..b.first + n]),
        (0, 1) => words[a.first].wrapping_mul(sum(&words[b.first..b.first + n])),
        (1, 0) => words[b.first].wrapping_mul(sum(&words[a.first..a.first + n])),
        _ => dot_strided(words, a, b, n),
    }
}
