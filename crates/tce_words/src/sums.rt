//! Runs of sums and differences.
ghost use Rattle.std.specs.Prelude.{◌≡◌, ◌+◌, ◌≤◌, ◌⊎◌, map, length};
ghost use Rattle.std.specs.Simd.Lanes.{zip2};
ghost use Rattle.tce_base.specs.Word.{wrapping_add, wrapping_sub, wrapping_sum};
ghost use Rattle.tce_words.specs.Rows.{row_of};
ghost use Rattle.tce_words.specs.Run.{IsWithin, AreApart, IsDistinct, with_part, words_along};
ghost use Rattle.tce_words.specs.Runs.{IsPlus, IsMinus, IsAdded};

use crate::runs::{Run, part};
use tce_kernel::{add_vv, minus_sv, minus_vs, minus_vv, plus_sv, plus_vv, sum};

fn plus_strided(words: &mut [u64], out: Run, a: Run, b: Run, n: usize)
    requires out { IsWithin (length words.old) out.first out.step n }
    requires a { IsWithin (length words.old) a.first a.step n }
    requires b { IsWithin (length words.old) b.first b.step n }
    requires apart_from_a { AreApart out.first out.step a.first a.step n }
    requires apart_from_b { AreApart out.first out.step b.first b.step n }
    requires distinct { IsDistinct out.first out.step n }
    ensures { IsPlus out.first out.step a.first a.step b.first b.step n words.old words.new }
{
    for t in 0..n {
        words[out.first + t * out.step] = words[a.first + t * a.step].wrapping_add(
            words[b.first + t * b.step],
        );
    }
}

fn plus_contiguous(words: &mut [u64], out: usize, a: usize, b: usize, n: usize)
    requires out { out + n ≤ length words.old }
    requires a { a + n ≤ length words.old }
    requires b { b + n ≤ length words.old }
    requires apart_from_a { (a + n ≤ out) ⊎ (out + n ≤ a) }
    requires apart_from_b { (b + n ≤ out) ⊎ (out + n ≤ b) }
    ensures { words.new ≡ with_part words.old out
        (zip2 wrapping_add (row_of words.old a n) (row_of words.old b n)) }
{
    let (front, rest) = words.split_at_mut(out);
    let (target, back) = rest.split_at_mut(n);
    let a_words = part(front, back, out, a, n);
    let b_words = part(front, back, out, b, n);
    plus_vv(target, a_words, b_words);
}

pub(crate) fn plus_one(words: &mut [u64], out: usize, summand: u64, b: usize, n: usize)
    requires out { out + n ≤ length words.old }
    requires b { b + n ≤ length words.old }
    requires apart { (b + n ≤ out) ⊎ (out + n ≤ b) }
    ensures { words.new ≡ with_part words.old out
        (map (wrapping_add summand) (row_of words.old b n)) }
{
    let (front, rest) = words.split_at_mut(out);
    let (target, back) = rest.split_at_mut(n);
    plus_sv(target, summand, part(front, back, out, b, n));
}

// Each word of the run out becomes the sum of the words of the other two.
pub(crate) fn plus_run(words: &mut [u64], out: Run, a: Run, b: Run, n: usize)
    requires out { IsWithin (length words.old) out.first out.step n }
    requires a { IsWithin (length words.old) a.first a.step n }
    requires b { IsWithin (length words.old) b.first b.step n }
    requires apart_from_a { AreApart out.first out.step a.first a.step n }
    requires apart_from_b { AreApart out.first out.step b.first b.step n }
    requires distinct { IsDistinct out.first out.step n }
    ensures { IsPlus out.first out.step a.first a.step b.first b.step n words.old words.new }
{
    if n == 0 {
        return;
    }
    match (out.step, a.step, b.step) {
        (1, 1, 1) => plus_contiguous(words, out.first, a.first, b.first, n),
        (1, 0, 1) => {
            let summand = words[a.first];
            plus_one(words, out.first, summand, b.first, n);
        }
        (1, 1, 0) => {
            let summand = words[b.first];
            plus_one(words, out.first, summand, a.first, n);
        }
        _ => plus_strided(words, out, a, b, n),
    }
}

fn minus_strided(words: &mut [u64], out: Run, a: Run, b: Run, n: usize)
    requires out { IsWithin (length words.old) out.first out.step n }
    requires a { IsWithin (length words.old) a.first a.step n }
    requires b { IsWithin (length words.old) b.first b.step n }
    requires apart_from_a { AreApart out.first out.step a.first a.step n }
    requires apart_from_b { AreApart out.first out.step b.first b.step n }
    requires distinct { IsDistinct out.first out.step n }
    ensures { IsMinus out.first out.step a.first a.step b.first b.step n words.old words.new }
{
    for t in 0..n {
        words[out.first + t * out.step] = words[a.first + t * a.step].wrapping_sub(
            words[b.first + t * b.step],
        );
    }
}

fn minus_contiguous(words: &mut [u64], out: usize, a: usize, b: usize, n: usize)
    requires out { out + n ≤ length words.old }
    requires a { a + n ≤ length words.old }
    requires b { b + n ≤ length words.old }
    requires apart_from_a { (a + n ≤ out) ⊎ (out + n ≤ a) }
    requires apart_from_b { (b + n ≤ out) ⊎ (out + n ≤ b) }
    ensures { words.new ≡ with_part words.old out
        (zip2 wrapping_sub (row_of words.old a n) (row_of words.old b n)) }
{
    let (front, rest) = words.split_at_mut(out);
    let (target, back) = rest.split_at_mut(n);
    let a_words = part(front, back, out, a, n);
    let b_words = part(front, back, out, b, n);
    minus_vv(target, a_words, b_words);
}

pub(crate) fn one_minus(words: &mut [u64], out: usize, minuend: u64, b: usize, n: usize)
    requires out { out + n ≤ length words.old }
    requires b { b + n ≤ length words.old }
    requires apart { (b + n ≤ out) ⊎ (out + n ≤ b) }
    ensures { words.new ≡ with_part words.old out
        (map (wrapping_sub minuend) (row_of words.old b n)) }
{
    let (front, rest) = words.split_at_mut(out);
    let (target, back) = rest.split_at_mut(n);
    minus_sv(target, minuend, part(front, back, out, b, n));
}

pub(crate) fn minus_one(words: &mut [u64], out: usize, a: usize, subtrahend: u64, n: usize)
    requires out { out + n ≤ length words.old }
    requires a { a + n ≤ length words.old }
    requires apart { (a + n ≤ out) ⊎ (out + n ≤ a) }
    ensures { words.new ≡ with_part words.old out
        (map (λ x. wrapping_sub x subtrahend) (row_of words.old a n)) }
{
    let (front, rest) = words.split_at_mut(out);
    let (target, back) = rest.split_at_mut(n);
    minus_vs(target, part(front, back, out, a, n), subtrahend);
}

// Each word of the run out becomes the word of a less that of b.
pub(crate) fn minus_run(words: &mut [u64], out: Run, a: Run, b: Run, n: usize)
    requires out { IsWithin (length words.old) out.first out.step n }
    requires a { IsWithin (length words.old) a.first a.step n }
    requires b { IsWithin (length words.old) b.first b.step n }
    requires apart_from_a { AreApart out.first out.step a.first a.step n }
    requires apart_from_b { AreApart out.first out.step b.first b.step n }
    requires distinct { IsDistinct out.first out.step n }
    ensures { IsMinus out.first out.step a.first a.step b.first b.step n words.old words.new }
{
    if n == 0 {
        return;
    }
    match (out.step, a.step, b.step) {
        (1, 1, 1) => minus_contiguous(words, out.first, a.first, b.first, n),
        (1, 0, 1) => {
            let minuend = words[a.first];
            one_minus(words, out.first, minuend, b.first, n);
        }
        (1, 1, 0) => {
            let subtrahend = words[b.first];
            minus_one(words, out.first, a.first, subtrahend, n);
        }
        _ => minus_strided(words, out, a, b, n),
    }
}

fn add_strided(words: &mut [u64], out: Run, a: Run, n: usize)
    requires out { IsWithin (length words.old) out.first out.step n }
    requires a { IsWithin (length words.old) a.first a.step n }
    requires apart { AreApart out.first out.step a.first a.step n }
    requires distinct { IsDistinct out.first out.step n }
    ensures { IsAdded out.first out.step a.first a.step n words.old words.new }
{
    for t in 0..n {
        words[out.first + t * out.step] = words[out.first + t * out.step].wrapping_add(
            words[a.first + t * a.step],
        );
    }
}

fn add_contiguous(words: &mut [u64], out: usize, a: usize, n: usize)
    requires out { out + n ≤ length words.old }
    requires a { a + n ≤ length words.old }
    requires apart { (a + n ≤ out) ⊎ (out + n ≤ a) }
    ensures { words.new ≡ with_part words.old out
        (zip2 wrapping_add (row_of words.old out n) (row_of words.old a n)) }
{
    let (front, rest) = words.split_at_mut(out);
    let (target, back) = rest.split_at_mut(n);
    add_vv(target, part(front, back, out, a, n));
}

// Each word of the run out grows by the word of the other.
pub(crate) fn add_run(words: &mut [u64], out: Run, a: Run, n: usize)
    requires out { IsWithin (length words.old) out.first out.step n }
    requires a { IsWithin (length words.old) a.first a.step n }
    requires apart { AreApart out.first out.step a.first a.step n }
    requires distinct { IsDistinct out.first out.step n }
    ensures { IsAdded out.first out.step a.first a.step n words.old words.new }
{
    if n == 0 {
        return;
    }
    match (out.step, a.step) {
        (1, 1) => add_contiguous(words, out.first, a.first, n),
        _ => add_strided(words, out, a, n),
    }
}

fn sum_strided(words: &[u64], a: Run, n: usize) -> u64
    requires { IsWithin (length words.now) a.first a.step n }
    ensures { result ≡ wrapping_sum (words_along words.now a.first a.step n) }
{
    let mut total: u64 = 0;
    for t in 0..n {
        total = total.wrapping_add(words[a.first + t * a.step]);
    }
    total
}

// The sum of the words along the run.
pub(crate) fn sum_run(words: &[u64], a: Run, n: usize) -> u64
    requires { IsWithin (length words.now) a.first a.step n }
    ensures { result ≡ wrapping_sum (words_along words.now a.first a.step n) }
{
    if n == 0 {
        return 0;
    }
    if a.step == 1 {
        sum(&words[a.first..a.first + n])
    } else {
        sum_strided(words, a, n)
    }
}
