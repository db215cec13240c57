//! Where a run goes over a slice of words, and the parts of a slice beside the one that is written.
ghost use Rattle.std.specs.Prelude.{ℕ, List, IsTrue, ◌↔◌, ◌≡◌, ◌++◌, ◌+◌, ◌^◌, ◌<◌, ◌≤◌, ◌⊎◌, length, slice_index, slice_range};
ghost use Rattle.tce_words.specs.Runs.{IsBeside};

/// Places of words, each a step after the one before.
#[derive(Clone, Copy)]
pub struct Strided {
    pub first: u64,
    pub step: u64,
}

// The places from the first on, each a step after the one before.
#[derive(Clone, Copy)]
pub(crate) struct Run {
    pub(crate) first: usize,
    pub(crate) step: usize,
}

// The n words from `at` on, where the n from `out` on were split off. The clause names those by `middle`.
pub(crate) fn part<'a>(
    front: &'a [u64],
    back: &'a [u64],
    out: usize,
    at: usize,
    n: usize,
) -> &'a [u64]
    requires front { length front.now ≡ out }
    requires back { at + n ≤ out + n + length back.now }
    requires apart { (at + n ≤ out) ⊎ (out + n ≤ at) }
    ensures { (middle : List ℕ) → length middle ≡ n
        → result.now ≡ slice_range (front.now ++ (middle ++ back.now)) at (at + n) }
{
    if at < out {
        &front[at..at + n]
    } else {
        &back[at - out - n..at - out]
    }
}

// The len words from `at` on, where the n from `out` on were split off. The clause names those by `middle`.
pub(crate) fn stretch<'a>(
    front: &'a [u64],
    back: &'a [u64],
    out: usize,
    n: usize,
    at: usize,
    len: usize,
) -> &'a [u64]
    requires front { length front.now ≡ out }
    requires back { at + len ≤ out + n + length back.now }
    requires some { 0 < len }
    requires beside { IsBeside out n at len }
    ensures { (middle : List ℕ) → length middle ≡ n
        → result.now ≡ slice_range (front.now ++ (middle ++ back.now)) at (at + len) }
{
    if at < out {
        &front[at..at + len]
    } else {
        &back[at - out - n..at - out - n + len]
    }
}

// Whether the len words from `at` on lie beside the n words from `out` on.
pub(crate) fn is_beside(out: usize, n: usize, at: usize, len: usize) -> bool
    requires out { out + n < 2 ^ 64 }
    requires at { at + len < 2 ^ 64 }
    ensures { IsTrue result ↔ IsBeside out n at len }
{
    at + len <= out || out + n <= at
}

// How many words there are.
pub(crate) fn count(words: &[u64]) -> u64
    ensures value { result ≡ length words.now }
    ensures words { (k : ℕ) → slice_index words.now k < 2 ^ 64 }
{
    words.len() as u64
}
