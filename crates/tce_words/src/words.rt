//! A block of words.
ghost use Rattle.std.specs.Prelude.{◌≡◌, ℕ, ◌+◌, ◌/◌, ◌%◌, ◌^◌, ◌<◌, ◌≤◌, length, slice_index, slice_set, replicate, IfOk};
ghost use Rattle.tce_base.specs.Word.{wrapping_sum, word_of_bytes};
ghost use Rattle.tce_words.specs.Load.{IsLoaded, narrow_of, bytes_of};
ghost use Rattle.tce_words.specs.Rows.{AreRowsAdded};
ghost use Rattle.tce_words.specs.Run.{IsWithin, AreApart, IsDistinct, with_part, words_along};
ghost use Rattle.tce_words.specs.Runs.{IsTimes, IsTimesAdded, IsPlus, IsMinus, IsAdded, AreRowsWithin, AreRowsApart, dot_of, grown_at};

mod numbers;

use crate::block::{Base, Deed, Places};
use crate::bytes::{read_narrow, read_words, write_words};
use crate::runs::{Run, Strided, count};
use crate::{products, rows as added, sums};
use std::alloc::{AllocError, Global};
use std::marker::Model;

/// A block of words, seen as the list of them. Its length never changes.
///
/// A run is `n` places, from the first on, each a step after the one before. A step may be 0 for an operand, whose
/// one word then meets each word of the others.
pub struct Words {
    block: Block,
}

// The block with its owners, and the allocator that it goes back to.
struct Block {
    base: Base,
    len: usize,
    places: Places,
    deed: Deed<Global>,
    alloc: Global,
}

impl Model for Words {
    ghost use Rattle.std.specs.Prelude.{ℕ, List};

    ghost Value = { List ℕ };

    ghost use Rattle.tce_words.specs.Whole.{IsWhole};

    ghost view = { λ w. w.block.places.words };

    ghost invariant = { λ w. IsWhole w.block };
}

impl Words {
    ghost use Rattle.std.specs.Borrow.{sem};
    ghost use Rattle.tce_words.specs.WordsLends.{lends_words};

    /// A block of that many words, which are all 0.
    pub(crate) fn zeros(alloc: Global, len: usize) -> Result<Words, AllocError>
        requires { len < 2 ^ 60 }
        ensures { IfOk result (λ w. w ≡ replicate len 0) }
    {
        let (base, mut places, deed) = Deed::allocate(&alloc, len)?;
        for at in 0..len {
            places.push(base, at, 0);
        }
        let block = Block {
            base,
            len,
            places,
            deed,
            alloc,
        };
        Ok(Words { block })
    }

    fn as_slice(&self) -> &[u64]
        ensures { result.now ≡ self.now }
    {
        self.block.places.slice(self.block.base, self.block.len)
    }

    fn as_mut_slice(&mut self) -> &mut [u64]
        ensures* writes_back { sem 𝓛 (lends_words self.entry result) }
        ensures value { result.now ≡ self.old }
    {
        let (base, len) = (self.block.base, self.block.len);
        self.block.places.slice_mut(base, len)
    }

    /// How many words the block has.
    pub fn len(&self) -> u64
        ensures value { result ≡ length self.now }
        ensures limit { length self.now < 2 ^ 60 }
        ensures words { (k : ℕ) → slice_index self.now k < 2 ^ 64 }
    {
        count(self.as_slice())
    }

    /// The word at this place.
    pub fn get(&self, at: u64) -> u64
        requires { at < length self.now }
        ensures { result ≡ slice_index self.now at }
    {
        self.as_slice()[at as usize]
    }

    /// Makes the word at this place `w`.
    pub fn put(&mut self, at: u64, w: u64)
        requires { at < length self.old }
        ensures { self.new ≡ slice_set self.old at w }
    {
        self.as_mut_slice()[at as usize] = w;
    }

    /// Makes the n words from `from` on 0.
    pub fn fill_zero(&mut self, from: u64, n: u64)
        requires { from + n ≤ length self.old }
        ensures { self.new ≡ with_part self.old from (replicate n 0) }
    {
        tce_kernel::clear(&mut self.as_mut_slice()[from as usize..(from + n) as usize]);
    }

    /// Makes the words from `from` on those that stand in the bytes, eight bytes each, the lowest first.
    pub fn load(&mut self, from: u64, bytes: &[u8])
        requires whole { length bytes.now % 8 ≡ 0 }
        requires room { from + length bytes.now / 8 ≤ length self.old }
        ensures { IsLoaded (word_of_bytes 8) 8 from bytes.now self.old self.new }
    {
        let n = bytes.len() / 8;
        let from = from as usize;
        read_words(&mut self.as_mut_slice()[from..from + n], bytes);
    }

    /// Makes the words from `from` on the signed numbers that stand in the bytes, four bytes each, the lowest first.
    pub fn load_narrow(&mut self, from: u64, bytes: &[u8])
        requires whole { length bytes.now % 4 ≡ 0 }
        requires room { from + length bytes.now / 4 ≤ length self.old }
        ensures { IsLoaded narrow_of 4 from bytes.now self.old self.new }
    {
        let n = bytes.len() / 4;
        let from = from as usize;
        read_narrow(&mut self.as_mut_slice()[from..from + n], bytes);
    }

    /// Writes the bytes of the words from `from` on, eight bytes each, the lowest first.
    pub fn store(&self, from: u64, out: &mut [u8])
        requires whole { length out.old % 8 ≡ 0 }
        requires room { from + length out.old / 8 ≤ length self.now }
        ensures { out.new ≡ bytes_of self.now from (length out.old / 8) }
    {
        let n = out.len() / 8;
        let from = from as usize;
        write_words(out, &self.as_slice()[from..from + n]);
    }

    /// Makes the word at each place of the run `out` the product of the words of the runs `a` and `b` there.
    pub fn mul_run(
        &mut self,
        out: u64,
        out_step: u64,
        a: u64,
        a_step: u64,
        b: u64,
        b_step: u64,
        n: u64,
    )
        requires out { IsWithin (length self.old) out out_step n }
        requires a { IsWithin (length self.old) a a_step n }
        requires b { IsWithin (length self.old) b b_step n }
        requires apart_from_a { AreApart out out_step a a_step n }
        requires apart_from_b { AreApart out out_step b b_step n }
        requires distinct { IsDistinct out out_step n }
        ensures { IsTimes out out_step a a_step b b_step n self.old self.new }
    {
        products::mul_run(
            self.as_mut_slice(),
            Run {
                first: out as usize,
                step: out_step as usize,
            },
            Run {
                first: a as usize,
                step: a_step as usize,
            },
            Run {
                first: b as usize,
                step: b_step as usize,
            },
            n as usize,
        );
    }

    /// Adds to the word at each place of the run `out` the product of the words of the runs `a` and `b` there.
    pub fn mul_add_run(
        &mut self,
        out: u64,
        out_step: u64,
        a: u64,
        a_step: u64,
        b: u64,
        b_step: u64,
        n: u64,
    )
        requires out { IsWithin (length self.old) out out_step n }
        requires a { IsWithin (length self.old) a a_step n }
        requires b { IsWithin (length self.old) b b_step n }
        requires apart_from_a { AreApart out out_step a a_step n }
        requires apart_from_b { AreApart out out_step b b_step n }
        requires distinct { IsDistinct out out_step n }
        ensures { IsTimesAdded out out_step a a_step b b_step n self.old self.new }
    {
        products::mul_add_run(
            self.as_mut_slice(),
            Run {
                first: out as usize,
                step: out_step as usize,
            },
            Run {
                first: a as usize,
                step: a_step as usize,
            },
            Run {
                first: b as usize,
                step: b_step as usize,
            },
            n as usize,
        );
    }

    /// Adds to the n words from `out` on the products of so many factors and the words of as many rows, the first row first.
    ///
    /// The factors are the words at the first places of `factors`, the rows the n words from each of the first places of `rows`
    /// on. None of them may lie among the words from `out` on.
    pub fn mul_add_rows(&mut self, out: u64, factors: Strided, rows: Strided, n: u64, count: u64)
        requires out { IsWithin (length self.old) out 1 n }
        requires factors { IsWithin (length self.old) factors.first factors.step count }
        requires rows { AreRowsWithin (length self.old) rows.first rows.step n count }
        requires apart_from_factors { AreRowsApart out factors.first factors.step 0 n count }
        requires apart_from_rows { AreRowsApart out rows.first rows.step 1 n count }
        ensures { AreRowsAdded out factors.first factors.step rows.first rows.step n count
            self.old self.new }
    {
        added::mul_add_rows(
            self.as_mut_slice(),
            out as usize,
            Run {
                first: factors.first as usize,
                step: factors.step as usize,
            },
            Run {
                first: rows.first as usize,
                step: rows.step as usize,
            },
            n as usize,
            count as usize,
        );
    }

    /// Makes the word at each place of the run `out` the sum of the words of the runs `a` and `b` there.
    pub fn plus_run(
        &mut self,
        out: u64,
        out_step: u64,
        a: u64,
        a_step: u64,
        b: u64,
        b_step: u64,
        n: u64,
    )
        requires out { IsWithin (length self.old) out out_step n }
        requires a { IsWithin (length self.old) a a_step n }
        requires b { IsWithin (length self.old) b b_step n }
        requires apart_from_a { AreApart out out_step a a_step n }
        requires apart_from_b { AreApart out out_step b b_step n }
        requires distinct { IsDistinct out out_step n }
        ensures { IsPlus out out_step a a_step b b_step n self.old self.new }
    {
        sums::plus_run(
            self.as_mut_slice(),
            Run {
                first: out as usize,
                step: out_step as usize,
            },
            Run {
                first: a as usize,
                step: a_step as usize,
            },
            Run {
                first: b as usize,
                step: b_step as usize,
            },
            n as usize,
        );
    }

    /// Makes the word at each place of the run `out` the word of the run `a` there less that of `b`.
    pub fn minus_run(
        &mut self,
        out: u64,
        out_step: u64,
        a: u64,
        a_step: u64,
        b: u64,
        b_step: u64,
        n: u64,
    )
        requires out { IsWithin (length self.old) out out_step n }
        requires a { IsWithin (length self.old) a a_step n }
        requires b { IsWithin (length self.old) b b_step n }
        requires apart_from_a { AreApart out out_step a a_step n }
        requires apart_from_b { AreApart out out_step b b_step n }
        requires distinct { IsDistinct out out_step n }
        ensures { IsMinus out out_step a a_step b b_step n self.old self.new }
    {
        sums::minus_run(
            self.as_mut_slice(),
            Run {
                first: out as usize,
                step: out_step as usize,
            },
            Run {
                first: a as usize,
                step: a_step as usize,
            },
            Run {
                first: b as usize,
                step: b_step as usize,
            },
            n as usize,
        );
    }

    /// Adds to the word at each place of the run `out` the word of the run `a` there.
    pub fn add_run(&mut self, out: u64, out_step: u64, a: u64, a_step: u64, n: u64)
        requires out { IsWithin (length self.old) out out_step n }
        requires a { IsWithin (length self.old) a a_step n }
        requires apart { AreApart out out_step a a_step n }
        requires distinct { IsDistinct out out_step n }
        ensures { IsAdded out out_step a a_step n self.old self.new }
    {
        sums::add_run(
            self.as_mut_slice(),
            Run {
                first: out as usize,
                step: out_step as usize,
            },
            Run {
                first: a as usize,
                step: a_step as usize,
            },
            n as usize,
        );
    }

    /// Adds to the word at `out` the sum of the products along the runs `a` and `b`.
    pub fn dot_run(&mut self, out: u64, a: u64, a_step: u64, b: u64, b_step: u64, n: u64)
        requires out { out < length self.old }
        requires a { IsWithin (length self.old) a a_step n }
        requires b { IsWithin (length self.old) b b_step n }
        ensures { self.new ≡ grown_at self.old out (dot_of self.old a a_step b b_step n) }
    {
        let total = products::dot_run(
            self.as_slice(),
            Run {
                first: a as usize,
                step: a_step as usize,
            },
            Run {
                first: b as usize,
                step: b_step as usize,
            },
            n as usize,
        );
        self.put(out, self.get(out).wrapping_add(total));
    }

    /// Adds to the word at `out` the sum of the words along the run `a`.
    pub fn sum_run(&mut self, out: u64, a: u64, a_step: u64, n: u64)
        requires out { out < length self.old }
        requires a { IsWithin (length self.old) a a_step n }
        ensures { self.new ≡ grown_at self.old out
            (wrapping_sum (words_along self.old a a_step n)) }
    {
        let along = Run {
            first: a as usize,
            step: a_step as usize,
        };
        let total = sums::sum_run(self.as_slice(), along, n as usize);
        self.put(out, self.get(out).wrapping_add(total));
    }
}

impl Drop for Words {
    fn drop(self) {
        let Words { block } = self;
        let Block {
            base,
            len,
            places,
            deed,
            alloc,
        } = block;
        Deed::deallocate(&alloc, base, len, places, deed);
    }
}
