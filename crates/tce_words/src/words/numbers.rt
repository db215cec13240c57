// Words made of a number and of other words.
ghost use Rattle.std.specs.Prelude.{◌≡◌, ◌+◌, ◌≤◌, length};
ghost use Rattle.tce_base.specs.Word.{wrapping_add, wrapping_mul, wrapping_sub};
ghost use Rattle.tce_words.specs.Runs.{IsBeside, IsMapped};

use super::Words;
use crate::{products, sums};

impl Words {
    /// Makes the n words from `out` on the products of a number and the n words from `a` on.
    pub fn mul_number(&mut self, out: u64, number: u64, a: u64, n: u64)
        requires out { out + n ≤ length self.old }
        requires a { a + n ≤ length self.old }
        requires beside { IsBeside out n a n }
        ensures { IsMapped (wrapping_mul number) out a n self.old self.new }
    {
        let words = self.as_mut_slice();
        products::mul_scaled(words, out as usize, number, a as usize, n as usize);
    }

    /// Makes the n words from `out` on the sums of a number and the n words from `a` on.
    pub fn plus_number(&mut self, out: u64, number: u64, a: u64, n: u64)
        requires out { out + n ≤ length self.old }
        requires a { a + n ≤ length self.old }
        requires beside { IsBeside out n a n }
        ensures { IsMapped (wrapping_add number) out a n self.old self.new }
    {
        let words = self.as_mut_slice();
        sums::plus_one(words, out as usize, number, a as usize, n as usize);
    }

    /// Makes the n words from `out` on a number less the n words from `a` on.
    pub fn number_minus(&mut self, out: u64, number: u64, a: u64, n: u64)
        requires out { out + n ≤ length self.old }
        requires a { a + n ≤ length self.old }
        requires beside { IsBeside out n a n }
        ensures { IsMapped (wrapping_sub number) out a n self.old self.new }
    {
        let words = self.as_mut_slice();
        sums::one_minus(words, out as usize, number, a as usize, n as usize);
    }

    /// Makes the n words from `out` on the n words from `a` on, less a number.
    pub fn minus_number(&mut self, out: u64, a: u64, number: u64, n: u64)
        requires out { out + n ≤ length self.old }
        requires a { a + n ≤ length self.old }
        requires beside { IsBeside out n a n }
        ensures { IsMapped (λ x. wrapping_sub x number) out a n self.old self.new }
    {
        let words = self.as_mut_slice();
        sums::minus_one(words, out as usize, a as usize, number, n as usize);
    }
}
