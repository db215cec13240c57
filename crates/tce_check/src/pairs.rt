// Whether no two of many rows without conflict have a sum below a total, told without looking at all pairs.
ghost use Rattle.std.specs.Prelude.{◌≤◌, length, IsTrue};
ghost use Rattle.tce_check.specs.Kept.{StayKept};
ghost use Rattle.tce_check.specs.Pairs.{AreSettled};

use crate::kept::{least_cost, sift};
use tce_nesting::Row;
use tce_space::{IndexSet, MAX_INDEXES};

// The rows of two operands, and the total that the sums are not to be below.
#[derive(Clone, Copy)]
pub(crate) struct Pairs<'a> {
    pub(crate) lefts: &'a [Row],
    pub(crate) rights: &'a [Row],
    pub(crate) total: u128,
    // What a row costs at least that has no sum below the total.
    pub(crate) left_limit: u128,
    pub(crate) right_limit: u128,
}

impl<'a> Pairs<'a> {
    // Whether no two rows at the first places have a sum below the total and no conflict on the rest of the loops.
    //
    // Two rows without conflict share a loop above which neither puts another, so it is enough to look at those that share it, for each loop.
    pub(crate) fn settles(
        &self,
        rest: IndexSet,
        lefts: &mut [u32],
        left_count: usize,
        rights: &mut [u32],
        right_count: usize,
    ) -> bool
        requires lefts { left_count ≤ length lefts.old }
        requires rights { right_count ≤ length rights.old }
        ensures left { StayKept left_count lefts.old lefts.new }
        ensures right { StayKept right_count rights.old rights.new }
        ensures settled { IsTrue result → AreSettled self.now rest lefts.old left_count rights.old
            right_count }
    {
        let _bits = rest.bits();
        let left = least_cost(self.lefts, lefts, left_count);
        let least = left.saturating_add(least_cost(self.rights, rights, right_count));
        if self.total <= least {
            return true;
        }
        for index in 0..MAX_INDEXES as u8 {
            if rest.has(index) {
                let some = sift(self.lefts, lefts, left_count, rest, index);
                let others = sift(self.rights, rights, right_count, rest, index);
                let later = rest.minus(IndexSet::empty().with(index));
                if !self.settles(later, lefts, some, rights, others) {
                    return false;
                }
                if some == left_count && others == right_count {
                    return true;
                }
            }
        }
        !rest.within(IndexSet::empty())
    }
}
