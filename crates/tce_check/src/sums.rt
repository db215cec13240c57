// Whether no sum of many rows is below a total, branch by branch.
ghost use Rattle.std.specs.Prelude.{◌≤◌, ◌+◌, length, IsTrue, All};
ghost use Rattle.tce_space.specs.IndexSet.{count};
ghost use Rattle.tce_fusion.specs.Relation.{HasNoConflict};
ghost use Rattle.tce_fusion.specs.Row.{rows_joined};
ghost use Rattle.tce_check.specs.Kept.{StayKept};
ghost use Rattle.tce_check.specs.Pairs.{AreLimits, SettlesKept, SettlesRows};

use crate::branch::Branch;
use crate::gather::{ROOM, gather};
use crate::pairs::Pairs;
use arrayvec::ArrayVec;
use tce_nesting::Row;
use tce_space::{IndexSet, MAX_INDEXES};

// So many loops that are left are not parted any further, since few rows put them above each other in different ways.
const NARROW: u8 = 7;

impl<'a> Pairs<'a> {
    // Whether no sum of a kept left row and a right one is below the total.
    fn settles_with(
        &self,
        branch: &Branch,
        lefts: &mut [u32],
        count: usize,
        rights: &mut [u32],
    ) -> bool
        requires limits { AreLimits self.now }
        requires lefts { count ≤ length lefts.old }
        ensures left { StayKept count lefts.old lefts.new }
        ensures settled { IsTrue result → SettlesKept self.now branch.now lefts.old count
            (length self.now.rights.now) }
    {
        if count == 0 {
            return true;
        }
        let mut at = 0;
        while at < self.rights.len() {
            let (few, next) = gather(self.rights, at, branch, self.right_limit, rights);
            if next <= at || !self.settles(branch.rest, lefts, count, rights, few) {
                return false;
            }
            at = next;
        }
        true
    }

    // Whether no sum of two rows that pass is below the total. Where there is no room for the left ones, they are parted by the loop that comes next.
    #[cycle(branches)]
    fn settles_branch(&self, branch: &Branch, lefts: &mut [u32], rights: &mut [u32]) -> bool
        requires { AreLimits self.now }
        ensures { IsTrue result → SettlesRows self.now branch.now (length self.now.lefts.now) }
    {
        let mut at = 0;
        while at < self.lefts.len() {
            let (few, next) = gather(self.lefts, at, branch, self.left_limit, lefts);
            if next < self.lefts.len() && NARROW < branch.rest.count() {
                return self.settles_branches(branch, lefts, rights);
            }
            if next <= at || !self.settles_with(branch, lefts, few, rights) {
                return false;
            }
            at = next;
        }
        true
    }

    // The same, by the loop that comes next.
    #[cycle(branches)]
    fn settles_branches(&self, branch: &Branch, lefts: &mut [u32], rights: &mut [u32]) -> bool
        requires { AreLimits self.now }
        ensures { IsTrue result → SettlesRows self.now branch.now (length self.now.lefts.now) }
    {
        let _bits = branch.rest.bits();
        for index in 0..MAX_INDEXES as u8 {
            if branch.rest.has(index) {
                let Some(next) = branch.after(index) else {
                    return false;
                };
                if !self.settles_branch(&next, lefts, rights) {
                    return false;
                }
            }
        }
        !branch.rest.within(IndexSet::empty())
    }
}

// The least cost of some rows.
fn least_of(rows: &[Row]) -> u128
    ensures { All (λ row. result ≤ row.cost) rows.now }
{
    let mut least = u128::MAX;
    for row in rows {
        least = least.min(row.cost);
    }
    least
}

// Whether it is seen that no sum of two rows without conflict is below the total.
//
// The places take 128 KiB of stack, which are not to stand in the frame of what calls this.
#[inline(never)]
pub(crate) fn are_above(lefts: &[Row], rights: &[Row], loops: IndexSet, total: u128) -> bool
    ensures { IsTrue result → All (λ left. All (λ right. HasNoConflict loops (rows_joined left right)
        → total ≤ left.cost + right.cost) rights.now) lefts.now }
{
    let pairs = Pairs {
        lefts,
        rights,
        total,
        left_limit: total.saturating_sub(least_of(rights)),
        right_limit: total.saturating_sub(least_of(lefts)),
    };
    let all = Branch {
        turns: ArrayVec::new(),
        rest: loops,
    };
    let mut left_places = [0; ROOM];
    let mut right_places = [0; ROOM];
    pairs.settles_branch(&all, &mut left_places, &mut right_places)
}
