// The subsets of a set.
ghost use Rattle.std.specs.Prelude.{◌≡◌, ◌+◌, ◌<◌, ◌≤◌, ◌*◌};
ghost use Rattle.tce_space.specs.Limits.{max_indexes, max_loops};
ghost use Rattle.arrayvec.specs.ArrayVec.{array_vec_len};
ghost use Rattle.tce_space.specs.IndexSet.{count};
ghost use Rattle.tce_nesting.specs.Subsets.{AreSubsets, widened};

use arrayvec::ArrayVec;
use tce_space::{IndexSet, MAX_INDEXES};

/// The subsets of a set of at most ten indexes, in the order of their bits as numbers.
pub fn subsets(set: IndexSet) -> ArrayVec<IndexSet, 1024>
    requires { count set ≤ max_loops }
    ensures { AreSubsets set result.items }
{
    let _number = set.bits();
    let mut sets = ArrayVec::<IndexSet, 1024>::new();
    sets.push(IndexSet::empty());
    for index in 0..MAX_INDEXES as u8 {
        if set.has(index) {
            widen(&mut sets, index);
        }
    }
    sets
}

// Appends each of the sets with one more index.
fn widen(sets: &mut ArrayVec<IndexSet, 1024>, index: u8)
    requires index { index < max_indexes }
    requires room { array_vec_len sets.old * 2 ≤ 1024 }
    ensures { sets.new.items ≡ widened sets.old.items index }
{
    for place in 0..sets.len() {
        let wider = sets[place].with(index);
        sets.push(wider);
    }
}
