// All parts of some loops that rows put above the others of them, by which each pair that has a conflict is told before it is joined.
ghost use Rattle.std.specs.Prelude.{IsTrue};
ghost use Rattle.tce_check.specs.Tops.{AreTops, HasConflict};

use arrayvec::ArrayVec;
use tce_nesting::Row;
use tce_space::{IndexSet, MAX_LOOPS};

// The parts that a row puts above the others, the least first.
pub(crate) fn tops_of(row: &Row, loops: IndexSet) -> ArrayVec<IndexSet, MAX_LOOPS>
    ensures { AreTops loops row.now result.items }
{
    let mut tops = ArrayVec::<IndexSet, MAX_LOOPS>::new();
    let mut reached = IndexSet::empty();
    for class in row.classes.classes() {
        reached = reached.union(class.meet(loops));
        tops.push(reached);
    }
    tops
}

// The place of the first of the tops, from a place on, that is not within what is reached. Those of one row grow.
fn place_beyond(tops: &[IndexSet], from: usize, reached: IndexSet) -> usize {
    let mut place = from;
    while place < tops.len() && tops[place].within(reached) {
        place += 1;
    }
    place
}

// Whether one of a row's tops and one of these are seen to have each a loop that the other lacks.
pub(crate) fn are_crossed(tops: &[IndexSet], row: &Row, loops: IndexSet) -> bool
    ensures { IsTrue result → HasConflict loops tops.now row.now }
{
    let mut place = 0;
    let mut reached = IndexSet::empty();
    for class in row.classes.classes() {
        reached = reached.union(class.meet(loops));
        place = place_beyond(tops, place, reached);
        if tops.len() <= place {
            return false;
        }
        let top = tops[place];
        if !top.within(reached) && !reached.within(top) {
            return true;
        }
    }
    false
}
