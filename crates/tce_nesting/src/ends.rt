// The ends of rows, by which most pairs that have a conflict are told before they are joined.
ghost use Rattle.std.specs.Prelude.{IsTrue};
ghost use Rattle.tce_fusion.specs.Relation.{above};
ghost use Rattle.tce_nesting.specs.Ends.{IsTopOf, AreEnds, DoCross, HaveConflict};

use crate::nesting::Nesting;
use crate::row::Row;
use tce_space::IndexSet;

/// Two parts of some loops that a row puts above all others of them: the least and the largest that is not all of the loops, each without members where there is none.
#[derive(Clone, Copy, Default)]
pub struct Ends {
    pub least: IndexSet,
    pub largest: IndexSet,
}

/// The ends of a row.
pub fn ends_of(row: &Row, loops: IndexSet) -> Ends
    ensures { AreEnds loops row.now result }
{
    Ends {
        least: least_top(&row.classes, loops),
        largest: largest_top(&row.classes, loops),
    }
}

// The loops of the first class, which are above all others, where there are others.
fn least_top(classes: &Nesting, loops: IndexSet) -> IndexSet
    ensures { IsTopOf loops (above classes.now) result }
{
    let Some(class) = classes.classes().first() else {
        return IndexSet::empty();
    };
    let top = class.meet(loops);
    if loops.within(top) {
        return IndexSet::empty();
    }
    top
}

// The loops of all classes before the one that has the last of the loops.
fn largest_top(classes: &Nesting, loops: IndexSet) -> IndexSet
    ensures { IsTopOf loops (above classes.now) result }
{
    let mut top = IndexSet::empty();
    let mut reached = IndexSet::empty();
    for class in classes.classes() {
        reached = reached.union(class.meet(loops));
        if loops.within(reached) {
            return top;
        }
        top = reached;
    }
    top
}

/// Whether two rows are seen to have a conflict.
pub fn have_conflict(left: &Ends, right: &Ends) -> bool
    ensures { IsTrue result → HaveConflict left.now right.now }
{
    if cross(left.least, right.least) {
        return true;
    }
    if cross(left.least, right.largest) {
        return true;
    }
    if cross(left.largest, right.least) {
        return true;
    }
    cross(left.largest, right.largest)
}

// Whether each of two parts has a loop that the other lacks.
fn cross(a: IndexSet, b: IndexSet) -> bool
    ensures { IsTrue result → DoCross a b }
{
    !a.within(b) && !b.within(a)
}
