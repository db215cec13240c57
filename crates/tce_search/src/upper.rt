// Parts of the outer loops that a state puts above the others.
ghost use Rattle.std.specs.Prelude.{ℕ, All, Contains};
ghost use Rattle.tce_space.specs.IndexSet.{empty};
ghost use Rattle.tce_fusion.specs.Relation.{above};
ghost use Rattle.tce_search.specs.Parts.{IsUpperPart, AreMarksOf};

use arrayvec::ArrayVec;
use tce_nesting::Nesting;
use tce_space::IndexSet;

// The greatest prime for which all remainders are indexes.
const MARKS: u32 = 23;

// The upper parts of the outer loops, smallest first. What is coarser on these loops has no others.
pub(crate) fn upper_parts(classes: &Nesting, outer: IndexSet) -> ArrayVec<IndexSet, 11>
    ensures all { (part : ℕ) → IsUpperPart outer (above classes.now) part
        → Contains result.items part }
    ensures each { All (IsUpperPart outer (above classes.now)) result.items }
    ensures least { Contains result.items empty }
{
    let mut parts = ArrayVec::<IndexSet, 11>::new();
    let mut reached = IndexSet::empty();
    parts.push(reached);
    for class in classes.classes() {
        reached = reached.union(class.meet(outer));
        let _number = reached.bits();
        if outer.within(reached) {
            return parts;
        }
        parts.push(reached);
    }
    parts
}

// The marks of parts: a set in which each of them has one of few members. Where parts are among others, their marks are among the marks of these, which is known at once.
pub(crate) fn marks_of(parts: &[IndexSet]) -> IndexSet
    ensures { AreMarksOf parts.now result }
{
    let mut marks = IndexSet::empty();
    for part in parts {
        marks = marks.with((part.bits() % MARKS) as u8);
    }
    marks
}
