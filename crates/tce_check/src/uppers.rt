// The upper parts of rows and states, and the numbers under which rows are kept and noted by their classes.

use arrayvec::ArrayVec;
use tce_nesting::Nesting;
use tce_space::{IndexSet, MAX_LOOPS};

// There are no fewer groups and hints.
const LEAST_SLOTS: usize = 16_384;

// The greatest prime for which all remainders are bits of a mark.
const MARKS: u32 = 31;

// How many places of rows with one class are kept, a prime.
pub(crate) const SINGLES: usize = 1021;

// The three largest parts of the outer loops that are above the others, the largest first, without loops where there are fewer.
#[derive(Clone, Copy, Default)]
pub(crate) struct Parts {
    pub(crate) first: IndexSet,
    pub(crate) second: IndexSet,
    pub(crate) third: IndexSet,
}

// The upper parts, the least first.
pub(crate) fn uppers_of(classes: &Nesting, outer: IndexSet) -> ArrayVec<IndexSet, MAX_LOOPS> {
    let mut uppers = ArrayVec::<IndexSet, MAX_LOOPS>::new();
    let mut reached = IndexSet::empty();
    for class in classes.classes() {
        reached = reached.union(class.meet(outer));
        if outer.within(reached) {
            return uppers;
        }
        if uppers.len() < MAX_LOOPS {
            uppers.push(reached);
        }
    }
    uppers
}

// A bit for each upper part, and mostly another one for another part.
pub(crate) fn marks_of(uppers: &[IndexSet]) -> u32 {
    let mut marks = 0;
    for part in uppers {
        marks |= 1 << (part.bits() % MARKS);
    }
    marks
}

// The three largest upper parts.
pub(crate) fn parts_of(uppers: &[IndexSet]) -> Parts {
    let mut parts = Parts::default();
    for part in uppers {
        parts = Parts {
            first: *part,
            second: parts.first,
            third: parts.second,
        };
    }
    parts
}

// A power of two that is no less than this, unless that is very large.
pub(crate) fn slots_for(least: usize) -> usize {
    let mut slots = LEAST_SLOTS;
    for _ in 0..8 {
        if slots < least {
            slots = slots.wrapping_mul(2);
        }
    }
    slots
}

// The slot of a number, where the slots are a power of two: numbers that differ in little mostly have different ones.
fn slot_of(number: u64, slots: usize) -> usize {
    (number.wrapping_mul(0x9e37_79b9_7f4a_7c15) >> 32) as usize & slots.wrapping_sub(1)
}

// The group of three parts, where there are so many groups.
pub(crate) fn group_of(parts: &Parts, groups: usize) -> usize {
    let two = parts.first.bits() as u64 * 1021 + parts.second.bits() as u64;
    slot_of(two * 1021 + parts.third.bits() as u64, groups)
}

// The hint for states with these classes, where there are so many hints.
pub(crate) fn hint_of(classes: &Nesting, hints: usize) -> usize {
    let mut number: u64 = 0;
    for class in classes.classes() {
        number = (number ^ number >> 29 ^ class.bits() as u64).wrapping_mul(0xbf58_476d_1ce4_e5b9);
    }
    slot_of(number, hints)
}

// The number under which a row with this class alone is noted.
pub(crate) fn single_of(class: IndexSet) -> usize {
    class.bits() as usize % SINGLES
}
