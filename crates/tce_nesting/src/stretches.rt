// Stretches of neighbouring choices, which are told together not to be allowed.
ghost use Rattle.std.specs.Prelude.{◌≡◌, ℕ, ◌<◌, ◌≤◌, ◌+◌, length, slice_index_or, IsTrue};
ghost use Rattle.tce_fusion.specs.Relation.{above};
ghost use Rattle.tce_nesting.specs.Stretches.{AreStretches, IsStretch, IsTogether, AllowsNone};
ghost use Rattle.tce_nesting.specs.declared.stretches.Stretch as own;

use crate::choice::Choice;
use crate::nesting::Nesting;
use tce_space::IndexSet;

/// A node has so many choices at most.
pub const MAX_CHOICES: usize = 1024;

/// What all sets from a choice on up to a later place have in common, and what they have together.
#[derive(Clone, Copy, Default)]
pub struct Stretch {
    pub common: IndexSet,
    pub all: IndexSet,
    pub until: usize,
}

/// For each choice a stretch from it on, as long as the greatest power of two that divides its place. Where the sets go up
/// or down in the order of their bits, those of a stretch differ in few indexes.
pub fn stretches_of(choices: &[Choice]) -> [Stretch; MAX_CHOICES]
    requires { length choices.now ≤ 1024 }
    ensures { AreStretches choices.now result }
{
    let mut stretches = [Stretch::default(); MAX_CHOICES];
    let mut place = choices.len();
    while 0 < place {
        place -= 1;
        let stretch = stretch_from(choices, &stretches, place);
        stretches[place] = stretch;
    }
    stretches
}

// The stretch from a choice on, where those from later ones on are known.
fn stretch_from(choices: &[Choice], stretches: &[Stretch], place: usize) -> Stretch
    requires inside { place < length choices.now }
    requires count { length choices.now ≤ length stretches.now }
    requires later { (k : ℕ) (s : own.Stretch) → place + 1 ≤ k → k < length choices.now →
        IsStretch choices.now k (slice_index_or stretches.now k s) }
    ensures { IsStretch choices.now place result }
{
    let most = longest(place);
    let set = choices[place].fused;
    let mut stretch = Stretch {
        common: set,
        all: set,
        until: place + 1,
    };
    while stretch.until < choices.len() && stretch.until - place < most {
        stretch = together(&stretch, &stretches[stretch.until]);
    }
    stretch
}

// How long the stretch from a place on is to be.
fn longest(place: usize) -> usize {
    if place == 0 {
        MAX_CHOICES
    } else {
        place & !(place - 1)
    }
}

// Two stretches, one behind the other, as one.
fn together(first: &Stretch, next: &Stretch) -> Stretch
    ensures whole { IsTogether first.now next.now result }
    ensures until { result.until ≡ next.now.until }
{
    Stretch {
        common: first.common.meet(next.common),
        all: first.all.union(next.all),
        until: next.until,
    }
}

/// Whether none of the sets of a stretch is seen to be allowed: loops that are above others reach beyond all of them, and lack some that is in each.
pub fn allows_none(classes: &Nesting, stretch: &Stretch, loops: IndexSet) -> bool
    ensures { IsTrue result → AllowsNone (above classes.now) stretch.now.common stretch.now.all }
{
    let lower = stretch.common.meet(loops);
    let mut reached = IndexSet::empty();
    for class in classes.classes() {
        reached = reached.union(class.meet(loops));
        if !reached.within(stretch.all) && !lower.within(reached) {
            return true;
        }
    }
    false
}
