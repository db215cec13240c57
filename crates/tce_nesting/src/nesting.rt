// Nestings: disjoint sets of indexes, outermost first.
ghost use Rattle.std.specs.Prelude.{◌≡◌, ◌==◌, ℕ, ◌+◌, ◌<◌, ◌≤◌, ◌↔◌, false, [], ◌∷◌, ◌++◌, length, IsTrue, IsSome, IfSome};
ghost use Rattle.tce_space.specs.Limits.{max_loops};
ghost use Rattle.tce_space.specs.IndexSet.{IsIndexSet, has, count, empty};
ghost use Rattle.tce_fusion.specs.Relation.{above, joined, HasNoConflict, IsCoarser};
ghost use Rattle.tce_fusion.specs.StateClasses.{IsNesting, IsInhabited, in_class};
ghost use Rattle.tce_nesting.specs.Classes.{restricted, IsJoinOf, AllAbove, AllowsSet, AreOutermost};

use arrayvec::ArrayVec;
use std::marker::Model;
use tce_space::{IndexSet, MAX_INDEXES, MAX_LOOPS};

/// Disjoint sets of indexes with members, at most ten, outermost first: its classes.
///
/// An index is above another where its class is earlier, or it has a class and the other has none.
#[derive(Clone, PartialEq, Eq, Drop)]
pub struct Nesting {
    classes: ArrayVec<IndexSet, MAX_LOOPS>,
}

impl Model for Nesting {
    ghost use Rattle.std.specs.Prelude.{ℕ, List};

    ghost Value = { List ℕ };

    ghost view = { λ n. n.classes.items };

    ghost use Rattle.tce_fusion.specs.StateClasses.{IsNesting};

    ghost invariant = { λ n. IsNesting n.classes.items };

    ghost inverse = { λ classes. record { classes = record { items = classes } } };
}

impl Nesting {
    /// No classes.
    pub fn none() -> Nesting
        ensures { result ≡ [] }
    {
        Nesting {
            classes: ArrayVec::new(),
        }
    }

    /// The classes, with one more as the innermost.
    pub fn with_class(mut self, class: IndexSet) -> Nesting
        requires room { length self < max_loops }
        requires inhabited { IsInhabited class }
        requires apart { (i : ℕ) → IsTrue (has class i) → in_class self i ≡ false }
        ensures { result ≡ self ++ class ∷ [] }
    {
        let _number = class.bits();
        self.classes.push(class);
        self
    }

    /// The classes, outermost first.
    pub fn classes(&self) -> &[IndexSet]
        ensures value { result.now ≡ self.now }
        ensures nesting { IsNesting self.now }
        ensures room { length self.now ≤ max_loops }
    {
        self.classes.as_slice()
    }

    /// The indexes that have a class.
    pub fn members(&self) -> IndexSet
        ensures { (i : ℕ) → has result i ≡ in_class self.now i }
    {
        let mut all = IndexSet::empty();
        for class in self.classes() {
            all = all.union(*class);
        }
        all
    }

    /// Whether `i` has an earlier class than `j`, or has a class where `j` has none.
    pub fn above(&self, i: u8, j: u8) -> bool
        ensures { result ≡ above self.now i j }
    {
        for class in self.classes() {
            if contains(*class, j) {
                return false;
            }
            if contains(*class, i) {
                return true;
            }
        }
        false
    }

    /// Whether no index of a class outside `fused` is above one inside.
    pub fn allowed(&self, fused: IndexSet) -> bool
        ensures { IsTrue result ↔ AllowsSet (above self.now) fused }
    {
        let mut reached = IndexSet::empty();
        for class in self.classes() {
            reached = reached.union(*class);
            if !class.within(fused) {
                return fused.within(reached);
            }
        }
        true
    }

    // Whether each index of `upper` is above each index of `lower`.
    fn separates(&self, upper: IndexSet, lower: IndexSet) -> bool
        ensures { IsTrue result ↔ AllAbove (above self.now) upper lower }
    {
        let mut waiting = upper;
        for class in self.classes() {
            if !is_empty(lower.meet(*class)) {
                return is_empty(waiting);
            }
            waiting = waiting.minus(*class);
        }
        is_empty(waiting) || is_empty(lower)
    }

    /// Whether each pair of the loops that is above here is above in `other`.
    pub fn coarser(&self, other: &Nesting, loops: IndexSet) -> bool
        ensures { IsTrue result ↔ IsCoarser loops (above self.now) (above other.now) }
    {
        let mut below = loops;
        for outer in self.classes() {
            let upper = outer.meet(below);
            below = below.minus(*outer);
            if !other.separates(upper, below) {
                return false;
            }
        }
        true
    }

    // The members of `rest` that no other member is above.
    fn outermost(&self, rest: IndexSet) -> IndexSet
        ensures { AreOutermost (above self.now) rest result }
    {
        for class in self.classes() {
            let part = class.meet(rest);
            if !is_empty(part) {
                return part;
            }
        }
        rest
    }

    /// The nesting of all the loops, at most ten, that puts a loop above another where `a` or `b` does.
    ///
    /// `None` exactly where `a` puts one loop above another and `b` puts the other above the one. The classes of both lie within the loops.
    pub fn combine(a: &Nesting, b: &Nesting, loops: IndexSet) -> Option<Nesting>
        requires { count loops ≤ max_loops }
        ensures joins { IfSome result (IsJoinOf loops (above a.now) (above b.now)) }
        ensures conflict { IsSome result ↔ HasNoConflict loops (joined (above a.now) (above b.now)) }
    {
        let mut nesting = Nesting::none();
        let mut rest = loops;
        while !is_empty(rest) {
            let class = a.outermost(rest).meet(b.outermost(rest));
            if is_empty(class) {
                return None;
            }
            nesting = nesting.with_class(class);
            rest = rest.minus(class);
        }
        Some(nesting)
    }

    /// Each class cut to `fused`, without the empty ones.
    pub fn restrict(&self, fused: IndexSet) -> Nesting
        ensures { result ≡ restricted self.now fused }
    {
        let mut kept = Nesting::none();
        for class in self.classes() {
            let left = class.meet(fused);
            if !is_empty(left) {
                kept = kept.with_class(left);
            }
        }
        kept
    }
}

impl Default for Nesting {
    ghost is_default = { λ n. n ≡ [] };

    fn default() -> Self {
        Nesting::none()
    }
}

// Whether the index is one of the set. None is from 24 on.
fn contains(set: IndexSet, index: u8) -> bool
    ensures { result ≡ has set index }
{
    let _number = set.bits();
    index < MAX_INDEXES as u8 && set.has(index)
}

// Whether the set has no member.
pub(crate) fn is_empty(set: IndexSet) -> bool
    ensures none { IsTrue result ↔ ((i : ℕ) → has set i ≡ false) }
    ensures number { result ≡ (set == empty) }
    ensures bounded { IsIndexSet set }
{
    set.bits() == 0
}
