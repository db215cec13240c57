ghost use Rattle.std.specs.Prelude.{◌≡◌, ◌≢◌, ℕ, ◌<◌, ◌≤◌, ◌||◌, ◌&&◌, ◌↔◌, not, false, IsTrue, All, Contains};
ghost use Rattle.tce_space.specs.IndexSet as set;
ghost use Rattle.tce_space.specs.Limits.{max_indexes};
ghost use Rattle.tce_space.specs.Laws.{SetsAreTheirMembers};

use crate::limits::MAX_INDEXES;
use std::marker::Model;

/// A set of index numbers below 24, kept as the bits of a number.
#[derive(Clone, Copy, PartialEq, Eq)]
pub struct IndexSet(u32);

impl Model for IndexSet {
    ghost use Rattle.std.specs.Prelude.{ℕ};
    ghost use Rattle.tce_space.specs.IndexSet.{IsIndexSet};

    ghost Value = { ℕ };

    ghost view = { λ s. s.0 };

    ghost invariant = { λ s. IsIndexSet s.0 };

    ghost inverse = { λ n. record { 0 = n } };
}

impl IndexSet {
    /// The set without members.
    pub fn empty() -> IndexSet
        ensures value { result ≡ set.empty }
        ensures members { (i : ℕ) → set.has result i ≡ false }
    {
        IndexSet(0)
    }

    /// The set with one member more.
    pub fn with(self, index: u8) -> IndexSet
        requires { index < max_indexes }
        ensures value { result ≡ set.with_index self index }
        ensures member { IsTrue (set.has result index) }
        ensures others { (i : ℕ) → i ≢ index → set.has result i ≡ set.has self i }
    {
        IndexSet(self.0 | 1 << index)
    }

    /// Whether an index is a member.
    pub fn has(self, index: u8) -> bool
        requires { index < max_indexes }
        ensures { result ≡ set.has self index }
    {
        self.0 >> index & 1 == 1
    }

    /// The members of either set.
    pub fn union(self, other: IndexSet) -> IndexSet
        ensures value { result ≡ set.union self other }
        ensures members { (i : ℕ) → set.has result i ≡ (set.has self i || set.has other i) }
    {
        IndexSet(self.0 | other.0)
    }

    /// The members of both sets.
    pub fn meet(self, other: IndexSet) -> IndexSet
        ensures value { result ≡ set.meet self other }
        ensures members { (i : ℕ) → set.has result i ≡ (set.has self i && set.has other i) }
    {
        IndexSet(self.0 & other.0)
    }

    /// The members that `other` lacks.
    pub fn minus(self, other: IndexSet) -> IndexSet
        ensures value { result ≡ set.minus self other }
        ensures members { (i : ℕ) → set.has result i ≡ (set.has self i && not (set.has other i)) }
    {
        IndexSet(self.0 & !other.0)
    }

    /// The number whose bit `i` is set for each member `i`.
    pub fn bits(self) -> u32
        ensures value { result ≡ self }
        ensures bounded { set.IsIndexSet self }
    {
        self.0
    }

    /// The set whose members are the places of the bits that are set, which are below 24.
    pub fn of_bits(bits: u32) -> IndexSet
        requires { set.IsIndexSet bits }
        ensures { result ≡ bits }
    {
        IndexSet(bits)
    }

    /// Whether each member is one of `other`.
    pub fn within(self, other: IndexSet) -> bool
        ensures { IsTrue result ↔ set.IsWithin self other }
    {
        self.0 & other.0 == self.0
    }

    /// How many members there are.
    pub fn count(self) -> u8
        ensures value { result ≡ set.count self }
        ensures limit { result ≤ max_indexes }
        ensures bounded { set.IsIndexSet self }
    {
        let _bits = self.0;
        let mut members = 0;
        for index in 0..MAX_INDEXES as u8 {
            if self.has(index) {
                members += 1;
            }
        }
        members
    }

    /// The set of the numbers of a list.
    pub fn of_list(indexes: &[u8]) -> IndexSet
        requires { All (λ i. i < max_indexes) indexes.now }
        ensures value { result ≡ set.set_of indexes.now }
        ensures members { (i : ℕ) → IsTrue (set.has result i) ↔ Contains indexes.now i }
    {
        let mut all = IndexSet::empty();
        for index in indexes {
            all = all.with(*index);
        }
        all
    }
}

impl Default for IndexSet {
    ghost is_default = { λ s. s ≡ 0 };

    fn default() -> Self {
        IndexSet(0)
    }
}

/// A set is known by its members, and they stand in order.
pub fn sets_are_their_members()
    ensures { SetsAreTheirMembers }
{}
