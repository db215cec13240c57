//! Sets of labels, by their numbers.

ghost use Rattle.std.specs.Prelude.{◌≡◌, ℕ, ◌↔◌, ◌<◌, ◌≤◌, ◌==◌, ◌&&◌, ◌||◌, not, false, All, IfOk, IsTrue};
ghost use Rattle.std.specs.List.{filter, range_with_len};
ghost use Rattle.tce_space.specs.IndexSet as set;
ghost use Rattle.tce_tree.specs.WellFormed.{among};

use std::alloc::{AllocError, Global};

/// Numbers of labels, as the bits of a number.
#[derive(Clone, Copy)]
pub(crate) struct LabelSet {
    bits: u32,
}

impl LabelSet {
    pub(crate) fn empty() -> LabelSet
        ensures { (i : ℕ) → set.has result.bits i ≡ false }
    {
        LabelSet { bits: 0 }
    }

    /// The set with one member more.
    fn with(self, label: u8) -> LabelSet
        requires { label < 32 }
        ensures { (i : ℕ) → set.has result.bits i ≡ (set.has self.bits i || label == i) }
    {
        LabelSet {
            bits: self.bits | 1 << label,
        }
    }

    pub(crate) fn has(self, label: u8) -> bool
        requires { label < 32 }
        ensures { result ≡ set.has self.bits label }
    {
        self.bits >> label & 1 == 1
    }

    pub(crate) fn union(self, other: LabelSet) -> LabelSet
        ensures { (i : ℕ) → set.has result.bits i ≡ (set.has self.bits i || set.has other.bits i) }
    {
        LabelSet {
            bits: self.bits | other.bits,
        }
    }

    /// The members that `other` lacks.
    pub(crate) fn minus(self, other: LabelSet) -> LabelSet
        ensures { (i : ℕ) → set.has result.bits i ≡ (set.has self.bits i && not (set.has other.bits i)) }
    {
        LabelSet {
            bits: self.bits ^ self.bits & other.bits,
        }
    }

    /// Whether each member is one of `other`.
    pub(crate) fn is_within(self, other: LabelSet) -> bool
        ensures { IsTrue result ↔ set.IsWithin self.bits other.bits }
    {
        self.bits & other.bits == self.bits
    }

    /// The set of the numbers of a list.
    pub(crate) fn of_list(labels: &[u8]) -> LabelSet
        requires { All (λ i. i < 32) labels.now }
        ensures { (i : ℕ) → set.has result.bits i ≡ among labels.now i }
    {
        let mut all = LabelSet::empty();
        let mut rest = labels;
        while let [label, behind @ ..] = rest {
            all = all.with(*label);
            rest = behind;
        }
        all
    }

    /// The members below a number, ascending.
    pub(crate) fn members(self, alloc: Global, count: u8) -> Result<Vec<u8>, AllocError>
        requires { count ≤ 32 }
        ensures members { IfOk result (λ v. v.items ≡ filter (set.has self.bits) (range_with_len 0 count)) }
        ensures below { IfOk result (λ v. All (λ i. i < 32) v.items) }
    {
        let mut found = Vec::new(alloc);
        for label in 0..count {
            if self.has(label) {
                found.push(label)?;
            }
        }
        Ok(found)
    }
}
