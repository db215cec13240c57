//! Which pieces of a file were not written since it was made.
ghost use Rattle.std.specs.Prelude.{◌≡◌, ◌⊎◌, ℕ, ◌+◌, ◌<◌, ◌≤◌, length, slice_get, false, Some, IsTrue};

use std::alloc::Global;

// How many pieces are known at most: one byte is kept for each.
const MOST_PIECES: u64 = 0x20_0000;

/// Which pieces of a file were not written since it was made of zeros.
///
/// The pieces have `unit` bytes each, and the first begins at the place `from`.
#[derive(Drop)]
pub(crate) struct Holes {
    pub(crate) from: u64,
    pub(crate) unit: u64,
    pub(crate) written: Vec<bool>,
    pub(crate) ghost some: { 0 < unit },
}

// How long the pieces of a file are: so short that the tiles of most arrays begin and end with one, but not too many.
fn unit_of(len: u64) -> u64
    ensures { 0 < result }
{
    if len < 0x1000_0000 {
        128
    } else if len < 0x1_0000_0000 {
        2048
    } else if len < 0x10_0000_0000 {
        0x8000
    } else {
        0x10_0000
    }
}

// Whether none of the pieces from `first` to `last` was written.
fn is_unwritten(written: &[bool], first: usize, last: usize) -> bool
    requires { last < length written.now }
    ensures { IsTrue result
        → (k : ℕ) → first ≤ k → k ≤ last → slice_get written.now k ≡ Some false }
{
    for k in first..last + 1 {
        if written[k] {
            return false;
        }
    }
    true
}

// The pieces from `first` to `last` are written.
fn set_written(written: &mut Vec<bool>, first: usize, last: usize)
    requires { last < length written.old.items }
    ensures { (k : ℕ) → slice_get written.new.items k ≡ Some false
        → (slice_get written.old.items k ≡ Some false) × ((k < first) ⊎ (last < k)) }
{
    for k in first..last + 1 {
        written[k] = true;
    }
}

impl Holes {
    ghost use Rattle.tce_system.specs.Holes.{IsHole, AreHoles, AreOutside};

    /// No hole is known.
    pub(crate) fn none(alloc: Global) -> Self
        ensures { (p : ℕ) → IsHole result p → ⊥ }
    {
        Holes {
            from: 0,
            unit: 1,
            written: Vec::new(alloc),
        }
    }

    /// All pieces of a file of `len` bytes, of which the last one ends where the file does, as the tiles of an array do. For want
    /// of memory, or where they are too many, none is known.
    pub(crate) fn of(alloc: Global, len: u64) -> Self {
        let unit = unit_of(len);
        let count = len / unit;
        if count > MOST_PIECES {
            return Holes::none(alloc);
        }
        match vec![in alloc; false; count as usize] {
            Ok(written) => Holes {
                from: len % unit,
                unit,
                written,
            },
            Err(_) => Holes::none(alloc),
        }
    }

    /// From now on no hole is known.
    pub(crate) fn forget(&mut self)
        ensures { (p : ℕ) → IsHole self.new p → ⊥ }
    {
        self.written.clear();
    }

    /// Whether all of the `n` bytes from `at` on are known to lie in holes.
    pub(crate) fn cover(&self, at: u64, n: u64) -> bool
        ensures { IsTrue result → AreHoles self.now at n }
    {
        let Some(end) = at.checked_add(n) else {
            return false;
        };
        if n == 0 || at < self.from {
            return false;
        }
        let first = (at - self.from) / self.unit;
        let last = (end - 1 - self.from) / self.unit;
        if last >= self.written.len() as u64 {
            return false;
        }
        is_unwritten(self.written.as_slice(), first as usize, last as usize)
    }

    /// The `n` bytes from `at` on are written: no hole is left there.
    pub(crate) fn mark(&mut self, at: u64, n: u64)
        ensures { AreOutside self.old self.new at n }
    {
        let Some(end) = at.checked_add(n) else {
            self.written.clear();
            return;
        };
        if n == 0 || end <= self.from {
            return;
        }
        let first = at.saturating_sub(self.from) / self.unit;
        let last = (end - 1 - self.from) / self.unit;
        if last >= self.written.len() as u64 {
            self.written.clear();
            return;
        }
        set_written(&mut self.written, first as usize, last as usize);
    }
}
