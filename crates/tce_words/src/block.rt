//! The memory of a block: words one after the other, as they are written, and room for those that are not yet.
//! Each function that has a pointer is here.
ghost use Rattle.std.specs.Prelude.{◌≡◌, ℕ, ◌-◌, ◌^◌, ◌<◌, List, [], ◌∷◌, ◌++◌, length, IfOk, ⊤};
ghost use Rattle.std.specs.Borrow.{sem};
ghost use base.Fml.{ftrue};
ghost use denote.RawPtr.{Ptr};
ghost use Rattle.tce_words.specs.Memory.{places_own, places_lent, deed_owns};

use std::alloc::{AllocError, Allocator};
use std::marker::{Model, PhantomData};
use std::slice;

/// Where a block begins. It owns nothing.
pub(crate) struct Base {
    ptr: *mut u64,
}

impl Clone for Base {
    ghost is_clone = { λ x y. y ≡ x };

    ghost is_infallible = { λ _. ⊤ };

    fn clone(&self) -> Result<Base, AllocError> {
        Ok(*self)
    }
}

impl Copy for Base {}

/// The owner of a block's places: first those that hold the words, then those that are left. It takes no space.
pub(crate) struct Places {
    ghost at: { Ptr },
    ghost words: { List ℕ },
    ghost left: { ℕ },
}

impl Model for Places {
    ghost also_owns = { λ p. places_own p.at p.words p.left };

    ghost also_shares = { λ p _ κ. places_lent p.at p.words κ };
}

/// The right to give the block of `len` places at `at` back to `alloc`. It takes no space.
pub(crate) struct Deed<A: Allocator> {
    mark: PhantomData<*const A>,
    ghost at: { Ptr },
    ghost len: { ℕ },
    ghost alloc: { A },
}

impl<A: Allocator> Model for Deed<A> {
    ghost also_owns = { λ d. deed_owns (A.dealloc_token d.alloc) d.at d.len };

    ghost also_shares = { λ _ _ _. ftrue };
}

impl<A: Allocator> Deed<A> {
    ghost use Rattle.tce_words.specs.Block.{IsBlock};

    /// A block of `len` places, which are all left.
    pub(crate) fn allocate(alloc: &A, len: usize) -> Result<(Base, Places, Deed<A>), AllocError>
        requires { len < 2 ^ 60 }
        ensures { IfOk result (λ r. IsBlock r.0 len r.1 r.2 alloc.now × (r.1.words ≡ [])) }
    {
        match alloc.allocate(len * 8, 8) {
            Ok(block) => {
                let base = Base {
                    ptr: block as *mut u64,
                };
                Ok((base, Places {}, Deed { mark: PhantomData }))
            }
            Err(error) => Err(error),
        }
    }

    /// Gives the whole block back.
    pub(crate) fn deallocate(alloc: &A, base: Base, len: usize, places: Places, deed: Deed<A>)
        requires { IsBlock base len places deed alloc.now }
    {
        let Places {} = places;
        let Deed { mark: _ } = deed;
        unsafe {
            alloc.deallocate(base.ptr as *mut u8, len * 8, 8);
        }
    }
}

impl Places {
    ghost use Rattle.tce_words.specs.PlacesLends.{lends_places};

    /// Writes a word into the first place that is left, the one at this index.
    pub(crate) fn push(&mut self, base: Base, at: usize, word: u64)
        requires base { base.ptr ≡ self.old.at }
        requires at { at ≡ length self.old.words }
        requires limit { at < 2 ^ 60 }
        requires left { 0 < self.old.left }
        ensures { self.new ≡ record self.old
            { words = self.old.words ++ word ∷ []; left = self.old.left - 1 } }
    {
        unsafe { base.ptr.add(at).write(word) }
    }

    /// The words.
    pub(crate) fn slice(&self, base: Base, len: usize) -> &[u64]
        requires base { base.ptr ≡ self.now.at }
        requires len { len ≡ length self.now.words }
        requires limit { len < 2 ^ 60 }
        ensures { result.now ≡ self.now.words }
    {
        unsafe { slice::from_raw_parts(base.ptr, len) }
    }

    /// The words, to write to.
    pub(crate) fn slice_mut(&mut self, base: Base, len: usize) -> &mut [u64]
        requires base { base.ptr ≡ self.old.at }
        requires len { len ≡ length self.old.words }
        requires limit { len < 2 ^ 60 }
        ensures* writes_back { sem 𝓛 (lends_places self.entry result) }
        ensures value { result.now ≡ self.old.words }
    {
        unsafe { slice::from_raw_parts_mut(base.ptr, len) }
    }
}
