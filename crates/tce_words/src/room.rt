//! Where blocks of words come from.
ghost use Rattle.std.specs.Prelude.{◌≡◌, ℕ, List, [], ◌∷◌, ◌++◌, ◌+◌, ◌≤◌, Some, replicate, IfOk, OnOk, OnErr, IsErr};
ghost use Rattle.tce_words.specs.Refusing.{next_refusal};
ghost use Rattle.tce_words.specs.Takings.{max_taking};

use crate::words::Words;
use std::alloc::{AllocError, Global};
use std::marker::Model;

/// Gives out blocks of words. It is seen as the list of its takings, pairs of numbers of words.
pub trait Room {
    ghost takings: { Self → List (ℕ × ℕ) };

    /// A block of `inter + tiles` words that are all 0, and one taking more. Where memory is wanting, an error, and
    /// the takings stay.
    fn take(&mut self, inter: u64, tiles: u64) -> Result<Words, AllocError>
        requires inter { inter ≤ max_taking }
        requires tiles { tiles ≤ max_taking }
        ensures zeros { IfOk result (λ words. words ≡ replicate (inter + tiles) 0) }
        ensures taken { OnOk result (takings self.new ≡ takings self.old ++ (inter, tiles) ∷ []) }
        ensures refused { OnErr result (takings self.new ≡ takings self.old) };
}

/// Takes its blocks from memory.
#[derive(Drop)]
pub struct HeapRoom {
    takings: Vec<(u64, u64)>,
    alloc: Global,
}

impl Model for HeapRoom {
    ghost Value = { List (ℕ × ℕ) };

    ghost view = { λ room. room.takings.items };
}

impl HeapRoom {
    /// A room without takings.
    pub fn new(alloc: Global) -> HeapRoom
        ensures { result ≡ [] }
    {
        HeapRoom {
            takings: Vec::new(alloc),
            alloc,
        }
    }

    /// The takings, the oldest first: the two numbers of each call of `take` that gave a block.
    pub fn takings(&self) -> &[(u64, u64)]
        ensures { result.now ≡ self.now }
    {
        self.takings.as_slice()
    }
}

impl Room for HeapRoom {
    ghost takings = { λ room. room };

    fn take(&mut self, inter: u64, tiles: u64) -> Result<Words, AllocError> {
        let words = Words::zeros(self.alloc, (inter + tiles) as usize)?;
        self.takings.push((inter, tiles))?;
        Ok(words)
    }
}

/// Takes its blocks from memory, and refuses one call.
#[derive(Drop)]
pub struct RefusingRoom {
    room: HeapRoom,
    // how many calls come before the one that is refused; None once it was
    refusal: Option<u64>,
}

impl Model for RefusingRoom {
    ghost use Rattle.tce_words.specs.Refusing.{Refusing};

    ghost Value = { Refusing };

    ghost view = { λ room. record { takings = room.room; refusal = room.refusal } };
}

impl RefusingRoom {
    /// A room without takings that refuses the call of `take` with this number, counted from 0.
    pub fn new(alloc: Global, refused: u64) -> RefusingRoom
        ensures { result ≡ record { takings = []; refusal = Some refused } }
    {
        RefusingRoom {
            room: HeapRoom::new(alloc),
            refusal: Some(refused),
        }
    }

    /// The takings, the oldest first: the two numbers of each call of `take` that gave a block.
    pub fn takings(&self) -> &[(u64, u64)]
        ensures { result.now ≡ self.now.takings }
    {
        self.room.takings()
    }
}

impl Room for RefusingRoom {
    ghost takings = { λ room. room.takings };

    fn take(&mut self, inter: u64, tiles: u64) -> Result<Words, AllocError>
        requires inter { inter ≤ max_taking }
        requires tiles { tiles ≤ max_taking }
        ensures zeros { IfOk result (λ words. words ≡ replicate (inter + tiles) 0) }
        ensures taken { OnOk result (self.new.takings ≡ self.old.takings ++ (inter, tiles) ∷ []) }
        ensures refused { OnErr result (self.new.takings ≡ self.old.takings) }
        ensures refuses { self.old.refusal ≡ Some 0 → IsErr result }
        ensures counts { self.new.refusal ≡ next_refusal self.old.refusal }
    {
        match self.refusal {
            Some(0) => {
                self.refusal = None;
                Err(AllocError)
            }
            Some(calls) => {
                self.refusal = Some(calls - 1);
                self.room.take(inter, tiles)
            }
            None => self.room.take(inter, tiles),
        }
    }
}
