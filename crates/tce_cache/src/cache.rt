// A cache of tiles.
ghost use Rattle.std.specs.Prelude.{◌≡◌, ◌+◌, ◌*◌, ◌^◌, ◌<◌, ◌≤◌, ◌↔◌, length, slice_get, IfOk, OnOk, IsOk, IsErr, IsSome, IsTrue, Some, None};
ghost use Rattle.std.specs.Option.{ForSome};
ghost use Rattle.tce_outside.specs.Fault.{FaultReported};
ghost use Rattle.tce_cache.specs.Held.{look_up};
ghost use Rattle.tce_cache.specs.Frames.{held_at};
ghost use Rattle.tce_cache.specs.Current.{place, IsSameOutside};

mod writing;

use crate::array::ArrayRef;
use crate::table::Table;
use crate::transfer::{Span, piece_len, read_words};
use std::alloc::{AllocError, Global};
use std::marker::Model;
use tce_outside::{Disk, Failed};
use tce_space::MAX_MEMORY;
use tce_words::Words;

/// Holds tiles of arrays in frames, which stand among the words of a run.
///
/// It is seen as the list of the tiles that it holds, the one touched last first, with the arrays and frames with
/// which it was made. Frame k stands from the word `at + k * frame_words` on. The current word of a tile is the one
/// in its frame, and where no frame holds the tile the one in the array's file.
///
/// After a call that failed a cache is of no more use.
#[derive(Drop)]
pub struct Cache {
    arrays: Vec<ArrayRef>,
    at: u64,
    frame_words: u64,
    table: Table,
    touches: u128,
    // What passes between files and frames.
    buffer: Vec<u8>,
}

// The same arrays in memory of their own.
fn copied(alloc: Global, arrays: &[ArrayRef]) -> Result<Vec<ArrayRef>, AllocError>
    ensures { IfOk result (λ copy. copy.items ≡ arrays.now) }
{
    let mut copy = Vec::with_capacity(alloc, arrays.len())?;
    for array in arrays {
        copy.push(array.clone()?)?;
    }
    Ok(copy)
}

// How many tiles each array has.
fn tile_counts(alloc: Global, arrays: &[ArrayRef]) -> Result<Vec<u64>, AllocError>
    ensures { IfOk result (λ counts. length counts.items ≡ length arrays.now) }
{
    let mut counts = Vec::with_capacity(alloc, arrays.len())?;
    for array in arrays {
        counts.push(array.shape.tiles())?;
    }
    Ok(counts)
}

impl Model for Cache {
    ghost use Rattle.tce_cache.specs.Cache.{State, IsCache};

    ghost Value = { State };

    ghost view = { λ c. record { arrays = c.arrays.items; at = c.at; frames = c.table.frames; frame_words = c.frame_words; held = c.table.held; touches = c.touches } };

    ghost use Rattle.tce_cache.specs.Parts.{IsWhole};

    ghost invariant = { λ c. IsWhole c.arrays.items c.at c.frame_words c.table c.touches c.buffer.items };
}

impl Cache {
    ghost use Rattle.tce_cache.specs.Cache.{IsCache, AreArrays, Exists, IsWritable, IsReady, IsReadyFor, IsFileThere, HasRoom, IsSameOutsideFrames, OnlyWritableDiffers, layout, empty_cache};
    ghost use Rattle.tce_cache.specs.Touch.{IsTouched, IsTileRead, IsPlaced, KeepsArrays, AreShown, before_placing, with_held};

    /// A cache that holds no tile. It has so many frames, of `frame_words` words each, of which the first stands from the
    /// word `at` on. No other call of a cache takes memory.
    pub fn new(
        alloc: Global,
        arrays: &[ArrayRef],
        at: u64,
        frames: u64,
        frame_words: u64,
    ) -> Result<Cache, AllocError>
        requires arrays { AreArrays arrays.now frame_words }
        requires frames { 3 ≤ frames }
        ensures { IfOk result (λ c. c ≡ empty_cache arrays.now at frames frame_words) }
    {
        // No memory has room for more.
        if frames > MAX_MEMORY {
            return Err(AllocError);
        }
        let kept = copied(alloc, arrays)?;
        let tiles = tile_counts(alloc, arrays)?;
        let table = Table::new(alloc, frames as usize, &tiles)?;
        let piece = piece_len(frame_words.saturating_mul(frames));
        Ok(Cache {
            arrays: kept,
            at,
            frame_words,
            table,
            touches: 0,
            buffer: vec![in alloc; 0; piece]?,
        })
    }

    /// Whether a frame holds this tile.
    pub fn holds(&self, array: u8, tile: u64) -> bool
        requires { Exists self.now array tile }
        ensures held { IsTrue result ↔ IsSome (look_up self.now.held array tile) }
        ensures cache { IsCache self.now }
    {
        self.table.find(array, tile).is_some()
    }

    /// The array with this number.
    pub fn array(&self, number: u8) -> &ArrayRef
        requires { number < length self.now.arrays }
        ensures array { slice_get self.now.arrays number ≡ Some result.now }
        ensures cache { IsCache self.now }
    {
        &self.arrays[number as usize]
    }

    /// How many tiles it can hold at once.
    pub fn frames(&self) -> usize
        ensures { result ≡ self.now.frames }
    {
        self.table.frames()
    }

    /// How often a tile was touched since the cache was made.
    pub fn touches(&self) -> u128
        ensures { result ≡ self.now.touches }
    {
        self.touches
    }

    // The place of a frame's first word.
    fn place(&self, frame: usize) -> u64
        requires frame { frame < self.now.frames }
        requires bounded { self.now.at + self.now.frames * self.now.frame_words < 2 ^ 60 }
        ensures { result ≡ place (layout self.now) frame }
    {
        self.at + frame as u64 * self.frame_words
    }

    // Reads a tile into a frame.
    fn read_tile<D: Disk>(
        &mut self,
        disk: &mut D,
        words: &mut Words,
        array: u8,
        tile: u64,
        frame: usize,
    ) -> Result<(), Failed>
        requires exists { Exists self.old array tile }
        requires frame { frame < self.old.frames }
        requires room { HasRoom self.old words.old }
        requires bounded { length words.old < 2 ^ 60 }
        requires file { IsFileThere self.old array (D.files disk.old) }
        ensures read { OnOk result (IsTileRead self.old (D.files disk.old) words.new
            array tile frame) }
        ensures len { length words.new ≡ length words.old }
        ensures others { IsSameOutside (layout self.old) frame words.old words.new }
        ensures cache { self.new ≡ self.old }
        ensures same { D.files disk.new ≡ D.files disk.old }
        ensures fault_reported { FaultReported D.faults disk.old disk.new (IsErr result) }
    {
        let at = self.place(frame);
        let array = &self.arrays[array as usize];
        let n = array.shape.tile_words();
        let span = Span {
            from: n * tile,
            at,
            n,
        };
        read_words(disk, array, span, words, self.buffer.as_mut_slice())?;
        Ok(())
    }

    // Finds a frame for a tile that is not held: one that holds no tile, or that of the tile touched least recently.
    fn take_frame<D: Disk>(
        &mut self,
        disk: &mut D,
        words: &Words,
        array: u8,
        tile: u64,
        marked: bool,
    ) -> Result<usize, Failed>
        requires exists { Exists self.old array tile }
        requires absent { look_up self.old.held array tile ≡ None }
        requires writable { IsTrue marked → IsWritable self.old array }
        requires room { HasRoom self.old words.now }
        requires bounded { length words.now < 2 ^ 60 }
        requires ready { ForSome (D.files disk.old) (λ fs. IsReady self.old fs words.now) }
        ensures placed { IfOk result (λ frame.
            IsPlaced self.old self.new (held_at array tile frame marked)) }
        ensures arrays { OnOk result (KeepsArrays self.old (before_placing self.old self.new.held)
            (D.files disk.old) (D.files disk.new) words.now words.now) }
        ensures same { self.new ≡ with_held self.old self.new.held self.old.touches }
        ensures cache { IsCache self.new }
        ensures others { OnlyWritableDiffers self.old (D.files disk.old) (D.files disk.new) }
        ensures fault_reported { FaultReported D.faults disk.old disk.new (IsErr result) }
    {
        if self.table.len() < self.table.frames() {
            return Ok(self.table.hold(array, tile, marked));
        }
        let oldest = self.table.oldest();
        self.write_back(disk, words, oldest, 1)?;
        self.table.replace(oldest, array, tile, marked);
        Ok(oldest)
    }

    // Brings a tile that is not held into a frame. It stands apart, so that a touch of a held tile is short.
    #[inline(never)]
    fn bring<D: Disk>(
        &mut self,
        disk: &mut D,
        words: &mut Words,
        array: u8,
        tile: u64,
        marked: bool,
    ) -> Result<usize, Failed>
        requires exists { Exists self.old array tile }
        requires absent { look_up self.old.held array tile ≡ None }
        requires writable { IsTrue marked → IsWritable self.old array }
        requires room { HasRoom self.old words.old }
        requires bounded { length words.old < 2 ^ 60 }
        requires cache { IsCache self.old }
        requires ready { IsReadyFor self.old array (D.files disk.old) words.old }
        ensures placed { IfOk result (λ frame.
            IsPlaced self.old self.new (held_at array tile frame marked)) }
        ensures arrays { OnOk result (KeepsArrays self.old self.new
            (D.files disk.old) (D.files disk.new) words.old words.new) }
        ensures same { self.new ≡ with_held self.old self.new.held self.old.touches }
        ensures cache { IsCache self.new }
        ensures outside { IsSameOutsideFrames self.old words.old words.new }
        ensures others { OnlyWritableDiffers self.old (D.files disk.old) (D.files disk.new) }
        ensures fault_reported { FaultReported D.faults disk.old disk.new (IsErr result) }
    {
        let frame = self.take_frame(disk, words, array, tile, marked)?;
        self.read_tile(disk, words, array, tile, frame)?;
        Ok(frame)
    }

    /// Brings a tile into a frame, where none holds it, and answers the place of its first word. With `write` the tile
    /// is marked: its words will be written to its file, before its frame is given to another tile or by `flush`.
    ///
    /// A touch of a held tile does not look at the disk.
    pub fn touch<D: Disk>(
        &mut self,
        disk: &mut D,
        words: &mut Words,
        array: u8,
        tile: u64,
        write: bool,
    ) -> Result<u64, Failed>
        requires exists { Exists self.old array tile }
        requires writable { IsTrue write → IsWritable self.old array }
        requires room { HasRoom self.old words.old }
        requires count { self.old.touches < 2 ^ 100 }
        requires ready { IsReadyFor self.old array (D.files disk.old) words.old }
        ensures touched { IfOk result (IsTouched self.old self.new array tile write) }
        ensures shown { IfOk result (AreShown self.old (D.files disk.old) words.old words.new
            array tile) }
        ensures arrays { OnOk result (KeepsArrays self.old self.new
            (D.files disk.old) (D.files disk.new) words.old words.new) }
        ensures held { IsSome (look_up self.old.held array tile) → IsOk result
            × (words.new ≡ words.old)
            × (D.files disk.new ≡ D.files disk.old) × (D.faults disk.new ≡ D.faults disk.old) }
        ensures same { self.new ≡ with_held self.old self.new.held (self.old.touches + 1) }
        ensures cache { IsCache self.new }
        ensures outside { IsSameOutsideFrames self.old words.old words.new }
        ensures others { OnlyWritableDiffers self.old (D.files disk.old) (D.files disk.new) }
        ensures fault_reported { FaultReported D.faults disk.old disk.new (IsErr result) }
    {
        // The length of the block bounds all places.
        let _len = words.len();
        self.touches += 1;
        match self.table.find(array, tile) {
            Some(frame) => {
                self.table.touch(frame, write);
                Ok(self.place(frame))
            }
            None => {
                let frame = self.bring(disk, words, array, tile, write)?;
                Ok(self.place(frame))
            }
        }
    }
}
