// Which tiles the frames hold, in the order of their last use.
ghost use Rattle.std.specs.Prelude.{◌≡◌, ◌+◌, ◌<◌, ◌≤◌, ◌∷◌, length, Some, None, IfOk, ◌*◌};
ghost use Rattle.tce_cache.specs.Held.{look_up, IsFree, AreApart};
ghost use Rattle.tce_cache.specs.Frames.{max_frames, held_at, AreLow, HasTile, IsFrameOf, IsLastFrame, IsCleaned, IsReplaced, IsMovedToFront};

use crate::ring::Rings;
use std::alloc::{AllocError, Global};
use std::marker::Model;

/// What a frame holds.
#[derive(Clone, Copy)]
pub struct Frame {
    pub array: u8,
    pub tile: u64,
    /// Whether the tile has still to be written to its file.
    pub marked: bool,
}

// The golden ratio, as an odd number of 64 bits.
const ODD: u64 = 0x9E37_79B9_7F4A_7C15;

// How often 1 is doubled to reach the largest number of frames, 2^40.
const DOUBLINGS: u32 = 40;

// Spreads the tiles of all arrays over buckets.
#[derive(Drop)]
struct Spread {
    // The number of each array's first tile, among the tiles of all arrays.
    firsts: Vec<u64>,
    factor: u64,
    shift: u32,
    mask: usize,
    ghost in_range: { shift < 64 },
}

impl Spread {
    ghost use Rattle.tce_cache.specs.Table.{bucket_of};

    fn new(alloc: Global, mask: usize, tiles: &[u64]) -> Result<Spread, AllocError>
        ensures mask { IfOk result (λ s. s.mask ≡ mask) }
        ensures arrays { IfOk result (λ s. length s.firsts.items ≡ length tiles.now) }
    {
        let mut firsts = Vec::new(alloc);
        let mut all: u64 = 0;
        for n in tiles {
            firsts.push(all)?;
            all = all.wrapping_add(*n);
        }
        let (factor, shift) = if all <= mask as u64 {
            (1, 0)
        } else {
            (ODD, 32)
        };
        Ok(Spread {
            firsts,
            factor,
            shift,
            mask,
        })
    }

    fn bucket(&self, array: u8, tile: u64) -> usize
        requires { array < length self.now.firsts.items }
        ensures bucket { result ≡ bucket_of self.now array tile }
        ensures below { result < self.now.mask + 1 }
    {
        let number = self.firsts[array as usize].wrapping_add(tile);
        (number.wrapping_mul(self.factor) >> self.shift) as usize & self.mask
    }
}

// The least power of two that is no less than the number of frames.
fn bucket_count(frames: usize) -> usize
    requires { frames ≤ max_frames }
    ensures some { 0 < result }
    ensures few { result ≤ 2 * max_frames }
{
    let mut count = 1;
    for _ in 0..DOUBLINGS {
        if count < frames {
            count *= 2;
        }
    }
    count
}

/// Which tiles the frames hold, in the order of their last use.
#[derive(Drop)]
pub struct Table {
    frames: Vec<Frame>,
    // The frames below this number hold tiles.
    held: usize,
    // One ring, which begins at the node after the frames: the frame used last is first.
    order: Rings,
    // A ring for each bucket. A frame is in the ring of its tile's bucket.
    buckets: Rings,
    spread: Spread,
}

impl Model for Table {
    ghost use Rattle.tce_cache.specs.Table.{Holding};
    ghost use Rattle.std.specs.Prelude.{length, map};

    ghost Value = { Holding };

    ghost use Rattle.tce_cache.specs.Table.{entry, order_of, IsTable};

    ghost view = { λ t. record { frames = length t.frames.items; arrays = length t.spread.firsts.items; held = map (entry t.frames.items) (order_of t.frames.items t.held t.order) } };

    ghost invariant = { λ t. IsTable t.frames.items t.held t.order t.buckets t.spread };
}

impl Table {
    ghost use Rattle.tce_cache.specs.Table.{holding_none, held_by};

    /// A table of so many frames, of which none holds a tile. `tiles` has the number of tiles of each array.
    pub fn new(alloc: Global, frames: usize, tiles: &[u64]) -> Result<Table, AllocError>
        requires { frames ≤ max_frames }
        ensures { IfOk result (λ t. t ≡ holding_none frames (length tiles.now)) }
    {
        let buckets = bucket_count(frames);
        let empty = Frame {
            array: 0,
            tile: 0,
            marked: false,
        };
        Ok(Table {
            frames: vec![in alloc; empty; frames]?,
            held: 0,
            order: Rings::new(alloc, frames, 1)?,
            buckets: Rings::new(alloc, frames, buckets)?,
            spread: Spread::new(alloc, buckets - 1, tiles)?,
        })
    }

    /// How many frames there are.
    pub fn frames(&self) -> usize
        ensures { result ≡ self.now.frames }
    {
        self.frames.len()
    }

    /// How many frames hold tiles: the first ones, by their numbers.
    pub fn len(&self) -> usize
        ensures count { result ≡ length self.now.held }
        ensures within { length self.now.held ≤ self.now.frames }
        ensures apart { AreApart self.now.frames self.now.held }
        ensures low { AreLow self.now.held }
    {
        self.held
    }

    /// What a frame holds.
    pub fn frame(&self, frame: usize) -> Frame
        requires { frame < length self.now.held }
        ensures { look_up self.now.held result.array result.tile ≡ Some (held_by frame result) }
    {
        self.frames[frame]
    }

    /// The frame whose tile was used least recently.
    pub fn oldest(&self) -> usize
        requires { 0 < length self.now.held }
        ensures last { IsLastFrame result self.now.held }
        ensures held { result < length self.now.held }
    {
        self.order.before(self.frames.len())
    }

    /// The frame that holds a tile.
    pub fn find(&self, array: u8, tile: u64) -> Option<usize>
        requires { array < self.now.arrays }
        ensures { IsFrameOf (look_up self.now.held array tile) result }
    {
        let latest = self.order.after(self.frames.len());
        if latest < self.frames.len() {
            let frame = self.frames[latest];
            if frame.array == array && frame.tile == tile {
                return Some(latest);
            }
        }
        let end = self.frames.len() + self.spread.bucket(array, tile);
        let mut node = self.buckets.after(end);
        while node != end {
            let frame = self.frames[node];
            if frame.array == array && frame.tile == tile {
                return Some(node);
            }
            node = self.buckets.after(node);
        }
        None
    }

    /// Puts a tile that no frame holds into a frame that holds none, marked or not, and makes it the one used last.
    pub fn hold(&mut self, array: u8, tile: u64, marked: bool) -> usize
        requires array { array < self.old.arrays }
        requires room { length self.old.held < self.old.frames }
        requires absent { look_up self.old.held array tile ≡ None }
        ensures same { (self.new.frames ≡ self.old.frames) × (self.new.arrays ≡ self.old.arrays) }
        ensures held { self.new.held ≡ held_at array tile result marked ∷ self.old.held }
        ensures free { IsFree result self.old.held }
        ensures low { result < self.old.frames }
    {
        let frame = self.held;
        let bucket = self.spread.bucket(array, tile);
        self.held += 1;
        self.frames[frame] = Frame {
            array,
            tile,
            marked,
        };
        self.order.push(self.frames.len(), frame);
        self.buckets.push(self.frames.len() + bucket, frame);
        frame
    }

    /// Puts a tile that no frame holds in the place of another, marked or not, and makes it the one used last.
    pub fn replace(&mut self, frame: usize, array: u8, tile: u64, marked: bool)
        requires frame { HasTile frame self.old.held }
        requires array { array < self.old.arrays }
        requires absent { look_up self.old.held array tile ≡ None }
        ensures same { (self.new.frames ≡ self.old.frames) × (self.new.arrays ≡ self.old.arrays) }
        ensures held { IsReplaced frame (held_at array tile frame marked)
            self.old.held self.new.held }
    {
        let end = self.frames.len();
        let bucket = self.spread.bucket(array, tile);
        self.order.remove(frame);
        self.order.push(end, frame);
        self.buckets.remove(frame);
        self.buckets.push(end + bucket, frame);
        self.frames[frame] = Frame {
            array,
            tile,
            marked,
        };
    }

    /// Takes the mark of a frame's tile away.
    pub fn clean(&mut self, frame: usize)
        requires { HasTile frame self.old.held }
        ensures same { (self.new.frames ≡ self.old.frames) × (self.new.arrays ≡ self.old.arrays) }
        ensures held { IsCleaned frame self.old.held self.new.held }
    {
        self.frames[frame].marked = false;
    }

    /// Makes this frame the one used last, and may mark its tile.
    pub fn touch(&mut self, frame: usize, mark: bool)
        requires { HasTile frame self.old.held }
        ensures same { (self.new.frames ≡ self.old.frames) × (self.new.arrays ≡ self.old.arrays) }
        ensures held { IsMovedToFront frame mark self.old.held self.new.held }
    {
        let front = self.frames.len();
        self.order.remove(frame);
        self.order.push(front, frame);
        let held = &mut self.frames[frame];
        held.marked = held.marked | mark;
    }
}
