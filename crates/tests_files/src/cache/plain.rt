//! What a cache is to do, as a plain list of the tiles that it holds.
use std::alloc::{AllocError, Global};

/// The tiles that are held, each with its array and whether it has still to be written. The one touched last is last.
#[derive(Drop)]
pub struct Plain {
    frames: usize,
    held: Vec<(u8, u64, bool)>,
    reads: u64,
    writes: u64,
}

impl Plain {
    /// A cache of so many frames that holds no tile.
    pub fn new(alloc: Global, frames: usize) -> Plain {
        Plain {
            frames,
            held: Vec::new(alloc),
            reads: 0,
            writes: 0,
        }
    }

    /// Whether a tile is held.
    pub fn holds(&self, array: u8, tile: u64) -> bool {
        self.held
            .iter()
            .any(|held| held.0 == array && held.1 == tile)
    }

    /// How many tiles have been read, and how many written.
    pub fn counts(&self) -> [u64; 2] {
        [self.reads, self.writes]
    }

    // Takes a tile out of the list, and answers whether it has still to be written.
    fn take(&mut self, array: u8, tile: u64) -> Option<bool> {
        for at in 0..self.held.len() {
            let held = self.held[at];
            if held.0 == array && held.1 == tile {
                let _tile = self.held.remove(at);
                return Some(held.2);
            }
        }
        None
    }

    // Gives up the first tile.
    fn give_up(&mut self) {
        if 0 < self.held.len() {
            let given_up = self.held.remove(0);
            if given_up.2 {
                self.writes = self.writes.saturating_add(1);
            }
        }
    }

    /// Puts a tile last, and gives up the first one where there would be too many.
    pub fn touch(&mut self, array: u8, tile: u64, write: bool) -> Result<(), AllocError> {
        match self.take(array, tile) {
            Some(marked) => self.held.push((array, tile, marked | write))?,
            None => {
                if self.frames <= self.held.len() {
                    self.give_up();
                }
                self.reads = self.reads.saturating_add(1);
                self.held.push((array, tile, write))?;
            }
        }
        Ok(())
    }

    /// Counts the tiles that have still to be written as written.
    pub fn flush(&mut self) {
        for held in self.held.iter_mut() {
            if held.2 {
                self.writes = self.writes.saturating_add(1);
            }
            held.2 = false;
        }
    }
}
