// The buffers through which elements move.
ghost use Rattle.std.specs.Prelude.{◌≡◌, ◌≤◌, length};

use crate::band::LONGEST_BAND;
use std::alloc::{AllocError, Global};

/// Buffers for a band of elements: 768 KiB, of use again and again.
#[derive(Drop)]
pub struct Buffers {
    // The bytes of a piece, as a file has them.
    pub(crate) bytes: Vec<u8>,
    // The words of the pieces.
    pub(crate) tiled: Vec<u64>,
    // The elements in row-major order.
    pub(crate) words: Vec<u64>,
    ghost bytes_fit: { 262144 ≤ length bytes.items },
    ghost tiled_fit: { 32768 ≤ length tiled.items },
    ghost words_fit: { 32768 ≤ length words.items },
}

impl Buffers {
    /// Takes the buffers from memory.
    pub fn new(alloc: Global) -> Result<Buffers, AllocError> {
        Ok(Buffers {
            bytes: vec![in alloc; 0; 8 * LONGEST_BAND]?,
            tiled: vec![in alloc; 0; LONGEST_BAND]?,
            words: vec![in alloc; 0; LONGEST_BAND]?,
        })
    }
}
