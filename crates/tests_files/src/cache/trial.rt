//! A cache over three arrays, of which the last may be written, with its disk and its words.
ghost use Rattle.std.specs.Prelude.{◌≡◌, ◌≢◌, ◌+◌, ◌*◌, ◌<◌, ◌≤◌, length, IfSome, IsTrue};
ghost use Rattle.tce_space.specs.Tiling.{tile_words};
ghost use Rattle.tce_cache.specs.Cache.{AreArrays, HasRoom};

use super::untold::UntoldDisk;
use arrayvec::ArrayVec;
use std::alloc::{AllocError, Global};
use tce_array::Form;
use tce_cache::{ArrayRef, Cache};
use tce_outside::{FaultyDisk, MemDisk};
use tce_space::{FileName, Name, Shape, Space, is_name};
use tce_words::{HeapRoom, Room, Words};

/// The names of the files.
pub const NAMES: [&str; 3] = ["narrow", "wide", "one"];

const FORMS: [Form; 3] = [Form::Narrow, Form::Wide, Form::One];

// So many words stand before the frames.
const AT: u64 = 5;

/// A cache with all that its calls take. All arrays have one dimension.
#[derive(Drop)]
pub struct Trial {
    arrays: Vec<ArrayRef>,
    cache: Cache,
    pub disk: UntoldDisk,
    words: Words,
    // What the words of the array that may be written are to be.
    current: Vec<u64>,
    ghost room: { HasRoom cache words },
    ghost same_arrays: { cache.arrays ≡ arrays.items },
}

/// The word of an array's file with this number.
pub fn first_word(array: usize, number: u32) -> u64 {
    match array {
        // Minus one and less.
        0 => u64::MAX - u64::from(number),
        1 => u64::from(number) + (1 << 40),
        _ => u64::from(number) + 1,
    }
}

/// The bytes of an array's file with so many words.
pub fn file_bytes(alloc: Global, array: usize, count: u32) -> Result<Vec<u8>, AllocError> {
    let head = if array == 2 { 32 } else { 40 };
    let mut bytes = vec![in alloc; 7u8; head]?;
    for number in 0..count {
        if array == 0 {
            bytes.extend_from_slice(&(u32::MAX - number).to_le_bytes())?;
        } else {
            bytes.extend_from_slice(&first_word(array, number).to_le_bytes())?;
        }
    }
    Ok(bytes)
}

// The shape of one dimension.
fn shape_of(alloc: Global, extent: u64, edge: u64) -> Option<Shape> {
    let Ok(name) = Name::from("n") else {
        return None;
    };
    if !is_name(name.as_str().as_bytes()) || edge < 1 || extent < edge || 1 << 20 < extent {
        return None;
    }
    let Ok(mut space) = Space::new(alloc) else {
        return None;
    };
    let shape = match space.add_range(&name, extent, edge) {
        Ok(range) => {
            let mut ranges = ArrayVec::new();
            ranges.push(range);
            space.shape(&ranges).ok()
        }
        Err(_) => None,
    };
    drop(space);
    shape
}

// An array of so many words in a file, which may be written where it is the last.
fn array_of(alloc: Global, array: usize, extent: u64, edge: u64) -> Option<ArrayRef>
    requires { array < 3 }
{
    let Ok(file) = FileName::from(NAMES[array]) else {
        return None;
    };
    Some(ArrayRef {
        file,
        shape: shape_of(alloc, extent, edge)?,
        form: FORMS[array],
        writable: array == 2,
    })
}

// Whether two arrays stand in different files.
fn are_apart(a: &ArrayRef, b: &ArrayRef) -> bool
    ensures { IsTrue result → a.now.file.bytes ≢ b.now.file.bytes }
{
    a.file.as_str() != b.file.as_str()
}

// Whether a tile fits a frame of so many words.
fn fits(array: &ArrayRef, frame_words: u64) -> bool
    ensures { IsTrue result → tile_words array.now.shape ≤ frame_words }
{
    array.shape.tile_words() <= frame_words
}

// Whether a cache can have these arrays.
fn are_arrays(arrays: &[ArrayRef], frame_words: u64) -> bool
    ensures { IsTrue result → AreArrays arrays.now frame_words }
{
    let [a, b, c] = arrays else {
        return false;
    };
    if !are_apart(a, b) || !are_apart(a, c) || !are_apart(b, c) {
        return false;
    }
    if !fits(a, frame_words) || !fits(b, frame_words) || !fits(c, frame_words) {
        return false;
    }
    if a.writable || b.writable {
        return false;
    }
    match c.form {
        Form::One => true,
        _ => false,
    }
}

// A cache of so many frames, each as long as the largest tile.
fn cache_of(alloc: Global, arrays: &[ArrayRef], frames: u64, frame_words: u64) -> Option<Cache>
    ensures arrays { IfSome result (λ c. c.arrays ≡ arrays.now) }
    ensures places { IfSome result (λ c. c.at + c.frames * c.frame_words ≡ 5 + frames * frame_words) }
{
    if frames < 3 || !are_arrays(arrays, frame_words) {
        return None;
    }
    Cache::new(alloc, arrays, AT, frames, frame_words).ok()
}

// A disk with the files of the arrays, which fails at the calls with these numbers.
fn disk_of(alloc: Global, arrays: &[ArrayRef], failing: Vec<u64>) -> Option<UntoldDisk> {
    let mut files = MemDisk::new(alloc);
    for (number, array) in arrays.iter().enumerate() {
        let words = array.shape.padded_words();
        if 1 << 20 < words {
            return None;
        }
        let Ok(bytes) = file_bytes(alloc, number, words as u32) else {
            return None;
        };
        if files.put_file(array.file.as_str(), &bytes).is_err() {
            return None;
        }
    }
    Some(UntoldDisk::new(FaultyDisk::new(files, failing)))
}

// So many words that are all 0.
fn words_of(alloc: Global, count: u64) -> Option<Words>
    ensures { IfSome result (λ words. length words ≡ count) }
{
    if 1 << 30 < count {
        return None;
    }
    let mut room = HeapRoom::new(alloc);
    room.take(count, 0).ok()
}

// The first words of the array that may be written.
fn current_of(alloc: Global, count: u64) -> Option<Vec<u64>> {
    let mut current = Vec::new(alloc);
    if 1 << 20 < count {
        return None;
    }
    for number in 0..count as u32 {
        if current.push(first_word(2, number)).is_err() {
            return None;
        }
    }
    Some(current)
}

// Three arrays with these extents and edges.
fn arrays_of(alloc: Global, sizes: &[(u64, u64); 3]) -> Option<Vec<ArrayRef>> {
    let mut arrays = Vec::new(alloc);
    for array in 0..3 {
        let (extent, edge) = sizes[array];
        let made = array_of(alloc, array, extent, edge)?;
        if arrays.push(made).is_err() {
            return None;
        }
    }
    Some(arrays)
}

impl Trial {
    /// A cache of so many frames over arrays with these extents and edges. The calls of the disk with the numbers in
    /// `failing` fail.
    pub fn new(
        alloc: Global,
        sizes: &[(u64, u64); 3],
        frames: u64,
        frame_words: u64,
        failing: Vec<u64>,
    ) -> Option<Trial> {
        if 1 << 20 < frames || 1 << 20 < frame_words {
            return None;
        }
        let arrays = arrays_of(alloc, sizes)?;
        let disk = disk_of(alloc, &arrays, failing)?;
        let words = words_of(alloc, AT + frames * frame_words)?;
        let current = match arrays.last() {
            Some(array) => current_of(alloc, array.shape.padded_words())?,
            None => return None,
        };
        let cache = cache_of(alloc, &arrays, frames, frame_words)?;
        Some(Trial {
            arrays,
            cache,
            disk,
            words,
            current,
        })
    }

    // How many words a tile of an array has, and how many tiles there are.
    fn tiles_of(&self, array: u8) -> (u64, u64) {
        match self.arrays.get(array as usize) {
            Some(found) => (found.shape.tile_words(), found.shape.tiles()),
            None => (0, 0),
        }
    }

    /// Touches a tile, and answers its place.
    pub fn touch(&mut self, array: u8, tile: u64, write: bool) -> Option<u64> {
        if self.arrays.len() <= array as usize || 1 << 40 < self.cache.touches() {
            return None;
        }
        let known = &self.arrays[array as usize];
        if known.shape.tiles() <= tile || (write && !known.writable) {
            return None;
        }
        self.cache
            .touch(&mut self.disk, &mut self.words, array, tile, write)
            .ok()
    }

    /// Writes all marked tiles to their files.
    pub fn flush(&mut self) -> bool {
        self.cache.flush(&mut self.disk, &self.words).is_ok()
    }

    /// Whether a frame holds a tile.
    pub fn holds(&self, array: u8, tile: u64) -> bool {
        if self.arrays.len() <= array as usize {
            return false;
        }
        if self.arrays[array as usize].shape.tiles() <= tile {
            return false;
        }
        self.cache.holds(array, tile)
    }

    /// How many touches the cache has counted.
    pub fn touches(&self) -> u128 {
        self.cache.touches()
    }

    // What an array's word with this number is to be.
    fn due(&self, array: u8, number: u64) -> u64 {
        if array == 2 {
            match self.current.get(number as usize) {
                Some(word) => *word,
                None => 0,
            }
        } else if number < 1 << 20 {
            first_word(array as usize, number as u32)
        } else {
            0
        }
    }

    /// Whether the words of a tile stand from `at` on.
    pub fn shows(&self, array: u8, tile: u64, at: u64) -> bool {
        let (tile_words, _tiles) = self.tiles_of(array);
        for k in 0..tile_words {
            let place = at.wrapping_add(k);
            let number = tile.wrapping_mul(tile_words).wrapping_add(k);
            if self.words.len() <= place {
                return false;
            }
            if self.words.get(place) != self.due(array, number) {
                return false;
            }
        }
        true
    }

    /// Writes other words into the frame of a tile, which stand from `at` on.
    pub fn write(&mut self, tile: u64, at: u64, word: u64) {
        let (tile_words, _tiles) = self.tiles_of(2);
        for k in 0..tile_words {
            let place = at.wrapping_add(k);
            let number = tile.wrapping_mul(tile_words).wrapping_add(k);
            let written = word.wrapping_add(k);
            if place < self.words.len() {
                self.words.put(place, written);
            }
            if let Some(current) = self.current.get_mut(number as usize) {
                *current = written;
            }
        }
    }

    // The bytes that the file of the array that may be written is to have.
    fn current_bytes(&self, alloc: Global) -> Result<Vec<u8>, AllocError> {
        let mut bytes = vec![in alloc; 7u8; 32]?;
        for word in &self.current {
            bytes.extend_from_slice(&word.to_le_bytes())?;
        }
        Ok(bytes)
    }

    /// Whether the file of the array that may be written has its words.
    pub fn is_written(&self, alloc: Global) -> bool {
        match self.current_bytes(alloc) {
            Ok(bytes) => self.disk.file(NAMES[2]) == Some(bytes.as_slice()),
            Err(_) => false,
        }
    }

    /// Whether the files of the other arrays are as they were.
    pub fn others_are_same(&self, alloc: Global) -> bool {
        for array in 0..2 {
            let (tile_words, tiles) = self.tiles_of(array);
            let count = tile_words.wrapping_mul(tiles);
            if 1 << 20 < count {
                return false;
            }
            let number = array as usize;
            let Ok(bytes) = file_bytes(alloc, number, count as u32) else {
                return false;
            };
            if self.disk.file(NAMES[number]) != Some(bytes.as_slice()) {
                return false;
            }
        }
        true
    }
}
