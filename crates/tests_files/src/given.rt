//! What tests of files share: shapes and files by texts.
ghost use Rattle.std.specs.Prelude.{◌<◌, All, IsTrue};

use arrayvec::ArrayVec;
use std::alloc::Global;
use std::process::Abort;
use tce_outside::{FaultyDisk, MemDisk};
use tce_space::{Name, Shape, Space, is_name};

const LETTERS: [&str; 8] = ["a", "b", "c", "d", "e", "f", "g", "h"];

// The part of a text with this number, where such characters part it; nothing where there is none.
fn part<'a>(text: &'a str, between: char, number: usize) -> &'a str {
    text.split(between).nth(number).unwrap_or("")
}

fn number_of(rt: &impl Abort, word: &str) -> u64 {
    let Ok(number) = word.parse::<u64>() else {
        panic!(rt; "no number: {word}");
    };
    number
}

/// Ends the test where this does not hold, with what it is about.
pub(crate) fn check(rt: &impl Abort, holds: bool, what: &str) {
    assert!(rt; holds, "{what}");
}

/// What was made. The test ends where it could not be made.
pub(crate) fn must<T, E>(rt: &impl Abort, made: Result<T, E>) -> T {
    match made {
        Ok(made) => made,
        Err(_) => panic!(rt; "this cannot be made"),
    }
}

/// The part of a row with this number, where bars part it; nothing where there is none.
pub(crate) fn bar(row: &str, number: usize) -> &str {
    part(row, '|', number)
}

// The numbers of a text, apart by blanks.
pub(crate) fn numbers_of(rt: &impl Abort, alloc: Global, text: &str) -> Vec<u64> {
    let mut numbers = Vec::new(alloc);
    for word in text.split(' ') {
        if !word.is_empty() {
            assert!(rt; numbers.push(number_of(rt, word)).is_ok());
        }
    }
    numbers
}

pub(crate) fn put(rt: &impl Abort, bytes: &mut Vec<u8>, more: &[u8]) {
    assert!(rt; bytes.extend_from_slice(more).is_ok(), "no memory");
}

pub(crate) fn put_file(rt: &impl Abort, disk: &mut MemDisk, name: &str, bytes: &[u8]) {
    assert!(rt; disk.put_file(name, bytes).is_ok(), "no memory");
}

pub(crate) fn expect_file(rt: &impl Abort, disk: &MemDisk, name: &str, bytes: &[u8]) {
    assert!(rt; disk.file(name) == Some(bytes), "the file {name}");
}

pub(crate) fn repeated(rt: &impl Abort, alloc: Global, byte: u8, count: usize) -> Vec<u8> {
    match vec![in alloc; byte; count] {
        Ok(bytes) => bytes,
        Err(_) => panic!(rt; "no memory"),
    }
}

// A disk with these files, where the call with this number fails.
pub(crate) fn failing(rt: &impl Abort, alloc: Global, files: MemDisk, call: u64) -> FaultyDisk {
    match vec![in alloc; call] {
        Ok(calls) => FaultyDisk::new(files, calls),
        Err(_) => panic!(rt; "no memory"),
    }
}

// Whether all these ranges are declared.
fn are_below(ranges: &[u8], count: u8) -> bool
    ensures { IsTrue result → All (λ range. range < count) ranges.now }
{
    ranges.iter().all(|range| *range < count)
}

// One range more, as `5/2` for an extent of 5 in tiles of 2.
fn add_range(rt: &impl Abort, space: &mut Space, number: usize, word: &str) -> u8 {
    assert!(rt; number < 8);
    let Ok(name) = Name::from(LETTERS[number]) else {
        panic!(rt; "one letter is short");
    };
    assert!(rt; is_name(name.as_str().as_bytes()));
    let extent = number_of(rt, part(word, '/', 0));
    let edge = number_of(rt, part(word, '/', 1));
    assert!(rt; 0 < edge);
    assert!(rt; edge <= extent);
    assert!(rt; extent < 1 << 32);
    let Ok(range) = space.add_range(&name, extent, edge) else {
        panic!(rt; "each name is new");
    };
    range
}

// The shape of a text, as `3/2 5/1` for extents of 3 and 5 in tiles of 2 and 1.
pub(crate) fn shape_of(rt: &impl Abort, alloc: Global, text: &str) -> Shape {
    let Ok(mut space) = Space::new(alloc) else {
        panic!(rt; "memory was ample");
    };
    let mut ranges = ArrayVec::new();
    for word in text.split(' ') {
        if !word.is_empty() {
            assert!(rt; ranges.len() < 8);
            ranges.push(add_range(rt, &mut space, ranges.len(), word));
        }
    }
    assert!(rt; are_below(ranges.as_slice(), space.range_count()));
    let Ok(shape) = space.shape(&ranges) else {
        panic!(rt; "within the limits");
    };
    drop(space);
    shape
}

// A file with these numbers, a word each, behind its first eight bytes, and these bytes behind them.
pub(crate) fn file_of(
    rt: &impl Abort,
    alloc: Global,
    magic: &str,
    words: &str,
    rest: &[u8],
) -> Vec<u8> {
    let mut bytes = Vec::new(alloc);
    put(rt, &mut bytes, magic.as_bytes());
    for word in &numbers_of(rt, alloc, words) {
        put(rt, &mut bytes, &word.to_le_bytes());
    }
    put(rt, &mut bytes, rest);
    bytes
}
