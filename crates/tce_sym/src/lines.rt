// Lines of stored words, held in memory: the words from one place on, each line in a slot of its own. Slots stand side by
// side, and the words of a line below each other, so that words of neighbouring slots are neighbours.
ghost use Rattle.std.specs.Prelude.{◌≡◌, ◌+◌, ◌*◌, ◌<◌, ◌≤◌, length, IfOk, OnOk, IsErr};
ghost use Rattle.tce_space.specs.Limits.{max_array_words};
ghost use Rattle.tce_outside.specs.Files.{file};
ghost use Rattle.tce_outside.specs.Fault.{FaultReported};
ghost use Rattle.tce_sym.specs.Lines.{IsGrid, IsWanted, HasLine, IsHeldWord, PutsWords};
ghost use Rattle.tce_sym.specs.Told.{HasStoredWords, IsStoredWord, AreLinesOf};

use tce_array::Form;
use tce_outside::{Disk, Failed};
use tce_tools::read_words;

/// The most words of a line.
pub const LONGEST_LINE: usize = 256;

/// The most words that are read at once, of which several lines are made.
pub const WINDOW: usize = 2048;

/// How the stored words stand in memory.
#[derive(Clone, Copy)]
pub enum Layout {
    /// Some of them, in lines.
    Lines,
    /// All of them, one after the other.
    Whole,
    /// All of them, those of one pair side by side.
    Across,
}

/// The room for stored words. Lines stand below a row of marks, one for each slot: a row for each word of a line. A mark is
/// one more than the place of its line's first word, or 0 where the slot has none.
#[derive(Clone, Copy)]
pub struct Grid {
    /// How the words stand.
    pub layout: Layout,
    /// The last slot.
    pub last: usize,
    /// The words from a row to the next, or from a pair to the next where those of a pair stand side by side.
    pub pitch: usize,
    /// The words of a line.
    pub line: usize,
    /// How many words are stored.
    pub count: u64,
    /// How many words there are of a pair.
    pub others: u64,
    /// How many pairs there are.
    pub pairs: u64,
}

/// A stored word that is wanted, and the words that are read for it, of which lines are made.
#[derive(Clone, Copy)]
pub struct Wanted {
    /// The place of the word.
    pub place: u64,
    /// The place of the first word that is read.
    pub start: u64,
    /// How many words are read, as far as there are so many.
    pub span: usize,
    /// The slot for the first line.
    pub slot: usize,
    /// The slots from a line to the next.
    pub next: usize,
    /// The places from the first line to the second.
    pub step: u64,
    /// How many places more there are each time from a line to the next.
    pub growth: u64,
}

// Buffers for the words of a read and for their bytes.
#[derive(Drop)]
struct Buffers<'a> {
    bytes: &'a mut [u8],
    words: &'a mut [u64],
}

// Puts a line into a slot, as far as there are words.
fn put_line(grid: &Grid, lines: &mut [u64], slot: usize, start: u64, words: &[u64])
    requires grid { IsGrid grid.now (length lines.old) }
    requires slot { slot ≤ grid.now.last }
    requires start { start ≤ max_array_words }
    requires short { length words.now ≤ grid.now.line }
    requires whole { HasLine grid.now start words.now }
    ensures { PutsWords grid.now start words.now lines.old lines.new }
{
    lines[slot] = 0;
    for k in 0..words.len() {
        lines[(1 + k) * grid.pitch + slot] = words[k];
    }
    lines[slot] = start + 1;
}

// Puts the words from a place on into lines: the first into the slot, and as many whole ones behind it as there are.
fn put_lines(grid: &Grid, lines: &mut [u64], wanted: Wanted, start: u64, words: &[u64])
    requires grid { IsGrid grid.now (length lines.old) }
    requires slot { wanted.slot ≤ grid.now.last }
    requires start { start + length words.now ≤ grid.now.count }
    requires count { grid.now.count ≤ max_array_words }
    requires whole { HasLine grid.now start words.now }
    ensures { PutsWords grid.now start words.now lines.old lines.new }
{
    let first = grid.line.min(words.len());
    put_line(grid, lines, wanted.slot, start, &words[..first]);
    let mut slot = wanted.slot;
    let mut step = wanted.step.min(WINDOW as u64) as usize;
    let mut from = 0;
    while grid.line + step <= words.len() - from && wanted.next <= grid.last - slot {
        from += step.max(1);
        slot += wanted.next;
        step += wanted.growth.min(1) as usize;
        if grid.line <= words.len() - from {
            put_line(
                grid,
                lines,
                slot,
                start + from as u64,
                &words[from..from + grid.line],
            );
        }
    }
}

// A stored word, and the lines of the words that are read for it, by way of buffers.
fn read_through<D: Disk>(
    disk: &mut D,
    packed: &str,
    grid: &Grid,
    lines: &mut [u64],
    wanted: Wanted,
    buffers: Buffers<'_>,
) -> Result<u64, Failed>
    requires grid { IsGrid grid.now (length lines.old) }
    requires wanted { IsWanted grid.now wanted }
    requires span { wanted.span ≤ length buffers.words.now }
    requires bytes { 8 * wanted.span ≤ length buffers.bytes.now }
    requires file { HasStoredWords (D.files disk.old) packed.now grid.now.count }
    requires lines { AreLinesOf (D.files disk.old) packed.now grid.now lines.old }
    ensures word { IfOk result (IsStoredWord (D.files disk.old) packed.now wanted.place) }
    ensures lines { OnOk result (AreLinesOf (D.files disk.old) packed.now grid.now lines.new) }
    ensures same { D.files disk.new ≡ D.files disk.old }
    ensures fault_reported { FaultReported D.faults disk.old disk.new (IsErr result) }
{
    let len = (grid.count - wanted.start).min(wanted.span as u64) as usize;
    let Buffers { bytes, words } = buffers;
    let words = &mut words[..len];
    read_words(disk, packed, Form::One, 32 + 8 * wanted.start, bytes, words)?;
    put_lines(grid, lines, wanted, wanted.start, words);
    Ok(words[(wanted.place - wanted.start) as usize])
}

// A stored word, and the lines of few words.
fn read_few<D: Disk>(
    disk: &mut D,
    packed: &str,
    grid: &Grid,
    lines: &mut [u64],
    wanted: Wanted,
) -> Result<u64, Failed>
    requires grid { IsGrid grid.now (length lines.old) }
    requires wanted { IsWanted grid.now wanted }
    requires span { wanted.span ≤ 256 }
    requires file { HasStoredWords (D.files disk.old) packed.now grid.now.count }
    requires lines { AreLinesOf (D.files disk.old) packed.now grid.now lines.old }
    ensures word { IfOk result (IsStoredWord (D.files disk.old) packed.now wanted.place) }
    ensures lines { OnOk result (AreLinesOf (D.files disk.old) packed.now grid.now lines.new) }
    ensures same { D.files disk.new ≡ D.files disk.old }
    ensures fault_reported { FaultReported D.faults disk.old disk.new (IsErr result) }
{
    let mut bytes = [0; 8 * LONGEST_LINE];
    let mut words = [0; LONGEST_LINE];
    let buffers = Buffers {
        bytes: &mut bytes,
        words: &mut words,
    };
    read_through(disk, packed, grid, lines, wanted, buffers)
}

// A stored word, and the lines of many words.
fn read_many<D: Disk>(
    disk: &mut D,
    packed: &str,
    grid: &Grid,
    lines: &mut [u64],
    wanted: Wanted,
) -> Result<u64, Failed>
    requires grid { IsGrid grid.now (length lines.old) }
    requires wanted { IsWanted grid.now wanted }
    requires span { wanted.span ≤ 2048 }
    requires file { HasStoredWords (D.files disk.old) packed.now grid.now.count }
    requires lines { AreLinesOf (D.files disk.old) packed.now grid.now lines.old }
    ensures word { IfOk result (IsStoredWord (D.files disk.old) packed.now wanted.place) }
    ensures lines { OnOk result (AreLinesOf (D.files disk.old) packed.now grid.now lines.new) }
    ensures same { D.files disk.new ≡ D.files disk.old }
    ensures fault_reported { FaultReported D.faults disk.old disk.new (IsErr result) }
{
    let mut bytes = [0; 8 * WINDOW];
    let mut words = [0; WINDOW];
    let buffers = Buffers {
        bytes: &mut bytes,
        words: &mut words,
    };
    read_through(disk, packed, grid, lines, wanted, buffers)
}

/// A stored word, and the lines that are read for it.
pub fn read_word<D: Disk>(
    disk: &mut D,
    packed: &str,
    grid: &Grid,
    lines: &mut [u64],
    wanted: Wanted,
) -> Result<u64, Failed>
    requires grid { IsGrid grid.now (length lines.old) }
    requires wanted { IsWanted grid.now wanted }
    requires file { HasStoredWords (D.files disk.old) packed.now grid.now.count }
    requires lines { AreLinesOf (D.files disk.old) packed.now grid.now lines.old }
    ensures word { IfOk result (IsStoredWord (D.files disk.old) packed.now wanted.place) }
    ensures lines { OnOk result (AreLinesOf (D.files disk.old) packed.now grid.now lines.new) }
    ensures same { D.files disk.new ≡ D.files disk.old }
    ensures fault_reported { FaultReported D.faults disk.old disk.new (IsErr result) }
{
    if wanted.span <= LONGEST_LINE {
        read_few(disk, packed, grid, lines, wanted)
    } else {
        read_many(disk, packed, grid, lines, wanted)
    }
}

/// The word of a place, if the slot holds it.
pub fn held_word(grid: &Grid, lines: &[u64], slot: usize, place: u64) -> Option<u64>
    requires grid { IsGrid grid.now (length lines.now) }
    requires slot { slot ≤ grid.now.last }
    requires place { place < grid.now.count }
    requires count { grid.now.count ≤ max_array_words }
    ensures { IsHeldWord grid.now lines.now place result }
{
    let mark = lines[slot];
    if 0 < mark && mark <= place + 1 && place + 1 - mark < grid.line as u64 {
        let behind = (place + 1 - mark) as usize;
        return Some(lines[(1 + behind) * grid.pitch + slot]);
    }
    None
}
