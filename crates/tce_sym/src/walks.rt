// Stored words that are wanted one after the other, and the slots for their lines.
ghost use Rattle.std.specs.Prelude.{◌≡◌, ℕ, ◌<◌, ◌≤◌, ◌^◌, List, length, OnOk, IsErr};
ghost use Rattle.tce_space.specs.Limits.{max_array_words};
ghost use Rattle.tce_outside.specs.Files.{file};
ghost use Rattle.tce_outside.specs.Fault.{FaultReported};
ghost use Rattle.tce_sym.specs.Lines.{IsGrid, IsWanted, AreLines, walk_place, HasRoomAt, WalkedBelow};
ghost use Rattle.tce_sym.specs.Told.{HasStoredWords, AreLinesOf, AreHeldOf, AreWalked};

use crate::lines::{Grid, Layout, WINDOW, Wanted, held_word, read_word};
use crate::whole::{gather, gather_across};
use tce_outside::{Disk, Failed};

// Lines that are no farther apart are read together.
const NEAR: u64 = 512;

/// The slots for some lines. Where a line has one comes from a number that the walk counts, and from the place of the line.
#[derive(Clone, Copy)]
pub struct Region {
    /// The first slot.
    pub base: u64,
    /// Which binary digits of the number count.
    pub mask: u64,
    /// A line has two to this power words.
    pub shift: u32,
    /// The slots from a line to the next of the same number.
    pub groups: u64,
    /// Which binary digits of a line's place, so many times, count.
    pub ahead: u64,
    /// Words are read from multiples of this number on, and so many at least.
    pub unit: u64,
    /// The slots from a line to the next that is read with it.
    pub next: usize,
    /// How many places more there are each time from a line to the next that is read with it.
    pub growth: u64,
}

/// Words that are wanted one after the other.
#[derive(Clone, Copy)]
pub struct Walk {
    /// The place of the first.
    pub place: u64,
    /// The places from the first to the second.
    pub step: u64,
    /// Whether each step has one place more than the one before; else all have as many.
    pub grows: bool,
    /// The number of the first for its slot.
    pub slot: u64,
    /// How much more the number of the next is.
    pub next: u64,
    /// The places from the first one's line to the next that is read with it.
    pub column: u64,
    /// The slots.
    pub region: Region,
}

/// The place of a word.
pub fn place_at(walk: &Walk, k: u64) -> u64
    requires small { walk_place walk.now k < 2 ^ 64 }
    requires few { k < 2 ^ 32 }
    ensures { result ≡ walk_place walk.now k }
{
    let along = walk.place + walk.step * k;
    if walk.grows {
        along + k * k.saturating_sub(1) / 2
    } else {
        along
    }
}

// The slot for the line that begins at a place, for a word.
fn slot_at(grid: &Grid, walk: &Walk, k: u64, place: u64) -> usize
    ensures { result ≤ grid.now.last }
{
    let region = &walk.region;
    let number = walk.slot.wrapping_add(walk.next.wrapping_mul(k)) & region.mask;
    let line = (place >> region.shift.min(63)).wrapping_mul(region.groups) & region.ahead;
    let slot = region.base.wrapping_add(number | line);
    slot.min(grid.last as u64) as usize
}

// How many words are read at once.
fn span_of(grid: &Grid, unit: u64, step: u64) -> usize
    requires unit { unit ≤ 2048 }
    requires line { grid.now.line ≤ 256 }
    ensures line { grid.now.line ≤ result }
    ensures unit { unit ≤ result }
    ensures short { result ≤ 2048 }
{
    if unit == 1 && step < NEAR {
        return WINDOW;
    }
    grid.line.max(unit as usize)
}

// What is read for a word that no slot holds.
fn wanted_at(grid: &Grid, walk: &Walk, k: u64, place: u64) -> Wanted
    requires line { grid.now.line ≤ 256 }
    requires place { place < grid.now.count }
    requires count { grid.now.count ≤ max_array_words }
    ensures wanted { IsWanted grid.now result }
    ensures place { result.place ≡ place }
{
    let unit = walk.region.unit.min(WINDOW as u64).max(1);
    let start = place - place % unit;
    let more = if walk.grows { k } else { 0 };
    let step = walk.column.saturating_add(more);
    Wanted {
        place,
        start,
        span: span_of(grid, unit, step),
        slot: slot_at(grid, walk, k, start),
        next: walk.region.next,
        step,
        growth: walk.region.growth,
    }
}

// The words from one on that slots hold, as far as they hold all. The first that is not there is answered.
fn held(grid: &Grid, lines: &[u64], walk: &Walk, words: &mut [u64], from: usize) -> usize
    requires grid { IsGrid grid.now (length lines.now) }
    requires count { grid.now.count ≤ max_array_words }
    requires places { (k : ℕ) → k < length words.old → walk_place walk.now k < grid.now.count }
    requires few { length words.old ≤ 8192 }
    requires from { from ≤ length words.old }
    ensures within { (from ≤ result) × (result ≤ length words.new) }
    ensures held { (bytes : List ℕ) → AreLines grid.now bytes lines.now
        → WalkedBelow walk.now bytes from words.old → WalkedBelow walk.now bytes result words.new }
{
    let mut done = from;
    while done < words.len() {
        let place = place_at(walk, done as u64);
        let slot = slot_at(grid, walk, done as u64, place);
        let Some(word) = held_word(grid, lines, slot, place) else {
            return done;
        };
        words[done] = word;
        done += 1;
    }
    done
}

// The words of a walk, through lines. Those that no slot holds are read, and their lines.
fn read_lines<D: Disk>(
    disk: &mut D,
    packed: &str,
    grid: &Grid,
    lines: &mut [u64],
    walk: &Walk,
    words: &mut [u64],
) -> Result<(), Failed>
    requires grid { IsGrid grid.now (length lines.old) }
    requires count { grid.now.count ≤ max_array_words }
    requires places { (k : ℕ) → k < length words.old → walk_place walk.now k < grid.now.count }
    requires few { length words.old ≤ 8192 }
    requires file { HasStoredWords (D.files disk.old) packed.now grid.now.count }
    requires lines { AreLinesOf (D.files disk.old) packed.now grid.now lines.old }
    ensures read { OnOk result (AreWalked (D.files disk.old) packed.now walk.now words.new) }
    ensures lines { OnOk result (AreLinesOf (D.files disk.old) packed.now grid.now lines.new) }
    ensures same { D.files disk.new ≡ D.files disk.old }
    ensures fault_reported { FaultReported D.faults disk.old disk.new (IsErr result) }
{
    let mut done = held(grid, lines, walk, words, 0);
    while done < words.len() {
        let place = place_at(walk, done as u64);
        let wanted = wanted_at(grid, walk, done as u64, place);
        words[done] = read_word(disk, packed, grid, lines, wanted)?;
        done = held(grid, lines, walk, words, done + 1);
    }
    Ok(())
}

/// The words of a walk.
pub fn read_walk<D: Disk>(
    disk: &mut D,
    packed: &str,
    grid: &Grid,
    lines: &mut [u64],
    walk: &Walk,
    words: &mut [u64],
) -> Result<(), Failed>
    requires room { HasRoomAt grid.now lines.old }
    requires count { grid.now.count ≤ max_array_words }
    requires places { (k : ℕ) → k < length words.old → walk_place walk.now k < grid.now.count }
    requires few { length words.old ≤ 8192 }
    requires file { HasStoredWords (D.files disk.old) packed.now grid.now.count }
    requires lines { AreHeldOf (D.files disk.old) packed.now grid.now lines.old }
    ensures read { OnOk result (AreWalked (D.files disk.old) packed.now walk.now words.new) }
    ensures lines { OnOk result (AreHeldOf (D.files disk.old) packed.now grid.now lines.new) }
    ensures same { D.files disk.new ≡ D.files disk.old }
    ensures fault_reported { FaultReported D.faults disk.old disk.new (IsErr result) }
{
    match grid.layout {
        Layout::Lines => read_lines(disk, packed, grid, lines, walk, words),
        Layout::Whole => {
            gather(grid, lines, walk, words);
            Ok(())
        }
        Layout::Across => {
            gather_across(grid, lines, walk, words);
            Ok(())
        }
    }
}
