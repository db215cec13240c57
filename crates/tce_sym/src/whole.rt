// All stored words in memory: one after the other, or those of one pair side by side.
ghost use Rattle.std.specs.Prelude.{◌≡◌, ℕ, ◌+◌, ◌*◌, ◌/◌, ◌%◌, ◌<◌, ◌≤◌, ◌^◌, length, slice_index, IfOk, OnOk, IsErr};
ghost use Rattle.tce_space.specs.Limits.{max_array_words};
ghost use Rattle.tce_outside.specs.Files.{file};
ghost use Rattle.tce_outside.specs.Fault.{FaultReported};
ghost use Rattle.tce_tools.specs.Runs.{EachWordIs};
ghost use Rattle.tce_sym.specs.Lines.{IsAcross, walk_place, ArePut, KeepsOtherWords, walk_across};
ghost use Rattle.tce_sym.specs.Told.{HasStoredWords, AreWholeOf, ArePairsOf, AddPairs};

use crate::lines::{Grid, WINDOW};
use crate::walks::{Walk, place_at};
use tce_array::Form;
use tce_outside::{Disk, Failed};
use tce_tools::read_words;

// The most pairs whose words are read at once.
const STRIP: usize = 512;

/// Reads all words, one after the other.
pub fn read_whole<D: Disk>(
    disk: &mut D,
    packed: &str,
    grid: &Grid,
    lines: &mut [u64],
) -> Result<(), Failed>
    requires room { grid.now.count ≤ length lines.old }
    requires count { grid.now.count ≤ max_array_words }
    requires file { HasStoredWords (D.files disk.old) packed.now grid.now.count }
    ensures read { OnOk result (AreWholeOf (D.files disk.old) packed.now grid.now lines.new) }
    ensures same { D.files disk.new ≡ D.files disk.old }
    ensures fault_reported { FaultReported D.faults disk.old disk.new (IsErr result) }
{
    let mut bytes = [0; 8 * WINDOW];
    let mut done = 0;
    while done < grid.count {
        let len = (grid.count - done).min(WINDOW as u64);
        let words = &mut lines[done as usize..(done + len) as usize];
        read_words(disk, packed, Form::One, 32 + 8 * done, &mut bytes, words)?;
        done += len;
    }
    Ok(())
}

// Puts words of one place of the other coordinates, those of the pairs from one on, beside those of the other places.
fn put_across(grid: &Grid, lines: &mut [u64], from: u64, outer: u64, words: &[u64])
    requires room { IsAcross grid.now (length lines.old) }
    requires outer { outer < grid.now.others }
    requires pairs { from + length words.now ≤ grid.now.pairs }
    ensures put { ArePut grid.now outer from words.now lines.new }
    ensures kept { KeepsOtherWords grid.now outer from lines.old lines.new }
{
    for k in 0..words.len() {
        lines[(from as usize + k) * grid.pitch + outer as usize] = words[k];
    }
}

// Reads the words of some pairs from one on, and answers how many pairs these are.
fn read_strip<D: Disk>(
    disk: &mut D,
    packed: &str,
    grid: &Grid,
    lines: &mut [u64],
    from: u64,
) -> Result<u64, Failed>
    requires room { IsAcross grid.now (length lines.old) }
    requires count { grid.now.count ≤ max_array_words }
    requires from { from < grid.now.pairs }
    requires file { HasStoredWords (D.files disk.old) packed.now grid.now.count }
    ensures some { IfOk result (λ len. (0 < len) × (from + len ≤ grid.now.pairs)) }
    ensures read { IfOk result
        (λ len. AddPairs (D.files disk.old) packed.now grid.now from len lines.old lines.new) }
    ensures same { D.files disk.new ≡ D.files disk.old }
    ensures fault_reported { FaultReported D.faults disk.old disk.new (IsErr result) }
{
    let len = (grid.pairs - from).min(STRIP as u64);
    let mut bytes = [0; 8 * STRIP];
    let mut buffer = [0; STRIP];
    let words = &mut buffer[..len as usize];
    for outer in 0..grid.others {
        read_words(
            disk,
            packed,
            Form::One,
            32 + 8 * (outer * grid.pairs + from),
            &mut bytes,
            words,
        )?;
        put_across(grid, lines, from, outer, words);
    }
    Ok(len)
}

/// Reads all words, those of one pair side by side.
pub fn read_across<D: Disk>(
    disk: &mut D,
    packed: &str,
    grid: &Grid,
    lines: &mut [u64],
) -> Result<(), Failed>
    requires room { IsAcross grid.now (length lines.old) }
    requires count { grid.now.count ≤ max_array_words }
    requires file { HasStoredWords (D.files disk.old) packed.now grid.now.count }
    ensures read { OnOk result (ArePairsOf (D.files disk.old) packed.now grid.now lines.new) }
    ensures same { D.files disk.new ≡ D.files disk.old }
    ensures fault_reported { FaultReported D.faults disk.old disk.new (IsErr result) }
{
    let pairs = grid.pairs;
    let mut from = 0;
    while from < pairs {
        from += read_strip(disk, packed, grid, lines, from)?;
    }
    Ok(())
}

// Copies words that follow each other.
fn copy_words(lines: &[u64], at: usize, words: &mut [u64])
    requires { at + length words.old ≤ length lines.now }
    ensures { EachWordIs words.new (λ k. slice_index lines.now (at + k)) }
{
    words.copy_from_slice(&lines[at..at + words.len()]);
}

/// The words of a walk, where all stand one after the other.
pub fn gather(grid: &Grid, lines: &[u64], walk: &Walk, words: &mut [u64])
    requires room { grid.now.count ≤ length lines.now }
    requires count { grid.now.count ≤ max_array_words }
    requires places { (k : ℕ) → k < length words.old → walk_place walk.now k < grid.now.count }
    requires few { length words.old ≤ 8192 }
    ensures { EachWordIs words.new (λ k. slice_index lines.now (walk_place walk.now k)) }
{
    if walk.step == 1 && !walk.grows && !words.is_empty() {
        copy_words(lines, walk.place as usize, words);
        return;
    }
    for k in 0..words.len() {
        words[k] = lines[place_at(walk, k as u64) as usize];
    }
}

// Where a word stands among those of pairs side by side.
fn across_at(grid: &Grid, place: u64) -> usize
    requires some { 0 < grid.now.pairs }
    requires fits { grid.now.pairs * grid.now.pitch < 2 ^ 63 }
    requires place { place < max_array_words }
    requires outer { place / grid.now.pairs < max_array_words }
    ensures { result ≡ place % grid.now.pairs * grid.now.pitch + place / grid.now.pairs }
{
    (place % grid.pairs) as usize * grid.pitch + (place / grid.pairs) as usize
}

/// The words of a walk, where those of one pair stand side by side.
pub fn gather_across(grid: &Grid, lines: &[u64], walk: &Walk, words: &mut [u64])
    requires room { IsAcross grid.now (length lines.now) }
    requires count { grid.now.count ≤ max_array_words }
    requires places { (k : ℕ) → k < length words.old → walk_place walk.now k < grid.now.count }
    requires few { length words.old ≤ 8192 }
    ensures { EachWordIs words.new (λ k. slice_index lines.now (walk_across grid.now walk.now k)) }
{
    if walk.step == grid.pairs && !walk.grows && !words.is_empty() {
        copy_words(lines, across_at(grid, walk.place), words);
        return;
    }
    for k in 0..words.len() {
        words[k] = lines[across_at(grid, place_at(walk, k as u64))];
    }
}
