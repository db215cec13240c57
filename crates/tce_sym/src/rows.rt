// Rows: elements that follow each other along the last dimension.
ghost use Rattle.std.specs.Prelude.{◌≡◌, ℕ, ◌+◌, ◌<◌, ◌≤◌, ◌^◌, Bool, IsTrue, false, length, replicate, slice_index, OnOk, IsErr};
ghost use Rattle.tce_space.specs.Box.{IsInside};
ghost use Rattle.tce_outside.specs.Files.{file};
ghost use Rattle.tce_outside.specs.Fault.{FaultReported};
ghost use Rattle.tce_tools.specs.Runs.{EachWordIs};
ghost use Rattle.tce_sym.specs.Storage.{AreRight, IsPair, turned};
ghost use Rattle.tce_sym.specs.Lines.{HasRoomAt};
ghost use Rattle.tce_sym.specs.Cells.{AreTriangles, IsAmong, IsPairOf, IsWalkOf, IsMirroredWalkOf, moved_pair, IsUpper, IsLower, IsMirrored, IsStoredPair, IsFirstPairOf, IsAlongSecond, IsAlongOther};
ghost use Rattle.tce_sym.specs.Told.{HasStoredWords, AreHeldOf, AreStoredOf, AreMirroredOf, AreCellsOf};

use crate::cells::{Pair, Triangles};
use crate::symmetry::{Symmetry, at_others, pairs, signed};
use crate::tile_rows::TileRow;
use crate::walks::{Walk, read_walk};
use tce_outside::{Disk, Failed};
use tce_space::{Shape, place};

/// Elements that follow each other along the last dimension.
#[derive(Clone, Copy)]
pub struct Row {
    /// The first of them.
    pub pair: Pair,
    /// Whether the last dimension is the second of the two; else it is one of the others.
    pub is_second: bool,
}

// The row from the element with these coordinates on.
fn row_at(shape: &Shape, s: &Symmetry, coords: &[u64]) -> Row
    requires right { AreRight shape.now.extents s.now }
    requires inside { IsInside shape.now.extents coords.now }
    ensures pair { IsPairOf shape.now.extents s.now coords.now result.pair }
    ensures second { IsTrue result.is_second → s.now.second + 1 ≡ length coords.now }
    ensures other { result.is_second ≡ false → s.now.second + 1 < length coords.now }
{
    let lengths = at_others(s, shape.extents());
    let others = at_others(s, coords);
    Row {
        pair: Pair {
            outer: place(lengths.as_slice(), others.as_slice()),
            first: coords[s.first as usize],
            second: coords[s.second as usize],
        },
        is_second: s.second as usize + 1 == coords.len(),
    }
}

/// The elements of a tile's row; any row where it has none.
pub fn row_of(shape: &Shape, s: &Symmetry, row: &TileRow) -> Row
    requires right { AreRight shape.now.extents s.now }
    requires inside { 0 < row.now.used → IsInside shape.now.extents row.now.coords.items }
    ensures pair { IsFirstPairOf shape.now.extents s.now row.now result.pair }
    ensures second { IsAlongSecond s.now row.now result.is_second }
    ensures other { IsAlongOther s.now row.now result.is_second }
{
    if row.used == 0 {
        return Row {
            pair: Pair {
                outer: 0,
                first: 0,
                second: 0,
            },
            is_second: true,
        };
    }
    row_at(shape, s, row.coords.as_slice())
}

// The row from the element so many steps on.
fn moved_row(row: &Row, steps: usize) -> Row
    requires outer { row.now.pair.outer + steps < 2 ^ 64 }
    requires second { row.now.pair.second + steps < 2 ^ 64 }
    ensures pair { result.pair ≡ moved_pair row.now steps }
    ensures kind { result.is_second ≡ row.now.is_second }
{
    let outer = row.pair.outer;
    let second = row.pair.second;
    let steps = steps as u64;
    Row {
        pair: Pair {
            outer: if row.is_second { outer } else { outer + steps },
            first: row.pair.first,
            second: if row.is_second {
                second + steps
            } else {
                second
            },
        },
        is_second: row.is_second,
    }
}

// How many elements from the first on are mirrored: their second coordinate is the lower one.
fn mirrored_len(row: &Row, len: usize) -> usize
    ensures within { result ≤ len }
    ensures mirrored { (k : ℕ) → k < result → IsMirrored (moved_pair row.now k) }
    ensures others { (k : ℕ) → result ≤ k → k < len → IsUpper (moved_pair row.now k) }
{
    let below = row.pair.first.saturating_sub(row.pair.second);
    if row.is_second {
        return below.min(len as u64) as usize;
    }
    if below > 0 { len } else { 0 }
}

// How many elements from the first on are 0 between equal coordinates, where no element is mirrored.
fn diagonal_len(negated: bool, row: &Row, len: usize) -> usize
    requires { (k : ℕ) → k < len → IsUpper (moved_pair row.now k) }
    ensures within { result ≤ len }
    ensures negated { 0 < result → IsTrue negated }
    ensures diagonal { (k : ℕ) → k < result → IsLower (moved_pair row.now k) }
    ensures others { (k : ℕ) → result ≤ k → k < len → IsStoredPair negated (moved_pair row.now k) }
{
    if !negated || row.pair.first < row.pair.second {
        return 0;
    }
    if row.is_second {
        return len.min(1);
    }
    len
}

// The words of a row of stored elements.
fn stored_walk(triangles: &Triangles, row: &Row) -> Walk
    requires triangles { AreTriangles triangles.now }
    requires among { IsAmong triangles.now row.now.pair }
    requires stored { IsPair triangles.now.negated row.now.pair.first row.now.pair.second }
    ensures { IsWalkOf triangles.now row.now result }
{
    let slots = &triangles.slots;
    let pair = &row.pair;
    let before = pair.outer * triangles.pairs;
    let column = pair.second + u64::from(!triangles.negated);
    let outer = pair.outer.wrapping_mul(slots.by_outer);
    Walk {
        place: before + (pairs(triangles.negated, pair.second) + pair.first),
        step: if row.is_second {
            column
        } else {
            triangles.pairs
        },
        grows: row.is_second,
        slot: outer.wrapping_add(pair.second.wrapping_mul(slots.by_second)),
        next: if row.is_second {
            slots.by_second
        } else {
            slots.by_outer
        },
        column,
        region: slots.columns,
    }
}

// The words of a row of mirrored elements.
fn mirrored_walk(triangles: &Triangles, row: &Row) -> Walk
    requires triangles { AreTriangles triangles.now }
    requires among { IsAmong triangles.now row.now.pair }
    requires mirrored { row.now.pair.second < row.now.pair.first }
    ensures { IsMirroredWalkOf triangles.now row.now result }
{
    let slots = &triangles.slots;
    let pair = &row.pair;
    let before = pair.outer * triangles.pairs;
    Walk {
        place: before + (pairs(triangles.negated, pair.first) + pair.second),
        step: if row.is_second { 1 } else { triangles.pairs },
        grows: false,
        slot: pair.outer,
        next: u64::from(!row.is_second),
        column: slots.grid.line as u64,
        region: slots.pieces,
    }
}

// Turns the signs of words, if they are to be.
fn turn(negated: bool, words: &mut [u64])
    ensures { EachWordIs words.new (λ k. turned negated (slice_index words.old k)) }
{
    for k in 0..words.len() {
        words[k] = signed(negated, words[k]);
    }
}

// Makes each word 0.
fn clear(words: &mut [u64])
    ensures { words.new ≡ replicate (length words.old) 0 }
{
    words.fill(0);
}

// The elements of a row, all of which are stored.
fn read_stored<D: Disk>(
    disk: &mut D,
    packed: &str,
    triangles: &Triangles,
    lines: &mut [u64],
    row: &Row,
    words: &mut [u64],
) -> Result<(), Failed>
    requires triangles { AreTriangles triangles.now }
    requires among { (k : ℕ) → k < length words.old → IsAmong triangles.now (moved_pair row.now k) }
    requires stored { (k : ℕ) → k < length words.old
        → IsStoredPair triangles.now.negated (moved_pair row.now k) }
    requires few { length words.old ≤ 8192 }
    requires file { HasStoredWords (D.files disk.old) packed.now triangles.now.count }
    requires room { HasRoomAt triangles.now.slots.grid lines.old }
    requires lines { AreHeldOf (D.files disk.old) packed.now triangles.now.slots.grid lines.old }
    ensures read { OnOk result
        (AreStoredOf (D.files disk.old) packed.now triangles.now row.now words.new) }
    ensures lines { OnOk result
        (AreHeldOf (D.files disk.old) packed.now triangles.now.slots.grid lines.new) }
    ensures same { D.files disk.new ≡ D.files disk.old }
    ensures fault_reported { FaultReported D.faults disk.old disk.new (IsErr result) }
{
    if words.is_empty() {
        return Ok(());
    }
    let walk = stored_walk(triangles, row);
    read_walk(disk, packed, &triangles.slots.grid, lines, &walk, words)
}

// The elements of a row, all of which are mirrored.
fn read_mirrored<D: Disk>(
    disk: &mut D,
    packed: &str,
    triangles: &Triangles,
    lines: &mut [u64],
    row: &Row,
    words: &mut [u64],
) -> Result<(), Failed>
    requires triangles { AreTriangles triangles.now }
    requires among { (k : ℕ) → k < length words.old → IsAmong triangles.now (moved_pair row.now k) }
    requires mirrored { (k : ℕ) → k < length words.old → IsMirrored (moved_pair row.now k) }
    requires few { length words.old ≤ 8192 }
    requires file { HasStoredWords (D.files disk.old) packed.now triangles.now.count }
    requires room { HasRoomAt triangles.now.slots.grid lines.old }
    requires lines { AreHeldOf (D.files disk.old) packed.now triangles.now.slots.grid lines.old }
    ensures read { OnOk result
        (AreMirroredOf (D.files disk.old) packed.now triangles.now row.now words.new) }
    ensures lines { OnOk result
        (AreHeldOf (D.files disk.old) packed.now triangles.now.slots.grid lines.new) }
    ensures same { D.files disk.new ≡ D.files disk.old }
    ensures fault_reported { FaultReported D.faults disk.old disk.new (IsErr result) }
{
    if words.is_empty() {
        return Ok(());
    }
    let walk = mirrored_walk(triangles, row);
    read_walk(disk, packed, &triangles.slots.grid, lines, &walk, words)?;
    turn(triangles.negated, words);
    Ok(())
}

// The elements of a row, of which none is mirrored.
fn read_others<D: Disk>(
    disk: &mut D,
    packed: &str,
    triangles: &Triangles,
    lines: &mut [u64],
    row: &Row,
    words: &mut [u64],
) -> Result<(), Failed>
    requires triangles { AreTriangles triangles.now }
    requires among { (k : ℕ) → k < length words.old → IsAmong triangles.now (moved_pair row.now k) }
    requires others { (k : ℕ) → k < length words.old → IsUpper (moved_pair row.now k) }
    requires few { length words.old ≤ 8192 }
    requires file { HasStoredWords (D.files disk.old) packed.now triangles.now.count }
    requires room { HasRoomAt triangles.now.slots.grid lines.old }
    requires lines { AreHeldOf (D.files disk.old) packed.now triangles.now.slots.grid lines.old }
    ensures read { OnOk result
        (AreCellsOf (D.files disk.old) packed.now triangles.now row.now words.new) }
    ensures lines { OnOk result
        (AreHeldOf (D.files disk.old) packed.now triangles.now.slots.grid lines.new) }
    ensures same { D.files disk.new ≡ D.files disk.old }
    ensures fault_reported { FaultReported D.faults disk.old disk.new (IsErr result) }
{
    if words.is_empty() {
        return Ok(());
    }
    let zeros = diagonal_len(triangles.negated, row, words.len());
    let behind = moved_row(row, zeros);
    let (diagonal, stored) = words.split_at_mut(zeros);
    clear(diagonal);
    read_stored(disk, packed, triangles, lines, &behind, stored)
}

/// The elements of a row.
pub fn read_row<D: Disk>(
    disk: &mut D,
    packed: &str,
    triangles: &Triangles,
    lines: &mut [u64],
    row: &Row,
    words: &mut [u64],
) -> Result<(), Failed>
    requires triangles { AreTriangles triangles.now }
    requires among { (k : ℕ) → k < length words.old → IsAmong triangles.now (moved_pair row.now k) }
    requires few { length words.old ≤ 8192 }
    requires file { HasStoredWords (D.files disk.old) packed.now triangles.now.count }
    requires room { HasRoomAt triangles.now.slots.grid lines.old }
    requires lines { AreHeldOf (D.files disk.old) packed.now triangles.now.slots.grid lines.old }
    ensures read { OnOk result
        (AreCellsOf (D.files disk.old) packed.now triangles.now row.now words.new) }
    ensures lines { OnOk result
        (AreHeldOf (D.files disk.old) packed.now triangles.now.slots.grid lines.new) }
    ensures same { D.files disk.new ≡ D.files disk.old }
    ensures fault_reported { FaultReported D.faults disk.old disk.new (IsErr result) }
{
    if words.is_empty() {
        return Ok(());
    }
    let len = mirrored_len(row, words.len());
    let behind = moved_row(row, len);
    let (mirrored, rest) = words.split_at_mut(len);
    read_mirrored(disk, packed, triangles, lines, row, mirrored)?;
    read_others(disk, packed, triangles, lines, &behind, rest)
}
