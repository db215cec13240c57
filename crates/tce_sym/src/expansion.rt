// Whole arrays from stored elements.
ghost use Rattle.std.specs.Prelude.{◌≡◌, ◌≢◌, ◌+◌, ◌<◌, ◌≤◌, ◌^◌, length, replicate, OnOk, IsErr, IsErrOf};
ghost use Rattle.tce_space.specs.Limits.{max_array_words};
ghost use Rattle.tce_space.specs.Tiling.{padded_words};
ghost use Rattle.tce_outside.specs.Files.{file, others};
ghost use Rattle.tce_outside.specs.Fault.{FaultReported, HasFailed};
ghost use Rattle.tce_sym.specs.Storage.{AreRight};
ghost use Rattle.tce_sym.specs.Lines.{HasRoomAt};
ghost use Rattle.tce_sym.specs.Cells.{AreTriangles};
ghost use Rattle.tce_sym.specs.Told.{IsStoredIn, HasStoredWords, AreHeldOf, Expands, ExpandsBare, MayExpand};
ghost use Rattle.tce_sym.specs.Sources.{HasRightPositions, HasItsTriangles, HasItsCount, IsStoredFor, HasRoomFor, AreHeldFor, AreWordsFor};

use crate::cells::{Triangles, triangles_of};
use crate::lines::{Grid, Layout};
use crate::rows::{read_row, row_of};
use crate::symmetry::Symmetry;
use crate::tile_rows::tile_row_at;
use crate::whole::{read_across, read_whole};
use tce_array::{Form, form_len};
use tce_outside::{Disk, Failed, OutFault};
use tce_space::Shape;
use tce_tools::{Storage, write_start, write_words};

// The most words that are written at once.
const LONGEST_PIECE: usize = 8192;

// The words for lines that stand on the stack.
const SHORT_LINES: usize = 2048;

/// The words that [`expand_through`] makes the most of: 68 MiB, in which the stored words of some 2^24 elements stand.
pub const MOST_LINE_WORDS: usize = 136 << 16;

// Makes each word 0.
fn clear(words: &mut [u64])
    ensures { words.new ≡ replicate (length words.old) 0 }
{
    words.fill(0);
}

// Reads all stored words where there is room for them; else no slot holds a line yet.
fn hold_words<D: Disk>(
    disk: &mut D,
    packed: &str,
    grid: &Grid,
    lines: &mut [u64],
) -> Result<(), Failed>
    requires room { HasRoomAt grid.now lines.old }
    requires count { grid.now.count ≤ max_array_words }
    requires file { HasStoredWords (D.files disk.old) packed.now grid.now.count }
    ensures held { OnOk result (AreHeldOf (D.files disk.old) packed.now grid.now lines.new) }
    ensures same { D.files disk.new ≡ D.files disk.old }
    ensures fault_reported { FaultReported D.faults disk.old disk.new (IsErr result) }
{
    match grid.layout {
        Layout::Lines => {
            clear(lines);
            Ok(())
        }
        Layout::Whole => read_whole(disk, packed, grid, lines),
        Layout::Across => read_across(disk, packed, grid, lines),
    }
}

// A whole tensor, and the file of which it is.
#[derive(Clone, Copy)]
struct Source<'a> {
    shape: &'a Shape,
    s: &'a Symmetry,
    packed: &'a str,
    triangles: &'a Triangles,
}

// The words of the array file from one on: elements, and zeros for the padding.
fn read_piece<D: Disk>(
    disk: &mut D,
    source: &Source,
    lines: &mut [u64],
    start: u64,
    words: &mut [u64],
) -> Result<(), Failed>
    requires right { HasRightPositions source.now }
    requires inside { start + length words.old ≤ padded_words source.now.shape.now }
    requires few { length words.old ≤ 8192 }
    requires fits { start + length words.old < 2 ^ 64 }
    requires file { IsStoredFor (D.files disk.old) source.now }
    requires triangles { AreTriangles source.now.triangles.now }
    requires of { HasItsTriangles source.now }
    requires count { HasItsCount source.now }
    requires room { HasRoomFor source.now lines.old }
    requires lines { AreHeldFor (D.files disk.old) source.now lines.old }
    ensures read { OnOk result
        (AreWordsFor (D.files disk.old) source.now start (length words.old) words.new) }
    ensures lines { OnOk result (AreHeldFor (D.files disk.old) source.now lines.new) }
    ensures len { length words.new ≡ length words.old }
    ensures same { D.files disk.new ≡ D.files disk.old }
    ensures fault_reported { FaultReported D.faults disk.old disk.new (IsErr result) }
{
    let shape = source.shape;
    clear(words);
    let mut filled = 0;
    while filled < words.len() {
        let tile_row = tile_row_at(shape, start + filled as u64);
        let row = row_of(shape, source.s, &tile_row);
        let len = tile_row.len.min((words.len() - filled) as u64) as usize;
        let used = tile_row.used.min(len as u64) as usize;
        let part = &mut words[filled..filled + used];
        read_row(disk, source.packed, source.triangles, lines, &row, part)?;
        filled += len;
    }
    Ok(())
}

// Makes the file of all elements, with zeros in the place of its head.
fn expand_elements<D: Disk>(
    disk: &mut D,
    shape: &Shape,
    s: &Symmetry,
    packed: &str,
    array: &str,
    lines: &mut [u64],
) -> Result<(), OutFault>
    requires names { packed.now ≢ array.now }
    requires some { 32 ≤ length lines.old }
    requires right { AreRight shape.now.extents s.now }
    requires file { IsStoredIn (D.files disk.old) packed.now shape.now.extents s.now }
    ensures made { OnOk result
        (ExpandsBare packed.now s.now array.now shape.now (D.files disk.old) (D.files disk.new)) }
    ensures memory { IsErrOf result OutFault.Memory → D.files disk.new ≡ D.files disk.old }
    ensures no_half { MayExpand packed.now s.now array.now shape.now
        (D.files disk.old) (D.files disk.new) }
    ensures others { others array.now (D.files disk.new) ≡ others array.now (D.files disk.old) }
    ensures fault_reported { FaultReported D.faults disk.old disk.new (HasFailed result) }
{
    let triangles = triangles_of(shape, s, lines.len());
    let Ok(()) = hold_words(disk, packed, &triangles.slots.grid, lines) else {
        return Err(OutFault::Failed);
    };
    disk.make(array, form_len(Form::One, shape))?;
    let source = Source {
        shape,
        s,
        packed,
        triangles: &triangles,
    };
    let mut bytes = [0; 8 * LONGEST_PIECE];
    let mut buffer = [0; LONGEST_PIECE];
    let head = Form::One.head_len(shape);
    let padded = shape.padded_words();
    let mut done = 0;
    while done < padded {
        let len = (padded - done).min(LONGEST_PIECE as u64);
        let words = &mut buffer[..len as usize];
        let Ok(()) = read_piece(disk, &source, lines, done, words) else {
            return Err(OutFault::Failed);
        };
        let Ok(()) = write_words(disk, array, Form::One, head + 8 * done, &mut bytes, words) else {
            return Err(OutFault::Failed);
        };
        done += len;
    }
    Ok(())
}

/// Makes the array file, in the first form, of the whole tensor of which `packed` stores one element for each pair.
///
/// For want of memory (`Memory`) no file changes. Where the disk fails (`Failed`), the array file is as it was, is absent,
/// begins with zeros as no array does, or is whole but for its head, which is written last. All other files stay in every
/// case. The stored words are read in lines, or at once where they are few, and the array is written in pieces, tile by tile,
/// so that the call needs no memory of its own, however large the files are. [`expand_through`] does the same with more
/// room for stored words, and faster.
pub fn expand<D: Disk>(
    disk: &mut D,
    shape: &Shape,
    s: &Symmetry,
    packed: &str,
    array: &str,
) -> Result<(), OutFault>
    requires names { packed.now ≢ array.now }
    requires right { AreRight shape.now.extents s.now }
    requires file { IsStoredIn (D.files disk.old) packed.now shape.now.extents s.now }
    ensures expanded { OnOk result
        (Expands packed.now s.now array.now shape.now (D.files disk.old) (D.files disk.new)) }
    ensures memory { IsErrOf result OutFault.Memory → D.files disk.new ≡ D.files disk.old }
    ensures no_half { MayExpand packed.now s.now array.now shape.now
        (D.files disk.old) (D.files disk.new) }
    ensures others { others array.now (D.files disk.new) ≡ others array.now (D.files disk.old) }
    ensures fault_reported { FaultReported D.faults disk.old disk.new (HasFailed result) }
{
    let mut lines = [0; SHORT_LINES];
    expand_through(disk, shape, s, packed, array, &mut lines)
}

/// What [`expand`] does, in words that the caller lends, whatever they hold, of use up to [`MOST_LINE_WORDS`]: where there is
/// room for all stored words they are read once, and else in lines, some more than once. What the words hold afterwards is
/// free.
pub fn expand_through<D: Disk>(
    disk: &mut D,
    shape: &Shape,
    s: &Symmetry,
    packed: &str,
    array: &str,
    lines: &mut [u64],
) -> Result<(), OutFault>
    requires names { packed.now ≢ array.now }
    requires some { 32 ≤ length lines.old }
    requires right { AreRight shape.now.extents s.now }
    requires file { IsStoredIn (D.files disk.old) packed.now shape.now.extents s.now }
    ensures expanded { OnOk result
        (Expands packed.now s.now array.now shape.now (D.files disk.old) (D.files disk.new)) }
    ensures memory { IsErrOf result OutFault.Memory → D.files disk.new ≡ D.files disk.old }
    ensures no_half { MayExpand packed.now s.now array.now shape.now
        (D.files disk.old) (D.files disk.new) }
    ensures others { others array.now (D.files disk.new) ≡ others array.now (D.files disk.old) }
    ensures fault_reported { FaultReported D.faults disk.old disk.new (HasFailed result) }
{
    let _limits = shape.elements();
    expand_elements(disk, shape, s, packed, array, lines)?;
    match write_start(disk, array, Storage::Array(Form::One), shape) {
        Ok(()) => Ok(()),
        Err(Failed) => Err(OutFault::Failed),
    }
}
