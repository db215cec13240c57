// Bands of elements between files and memory.
ghost use Rattle.std.specs.Prelude.{◌≡◌, ℕ, ◌+◌, ◌*◌, ◌<◌, ◌≤◌, List, length, Option, Some, OnOk, IsErr};
ghost use Rattle.tce_outside.specs.Files.{Files, file, others};
ghost use Rattle.tce_outside.specs.Fault.{FaultReported};
ghost use Rattle.tce_array.specs.Forms.{width, head_len};
ghost use Rattle.tce_tools.specs.Runs.{AreElements};
ghost use Rattle.tce_tools.specs.Bands.{IsBand, AreTiled, AreZerosBetween, KeepsOutside};
ghost use Rattle.tce_tools.specs.ElementFiles.{IsThere, IsArrayThere, AreElementsIn, AreTiledIn, bare_file, bare_array, KeepsAhead, KeepsBehind, KeepsHead, OthersStay};

use crate::band::Band;
use crate::shuffle::{flatten, tile};
use crate::storage::{ElementFile, Storage};
use crate::transfer::{read_words, write_words};
use tce_array::Form;
use tce_outside::{Disk, Failed};
use tce_space::Shape;

// The byte at which a piece of a band begins.
fn piece_place(form: Form, shape: &Shape, band: Band, piece: u64) -> u64
    requires band { IsBand shape.now band }
    requires among { piece < band.pieces }
    ensures { result ≡ head_len form shape.now + width form * (band.word + piece * band.stride) }
{
    form.head_len(shape) + form.width() * (band.word + piece * band.stride)
}

// Reads the pieces of a band, one after the other.
fn read_pieces<D: Disk>(
    disk: &mut D,
    file: &ElementFile,
    form: Form,
    band: Band,
    bytes: &mut [u8],
    tiled: &mut [u64],
) -> Result<(), Failed>
    requires band { IsBand file.now.shape.now band }
    requires buffer { 262144 ≤ length bytes.old }
    requires tiled { length tiled.old ≡ band.pieces * band.piece_len }
    requires file { IsArrayThere (D.files disk.old) file.now form }
    ensures read { OnOk result (AreTiledIn (D.files disk.old) file.now form band tiled.new) }
    ensures same { D.files disk.new ≡ D.files disk.old }
    ensures fault_reported { FaultReported D.faults disk.old disk.new (IsErr result) }
{
    for piece in 0..band.pieces {
        let from = (piece * band.piece_len) as usize;
        let words = &mut tiled[from..from + band.piece_len as usize];
        read_words(
            disk,
            file.name,
            form,
            piece_place(form, file.shape, band, piece),
            bytes,
            words,
        )?;
    }
    Ok(())
}

// Writes the pieces of a band, one after the other, to a file whose head is not yet there.
fn write_pieces<D: Disk>(
    disk: &mut D,
    file: &ElementFile,
    form: Form,
    band: Band,
    bytes: &mut [u8],
    tiled: &[u64],
) -> Result<(), Failed>
    requires band { IsBand file.now.shape.now band }
    requires buffer { 262144 ≤ length bytes.old }
    requires tiled { length tiled.now ≡ band.pieces * band.piece_len }
    requires padding { AreZerosBetween file.now.shape.now band tiled.now }
    requires file { IsArrayThere (D.files disk.old) file.now form }
    ensures written { OnOk result ((before : Option Files) (old new : Files → List ℕ → ℕ)
        → D.files disk.old ≡ bare_array file.now form old before
        → ((fs : Files) → before ≡ Some fs → AreTiled file.now.shape.now band (new fs) tiled.now)
        → ((fs : Files) → before ≡ Some fs → KeepsOutside file.now.shape.now band (old fs) (new fs))
        → D.files disk.new ≡ bare_array file.now form new before) }
    ensures ahead { KeepsHead file.now form (D.files disk.old) (D.files disk.new) }
    ensures others { OthersStay file.now (D.files disk.old) (D.files disk.new) }
    ensures fault_reported { FaultReported D.faults disk.old disk.new (IsErr result) }
{
    for piece in 0..band.pieces {
        let from = (piece * band.piece_len) as usize;
        let words = &tiled[from..from + band.piece_len as usize];
        write_words(
            disk,
            file.name,
            form,
            piece_place(form, file.shape, band, piece),
            bytes,
            words,
        )?;
    }
    Ok(())
}

/// Reads the elements of a band into `words`. `tiled` is room for the words of its pieces.
pub fn read_band<D: Disk>(
    disk: &mut D,
    file: &ElementFile,
    band: Band,
    bytes: &mut [u8],
    tiled: &mut [u64],
    words: &mut [u64],
) -> Result<(), Failed>
    requires band { IsBand file.now.shape.now band }
    requires buffer { 262144 ≤ length bytes.old }
    requires tiled { 32768 ≤ length tiled.old }
    requires words { length words.old ≡ band.len }
    requires file { IsThere (D.files disk.old) file.now }
    ensures read { OnOk result (AreElementsIn (D.files disk.old) file.now band.start words.new) }
    ensures len { length words.new ≡ band.len }
    ensures same { D.files disk.new ≡ D.files disk.old }
    ensures fault_reported { FaultReported D.faults disk.old disk.new (IsErr result) }
{
    match file.storage {
        Storage::Flat => read_words(disk, file.name, Form::One, 8 * band.start, bytes, words)?,
        Storage::Array(form) => {
            let pieces = &mut tiled[..(band.pieces * band.piece_len) as usize];
            read_pieces(disk, file, form, band, bytes, pieces)?;
            flatten(file.shape, band, pieces, words);
        }
    }
    Ok(())
}

/// Writes the elements of a band to a file whose head, if it is to have one, is not yet there. `tiled` is room for the
/// words of its pieces.
///
/// No other element changes. Where the disk fails, the band's elements may be anything; what stands before them and
/// before all elements behind them stays in every case, and so does in a flat file what stands behind the band.
pub fn write_band<D: Disk>(
    disk: &mut D,
    file: &ElementFile,
    band: Band,
    bytes: &mut [u8],
    tiled: &mut [u64],
    words: &[u64],
) -> Result<(), Failed>
    requires band { IsBand file.now.shape.now band }
    requires buffer { 262144 ≤ length bytes.old }
    requires tiled { 32768 ≤ length tiled.old }
    requires words { length words.now ≡ band.len }
    requires file { IsThere (D.files disk.old) file.now }
    ensures written { OnOk result ((before : Option Files) (old new : Files → List ℕ → ℕ)
        → D.files disk.old ≡ bare_file file.now old before
        → ((fs : Files) → before ≡ Some fs
        → AreElements file.now.shape.now (new fs) band.start words.now)
        → ((fs : Files) → before ≡ Some fs → KeepsOutside file.now.shape.now band (old fs) (new fs))
        → D.files disk.new ≡ bare_file file.now new before) }
    ensures ahead { KeepsAhead file.now band (D.files disk.old) (D.files disk.new) }
    ensures behind { KeepsBehind file.now band (D.files disk.old) (D.files disk.new) }
    ensures others { OthersStay file.now (D.files disk.old) (D.files disk.new) }
    ensures fault_reported { FaultReported D.faults disk.old disk.new (IsErr result) }
{
    match file.storage {
        Storage::Flat => write_words(disk, file.name, Form::One, 8 * band.start, bytes, words),
        Storage::Array(form) => {
            let pieces = &mut tiled[..(band.pieces * band.piece_len) as usize];
            tile(file.shape, band, words, pieces);
            write_pieces(disk, file, form, band, bytes, pieces)
        }
    }
}
