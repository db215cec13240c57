// Words between files and a block of words, in pieces.
ghost use Rattle.std.specs.Prelude.{◌≡◌, ◌+◌, ◌*◌, ◌/◌, ◌%◌, ◌^◌, ◌<◌, ◌≤◌, length, OnOk, IsErr};
ghost use Rattle.std.specs.Option.{ForSome};
ghost use Rattle.tce_outside.specs.Fault.{FaultReported};
ghost use Rattle.tce_space.specs.Tiling.{IsTiling, padded_words};
ghost use Rattle.tce_array.specs.Forms.{width, word_in, word_place};
ghost use Rattle.tce_words.specs.Load.{IsLoaded};
ghost use Rattle.tce_cache.specs.Transfer.{HasFile, AreRead, IsSameBut, Writes, IsSameElsewhere, BeginsAsBefore};

use crate::array::ArrayRef;
use tce_array::Form;
use tce_outside::{Disk, Failed};
use tce_words::Words;

// How many words a buffer has room for at most: with more of them a system writes no faster.
const MOST_WORDS: u64 = 0x8000;

// How many words one read moves at most, so that few are read of a tile beside which others were written to a new file.
const READ_WORDS: u64 = 0x1000;

/// How many bytes the buffer has between files and frames of so many words.
pub(crate) fn piece_len(words: u64) -> usize
    ensures { 8 ≤ result }
{
    8 * words.min(MOST_WORDS).max(1) as usize
}

/// Words of an array's file, from the number `from` on, and as many of a block, from `at` on.
#[derive(Clone, Copy)]
pub(crate) struct Span {
    pub(crate) from: u64,
    pub(crate) at: u64,
    pub(crate) n: u64,
}

// Makes the words from `at` on those of one piece.
fn load_piece(words: &mut Words, at: u64, form: Form, piece: &[u8])
    requires whole { length piece.now % width form ≡ 0 }
    requires room { at + length piece.now / width form ≤ length words.old }
    ensures { IsLoaded (word_in form) (width form) at piece.now words.old words.new }
{
    match form {
        Form::One => words.load(at, piece),
        Form::Wide => words.load(at, piece),
        Form::Narrow => words.load_narrow(at, piece),
    }
}

// The place in bytes of the word with this number.
fn place_of(array: &ArrayRef, word: u64) -> u64
    requires limits { IsTiling array.now.shape }
    requires inside { word ≤ padded_words array.now.shape }
    ensures place { result ≡ word_place array.now.form array.now.shape word }
    ensures small { result < 2 ^ 60 }
{
    array.form.head_len(&array.shape) + array.form.width() * word
}

// Reads the words of one piece.
fn read_piece<D: Disk>(
    disk: &mut D,
    array: &ArrayRef,
    span: Span,
    words: &mut Words,
    piece: &mut [u8],
) -> Result<(), Failed>
    requires whole { length piece.old ≡ width array.now.form * span.n }
    requires limits { IsTiling array.now.shape }
    requires inside { span.from + span.n ≤ padded_words array.now.shape }
    requires room { span.at + span.n ≤ length words.old }
    requires file { ForSome (D.files disk.old) (HasFile array.now) }
    ensures read { OnOk result (AreRead array.now (D.files disk.old) span words.new) }
    ensures len { length words.new ≡ length words.old }
    ensures others { IsSameBut span.at span.n words.old words.new }
    ensures same { D.files disk.new ≡ D.files disk.old }
    ensures fault_reported { FaultReported D.faults disk.old disk.new (IsErr result) }
{
    disk.read_at(array.file.as_str(), place_of(array, span.from), piece)?;
    load_piece(words, span.at, array.form, piece);
    Ok(())
}

/// Reads the words of a span of an array's file through a buffer, as many at a time as fit into it.
///
/// Where the disk fails, these words may be anything. All others stay in every case.
pub(crate) fn read_words<D: Disk>(
    disk: &mut D,
    array: &ArrayRef,
    span: Span,
    words: &mut Words,
    buffer: &mut [u8],
) -> Result<(), Failed>
    requires some { 8 ≤ length buffer.old }
    requires limits { IsTiling array.now.shape }
    requires inside { span.from + span.n ≤ padded_words array.now.shape }
    requires room { span.at + span.n ≤ length words.old }
    requires bounded { length words.old < 2 ^ 60 }
    requires file { ForSome (D.files disk.old) (HasFile array.now) }
    ensures read { OnOk result (AreRead array.now (D.files disk.old) span words.new) }
    ensures len { length words.new ≡ length words.old }
    ensures others { IsSameBut span.at span.n words.old words.new }
    ensures same { D.files disk.new ≡ D.files disk.old }
    ensures fault_reported { FaultReported D.faults disk.old disk.new (IsErr result) }
{
    let width = array.form.width();
    let most = (buffer.len() as u64 / 8).min(READ_WORDS);
    let mut done = 0;
    while done < span.n {
        let count = (span.n - done).min(most);
        let next = Span {
            from: span.from + done,
            at: span.at + done,
            n: count,
        };
        let piece = &mut buffer[..(width * count) as usize];
        read_piece(disk, array, next, words, piece)?;
        done += count;
    }
    Ok(())
}

// Writes the words of one piece.
fn write_piece<D: Disk>(
    disk: &mut D,
    array: &ArrayRef,
    span: Span,
    words: &Words,
    piece: &mut [u8],
) -> Result<(), Failed>
    requires whole { length piece.old ≡ 8 * span.n }
    requires one { array.now.form ≡ Form.One }
    requires limits { IsTiling array.now.shape }
    requires inside { span.from + span.n ≤ padded_words array.now.shape }
    requires room { span.at + span.n ≤ length words.now }
    requires bounded { length words.now < 2 ^ 60 }
    requires file { ForSome (D.files disk.old) (HasFile array.now) }
    ensures written { OnOk result (Writes array.now (D.files disk.old) (D.files disk.new)
        span words.now) }
    ensures others { IsSameElsewhere array.now (D.files disk.old) (D.files disk.new) }
    ensures begins { BeginsAsBefore array.now (D.files disk.old) (D.files disk.new) }
    ensures fault_reported { FaultReported D.faults disk.old disk.new (IsErr result) }
{
    // The block says that each word has 64 bits.
    let _len = words.len();
    words.store(span.at, piece);
    disk.write_at(array.file.as_str(), place_of(array, span.from), piece)?;
    Ok(())
}

/// Writes the words of a span to an array's file through a buffer, as many at a time as fit into it.
///
/// Where the disk fails, these words of the file may be anything. Its first eight bytes and all other files stay in every
/// case.
pub(crate) fn write_words<D: Disk>(
    disk: &mut D,
    array: &ArrayRef,
    span: Span,
    words: &Words,
    buffer: &mut [u8],
) -> Result<(), Failed>
    requires some { 8 ≤ length buffer.old }
    requires one { array.now.form ≡ Form.One }
    requires limits { IsTiling array.now.shape }
    requires inside { span.from + span.n ≤ padded_words array.now.shape }
    requires room { span.at + span.n ≤ length words.now }
    requires bounded { length words.now < 2 ^ 60 }
    requires file { ForSome (D.files disk.old) (HasFile array.now) }
    ensures written { OnOk result (Writes array.now (D.files disk.old) (D.files disk.new)
        span words.now) }
    ensures others { IsSameElsewhere array.now (D.files disk.old) (D.files disk.new) }
    ensures begins { BeginsAsBefore array.now (D.files disk.old) (D.files disk.new) }
    ensures fault_reported { FaultReported D.faults disk.old disk.new (IsErr result) }
{
    let most = buffer.len() as u64 / 8;
    let mut done = 0;
    while done < span.n {
        let count = (span.n - done).min(most);
        let next = Span {
            from: span.from + done,
            at: span.at + done,
            n: count,
        };
        let piece = &mut buffer[..(8 * count) as usize];
        write_piece(disk, array, next, words, piece)?;
        done += count;
    }
    Ok(())
}
