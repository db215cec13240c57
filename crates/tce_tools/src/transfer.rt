// Words between files and memory.
ghost use Rattle.std.specs.Prelude.{◌≡◌, ◌+◌, ◌*◌, ◌≤◌, length, drop, OnOk, IsErr};
ghost use Rattle.std.specs.List.{flat_map};
ghost use Rattle.tce_base.specs.Word.{word_bytes, word_of_bytes, widened};
ghost use Rattle.tce_outside.specs.Files.{file, written, others, KeepsBefore, KeepsFrom};
ghost use Rattle.tce_outside.specs.Fault.{FaultReported};
ghost use Rattle.tce_array.specs.Forms.{width, word_in};
ghost use Rattle.tce_tools.specs.Told.{HasWordsIn, AreWordsIn, WritesWords};
ghost use Rattle.tce_tools.specs.Runs.{EachWordIs};

use byteorder::{ByteOrder, LittleEndian};
use tce_array::Form;
use tce_outside::{Disk, Failed};

// A signed number of 32 bits as a word.
fn widened(number: u32) -> u64
    ensures { result ≡ widened number }
{
    if number < 0x8000_0000 {
        u64::from(number)
    } else {
        u64::from(number) + 0xFFFF_FFFF_0000_0000
    }
}

// The words of signed numbers of four bytes each.
fn decode_narrow(bytes: &[u8], words: &mut [u64])
    requires { length bytes.now ≡ 4 * length words.old }
    ensures { EachWordIs words.new (λ k. widened (word_of_bytes 4 (drop (4 * k) bytes.now))) }
{
    for k in 0..words.len() {
        words[k] = widened(LittleEndian::read_u32(&bytes[4 * k..]));
    }
}

// The words that are stored so.
fn decode(form: Form, bytes: &[u8], words: &mut [u64])
    requires { length bytes.now ≡ width form * length words.old }
    ensures { EachWordIs words.new (λ k. word_in form (drop (width form * k) bytes.now)) }
{
    match form {
        Form::One => LittleEndian::read_u64_into(bytes, words),
        Form::Wide => LittleEndian::read_u64_into(bytes, words),
        Form::Narrow => decode_narrow(bytes, words),
    }
}

// The lowest four bytes of each word.
fn encode_narrow(words: &[u64], bytes: &mut [u8])
    requires { length bytes.old ≡ 4 * length words.now }
    ensures { bytes.new ≡ flat_map (word_bytes 4) words.now }
{
    for k in 0..words.len() {
        LittleEndian::write_u32(&mut bytes[4 * k..], (words[k] % (1 << 32)) as u32);
    }
}

// The bytes in which words are stored.
fn encode(form: Form, words: &[u64], bytes: &mut [u8])
    requires { length bytes.old ≡ width form * length words.now }
    ensures { bytes.new ≡ flat_map (word_bytes (width form)) words.now }
{
    match form {
        Form::One => LittleEndian::write_u64_into(words, bytes),
        Form::Wide => LittleEndian::write_u64_into(words, bytes),
        Form::Narrow => encode_narrow(words, bytes),
    }
}

/// Reads the words that begin at a byte of a file.
pub fn read_words<D: Disk>(
    disk: &mut D,
    name: &str,
    form: Form,
    at: u64,
    bytes: &mut [u8],
    words: &mut [u64],
) -> Result<(), Failed>
    requires buffer { width form * length words.old ≤ length bytes.old }
    requires file { HasWordsIn (D.files disk.old) name.now form at (length words.old) }
    ensures read { OnOk result (AreWordsIn (D.files disk.old) name.now form at words.new) }
    ensures same { D.files disk.new ≡ D.files disk.old }
    ensures fault_reported { FaultReported D.faults disk.old disk.new (IsErr result) }
{
    let piece = &mut bytes[..form.width() as usize * words.len()];
    disk.read_at(name, at, piece)?;
    decode(form, piece, words);
    Ok(())
}

/// Writes words over those that begin at a byte of a file. What stands before and behind them stays in every case.
pub fn write_words<D: Disk>(
    disk: &mut D,
    name: &str,
    form: Form,
    at: u64,
    bytes: &mut [u8],
    words: &[u64],
) -> Result<(), Failed>
    requires buffer { width form * length words.now ≤ length bytes.old }
    requires file { HasWordsIn (D.files disk.old) name.now form at (length words.now) }
    ensures written { OnOk result
        (WritesWords name.now form at words.now (D.files disk.old) (D.files disk.new)) }
    ensures before { KeepsBefore name.now at (D.files disk.old) (D.files disk.new) }
    ensures behind { KeepsFrom name.now (at + width form * length words.now)
        (D.files disk.old) (D.files disk.new) }
    ensures others { others name.now (D.files disk.new) ≡ others name.now (D.files disk.old) }
    ensures fault_reported { FaultReported D.faults disk.old disk.new (IsErr result) }
{
    let piece = &mut bytes[..form.width() as usize * words.len()];
    encode(form, words, piece);
    disk.write_at(name, at, piece)
}
