//! Words from bytes, and bytes from words, the lowest byte first.
ghost use Rattle.std.specs.Prelude.{◌≡◌, ◌*◌, ◌≤◌, length};
ghost use Rattle.std.specs.List.{flat_map};
ghost use Rattle.tce_base.specs.Word.{word_bytes, word_of_bytes};
ghost use Rattle.tce_words.specs.Load.{narrow_of, AreWordsFrom};

use byteorder::{ByteOrder, LittleEndian};
use std::simd::prelude::*;

// So many words are stored at once.
const LANES: usize = 4;

/// Makes `words` those that stand in the bytes, eight bytes each.
pub(crate) fn read_words(words: &mut [u64], bytes: &[u8])
    requires { length bytes.now ≡ 8 * length words.old }
    ensures { AreWordsFrom (word_of_bytes 8) 8 bytes.now (length words.old) words.new }
{
    LittleEndian::read_u64_into(bytes, words);
}

/// Makes `words` the signed numbers that stand in the bytes, four bytes each.
pub(crate) fn read_narrow(words: &mut [u64], bytes: &[u8])
    requires { length bytes.now ≡ 4 * length words.old }
    ensures { AreWordsFrom narrow_of 4 bytes.now (length words.old) words.new }
{
    for k in 0..words.len() {
        words[k] = narrow_word(&bytes[4 * k..]);
    }
}

// The word of the signed number that stands in the first four bytes.
fn narrow_word(piece: &[u8]) -> u64
    requires { 4 ≤ length piece.now }
    ensures { result ≡ narrow_of piece.now }
{
    let low = LittleEndian::read_u32(piece);
    if low < 1 << 31 {
        u64::from(low)
    } else {
        u64::from(low) + (u64::MAX << 32)
    }
}

/// Makes `bytes` those of the words, eight bytes each.
pub(crate) fn write_words(bytes: &mut [u8], words: &[u64])
    requires { length bytes.old ≡ 8 * length words.now }
    ensures { bytes.new ≡ flat_map (word_bytes 8) words.now }
{
    let blocks = words.len() / LANES;
    for block in 0..blocks {
        let at = LANES * block;
        let lanes = u64x4::from_slice(&words[at..]).to_le_bytes();
        lanes.copy_to_slice(&mut bytes[8 * at..]);
    }
    let done = LANES * blocks;
    LittleEndian::write_u64_into(&words[done..], &mut bytes[8 * done..]);
}
