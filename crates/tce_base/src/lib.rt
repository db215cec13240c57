//! What a word is: sums, differences and products modulo 2^64, and the bytes in which a word is stored.
//!
//! The definitions stand in `specs/Word.antt`; all crates that compute with words cite them. The functions here do nothing:
//! their contracts are laws of these definitions.
#![tactic(auto)]

ghost use Rattle.tce_base.specs.Laws.{EightBytesAreAWord, BytesKeepWords};

/// Eight bytes are the bytes of the word that they spell.
pub fn eight_bytes_are_a_word()
    ensures { EightBytesAreAWord }
{}

/// The bytes of a word spell it, whatever follows them.
pub fn bytes_keep_words()
    ensures { BytesKeepWords }
{}
