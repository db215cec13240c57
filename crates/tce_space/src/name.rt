// Names.
ghost use Rattle.std.specs.Prelude.{◌≡◌};
ghost use Rattle.std.specs.List.{list_all};
ghost use Rattle.tce_space.specs.Name.{is_name, is_keyword, is_letter, is_word_byte, starts_with_letter};

use arrayvec::ArrayString;

/// The name of a range, an index or a tensor: at most 16 bytes.
pub type Name = ArrayString<16>;

/// The name of a file: at most 204 bytes.
pub type FileName = ArrayString<204>;

const RANGE: &[u8] = b"range";

const TILE: &[u8] = b"tile";

const INDEX: &[u8] = b"index";

const TENSOR: &[u8] = b"tensor";

const SUM: &[u8] = b"sum";

fn is_letter(byte: u8) -> bool
    ensures { result ≡ is_letter byte }
{
    byte.is_ascii_alphabetic()
}

fn is_word_byte(byte: u8) -> bool
    ensures { result ≡ is_word_byte byte }
{
    byte.is_ascii_alphanumeric() || byte == b'_'
}

fn is_keyword(word: &[u8]) -> bool
    ensures { result ≡ is_keyword word.now }
{
    word == RANGE || word == TILE || word == INDEX || word == TENSOR || word == SUM
}

fn starts_with_letter(word: &[u8]) -> bool
    ensures { result ≡ starts_with_letter word.now }
{
    match word {
        [first, ..] => is_letter(*first),
        [] => false,
    }
}

fn has_word_bytes(word: &[u8]) -> bool
    ensures { result ≡ list_all is_word_byte word.now }
{
    word.iter().all(|byte| is_word_byte(*byte))
}

/// Whether a text is a name: a letter, then up to 15 letters, digits or `_`, and no keyword.
#[tactic(auto, unfolding(crate::specs::Name::is_name))]
pub fn is_name(text: &[u8]) -> bool
    ensures { result ≡ is_name text.now }
{
    starts_with_letter(text) && text.len() <= 16 && has_word_bytes(text) && !is_keyword(text)
}
