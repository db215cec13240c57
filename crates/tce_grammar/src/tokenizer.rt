//! The tokens of a line.

ghost use Rattle.std.specs.Prelude.{◌≡◌, ◌≢◌, ◌<◌, ◌≤◌, ◌∷◌, List, [], ℕ, length, map, option_map, IsTrue};
ghost use Rattle.std.specs.List.{list_all, prefix_len};
ghost use Rattle.tce_space.specs.Name.{is_word_byte, is_letter, is_digit};
ghost use Rattle.tce_grammar.specs.Code.{Gives, token};
ghost use Rattle.tce_grammar.specs.Reading.{piece_len};
ghost use Rattle.tce_grammar.specs.Tokens.{is_blank, is_symbol, token_of, tokens};

use crate::name::{is_digit, is_letter, is_word_byte};
use crate::read_error::ReadError;
use crate::token::Token;
use std::alloc::Global;

fn is_blank(byte: u8) -> bool
    ensures { result ≡ is_blank byte }
{
    byte == b' ' || byte == b'\t'
}

fn is_symbol(byte: u8) -> bool
    ensures { result ≡ is_symbol byte }
{
    matches!(
        byte,
        b'[' | b']' | b'{' | b'}' | b'(' | b')' | b',' | b'=' | b'*' | b'+' | b'-'
    )
}

fn is_number(digits: &[u8]) -> bool
    ensures { result ≡ list_all is_digit digits.now }
{
    digits.iter().all(|b| is_digit(*b))
}

/// How many bytes of a word stand at the front.
fn word_len(line: &[u8]) -> usize
    ensures value { result ≡ prefix_len is_word_byte line.now }
    ensures within { result ≤ length line.now }
{
    line.iter().take_while(|b| is_word_byte(**b)).count()
}

/// How long the piece at the front is: a word, or one byte.
fn piece_len(line: &[u8]) -> usize
    requires { 0 < length line.now }
    ensures value { result ≡ piece_len line.now }
    ensures some { 0 < result }
    ensures within { result ≤ length line.now }
{
    word_len(line).max(1)
}

/// The token of a piece of a line.
fn token_of<'a>(piece: &'a [u8]) -> Option<Token<'a>>
    ensures { option_map token result ≡ token_of piece.now }
{
    match piece {
        [first, ..] if is_letter(*first) => Some(Token::Word(piece)),
        [first, rest @ ..] if is_digit(*first) => {
            if is_number(rest) {
                Some(Token::Number(piece))
            } else {
                None
            }
        }
        [first, ..] if is_symbol(*first) => Some(Token::Symbol(*first)),
        _ => None,
    }
}

/// The tokens of a line.
pub(crate) fn tokens<'a>(alloc: Global, line: &'a [u8]) -> Result<Vec<Token<'a>>, ReadError>
    ensures { Gives (λ v. map token v.items) result (tokens line.now) }
{
    let mut found = Vec::new(alloc);
    let mut rest = line;
    while let [first, ..] = rest {
        let (piece, after) = rest.split_at(piece_len(rest));
        if !is_blank(*first) {
            let Some(token) = token_of(piece) else {
                return Err(ReadError::Form);
            };
            found.push(token)?;
        }
        rest = after;
    }
    Ok(found)
}
