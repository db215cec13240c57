//! Printing tokens, with the spaces between them.

ghost use Rattle.std.specs.Prelude.{◌≡◌, ◌++◌, ◌∷◌, List, [], ℕ, OnOk, OnErr};
ghost use Rattle.tce_grammar.specs.Printed.{kind, is_sign, is_spaced};
ghost use Rattle.tce_grammar.specs.PrinterCode.{front, text_of};
ghost use Rattle.tce_grammar.specs.Code as code;

use crate::token::Token;
use std::alloc::{AllocError, Global};
use std::marker::Model;

/// What stands at the end of a text, on its last line.
#[derive(Clone, Copy)]
enum Front {
    Nothing,
    Letters,
    Sign,
    Bracket,
}

/// A text that is printed token after token. One space stands between words and numbers and on both sides of `=`, `*`,
/// `+` and `-`; none stands elsewhere.
#[derive(Drop)]
pub struct Printer {
    bytes: Vec<u8>,
    last: Front,
}

impl Model for Printer {
    ghost use Rattle.tce_grammar.specs.Printed.{Printing};
    ghost use Rattle.tce_grammar.specs.PrinterCode.{front};

    ghost Value = { Printing };

    ghost view = { λ p. record { text = p.bytes.items; front = front p.last } };
}

impl Printer {
    ghost use Rattle.tce_grammar.specs.Printed.{line_start, with_token};

    /// An empty text.
    pub fn new(alloc: Global) -> Self
        ensures { result ≡ line_start [] }
    {
        Printer {
            bytes: Vec::new(alloc),
            last: Front::Nothing,
        }
    }

    /// Prints a token, behind a space where one is due. After an `Err` the text may end anywhere in the token.
    pub fn push(&mut self, token: Token) -> Result<(), AllocError>
        ensures { OnOk result (self.new ≡ with_token self.old (code.token token.entry)) }
    {
        let behind = kind(token);
        if is_spaced(self.last, behind) {
            self.bytes.push(b' ')?;
        }
        self.last = behind;
        push_text(&mut self.bytes, token)
    }

    /// Ends the line by a line feed. After an `Err` the text is as it was.
    pub fn end_line(&mut self) -> Result<(), AllocError>
        ensures ended { OnOk result (self.new ≡ line_start (self.old.text ++ 10 ∷ [])) }
        ensures unchanged { OnErr result (self.new ≡ self.old) }
    {
        self.bytes.push(b'\n')?;
        self.last = Front::Nothing;
        Ok(())
    }

    /// The text.
    pub fn into_text(self) -> Vec<u8>
        ensures { result.items ≡ self.text }
    {
        self.bytes
    }
}

fn is_sign(byte: u8) -> bool
    ensures { result ≡ is_sign byte }
{
    byte == b'=' || byte == b'*' || byte == b'+' || byte == b'-'
}

/// What a token is to the tokens beside it.
fn kind(token: Token) -> Front
    ensures { front result ≡ kind (code.token token.entry) }
{
    match token {
        Token::Word(_) | Token::Number(_) => Front::Letters,
        Token::Symbol(byte) if is_sign(byte) => Front::Sign,
        Token::Symbol(_) => Front::Bracket,
    }
}

/// Whether a space stands between a token and the one behind it.
fn is_spaced(before: Front, behind: Front) -> bool
    ensures { result ≡ is_spaced (front before) (front behind) }
{
    match (before, behind) {
        (Front::Nothing, _) => false,
        (Front::Sign, _) | (_, Front::Sign) | (Front::Letters, Front::Letters) => true,
        _ => false,
    }
}

fn push_text(bytes: &mut Vec<u8>, token: Token) -> Result<(), AllocError>
    ensures { OnOk result (bytes.new.items ≡ bytes.old.items ++ text_of token.entry) }
{
    match token {
        Token::Word(text) | Token::Number(text) => bytes.extend_from_slice(text),
        Token::Symbol(byte) => {
            bytes.push(byte)?;
            Ok(())
        }
    }
}
