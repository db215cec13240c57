ghost use Rattle.std.specs.Prelude.{◌≡◌, map, Some, IfOk};
ghost use Rattle.tce_grammar.specs.Code.{line, token, IsOnlyLine};
ghost use Rattle.tce_grammar.specs.Grammar.{IsLine};
ghost use Rattle.tce_grammar.specs.Grammar as grammar;
ghost use Rattle.tce_grammar.specs.Reading.{line_of, line_of_tokens};

use crate::lines::without_comment;
use crate::read_error::ReadError;
use crate::statement::{Statement, read_statement};
use crate::token::Token;
use crate::tokenizer::tokens;
use std::alloc::{AllocError, Global};

/// What a line is.
#[derive(Drop)]
pub enum Line<'a> {
    /// It has blanks and a comment at most.
    Skipped,
    /// It is not skipped, and has none of the four forms.
    Bad,
    Says(Statement<'a>),
}

/// Reads a line, which has no line feed: its tokens up to a `#`, and then what they say.
///
/// `Err` exactly where memory runs out.
pub fn read_line<'a>(alloc: Global, text: &'a [u8]) -> Result<Line<'a>, AllocError>
    ensures is_line { IfOk result (λ read. IsLine text.now (line read)) }
    ensures nothing_else { IfOk result (IsOnlyLine text.now) }
{
    read_tokens(alloc, text)
}

/// The line that is read from its tokens, from the left.
#[tactic(auto, unfolding(crate::specs::Reading::line_of))]
fn read_tokens<'a>(alloc: Global, text: &'a [u8]) -> Result<Line<'a>, AllocError>
    ensures { IfOk result (λ read. line read ≡ line_of text.now) }
{
    match tokens(alloc, without_comment(text)) {
        Ok(found) => line_said(alloc, found.as_slice()),
        Err(ReadError::Form) => Ok(Line::Bad),
        Err(ReadError::Memory) => Err(AllocError),
    }
}

/// The line of these tokens.
fn line_said<'a>(alloc: Global, tokens: &[Token<'a>]) -> Result<Line<'a>, AllocError>
    ensures { IfOk result (λ read. line read ≡ line_of_tokens (Some (map token tokens.now))) }
{
    if tokens.is_empty() {
        return Ok(Line::Skipped);
    }
    match read_statement(alloc, tokens) {
        Ok(statement) => Ok(Line::Says(statement)),
        Err(ReadError::Form) => Ok(Line::Bad),
        Err(ReadError::Memory) => Err(AllocError),
    }
}
