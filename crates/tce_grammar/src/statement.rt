//! The four forms of a line.

ghost use Rattle.std.specs.Prelude.{◌≡◌, ◌<◌, ◌∷◌, ℕ, length, map, option_map, IfOk, codes};
ghost use Rattle.tce_grammar.specs.Code.{Gives, token, names, formula, text_if_some, statement};
ghost use Rattle.tce_grammar.specs.Reading.{edge_of, range_of, index_of, all_names, declaration_of, formula_of, statement_of, right_side_of};
ghost use Rattle.tce_grammar.specs.Tokens.{word};

use crate::formula::Formula;
use crate::name::{INDEX, RANGE, TENSOR, TILE};
use crate::parser::{behind, brackets, expression, name_ahead, name_in};
use crate::read_error::ReadError;
use crate::token::Token;
use std::alloc::Global;
use tce_space::is_name;

/// How many parentheses may be open at once.
const OPEN_LIMIT: u8 = 64;

/// What a line says, with the names and the digits of its text.
#[derive(Drop)]
pub enum Statement<'a> {
    /// `range NAME EXTENT` or `range NAME EXTENT tile EDGE`, with the digits of both numbers.
    Range {
        name: &'a [u8],
        extent: &'a [u8],
        edge: Option<&'a [u8]>,
    },
    /// `index RANGE NAME NAME ..`, with one index or more.
    Index {
        range: &'a [u8],
        indexes: Vec<&'a [u8]>,
    },
    /// `tensor NAME[RANGE,RANGE,..]`.
    Tensor {
        name: &'a [u8],
        ranges: Vec<&'a [u8]>,
    },
    /// `RESULT[INDEX,INDEX,..] = FORMULA`.
    Formula {
        result: &'a [u8],
        indexes: Vec<&'a [u8]>,
        formula: Formula<'a>,
    },
}

/// The edge behind the extent of a range, where there is one.
fn read_edge<'a>(tokens: &[Token<'a>]) -> Option<Option<&'a [u8]>>
    ensures { option_map text_if_some result ≡ edge_of (map token tokens.now) }
{
    match tokens {
        [] => Some(None),
        [Token::Word(tile), Token::Number(edge)] if *tile == TILE => Some(Some(*edge)),
        _ => None,
    }
}

/// A range, behind its first word.
fn read_range<'a>(tokens: &[Token<'a>]) -> Result<Statement<'a>, ReadError>
    ensures { Gives statement result (range_of (map token tokens.now)) }
{
    match tokens {
        [Token::Word(name), Token::Number(extent), rest @ ..] if is_name(*name) => {
            let edge = read_edge(rest).ok_or(ReadError::Form)?;
            Ok(Statement::Range {
                name: *name,
                extent: *extent,
                edge,
            })
        }
        _ => Err(ReadError::Form),
    }
}

/// Names alone.
fn all_names<'a>(alloc: Global, tokens: &[Token<'a>]) -> Result<Vec<&'a [u8]>, ReadError>
    ensures { Gives (λ v. names v.items) result (all_names (map token tokens.now)) }
{
    let mut found = Vec::new(alloc);
    let mut rest = tokens;
    while let [first, behind @ ..] = rest {
        let Some(name) = name_in(first) else {
            return Err(ReadError::Form);
        };
        found.push(name)?;
        rest = behind;
    }
    Ok(found)
}

/// Indexes of a range, behind their first word.
fn read_index<'a>(alloc: Global, tokens: &[Token<'a>]) -> Result<Statement<'a>, ReadError>
    ensures { Gives statement result (index_of (map token tokens.now)) }
{
    match name_ahead(tokens) {
        Some((range, rest)) if !rest.is_empty() => Ok(Statement::Index {
            range,
            indexes: all_names(alloc, rest)?,
        }),
        _ => Err(ReadError::Form),
    }
}

/// A tensor, behind its first word.
fn read_tensor<'a>(alloc: Global, tokens: &[Token<'a>]) -> Result<Statement<'a>, ReadError>
    ensures { Gives statement result (declaration_of (map token tokens.now)) }
{
    let Some((name, rest)) = name_ahead(tokens) else {
        return Err(ReadError::Form);
    };
    let (ranges, rest) = brackets(alloc, rest)?;
    if rest.is_empty() {
        Ok(Statement::Tensor { name, ranges })
    } else {
        Err(ReadError::Form)
    }
}

/// What a formula says of its result: `=`, and behind it no more than an expression.
fn right_side<'a>(alloc: Global, tokens: &[Token<'a>]) -> Result<Formula<'a>, ReadError>
    ensures { Gives formula result (right_side_of (map token tokens.now)) }
{
    let Some(tokens) = behind(b'=', tokens) else {
        return Err(ReadError::Form);
    };
    let (formula, rest) = expression(alloc, OPEN_LIMIT, tokens)?;
    if rest.is_empty() {
        Ok(formula)
    } else {
        Err(ReadError::Form)
    }
}

/// The formula, behind the name of its result.
fn read_formula<'a>(
    alloc: Global,
    result_name: &'a [u8],
    tokens: &[Token<'a>],
) -> Result<Statement<'a>, ReadError>
    ensures { Gives statement result (formula_of result_name.now (map token tokens.now)) }
{
    if !is_name(result_name) {
        return Err(ReadError::Form);
    }
    let (indexes, rest) = brackets(alloc, tokens)?;
    Ok(Statement::Formula {
        result: result_name,
        indexes,
        formula: right_side(alloc, rest)?,
    })
}

/// The statement that begins with this word.
#[tactic(auto, unfolding(crate::specs::Reading::statement_of))]
fn read_behind<'a>(
    alloc: Global,
    first: &'a [u8],
    rest: &[Token<'a>],
) -> Result<Statement<'a>, ReadError>
    ensures { Gives statement result (statement_of (word first.now ∷ map token rest.now)) }
{
    if first == RANGE {
        read_range(rest)
    } else if first == INDEX {
        read_index(alloc, rest)
    } else if first == TENSOR {
        read_tensor(alloc, rest)
    } else {
        read_formula(alloc, first, rest)
    }
}

/// The statement of a line.
#[tactic(auto, unfolding(crate::specs::Reading::statement_of))]
pub(crate) fn read_statement<'a>(
    alloc: Global,
    tokens: &[Token<'a>],
) -> Result<Statement<'a>, ReadError>
    ensures { Gives statement result (statement_of (map token tokens.now)) }
{
    match tokens {
        [Token::Word(first), rest @ ..] => read_behind(alloc, *first, rest),
        _ => Err(ReadError::Form),
    }
}
