//! Formulas, read from the tokens of a line.

ghost use Rattle.std.specs.Prelude.{◌≡◌, ◌≢◌, ◌<◌, ◌≤◌, ◌+◌, ◌*◌, ℕ, length, map, IfOk, IfSome};
ghost use Rattle.tce_grammar.specs.Code.{token, text_if_some, IsJoined};
ghost use Rattle.tce_grammar.specs.Reading.{ahead, behind, name_in, name_ahead, name_before, names_at, brackets_at, times_of, plus_of, chain_at, summed_at, sum_at, tensor_at, factor_within, formula_within, enclosed_within, product_within};
ghost use Rattle.tce_grammar.specs.ParserCode.{GivesFormula, GivesNames, operator_if_some, tokens_if_some, name_if_some};

use crate::formula::Formula;
use crate::name::SUM;
use crate::read_error::ReadError;
use crate::token::Token;
use std::alloc::{AllocError, Global};
use tce_space::{Arithmetic, is_name};

/// The tokens behind this symbol.
pub(crate) fn behind<'a, 'b>(symbol: u8, tokens: &'b [Token<'a>]) -> Option<&'b [Token<'a>]>
    ensures read { tokens_if_some result ≡ behind symbol (map token tokens.now) }
    ensures shorter { IfSome result (λ rest. length rest.now < length tokens.now) }
{
    match tokens {
        [Token::Symbol(first), rest @ ..] if *first == symbol => Some(rest),
        _ => None,
    }
}

/// A sign of a product at the front, and the tokens behind it.
fn times_ahead<'a, 'b>(tokens: &'b [Token<'a>]) -> Option<(Arithmetic, &'b [Token<'a>])>
    ensures read { operator_if_some result ≡ ahead times_of (map token tokens.now) }
    ensures shorter { IfSome result (λ r. length r.1.now < length tokens.now) }
{
    match tokens {
        [Token::Symbol(b'*'), rest @ ..] => Some((Arithmetic::Multiply, rest)),
        _ => None,
    }
}

/// A sign of a sum or difference at the front, and the tokens behind it.
fn plus_ahead<'a, 'b>(tokens: &'b [Token<'a>]) -> Option<(Arithmetic, &'b [Token<'a>])>
    ensures read { operator_if_some result ≡ ahead plus_of (map token tokens.now) }
    ensures shorter { IfSome result (λ r. length r.1.now < length tokens.now) }
{
    match tokens {
        [Token::Symbol(b'+'), rest @ ..] => Some((Arithmetic::Add, rest)),
        [Token::Symbol(b'-'), rest @ ..] => Some((Arithmetic::Subtract, rest)),
        _ => None,
    }
}

/// The name that a token is.
pub(crate) fn name_in<'a>(first: &Token<'a>) -> Option<&'a [u8]>
    ensures { text_if_some result ≡ name_in (token first.now) }
{
    match first {
        Token::Word(name) if is_name(*name) => Some(*name),
        _ => None,
    }
}

/// A name at the front, and the tokens behind it.
pub(crate) fn name_ahead<'a, 'b>(tokens: &'b [Token<'a>]) -> Option<(&'a [u8], &'b [Token<'a>])>
    ensures { name_if_some result ≡ name_ahead (map token tokens.now) }
{
    let [first, rest @ ..] = tokens else {
        return None;
    };
    Some((name_in(first)?, rest))
}

/// A name at the front with this symbol behind it.
fn name_before<'a>(symbol: u8, tokens: &[Token<'a>]) -> Option<&'a [u8]>
    ensures read { text_if_some result ≡ name_before symbol (map token tokens.now) }
    ensures both { IfSome result (λ name. 2 ≤ length tokens.now) }
{
    match tokens {
        [first, Token::Symbol(second), ..] if *second == symbol => name_in(first),
        _ => None,
    }
}

/// One or more names with commas between them, up to the closing symbol.
fn names_up_to<'a, 'b>(
    alloc: Global,
    close: u8,
    tokens: &'b [Token<'a>],
) -> Result<(Vec<&'a [u8]>, &'b [Token<'a>]), ReadError>
    ensures read { GivesNames result (names_at close (map token tokens.now)) }
    ensures shorter { IfOk result (λ r. length r.1.now < length tokens.now) }
{
    let mut found = Vec::new(alloc);
    let mut rest = tokens;
    while let Some(name) = name_before(b',', rest) {
        found.push(name)?;
        rest = &rest[2..];
    }
    let Some(last) = name_before(close, rest) else {
        return Err(ReadError::Form);
    };
    found.push(last)?;
    Ok((found, &rest[2..]))
}

/// Names in brackets, or none.
pub(crate) fn brackets<'a, 'b>(
    alloc: Global,
    tokens: &'b [Token<'a>],
) -> Result<(Vec<&'a [u8]>, &'b [Token<'a>]), ReadError>
    ensures read { GivesNames result (brackets_at (map token tokens.now)) }
    ensures shorter { IfOk result (λ r. length r.1.now < length tokens.now) }
{
    let Some(inner) = behind(b'[', tokens) else {
        return Err(ReadError::Form);
    };
    match behind(b']', inner) {
        Some(rest) => Ok((Vec::new(alloc), rest)),
        None => names_up_to(alloc, b']', inner),
    }
}

/// Two formulas with an operator between them.
fn joined<'a>(
    alloc: Global,
    between: Arithmetic,
    left: Formula<'a>,
    right: Formula<'a>,
) -> Result<Formula<'a>, AllocError>
    ensures { IfOk result (IsJoined between left.entry right.entry) }
{
    Ok(Formula::Binary {
        operator: between,
        left: Box::new(alloc, left)?,
        right: Box::new(alloc, right)?,
    })
}

/// Factors with `*` between them.
#[cycle(parser)]
#[tactic(auto, unfolding(crate::specs::Reading::chain_at))]
fn product<'a, 'b>(
    alloc: Global,
    open_left: u8,
    tokens: &'b [Token<'a>],
) -> Result<(Formula<'a>, &'b [Token<'a>]), ReadError>
    ensures read { GivesFormula result (product_within open_left (map token tokens.now)) }
    ensures shorter { IfOk result (λ r. length r.1.now < length tokens.now) }
{
    let (mut left, mut rest) = factor(alloc, open_left, tokens)?;
    while let Some((operator, behind)) = times_ahead(rest) {
        let (right, after) = factor(alloc, open_left, behind)?;
        left = joined(alloc, operator, left, right)?;
        rest = after;
    }
    Ok((left, rest))
}

/// Products with `+` and `-` between them.
#[cycle(parser)]
#[tactic(auto, unfolding(crate::specs::Reading::chain_at))]
pub(crate) fn expression<'a, 'b>(
    alloc: Global,
    open_left: u8,
    tokens: &'b [Token<'a>],
) -> Result<(Formula<'a>, &'b [Token<'a>]), ReadError>
    ensures read { GivesFormula result (formula_within open_left (map token tokens.now)) }
    ensures shorter { IfOk result (λ r. length r.1.now < length tokens.now) }
{
    let (mut left, mut rest) = product(alloc, open_left, tokens)?;
    while let Some((operator, behind)) = plus_ahead(rest) {
        let (right, after) = product(alloc, open_left, behind)?;
        left = joined(alloc, operator, left, right)?;
        rest = after;
    }
    Ok((left, rest))
}

/// What stands behind an open parenthesis, which is one of those left.
#[cycle(parser)]
#[tactic(auto, using(crate::proofs::Chains::enclosed_none, crate::proofs::Chains::enclosed_some))]
fn enclosed<'a, 'b>(
    alloc: Global,
    open_left: u8,
    tokens: &'b [Token<'a>],
) -> Result<(Formula<'a>, &'b [Token<'a>]), ReadError>
    ensures read { GivesFormula result (enclosed_within open_left (map token tokens.now)) }
    ensures shorter { IfOk result (λ r. length r.1.now < length tokens.now) }
{
    if open_left == 0 {
        return Err(ReadError::Form);
    }
    let (inner, rest) = expression(alloc, open_left - 1, tokens)?;
    let rest = behind(b')', rest).ok_or(ReadError::Form)?;
    Ok((inner, rest))
}

/// The indexes of a sum, in braces behind its first word, up to the parenthesis behind them.
fn summed<'a, 'b>(
    alloc: Global,
    tokens: &'b [Token<'a>],
) -> Result<(Vec<&'a [u8]>, &'b [Token<'a>]), ReadError>
    ensures read { GivesNames result (summed_at (map token tokens.now)) }
    ensures shorter { IfOk result (λ r. length r.1.now < length tokens.now) }
{
    let Some(list) = behind(b'{', tokens) else {
        return Err(ReadError::Form);
    };
    let (indexes, rest) = names_up_to(alloc, b'}', list)?;
    match behind(b'(', rest) {
        Some(operand) => Ok((indexes, operand)),
        None => Err(ReadError::Form),
    }
}

/// A sum, behind its first word.
#[cycle(parser)]
#[tactic(auto, using(crate::proofs::Chains::sum_by_parts))]
fn sum<'a, 'b>(
    alloc: Global,
    open_left: u8,
    tokens: &'b [Token<'a>],
) -> Result<(Formula<'a>, &'b [Token<'a>]), ReadError>
    ensures read { GivesFormula result (sum_at (enclosed_within open_left) (map token tokens.now)) }
    ensures shorter { IfOk result (λ r. length r.1.now < length tokens.now) }
{
    let (indexes, rest) = summed(alloc, tokens)?;
    let (operand, rest) = enclosed(alloc, open_left, rest)?;
    let operand = Box::new(alloc, operand)?;
    Ok((Formula::Sum { indexes, operand }, rest))
}

/// A tensor of this name, with the indexes that stand behind it.
fn tensor<'a, 'b>(
    alloc: Global,
    name: &'a [u8],
    tokens: &'b [Token<'a>],
) -> Result<(Formula<'a>, &'b [Token<'a>]), ReadError>
    ensures read { GivesFormula result (tensor_at name.now (map token tokens.now)) }
    ensures shorter { IfOk result (λ r. length r.1.now < length tokens.now) }
{
    let (indexes, rest) = brackets(alloc, tokens)?;
    Ok((Formula::Tensor { name, indexes }, rest))
}

/// A tensor, a constant, a sum, or an expression in parentheses.
#[cycle(parser)]
fn factor<'a, 'b>(
    alloc: Global,
    open_left: u8,
    tokens: &'b [Token<'a>],
) -> Result<(Formula<'a>, &'b [Token<'a>]), ReadError>
    ensures read { GivesFormula result (factor_within open_left (map token tokens.now)) }
    ensures shorter { IfOk result (λ r. length r.1.now < length tokens.now) }
{
    match tokens {
        [Token::Number(digits), rest @ ..] => Ok((Formula::Constant(*digits), rest)),
        [Token::Symbol(b'('), rest @ ..] => enclosed(alloc, open_left, rest),
        [Token::Word(word), rest @ ..] if *word == SUM => sum(alloc, open_left, rest),
        [Token::Word(word), rest @ ..] if is_name(*word) => tensor(alloc, *word, rest),
        _ => Err(ReadError::Form),
    }
}
