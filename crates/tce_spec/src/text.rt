//! The lines of a text up to its formula, and behind it.

ghost use Rattle.std.specs.Prelude.{◌≡◌, ◌+◌, ◌-◌, ◌<◌, ◌≤◌, ◌^◌, List, ◌∷◌, map, Ok, Err, IfOk, IfErr, Option, Result, length, drop};
ghost use Rattle.tce_space.specs.Limits.{max_spec_bytes};
ghost use Rattle.tce_grammar.specs.Code.{line as line_view};
ghost use Rattle.tce_grammar.specs.Lines.{lines};
ghost use Rattle.tce_grammar.specs.Grammar as grammar;
ghost use Rattle.tce_grammar.specs.Reading.{line_of};
ghost use Rattle.tce_spec.specs.Declarations.{HaveNames};
ghost use Rattle.tce_spec.specs.Faults.{Fault};
ghost use Rattle.tce_spec.specs.FaultCode.{Shows};
ghost use Rattle.tce_spec.specs.Text.{IsClosing, head_of, closing_fault};
ghost use Rattle.tce_spec.specs.TextCode.{AnswersFault, LineHasNames, fault_in, head_behind, head, StandsAt, ShowsFirst, head_of_text, AnswersHead, IsFormulaLine};

use crate::declarations::Declarations;
use crate::fault::SpecFault;
use std::alloc::{AllocError, Global};
use tce_grammar::{Formula, Line, Statement, first_line, read_line};
use tce_space::MAX_SPEC_BYTES;

/// The formula of a text, the declarations in front of it, and the text behind its line.
#[derive(Drop)]
pub struct Head<'a> {
    pub declarations: Declarations,
    /// The number of the formula's line, from 1.
    pub line: u64,
    /// The name of the result.
    pub result: &'a [u8],
    /// The names of the result's indexes.
    pub indexes: Vec<&'a [u8]>,
    pub formula: Formula<'a>,
    /// The text behind the formula's line.
    pub rest: &'a [u8],
}

/// What stands behind a line that was read: further declarations, or the head where the line has the formula.
#[derive(Drop)]
enum Read<'a> {
    Declared(Declarations),
    Formula(Head<'a>),
}

/// Reads a line.
fn read_named<'a>(alloc: Global, text: &'a [u8]) -> Result<Line<'a>, AllocError>
    ensures line { IfOk result (λ read. line_view read ≡ line_of text.now) }
    ensures names { IfOk result (λ read. LineHasNames (line_view read)) }
{
    read_line(alloc, text)
}

/// Refuses a line, where the declarations in front of it end.
fn refused<'a>(_declarations: Declarations, fault: SpecFault) -> Result<Read<'a>, SpecFault>
    ensures { result ≡ Err fault }
{
    Err(fault)
}

/// Reads a line behind some declarations, with the text behind it.
fn read_first<'a>(
    alloc: Global,
    declarations: Declarations,
    line: u64,
    first: &'a [u8],
    rest: &'a [u8],
) -> Result<Read<'a>, SpecFault>
    ensures read { IfOk result (λ read. (behind : List grammar.Line) →
        head_of line declarations (line_of first.now ∷ behind) ≡ head_behind line read behind) }
    ensures fault { IfErr result (ShowsFirst line declarations first.now) }
    ensures place { IfOk result (StandsAt line rest.now) }
{
    match read_named(alloc, first) {
        Ok(Line::Skipped) => Ok(Read::Declared(declarations)),
        Ok(Line::Bad) => refused(declarations, SpecFault::BadText(line)),
        Ok(
            Line::Says(
                Statement::Formula {
                    result,
                    indexes,
                    formula,
                },
            ),
        ) => Ok(Read::Formula(Head {
            declarations,
            line,
            result,
            indexes,
            formula,
            rest,
        })),
        Ok(Line::Says(said)) => Ok(Read::Declared(declarations.declare(line, &said)?)),
        Err(_) => refused(declarations, SpecFault::Memory),
    }
}

/// Reads the lines of a text up to its formula.
fn read_lines<'a>(alloc: Global, text: &'a [u8]) -> Result<Head<'a>, SpecFault>
    requires { length text.now ≤ max_spec_bytes }
    ensures head { IfOk result (λ found. head_of_text text.now ≡ Ok (head found)) }
    ensures fault { IfErr result (Shows (fault_in (head_of_text text.now))) }
    ensures rest { IfOk result (λ found. lines found.rest.now ≡ drop found.line (lines text.now)) }
    ensures few { IfOk result (λ found. found.line + length found.rest.now ≤ max_spec_bytes) }
{
    let mut declarations = Declarations::new(alloc)?;
    let mut line: u64 = 1;
    let mut rest = text;
    while let Some((first, behind)) = first_line(rest) {
        match read_first(alloc, declarations, line, first, behind)? {
            Read::Declared(further) => declarations = further,
            Read::Formula(found) => return Ok(found),
        }
        line += 1;
        rest = behind;
    }
    Err(SpecFault::BadText(line))
}

/// Reads the declarations of a text, up to the line of its formula.
///
/// `TooLong` where the text has more than 65,536 bytes. Else the first line with a fault decides. A line that has none of
/// the four forms is `BadText`, and so is the line behind the last where no line has a formula.
pub fn read_head<'a>(alloc: Global, text: &'a [u8]) -> Result<Head<'a>, SpecFault>
    ensures answers { AnswersHead text.now result }
    ensures said { IfOk result (IsFormulaLine text.now) }
    ensures names { IfOk result (λ found. HaveNames found.declarations.tensors) }
    ensures rest { IfOk result (λ found. lines found.rest.now ≡ drop found.line (lines text.now)) }
    ensures few { IfOk result (λ found. found.line + length found.rest.now ≤ max_spec_bytes) }
{
    if text.len() > MAX_SPEC_BYTES {
        return Err(SpecFault::TooLong);
    }
    read_lines(alloc, text)
}

/// Checks that each line of the text behind a formula is skipped. The first that is not is `BadText`; `line` is the
/// number of the first.
pub fn check_rest(alloc: Global, line: u64, text: &[u8]) -> Result<(), SpecFault>
    requires { line + length text.now < 2 ^ 64 }
    ensures { (found : Option Fault) → IsClosing line text.now found → AnswersFault found result }
{
    check_lines(alloc, line, text)
}

fn check_lines(alloc: Global, first_number: u64, text: &[u8]) -> Result<(), SpecFault>
    requires { first_number + length text.now < 2 ^ 64 }
    ensures { AnswersFault (closing_fault first_number (map line_of (lines text.now))) result }
{
    let mut number = first_number;
    let mut rest = text;
    while let Some((first, behind)) = first_line(rest) {
        let Line::Skipped = read_named(alloc, first)? else {
            return Err(SpecFault::BadText(number));
        };
        number += 1;
        rest = behind;
    }
    Ok(())
}
