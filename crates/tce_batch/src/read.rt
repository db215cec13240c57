//! The reader of several formulas.

ghost use Rattle.std.specs.Prelude.{◌≡◌, ◌+◌, ◌<◌, ◌^◌, ◌≤◌, ◌++◌, All, IfOk, IfErr, OnOk, length, map};
ghost use Rattle.tce_space.specs.Limits.{max_spec_bytes};
ghost use Rattle.tce_grammar.specs.Lines.{lines};
ghost use Rattle.tce_grammar.specs.Reading.{line_of};
ghost use Rattle.tce_spec.specs.FaultCode.{Shows};
ghost use Rattle.tce_spec.specs.TextCode.{AnswersFault};
ghost use Rattle.tce_spec.specs.SpecCode.{IsKept};
ghost use Rattle.tce_spec.specs.OutcomeCode.{FormulaHasNames};
ghost use Rattle.tce_batch.specs.Reading.{as_found, as_list, of_lines};
ghost use Rattle.tce_batch.specs.BatchCode.{behind_fault, further_fault, AnswersBatch, ReadsFurther, ReadsLines, LinesShow};

use crate::batch::Batch;
use crate::line::{contraction_of, may_follow, read_next};
use std::alloc::{AllocError, Global};
use tce_grammar::first_line;
use tce_spec::{Contraction, Declarations, Head, SpecFault, read_head};

/// Checks that each line behind a formula is skipped or a further formula line. The first that is neither is `BadText`;
/// `first_number` is the number of the first.
fn check_behind(alloc: Global, first_number: u64, text: &[u8]) -> Result<(), SpecFault>
    requires { first_number + length text.now < 2 ^ 64 }
    ensures { AnswersFault (behind_fault first_number text.now) result }
{
    let mut number = first_number;
    let mut rest = text;
    while let Some((first, behind)) = first_line(rest) {
        if !may_follow(alloc, first)? {
            return Err(SpecFault::BadText(number));
        }
        number += 1;
        rest = behind;
    }
    Ok(())
}

/// Puts what a formula line computes behind the others.
fn keep(contractions: &mut Vec<Contraction>, next: Option<Contraction>) -> Result<(), AllocError>
    ensures { OnOk result (contractions.new.items ≡ contractions.old.items ++ as_list next) }
{
    if let Some(contraction) = next {
        contractions.push(contraction)?;
    }
    Ok(())
}

/// Puts what the formula lines of a text compute behind the others. `first_number` is the number of the first line of
/// the text.
fn read_behind(
    alloc: Global,
    declarations: &Declarations,
    contractions: &mut Vec<Contraction>,
    first_number: u64,
    text: &[u8],
) -> Result<(), SpecFault>
    requires kept { All (IsKept declarations.now) contractions.old.items }
    requires few { first_number + length text.now < 2 ^ 64 }
    ensures kept { OnOk result (All (IsKept declarations.now) contractions.new.items) }
    ensures read { OnOk result (as_found declarations.now contractions.old.items
        ++ of_lines first_number declarations.now (map line_of (lines text.now))
        ≡ as_found declarations.now contractions.new.items) }
    ensures fault { IfErr result (Shows (further_fault first_number declarations.now text.now)) }
{
    let mut number = first_number;
    let mut rest = text;
    while let Some((next, behind)) = first_line(rest) {
        let read = read_next(alloc, declarations, number, next)?;
        keep(contractions, read)?;
        number += 1;
        rest = behind;
    }
    Ok(())
}

/// Reads the further formula lines, behind what the first computes. `first_number` is the number of the first line of
/// the text.
fn read_further(
    alloc: Global,
    declarations: &Declarations,
    first: Contraction,
    first_number: u64,
    text: &[u8],
) -> Result<Vec<Contraction>, SpecFault>
    requires kept { IsKept declarations.now first }
    requires few { first_number + length text.now < 2 ^ 64 }
    ensures kept { IfOk result (λ cs. All (IsKept declarations.now) cs.items) }
    ensures read { IfOk result (λ cs.
        ReadsFurther declarations.now first first_number text.now cs.items) }
    ensures fault { IfErr result (Shows (further_fault first_number declarations.now text.now)) }
{
    let mut contractions = Vec::new(alloc);
    keep(&mut contractions, Some(first))?;
    match read_behind(alloc, declarations, &mut contractions, first_number, text) {
        Ok(()) => Ok(contractions),
        Err(fault) => {
            drop(contractions);
            Err(fault)
        }
    }
}

/// What the formula lines of a text compute, of which the first stands in its head.
fn read_lines(alloc: Global, head: &Head) -> Result<Vec<Contraction>, SpecFault>
    requires names { FormulaHasNames head.now }
    requires few { head.now.line + length head.now.rest.now ≤ max_spec_bytes }
    ensures some { IfOk result (λ cs. 0 < length cs.items) }
    ensures kept { IfOk result (λ cs. All (IsKept head.now.declarations) cs.items) }
    ensures read { IfOk result (λ cs. ReadsLines head.now cs.items) }
    ensures fault { IfErr result (LinesShow head.now) }
{
    let first = contraction_of(
        alloc,
        head.line,
        &head.declarations,
        head.result,
        head.indexes.as_slice(),
        &head.formula,
    )?;
    match check_behind(alloc, head.line + 1, head.rest) {
        Ok(()) => read_further(alloc, &head.declarations, first, head.line + 1, head.rest),
        Err(fault) => {
            drop(first);
            Err(fault)
        }
    }
}

/// Reads a text with one formula line or more.
///
/// For each formula line the text is taken with the content of every other formula line dropped, and must be a
/// specification; all declarations stand in front of the first formula line. `TooLong` where the text has more than
/// 65,536 bytes. Else the fault is that of the first of these texts that has one: so a line that has none of the four
/// forms, or a declaration behind a formula, comes before every fault of the second formula. Without a formula line the
/// text is refused as one specification is. The text is read in time linear in its length.
pub fn read_batch(alloc: Global, text: &[u8]) -> Result<Batch, SpecFault>
    ensures { AnswersBatch text.now result }
{
    let head = read_head(alloc, text)?;
    match read_lines(alloc, &head) {
        Ok(contractions) => Ok(Batch {
            declarations: head.declarations,
            contractions,
        }),
        Err(fault) => {
            drop(head);
            Err(fault)
        }
    }
}
