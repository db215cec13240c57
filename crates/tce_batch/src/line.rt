//! The formula lines of a batch.

ghost use Rattle.std.specs.Prelude.{◌≡◌, Ok, IfOk, IfErr, IfSome, IsTrue};
ghost use Rattle.tce_space.specs.Name.{is_name};
ghost use Rattle.tce_grammar.specs.Code.{names, formula, line as line_view};
ghost use Rattle.tce_grammar.specs.Grammar.{AreNames, IsLine};
ghost use Rattle.tce_grammar.specs.Reading.{line_of};
ghost use Rattle.tce_spec.specs.FaultCode.{Shows};
ghost use Rattle.tce_spec.specs.Places.{IsNamed};
ghost use Rattle.tce_spec.specs.SpecCode.{IsKept};
ghost use Rattle.tce_batch.specs.Reading.{may_follow};
ghost use Rattle.tce_batch.specs.BatchCode.{line_fault, HasFormula, HasFormulaFault, ReadsLine};

use std::alloc::{AllocError, Global};
use tce_grammar::{Formula, Line, Statement, read_line};
use tce_spec::{Contraction, Declarations, SpecFault, read_formula};

/// Reads a line.
fn read_named<'a>(alloc: Global, text: &'a [u8]) -> Result<Line<'a>, AllocError>
    ensures line { IfOk result (λ read. line_view read ≡ line_of text.now) }
    ensures is_line { IfOk result (λ read. IsLine text.now (line_view read)) }
{
    read_line(alloc, text)
}

/// What a formula line computes over declarations that stand in front of it.
pub(crate) fn contraction_of(
    alloc: Global,
    line: u64,
    declarations: &Declarations,
    name: &[u8],
    indexes: &[&[u8]],
    written: &Formula,
) -> Result<Contraction, SpecFault>
    requires name { IsTrue (is_name name.now) }
    requires indexes { AreNames (names indexes.now) }
    requires written { IsNamed (formula written.now) }
    ensures kept { IfOk result (IsKept declarations.now) }
    ensures specified { HasFormula line declarations.now name.now indexes.now written.now result }
    ensures fault { HasFormulaFault line declarations.now name.now indexes.now written.now result }
{
    let _space = declarations.space();
    read_formula(alloc, line, declarations, name, indexes, written)
}

/// Reads a line: what it computes, where it is a formula line.
pub(crate) fn read_next(
    alloc: Global,
    declarations: &Declarations,
    line: u64,
    text: &[u8],
) -> Result<Option<Contraction>, SpecFault>
    ensures kept { IfOk result (λ read. IfSome read (IsKept declarations.now)) }
    ensures read { IfOk result (ReadsLine line declarations.now text.now) }
    ensures fault { IfErr result (Shows (line_fault line declarations.now text.now)) }
{
    match read_named(alloc, text)? {
        Line::Says(
            Statement::Formula {
                result,
                indexes,
                formula,
            },
        ) => {
            let contraction = contraction_of(
                alloc,
                line,
                declarations,
                result,
                indexes.as_slice(),
                &formula,
            )?;
            Ok(Some(contraction))
        }
        _ => Ok(None),
    }
}

/// Whether a line may stand behind a formula: it is skipped, or a further formula line.
pub(crate) fn may_follow(alloc: Global, text: &[u8]) -> Result<bool, AllocError>
    ensures { IfOk result (λ may. may ≡ may_follow (line_of text.now)) }
{
    match read_named(alloc, text)? {
        Line::Skipped => Ok(true),
        Line::Says(Statement::Formula { .. }) => Ok(true),
        _ => Ok(false),
    }
}
