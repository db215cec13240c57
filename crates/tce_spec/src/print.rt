//! The canonical text.

ghost use Rattle.std.specs.Prelude.{◌≡◌, IfOk, OnOk};
ghost use Rattle.tce_tree.specs.Expr.{tree_of};
ghost use Rattle.tce_spec.specs.Declarations.{IsDeclarations};
ghost use Rattle.tce_spec.specs.Statements.{formula_statement};
ghost use Rattle.tce_spec.specs.Lines.{with_line};
ghost use Rattle.tce_spec.specs.Expressions.{IsContractionTo, canonical_to};

use crate::declarations::Declarations;
use crate::expression_text::push_expr;
use crate::index_lines::print_indexes;
use crate::range_lines::print_ranges;
use crate::tensor_lines::{print_tensors, push_reference};
use crate::words::push_symbol;
use std::alloc::{AllocError, Global};
use tce_grammar::Printer;
use tce_tree::{Expr, Leaf};

fn print_formula(
    alloc: Global,
    printer: &mut Printer,
    declarations: &Declarations,
    computed: &Leaf,
    expr: &Expr,
) -> Result<(), AllocError>
    requires rules { IsDeclarations declarations.now }
    requires contraction { IsContractionTo declarations.now computed.now expr.now }
    ensures { OnOk result (printer.new ≡ with_line printer.old
        (formula_statement declarations.now computed.now.tensor computed.now.indexes.items (tree_of expr.now))) }
{
    push_reference(printer, declarations, computed)?;
    push_symbol(printer, b'=')?;
    push_expr(alloc, printer, declarations, expr)?;
    printer.end_line()
}

/// The canonical text of declarations, and of the formula that gives each element of a tensor over them: a line for each
/// range, the indexes in order of declaration with neighbours of one range on one line, a line for each tensor, and the
/// formula. An edge of 1 is not written, and an expression has no more parentheses than it needs.
pub fn print_lines(
    alloc: Global,
    declarations: &Declarations,
    computed: &Leaf,
    expr: &Expr,
) -> Result<Vec<u8>, AllocError>
    requires { IsContractionTo declarations.now computed.now expr.now }
    ensures { IfOk result (λ t. t.items ≡ canonical_to declarations.now computed.now expr.now) }
{
    let mut printer = Printer::new(alloc);
    print_ranges(alloc, &mut printer, declarations.space())?;
    print_indexes(&mut printer, declarations.space())?;
    print_tensors(&mut printer, declarations)?;
    print_formula(alloc, &mut printer, declarations, computed, expr)?;
    Ok(printer.into_text())
}
