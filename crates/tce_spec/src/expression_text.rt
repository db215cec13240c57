//! Expressions with no more parentheses than they need.

ghost use Rattle.std.specs.Prelude.{◌≡◌, ◌<◌, ◌∷◌, ◌++◌, [], length, All, OnOk, codes};
ghost use Rattle.tce_tree.specs.Expr.{tree_of};
ghost use Rattle.tce_tree.specs.WellFormed.{IsDeclaredTree};
ghost use Rattle.tce_grammar.specs.Tokens as tokens;
ghost use Rattle.tce_grammar.specs.Formula as formulas;
ghost use Rattle.tce_grammar.specs.Grammar as grammar;
ghost use Rattle.tce_grammar.specs.Grammar.{listed, spelling};
ghost use Rattle.tce_grammar.specs.Canonical.{written_of, grouped_if};
ghost use Rattle.tce_grammar.specs.Printed.{with_tokens};
ghost use Rattle.tce_spec.specs.Declarations as model;
ghost use Rattle.tce_spec.specs.Contraction.{LeavesFit};
ghost use Rattle.tce_spec.specs.Statements.{formula_of, index_names};
ghost use Rattle.tce_spec.specs.Expressions.{written_expr, with_expr};

use crate::declarations::Declarations;
use crate::tensor_lines::push_reference;
use crate::words::{push_index_list, push_number, push_symbol, push_word};
use std::alloc::{AllocError, Global};
use tce_grammar::Printer;
use tce_space::{Arithmetic, Space};
use tce_tree::Expr;

fn sign(operator: Arithmetic) -> u8
    ensures { tokens.symbol result ≡ grammar.sign operator }
{
    match operator {
        Arithmetic::Multiply => b'*',
        Arithmetic::Add => b'+',
        Arithmetic::Subtract => b'-',
    }
}

/// How tightly an operator binds.
fn precedence(operator: Arithmetic) -> u8
    ensures { result ≡ grammar.precedence operator }
{
    match operator {
        Arithmetic::Multiply => 2,
        Arithmetic::Add | Arithmetic::Subtract => 1,
    }
}

/// The precedence of an expression's last operator, and 3 where it has none outside of brackets.
fn level(expr: &Expr) -> u8
    ensures { (d : model.Declarations) → result ≡ grammar.level (written_expr d expr.now) }
{
    match expr {
        Expr::Leaf(_) | Expr::Constant(_) | Expr::Sum(_, _) => 3,
        Expr::Product(_, _) => 2,
        Expr::Add(_, _) | Expr::Sub(_, _) => 1,
    }
}

/// Prints the word and the indexes of a sum.
fn push_summed(printer: &mut Printer, space: &Space, indexes: &[u8]) -> Result<(), AllocError>
    requires { All (λ i. i < length space.now.indexes) indexes.now }
    ensures { OnOk result (printer.new ≡ with_tokens printer.old
        (tokens.word (codes "sum") ∷ tokens.symbol 123 ∷ (listed (index_names space.now indexes.now) ++ tokens.symbol 125 ∷ []))) }
{
    push_word(printer, "sum")?;
    push_symbol(printer, b'{')?;
    push_index_list(printer, space, indexes)?;
    push_symbol(printer, b'}')
}

/// Prints an expression, and goes as deep as it does.
#[cycle(expression)]
pub(crate) fn push_expr(
    alloc: Global,
    printer: &mut Printer,
    declarations: &Declarations,
    expr: &Expr,
) -> Result<(), AllocError>
    requires leaves { LeavesFit declarations.now (tree_of expr.now) }
    requires declared { IsDeclaredTree declarations.now.space (tree_of expr.now) }
    ensures { OnOk result (printer.new ≡ with_expr printer.old declarations.now expr.now) }
{
    match expr {
        Expr::Leaf(leaf) => push_reference(printer, declarations, leaf),
        Expr::Constant(number) => push_number(alloc, printer, *number),
        Expr::Product(left, right) => {
            push_binary(
                alloc,
                printer,
                declarations,
                Arithmetic::Multiply,
                left,
                right,
            )
        }
        Expr::Add(left, right) => {
            push_binary(alloc, printer, declarations, Arithmetic::Add, left, right)
        }
        Expr::Sub(left, right) => {
            push_binary(
                alloc,
                printer,
                declarations,
                Arithmetic::Subtract,
                left,
                right,
            )
        }
        Expr::Sum(indexes, operand) => {
            push_summed(printer, declarations.space(), indexes.as_slice())?;
            push_operand(alloc, printer, declarations, operand, true)
        }
    }
}

/// Prints two expressions with an operator between them.
#[cycle(expression)]
fn push_binary(
    alloc: Global,
    printer: &mut Printer,
    declarations: &Declarations,
    operator: Arithmetic,
    left: &Expr,
    right: &Expr,
) -> Result<(), AllocError>
    requires left_leaves { LeavesFit declarations.now (tree_of left.now) }
    requires left_declared { IsDeclaredTree declarations.now.space (tree_of left.now) }
    requires right_leaves { LeavesFit declarations.now (tree_of right.now) }
    requires right_declared { IsDeclaredTree declarations.now.space (tree_of right.now) }
    ensures { OnOk result (printer.new ≡ with_tokens printer.old
        (spelling (written_of (formulas.binary operator (formula_of declarations.now (tree_of left.now)) (formula_of declarations.now (tree_of right.now)))))) }
{
    let precedence = precedence(operator);
    push_operand(alloc, printer, declarations, left, level(left) < precedence)?;
    push_symbol(printer, sign(operator))?;
    push_operand(
        alloc,
        printer,
        declarations,
        right,
        level(right) <= precedence,
    )
}

/// Prints an expression, in parentheses where it is grouped.
#[cycle(expression)]
fn push_operand(
    alloc: Global,
    printer: &mut Printer,
    declarations: &Declarations,
    expr: &Expr,
    grouped: bool,
) -> Result<(), AllocError>
    requires leaves { LeavesFit declarations.now (tree_of expr.now) }
    requires declared { IsDeclaredTree declarations.now.space (tree_of expr.now) }
    ensures { OnOk result (printer.new ≡ with_tokens printer.old
        (spelling (grouped_if grouped (written_of (formula_of declarations.now (tree_of expr.now)))))) }
{
    if grouped {
        push_symbol(printer, b'(')?;
        push_expr(alloc, printer, declarations, expr)?;
        push_symbol(printer, b')')
    } else {
        push_expr(alloc, printer, declarations, expr)
    }
}
