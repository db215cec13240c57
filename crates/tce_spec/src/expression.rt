//! What a formula means.

ghost use Rattle.std.specs.Prelude.{◌≡◌, ◌<◌, ◌≤◌, ℕ, IfOk, IsTrue, length};
ghost use Rattle.tce_space.specs.Limits.{max_rank};
ghost use Rattle.tce_space.specs.Name.{is_name};
ghost use Rattle.tce_tree.specs.Expr.{tree_of};
ghost use Rattle.tce_grammar.specs.Code.{names, formula};
ghost use Rattle.tce_grammar.specs.Grammar.{AreNames};
ghost use Rattle.tce_spec.specs.Places.{IsNamed};
ghost use Rattle.tce_spec.specs.Lengths.{IsShort};
ghost use Rattle.tce_spec.specs.Meaning.{meaning, indexes_of, tensor_of};

use crate::declarations::Declarations;
use crate::names::{index_named, tensor_named};
use crate::numbers::value_of;
use arrayvec::ArrayVec;
use std::alloc::{AllocError, Global};
use std::boxed::Box;
use tce_grammar::Formula;
use tce_space::{Arithmetic, Space};
use tce_tree::{Expr, Leaf};

/// The numbers of declared indexes.
fn indexes_of<const N: usize>(space: &Space, indexes: &[&[u8]]) -> ArrayVec<u8, N>
    requires names { AreNames (names indexes.now) }
    requires few { length indexes.now ≤ N }
    ensures { result.items ≡ indexes_of space.now (names indexes.now) }
{
    let mut numbers = ArrayVec::new();
    let mut rest = indexes;
    while let [name, behind @ ..] = rest {
        numbers.push(index_named(space, *name).unwrap_or(0));
        rest = behind;
    }
    numbers
}

/// A declared tensor at declared indexes.
pub(crate) fn leaf_of(declarations: &Declarations, name: &[u8], indexes: &[&[u8]]) -> Leaf
    requires name { IsTrue (is_name name.now) }
    requires names { AreNames (names indexes.now) }
    requires few { length indexes.now ≤ max_rank }
    ensures tensor { result.tensor ≡ tensor_of declarations.now name.now }
    ensures indexes { result.indexes.items ≡ indexes_of declarations.now.space (names indexes.now) }
{
    Leaf {
        tensor: tensor_named(declarations, name).unwrap_or(0),
        indexes: indexes_of(declarations.space(), indexes),
    }
}

/// What a formula of declared names means. It goes as deep as the formula does.
pub(crate) fn expression_of(
    alloc: Global,
    declarations: &Declarations,
    written: &Formula,
) -> Result<Expr, AllocError>
    requires names { IsNamed (formula written.now) }
    requires short { IsShort (formula written.now) }
    ensures { IfOk result (λ expr. tree_of expr ≡ meaning declarations.now (formula written.now)) }
{
    match written {
        Formula::Tensor { name, indexes } => {
            Ok(Expr::Leaf(leaf_of(declarations, *name, indexes.as_slice())))
        }
        Formula::Constant(digits) => Ok(Expr::Constant(value_of(*digits).unwrap_or(0))),
        Formula::Sum { indexes, operand } => {
            let operand = expression_of(alloc, declarations, operand)?;
            let summed = indexes_of(declarations.space(), indexes.as_slice());
            Ok(Expr::Sum(summed, Box::new(alloc, operand)?))
        }
        Formula::Binary {
            operator,
            left,
            right,
        } => {
            let left = Box::new(alloc, expression_of(alloc, declarations, left)?)?;
            let right = Box::new(alloc, expression_of(alloc, declarations, right)?)?;
            Ok(match operator {
                Arithmetic::Multiply => Expr::Product(left, right),
                Arithmetic::Add => Expr::Add(left, right),
                Arithmetic::Subtract => Expr::Sub(left, right),
            })
        }
    }
}
