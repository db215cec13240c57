//! Formulas, as trees that borrow their text.

ghost use Rattle.std.specs.Prelude.{◌<◌, ◌↔◌, IsTrue};
ghost use Rattle.tce_grammar.specs.Code.{formula, LeavesOperations};
ghost use Rattle.tce_grammar.specs.Formula.{operations};

use tce_space::Arithmetic;

/// A formula with the names and the digits of its text. Parentheses alone are no part of it.
///
/// Operators of one precedence group to the left, so a formula may go down its left operands as often as its text has
/// operators, and down its right operands and its sums as often as parentheses are open at once.
pub enum Formula<'a> {
    /// A tensor at indexes, by their names.
    Tensor {
        name: &'a [u8],
        indexes: Vec<&'a [u8]>,
    },
    /// The digits of a constant.
    Constant(&'a [u8]),
    /// A sum over one or more indexes.
    Sum {
        indexes: Vec<&'a [u8]>,
        operand: Box<Formula<'a>>,
    },
    /// A product, an addition or a subtraction.
    Binary {
        operator: Arithmetic,
        left: Box<Formula<'a>>,
        right: Box<Formula<'a>>,
    },
}

impl<'a> Drop for Formula<'a> {
    // A loop along the left operands: a long chain would run out of stack.
    fn drop(mut self) {
        loop {
            match self {
                Formula::Tensor {
                    name: _,
                    indexes: _,
                } => return,
                Formula::Constant(_) => return,
                Formula::Sum {
                    indexes: _,
                    operand,
                } => self = Box::into_inner(operand),
                Formula::Binary {
                    operator: _,
                    left,
                    right: _,
                } => self = Box::into_inner(left),
            }
        }
    }
}

impl<'a> Formula<'a> {
    /// Whether the formula has more sums, products, additions and subtractions together than `limit`. It looks at no
    /// more than one above the limit.
    pub fn has_more_operations(&self, limit: u32) -> bool
        ensures { IsTrue result ↔ (limit < operations (formula self.now)) }
    {
        operations_left(self, limit).is_none()
    }
}

/// What is left of `limit` without the operations of a formula.
fn operations_left(whole: &Formula, limit: u32) -> Option<u32>
    ensures { LeavesOperations limit whole.now result }
{
    let mut left = limit;
    let mut rest = whole;
    loop {
        match rest {
            Formula::Tensor { .. } | Formula::Constant(_) => return Some(left),
            Formula::Sum { operand, .. } => {
                let Some(fewer) = left.checked_sub(1) else {
                    return None;
                };
                left = fewer;
                rest = operand;
            }
            Formula::Binary {
                left: first,
                right,
                ..
            } => {
                let Some(fewer) = left.checked_sub(1) else {
                    return None;
                };
                let Some(fewer) = operations_left(right, fewer) else {
                    return None;
                };
                left = fewer;
                rest = first;
            }
        }
    }
}
