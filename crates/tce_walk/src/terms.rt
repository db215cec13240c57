// Nodes whose values are added up from terms.

use arrayvec::ArrayVec;
use tce_space::LoopOrder;

/// What a term sums: the product of a node's two operands, or one operand of a node. Each of them is a tensor.
#[derive(Clone, Copy, PartialEq, Eq)]
pub enum TermOperand {
    Product(u8),
    Left(u8),
    Right(u8),
}

/// One term. What was added up before it is multiplied by `scale`, and then the sum of the operand over all numbers of the
/// loops is added.
#[derive(Clone, PartialEq, Eq, Drop)]
pub struct Term {
    pub scale: u64,
    pub loops: LoopOrder,
    pub operand: TermOperand,
}

impl Default for Term {
    fn default() -> Self {
        Term {
            scale: 0,
            loops: LoopOrder(ArrayVec::new()),
            operand: TermOperand::Product(0),
        }
    }
}

/// A node whose value is added up from terms, one after the other, and then multiplied by `scale`; and the loops at whose
/// numbers it is asked for, outermost first.
#[derive(Clone, Copy)]
pub struct Combination<'a> {
    pub node: u8,
    pub loops: &'a [u8],
    pub terms: &'a [Term],
    pub scale: u64,
}
