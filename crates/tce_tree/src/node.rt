// The nodes of a tree as the program keeps them.
ghost use Rattle.std.specs.Prelude.{◌≡◌};
ghost use Rattle.tce_tree.specs.FlatTree.{arithmetic_kind};

use crate::expr::Leaf;
use arrayvec::ArrayVec;
use tce_space::{Arithmetic, IndexSet, MAX_INDEXES};

/// What a node computes.
#[derive(Clone, Copy)]
pub enum Kind {
    Product,
    Sum,
    Add,
    Sub,
}

/// What a node computes with: a tensor, a constant, or a node by its number.
#[derive(Drop)]
pub enum Operand {
    Leaf(Leaf),
    Constant(u64),
    Node(u8),
}

// What a node with two operands computes.
pub(crate) fn kind_of(arithmetic: Arithmetic) -> Kind
    ensures { result ≡ arithmetic_kind arithmetic }
{
    match arithmetic {
        Arithmetic::Multiply => Kind::Product,
        Arithmetic::Add => Kind::Add,
        Arithmetic::Subtract => Kind::Sub,
    }
}

#[derive(Drop)]
pub(crate) enum Operation {
    Binary(Arithmetic, Operand, Operand),
    Sum(ArrayVec<u8, MAX_INDEXES>, Operand),
}

// An operation with the sets of its indexes, and how many nodes its subtree has.
#[derive(Drop)]
pub(crate) struct Node {
    pub(crate) operation: Operation,
    pub(crate) dims: IndexSet,
    pub(crate) loops: IndexSet,
    pub(crate) size: u8,
}

impl Default for Node {
    fn default() -> Self {
        Node {
            operation: Operation::Sum(ArrayVec::new(), Operand::Constant(0)),
            dims: IndexSet::empty(),
            loops: IndexSet::empty(),
            size: 0,
        }
    }
}
