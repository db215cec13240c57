// Expressions as they are written.
ghost use Rattle.std.specs.Prelude.{◌≡◌, ◌↔◌, ◌+◌, ◌-◌, ◌^◌, nat_lt, IsTrue, min};
ghost use Rattle.std.specs.List.{list_all};
ghost use Rattle.tce_space.specs.Limits.{max_indexes};
ghost use Rattle.tce_tree.specs.ContractionTree.{dims, operations};
ghost use Rattle.tce_tree.specs.WellFormed.{IsDeclaredTree, among, indexes_below, is_distinct, sums_distinct};
ghost use Rattle.tce_tree.specs.Expr.{tree_of};

use arrayvec::ArrayVec;
use std::boxed::Box;
use tce_space::{IndexSet, MAX_INDEXES, MAX_RANK, Space};

/// A reference to a tensor: its number and the indexes at its positions, which may repeat.
#[derive(Drop)]
pub struct Leaf {
    pub tensor: u8,
    pub indexes: ArrayVec<u8, MAX_RANK>,
}

/// A formula of words: tensors and constants, joined by products, additions and subtractions, and summed over lists of indexes.
#[derive(Drop)]
pub enum Expr {
    Leaf(Leaf),
    Constant(u64),
    Product(Box<Expr>, Box<Expr>),
    Add(Box<Expr>, Box<Expr>),
    Sub(Box<Expr>, Box<Expr>),
    Sum(ArrayVec<u8, MAX_INDEXES>, Box<Expr>),
}

impl Expr {
    /// How many products, additions, subtractions and sums there are; from 2^64 - 1 on that number.
    pub fn operations(&self) -> u64
        ensures { result ≡ min (operations (tree_of self.now)) (2 ^ 64 - 1) }
    {
        match self {
            Expr::Leaf(_) => 0,
            Expr::Constant(_) => 0,
            Expr::Product(left, right) => one_more(left.operations(), right.operations()),
            Expr::Add(left, right) => one_more(left.operations(), right.operations()),
            Expr::Sub(left, right) => one_more(left.operations(), right.operations()),
            Expr::Sum(_, operand) => one_more(operand.operations(), 0),
        }
    }

    /// Whether all indexes of the leaves and sums are declared in the space.
    pub fn is_declared(&self, space: &Space) -> bool
        ensures { IsTrue result ↔ IsDeclaredTree space.now (tree_of self.now) }
    {
        self.names_below(space.index_count())
    }

    // Whether the leaves and sums name indexes below this number alone.
    fn names_below(&self, count: u8) -> bool
        ensures { result ≡ indexes_below count (tree_of self.now) }
    {
        match self {
            Expr::Leaf(leaf) => all_below(leaf.indexes.as_slice(), count),
            Expr::Constant(_) => true,
            Expr::Product(left, right) => left.names_below(count) && right.names_below(count),
            Expr::Add(left, right) => left.names_below(count) && right.names_below(count),
            Expr::Sub(left, right) => left.names_below(count) && right.names_below(count),
            Expr::Sum(indexes, operand) => {
                all_below(indexes.as_slice(), count) && operand.names_below(count)
            }
        }
    }

    /// Whether no sum lists an index twice.
    pub fn sums_are_distinct(&self) -> bool
        ensures { result ≡ sums_distinct (tree_of self.now) }
    {
        match self {
            Expr::Leaf(_) => true,
            Expr::Constant(_) => true,
            Expr::Product(left, right) => left.sums_are_distinct() && right.sums_are_distinct(),
            Expr::Add(left, right) => left.sums_are_distinct() && right.sums_are_distinct(),
            Expr::Sub(left, right) => left.sums_are_distinct() && right.sums_are_distinct(),
            Expr::Sum(indexes, operand) => {
                has_no_repetition(indexes.as_slice()) && operand.sums_are_distinct()
            }
        }
    }

    // The indexes on which the value depends.
    pub(crate) fn dims(&self) -> IndexSet
        requires { IsTrue (indexes_below max_indexes (tree_of self.now)) }
        ensures { result ≡ dims (tree_of self.now) }
    {
        match self {
            Expr::Leaf(leaf) => IndexSet::of_list(leaf.indexes.as_slice()),
            Expr::Constant(_) => IndexSet::empty(),
            Expr::Product(left, right) => left.dims().union(right.dims()),
            Expr::Add(left, right) => left.dims().union(right.dims()),
            Expr::Sub(left, right) => left.dims().union(right.dims()),
            Expr::Sum(indexes, operand) => {
                operand.dims().minus(IndexSet::of_list(indexes.as_slice()))
            }
        }
    }
}

// One more than two numbers together, or the greatest number.
fn one_more(left: u64, right: u64) -> u64
    ensures { result ≡ min (left + right + 1) (2 ^ 64 - 1) }
{
    left.saturating_add(right).saturating_add(1)
}

fn all_below(indexes: &[u8], count: u8) -> bool
    ensures { result ≡ list_all (λ i. nat_lt i count) indexes.now }
{
    indexes.iter().all(|index| *index < count)
}

fn has_no_repetition(indexes: &[u8]) -> bool
    ensures { result ≡ is_distinct indexes.now }
{
    match indexes {
        [] => true,
        [first, rest @ ..] => !is_among(rest, *first) && has_no_repetition(rest),
    }
}

fn is_among(indexes: &[u8], index: u8) -> bool
    ensures { result ≡ among indexes.now index }
{
    match indexes {
        [] => false,
        [first, rest @ ..] => *first == index || is_among(rest, index),
    }
}
