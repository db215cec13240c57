//! The specifications of pieces of a tree.

ghost use Rattle.std.specs.Prelude.{◌≡◌, ◌<◌, ◌≤◌, ◌+◌, ◌-◌, ◌&&◌, IfOk, IsTrue, length};
ghost use Rattle.tce_space.specs.Limits.{max_nodes, max_rank, max_tensors};
ghost use Rattle.tce_space.specs.IndexSet.{has, count};
ghost use Rattle.tce_tree.specs.Expr.{tree_of};
ghost use Rattle.tce_tree.specs.ContractionTree.{leaf, sum, operations, node, node_dims};
ghost use Rattle.tce_spec.specs.Declarations.{HaveNames};
ghost use Rattle.tce_spec.specs.Pieces as model;
ghost use Rattle.tce_spec.specs.PieceSpecification.{CanCut, piece_of, renumbered, place_in, target_indexes};
ghost use Rattle.tce_spec.specs.PieceCode.{StandsAt, HaveRank, target_number, cuts_below, IsRestOf, IsRenumbered, IsJoined, with_operands, specification_to};
ghost use Rattle.tce_spec.specs.Specification.{ConstantsAreWords};
ghost use Rattle.tce_spec.specs.Contraction.{IsContraction};
ghost use Rattle.tce_tree.specs.WellFormed.{sums_distinct};

use crate::declarations::Declarations;
use crate::formula::Contraction;
use crate::sources::{FIRST_ARRAY, declared, dims_of, sources_of};
use crate::spec::Spec;
use arrayvec::ArrayVec;
use std::alloc::{AllocError, Global};
use std::boxed::Box;
use tce_space::{MAX_INDEXES, MAX_RANK};
use tce_tree::{Expr, Leaf, Tree};

/// The cut nodes, as the bits of a number, and the root of a piece, which is not cut off itself.
#[derive(Clone, Copy)]
struct CutNodes {
    cuts: u32,
    root: u8,
}

impl CutNodes {
    // Whether the piece has the array of this node in place of the node.
    fn has(self, v: u8) -> bool
        requires { v < max_nodes }
        ensures { result ≡ cuts_below self.cuts self.root v }
    {
        has_bit(self.cuts, v) && v != self.root
    }

    // Whether there are nodes, numbered from `first` on, and the last of them is cut.
    fn has_last(self, first: u8, nodes: u8) -> bool
        requires { first + nodes ≤ max_nodes }
        ensures some { IsTrue result → 0 < nodes }
        ensures last { 0 < nodes → result ≡ cuts_below self.cuts self.root (first + nodes - 1) }
    {
        nodes > 0 && self.has(first + nodes - 1)
    }
}

fn has_bit(bits: u32, v: u8) -> bool
    requires { v < max_nodes }
    ensures { result ≡ has bits v }
{
    bits >> v & 1 == 1
}

// The array of a node in place of the node.
fn reference_to(tree: &Tree, v: u8) -> Expr
    requires inside { v < operations tree.now }
    requires rank { count (node_dims tree.now v) ≤ max_rank }
    ensures { tree_of result ≡ model.reference_to v (node tree.now v) }
{
    let _count = tree.count();
    Expr::Leaf(Leaf {
        tensor: FIRST_ARRAY + v,
        indexes: dims_of(tree, v),
    })
}

// The part of an expression that is a node.
fn node_of(expr: &Expr, v: u64) -> &Expr
    requires inside { v < operations (tree_of expr.now) }
    requires few { operations (tree_of expr.now) ≤ max_nodes }
    ensures { tree_of result.now ≡ node (tree_of expr.now) v }
{
    if v + 1 == expr.operations() {
        return expr;
    }
    match expr {
        Expr::Product(left, right) | Expr::Add(left, right) | Expr::Sub(left, right) => {
            let before = left.operations();
            if v < before {
                node_of(left, v)
            } else {
                node_of(right, v - before)
            }
        }
        Expr::Sum(_, operand) => node_of(operand, v),
        Expr::Leaf(_) | Expr::Constant(_) => expr,
    }
}

// The node with these operands in place of its own two; of a node with fewer, their difference.
fn with_operands(node: &Expr, left: Box<Expr>, right: Box<Expr>) -> Expr
    ensures { tree_of result ≡ with_operands (tree_of node.now) (tree_of left.value) (tree_of right.value) }
{
    match node {
        Expr::Product(..) => Expr::Product(left, right),
        Expr::Add(..) => Expr::Add(left, right),
        Expr::Sub(..) | Expr::Sum(..) | Expr::Leaf(_) | Expr::Constant(_) => Expr::Sub(left, right),
    }
}

// The same of operands without boxes.
fn joined(alloc: Global, node: &Expr, left: Expr, right: Expr) -> Result<Expr, AllocError>
    ensures { IfOk result (IsJoined node.now left right) }
{
    let left = Box::new(alloc, left)?;
    let right = Box::new(alloc, right)?;
    Ok(with_operands(node, left, right))
}

// A tensor at these indexes.
fn leaf_at(tensor: u8, indexes: &ArrayVec<u8, MAX_RANK>) -> Result<Expr, AllocError>
    ensures { IfOk result (λ own. tree_of own ≡ leaf tensor indexes.now.items) }
{
    Ok(Expr::Leaf(Leaf {
        tensor,
        indexes: indexes.clone()?,
    }))
}

// The sum of an operand over these indexes.
fn summed(
    alloc: Global,
    indexes: &ArrayVec<u8, MAX_INDEXES>,
    operand: Expr,
) -> Result<Expr, AllocError>
    ensures { IfOk result (λ own. tree_of own ≡ sum indexes.now.items (tree_of operand)) }
{
    let operand = Box::new(alloc, operand)?;
    Ok(Expr::Sum(indexes.clone()?, operand))
}

// What is left of a part of the tree whose nodes are numbered from `first` on.
fn rest_of(
    alloc: Global,
    tree: &Tree,
    cut: CutNodes,
    first: u8,
    part: &Expr,
) -> Result<Expr, AllocError>
    requires inside { first + operations (tree_of part.now) ≤ operations tree.now }
    requires stands { StandsAt tree.now first (tree_of part.now) }
    requires rank { HaveRank tree.now (has cut.cuts) }
    ensures { IfOk result (IsRestOf cut.cuts cut.root first part.now) }
{
    let _count = tree.count();
    let nodes = part.operations() as u8;
    if cut.has_last(first, nodes) {
        return Ok(reference_to(tree, first + nodes - 1));
    }
    match part {
        Expr::Leaf(leaf) => leaf_at(leaf.tensor, &leaf.indexes),
        Expr::Constant(number) => Ok(Expr::Constant(*number)),
        Expr::Product(left, right) | Expr::Add(left, right) | Expr::Sub(left, right) => {
            let behind = first + left.operations() as u8;
            let left = rest_of(alloc, tree, cut, first, left)?;
            match rest_of(alloc, tree, cut, behind, right) {
                Ok(right) => joined(alloc, part, left, right),
                Err(error) => {
                    drop(left);
                    Err(error)
                }
            }
        }
        Expr::Sum(indexes, operand) => {
            let rest = rest_of(alloc, tree, cut, first, operand)?;
            summed(alloc, indexes, rest)
        }
    }
}

// The place of a number in a list.
fn place_of(numbers: &[u8], t: u8) -> u8
    requires { length numbers.now ≤ max_tensors + max_nodes }
    ensures value { result ≡ place_in numbers.now t }
    ensures limit { result ≤ length numbers.now }
{
    match numbers {
        [] => 0,
        [first, rest @ ..] => {
            if *first == t {
                0
            } else {
                place_of(rest, t) + 1
            }
        }
    }
}

// An expression with the places of its tensors in a list for their numbers.
fn renumbered(alloc: Global, expr: &Expr, numbers: &[u8]) -> Result<Expr, AllocError>
    requires { length numbers.now ≤ max_tensors + max_nodes }
    ensures { IfOk result (IsRenumbered numbers.now expr.now) }
{
    match expr {
        Expr::Leaf(leaf) => leaf_at(place_of(numbers, leaf.tensor), &leaf.indexes),
        Expr::Constant(number) => Ok(Expr::Constant(*number)),
        Expr::Product(left, right) | Expr::Add(left, right) | Expr::Sub(left, right) => {
            let left = renumbered(alloc, left, numbers)?;
            match renumbered(alloc, right, numbers) {
                Ok(right) => joined(alloc, expr, left, right),
                Err(error) => {
                    drop(left);
                    Err(error)
                }
            }
        }
        Expr::Sum(indexes, operand) => {
            let own = renumbered(alloc, operand, numbers)?;
            summed(alloc, indexes, own)
        }
    }
}

// What is left of the node, with the numbers of the whole.
fn rest_of_piece(alloc: Global, spec: &Spec, root: u8, cuts: u32) -> Result<Expr, AllocError>
    requires { CanCut spec.now (has cuts) root }
    ensures { IfOk result (λ rest. tree_of rest ≡ model.piece spec.now.tree (has cuts) root) }
{
    let tree = spec.tree();
    let node = node_of(spec.expr(), u64::from(root));
    let first = root + 1 - node.operations() as u8;
    rest_of(alloc, tree, CutNodes { cuts, root }, first, node)
}

// The number of what the piece computes.
fn target_of(spec: &Spec, root: u8) -> u8
    requires { root < operations spec.now.tree }
    ensures { result ≡ target_number spec.now root }
{
    let count = spec.tree().count();
    if root + 1 == count {
        spec.result().tensor
    } else {
        FIRST_ARRAY + root
    }
}

// The indexes of what the piece computes.
fn target_indexes(spec: &Spec, root: u8, cuts: u32) -> Result<ArrayVec<u8, MAX_RANK>, AllocError>
    requires { CanCut spec.now (has cuts) root }
    ensures { IfOk result (λ indexes. indexes.items ≡ target_indexes spec.now root) }
{
    let tree = spec.tree();
    if root + 1 == tree.count() {
        Ok(spec.result().indexes.clone()?)
    } else {
        Ok(dims_of(tree, root))
    }
}

// The specification of an expression over declarations of its own.
fn specified(
    alloc: Global,
    declarations: Declarations,
    target: Leaf,
    expr: Expr,
) -> Result<Spec, AllocError>
    requires few { operations (tree_of expr) ≤ max_nodes }
    requires distinct { IsTrue (sums_distinct (tree_of expr)) }
    requires words { ConstantsAreWords (tree_of expr) }
    requires contraction { IsContraction declarations target.tensor target.indexes.items (tree_of expr) }
    ensures { IfOk result (λ spec. spec ≡ specification_to declarations target expr) }
{
    let space = declarations.space();
    match Tree::build(alloc, space, &expr) {
        Ok(tree) => Ok(Spec::of_parts(
            declarations,
            Contraction {
                result: target,
                expr,
                tree,
            },
        )),
        Err(_) => {
            drop(expr);
            drop(declarations);
            Err(AllocError)
        }
    }
}

// The specification of a piece of which this is left, with the numbers of the whole.
fn piece_over(
    alloc: Global,
    spec: &Spec,
    root: u8,
    cuts: u32,
    rest: &Expr,
) -> Result<Spec, AllocError>
    requires names { HaveNames spec.now.declarations.tensors }
    requires few { length spec.now.declarations.tensors ≤ max_tensors - 1 }
    requires cuts { CanCut spec.now (has cuts) root }
    requires rest { tree_of rest.now ≡ model.piece spec.now.tree (has cuts) root }
    ensures { IfOk result (λ own. own ≡ piece_of spec.now (has cuts) root) }
{
    let _rules = spec.space();
    let mut numbers = sources_of(rest);
    let target = Leaf {
        tensor: numbers.len() as u8,
        indexes: target_indexes(spec, root, cuts)?,
    };
    let expr = renumbered(alloc, rest, numbers.as_slice())?;
    numbers.push(target_of(spec, root));
    match declared(alloc, spec, numbers.as_slice()) {
        Ok(declarations) => specified(alloc, declarations, target, expr),
        Err(error) => {
            drop(expr);
            Err(error)
        }
    }
}

/// The specification of the piece of a tree whose root is node `root`.
///
/// A bit of `cuts` that is set stands for a node whose values are stored in an array of their own, `spill-V` for node
/// `V`. The piece reads the arrays of the cut nodes below `root` in place of these nodes, and computes the array of
/// `root`, or the result of the whole at the root of the tree. It declares the same ranges and indexes, its operands by
/// their first place from the left, and behind them what it computes.
pub fn piece(alloc: Global, spec: &Spec, root: u8, cuts: u32) -> Result<Spec, AllocError>
    requires names { HaveNames spec.now.declarations.tensors }
    requires few { length spec.now.declarations.tensors ≤ max_tensors - 1 }
    requires cuts { CanCut spec.now (has cuts) root }
    ensures { IfOk result (λ own. own ≡ piece_of spec.now (has cuts) root) }
{
    let rest = rest_of_piece(alloc, spec, root, cuts)?;
    let made = piece_over(alloc, spec, root, cuts, &rest);
    drop(rest);
    made
}
