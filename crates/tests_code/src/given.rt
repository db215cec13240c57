//! What tests are given: sets, spaces, trees and orders, and specifications by their texts.
ghost use Rattle.tce_tree.specs.Measure.{IsMeasured};

use arrayvec::ArrayVec;
use std::alloc::Global;
use std::process::Abort;
use tce_space::{IndexSet, LoopOrder, Name, Space, is_name};
use tce_spec::{Spec, read_spec};
use tce_tree::{Expr, Fusion, Leaf, Orders, Tree};

// The set of the indexes below 24 in a list.
pub(crate) fn set(indexes: &[u8]) -> IndexSet {
    let mut all = IndexSet::empty();
    for index in indexes {
        if *index < 24 {
            all = all.with(*index);
        }
    }
    all
}

pub(crate) fn fusion(rt: &impl Abort, sets: &[&[u8]]) -> Fusion {
    let mut fused = ArrayVec::new();
    for indexes in sets {
        assert!(rt; fused.try_push(set(indexes)).is_ok());
    }
    Fusion(fused)
}

fn order(rt: &impl Abort, indexes: &[u8]) -> LoopOrder {
    let mut list = ArrayVec::new();
    assert!(rt; list.try_extend_from_slice(indexes).is_ok());
    LoopOrder(list)
}

pub(crate) fn orders(rt: &impl Abort, lists: &[&[u8]]) -> Orders {
    let mut all = ArrayVec::new();
    for indexes in lists {
        assert!(rt; all.try_push(order(rt, indexes)).is_ok());
    }
    Orders(all)
}

pub(crate) fn new_space(rt: &impl Abort, alloc: Global) -> Space {
    match Space::new(alloc) {
        Ok(space) => space,
        Err(_) => panic!(rt; "no memory"),
    }
}

// An index of a range of its own.
fn declare(rt: &impl Abort, space: &mut Space, name: &str, extent: u64) {
    let Ok(text) = Name::from(name) else {
        panic!(rt; "too long: {name}");
    };
    assert!(rt; is_name(text.as_str().as_bytes()));
    assert!(rt; 0 < extent);
    assert!(rt; extent < 1 << 32);
    match space.add_range(&text, extent, 1) {
        Ok(range) => assert!(rt; space.add_index(&text, range).is_ok()),
        Err(_) => panic!(rt; "refused: {name}"),
    }
}

// The indexes of these names, apart by blanks, each of a range of its own.
pub(crate) fn declare_all(rt: &impl Abort, space: &mut Space, names: &str, extent: u64) {
    for name in names.split(' ') {
        declare(rt, space, name, extent);
    }
}

// i of extent 5, j of extent 7, k and l of extent 2.
pub(crate) fn short_space(rt: &impl Abort, alloc: Global) -> Space {
    let mut space = new_space(rt, alloc);
    declare_all(rt, &mut space, "i", 5);
    declare_all(rt, &mut space, "j", 7);
    declare_all(rt, &mut space, "k l", 2);
    space
}

pub(crate) fn boxed(rt: &impl Abort, alloc: Global, expr: Expr) -> Box<Expr> {
    match Box::new(alloc, expr) {
        Ok(boxed) => boxed,
        Err(_) => panic!(rt; "no memory"),
    }
}

pub(crate) fn leaf(rt: &impl Abort, alloc: Global, tensor: u8, list: &[u8]) -> Box<Expr> {
    let mut indexes = ArrayVec::new();
    assert!(rt; indexes.try_extend_from_slice(list).is_ok());
    boxed(rt, alloc, Expr::Leaf(Leaf { tensor, indexes }))
}

pub(crate) fn constant(rt: &impl Abort, alloc: Global, number: u64) -> Box<Expr> {
    boxed(rt, alloc, Expr::Constant(number))
}

pub(crate) fn sum(rt: &impl Abort, alloc: Global, list: &[u8], operand: Box<Expr>) -> Box<Expr> {
    let mut indexes = ArrayVec::new();
    assert!(rt; indexes.try_extend_from_slice(list).is_ok());
    boxed(rt, alloc, Expr::Sum(indexes, operand))
}

pub(crate) fn product(
    rt: &impl Abort,
    alloc: Global,
    left: Box<Expr>,
    right: Box<Expr>,
) -> Box<Expr> {
    boxed(rt, alloc, Expr::Product(left, right))
}

// `(sum{k}(A[i,k])) * (sum{l}(B[j,l]))`, with i, j, k and l as 0 to 3.
pub(crate) fn two_sums(rt: &impl Abort, alloc: Global) -> Box<Expr> {
    let left = sum(rt, alloc, &[2], leaf(rt, alloc, 0, &[0, 2]));
    let right = sum(rt, alloc, &[3], leaf(rt, alloc, 1, &[1, 3]));
    product(rt, alloc, left, right)
}

// A sum of three products in three steps.
pub(crate) fn three_sums(rt: &impl Abort, alloc: Global) -> Box<Expr> {
    let right = leaf(rt, alloc, 3, &[2, 3, 4, 9]);
    let first = product(rt, alloc, leaf(rt, alloc, 1, &[1, 4, 5, 9]), right);
    let right = leaf(rt, alloc, 2, &[3, 5, 7, 8]);
    let second = product(rt, alloc, sum(rt, alloc, &[4, 9], first), right);
    let right = leaf(rt, alloc, 0, &[0, 2, 6, 8]);
    let third = product(rt, alloc, sum(rt, alloc, &[3, 5], second), right);
    sum(rt, alloc, &[2, 8], third)
}

// `2 * A[i] - B[i] + 1`
pub(crate) fn affine(rt: &impl Abort, alloc: Global) -> Box<Expr> {
    let doubled = product(rt, alloc, constant(rt, alloc, 2), leaf(rt, alloc, 0, &[0]));
    let less = boxed(rt, alloc, Expr::Sub(doubled, leaf(rt, alloc, 1, &[0])));
    boxed(rt, alloc, Expr::Add(less, constant(rt, alloc, 1)))
}

pub(crate) fn tree_over(rt: &impl Abort, alloc: Global, space: &Space, expr: &Expr) -> Tree
    ensures { IsMeasured space.now result }
{
    assert!(rt; expr.operations() <= 32);
    assert!(rt; expr.is_declared(space));
    assert!(rt; expr.sums_are_distinct());
    match Tree::build(alloc, space, expr) {
        Ok(tree) => tree,
        Err(_) => panic!(rt; "no tree"),
    }
}

pub(crate) fn spec_of(rt: &impl Abort, alloc: Global, text: &[u8]) -> Spec {
    match read_spec(alloc, text) {
        Ok(spec) => spec,
        Err(_) => panic!(rt; "the text is refused"),
    }
}
