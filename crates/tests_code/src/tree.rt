//! Worked trees, over eleven indexes a to k of one range.
ghost use Rattle.tce_tree.specs.Examples as worked;

use crate::given::{
    affine, constant, declare_all, fusion, leaf, new_space, orders, product, sum, three_sums,
    tree_over, two_sums,
};
use std::alloc::Global;
use std::process::Abort;
use tce_space::{Name, Space};
use tce_tree::{Expr, Kind, Operand, Tree, TreeFault};

// What the definitions give for the worked trees.
fn worked_trees()
    ensures nodes { worked.WorkedNodes }
    ensures values { worked.WorkedValues }
    ensures faults { worked.WorkedFaults }
{}

// The space of eleven indexes of this extent.
fn eleven(rt: &impl Abort, alloc: Global, extent: u64) -> Space {
    let mut space = new_space(rt, alloc);
    declare_all(rt, &mut space, "a b c d e f g h i j k", extent);
    space
}

fn tree_of_expr(rt: &impl Abort, alloc: Global, expr: &Expr) -> Tree {
    let space = eleven(rt, alloc, 2);
    let tree = tree_over(rt, alloc, &space, expr);
    drop(space);
    tree
}

fn eleven_loops(rt: &impl Abort, alloc: Global) -> Box<Expr> {
    let left = leaf(rt, alloc, 0, &[0, 1, 2, 3, 4, 5, 6, 7]);
    product(rt, alloc, left, leaf(rt, alloc, 1, &[8, 9, 10]))
}

fn three_vectors(rt: &impl Abort, alloc: Global) -> Box<Expr> {
    let matrix = product(
        rt,
        alloc,
        leaf(rt, alloc, 0, &[0]),
        leaf(rt, alloc, 1, &[1]),
    );
    let cube = product(rt, alloc, matrix, leaf(rt, alloc, 2, &[2]));
    sum(rt, alloc, &[0, 1, 2], cube)
}

fn node_number(operand: &Operand) -> Option<u8> {
    match operand {
        Operand::Node(v) => Some(*v),
        _ => None,
    }
}

// How many nodes the tree has.
fn expect_count(rt: &impl Abort, tree: &Tree, count: u8) {
    assert!(rt; tree.count() == count);
}

// The node has this kind, these dims and loops, given by their bits, and this parent.
fn expect_node(
    rt: &impl Abort,
    tree: &Tree,
    v: u8,
    kind: Kind,
    bits: [u32; 2],
    parent: Option<u8>,
) {
    assert!(rt; v < tree.count());
    assert!(rt; tree.kind(v) == kind, "{v}");
    assert!(rt; tree.dims(v).bits() == bits[0], "{v}");
    assert!(rt; tree.loops(v).bits() == bits[1], "{v}");
    assert!(rt; tree.parent(v) == parent, "{v}");
}

#[test]
fn nodes_of_two_sums(rt: HostRuntime) {
    worked_trees();
    let expr = two_sums(&rt, rt.alloc());
    assert!(rt; expr.operations() == 3);
    let tree = tree_of_expr(&rt, rt.alloc(), &expr);
    expect_count(&rt, &tree, 3);
    expect_node(&rt, &tree, 0, Kind::Sum, [0b0001, 0b0101], Some(2));
    expect_node(&rt, &tree, 1, Kind::Sum, [0b0010, 0b1010], Some(2));
    expect_node(&rt, &tree, 2, Kind::Product, [0b0011, 0b0011], None);
    drop(tree);
}

#[test]
fn nodes_of_three_sums(rt: HostRuntime) {
    let tree = tree_of_expr(&rt, rt.alloc(), &*three_sums(&rt, rt.alloc()));
    expect_count(&rt, &tree, 6);
    expect_node(&rt, &tree, 0, Kind::Product, [0b10_0011_1110; 2], Some(1));
    let bits = [0b00_0010_1110, 0b10_0011_1110];
    expect_node(&rt, &tree, 1, Kind::Sum, bits, Some(2));
    expect_node(&rt, &tree, 2, Kind::Product, [0b01_1010_1110; 2], Some(3));
    let bits = [0b01_1000_0110, 0b01_1010_1110];
    expect_node(&rt, &tree, 3, Kind::Sum, bits, Some(4));
    expect_node(&rt, &tree, 4, Kind::Product, [0b01_1100_0111; 2], Some(5));
    let bits = [0b00_1100_0011, 0b01_1100_0111];
    expect_node(&rt, &tree, 5, Kind::Sum, bits, None);
    drop(tree);
}

// The operands of a difference are a node and a leaf, and that of a product behind it a constant.
fn expect_operands(rt: &impl Abort, tree: &Tree) {
    assert!(rt; tree.count() == 3);
    assert!(rt; node_number(tree.left(1)) == Some(0));
    assert!(rt; matches!(tree.left(0), Operand::Constant(2)));
    assert!(rt; matches!(tree.right(1), Some(Operand::Leaf(_))));
}

#[test]
fn operands_of_a_difference(rt: HostRuntime) {
    let tree = tree_of_expr(&rt, rt.alloc(), &*affine(&rt, rt.alloc()));
    expect_node(&rt, &tree, 0, Kind::Product, [0b1; 2], Some(1));
    expect_node(&rt, &tree, 1, Kind::Sub, [0b1; 2], Some(2));
    expect_node(&rt, &tree, 2, Kind::Add, [0b1; 2], None);
    expect_operands(&rt, &tree);
    drop(tree);
}

// Over indexes of this extent the expression has this fault, and a tree where there is none.
fn expect_fault(
    rt: &impl Abort,
    alloc: Global,
    extent: u64,
    expr: &Expr,
    wanted: Option<TreeFault>,
) {
    let space = eleven(rt, alloc, extent);
    assert!(rt; expr.operations() <= 32);
    assert!(rt; expr.is_declared(&space));
    assert!(rt; expr.sums_are_distinct());
    assert!(rt; Tree::build(alloc, &space, expr).err() == wanted);
    drop(space);
}

// The sum is over an index that its operand lacks.
fn expect_absent(rt: &impl Abort, alloc: Global, expr: &Expr, name: &str) {
    match Name::from(name) {
        Ok(name) => expect_fault(rt, alloc, 2, expr, Some(TreeFault::SumOverAbsent(name))),
        Err(_) => panic!(rt; "too long: {name}"),
    }
}

#[test]
fn absent_indexes(rt: HostRuntime) {
    let alloc = rt.alloc();
    let none = constant(&rt, alloc, 3);
    expect_fault(&rt, alloc, 2, &none, Some(TreeFault::NoOperation));
    expect_absent(&rt, alloc, &*sum(&rt, alloc, &[10], none), "k");
    let two_absent = sum(&rt, alloc, &[0, 9, 3], leaf(&rt, alloc, 0, &[0]));
    expect_absent(&rt, alloc, &two_absent, "j");
}

#[test]
fn nodes_that_are_too_large(rt: HostRuntime) {
    let alloc = rt.alloc();
    let many = Some(TreeFault::TooManyLoops(0));
    expect_fault(&rt, alloc, 1, &*eleven_loops(&rt, alloc), many);
    let large = three_vectors(&rt, alloc);
    let fault = Some(TreeFault::VolumeTooLarge(1));
    expect_fault(&rt, alloc, 4294967295, &large, fault);
    expect_fault(&rt, alloc, 1000000000, &large, None);
}

fn expect_fusion(rt: &impl Abort, tree: &Tree, sets: &[&[u8]], fits: bool) {
    assert!(rt; fusion(rt, sets).fits(tree) == fits);
}

fn expect_orders(rt: &impl Abort, tree: &Tree, lists: &[&[u8]], fit: bool) {
    assert!(rt; orders(rt, lists).fits(tree) == fit);
}

#[test]
fn fusions_that_fit(rt: HostRuntime) {
    let tree = tree_of_expr(&rt, rt.alloc(), &*two_sums(&rt, rt.alloc()));
    expect_fusion(&rt, &tree, &[&[0], &[1], &[]], true);
    expect_fusion(&rt, &tree, &[&[0, 2], &[], &[]], false);
    expect_fusion(&rt, &tree, &[&[], &[], &[0]], false);
    expect_fusion(&rt, &tree, &[&[], &[]], false);
    drop(tree);
}

#[test]
fn orders_that_fit(rt: HostRuntime) {
    let tree = tree_of_expr(&rt, rt.alloc(), &*two_sums(&rt, rt.alloc()));
    expect_orders(&rt, &tree, &[&[2, 0], &[1, 3], &[1, 0]], true);
    expect_orders(&rt, &tree, &[&[2, 2], &[1, 3], &[1, 0]], false);
    expect_orders(&rt, &tree, &[&[2], &[1, 3], &[1, 0]], false);
    expect_orders(&rt, &tree, &[&[2, 0], &[1, 3], &[1, 0, 2]], false);
    expect_orders(&rt, &tree, &[&[2, 0], &[1, 200], &[1, 0]], false);
    drop(tree);
}
