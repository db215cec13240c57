//! Worked fusions of two trees: `(sum{k}(A[i,k])) * (sum{l}(B[j,l]))`, and a sum of three products in three steps.
ghost use Rattle.std.specs.Prelude.{IfSome};
ghost use Rattle.tce_tree.specs.Fusion.{FusionFits, OrdersFit};
ghost use Rattle.tce_tree.specs.Measure.{IsMeasured};
ghost use Rattle.tce_tree.specs.Orders.{lists_of};
ghost use Rattle.tce_fusion.specs.Examples.{WorkedFusions};

use crate::given::{
    declare_all, fusion, new_space, orders, short_space, three_sums, tree_over, two_sums,
};
use std::alloc::Global;
use std::process::Abort;
use tce_fusion::{first_illegal, first_not_carried, is_legal, memory, size_of, standard_orders};
use tce_space::Space;
use tce_tree::{Fusion, Orders, Tree};

// What the definitions give for the worked fusions.
fn worked_fusions()
    ensures { WorkedFusions }
{}

// a to f of extent 3000, i to l of extent 100.
fn long_space(rt: &impl Abort, alloc: Global) -> Space {
    let mut space = new_space(rt, alloc);
    declare_all(rt, &mut space, "a b c d e f", 3000);
    declare_all(rt, &mut space, "i j k l", 100);
    space
}

fn orders_are(found: &Orders, wanted: &[&[u8]]) -> bool {
    if found.0.len() != wanted.len() {
        return false;
    }
    for (order, indexes) in found.0.iter().zip(wanted) {
        if order.0.as_slice() != *indexes {
            return false;
        }
    }
    true
}

// The first node at which the fusion is not legal, and the elements that it keeps.
fn expect_fusion(
    rt: &impl Abort,
    space: &Space,
    tree: &Tree,
    sets: &[&[u8]],
    illegal: Option<u8>,
    elements: u128,
)
    requires { IsMeasured space.now tree.now }
{
    let fused = fusion(rt, sets);
    assert!(rt; fused.fits(tree));
    assert!(rt; first_illegal(tree, &fused) == illegal);
    assert!(rt; is_legal(tree, &fused) == illegal.is_none());
    assert!(rt; memory(space, tree, &fused) == elements);
}

#[test]
fn fusions_of_two_sums(rt: HostRuntime) {
    worked_fusions();
    let space = short_space(&rt, rt.alloc());
    let tree = tree_over(&rt, rt.alloc(), &space, &*two_sums(&rt, rt.alloc()));
    expect_fusion(&rt, &space, &tree, &[&[0], &[1], &[]], Some(2), 2);
    expect_fusion(&rt, &space, &tree, &[&[], &[1], &[]], None, 6);
    expect_fusion(&rt, &space, &tree, &[&[0], &[], &[]], None, 8);
    drop(tree);
    drop(space);
}

// The standard orders, where the fusion is legal.
fn legal_orders(tree: &Tree, fusion: &Fusion) -> Option<Orders>
    requires { FusionFits tree.now fusion.now.0.items }
    ensures { IfSome result (λ orders. OrdersFit tree.now (lists_of orders.0.items)) }
{
    if is_legal(tree, fusion) {
        return Some(standard_orders(tree, fusion));
    }
    None
}

// The standard orders of the fusion are these.
fn expect_standard(rt: &impl Abort, tree: &Tree, sets: &[&[u8]], wanted: &[&[u8]]) {
    let fused = fusion(rt, sets);
    assert!(rt; fused.fits(tree));
    let standard = legal_orders(tree, &fused).expect(rt, "legal");
    assert!(rt; orders_are(&standard, wanted));
    assert!(rt; first_not_carried(tree, &fused, &standard) == None);
}

// The first node at which these orders do not carry the fusion.
fn expect_not_carried(
    rt: &impl Abort,
    tree: &Tree,
    sets: &[&[u8]],
    lists: &[&[u8]],
    node: Option<u8>,
) {
    let (fused, turned) = (fusion(rt, sets), orders(rt, lists));
    assert!(rt; fused.fits(tree));
    assert!(rt; turned.fits(tree));
    assert!(rt; first_not_carried(tree, &fused, &turned) == node);
}

#[test]
fn orders_of_two_sums(rt: HostRuntime) {
    let space = short_space(&rt, rt.alloc());
    let tree = tree_over(&rt, rt.alloc(), &space, &*two_sums(&rt, rt.alloc()));
    let sets: &[&[u8]] = &[&[], &[1], &[]];
    expect_standard(&rt, &tree, sets, &[&[0, 2], &[1, 3], &[1, 0]]);
    expect_not_carried(&rt, &tree, sets, &[&[0, 2], &[1, 3], &[0, 1]], Some(1));
    drop(tree);
    drop(space);
}

// The elements that the node keeps.
fn expect_size(rt: &impl Abort, space: &Space, tree: &Tree, sets: &[&[u8]], v: u8, size: u128)
    requires { IsMeasured space.now tree.now }
{
    let fused = fusion(rt, sets);
    assert!(rt; fused.fits(tree));
    assert!(rt; v as u64 + 1 < tree.count() as u64);
    assert!(rt; size_of(space, tree, &fused, v) == size);
}

const LEAST: &[&[u8]] = &[
    &[1, 2, 3, 4, 5, 9],
    &[1, 2, 3, 5],
    &[1, 2, 3, 5, 7, 8],
    &[1, 2],
    &[0, 1, 2, 6, 7, 8],
    &[],
];

const LEAST_ORDERS: &[&[u8]] = &[
    &[1, 2, 3, 5, 4, 9],
    &[1, 2, 3, 5, 4, 9],
    &[1, 2, 3, 5, 7, 8],
    &[1, 2, 3, 5, 7, 8],
    &[1, 2, 0, 6, 7, 8],
    &[1, 2, 0, 6, 7, 8],
];

#[test]
fn fusion_of_three_sums(rt: HostRuntime) {
    let space = long_space(&rt, rt.alloc());
    let tree = tree_over(&rt, rt.alloc(), &space, &*three_sums(&rt, rt.alloc()));
    expect_fusion(&rt, &space, &tree, LEAST, None, 10004);
    expect_size(&rt, &space, &tree, LEAST, 3, 10000);
    expect_standard(&rt, &tree, LEAST, LEAST_ORDERS);
    drop(tree);
    drop(space);
}
