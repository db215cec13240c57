//! Worked code: its lists, and what a plain run of it over small tensors leaves.
ghost use Rattle.std.specs.Prelude.{IsTrue};
ghost use Rattle.tce_tree.specs.Fusion.{FusionFits, OrdersFit, Carries};
ghost use Rattle.tce_tree.specs.Orders.{lists_of};
ghost use Rattle.tce_code.specs.Examples.{WorkedCode, WorkedRuns};

use crate::code_plain_run::Run;
use crate::given::{
    affine, boxed, constant, declare_all, fusion, leaf, new_space, orders, product, sum,
    three_sums, tree_over, two_sums,
};
use std::alloc::Global;
use std::process::Abort;
use tce_code::{Code, Op, generate};
use tce_fusion::first_not_carried;
use tce_tree::{Expr, Fusion, Orders, Tree};

// What the definitions give for the worked trees.
fn worked_code()
    ensures code { WorkedCode }
    ensures runs { WorkedRuns }
{}

// `A[i] * B[j]`, and with `+` and `-`
fn outer(rt: &impl Abort, alloc: Global, op: u8) -> Box<Expr> {
    let left = leaf(rt, alloc, 0, &[0]);
    let right = leaf(rt, alloc, 1, &[1]);
    match op {
        b'+' => boxed(rt, alloc, Expr::Add(left, right)),
        b'-' => boxed(rt, alloc, Expr::Sub(left, right)),
        _ => product(rt, alloc, left, right),
    }
}

// `sum{i}(A[i,i])`
fn trace(rt: &impl Abort, alloc: Global) -> Box<Expr> {
    sum(rt, alloc, &[0], leaf(rt, alloc, 0, &[0, 0]))
}

// `2 + 3`
fn five(rt: &impl Abort, alloc: Global) -> Box<Expr> {
    let (left, right) = (constant(rt, alloc, 2), constant(rt, alloc, 3));
    boxed(rt, alloc, Expr::Add(left, right))
}

// The tree over the indexes a to f and i to l.
fn tree_of(rt: &impl Abort, alloc: Global, expr: &Expr) -> Tree {
    let mut space = new_space(rt, alloc);
    declare_all(rt, &mut space, "a b c d e f i j k l", 3);
    let tree = tree_over(rt, alloc, &space, expr);
    drop(space);
    tree
}

// Whether the orders carry the fusion.
fn are_carried(tree: &Tree, fusion: &Fusion, orders: &Orders) -> bool
    requires fusion_fits { FusionFits tree.now fusion.now.0.items }
    requires orders_fit { OrdersFit tree.now (lists_of orders.now.0.items) }
    ensures { IsTrue result → Carries tree.now fusion.now.0.items (lists_of orders.now.0.items) }
{
    match first_not_carried(tree, fusion, orders) {
        None => true,
        Some(_) => false,
    }
}

fn generated(
    rt: &impl Abort,
    alloc: Global,
    tree: &Tree,
    fusion: &Fusion,
    orders: &Orders,
) -> Code {
    assert!(rt; fusion.fits(tree));
    assert!(rt; orders.fits(tree));
    assert!(rt; are_carried(tree, fusion, orders));
    match generate(alloc, tree, fusion, orders) {
        Ok(code) => code,
        Err(_) => panic!(rt; "no memory"),
    }
}

// The fused sets and the loop orders of a code, and the extents and the tensors that it runs over.
#[derive(Clone, Copy)]
struct Stated<'a> {
    fused: &'a [&'a [u8]],
    orders: &'a [&'a [u8]],
    extents: [u64; 10],
    tensors: &'a [&'a [u64]],
}

// The code leaves these words in the root's places, in row-major order.
fn expect_words(rt: &impl Abort, alloc: Global, expr: &Expr, stated: &Stated, words: &[u64]) {
    let tree = tree_of(rt, alloc, expr);
    let fusion = fusion(rt, stated.fused);
    let code = generated(rt, alloc, &tree, &fusion, &orders(rt, stated.orders));
    let mut run = Run::new(rt, alloc, &tree, &fusion, stated.extents, stated.tensors);
    run.run(rt, alloc, &tree, &fusion, code.ops());
    assert!(rt; run.root_words(rt, &tree) == words);
    drop(run);
    drop(tree);
}

// The operation of a word: of a node, `c` clears, `+`, `-`, `*` and `a` put a value in, and of an index `o` opens its loop.
fn op_of(word: &[u8]) -> Op {
    match word {
        [b'c', v] => Op::Clear(v.wrapping_sub(b'0')),
        [b'o', i] => Op::Open(i.wrapping_sub(b'0')),
        [b'a', v] => Op::Acc(v.wrapping_sub(b'0')),
        [b'*', v] => Op::Mul(v.wrapping_sub(b'0')),
        [b'+', v] => Op::Add(v.wrapping_sub(b'0')),
        [b'-', v] => Op::Sub(v.wrapping_sub(b'0')),
        _ => Op::Close,
    }
}

fn ops_of(rt: &impl Abort, alloc: Global, words: &str) -> Vec<Op> {
    let mut ops = Vec::new(alloc);
    for word in words.split(' ') {
        assert!(rt; ops.push(op_of(word.as_bytes())).is_ok());
    }
    ops
}

// The code of the tree has these operations.
fn expect_code(
    rt: &impl Abort,
    alloc: Global,
    expr: &Expr,
    sets: &[&[u8]],
    lists: &[&[u8]],
    words: &str,
) {
    let tree = tree_of(rt, alloc, expr);
    let code = generated(rt, alloc, &tree, &fusion(rt, sets), &orders(rt, lists));
    assert!(rt;
        code.ops() == ops_of(rt, alloc, words).as_slice(),
        "{words}"
    );
    drop(tree);
}

#[test]
fn code_of_two_sums(rt: HostRuntime) {
    worked_code();
    let orders: &[&[u8]] = &[&[0, 2], &[1, 3], &[1, 0]];
    let words = "c0 o0 o2 a0 . . o1 c1 o3 a1 . o0 *2 . .";
    let expr = two_sums(&rt, rt.alloc());
    expect_code(&rt, rt.alloc(), &expr, &[&[], &[1], &[]], orders, words);
}

#[test]
fn code_of_a_chain(rt: HostRuntime) {
    let fused: &[&[u8]] = &[&[0], &[0], &[]];
    let words = "o0 *0 -1 +2 .";
    let expr = affine(&rt, rt.alloc());
    expect_code(&rt, rt.alloc(), &expr, fused, &[&[0], &[0], &[0]], words);
}

// The outer product, sum or difference of 1 and 2 with 3 and 4, in this order of its loops.
fn expect_outer(rt: &impl Abort, alloc: Global, op: u8, order: &[u8], words: &[u64]) {
    let stated = Stated {
        fused: &[&[]],
        orders: &[order],
        extents: [2; 10],
        tensors: &[&[1, 2], &[3, 4]],
    };
    expect_words(rt, alloc, &*outer(rt, alloc, op), &stated, words);
}

#[test]
fn runs_of_single_nodes(rt: HostRuntime) {
    let alloc = rt.alloc();
    expect_outer(&rt, alloc, b'*', &[0, 1], &[3, 4, 6, 8]);
    expect_outer(&rt, alloc, b'*', &[1, 0], &[3, 4, 6, 8]);
    expect_outer(&rt, alloc, b'+', &[0, 1], &[4, 5, 5, 6]);
    expect_outer(&rt, alloc, b'+', &[1, 0], &[4, 5, 5, 6]);
    let less = [u64::MAX - 1, u64::MAX - 2, u64::MAX, u64::MAX - 1];
    expect_outer(&rt, alloc, b'-', &[0, 1], less.as_slice());
}

#[test]
fn a_run_of_a_trace(rt: HostRuntime) {
    let stated = Stated {
        fused: &[&[]],
        orders: &[&[0]],
        extents: [2; 10],
        tensors: &[&[1, 2, 3, 4]],
    };
    expect_words(&rt, rt.alloc(), &*trace(&rt, rt.alloc()), &stated, &[5]);
}

#[test]
fn a_run_of_constants(rt: HostRuntime) {
    let stated = Stated {
        fused: &[&[]],
        orders: &[&[]],
        extents: [2; 10],
        tensors: &[],
    };
    expect_words(&rt, rt.alloc(), &*five(&rt, rt.alloc()), &stated, &[5]);
}

// The two sums with these fused sets, and this order of the root's loops.
fn expect_two_sums(rt: &impl Abort, alloc: Global, first: &[u8], second: &[u8], last: &[u8]) {
    let stated = Stated {
        fused: &[first, second, &[]],
        orders: &[&[0, 2], &[1, 3], last],
        extents: [2, 3, 2, 2, 1, 1, 1, 1, 1, 1],
        tensors: &[&[1, 2, 3, 4], &[1, 2, 3, 4, 5, 6]],
    };
    let words = [9, 21, 33, 21, 49, 77];
    expect_words(rt, alloc, &*two_sums(rt, alloc), &stated, words.as_slice());
}

#[test]
fn runs_of_two_sums(rt: HostRuntime) {
    expect_two_sums(&rt, rt.alloc(), &[], &[], &[0, 1]);
    expect_two_sums(&rt, rt.alloc(), &[0], &[], &[0, 1]);
    expect_two_sums(&rt, rt.alloc(), &[], &[1], &[1, 0]);
}

// The chain with these fused sets.
fn expect_chain(rt: &impl Abort, alloc: Global, first: &[u8], second: &[u8]) {
    let stated = Stated {
        fused: &[first, second, &[]],
        orders: &[&[0], &[0], &[0]],
        extents: [2; 10],
        tensors: &[&[1, 2], &[5, 5]],
    };
    let words = [18446744073709551614, 0];
    expect_words(rt, alloc, &*affine(rt, alloc), &stated, words.as_slice());
}

#[test]
fn runs_of_a_chain(rt: HostRuntime) {
    expect_chain(&rt, rt.alloc(), &[], &[]);
    expect_chain(&rt, rt.alloc(), &[0], &[]);
    expect_chain(&rt, rt.alloc(), &[], &[0]);
    expect_chain(&rt, rt.alloc(), &[0], &[0]);
}

const CHAIN_ORDERS: &[&[u8]] = &[
    &[1, 2, 3, 5, 4, 9],
    &[1, 2, 3, 5, 4, 9],
    &[1, 2, 3, 5, 7, 8],
    &[1, 2, 3, 5, 7, 8],
    &[1, 2, 0, 6, 7, 8],
    &[1, 2, 0, 6, 7, 8],
];

const LEAST: &[&[u8]] = &[
    &[1, 2, 3, 4, 5, 9],
    &[1, 2, 3, 5],
    &[1, 2, 3, 5, 7, 8],
    &[1, 2],
    &[0, 1, 2, 6, 7, 8],
    &[],
];

const ONES: &[&[u64]] = &[&[1; 54], &[1; 54], &[1; 54], &[1; 54]];

// 81 times 4 products of ones in each of 36 places.
fn expect_three_sums(rt: &impl Abort, alloc: Global, sets: &[&[u8]]) {
    let stated = Stated {
        fused: sets,
        orders: CHAIN_ORDERS,
        extents: [3, 3, 3, 3, 3, 3, 2, 2, 2, 2],
        tensors: ONES,
    };
    expect_words(
        rt,
        alloc,
        &*three_sums(rt, alloc),
        &stated,
        [324; 36].as_slice(),
    );
}

#[test]
fn runs_of_three_sums(rt: HostRuntime) {
    expect_three_sums(&rt, rt.alloc(), &[&[], &[], &[], &[], &[], &[]]);
    expect_three_sums(&rt, rt.alloc(), LEAST);
}
