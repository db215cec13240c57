//! Worked slots of two trees: `(sum{k}(A[i,k])) * (sum{l}(B[j,l]))`, and a sum of three products in three steps.
ghost use Rattle.tce_tree.specs.Measure.{IsMeasured};
ghost use Rattle.tce_layout.specs.Examples.{WorkedSlots};

use crate::given::{
    declare_all, fusion, leaf, new_space, product, short_space, three_sums, tree_over, two_sums,
};
use std::alloc::Global;
use std::process::Abort;
use tce_fusion::memory;
use tce_layout::{Layout, Slot, lay_out};
use tce_space::{MAX_INDEXES, Space};
use tce_tree::Tree;

// What the definitions give for the worked trees.
fn worked_slots()
    ensures { WorkedSlots }
{}

// a to f of extent 3, i to l of extent 2.
fn long_space(rt: &impl Abort, alloc: Global) -> Space {
    let mut space = new_space(rt, alloc);
    declare_all(rt, &mut space, "a b c d e f", 3);
    declare_all(rt, &mut space, "i j k l", 2);
    space
}

fn laid_out(rt: &impl Abort, space: &Space, tree: &Tree, sets: &[&[u8]]) -> Layout
    requires { IsMeasured space.now tree.now }
{
    let fusion = fusion(rt, sets);
    assert!(rt; fusion.fits(tree));
    assert!(rt; memory(space, tree, &fusion) <= 1 << 40);
    lay_out(space, tree, &fusion)
}

// A slot whose steps are 0 but for these indexes.
fn slot(offset: u64, size: u64, moves: &[(u8, u64)]) -> Slot {
    let mut steps = [0; MAX_INDEXES];
    for (i, step) in moves {
        if *i < 24 {
            steps[*i as usize] = *step;
        }
    }
    Slot {
        offset,
        size,
        steps,
    }
}

// The slot of this number is the one wanted.
fn expect_slot(rt: &impl Abort, layout: &Layout, number: usize, wanted: &Slot) {
    assert!(rt; number < layout.0.len());
    assert!(rt; layout.0[number] == *wanted, "{number}");
}

fn expect_count(rt: &impl Abort, layout: &Layout, count: usize) {
    assert!(rt; layout.0.len() == count);
}

// The slots of the two sums, where the second has this fused set.
fn expect_two_sums(rt: &impl Abort, alloc: Global, second: &[u8], wanted: &Slot) {
    let space = short_space(rt, alloc);
    let tree = tree_over(rt, alloc, &space, &*two_sums(rt, alloc));
    let layout = laid_out(rt, &space, &tree, &[&[], second, &[]]);
    expect_count(rt, &layout, 2);
    expect_slot(rt, &layout, 0, &slot(0, 5, &[(0, 1)]));
    expect_slot(rt, &layout, 1, wanted);
    drop(tree);
    drop(space);
}

#[test]
fn slots_of_two_sums(rt: HostRuntime) {
    worked_slots();
    expect_two_sums(&rt, rt.alloc(), &[], &slot(5, 7, &[(1, 1)]));
    expect_two_sums(&rt, rt.alloc(), &[1], &slot(5, 1, &[]));
}

const LEAST: &[&[u8]] = &[
    &[1, 2, 3, 4, 5, 9],
    &[1, 2, 3, 5],
    &[1, 2, 3, 5, 7, 8],
    &[1, 2],
    &[0, 1, 2, 6, 7, 8],
    &[],
];

#[test]
fn slots_of_three_sums(rt: HostRuntime) {
    let space = long_space(&rt, rt.alloc());
    let tree = tree_over(&rt, rt.alloc(), &space, &*three_sums(&rt, rt.alloc()));
    let layout = laid_out(&rt, &space, &tree, LEAST);
    expect_count(&rt, &layout, 5);
    expect_slot(&rt, &layout, 0, &slot(0, 1, &[]));
    expect_slot(&rt, &layout, 1, &slot(1, 1, &[]));
    expect_slot(&rt, &layout, 2, &slot(2, 1, &[]));
    expect_slot(&rt, &layout, 3, &slot(3, 4, &[(7, 2), (8, 1)]));
    expect_slot(&rt, &layout, 4, &slot(7, 1, &[]));
    drop(tree);
    drop(space);
}

// The root has no slot, so the layout of a single node is empty.
#[test]
fn no_slot_of_a_single_node(rt: HostRuntime) {
    let alloc = rt.alloc();
    let space = short_space(&rt, alloc);
    let expr = product(
        &rt,
        alloc,
        leaf(&rt, alloc, 0, &[0]),
        leaf(&rt, alloc, 1, &[1]),
    );
    let tree = tree_over(&rt, alloc, &space, &*expr);
    expect_count(&rt, &laid_out(&rt, &space, &tree, &[&[]]), 0);
    drop(tree);
    drop(space);
}
