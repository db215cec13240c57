//! The steps of `(sum{k}(A[i,k])) * (sum{l}(B[j,l]))` with i of extent 5, j of 7, k and l of 2. The numbers of i, j, k and l are 0 to 3.

use std::process::Abort;
use tce_nesting::{Choice, Row};
use tce_search::{is_stood_for, join_rows, stands_for, step};
use tce_space::IndexSet;

fn set(rt: &impl Abort, bits: u32) -> IndexSet {
    assert!(rt; bits < 1 << 24);
    IndexSet::of_bits(bits)
}

// The row with at most one class, of these bits, and this cost.
fn row(rt: &impl Abort, bits: u32, cost: u128) -> Row {
    let leaf = Row::default();
    let classes = combined(rt, &leaf, &leaf, bits)
        .expect(rt, "leaves have no conflict")
        .classes;
    Row { classes, cost }
}

fn combined(rt: &impl Abort, left: &Row, right: &Row, loops: u32) -> Option<Row> {
    let loops = set(rt, loops);
    assert!(rt; loops.count() <= 10);
    assert!(rt; left.cost < 1 << 96);
    assert!(rt; right.cost < 1 << 96);
    join_rows(left, right, loops)
}

fn stepped(rt: &impl Abort, joined: &Row, fused: u32, size: u128) -> Option<Row> {
    let choice = Choice {
        fused: set(rt, fused),
        size,
    };
    assert!(rt; joined.cost < 1 << 97);
    assert!(rt; choice.size < 1 << 96);
    step(joined, &choice)
}

// The rows join to this one, given by its class and cost, or not at all.
fn expect_join(
    rt: &impl Abort,
    left: (u32, u128),
    right: (u32, u128),
    loops: u32,
    wanted: Option<Row>,
) {
    let (left, right) = (row(rt, left.0, left.1), row(rt, right.0, right.1));
    assert!(rt; combined(rt, &left, &right, loops) == wanted);
}

// The join of the rows, which is there.
fn joint(rt: &impl Abort, left: (u32, u128), right: (u32, u128), loops: u32) -> Row {
    let (left, right) = (row(rt, left.0, left.1), row(rt, right.0, right.1));
    combined(rt, &left, &right, loops).expect(rt, "no conflict")
}

fn expect_step(rt: &impl Abort, joined: &Row, fused: u32, size: u128, wanted: Option<Row>) {
    assert!(rt; stepped(rt, joined, fused, size) == wanted);
}

#[test]
fn joins_are_the_worked_ones(rt: HostRuntime) {
    // two leaves
    expect_join(&rt, (0, 0), (0, 0), 0b101, Some(row(&rt, 0b101, 0)));
    // nothing fused
    expect_join(&rt, (0, 5), (0, 7), 0b11, Some(row(&rt, 0b11, 12)));
    // both fused
    expect_join(&rt, (0b01, 1), (0b10, 1), 0b11, None);
    // the same fused
    expect_join(&rt, (0b11, 3), (0b11, 4), 0b11, Some(row(&rt, 0b11, 7)));
}

#[test]
fn steps_are_the_worked_ones(rt: HostRuntime) {
    let first = joint(&rt, (0, 0), (0, 0), 0b101);
    expect_step(&rt, &first, 0, 5, Some(row(&rt, 0, 5)));
    expect_step(&rt, &first, 0b001, 1, Some(row(&rt, 0b001, 1)));
    let second = joint(&rt, (0, 5), (0b10, 1), 0b11);
    assert!(rt; second.cost == 6);
    expect_step(&rt, &second, 0b01, 7, None);
    expect_step(&rt, &second, 0b10, 5, Some(row(&rt, 0b10, 11)));
}

// Whether the first row stands for the second where these loops are outer.
fn expect_standing(rt: &impl Abort, a: (u32, u128), b: (u32, u128), outer: u32, wanted: bool) {
    let (a, b) = (row(rt, a.0, a.1), row(rt, b.0, b.1));
    assert!(rt; stands_for(&a, &b, set(rt, outer)) == wanted);
}

// Whether the rows without a class at the cost 5, and of the first index at the cost 1, stand for this one.
fn expect_stood_for(rt: &impl Abort, class: u32, cost: u128, wanted: bool) {
    let rows = [row(rt, 0, 5), row(rt, 0b01, 1)];
    assert!(rt; is_stood_for(rows.as_slice(), &row(rt, class, cost), set(rt, 0b11)) == wanted);
}

#[test]
fn rows_stand_for_states_as_worked(rt: HostRuntime) {
    // no classes at the same cost, and at a higher one
    expect_standing(&rt, (0, 5), (0b01, 5), 0b11, true);
    expect_standing(&rt, (0, 5), (0b01, 1), 0b11, false);
    // a class more
    expect_standing(&rt, (0b01, 1), (0, 5), 0b11, false);
    // one class of all outer loops
    expect_standing(&rt, (0b11, 1), (0, 5), 0b11, true);
    // a class of no outer loop
    expect_standing(&rt, (0b100, 1), (0, 5), 0b11, true);
    expect_stood_for(&rt, 0b01, 1, true);
    expect_stood_for(&rt, 0, 6, true);
    expect_stood_for(&rt, 0, 4, false);
}
