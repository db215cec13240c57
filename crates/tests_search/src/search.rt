//! The plans of `(sum{k}(A[i,k])) * (sum{l}(B[j,l]))` with i of extent 5, j of 7, k and l of 2, and of three sums with indexes a to f of extent 3000 and i to l of extent 100.

use crate::given::{TWO_SUMS, number, part, set, spec_of};
use std::alloc::Global;
use std::process::Abort;
use tce_nesting::{Plan, Row};
use tce_search::{search, search_within};

// a to f of extent 3000, i to l of extent 100.
const THREE_SUMS: &str =
    "range V 3000\nrange O 100\nindex V a b c d e f\nindex O i j k l\ntensor A[V,V,O,O]\ntensor B[V,V,V,O]\ntensor C[V,V,O,O]\ntensor D[V,V,V,O]\ntensor S[V,V,O,O]\nS[a,b,i,j] = sum{c,k}(sum{d,f}(sum{e,l}(B[b,e,f,l] * D[c,d,e,l]) * C[d,f,j,k]) * A[a,c,i,k])\n";

fn plan_for(rt: &impl Abort, alloc: Global, text: &str) -> Plan {
    let spec = spec_of(rt, alloc, text);
    let Ok(plan) = search(alloc, spec.space(), spec.tree()) else {
        panic!(rt; "no memory");
    };
    drop(spec);
    plan
}

// The bits of the fused sets are these.
fn expect_fused(rt: &impl Abort, plan: &Plan, wanted: &[u32]) {
    assert!(rt; plan.fusion.0.len() == wanted.len());
    for (set, bits) in plan.fusion.0.as_slice().iter().zip(wanted) {
        assert!(rt; set.bits() == *bits);
    }
}

fn expect_classes(rt: &impl Abort, row: &Row, class: u32) {
    assert!(rt; row.classes.classes().len() == 1);
    for set in row.classes.classes() {
        assert!(rt; set.bits() == class);
    }
}

// There is one row, with this class alone and this cost.
fn expect_row(rt: &impl Abort, rows: &[Row], class: u32, cost: u128) {
    assert!(rt; rows.len() == 1);
    for row in rows {
        assert!(rt; row.cost == cost);
        expect_classes(rt, row, class);
    }
}

fn expect_first_row(rt: &impl Abort, plan: &Plan, lists: u8, class: u32, cost: u128) {
    assert!(rt; plan.tables.lists() == lists);
    assert!(rt; 0 < lists);
    expect_row(rt, plan.tables.rows(0), class, cost);
}

fn expect_memory(rt: &impl Abort, plan: &Plan, memory: u128) {
    assert!(rt; plan.memory == memory);
}

fn expect_sizes(rt: &impl Abort, plan: &Plan, sizes: &[u128]) {
    assert!(rt; plan.sizes.as_slice() == sizes);
}

// No row costs more than this.
fn expect_costs(rt: &impl Abort, plan: &Plan, most: u128) {
    for v in 0..plan.tables.lists() {
        for row in plan.tables.rows(v) {
            assert!(rt; row.cost <= most);
        }
    }
}

#[test]
fn two_sums_fuse_one_index(rt: HostRuntime) {
    let plan = plan_for(&rt, rt.alloc(), TWO_SUMS);
    expect_fused(&rt, &plan, &[0, 0b10, 0]);
    expect_memory(&rt, &plan, 6);
    expect_sizes(&rt, &plan, &[5, 1]);
    drop(plan);
}

#[test]
fn three_sums_keep_few_elements(rt: HostRuntime) {
    let plan = plan_for(&rt, rt.alloc(), THREE_SUMS);
    expect_memory(&rt, &plan, 10004);
    let wanted = [0b1000111110, 0b101110, 0b110101110, 0b110, 0b111000111, 0];
    expect_fused(&rt, &plan, wanted.as_slice());
    // all dims of the first product in one class
    expect_first_row(&rt, &plan, 5, 0b1000111110, 1);
    // what costs more than one element above the memory is not told apart
    expect_costs(&rt, &plan, 10005);
    drop(plan);
}

// Lines of a tree by its name, a guess of its least memory, a limit, and the memory and the sets of the plan within the
// limit, or a dash where each legal fusion takes more.
const WITHIN: &str =
    "two;0;0;-\ntwo;0;5;-\ntwo;6;5;-\ntwo;1267650600228229401496703205376;5;-\ntwo;0;6;6;,1,\ntwo;3;6;6;,1,\ntwo;6;6;6;,1,\ntwo;7;7;6;,1,\ntwo;1267650600228229401496703205376;18446744073709551615;6;,1,\nthree;0;10003;-\nthree;10004;10003;-\nthree;0;10004;10004;123459,1235,123578,12,012678,\nthree;10004;10004;10004;123459,1235,123578,12,012678,\nthree;20000;1125899906842624;10004;123459,1235,123578,12,012678,";

fn tree_named(name: &str) -> &'static str {
    if name == "two" { TWO_SUMS } else { THREE_SUMS }
}

// The plan has this memory and these sets, each by the digits of its indexes.
fn expect_plan(rt: &impl Abort, plan: &Plan, memory: &str, sets: &str) {
    expect_memory(rt, plan, number(rt, memory));
    assert!(rt; sets.split(',').count() == plan.fusion.0.len());
    for (place, fused) in plan.fusion.0.as_slice().iter().enumerate() {
        assert!(rt; fused.bits() == set(part(sets, ',', place)).bits());
    }
}

fn limit_of(rt: &impl Abort, word: &str) -> u64 {
    match word.parse::<u64>() {
        Ok(limit) => limit,
        Err(_) => panic!(rt; "no limit: {word}"),
    }
}

fn expect_within(rt: &impl Abort, alloc: Global, line: &str) {
    let spec = spec_of(rt, alloc, tree_named(part(line, ';', 0)));
    let guess = number(rt, part(line, ';', 1));
    let limit = limit_of(rt, part(line, ';', 2));
    match search_within(alloc, spec.space(), spec.tree(), guess, limit) {
        Ok(Some(plan)) => expect_plan(rt, &plan, part(line, ';', 3), part(line, ';', 4)),
        Ok(None) => assert!(rt; part(line, ';', 3) == "-", "{line}"),
        Err(_) => panic!(rt; "no memory"),
    }
    drop(spec);
}

#[test]
fn plans_are_within_their_limits(rt: HostRuntime) {
    for line in WITHIN.split('\n') {
        expect_within(&rt, rt.alloc(), line);
    }
}
