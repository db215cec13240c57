//! Plans of four trees with their verdicts: `(sum{k}(A[i,k])) * (sum{l}(B[j,l]))` with i of extent 5, j of 7, k and l of 2; `D[i,j] * (C[i,j] * (A[i,j] * B[i,j]))` with i of extent 2 and j of 3; `(2 * A[i,k]) * B[i,k]`; and `sum{k}(A[i,k])`.
//!
//! A plan is a text: its fused sets, its orders, its sizes, its memory, and the rows of its first two nodes, each with its cost and one class or none. Indexes are digits.
use crate::given::{TWO_SUMS, nesting, plan_of, put_row, set, spec_of};
use std::alloc::Global;
use std::process::Abort;
use tce_check::{Verdict, check};
use tce_nesting::Plan;
use tce_spec::Spec;

// The verdict that a step lacks a row, of a node, a set whose indexes are one class, and a cost.
fn not_covered(rt: &impl Abort, v: u8, fused: &str, cost: u128) -> Verdict {
    Verdict::NotCovered(v, set(fused), nesting(rt, fused), cost)
}

// The verdict on the plan of the text is the one wanted.
fn expect(rt: &impl Abort, alloc: Global, spec: &Spec, text: &str, wanted: Verdict) {
    let (space, tree) = (spec.space(), spec.tree());
    let plan = plan_of(rt, alloc, text);
    assert!(rt; plan.fits(tree), "{text}");
    assert!(rt; check(space, tree, &plan) == wanted, "{text}");
    drop(plan);
}

fn accepted_plans(rt: &impl Abort, alloc: Global, spec: &Spec) {
    // j is fused at the second sum
    expect(
        rt,
        alloc,
        spec,
        "- 1 -;02 13 10;5 1;6;5: 1:0;7: 1:1",
        Verdict::Accepted,
    );
    // other orders than the standard ones
    expect(
        rt,
        alloc,
        spec,
        "- 1 -;20 13 10;5 1;6;5: 1:0;7: 1:1",
        Verdict::Accepted,
    );
    // a row twice
    expect(
        rt,
        alloc,
        spec,
        "- 1 -;02 13 10;5 1;6;5: 1:0;7: 1:1 1:1",
        Verdict::Accepted,
    );
    // rows that are never needed
    expect(
        rt,
        alloc,
        spec,
        "- 1 -;02 13 10;5 1;6;100: 5: 9:0 1:0;7: 1:1 8:",
        Verdict::Accepted,
    );
}

fn broken_rules(rt: &impl Abort, alloc: Global, spec: &Spec) {
    // i and j fused
    expect(
        rt,
        alloc,
        spec,
        "0 1 -;02 13 10;1 1;2;5: 1:0;7: 1:1",
        Verdict::NotLegal(2),
    );
    // j is not outermost at the root, and a size is wrong
    expect(
        rt,
        alloc,
        spec,
        "- 1 -;02 13 01;4 1;6;5: 1:0;7: 1:1",
        Verdict::OrderWrong(1),
    );
}

fn wrong_sizes(rt: &impl Abort, alloc: Global, spec: &Spec) {
    // a wrong size
    expect(
        rt,
        alloc,
        spec,
        "- 1 -;02 13 10;4 1;6;5: 1:0;7: 1:1",
        Verdict::SizeWrong(0, 5),
    );
    // both sizes wrong
    expect(
        rt,
        alloc,
        spec,
        "- 1 -;02 13 10;4 2;6;5: 1:0;7: 1:1",
        Verdict::SizeWrong(0, 5),
    );
    // the second size wrong, and the memory
    expect(
        rt,
        alloc,
        spec,
        "- 1 -;02 13 10;5 0;5;5: 1:0;7: 1:1",
        Verdict::SizeWrong(1, 1),
    );
    // wrong memory, and no rows
    expect(
        rt,
        alloc,
        spec,
        "- 1 -;02 13 10;5 1;5;;",
        Verdict::TotalWrong(6),
    );
}

fn missing_rows(rt: &impl Abort, alloc: Global, spec: &Spec) {
    // no row where nothing is fused
    expect(
        rt,
        alloc,
        spec,
        "- 1 -;02 13 10;5 1;6;1:0;7: 1:1",
        not_covered(rt, 0, "-", 5),
    );
    // no cheap row where i is fused
    expect(
        rt,
        alloc,
        spec,
        "- 1 -;02 13 10;5 1;6;5:;7: 1:1",
        not_covered(rt, 0, "0", 1),
    );
    // no row of the second sum
    expect(
        rt,
        alloc,
        spec,
        "- 1 -;02 13 10;5 1;6;5: 1:0;",
        not_covered(rt, 1, "-", 7),
    );
}

fn low_sums(rt: &impl Abort, alloc: Global, spec: &Spec) {
    // a cheaper first row
    expect(
        rt,
        alloc,
        spec,
        "- 1 -;02 13 10;5 1;6;4: 1:0;7: 1:1",
        Verdict::BelowTotal(5),
    );
    // a cheaper last row
    expect(
        rt,
        alloc,
        spec,
        "- 1 -;02 13 10;5 1;6;5: 1:0;7: 0:1",
        Verdict::BelowTotal(5),
    );
    // a third left row
    expect(
        rt,
        alloc,
        spec,
        "- 1 -;02 13 10;5 1;6;5: 1:0 0:;7: 1:1",
        Verdict::BelowTotal(1),
    );
}

#[test]
fn verdicts_on_two_sums(rt: HostRuntime) {
    let spec = spec_of(&rt, rt.alloc(), TWO_SUMS);
    accepted_plans(&rt, rt.alloc(), &spec);
    broken_rules(&rt, rt.alloc(), &spec);
    wrong_sizes(&rt, rt.alloc(), &spec);
    missing_rows(&rt, rt.alloc(), &spec);
    low_sums(&rt, rt.alloc(), &spec);
    drop(spec);
}

// A plan with so many rows of both sums that their pairs are not looked at one by one.
fn plan_of_many(rt: &impl Abort, alloc: Global) -> Plan {
    let mut plan = plan_of(rt, alloc, "- 1 -;02 13 10;5 1;6;5: 1:0;7: 1:1");
    for _ in 0..2000 {
        put_row(rt, &mut plan.tables, 0, "0", 1);
        put_row(rt, &mut plan.tables, 1, "1", 1);
    }
    plan
}

#[test]
fn verdicts_on_many_rows(rt: HostRuntime) {
    let alloc = rt.alloc();
    let spec = spec_of(&rt, alloc, TWO_SUMS);
    let mut plan = plan_of_many(&rt, alloc);
    assert!(rt; plan.fits(spec.tree()));
    assert!(rt; check(spec.space(), spec.tree(), &plan) == Verdict::Accepted);
    // a last left row that joins with each right one: the second of these costs 1
    put_row(&rt, &mut plan.tables, 0, "", 4);
    assert!(rt; plan.fits(spec.tree()));
    assert!(rt; check(spec.space(), spec.tree(), &plan) == Verdict::BelowTotal(5));
    drop(plan);
    drop(spec);
}

// i and j, which has the number 3, are fused at both edges.
fn sets_in_order(rt: &impl Abort, alloc: Global, spec: &Spec) {
    // one row each
    expect(
        rt,
        alloc,
        spec,
        "03 03 -;03 03 03;1 1;2;1:03;2:03",
        Verdict::Accepted,
    );
    // costs that are too low
    expect(
        rt,
        alloc,
        spec,
        "03 03 -;03 03 03;1 1;2;0:03;1:03",
        Verdict::BelowTotal(1),
    );
    // i and j fused at the first edge
    expect(
        rt,
        alloc,
        spec,
        "03 03 -;03 03 03;1 1;2;2:03;2:03",
        not_covered(rt, 0, "03", 1),
    );
}

fn sets_of_one_index_in_order(rt: &impl Abort, alloc: Global, spec: &Spec) {
    // j fused, before both
    expect(
        rt,
        alloc,
        spec,
        "03 03 -;03 03 03;1 1;2;3:03;2:03",
        not_covered(rt, 0, "3", 2),
    );
    // i fused, before j
    expect(
        rt,
        alloc,
        spec,
        "03 03 -;03 03 03;1 1;2;6:03;2:03",
        not_covered(rt, 0, "0", 3),
    );
    // i above j is no row for both
    expect(
        rt,
        alloc,
        spec,
        "03 03 -;03 03 03;1 1;2;1:0;2:03",
        not_covered(rt, 0, "-", 6),
    );
}

fn right_rows_in_order(rt: &impl Abort, alloc: Global, spec: &Spec) {
    // the first right row
    expect(
        rt,
        alloc,
        spec,
        "03 03 -;03 03 03;1 1;2;1:03 0:;3:03",
        not_covered(rt, 1, "03", 2),
    );
    // the first right row, in the other order
    expect(
        rt,
        alloc,
        spec,
        "03 03 -;03 03 03;1 1;2;0: 1:03;3:03",
        not_covered(rt, 1, "3", 2),
    );
}

// The index j has the number 3.
const THREE_PRODUCTS: &str =
    "range I 2\nrange X 9\nrange J 3\nindex I i\nindex X x y\nindex J j\ntensor A[I,J]\ntensor B[I,J]\ntensor C[I,J]\ntensor D[I,J]\ntensor E[I,J]\nE[i,j] = D[i,j] * (C[i,j] * (A[i,j] * B[i,j]))\n";

#[test]
fn verdicts_on_three_products(rt: HostRuntime) {
    let spec = spec_of(&rt, rt.alloc(), THREE_PRODUCTS);
    sets_in_order(&rt, rt.alloc(), &spec);
    sets_of_one_index_in_order(&rt, rt.alloc(), &spec);
    right_rows_in_order(&rt, rt.alloc(), &spec);
    drop(spec);
}

const ONE_NODE: &str =
    "range I 5\nrange K 2\nindex I i\nindex K k\ntensor A[I,K]\ntensor B[I]\nB[i] = sum{k}(A[i,k])\n";

#[test]
fn verdicts_on_one_node(rt: HostRuntime) {
    let alloc = rt.alloc();
    let spec = spec_of(&rt, alloc, ONE_NODE);
    expect(&rt, alloc, &spec, "-;01;;0;;", Verdict::Accepted);
    expect(&rt, alloc, &spec, "-;01;;1;;", Verdict::TotalWrong(0));
    drop(spec);
}

const WITH_CONSTANT: &str =
    "range I 5\nrange K 2\nindex I i\nindex K k\ntensor A[I,K]\ntensor B[I,K]\ntensor C[I,K]\nC[i,k] = (2 * A[i,k]) * B[i,k]\n";

#[test]
fn verdicts_on_a_constant(rt: HostRuntime) {
    let alloc = rt.alloc();
    let spec = spec_of(&rt, alloc, WITH_CONSTANT);
    expect(&rt, alloc, &spec, "01 -;01 01;1;1;1:01;", Verdict::Accepted);
    expect(
        &rt,
        alloc,
        &spec,
        "01 -;01 01;1;1;0:01;",
        Verdict::BelowTotal(0),
    );
    drop(spec);
}
