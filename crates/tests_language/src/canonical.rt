//! Texts that were written by hand, read and printed.

use crate::given::{joined, part, put};
use std::alloc::Global;
use std::process::Abort;
use std::test::Fail;
use tce_spec::{Head, print_lines, read_formula, read_head};

/// Five lines of declarations.
const DECLARED: &[u8] = b"range N 2\nindex N i j k\ntensor A[N]\ntensor B[N]\ntensor C[N]\n";

/// What is printed of the head of a text.
fn printed(alloc: Global, text: &[u8]) -> Result<Vec<u8>, Fail> {
    let Ok(head) = read_head(alloc, text) else {
        return Err(Fail::new("the declarations are refused"));
    };
    let found = read_formula(
        alloc,
        head.line,
        &head.declarations,
        head.result,
        head.indexes.as_slice(),
        &head.formula,
    );
    let text = match &found {
        Ok(found) => Some(print_lines(alloc, &head.declarations, &found.result, &found.expr)),
        Err(_) => None,
    };
    drop(found);
    drop(head);
    match text {
        Some(text) => Ok(text?),
        None => Err(Fail::new("the formula is refused")),
    }
}

// Each row is a formula, and how it is printed.
const FORMULAS: &str = "\
C[i]=((A[i]*B[i])*A[i])|C[i] = A[i] * B[i] * A[i]
C[i] = A[i] * (B[i] * (A[i]))|C[i] = A[i] * (B[i] * A[i])
C[i] = (A[i] + B[i]) * (A[i] - B[i])|C[i] = (A[i] + B[i]) * (A[i] - B[i])
C[i] = (A[i] - (B[i] + 1)) - ((20 * A[i]) - B[i])|C[i] = A[i] - (B[i] + 1) - (20 * A[i] - B[i])
C[i] = (A[i] + B[i]) + (0 * A[i])|C[i] = A[i] + B[i] + 0 * A[i]
C[i] = (sum{k}((A[i]*B[k])))*(sum{j,k}(B[j]+B[k]))|C[i] = sum{k}(A[i] * B[k]) * sum{j,k}(B[j] + B[k])";

fn expect_printed(rt: &impl Abort, alloc: Global, text: &[u8], wanted: &[u8]) {
    match printed(alloc, text) {
        Ok(found) => assert!(rt; found.as_slice() == wanted),
        Err(_) => panic!(rt; "refused"),
    }
}

// The formula of a row is printed as the row says.
fn expect_row(rt: &impl Abort, alloc: Global, row: &str) {
    let text = joined(rt, alloc, DECLARED, part(row, 0).as_bytes());
    let mut whole = joined(rt, alloc, DECLARED, part(row, 1).as_bytes());
    put(rt, &mut whole, b"\n");
    expect_printed(rt, alloc, text.as_slice(), whole.as_slice());
}

#[test]
fn formulas_keep_the_parentheses_that_they_need(rt: HostRuntime) {
    for row in FORMULAS.split('\n') {
        expect_row(&rt, rt.alloc(), row);
    }
}

#[test]
fn declarations_stand_by_kind_in_order(rt: HostRuntime) {
    let text: &[u8] =
        b"# a note\r\nrange V 40 tile 8\nrange O 7 tile 1\nindex V a\ntensor A[V,O]\nindex V b c\nindex O i\n\nindex V d\ntensor S []\nindex V e\nrange P 3\ntensor B[]\nS[]=sum{a,i}(A[a,i])";
    let want: &[u8] =
        b"range V 40 tile 8\nrange O 7\nrange P 3\nindex V a b c\nindex O i\nindex V d e\ntensor A[V,O]\ntensor S[]\ntensor B[]\nS[] = sum{a,i}(A[a,i])\n";
    expect_printed(&rt, rt.alloc(), text, want);
}
