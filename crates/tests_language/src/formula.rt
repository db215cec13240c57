//! Formula lines that were judged by hand, behind some declarations.

ghost use Rattle.std.specs.Prelude.{IsTrue, map};
ghost use Rattle.tce_grammar.specs.Code.{names, formula};
ghost use Rattle.tce_grammar.specs.Grammar.{AreNames};
ghost use Rattle.tce_spec.specs.Places.{IsNamed};

use crate::given::{expect_text, joined, part, put, told_fault};
use std::alloc::Global;
use std::process::Abort;
use tce_grammar::Formula;
use tce_space::is_name;
use tce_spec::{Contraction, Head, read_formula, read_head};
use tce_tree::{Expr, Leaf};

fn are_names(words: &[&[u8]]) -> bool
    ensures { IsTrue result → AreNames (names words.now) }
{
    match words {
        [] => true,
        [first, rest @ ..] => is_name(*first) && are_names(rest),
    }
}

fn has_names(written: &Formula) -> bool
    ensures { IsTrue result → IsNamed (formula written.now) }
{
    match written {
        Formula::Tensor { name, indexes } => is_name(*name) && are_names(indexes.as_slice()),
        Formula::Constant(_) => true,
        Formula::Sum { indexes, operand } => {
            !indexes.is_empty() && are_names(indexes.as_slice()) && has_names(operand)
        }
        Formula::Binary { left, right, .. } => has_names(left) && has_names(right),
    }
}

/// 18 lines, so that a formula behind them stands in line 19. The tensors are numbered from 0 in this order.
const DECLARED: &[u8] =
    b"range N 2\nrange M 3\nrange L 4294967295\nrange O 1\nindex N i j k\nindex M m\nindex L x y z\nindex O a b c d e f g h p q r\ntensor A[N,N]\ntensor B[N]\ntensor C[N,N]\ntensor D[N]\ntensor E[N]\ntensor S[]\ntensor V[M]\ntensor X[L]\ntensor O[O,O,O,O,O,O,O,O]\ntensor P[O,O,O]\n";

fn put_indexes(rt: &impl Abort, text: &mut Vec<u8>, indexes: &[u8]) {
    for index in indexes {
        put(rt, text, &[b'a'.saturating_add(*index)]);
    }
}

/// A tensor by its digit, and its indexes by letters: `a` is index 0.
fn put_leaf(rt: &impl Abort, text: &mut Vec<u8>, leaf: &Leaf) {
    put(rt, text, &[b'0'.saturating_add(leaf.tensor)]);
    put_indexes(rt, text, leaf.indexes.as_slice());
}

fn put_number(rt: &impl Abort, alloc: Global, text: &mut Vec<u8>, number: u64) {
    match format!(in alloc; "{number}") {
        Ok(digits) => put(rt, text, digits.as_str().as_bytes()),
        Err(_) => panic!(rt; "no memory"),
    }
}

/// An operation on two operands in parentheses, a sum in `<` and `>` with its indexes in front.
fn put_expr(rt: &impl Abort, alloc: Global, text: &mut Vec<u8>, expr: &Expr) {
    match expr {
        Expr::Leaf(leaf) => put_leaf(rt, text, leaf),
        Expr::Constant(number) => put_number(rt, alloc, text, *number),
        Expr::Product(left, right) => {
            put(rt, text, b"(");
            put_expr(rt, alloc, text, left);
            put(rt, text, b" * ");
            put_expr(rt, alloc, text, right);
            put(rt, text, b")");
        }
        Expr::Add(left, right) => {
            put(rt, text, b"(");
            put_expr(rt, alloc, text, left);
            put(rt, text, b" + ");
            put_expr(rt, alloc, text, right);
            put(rt, text, b")");
        }
        Expr::Sub(left, right) => {
            put(rt, text, b"(");
            put_expr(rt, alloc, text, left);
            put(rt, text, b" - ");
            put_expr(rt, alloc, text, right);
            put(rt, text, b")");
        }
        Expr::Sum(indexes, operand) => {
            put(rt, text, b"sum(");
            put_indexes(rt, text, indexes.as_slice());
            put(rt, text, b": ");
            put_expr(rt, alloc, text, operand);
            put(rt, text, b")");
        }
    }
}

/// The contraction as a text: the result, and the expression behind a colon.
fn told(rt: &impl Abort, alloc: Global, found: &Contraction) -> Vec<u8> {
    let mut text = Vec::new(alloc);
    put_leaf(rt, &mut text, &found.result);
    put(rt, &mut text, b": ");
    put_expr(rt, alloc, &mut text, &found.expr);
    text
}

/// The text `S[] = 1 + 1 + ..` with so many additions.
fn added_ones(rt: &impl Abort, alloc: Global, count: u32) -> Vec<u8> {
    let mut text = Vec::new(alloc);
    put(rt, &mut text, b"S[] = 1");
    for _ in 0..count {
        put(rt, &mut text, b" + 1");
    }
    text
}

/// What is told of the formula of a text.
fn told_of_head(rt: &impl Abort, alloc: Global, head: &Head) -> Vec<u8> {
    let indexes = head.indexes.as_slice();
    assert!(rt; is_name(head.result));
    assert!(rt; are_names(indexes));
    assert!(rt; has_names(&head.formula));
    let answer = read_formula(
        alloc,
        head.line,
        &head.declarations,
        head.result,
        indexes,
        &head.formula,
    );
    let text = match &answer {
        Ok(found) => told(rt, alloc, found),
        Err(fault) => told_fault(rt, alloc, fault),
    };
    drop(answer);
    text
}

/// What is told of a formula line behind the declarations.
fn told_of_line(rt: &impl Abort, alloc: Global, line: &[u8]) -> Vec<u8> {
    let text = joined(rt, alloc, DECLARED, line);
    let Ok(head) = read_head(alloc, text.as_slice()) else {
        panic!(rt; "the declarations are refused");
    };
    let told = told_of_head(rt, alloc, &head);
    drop(head);
    told
}

// Each row is a line behind the declarations, and what is told of it.
fn expect_rows(rt: &impl Abort, alloc: Global, rows: &str) {
    for row in rows.split('\n') {
        let told = told_of_line(rt, alloc, part(row, 0).as_bytes());
        expect_text(rt, told.as_slice(), part(row, 1).as_bytes(), row);
    }
}

const COMPUTED: &str = "\
C[i,j] = B[i] * E[j]|2ab: (1a * 4b)
C[j,i] = B[i] + E[j]|2ba: (1a + 4b)
C[i,j] = sum{k}(A[i,k] * A[k,j])|2ab: sum(c: (0ac * 0cb))
S[] = sum{i}(A[i,i])|5: sum(a: 0aa)
S[] = sum{j,i}(A[i,j])|5: sum(ba: 0ab)
D[i] = 2 * B[i] - E[i] + 1|3a: (((2 * 1a) - 4a) + 1)
D[i] = B[i] - (E[i] - 10)|3a: (1a - (4a - 10))
D[i] = B[i] - E[i] - B[i]|3a: ((1a - 4a) - 1a)
S[] = 2 + 3|5: (2 + 3)
S[] = 0 + 18446744073709551615|5: (0 + 18446744073709551615)
C[i,j] = sum{k}(A[i,k]) * sum{k}(A[k,j])|2ab: (sum(c: 0ac) * sum(c: 0cb))
C[i,j] = ((B[i]) * (E[j]))|2ab: (1a * 4b)";

#[test]
fn lines_without_fault_are_computed(rt: HostRuntime) {
    expect_rows(&rt, rt.alloc(), COMPUTED);
}

// A name that is not declared: the result first, then from the left.
const UNKNOWN: &str = "\
Z[w] = Y[i] * 07|unknown 19 Z
C[i,w] = Z[i] * 2|unknown 19 w
S[] = sum{i,w}(Z[v])|unknown 19 w
S[] = 2 * (Z[w] + Y[])|unknown 19 Z
S[] = B[N] + Z[]|unknown 19 N
S[i] = B[i,j] * 07 * Z[]|unknown 19 Z";

// Constants, before any rank.
const NUMBERS: &str = "\
D[i] = 07 * B[i,j]|number 19
S[] = 1 + 00|number 19
S[] = sum{i}(B[i] * 18446744073709551616)|number 19";

// Ranks, before any range.
const RANKS: &str = "\
S[i] = B[i,j] * V[i]|rank differs 19 S
C[i,m] = V[i] * B[i,j]|rank differs 19 B
D[i] = S[i] * 2|rank differs 19 S";

// Ranges, before any index twice.
const RANGES: &str = "\
C[i,m] = V[i] * B[i]|range differs 19 m
C[i,i] = A[j,m] * V[k]|range differs 19 m
S[] = sum{i,i}(V[i])|range differs 19 i";

// An index twice, by the second place, before the result as an operand.
const TWICE: &str = "\
C[j,j] = sum{i,i}(C[i,i])|index twice 19 j
S[] = sum{i,j,j,i}(A[i,j])|index twice 19 j
S[] = B[i] + sum{i,j,i}(S[])|index twice 19 i";

// The result as an operand, before the tree.
const OPERAND: &str = "\
C[i,j] = B[i] * sum{k}(C[i,j])|operand 19 C";

// The tree, before the indexes of the result.
const TREES: &str = "\
S[] = 3|no operation 19
D[j] = B[i]|no operation 19
D[j] = sum{k}(B[i])|absent 19 k
S[] = sum{i}(3)|absent 19 i
D[j] = sum{i}(sum{i}(A[i,j]))|absent 19 i
S[] = O[a,b,c,d,e,f,g,h] * P[p,q,r]|loops 0
S[] = sum{x,y,z}((X[x] * X[y]) * X[z])|volume 1";

// The indexes of the result, last.
const INDICES: &str = "\
D[i] = B[i] * E[j]|indices 19
C[i,j] = B[i] * E[i]|indices 19
D[i] = sum{i}(B[i])|indices 19
S[] = B[i] + 1|indices 19";

#[test]
fn the_first_fault_of_a_line_decides(rt: HostRuntime) {
    let alloc = rt.alloc();
    expect_rows(&rt, alloc, UNKNOWN);
    expect_rows(&rt, alloc, NUMBERS);
    expect_rows(&rt, alloc, RANKS);
    expect_rows(&rt, alloc, RANGES);
    expect_rows(&rt, alloc, TWICE);
    expect_rows(&rt, alloc, OPERAND);
    expect_rows(&rt, alloc, TREES);
    expect_rows(&rt, alloc, INDICES);
}

// A long formula is refused before anything goes as deep as it does.
fn expect_many(rt: &impl Abort, alloc: Global, count: u32, behind: &[u8]) {
    let text = joined(rt, alloc, added_ones(rt, alloc, count).as_slice(), behind);
    let told = told_of_line(rt, alloc, text.as_slice());
    expect_text(rt, told.as_slice(), b"many nodes 19", "many");
}

#[test]
fn formulas_have_up_to_thirty_two_operations(rt: HostRuntime) {
    let alloc = rt.alloc();
    expect_many(&rt, alloc, 33, b"");
    expect_many(&rt, alloc, 33, b" + Z[w] * 07");
    expect_many(&rt, alloc, 10_000, b"");
    let longest = added_ones(&rt, alloc, 32);
    let told = told_of_line(&rt, alloc, longest.as_slice());
    assert!(rt; told.as_slice().starts_with(b"5: ((((("));
}
