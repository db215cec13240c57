//! Whole texts that were judged by hand.

use crate::given::{expect_text, joined, part, put, told_fault, with_feeds};
use std::alloc::Global;
use std::process::Abort;
use tce_spec::{Spec, print_spec, read_spec};

/// The outer product of two vectors: six lines.
const OUTER: &[u8] =
    b"range N 2\nindex N i j\ntensor A[N]\ntensor B[N]\ntensor C[N,N]\nC[i,j] = A[i] * B[j]\n";

/// Five lines of declarations.
const DECLARED: &[u8] = b"range N 2\nindex N i j k\ntensor A[N]\ntensor B[N]\ntensor C[N]\n";

/// A text, and so many times one byte behind it.
fn repeated(rt: &impl Abort, alloc: Global, first: &[u8], byte: u8, count: u32) -> Vec<u8> {
    let mut text = Vec::new(alloc);
    put(rt, &mut text, first);
    for _ in 0..count {
        assert!(rt; text.push(byte).is_ok());
    }
    text
}

/// The result, how many tensors and nodes there are, and the words of the largest tile.
fn told_rest(rt: &impl Abort, alloc: Global, spec: &Spec) -> Vec<u8> {
    let result = spec.result().tensor;
    let tensors = spec.tensor_count();
    let nodes = spec.tree().count();
    let words = spec.largest_tile();
    match format!(in alloc; "->{result} of {tensors}, nodes {nodes}, tile {words}") {
        Ok(text) => text.into_bytes(),
        Err(_) => panic!(rt; "no memory"),
    }
}

/// The operands, and the rest behind them.
fn told_spec(rt: &impl Abort, alloc: Global, spec: &Spec) -> Vec<u8> {
    let mut text = Vec::new(alloc);
    for t in spec.operands().as_slice() {
        put(rt, &mut text, &[b'0'.saturating_add(*t)]);
    }
    put(rt, &mut text, told_rest(rt, alloc, spec).as_slice());
    text
}

// What is told of the text is this, at the row of a table.
fn expect_told(rt: &impl Abort, alloc: Global, text: &[u8], wanted: &str, row: &str) {
    let read = read_spec(alloc, text);
    let told = match &read {
        Ok(spec) => told_spec(rt, alloc, spec),
        Err(fault) => told_fault(rt, alloc, fault),
    };
    drop(read);
    expect_text(rt, told.as_slice(), wanted.as_bytes(), row);
}

// Each row is a text behind others, with a slash for each line feed, and what is told of the whole.
fn expect_rows(rt: &impl Abort, alloc: Global, first: &[u8], rows: &str) {
    for row in rows.split('\n') {
        let second = with_feeds(rt, alloc, part(row, 0));
        let whole = joined(rt, alloc, first, second.as_slice());
        expect_told(rt, alloc, whole.as_slice(), part(row, 1), row);
    }
}

// Carriage returns, tabs, blanks, a comment in front and none behind the last line; operands by their first place, and the largest tile among operands and the result; the tile of the result as the largest, and one operand twice; a tensor that is not used, which does not count.
const FINE: &str = "\
# outer product\r/range N 2\r/index\tN i  j \r/tensor A[N]\r/\r/tensor B [ N ]\r/tensor C[N, N]\r/C[i,j]=A[i]*B[j] # the end|01->2 of 3, nodes 1, tile 1
range V 40 tile 8/range O 10 tile 5/index V a b c d e f/index O i j k l/tensor A[V,V,O,O]/tensor B[V,V,V,O]/tensor C[V,V,O,O]/tensor D[V,V,V,O]/tensor S[V,V,O,O]/S[a,b,i,j] = sum{c,k}(sum{d,f}(sum{e,l}(B[b,e,f,l] * D[c,d,e,l]) * C[d,f,j,k]) * A[a,c,i,k])/|1320->4 of 5, nodes 6, tile 2560
range N 4 tile 4/index N i j/tensor A[N]/tensor C[N,N]/C[i,j] = A[i] * A[j]/|0->1 of 2, nodes 1, tile 16
range N 4 tile 4/index N i/tensor X[N,N]/tensor C[]/C[] = 2 + 3/|->1 of 2, nodes 1, tile 1";

const FAULTS: &str = "\
|text 1
# nothing/ \t/|text 3
range N 2|text 2
range N 2/range N 0/rubbish/|name twice 2 N
range N 0/range N 0/|number 1
range N 2/index M i/|unknown 2 M
range abcdefghijklmnopq 2/|text 1
range abcdefghijklmnop 2/range N 4294967296/|number 2
range N 1024 tile 1024/tensor A[N,N,N]/|tile words 2
range N 4294967295/tensor A[N,N]/|array words 2";

#[test]
fn texts_specify_or_have_their_first_fault(rt: HostRuntime) {
    let alloc = rt.alloc();
    expect_told(&rt, alloc, OUTER, "01->2 of 3, nodes 1, tile 1", "outer");
    expect_rows(&rt, alloc, b"", FINE);
    expect_rows(&rt, alloc, b"", FAULTS);
}

const BEHIND: &str = "\
C[i] = A[i] * B[i]|01->2 of 3, nodes 1, tile 1
C[i] = sum{k}(A[i])|absent 6 k
C[i] = 3|no operation 6
C[i] = A[i] * Z[i]/rubbish|unknown 6 Z
C[i] = 07 * A[i]|number 6
C[i] = A[i] * A[i,j]|rank differs 6 A
C[i] = C[i] * A[j]|operand 6 C
C[i] = A[i] * B[j]|indices 6
C[i] = A[i] * B[i]//range M 2/|text 8
C[i] = A[i] * B[i]/C[i] = A[i] * B[i]/|text 7
C[i] = A[i] * B[i]/\r|text 7
C[i] = A[i] * B[i]/ \t/# nothing\r/|01->2 of 3, nodes 1, tile 1";

#[test]
fn formulas_and_what_stands_behind_them_are_judged(rt: HostRuntime) {
    expect_rows(&rt, rt.alloc(), DECLARED, BEHIND);
}

// The outer product has 81 bytes.
#[test]
fn long_texts_are_refused_unread(rt: HostRuntime) {
    let alloc = rt.alloc();
    let longest = repeated(&rt, alloc, OUTER, b'#', 65455);
    assert!(rt; longest.len() == 65536);
    expect_told(
        &rt,
        alloc,
        longest.as_slice(),
        "01->2 of 3, nodes 1, tile 1",
        "longest",
    );
    let longer = repeated(&rt, alloc, OUTER, b'#', 65456);
    expect_told(&rt, alloc, longer.as_slice(), "too long 0", "longer");
    let feeds = repeated(&rt, alloc, b"", b'\n', 65536);
    expect_told(&rt, alloc, feeds.as_slice(), "text 65537", "feeds");
}

// The canonical text of what a text specifies.
fn reprinted(rt: &impl Abort, alloc: Global, spec: &Spec) -> Vec<u8> {
    match print_spec(alloc, spec) {
        Ok(text) => text,
        Err(_) => panic!(rt; "no memory"),
    }
}

#[test]
fn the_canonical_text_is_printed(rt: HostRuntime) {
    let text: &[u8] =
        b"# an outer product\r\nrange N 2\r\nindex N i j\r\ntensor A[N]\r\ntensor B[N]\r\ntensor C[N,N]\r\nC[i,j] = A[i] * B[j]";
    let Ok(spec) = read_spec(rt.alloc(), text) else {
        panic!(rt; "the text is refused");
    };
    assert!(rt; reprinted(&rt, rt.alloc(), &spec).as_slice() == OUTER);
    drop(spec);
}
