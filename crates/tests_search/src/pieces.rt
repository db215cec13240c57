//! Worked pieces, and nodes that may be stored.
ghost use Rattle.tce_spec.specs.CutExamples as worked;
ghost use Rattle.tce_spec.specs.PieceExamples as whole;

use std::alloc::Global;
use std::process::Abort;
use tce_spec::{Spec, read_spec};
use tce_spill::storable;

const TWO_SUMS: &str =
    "range I 5\nrange J 7\nrange K 2\nindex I i\nindex J j\nindex K k l\ntensor A[I,K]\ntensor B[J,K]\ntensor C[I,J]\nC[i,j] = sum{k}(A[i,k]) * sum{l}(B[j,l])\n";

const NINE_DIMS: &str =
    "range N 1\nindex N a b c d e f g h i\ntensor A[N,N,N,N,N,N,N,N]\ntensor B[N]\ntensor C[N,N,N,N,N,N,N,N]\nC[a,b,c,d,e,f,g,h] = sum{i}(A[a,b,c,d,e,f,g,h] * B[i])\n";

// What the definitions give for the worked pieces.
fn worked_pieces()
    ensures pieces { worked.WorkedPieces }
    ensures specifications { whole.WorkedSpecifications }
{}

// The sum of an outer product over indexes of this range.
fn expect_outer(rt: &impl Abort, alloc: Global, range: &str, wanted: bool) {
    let text = "\nindex N i j\ntensor A[N]\ntensor B[N]\ntensor C[N]\nC[i] = sum{j}(A[i] * B[j])\n";
    match format!(in alloc; "range N {range}{text}") {
        Ok(text) => expect(rt, alloc, text.as_str(), 0, wanted),
        Err(_) => panic!(rt; "no memory"),
    }
}

fn spec_of(rt: &impl Abort, alloc: Global, text: &str) -> Spec {
    match read_spec(alloc, text.as_bytes()) {
        Ok(spec) => spec,
        Err(_) => panic!(rt; "refused: {text}"),
    }
}

// Whether a node may be stored.
fn expect(rt: &impl Abort, alloc: Global, text: &str, v: u8, wanted: bool) {
    let spec = spec_of(rt, alloc, text);
    expect_of(rt, &spec, v, wanted);
    drop(spec);
}

fn expect_of(rt: &impl Abort, spec: &Spec, v: u8, wanted: bool) {
    let tree = spec.tree();
    assert!(rt; v < tree.count());
    assert!(rt; storable(spec.space(), tree, v) == wanted);
}

#[test]
fn the_root_is_not_stored(rt: HostRuntime) {
    expect(&rt, rt.alloc(), TWO_SUMS, 0, true);
    expect(&rt, rt.alloc(), TWO_SUMS, 1, true);
    expect(&rt, rt.alloc(), TWO_SUMS, 2, false);
}

#[test]
fn arrays_have_limits(rt: HostRuntime) {
    expect(&rt, rt.alloc(), NINE_DIMS, 0, false);
    expect_outer(&rt, rt.alloc(), "2048 tile 1024", true);
    expect_outer(&rt, rt.alloc(), "2048 tile 1025", false);
    expect_outer(&rt, rt.alloc(), "16777216", true);
    expect_outer(&rt, rt.alloc(), "16777217", false);
}
