//! Worked takings.

use crate::given::spec_of;
use std::alloc::Global;
use std::process::Abort;
use tce_job::{frame_count, least_budget, tile_count, tile_take};

// Tiles of one word: two operands of two tiles each, and a result of four.
const OUTER: &[u8] =
    b"range N 2\nindex N i j\ntensor A[N]\ntensor B[N]\ntensor C[N,N]\nC[i,j] = A[i] * B[j]\n";

// Tiles of 2560 words at most: two operands of 5 * 5 * 5 * 2 tiles, and the others of 5 * 5 * 2 * 2.
const CHAIN: &[u8] =
    b"range V 40 tile 8\nrange O 10 tile 5\nindex V a b c d e f\nindex O i j k l\ntensor A[V,V,O,O]\ntensor B[V,V,V,O]\ntensor C[V,V,O,O]\ntensor D[V,V,V,O]\ntensor S[V,V,O,O]\nS[a,b,i,j] = sum{c,k}(sum{d,f}(sum{e,l}(B[b,e,f,l] * D[c,d,e,l]) * C[d,f,j,k]) * A[a,c,i,k])\n";

// One operand, which stands twice, of one tile of four words, and a result of one tile of sixteen. The tensor X is not used.
const SQUARE: &[u8] =
    b"range N 4 tile 4\nindex N i j\ntensor A[N]\ntensor X[N,N,N]\ntensor C[N,N]\nC[i,j] = A[i] * A[j]\n";

// The least budget and the number of tiles of the text, and the frames and words that are taken under a budget.
fn expect(
    rt: &impl Abort,
    alloc: Global,
    text: &[u8],
    fixed: (u64, u64),
    budget: u64,
    want: (u64, u64),
) {
    let spec = spec_of(rt, alloc, text);
    assert!(rt; least_budget(&spec) == fixed.0);
    assert!(rt; tile_count(&spec) == fixed.1);
    assert!(rt; fixed.0 <= budget);
    assert!(rt; frame_count(&spec, budget) == want.0);
    assert!(rt; tile_take(&spec, budget) == want.1);
    drop(spec);
}

#[test]
fn takings_of_an_outer_product(rt: HostRuntime) {
    expect(&rt, rt.alloc(), OUTER, (3, 8), 3, (3, 3));
    expect(&rt, rt.alloc(), OUTER, (3, 8), 7, (7, 7));
    expect(&rt, rt.alloc(), OUTER, (3, 8), 1 << 40, (8, 8));
}

#[test]
fn takings_of_a_chain(rt: HostRuntime) {
    expect(&rt, rt.alloc(), CHAIN, (7680, 800), 7680, (3, 7680));
    expect(&rt, rt.alloc(), CHAIN, (7680, 800), 10239, (3, 7680));
    expect(&rt, rt.alloc(), CHAIN, (7680, 800), 10240, (4, 10240));
    expect(&rt, rt.alloc(), CHAIN, (7680, 800), 1 << 40, (800, 2048000));
}

#[test]
fn takings_of_a_square(rt: HostRuntime) {
    expect(&rt, rt.alloc(), SQUARE, (48, 2), 48, (3, 48));
    expect(&rt, rt.alloc(), SQUARE, (48, 2), 1000, (3, 48));
}
