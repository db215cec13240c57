//! Cuts for limits of memory, by hand, and against all fusions and all sets of cuts of small trees.

use crate::given::{TWO_SUMS, part};
use arrayvec::ArrayVec;
use std::alloc::{AllocError, Global};
use std::process::Abort;
use tce_fusion::{is_legal, size_of};
use tce_space::IndexSet;
use tce_spec::{Spec, read_spec};
use tce_spill::{SpillFault, cuts, storable};
use tce_tree::{Fusion, Tree};

const NINE_DIMS: &str =
    "range N 1\nindex N a b c d e f g h i\ntensor A[N,N,N,N,N,N,N,N]\ntensor B[N]\ntensor C[N,N,N,N,N,N,N,N]\nC[a,b,c,d,e,f,g,h] = sum{i}(A[a,b,c,d,e,f,g,h] * B[i])\n";

const TWICE_NINE_DIMS: &str =
    "range N 1\nindex N a b c d e f g h i\ntensor A[N,N,N,N,N,N,N,N]\ntensor B[N]\ntensor C[N,N,N,N,N,N,N,N]\nC[a,b,c,d,e,f,g,h] = sum{i}(A[a,b,c,d,e,f,g,h] * B[i]) + sum{i}(A[a,b,c,d,e,f,g,h] * B[i])\n";

// Four indexes, and formulas of three to five nodes over them.
const SMALL: &str =
    "range I 2\nrange J 3\nrange K 5\nrange L 7\nindex I i\nindex J j\nindex K k\nindex L l\ntensor A[I,K]\ntensor B[J,L]\ntensor D[K,L]\ntensor F[I,J]\ntensor R[I,J]\n";

const FORMULAS: &str =
    "R[i,j] = sum{k,l}((A[i,k] * D[k,l]) * B[j,l])|R[i,j] = sum{k}(A[i,k]) * sum{l}(B[j,l]) + F[i,j]|R[i,j] = sum{l}(sum{k}(A[i,k] * D[k,l]) * B[j,l])|R[i,j] = sum{k}(A[i,k] * sum{l}(D[k,l] * B[j,l]))|R[i,j] = F[i,j] * sum{k}(A[i,k] * sum{l}(D[k,l]))";

// The cuts as bits, or why there are none.
fn answer(alloc: Global, found: Result<u32, SpillFault>) -> Result<String, AllocError> {
    match found {
        Ok(kept) => format!(in alloc; "{kept}"),
        Err(SpillFault::TooManyTensors) => format!(in alloc; "many"),
        Err(SpillFault::LimitTooSmall(v, n)) => format!(in alloc; "piece {v} needs {n}"),
        Err(_) => format!(in alloc; "other"),
    }
}

fn expect(rt: &impl Abort, alloc: Global, text: &str, limit: u64, wanted: &str) {
    let Ok(spec) = read_spec(alloc, text.as_bytes()) else {
        panic!(rt; "refused: {text}");
    };
    match answer(alloc, cuts(alloc, &spec, limit)) {
        Ok(told) => assert!(rt; told.as_str() == wanted),
        Err(_) => panic!(rt; "no memory"),
    }
    drop(spec);
}

// So many tensors of rank 0, and the sum of two of them.
fn expect_many(rt: &impl Abort, alloc: Global, count: u64, wanted: &str) {
    match many(alloc, count) {
        Ok(text) => expect(rt, alloc, text.as_str(), 0, wanted),
        Err(_) => panic!(rt; "no memory"),
    }
}

fn many(alloc: Global, count: u64) -> Result<String, AllocError> {
    let mut text = String::new(alloc);
    for number in 0..count {
        let line = format!(in alloc; "tensor T{number}[]\n")?;
        text.push_str(line.as_str())?;
    }
    text.push_str("T0[] = T1[] + T2[]\n")?;
    Ok(text)
}

// ---- all fusions of a small tree

fn is_cut(cuts: u32, v: u8) -> bool {
    v < 32 && cuts >> v & 1 == 1
}

// The root of the piece in which a node stands.
fn root_over(tree: &Tree, cuts: u32, v: u8) -> u8 {
    let mut root = v;
    for u in v..tree.count() {
        if !is_cut(cuts, root) && root < tree.count() && tree.parent(root) == Some(u) {
            root = u;
        }
    }
    root
}

// The fusion with this number: four bits for each node but the root.
fn fusion_of(rt: &impl Abort, count: u8, number: u32) -> Fusion {
    let mut sets = ArrayVec::<IndexSet, 32>::new();
    let mut rest = number;
    for v in 0..32 {
        if v < count {
            let bits = if v + 1 < count { rest % 16 } else { 0 };
            assert!(rt; sets.try_push(IndexSet::of_bits(bits)).is_ok());
            rest /= 16;
        }
    }
    Fusion(sets)
}

// Whether nothing is fused where a node is cut.
fn is_apart(fusion: &Fusion, cuts: u32) -> bool {
    let mut apart = true;
    for (v, fused) in fusion.0.as_slice().iter().enumerate() {
        if v < 32 && cuts >> v & 1 == 1 && fused.bits() != 0 {
            apart = false;
        }
    }
    apart
}

// The elements that a piece keeps by a fusion.
fn memory_of_piece(rt: &impl Abort, spec: &Spec, fusion: &Fusion, cuts: u32, root: u8) -> u128 {
    let tree = spec.tree();
    assert!(rt; fusion.fits(tree));
    let mut memory: u128 = 0;
    for v in 0..tree.count() - 1 {
        if !is_cut(cuts, v) && root_over(tree, cuts, v) == root {
            memory = memory.saturating_add(size_of(spec.space(), tree, fusion, v));
        }
    }
    memory
}

// The least memory of a piece, over all fusions.
fn least_of_piece(rt: &impl Abort, spec: &Spec, cuts: u32, root: u8) -> u128 {
    let tree = spec.tree();
    let count = tree.count();
    assert!(rt; count <= 5);
    let mut least = u128::MAX;
    for number in 0..1 << 4 * (count as u32 - 1) {
        let fusion = fusion_of(rt, count, number);
        if is_apart(&fusion, cuts) && fusion.fits(tree) && is_legal(tree, &fusion) {
            least = least.min(memory_of_piece(rt, spec, &fusion, cuts, root));
        }
    }
    least
}

// The first root whose piece is above the limit, with its memory.
fn first_above(rt: &impl Abort, spec: &Spec, cuts: u32, limit: u64) -> Option<(u8, u128)> {
    let count = spec.tree().count();
    for root in 0..count {
        if is_cut(cuts, root) || root + 1 == count {
            let least = least_of_piece(rt, spec, cuts, root);
            if least > limit as u128 {
                return Some((root, least));
            }
        }
    }
    None
}

fn storable_nodes(spec: &Spec) -> u32 {
    let tree = spec.tree();
    let mut nodes = 0;
    for v in 0..tree.count() {
        if storable(spec.space(), tree, v) {
            nodes |= 1 << v;
        }
    }
    nodes
}

// These cuts are of storable nodes, each piece is within the limit, and none of the cuts can be taken back.
fn expect_needed(rt: &impl Abort, spec: &Spec, kept: u32, limit: u64) {
    assert!(rt; kept & storable_nodes(spec) == kept);
    assert!(rt; first_above(rt, spec, kept, limit).is_none());
    for v in 0..32 {
        if is_cut(kept, v) {
            assert!(rt; first_above(rt, spec, kept ^ 1 << v, limit).is_some());
        }
    }
}

// No set of cuts meets the limit, and this piece is the first above it where all storable nodes are cut.
fn expect_none(rt: &impl Abort, spec: &Spec, v: u8, n: u128, limit: u64) {
    let all = storable_nodes(spec);
    assert!(rt; first_above(rt, spec, all, limit) == Some((v, n)));
    for few in 0..32 {
        assert!(rt; few & all != few || first_above(rt, spec, few, limit).is_some());
    }
}

fn expect_least(rt: &impl Abort, alloc: Global, formula: &str, limit: u64) {
    let Ok(text) = format!(in alloc; "{SMALL}{formula}\n") else {
        panic!(rt; "no memory");
    };
    let Ok(spec) = read_spec(alloc, text.as_bytes()) else {
        panic!(rt; "refused: {formula}");
    };
    match cuts(alloc, &spec, limit) {
        Ok(kept) => expect_needed(rt, &spec, kept, limit),
        Err(SpillFault::LimitTooSmall(v, n)) => expect_none(rt, &spec, v, n, limit),
        Err(_) => panic!(rt; "no cuts: {formula}"),
    }
    drop(spec);
}

#[test]
fn cuts_go_by_the_limit(rt: HostRuntime) {
    expect(&rt, rt.alloc(), TWO_SUMS, 0, "3");
    expect(&rt, rt.alloc(), TWO_SUMS, 1, "2");
    expect(&rt, rt.alloc(), TWO_SUMS, 5, "2");
    expect(&rt, rt.alloc(), TWO_SUMS, 6, "0");
}

#[test]
fn the_first_piece_above_the_limit_is_told(rt: HostRuntime) {
    expect(&rt, rt.alloc(), NINE_DIMS, 0, "piece 1 needs 1");
    expect(&rt, rt.alloc(), NINE_DIMS, 1, "0");
    expect(&rt, rt.alloc(), TWICE_NINE_DIMS, 0, "piece 1 needs 1");
    expect(&rt, rt.alloc(), TWICE_NINE_DIMS, 1, "10");
    expect(&rt, rt.alloc(), TWICE_NINE_DIMS, 2, "8");
}

#[test]
fn thirty_one_tensors_may_be_declared(rt: HostRuntime) {
    expect_many(&rt, rt.alloc(), 31, "0");
    expect_many(&rt, rt.alloc(), 32, "many");
}

#[test]
fn cuts_are_those_of_a_plain_trial(rt: HostRuntime) {
    for number in 0..5 {
        for limit in 0..12 {
            expect_least(&rt, rt.alloc(), part(FORMULAS, '|', number), limit);
        }
    }
}
