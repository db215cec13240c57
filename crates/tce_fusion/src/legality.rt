// Whether the scopes of a fusion are nested.
ghost use Rattle.std.specs.Prelude.{◌≡◌, ◌<◌, ◌≤◌, ◌↔◌, ℕ, IsTrue, IfSome, IsNone, false};
ghost use Rattle.tce_space.specs.Limits.{max_indexes, max_nodes};
ghost use Rattle.tce_space.specs.IndexSet.{has};
ghost use Rattle.tce_tree.specs.ContractionTree.{operations};
ghost use Rattle.tce_tree.specs.Fusion.{FusionFits};
ghost use Rattle.tce_fusion.specs.Scope.{IsSubset, IsLegal, IsIllegalAt, NoneIllegalBelow};
ghost use Rattle.tce_fusion.specs.Tops.{AreNested, joined, row, LoopsAreNested};

use crate::scopes::{Scopes, scopes_of};
use tce_space::{IndexSet, MAX_INDEXES, MAX_NODES};
use tce_tree::{Fusion, Tree};

/// The least node at which two loops have scopes of which neither contains the other; `None` exactly where the fusion is legal.
///
/// The scope of an index at a node is the set of nodes that are reached from it along edges that fuse the index. A fusion is legal where any two scopes are disjoint, or one contains the other.
pub fn first_illegal(tree: &Tree, fusion: &Fusion) -> Option<u8>
    requires { FusionFits tree.now fusion.now.0.items }
    ensures found { IfSome result (IsIllegalAt tree.now fusion.now.0.items) }
    ensures inside { IfSome result (λ v. v < operations tree.now) }
    ensures least { IfSome result (NoneIllegalBelow tree.now fusion.now.0.items) }
    ensures legal { IsNone result ↔ IsLegal tree.now fusion.now.0.items }
{
    let scopes = scopes_of(tree, fusion);
    let count = tree.count();
    for v in 0..count {
        if loops_cross(&scopes, count, tree.loops(v), v) {
            return Some(v);
        }
    }
    None
}

/// Whether any two scopes are disjoint, or one contains the other.
pub fn is_legal(tree: &Tree, fusion: &Fusion) -> bool
    requires { FusionFits tree.now fusion.now.0.items }
    ensures { IsTrue result ↔ IsLegal tree.now fusion.now.0.items }
{
    first_illegal(tree, fusion).is_none()
}

// Whether two of the loops have scopes at the node of which neither contains the other.
fn loops_cross(scopes: &Scopes, count: u8, loops: IndexSet, v: u8) -> bool
    requires few { count ≤ max_nodes }
    requires inside { v < count }
    ensures yes { IsTrue result → (i : ℕ) × (j : ℕ) × IsTrue (has loops i) × IsTrue (has loops j)
        × (AreNested count (joined (row scopes.now.0 i) v) (joined (row scopes.now.0 j) v) → ⊥) }
    ensures no { result ≡ false → LoopsAreNested scopes.now.0 count loops v }
{
    for i in 0..MAX_INDEXES as u8 {
        if loops.has(i) && crosses_another(scopes, count, loops, v, i) {
            return true;
        }
    }
    false
}

// Whether the scope of the index at the node and that of another loop cross.
fn crosses_another(scopes: &Scopes, count: u8, loops: IndexSet, v: u8, i: u8) -> bool
    requires few { count ≤ max_nodes }
    requires inside { v < count }
    requires index { i < max_indexes }
    ensures yes { IsTrue result → (j : ℕ) × IsTrue (has loops j)
        × (AreNested count (joined (row scopes.now.0 i) v) (joined (row scopes.now.0 j) v) → ⊥) }
    ensures no { result ≡ false → (j : ℕ) → j < max_indexes → IsTrue (has loops j)
        → AreNested count (joined (row scopes.now.0 i) v) (joined (row scopes.now.0 j) v) }
{
    for j in 0..MAX_INDEXES as u8 {
        if loops.has(j) && !are_nested(tops_in(scopes, i), tops_in(scopes, j), count, v) {
            return true;
        }
    }
    false
}

// The tops of an index.
pub(crate) fn tops_in(scopes: &Scopes, i: u8) -> &[u8; MAX_NODES]
    requires { i < max_indexes }
    ensures { result.now ≡ row scopes.now.0 i }
{
    &scopes.0[i as usize]
}

// Whether one of two scopes at a node contains the other.
fn are_nested(first: &[u8; MAX_NODES], second: &[u8; MAX_NODES], count: u8, v: u8) -> bool
    requires few { count ≤ max_nodes }
    requires inside { v < count }
    ensures { IsTrue result ↔ AreNested count (joined first.now v) (joined second.now v) }
{
    is_subset(first, second, count, v) || is_subset(second, first, count, v)
}

// Whether each node of the inner scope at a node is one of the outer.
fn is_subset(inner: &[u8; MAX_NODES], outer: &[u8; MAX_NODES], count: u8, v: u8) -> bool
    requires few { count ≤ max_nodes }
    requires inside { v < count }
    ensures { IsTrue result ↔ IsSubset count (joined inner.now v) (joined outer.now v) }
{
    for w in 0..count {
        if is_joined(inner, v, w) && !is_joined(outer, v, w) {
            return false;
        }
    }
    true
}

// Whether two nodes are in one scope.
pub(crate) fn is_joined(tops: &[u8; MAX_NODES], v: u8, w: u8) -> bool
    requires first { v < max_nodes }
    requires second { w < max_nodes }
    ensures { result ≡ joined tops.now v w }
{
    tops[v as usize] == tops[w as usize]
}
