// The scopes of all indexes at all nodes, told by the topmost node of each.
ghost use Rattle.std.specs.Prelude.{◌≡◌, ◌<◌, ◌≤◌, IfSome, IsNone, false};
ghost use Rattle.tce_space.specs.Limits.{max_indexes, max_nodes};
ghost use Rattle.tce_space.specs.IndexSet.{has};
ghost use Rattle.tce_tree.specs.ContractionTree.{operations};
ghost use Rattle.tce_tree.specs.Fusion.{FusionFits, fused_at};
ghost use Rattle.tce_fusion.specs.Tops.{IsFusedParent, IsTop, TellsScopes, TellsAllScopes, AreTopsAbove};

use tce_space::{MAX_INDEXES, MAX_NODES};
use tce_tree::{Fusion, Tree};

// For each index the topmost node of its scope at each node: two nodes are in one scope exactly where it is the same.
#[derive(Drop)]
pub(crate) struct Scopes(pub(crate) [[u8; MAX_NODES]; MAX_INDEXES]);

pub(crate) fn scopes_of(tree: &Tree, fusion: &Fusion) -> Scopes
    requires { FusionFits tree.now fusion.now.0.items }
    ensures { TellsAllScopes tree.now fusion.now.0.items result.0 }
{
    let mut tops = [[0; MAX_NODES]; MAX_INDEXES];
    for i in 0..MAX_INDEXES as u8 {
        tops[i as usize] = tops_of(tree, fusion, i);
    }
    Scopes(tops)
}

fn tops_of(tree: &Tree, fusion: &Fusion, i: u8) -> [u8; MAX_NODES]
    requires fits { FusionFits tree.now fusion.now.0.items }
    requires index { i < max_indexes }
    ensures { TellsScopes tree.now fusion.now.0.items i result }
{
    let mut tops = [0; MAX_NODES];
    for v in (0..tree.count()).rev() {
        tops[v as usize] = top_of(tree, fusion, i, v, &tops);
    }
    tops
}

// The topmost node of the scope at a node, from those of the nodes above.
fn top_of(tree: &Tree, fusion: &Fusion, i: u8, v: u8, tops: &[u8; MAX_NODES]) -> u8
    requires fits { FusionFits tree.now fusion.now.0.items }
    requires index { i < max_indexes }
    requires inside { v < operations tree.now }
    requires few { operations tree.now ≤ max_nodes }
    requires above { AreTopsAbove tree.now fusion.now.0.items i v tops.now }
    ensures { IsTop tree.now fusion.now.0.items i v result }
{
    match fused_parent(tree, fusion, i, v) {
        Some(p) => tops[p as usize],
        None => v,
    }
}

// The parent, where the edge to it fuses the index.
fn fused_parent(tree: &Tree, fusion: &Fusion, i: u8, v: u8) -> Option<u8>
    requires fits { FusionFits tree.now fusion.now.0.items }
    requires inside { v < operations tree.now }
    requires index { i < max_indexes }
    ensures some { IfSome result (IsFusedParent tree.now fusion.now.0.items i v) }
    ensures none { IsNone result → has (fused_at fusion.now.0.items v) i ≡ false }
{
    if fusion.0[v as usize].has(i) {
        tree.parent(v)
    } else {
        None
    }
}
