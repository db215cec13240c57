// The elements that the nodes keep.
ghost use Rattle.std.specs.Prelude.{◌≡◌, ◌+◌, ◌<◌, ◌≤◌};
ghost use Rattle.tce_space.specs.Limits.{cost_limit, max_volume};
ghost use Rattle.tce_tree.specs.ContractionTree.{operations};
ghost use Rattle.tce_tree.specs.Fusion.{FusionFits};
ghost use Rattle.tce_tree.specs.Measure.{IsMeasured};
ghost use Rattle.tce_tree.specs.Memory as held;

use tce_space::Space;
use tce_tree::{Fusion, Tree};

/// The elements that a node but the root keeps: one for each assignment of its dims that are not fused.
pub fn size_of(space: &Space, tree: &Tree, fusion: &Fusion, v: u8) -> u128
    requires measured { IsMeasured space.now tree.now }
    requires fits { FusionFits tree.now fusion.now.0.items }
    requires inside { v + 1 < operations tree.now }
    ensures value { result ≡ held.size_at space.now tree.now fusion.now.0.items v }
    ensures limit { result ≤ max_volume }
{
    let _count = space.index_count();
    let kept = tree.dims(v).minus(fusion.0[v as usize]);
    space.volume(kept).unwrap()
}

/// The elements that all nodes but the root keep together.
pub fn memory(space: &Space, tree: &Tree, fusion: &Fusion) -> u128
    requires measured { IsMeasured space.now tree.now }
    requires fits { FusionFits tree.now fusion.now.0.items }
    ensures value { result ≡ held.memory space.now tree.now fusion.now.0.items }
    ensures limit { result < cost_limit }
{
    let mut total = 0;
    for v in 0..tree.count() - 1 {
        total += size_of(space, tree, fusion, v);
    }
    total
}
