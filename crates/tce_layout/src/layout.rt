// The slots of all nodes, one behind the other.
ghost use Rattle.std.specs.Prelude.{◌≡◌, ◌<◌, ◌≤◌, length};
ghost use Rattle.tce_space.specs.Limits.{max_memory};
ghost use Rattle.tce_space.specs.Space.{IsDeclared, volume_of};
ghost use Rattle.tce_tree.specs.ContractionTree.{operations};
ghost use Rattle.tce_tree.specs.Fusion.{FusionFits, fused_at, kept_dims};
ghost use Rattle.tce_tree.specs.Measure.{IsMeasured};
ghost use Rattle.tce_tree.specs.Memory.{memory};
ghost use Rattle.tce_layout.specs.Layout.{IsLayout, IsSlot};
ghost use Rattle.tce_layout.specs.Places.{PlacesFill};

use crate::slot::{Layout, Slot};
use arrayvec::ArrayVec;
use tce_space::{IndexSet, MAX_INDEXES, Space};
use tce_tree::{Fusion, Tree};

/// The slots of the nodes but the root, in the order of the nodes, from word 0 on.
///
/// The size of a slot is the product of the extents of the node's dims that are not fused. The step of the last of
/// these dims is 1, and that of another is the product of the extents of the dims behind it; a fused index, or one that
/// is no dim, has step 0.
pub fn lay_out(space: &Space, tree: &Tree, fusion: &Fusion) -> Layout
    requires measured { IsMeasured space.now tree.now }
    requires fits { FusionFits tree.now fusion.now.0.items }
    requires limit { memory space.now tree.now fusion.now.0.items ≤ max_memory }
    ensures slots { IsLayout space.now tree.now fusion.now.0.items result.0.items }
    ensures places { PlacesFill space.now tree.now fusion.now.0.items result.0.items }
{
    let mut slots = ArrayVec::new();
    let mut offset = 0;
    let _count = space.index_count();
    for v in 0..tree.count() - 1 {
        let slot = slot_over(space, kept_at_node(tree, fusion, v), offset);
        offset += slot.size;
        slots.push(slot);
    }
    Layout(slots)
}

// The slot from `offset` on over a set of dims.
fn slot_over(space: &Space, dims: IndexSet, offset: u64) -> Slot
    requires declared { IsDeclared space.now dims }
    requires limit { volume_of space.now dims ≤ max_memory }
    ensures { IsSlot space.now dims offset result }
{
    let mut size = 1;
    let mut steps = [0; MAX_INDEXES];
    let _count = space.index_count();
    for i in (0..MAX_INDEXES as u8).rev() {
        if dims.has(i) {
            steps[i as usize] = size;
            size *= space.extent(i);
        }
    }
    Slot {
        offset,
        size,
        steps,
    }
}

// The dims of a node that are not fused.
pub(crate) fn kept_at_node(tree: &Tree, fusion: &Fusion, v: u8) -> IndexSet
    requires fits { FusionFits tree.now fusion.now.0.items }
    requires inside { v < operations tree.now }
    ensures { result ≡ kept_dims tree.now fusion.now.0.items v }
{
    tree.dims(v).minus(fused_at_node(fusion, v))
}

fn fused_at_node(fusion: &Fusion, v: u8) -> IndexSet
    requires { v < length fusion.now.0.items }
    ensures { result ≡ fused_at fusion.now.0.items v }
{
    fusion.0[v as usize]
}
