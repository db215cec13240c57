// The choices of a node: the sets that may be fused above it.
ghost use Rattle.std.specs.Prelude.{◌≡◌, ◌<◌, ◌≤◌, All};
ghost use Rattle.tce_space.specs.Limits.{max_volume};
ghost use Rattle.tce_tree.specs.ContractionTree.{operations};
ghost use Rattle.tce_tree.specs.Measure.{IsMeasured};
ghost use Rattle.tce_nesting.specs.Choices.{AreChoices, LeavesSize};

use crate::subset_list::subsets;
use arrayvec::ArrayVec;
use tce_space::{IndexSet, Space};
use tce_tree::Tree;

/// A set that may be fused above a node, with the elements that the node then keeps.
#[derive(Clone, Copy, Default)]
pub struct Choice {
    pub fused: IndexSet,
    pub size: u128,
}

/// The subsets of a node's dims, in the order of their bits as numbers, each with the elements that the node keeps where it is fused.
pub fn choices(space: &Space, tree: &Tree, v: u8) -> ArrayVec<Choice, 1024>
    requires measured { IsMeasured space.now tree.now }
    requires inside { v < operations tree.now }
    ensures choices { AreChoices space.now tree.now v result.items }
    ensures limit { All (λ choice. choice.size ≤ max_volume) result.items }
{
    let _loops = tree.loops(v);
    let dims = tree.dims(v);
    let mut choices = ArrayVec::<Choice, 1024>::new();
    for fused in subsets(dims).as_slice() {
        choices.push(choice_of(space, tree, v, *fused));
    }
    choices
}

// The choice of a set.
fn choice_of(space: &Space, tree: &Tree, v: u8, fused: IndexSet) -> Choice
    requires measured { IsMeasured space.now tree.now }
    requires inside { v < operations tree.now }
    ensures fused { result.fused ≡ fused }
    ensures size { LeavesSize space.now tree.now v result }
    ensures limit { result.size ≤ max_volume }
{
    let _count = space.index_count();
    let kept = tree.dims(v).minus(fused);
    Choice {
        fused,
        size: space.volume(kept).unwrap(),
    }
}
