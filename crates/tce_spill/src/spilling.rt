// The cuts that the pieces are made by, and the budget of their runs.
ghost use Rattle.std.specs.Prelude.{◌≡◌, ℕ, ◌<◌, ◌≤◌, IsTrue, IfOk, length};
ghost use Rattle.tce_space.specs.Limits.{max_tile_words};
ghost use Rattle.tce_space.specs.IndexSet.{has};
ghost use Rattle.tce_tree.specs.ContractionTree.{operations};
ghost use Rattle.tce_spec.specs.Pieces.{is_root as is_root_of};
ghost use Rattle.tce_spec.specs.Storable.{shape_of_node, storable};
ghost use Rattle.tce_spec.specs.Operands.{shape_of};
ghost use Rattle.tce_spec.specs.PieceSpecification.{CanCut};
ghost use Rattle.tce_spec.specs.Declarations.{HaveNames};
ghost use Rattle.tce_space.specs.Tiling.{tile_words};
ghost use Rattle.tce_spill.specs.PieceRuns.{largest_of};

use std::alloc::{AllocError, Global};
use tce_spec::{Spec, piece};

/// The nodes that are cut, as the bits of a number, and the budget of each piece's run, in words.
#[derive(Clone, Copy)]
pub(crate) struct Spilling {
    pub(crate) cuts: u32,
    pub(crate) budget: u64,
}

impl Spilling {
    /// Whether a node of so many is the root of a piece.
    pub(crate) fn has_root(self, spec: &Spec, v: u8) -> bool
        requires { v < operations spec.now.tree }
        ensures { result ≡ is_root_of spec.now.tree (has self.cuts) v }
    {
        let count = spec.tree().count();
        has_node(self.cuts, v) || v + 1 == count
    }
}

fn has_node(nodes: u32, v: u8) -> bool
    requires { v < 32 }
    ensures { result ≡ has nodes v }
{
    nodes >> v & 1 == 1
}

/// The words of the largest tile of the operands, the result, and the arrays of the cut nodes.
pub(crate) fn largest_tile(alloc: Global, spec: &Spec, cuts: u32) -> Result<u64, AllocError>
    requires names { HaveNames spec.now.declarations.tensors }
    requires few { length spec.now.declarations.tensors ≤ 31 }
    requires allowed { (v : ℕ) → IsTrue (has cuts v) → IsTrue (storable spec.now.declarations.space spec.now.tree v) }
    ensures { IfOk result (λ words. (words ≡ largest_of spec.now (has cuts)) × (words ≤ max_tile_words)) }
{
    let count = spec.tree().count();
    let mut largest = spec.largest_tile();
    for v in 0..count {
        if has_node(cuts, v) {
            largest = largest.max(array_tile(alloc, spec, cuts, v)?);
        }
    }
    Ok(largest)
}

// The words of a tile of the array of a cut node.
fn array_tile(alloc: Global, spec: &Spec, cuts: u32, v: u8) -> Result<u64, AllocError>
    requires names { HaveNames spec.now.declarations.tensors }
    requires few { length spec.now.declarations.tensors ≤ 31 }
    requires can { CanCut spec.now (has cuts) v }
    requires cut { IsTrue (has cuts v) }
    ensures words { IfOk result (λ words. words ≡ tile_words (shape_of_node spec.now.declarations.space spec.now.tree v)) }
    ensures limit { IfOk result (λ words. words ≤ max_tile_words) }
{
    let piece = piece(alloc, spec, v, cuts)?;
    let words = result_words(&piece);
    drop(piece);
    Ok(words)
}

// The words of a tile of the result.
fn result_words(spec: &Spec) -> u64
    ensures words { result ≡ tile_words (shape_of spec.now spec.now.result) }
    ensures limit { result ≤ max_tile_words }
{
    spec.tensor(spec.result().tensor).shape.tile_words()
}
