// The steps of windows, which stay from block to block of a tail.
ghost use Rattle.std.specs.Prelude.{◌≡◌, ◌+◌, ◌<◌, All};
ghost use Rattle.tce_space.specs.Limits.{max_indexes};
ghost use Rattle.tce_tree.specs.ContractionTree.{operations};
ghost use Rattle.tce_exec.specs.OperandLaws.{HasShape};
ghost use Rattle.tce_exec.specs.EvaluationSlots.{IsLaid, slot_of};
ghost use Rattle.tce_exec.specs.Windows.{AreTensorSteps, AreOperandSteps, ArePlaceSteps, AreSteps, HasSteps, CanStep};
ghost use Rattle.tce_exec.specs.Evaluations.{places_of, shape_of};

use crate::evaluation::Evaluation;
use crate::tile::tile_steps;
use crate::window::Window;
use tce_cache::Cache;
use tce_space::MAX_INDEXES;
use tce_tree::{Leaf, Operand};
use tce_walk::Tail;

/// The windows of a block: of its operands, of its result, and of the places of a joined product. A block with one operand
/// has it on the left.
#[derive(Drop)]
pub(crate) struct Windows {
    pub left: Window,
    pub right: Window,
    pub out: Window,
    pub own: Window,
}

impl Windows {
    /// Windows that mean nothing yet.
    pub(crate) fn blank() -> Windows {
        let window = Window {
            first: 0,
            steps: [0; MAX_INDEXES],
        };
        Windows {
            left: window,
            right: window,
            out: window,
            own: window,
        }
    }
}

// Gives a window the steps of a tensor's tiles.
fn set_leaf_steps(evaluation: &Evaluation, cache: &Cache, leaf: &Leaf, window: &mut Window)
    requires known { All (λ i. i < max_indexes) leaf.now.indexes.items }
    requires stored { HasShape cache.now leaf.now.tensor (shape_of evaluation.now leaf.now) }
    ensures { AreTensorSteps (shape_of evaluation.now leaf.now)
        leaf.now.indexes.items window.new.steps }
{
    let shape = &cache.array(leaf.tensor).shape;
    window.steps = tile_steps(shape, leaf.indexes.as_slice());
}

// Gives a window the steps of an inner node's slot.
fn set_node_steps(evaluation: &Evaluation, v: u8, window: &mut Window)
    requires laid { IsLaid evaluation.now }
    requires inner { v + 1 < operations evaluation.now.tree.now }
    ensures { window.new.steps ≡ (slot_of evaluation.now v).steps }
{
    let slot = &evaluation.layout.0[v as usize];
    window.steps = slot.steps;
}

// Gives a window the steps of an operand.
pub(crate) fn set_operand_steps(
    evaluation: &Evaluation,
    cache: &Cache,
    operand: &Operand,
    window: &mut Window,
)
    requires laid { IsLaid evaluation.now }
    requires known { HasSteps (places_of evaluation.now) cache.now operand.now }
    ensures { AreOperandSteps (places_of evaluation.now) operand.now window.new.steps }
{
    match operand {
        Operand::Leaf(leaf) => set_leaf_steps(evaluation, cache, leaf, window),
        Operand::Constant(_) => unreachable!(),
        Operand::Node(v) => set_node_steps(evaluation, *v, window),
    }
}

// Gives a window the steps of a node's places.
pub(crate) fn set_place_steps(evaluation: &Evaluation, cache: &Cache, v: u8, window: &mut Window)
    requires laid { IsLaid evaluation.now }
    requires node { v < operations evaluation.now.tree.now }
    requires known { All (λ i. i < max_indexes) evaluation.now.result.now.indexes.items }
    requires stored { HasShape cache.now evaluation.now.result.now.tensor
        (shape_of evaluation.now evaluation.now.result.now) }
    ensures { ArePlaceSteps (places_of evaluation.now) v window.new.steps }
{
    let count = evaluation.tree.count();
    if v + 1 == count {
        set_leaf_steps(evaluation, cache, evaluation.result, window);
    } else {
        set_node_steps(evaluation, v, window);
    }
}

/// Gives the windows the steps of a tail's operands and places. Where they begin, each block says.
pub(crate) fn set_steps(evaluation: &Evaluation, cache: &Cache, tail: &Tail, windows: &mut Windows)
    requires { CanStep (places_of evaluation.now)
        evaluation.now.result.now.tensor cache.now tail.now }
    ensures { AreSteps (places_of evaluation.now) tail.now windows.new }
{
    let node = tail.node;
    let left = evaluation.tree.left(node);
    set_operand_steps(evaluation, cache, left, &mut windows.left);
    let Some(right) = evaluation.tree.right(node) else {
        set_place_steps(evaluation, cache, node, &mut windows.out);
        return;
    };
    set_operand_steps(evaluation, cache, right, &mut windows.right);
    match tail.sum {
        None => set_place_steps(evaluation, cache, node, &mut windows.out),
        Some(sum) => {
            set_place_steps(evaluation, cache, sum, &mut windows.out);
            set_node_steps(evaluation, node, &mut windows.own);
        }
    }
}
