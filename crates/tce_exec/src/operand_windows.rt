// Windows of operands and of the places of nodes.
ghost use Rattle.std.specs.Prelude.{◌≡◌, ◌+◌, ◌≤◌, ◌<◌, ◌^◌, All, OnOk, IsErr, IsTrue, Some};
ghost use Rattle.tce_space.specs.Limits.{max_indexes};
ghost use Rattle.tce_space.specs.Box.{IsInside};
ghost use Rattle.tce_cache.specs.Cache.{IsWritable};
ghost use Rattle.tce_tree.specs.FlatTree.{left_of, right_of};
ghost use Rattle.tce_exec.specs.Slots.{slot_word};
ghost use Rattle.tce_walk.specs.Machine.{IsNodeAt};
ghost use Rattle.tce_exec.specs.Elements.{coordinates_at};
ghost use Rattle.tce_exec.specs.EvaluationSlots.{IsLaid, slot_of, HasSlotAt, HasRoomIn};
ghost use Rattle.tce_exec.specs.Prepared.{IsPrepared, IsStored};
ghost use Rattle.tce_exec.specs.Operands.{IsPlaceOf};
ghost use Rattle.tce_exec.specs.Storages.{work_of, setting_of, Reads, Upholds};
ghost use Rattle.tce_exec.specs.Evaluations.{places_of, shape_of, ReadsNone};
ghost use Rattle.tce_exec.specs.OperandWindows.{IsSlotWindow};
ghost use Rattle.tce_exec.specs.Positions.{IsPosition, numbers_of};
ghost use Rattle.tce_exec.specs.Windows.{AreTensorSteps, AreOperandSteps, ArePlaceSteps, HasPlace, IsTouchedTile, IsOperandWindow, IsPlaceWindow, KeepsLast, HaveSameSteps, AreSumWindows, ArePairWindows};

use crate::evaluation::Evaluation;
use crate::position::Position;
use crate::slot_places::slot_place;
use crate::steps::Windows;
use crate::storage::Storage;
use crate::window::Window;
use tce_outside::{Disk, Failed};
use tce_tree::{Leaf, Operand};
use tce_words::Words;

/// With which operand the left one of a node is paired, and to which node's places the results go.
#[derive(Clone, Copy)]
pub(crate) struct Pairing<'a> {
    pub right: &'a Operand,
    pub out: u8,
}

// Where the word of an inner node at these numbers stands. A slot of one word has it at its beginning.
fn place_in_slot(evaluation: &Evaluation, words: &Words, v: u8, first: &Position) -> u64
    requires laid { IsLaid evaluation.now }
    requires inner { HasSlotAt evaluation.now v (numbers_of first.now) }
    requires room { HasRoomIn evaluation.now words.now }
    ensures { result ≡ slot_word (slot_of evaluation.now v) (numbers_of first.now) }
{
    // The length of the block bounds all places.
    let _len = words.len();
    let slot = &evaluation.layout.0[v as usize];
    if slot.size == 1 {
        return slot.offset;
    }
    slot_place(slot, &first.numbers)
}

// Finds the window of an inner node's slot.
pub(crate) fn node_window(
    evaluation: &Evaluation,
    words: &Words,
    v: u8,
    first: &Position,
    window: &mut Window,
)
    requires laid { IsLaid evaluation.now }
    requires inner { HasSlotAt evaluation.now v (numbers_of first.now) }
    requires steps { window.old.steps ≡ (slot_of evaluation.now v).steps }
    requires room { HasRoomIn evaluation.now words.now }
    ensures { IsSlotWindow (slot_of evaluation.now v) (numbers_of first.now) window.new }
{
    window.first = place_in_slot(evaluation, words, v, first);
}

// Finds the window of the tile in which the element of a tensor at the first turn lies. The tile is touched, with `write` for
// writing.
fn touch_window<D: Disk>(
    evaluation: &Evaluation,
    store: &mut Storage<'_, D>,
    leaf: &Leaf,
    first: &Position,
    write: bool,
    window: &mut Window,
) -> Result<(), Failed>
    requires prepared { IsPrepared (work_of D.files evaluation.now store.old) }
    requires position { IsPosition evaluation.now.space.now first.now }
    requires stored { IsStored (work_of D.files evaluation.now store.old)
        leaf.now.tensor leaf.now.indexes.items }
    requires known { All (λ i. i < max_indexes) leaf.now.indexes.items }
    requires inside { IsInside (shape_of evaluation.now leaf.now).extents
        (coordinates_at leaf.now first.now.numbers) }
    requires writable { IsTrue write → IsWritable store.old.cache.now leaf.now.tensor }
    requires steps { AreTensorSteps (shape_of evaluation.now leaf.now)
        leaf.now.indexes.items window.old.steps }
    requires few { store.old.cache.now.touches + 1 ≤ 2 ^ 100 }
    ensures window { OnOk result (IsTouchedTile 1 store.new.cache.now leaf.now.tensor
        (shape_of evaluation.now leaf.now) leaf.now.indexes.items (numbers_of first.now) write window.new) }
    ensures steps { window.new.steps ≡ window.old.steps }
    ensures last { OnOk result (KeepsLast store.old.cache.now store.new.cache.now) }
    ensures read { OnOk result (Reads 1 D.files evaluation.now store.old store.new) }
    ensures upheld { Upholds D.files D.faults evaluation.now store.old store.new (IsErr result) }
{
    // The length of the block bounds all places.
    let _len = store.words.len();
    let element = first.element(evaluation.space, leaf.indexes.as_slice());
    let at = store
        .cache
        .touch(store.disk, store.words, leaf.tensor, element.tile, write)?;
    window.first = at + element.place;
    Ok(())
}

/// Finds the window of an operand, where the block begins at these numbers. The tile of a tensor is touched.
pub(crate) fn operand_window<D: Disk>(
    evaluation: &Evaluation,
    store: &mut Storage<'_, D>,
    operand: &Operand,
    first: &Position,
    window: &mut Window,
) -> Result<(), Failed>
    requires prepared { IsPrepared (work_of D.files evaluation.now store.old) }
    requires position { IsPosition evaluation.now.space.now first.now }
    requires place { HasPlace (work_of D.files evaluation.now store.old)
        operand.now (numbers_of first.now) }
    requires steps { AreOperandSteps (places_of evaluation.now) operand.now window.old.steps }
    requires few { store.old.cache.now.touches + 1 ≤ 2 ^ 100 }
    ensures window { OnOk result (IsOperandWindow 1 (work_of D.files evaluation.now store.new)
        operand.now (numbers_of first.now) window.new) }
    ensures steps { window.new.steps ≡ window.old.steps }
    ensures last { OnOk result (KeepsLast store.old.cache.now store.new.cache.now) }
    ensures read { OnOk result (Reads 1 D.files evaluation.now store.old store.new) }
    ensures upheld { Upholds D.files D.faults evaluation.now store.old store.new (IsErr result) }
{
    match operand {
        Operand::Leaf(leaf) => touch_window(evaluation, store, leaf, first, false, window),
        Operand::Constant(_) => unreachable!(),
        Operand::Node(v) => {
            node_window(evaluation, store.words, *v, first, window);
            Ok(())
        }
    }
}

/// Finds the window of a node's places, where the block begins at these numbers. For the root a tile of the result is touched
/// for writing.
pub(crate) fn place_window<D: Disk>(
    evaluation: &Evaluation,
    store: &mut Storage<'_, D>,
    v: u8,
    first: &Position,
    window: &mut Window,
) -> Result<(), Failed>
    requires prepared { IsPrepared (work_of D.files evaluation.now store.old) }
    requires position { IsPosition evaluation.now.space.now first.now }
    requires place { IsPlaceOf (work_of D.files evaluation.now store.old) v (numbers_of first.now) }
    requires steps { ArePlaceSteps (places_of evaluation.now) v window.old.steps }
    requires few { store.old.cache.now.touches + 1 ≤ 2 ^ 100 }
    ensures window { OnOk result (IsPlaceWindow 1 (work_of D.files evaluation.now store.new)
        v (numbers_of first.now) window.new) }
    ensures steps { window.new.steps ≡ window.old.steps }
    ensures last { OnOk result (KeepsLast store.old.cache.now store.new.cache.now) }
    ensures read { OnOk result (Reads 1 D.files evaluation.now store.old store.new) }
    ensures upheld { Upholds D.files D.faults evaluation.now store.old store.new (IsErr result) }
{
    let count = evaluation.tree.count();
    if v + 1 == count {
        return touch_window(evaluation, store, evaluation.result, first, true, window);
    }
    node_window(evaluation, store.words, v, first, window);
    Ok(())
}

/// Finds the windows of a sum's operand and of its own places, where the block begins at these numbers.
pub(crate) fn sum_windows<D: Disk>(
    evaluation: &Evaluation,
    store: &mut Storage<'_, D>,
    v: u8,
    first: &Position,
    windows: &mut Windows,
) -> Result<(), Failed>
    requires prepared { IsPrepared (work_of D.files evaluation.now store.old) }
    requires position { IsPosition evaluation.now.space.now first.now }
    requires node { IsNodeAt (setting_of D.files evaluation.now store.old)
        v (numbers_of first.now) }
    requires free { ReadsNone evaluation.now v }
    requires left_steps { AreOperandSteps (places_of evaluation.now)
        (left_of evaluation.now.tree.now v) windows.old.left.steps }
    requires out_steps { ArePlaceSteps (places_of evaluation.now) v windows.old.out.steps }
    requires few { store.old.cache.now.touches + 2 ≤ 2 ^ 100 }
    ensures windows { OnOk result (AreSumWindows (work_of D.files evaluation.now store.new)
        (left_of evaluation.now.tree.now v) v (numbers_of first.now) windows.new) }
    ensures read { OnOk result (Reads 2 D.files evaluation.now store.old store.new) }
    ensures upheld { Upholds D.files D.faults evaluation.now store.old store.new (IsErr result) }
{
    let _nodes = evaluation.tree.count();
    let left = evaluation.tree.left(v);
    operand_window(evaluation, store, left, first, &mut windows.left)?;
    place_window(evaluation, store, v, first, &mut windows.out)
}

/// Finds the windows of both operands of node `v`, and of the places to which the results go, where the block begins at these
/// numbers.
pub(crate) fn pair_windows<D: Disk>(
    evaluation: &Evaluation,
    store: &mut Storage<'_, D>,
    v: u8,
    pairing: &Pairing,
    first: &Position,
    windows: &mut Windows,
) -> Result<(), Failed>
    requires prepared { IsPrepared (work_of D.files evaluation.now store.old) }
    requires position { IsPosition evaluation.now.space.now first.now }
    requires node { IsNodeAt (setting_of D.files evaluation.now store.old)
        v (numbers_of first.now) }
    requires free { ReadsNone evaluation.now v }
    requires right { right_of evaluation.now.tree.now v ≡ Some pairing.now.right.now }
    requires place { IsPlaceOf (work_of D.files evaluation.now store.old)
        pairing.now.out (numbers_of first.now) }
    requires left_steps { AreOperandSteps (places_of evaluation.now)
        (left_of evaluation.now.tree.now v) windows.old.left.steps }
    requires right_steps { AreOperandSteps (places_of evaluation.now)
        pairing.now.right.now windows.old.right.steps }
    requires out_steps { ArePlaceSteps (places_of evaluation.now)
        pairing.now.out windows.old.out.steps }
    requires few { store.old.cache.now.touches + 3 ≤ 2 ^ 100 }
    ensures steps { OnOk result (HaveSameSteps windows.old windows.new) }
    ensures windows { OnOk result (ArePairWindows (work_of D.files evaluation.now store.new)
        (left_of evaluation.now.tree.now v) pairing.now.right.now pairing.now.out (numbers_of first.now) windows.new) }
    ensures read { OnOk result (Reads 3 D.files evaluation.now store.old store.new) }
    ensures upheld { Upholds D.files D.faults evaluation.now store.old store.new (IsErr result) }
{
    let _nodes = evaluation.tree.count();
    let operand = evaluation.tree.left(v);
    operand_window(evaluation, store, operand, first, &mut windows.left)?;
    operand_window(evaluation, store, pairing.right, first, &mut windows.right)?;
    place_window(evaluation, store, pairing.out, first, &mut windows.out)
}
