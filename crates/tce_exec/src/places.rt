// The words of nodes' places, and of operands.
ghost use Rattle.std.specs.Prelude.{◌≡◌, ◌+◌, ◌-◌, ◌<◌, ◌≤◌, ◌^◌, length, slice_index, IfOk, OnOk, IsErr};
ghost use Rattle.tce_tree.specs.ContractionTree.{operations};
ghost use Rattle.tce_exec.specs.Slots.{slot_word};
ghost use Rattle.tce_exec.specs.EvaluationSlots.{IsLaid, slot_of, HasSlotAt, HasRoomIn};
ghost use Rattle.tce_exec.specs.Prepared.{IsPrepared};
ghost use Rattle.tce_exec.specs.Operands.{word_of_node, word_of_operand, IsPlaceOf, IsElementOf, IsReadable};
ghost use Rattle.tce_exec.specs.Storages.{work_of, ForState, Reads, Upholds};

use crate::elements::touch_element;
use crate::evaluation::Evaluation;
use crate::slot_places::slot_place;
use crate::storage::Storage;
use tce_outside::{Disk, Failed};
use tce_space::Numbers;
use tce_tree::{Leaf, Operand};
use tce_words::Words;

// The place of an inner node's word among the words of the run.
pub(crate) fn place_in_slot(evaluation: &Evaluation, words: &Words, v: u8, numbers: &Numbers) -> u64
    requires laid { IsLaid evaluation.now }
    requires inner { HasSlotAt evaluation.now v (slice_index numbers.now) }
    requires room { HasRoomIn evaluation.now words.now }
    ensures value { result ≡ slot_word (slot_of evaluation.now v) (slice_index numbers.now) }
    ensures within { result < length words.now }
{
    // The length of the block bounds all places.
    let _len = words.len();
    slot_place(&evaluation.layout.0[v as usize], numbers)
}

// The word of the root's place at these numbers, which is an element of the result.
fn read_root<D: Disk>(
    evaluation: &Evaluation,
    store: &mut Storage<'_, D>,
    numbers: &Numbers,
) -> Result<u64, Failed>
    requires prepared { IsPrepared (work_of D.files evaluation.now store.old) }
    requires place { IsPlaceOf (work_of D.files evaluation.now store.old)
        (operations evaluation.now.tree.now - 1) (slice_index numbers.now) }
    requires few { store.old.cache.now.touches + 1 ≤ 2 ^ 100 }
    ensures word { IfOk result (λ word. ForState D.files evaluation.now store.old (λ s state.
        word ≡ word_of_node s (operations evaluation.now.tree.now - 1) state (slice_index numbers.now))) }
    ensures read { OnOk result (Reads 1 D.files evaluation.now store.old store.new) }
    ensures upheld { Upholds D.files D.faults evaluation.now store.old store.new (IsErr result) }
{
    let at = touch_element(store, evaluation.result, numbers, false)?;
    Ok(store.words.get(at))
}

// The word of a node's place at these numbers.
pub(crate) fn read_place<D: Disk>(
    evaluation: &Evaluation,
    store: &mut Storage<'_, D>,
    v: u8,
    numbers: &Numbers,
) -> Result<u64, Failed>
    requires prepared { IsPrepared (work_of D.files evaluation.now store.old) }
    requires place { IsPlaceOf (work_of D.files evaluation.now store.old)
        v (slice_index numbers.now) }
    requires few { store.old.cache.now.touches + 1 ≤ 2 ^ 100 }
    ensures word { IfOk result (λ word. ForState D.files evaluation.now store.old (λ s state.
        word ≡ word_of_node s v state (slice_index numbers.now))) }
    ensures read { OnOk result (Reads 1 D.files evaluation.now store.old store.new) }
    ensures upheld { Upholds D.files D.faults evaluation.now store.old store.new (IsErr result) }
{
    let count = evaluation.tree.count();
    if v + 1 == count {
        return read_root(evaluation, store, numbers);
    }
    let at = place_in_slot(evaluation, store.words, v, numbers);
    Ok(store.words.get(at))
}

// The element of an operand at these numbers.
fn read_leaf<D: Disk>(
    evaluation: &Evaluation,
    store: &mut Storage<'_, D>,
    leaf: &Leaf,
    numbers: &Numbers,
) -> Result<u64, Failed>
    requires prepared { IsPrepared (work_of D.files evaluation.now store.old) }
    requires element { IsElementOf (work_of D.files evaluation.now store.old)
        leaf.now (slice_index numbers.now) }
    requires few { store.old.cache.now.touches + 1 ≤ 2 ^ 100 }
    ensures word { IfOk result (λ word. ForState D.files evaluation.now store.old (λ s state.
        word ≡ word_of_operand s (Operand.Leaf leaf.now) state (slice_index numbers.now))) }
    ensures read { OnOk result (Reads 1 D.files evaluation.now store.old store.new) }
    ensures upheld { Upholds D.files D.faults evaluation.now store.old store.new (IsErr result) }
{
    let at = touch_element(store, leaf, numbers, false)?;
    // All words are below 2^64.
    let _len = store.words.len();
    Ok(store.words.get(at))
}

/// The word of an operand at these numbers.
pub(crate) fn read_operand<D: Disk>(
    evaluation: &Evaluation,
    store: &mut Storage<'_, D>,
    operand: &Operand,
    numbers: &Numbers,
) -> Result<u64, Failed>
    requires prepared { IsPrepared (work_of D.files evaluation.now store.old) }
    requires readable { IsReadable (work_of D.files evaluation.now store.old)
        operand.now (slice_index numbers.now) }
    requires few { store.old.cache.now.touches + 1 ≤ 2 ^ 100 }
    ensures word { IfOk result (λ word. ForState D.files evaluation.now store.old (λ s state.
        word ≡ word_of_operand s operand.now state (slice_index numbers.now))) }
    ensures read { OnOk result (Reads 1 D.files evaluation.now store.old store.new) }
    ensures upheld { Upholds D.files D.faults evaluation.now store.old store.new (IsErr result) }
{
    match operand {
        Operand::Leaf(leaf) => read_leaf(evaluation, store, leaf, numbers),
        Operand::Constant(number) => {
            let word = *number;
            Ok(word)
        }
        Operand::Node(v) => read_place(evaluation, store, *v, numbers),
    }
}
