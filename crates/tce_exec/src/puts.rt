// Words that are put at nodes' places.
ghost use Rattle.std.specs.Prelude.{◌≡◌, ◌+◌, ◌-◌, ◌<◌, ◌≤◌, ◌^◌, ℕ, Option, length, slice_index, OnOk, IsErr};
ghost use Rattle.tce_outside.specs.Files.{Files};
ghost use Rattle.tce_cache.specs.Cache.{State as CacheState};
ghost use Rattle.tce_tree.specs.ContractionTree.{operations};
ghost use Rattle.tce_tree.specs.Fusion.{kept_dims};
ghost use Rattle.tce_code.specs.Execution.{with_word, cleared, coordinates};
ghost use Rattle.tce_exec.specs.Workspace.{workspace};
ghost use Rattle.tce_exec.specs.EvaluationSlots.{IsLaid, HasRoomIn};
ghost use Rattle.tce_exec.specs.Prepared.{IsPrepared};
ghost use Rattle.tce_exec.specs.Operands.{IsPlaceOf};
ghost use Rattle.tce_exec.specs.Steps.{IsKept, IsChanged};
ghost use Rattle.tce_exec.specs.Storages.{work_of, Changes, Upholds};

use crate::elements::touch_element;
use crate::evaluation::Evaluation;
use crate::places::place_in_slot;
use crate::storage::Storage;
use tce_outside::{Disk, Failed};
use tce_space::Numbers;
use tce_words::Words;

// Puts a word at the root's place at these numbers, which is an element of the result.
fn put_root<D: Disk>(
    evaluation: &Evaluation,
    store: &mut Storage<'_, D>,
    numbers: &Numbers,
    word: u64,
) -> Result<(), Failed>
    requires prepared { IsPrepared (work_of D.files evaluation.now store.old) }
    requires place { IsPlaceOf (work_of D.files evaluation.now store.old)
        (operations evaluation.now.tree.now - 1) (slice_index numbers.now) }
    requires few { store.old.cache.now.touches + 1 ≤ 2 ^ 100 }
    ensures changed { OnOk result (Changes (λ state.
        with_word state (operations evaluation.now.tree.now - 1) (coordinates (kept_dims evaluation.now.tree.now evaluation.now.fusion.now.0.items (operations evaluation.now.tree.now - 1)) (slice_index numbers.now)) word)
        1 D.files evaluation.now store.old store.new) }
    ensures upheld { Upholds D.files D.faults evaluation.now store.old store.new (IsErr result) }
{
    let at = touch_element(store, evaluation.result, numbers, true)?;
    store.words.put(at, word);
    Ok(())
}

/// Puts a word at a node's place at these numbers.
pub(crate) fn put_place<D: Disk>(
    evaluation: &Evaluation,
    store: &mut Storage<'_, D>,
    v: u8,
    numbers: &Numbers,
    word: u64,
) -> Result<(), Failed>
    requires prepared { IsPrepared (work_of D.files evaluation.now store.old) }
    requires place { IsPlaceOf (work_of D.files evaluation.now store.old)
        v (slice_index numbers.now) }
    requires few { store.old.cache.now.touches + 1 ≤ 2 ^ 100 }
    ensures changed { OnOk result (Changes (λ state. with_word state v
        (coordinates (kept_dims evaluation.now.tree.now evaluation.now.fusion.now.0.items v) (slice_index numbers.now)) word)
        1 D.files evaluation.now store.old store.new) }
    ensures upheld { Upholds D.files D.faults evaluation.now store.old store.new (IsErr result) }
{
    let count = evaluation.tree.count();
    if v + 1 == count {
        return put_root(evaluation, store, numbers, word);
    }
    let at = place_in_slot(evaluation, store.words, v, numbers);
    store.words.put(at, word);
    Ok(())
}

/// Makes all words of an inner node's slot 0.
pub fn clear_slot(evaluation: &Evaluation, words: &mut Words, v: u8)
    requires laid { IsLaid evaluation.now }
    requires inner { v + 1 < operations evaluation.now.tree.now }
    requires room { HasRoomIn evaluation.now words.old }
    ensures changed { (cache : CacheState) (files : Option Files)
        → IsPrepared (workspace evaluation.now words.old cache files) → IsChanged (λ state. cleared state v) 0 (workspace evaluation.now words.old cache files) (workspace evaluation.now words.new cache files) }
    ensures kept { (cache : CacheState) (files : Option Files)
        → IsKept (workspace evaluation.now words.old cache files) (workspace evaluation.now words.new cache files) }
{
    let slot = &evaluation.layout.0[v as usize];
    words.fill_zero(slot.offset, slot.size);
}
