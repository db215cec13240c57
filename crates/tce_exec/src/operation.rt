// Single operations.
ghost use Rattle.std.specs.Prelude.{◌≡◌, ◌+◌, ◌≤◌, ◌^◌, slice_index, IfOk, OnOk, IsErr};
ghost use Rattle.tce_tree.specs.FlatTree.{right_of};
ghost use Rattle.tce_code.specs.Execution.{exec};
ghost use Rattle.tce_walk.specs.Machine.{operation_of_node, IsNodeAt};
ghost use Rattle.tce_exec.specs.Prepared.{IsPrepared};
ghost use Rattle.tce_exec.specs.Operands.{combined, second_word, word_of_operation};
ghost use Rattle.tce_exec.specs.Storages.{work_of, setting_of, ForState, Reads, Changes, Upholds};

use crate::evaluation::Evaluation;
use crate::places::{read_operand, read_place};
use crate::puts::put_place;
use crate::storage::Storage;
use tce_outside::{Disk, Failed};
use tce_space::Numbers;
use tce_tree::Kind;

// What a node of this kind makes of two words; a sum adds the first to the second.
pub(crate) fn combine(kind: Kind, first: u64, second: u64) -> u64
    ensures { result ≡ combined kind first second }
{
    match kind {
        Kind::Product => first.wrapping_mul(second),
        Kind::Sum => second.wrapping_add(first),
        Kind::Add => first.wrapping_add(second),
        Kind::Sub => first.wrapping_sub(second),
    }
}

// The word of a node's right operand, or of a sum its own.
fn read_second<D: Disk>(
    evaluation: &Evaluation,
    store: &mut Storage<'_, D>,
    v: u8,
    numbers: &Numbers,
) -> Result<u64, Failed>
    requires prepared { IsPrepared (work_of D.files evaluation.now store.old) }
    requires node { IsNodeAt (setting_of D.files evaluation.now store.old)
        v (slice_index numbers.now) }
    requires few { store.old.cache.now.touches + 1 ≤ 2 ^ 100 }
    ensures word { IfOk result (λ word. ForState D.files evaluation.now store.old (λ s state.
        word ≡ second_word s v (right_of evaluation.now.tree.now v) state (slice_index numbers.now))) }
    ensures read { OnOk result (Reads 1 D.files evaluation.now store.old store.new) }
    ensures upheld { Upholds D.files D.faults evaluation.now store.old store.new (IsErr result) }
{
    let _nodes = evaluation.tree.count();
    match evaluation.tree.right(v) {
        Some(operand) => read_operand(evaluation, store, operand, numbers),
        None => read_place(evaluation, store, v, numbers),
    }
}

// The word that the operation of a node puts at its place.
fn read_operation<D: Disk>(
    evaluation: &Evaluation,
    store: &mut Storage<'_, D>,
    v: u8,
    numbers: &Numbers,
) -> Result<u64, Failed>
    requires prepared { IsPrepared (work_of D.files evaluation.now store.old) }
    requires node { IsNodeAt (setting_of D.files evaluation.now store.old)
        v (slice_index numbers.now) }
    requires few { store.old.cache.now.touches + 2 ≤ 2 ^ 100 }
    ensures word { IfOk result (λ word. ForState D.files evaluation.now store.old (λ s state.
        word ≡ word_of_operation s v state (slice_index numbers.now))) }
    ensures read { OnOk result (Reads 2 D.files evaluation.now store.old store.new) }
    ensures upheld { Upholds D.files D.faults evaluation.now store.old store.new (IsErr result) }
{
    let _nodes = evaluation.tree.count();
    let operand = evaluation.tree.left(v);
    let first = read_operand(evaluation, store, operand, numbers)?;
    let second = read_second(evaluation, store, v, numbers)?;
    Ok(combine(evaluation.tree.kind(v), first, second))
}

/// Does the operation of one node at the numbers of its loops, with at most three touches.
pub fn operate<D: Disk>(
    evaluation: &Evaluation,
    store: &mut Storage<'_, D>,
    v: u8,
    numbers: &Numbers,
) -> Result<(), Failed>
    requires prepared { IsPrepared (work_of D.files evaluation.now store.old) }
    requires node { IsNodeAt (setting_of D.files evaluation.now store.old)
        v (slice_index numbers.now) }
    requires few { store.old.cache.now.touches + 3 ≤ 2 ^ 100 }
    ensures changed { OnOk result (Changes (λ state. exec
        (setting_of D.files evaluation.now store.old) (operation_of_node evaluation.now.tree.now v) state (slice_index numbers.now)) 3 D.files evaluation.now store.old store.new) }
    ensures upheld { Upholds D.files D.faults evaluation.now store.old store.new (IsErr result) }
{
    let word = read_operation(evaluation, store, v, numbers)?;
    put_place(evaluation, store, v, numbers, word)
}
