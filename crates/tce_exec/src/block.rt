// One block of a tail.
ghost use Rattle.std.specs.Prelude.{◌≡◌, ◌≢◌, ◌+◌, ◌≤◌, ◌^◌, ℕ, OnOk, IsErr, Some, None};
ghost use Rattle.tce_tree.specs.FlatTree.{right_of};
ghost use Rattle.tce_block.specs.Turns.{operate};
ghost use Rattle.tce_exec.specs.Prepared.{IsPrepared};
ghost use Rattle.tce_exec.specs.Operands.{combined};
ghost use Rattle.tce_exec.specs.Storages.{work_of, Changes, Upholds};
ghost use Rattle.tce_exec.specs.Blocks.{IsBlockOf};
ghost use Rattle.tce_exec.specs.Evaluations.{places_of};
ghost use Rattle.tce_exec.specs.Plans.{IsNest};
ghost use Rattle.tce_exec.specs.Positions.{IsPosition, numbers_of};
ghost use Rattle.tce_exec.specs.TailBlocks.{part_in, first_in, after_block, IsInTail, KeepsAround, StandsAt};

use crate::evaluation::Evaluation;
use crate::operand_windows::{Pairing, node_window, pair_windows, sum_windows};
use crate::plan::Nest;
use crate::position::Position;
use crate::storage::Storage;
use crate::turns::{TailBlock, begin_block, compute_turns, grow_turns, join_turns};
use tce_outside::{Disk, Failed};
use tce_space::Arithmetic;
use tce_tree::{Kind, Operand};

// What a node with two operands computes.
fn operation_of(kind: Kind) -> Arithmetic
    requires { kind ≢ Kind.Sum }
    ensures { (x y : ℕ) → operate result x y ≡ combined kind x y }
{
    match kind {
        Kind::Product => Arithmetic::Multiply,
        Kind::Sum => unreachable!(),
        Kind::Add => Arithmetic::Add,
        Kind::Sub => Arithmetic::Subtract,
    }
}

// A block of a sum's loops. It stands apart, so that one of a joined product, of which most are small, is short.
#[inline(never)]
fn run_sum<D: Disk>(
    evaluation: &Evaluation,
    store: &mut Storage<'_, D>,
    at: &TailBlock,
    first: &Position,
    nest: &mut Nest,
) -> Result<(), Failed>
    requires at { StandsAt D.files evaluation.now store.old at.now }
    requires position { IsPosition evaluation.now.space.now first.now }
    requires sum { right_of evaluation.now.tree.now at.now.tail.now.node ≡ None }
    requires few { store.old.cache.now.touches + 3 ≤ 2 ^ 100 }
    requires first { numbers_of first.now ≡ first_in at.now }
    requires nest { IsNest (places_of evaluation.now) at.now.tail.now nest.old }
    ensures changed { OnOk result (Changes (after_block D.files evaluation.now store.old at.now) 3
        D.files evaluation.now store.old store.new) }
    ensures nest { OnOk result (IsNest (places_of evaluation.now) at.now.tail.now nest.new) }
    ensures upheld { Upholds D.files D.faults evaluation.now store.old store.new (IsErr result) }
{
    sum_windows(evaluation, store, at.tail.node, first, &mut nest.windows)?;
    // All words are below 2^64.
    let _len = store.words.len();
    grow_turns(store.words, &mut nest.sequence, at, &nest.windows);
    Ok(())
}

// A block of the loops of a node with two operands, which stands apart as that of a sum does.
#[inline(never)]
fn run_pair<D: Disk>(
    evaluation: &Evaluation,
    store: &mut Storage<'_, D>,
    at: &TailBlock,
    right: &Operand,
    first: &Position,
    nest: &mut Nest,
) -> Result<(), Failed>
    requires at { StandsAt D.files evaluation.now store.old at.now }
    requires position { IsPosition evaluation.now.space.now first.now }
    requires right { right_of evaluation.now.tree.now at.now.tail.now.node ≡ Some right.now }
    requires alone { at.now.tail.now.sum ≡ None }
    requires few { store.old.cache.now.touches + 3 ≤ 2 ^ 100 }
    requires first { numbers_of first.now ≡ first_in at.now }
    requires nest { IsNest (places_of evaluation.now) at.now.tail.now nest.old }
    ensures changed { OnOk result (Changes (after_block D.files evaluation.now store.old at.now) 3
        D.files evaluation.now store.old store.new) }
    ensures nest { OnOk result (IsNest (places_of evaluation.now) at.now.tail.now nest.new) }
    ensures upheld { Upholds D.files D.faults evaluation.now store.old store.new (IsErr result) }
{
    let node = at.tail.node;
    let pairing = Pairing { right, out: node };
    pair_windows(evaluation, store, node, &pairing, first, &mut nest.windows)?;
    // All words are below 2^64.
    let _len = store.words.len();
    let operation = operation_of(evaluation.tree.kind(node));
    let windows = &nest.windows;
    compute_turns(
        store.words,
        operation,
        &mut nest.sequence,
        at,
        &windows.out,
        windows,
    );
    Ok(())
}

// A block of the loops of a product and of the sum that takes it, to whose places the results go.
fn run_joined<D: Disk>(
    evaluation: &Evaluation,
    store: &mut Storage<'_, D>,
    at: &TailBlock,
    pairing: &Pairing,
    first: &Position,
    nest: &mut Nest,
) -> Result<(), Failed>
    requires at { StandsAt D.files evaluation.now store.old at.now }
    requires position { IsPosition evaluation.now.space.now first.now }
    requires right { right_of evaluation.now.tree.now at.now.tail.now.node
        ≡ Some pairing.now.right.now }
    requires joined { at.now.tail.now.sum ≡ Some pairing.now.out }
    requires few { store.old.cache.now.touches + 3 ≤ 2 ^ 100 }
    requires first { numbers_of first.now ≡ first_in at.now }
    requires nest { IsNest (places_of evaluation.now) at.now.tail.now nest.old }
    ensures changed { OnOk result (Changes (after_block D.files evaluation.now store.old at.now) 3
        D.files evaluation.now store.old store.new) }
    ensures nest { OnOk result (IsNest (places_of evaluation.now) at.now.tail.now nest.new) }
    ensures upheld { Upholds D.files D.faults evaluation.now store.old store.new (IsErr result) }
{
    let node = at.tail.node;
    pair_windows(evaluation, store, node, pairing, first, &mut nest.windows)?;
    node_window(evaluation, store.words, node, first, &mut nest.windows.own);
    // All words are below 2^64.
    let _len = store.words.len();
    join_turns(store.words, &mut nest.sequence, at, &nest.windows);
    Ok(())
}

// A block whose first numbers stand.
fn run_begun<D: Disk>(
    evaluation: &Evaluation,
    store: &mut Storage<'_, D>,
    at: &TailBlock,
    first: &Position,
    nest: &mut Nest,
) -> Result<(), Failed>
    requires at { StandsAt D.files evaluation.now store.old at.now }
    requires position { IsPosition evaluation.now.space.now first.now }
    requires few { store.old.cache.now.touches + 3 ≤ 2 ^ 100 }
    requires first { numbers_of first.now ≡ first_in at.now }
    requires nest { IsNest (places_of evaluation.now) at.now.tail.now nest.old }
    ensures changed { OnOk result (Changes (after_block D.files evaluation.now store.old at.now) 3
        D.files evaluation.now store.old store.new) }
    ensures nest { OnOk result (IsNest (places_of evaluation.now) at.now.tail.now nest.new) }
    ensures upheld { Upholds D.files D.faults evaluation.now store.old store.new (IsErr result) }
{
    let _nodes = evaluation.tree.count();
    let Some(right) = evaluation.tree.right(at.tail.node) else {
        return run_sum(evaluation, store, at, first, nest);
    };
    match at.tail.sum {
        None => run_pair(evaluation, store, at, right, first, nest),
        Some(sum) => {
            let pairing = Pairing { right, out: sum };
            run_joined(evaluation, store, at, &pairing, first, nest)
        }
    }
}

/// Runs one block of a tail, with at most three touches. Where the windows began before does not matter.
pub(crate) fn run_block<D: Disk>(
    evaluation: &Evaluation,
    store: &mut Storage<'_, D>,
    at: &TailBlock,
    first: &mut Position,
    nest: &mut Nest,
) -> Result<(), Failed>
    requires prepared { IsPrepared (work_of D.files evaluation.now store.old) }
    requires position { IsPosition evaluation.now.space.now first.old }
    requires tail { IsInTail D.files evaluation.now store.old at.now }
    requires block { IsBlockOf evaluation.now.space.now at.now.tail.now (part_in at.now) }
    requires few { store.old.cache.now.touches + 3 ≤ 2 ^ 100 }
    requires others { KeepsAround at.now (numbers_of first.old) }
    requires nest { IsNest (places_of evaluation.now) at.now.tail.now nest.old }
    ensures changed { OnOk result (Changes (after_block D.files evaluation.now store.old at.now) 3
        D.files evaluation.now store.old store.new) }
    ensures nest { OnOk result (IsNest (places_of evaluation.now) at.now.tail.now nest.new) }
    ensures others { KeepsAround at.now (numbers_of first.new) }
    ensures position { IsPosition evaluation.now.space.now first.new }
    ensures upheld { Upholds D.files D.faults evaluation.now store.old store.new (IsErr result) }
{
    let _indexes = evaluation.space.index_count();
    let _nodes = evaluation.tree.count();
    begin_block(evaluation.space, first, at.tail, at.block);
    run_begun(evaluation, store, at, first, nest)
}
