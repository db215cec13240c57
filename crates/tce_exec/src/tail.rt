// Whole tails.
ghost use Rattle.std.specs.Prelude.{◌≡◌, ◌+◌, ◌≤◌, ◌^◌, slice_index, OnOk, IsErr, IsTrue};
ghost use Rattle.tce_walk.specs.Machine.{assignment_of, touches_of_tail, IsTailAt};
ghost use Rattle.tce_exec.specs.Prepared.{IsPrepared};
ghost use Rattle.tce_exec.specs.Storages.{work_of, setting_of, Changes, Upholds};
ghost use Rattle.tce_exec.specs.Evaluations.{places_of};
ghost use Rattle.tce_exec.specs.Positions.{IsPosition};
ghost use Rattle.tce_exec.specs.Plans.{IsPlanFor, AreKept};
ghost use Rattle.tce_exec.specs.TailBlocks.{after_tail};

use crate::block::run_block;
use crate::evaluation::Evaluation;
use crate::plan::{Kept, Plan};
use crate::position::Position;
use crate::storage::Storage;
use crate::turns::TailBlock;
use tce_outside::{Disk, Failed};
use tce_space::Numbers;
use tce_walk::Tail;

// Runs the blocks of a tail that has all of them in a list.
fn run_listed<D: Disk>(
    evaluation: &Evaluation,
    store: &mut Storage<'_, D>,
    tail: &Tail,
    numbers: &Numbers,
    first: &mut Position,
    plan: &mut Plan,
) -> Result<(), Failed>
    requires prepared { IsPrepared (work_of D.files evaluation.now store.old) }
    requires tail { IsTailAt (setting_of D.files evaluation.now store.old)
        tail.now (assignment_of numbers.now) }
    requires touches { store.old.cache.now.touches
        + touches_of_tail evaluation.now.space.now tail.now ≤ 2 ^ 100 }
    requires position { IsPosition evaluation.now.space.now first.old }
    requires outside { slice_index first.old.numbers ≡ slice_index numbers.now }
    requires few { IsTrue plan.old.few }
    requires plan { IsPlanFor (places_of evaluation.now) tail.now plan.old }
    ensures changed { OnOk result (Changes
        (after_tail D.files evaluation.now store.old tail.now numbers.now) (touches_of_tail evaluation.now.space.now tail.now) D.files evaluation.now store.old store.new) }
    ensures position { OnOk result (IsPosition evaluation.now.space.now first.new) }
    ensures plan { OnOk result (IsPlanFor (places_of evaluation.now) tail.now plan.new) }
    ensures upheld { Upholds D.files D.faults evaluation.now store.old store.new (IsErr result) }
{
    // The limits of spaces, trees and words.
    let _indexes = evaluation.space.index_count();
    let _nodes = evaluation.tree.count();
    let _len = store.words.len();
    for k in 0..plan.list.len() {
        let at = TailBlock {
            tail,
            numbers,
            block: &plan.list[k],
        };
        run_block(evaluation, store, &at, first, &mut plan.nest)?;
    }
    Ok(())
}

// Runs the blocks of a tail, from the numbers of the loops round it on.
fn run_blocks<D: Disk>(
    evaluation: &Evaluation,
    store: &mut Storage<'_, D>,
    tail: &Tail,
    numbers: &Numbers,
    first: &mut Position,
    plan: &mut Plan,
) -> Result<(), Failed>
    requires prepared { IsPrepared (work_of D.files evaluation.now store.old) }
    requires tail { IsTailAt (setting_of D.files evaluation.now store.old)
        tail.now (assignment_of numbers.now) }
    requires few { store.old.cache.now.touches
        + touches_of_tail evaluation.now.space.now tail.now ≤ 2 ^ 100 }
    requires position { IsPosition evaluation.now.space.now first.old }
    requires outside { slice_index first.old.numbers ≡ slice_index numbers.now }
    requires plan { IsPlanFor (places_of evaluation.now) tail.now plan.old }
    ensures changed { OnOk result (Changes
        (after_tail D.files evaluation.now store.old tail.now numbers.now) (touches_of_tail evaluation.now.space.now tail.now) D.files evaluation.now store.old store.new) }
    ensures position { OnOk result (IsPosition evaluation.now.space.now first.new) }
    ensures plan { OnOk result (IsPlanFor (places_of evaluation.now) tail.now plan.new) }
    ensures upheld { Upholds D.files D.faults evaluation.now store.old store.new (IsErr result) }
{
    // The limits of spaces, trees and words.
    let _indexes = evaluation.space.index_count();
    let _nodes = evaluation.tree.count();
    let _len = store.words.len();
    if plan.few {
        return run_listed(evaluation, store, tail, numbers, first, plan);
    }
    plan.blocks.restart(&plan.cuts);
    while plan.blocks.next_in(&mut plan.block) {
        let at = TailBlock {
            tail,
            numbers,
            block: &plan.block,
        };
        run_block(evaluation, store, &at, first, &mut plan.nest)?;
    }
    Ok(())
}

/// Runs a whole tail at the numbers of the loops round it, with at most three touches for each block of its loops.
///
/// The blocks are those into which the edges of the loops' ranges cut them.
pub(crate) fn run_tail<D: Disk>(
    evaluation: &Evaluation,
    store: &mut Storage<'_, D>,
    tail: &Tail,
    numbers: &Numbers,
    kept: &mut Kept,
) -> Result<(), Failed>
    requires prepared { IsPrepared (work_of D.files evaluation.now store.old) }
    requires tail { IsTailAt (setting_of D.files evaluation.now store.old)
        tail.now (assignment_of numbers.now) }
    requires few { store.old.cache.now.touches
        + touches_of_tail evaluation.now.space.now tail.now ≤ 2 ^ 100 }
    requires right { AreKept (places_of evaluation.now) kept.old }
    ensures changed { OnOk result (Changes
        (after_tail D.files evaluation.now store.old tail.now numbers.now) (touches_of_tail evaluation.now.space.now tail.now) D.files evaluation.now store.old store.new) }
    ensures right { OnOk result (AreKept (places_of evaluation.now) kept.new) }
    ensures upheld { Upholds D.files D.faults evaluation.now store.old store.new (IsErr result) }
{
    let _indexes = evaluation.space.index_count();
    let _nodes = evaluation.tree.count();
    let plan = &mut kept.plans[(tail.node % 8) as usize];
    plan.turn_to(evaluation, store.cache, tail);
    kept.position.go_to(evaluation.space, numbers);
    run_blocks(evaluation, store, tail, numbers, &mut kept.position, plan)?;
    Ok(())
}
