// Bodies at the assignments of one block of the loops round them.
ghost use Rattle.std.specs.Prelude.{◌≡◌, ◌+◌, ◌*◌, ◌<◌, ◌≤◌, ◌^◌, length, slice_index, All, OnOk, IsErr};
ghost use Rattle.tce_block.specs.Cuts.{part_of};
ghost use Rattle.tce_code.specs.Execution.{exec};
ghost use Rattle.tce_code.specs.Program.{program_of};
ghost use Rattle.tce_walk.specs.Bodies.{touches_of_body, IsBodyAt};
ghost use Rattle.tce_walk.specs.Machine.{assignment_of};
ghost use Rattle.tce_walk.specs.PartRuns.{exec_part};
ghost use Rattle.tce_exec.specs.Links.{IsBegun};
ghost use Rattle.tce_exec.specs.Positions.{IsPosition};
ghost use Rattle.tce_exec.specs.Prepared.{IsPrepared};
ghost use Rattle.tce_exec.specs.Storages.{work_of, setting_of, Changes, Upholds};
ghost use Rattle.tce_exec.specs.TileCounts.{tile_count};
ghost use Rattle.tce_exec.specs.Bodies.{after_from, touches_from, IsBodyFrom, IsOperationAt};

use crate::chain::{RowBlock, turn_loops};
use crate::evaluation::Evaluation;
use crate::links::{MAX_LINKS, find_links, node_of, tiles_of};
use crate::merging::{Row, longest_row};
use crate::operation::operate;
use crate::position::Position;
use crate::storage::Storage;
use arrayvec::ArrayVec;
use tce_block::Block;
use tce_code::Op;
use tce_outside::{Disk, Failed};
use tce_space::Numbers;
use tce_walk::Body;

/// One block of the loops round a body: the loops, their first numbers and how many they have, and the body's operations.
#[derive(Clone, Copy)]
pub(crate) struct BodyBlock<'a> {
    pub loops: &'a [u8],
    pub from: &'a [u64],
    pub len: &'a [u64],
    pub ops: &'a [Op],
}

// Does the operations of a body at one assignment, one after the other.
fn run_once<D: Disk>(
    evaluation: &Evaluation,
    store: &mut Storage<'_, D>,
    ops: &[Op],
    numbers: &Numbers,
) -> Result<(), Failed>
    requires prepared { IsPrepared (work_of D.files evaluation.now store.old) }
    requires ops { All (IsOperationAt (setting_of D.files evaluation.now store.old) (assignment_of numbers.now)) ops.now }
    requires few { store.old.cache.now.touches + 3 * length ops.now ≤ 2 ^ 100 }
    ensures changed { OnOk result (Changes (λ state. exec (setting_of D.files evaluation.now store.old)
        (program_of ops.now) state (assignment_of numbers.now)) (3 * length ops.now) D.files evaluation.now store.old store.new) }
    ensures upheld { Upholds D.files D.faults evaluation.now store.old store.new (IsErr result) }
{
    let _nodes = evaluation.tree.count();
    for op in ops {
        operate(evaluation, store, node_of(*op), numbers)?;
    }
    Ok(())
}

// Runs the loops of a block from one of them on, at the numbers of those before.
fn run_loops<D: Disk>(
    evaluation: &Evaluation,
    store: &mut Storage<'_, D>,
    at: &BodyBlock,
    depth: usize,
    numbers: &mut Numbers,
) -> Result<(), Failed>
    requires depth { depth ≤ length at.now.loops.now }
    requires prepared { IsPrepared (work_of D.files evaluation.now store.old) }
    requires body { IsBodyFrom D.files evaluation.now store.old at.now depth numbers.old }
    requires few { store.old.cache.now.touches + touches_from at.now depth ≤ 2 ^ 100 }
    ensures changed { OnOk result (Changes (after_from D.files evaluation.now store.old at.now depth numbers.old)
        (touches_from at.now depth) D.files evaluation.now store.old store.new) }
    ensures numbers { OnOk result (numbers.new ≡ numbers.old) }
    ensures upheld { Upholds D.files D.faults evaluation.now store.old store.new (IsErr result) }
{
    let _indexes = evaluation.space.index_count();
    if depth == at.loops.len() {
        return run_once(evaluation, store, at.ops, numbers);
    }
    let i = at.loops[depth] as usize;
    let first = at.from[depth];
    let before = numbers[i];
    for x in 0..at.len[depth] {
        numbers[i] = first + x;
        run_loops(evaluation, store, at, depth + 1, numbers)?;
    }
    numbers[i] = before;
    Ok(())
}

// Runs a block over windows, from its first numbers on. There is a frame for each tile that its operations touch.
fn run_held<D: Disk>(
    evaluation: &Evaluation,
    store: &mut Storage<'_, D>,
    at: &BodyBlock,
    first: &Position,
) -> Result<(), Failed>
    requires prepared { IsPrepared (work_of D.files evaluation.now store.old) }
    requires position { IsPosition evaluation.now.space.now first.now }
    requires begun { IsBegun (setting_of D.files evaluation.now store.old)
        evaluation.now.space.now at.now first.now.numbers }
    requires frames { tile_count evaluation.now.tree.now at.now.ops.now ≤ store.old.cache.now.frames }
    requires room { length at.now.ops.now ≤ 8 }
    requires loops { 0 < length at.now.loops.now }
    requires few { store.old.cache.now.touches + touches_from at.now 0 ≤ 2 ^ 100 }
    ensures changed { OnOk result (Changes (after_from D.files evaluation.now store.old at.now 0 first.now.numbers)
        (touches_from at.now 0) D.files evaluation.now store.old store.new) }
    ensures upheld { Upholds D.files D.faults evaluation.now store.old store.new (IsErr result) }
{
    let mut links = ArrayVec::new();
    find_links(evaluation, store, at.ops, first, &mut links)?;
    let links = links.as_mut_slice();
    let depth = at.loops.len() - 1;
    let alone = Row {
        depth,
        count: at.len[depth],
    };
    let rows = RowBlock {
        at: *at,
        row: longest_row(at, links, alone),
    };
    let mut numbers = first.numbers;
    turn_loops(evaluation, store, &rows, links, 0, &mut numbers);
    Ok(())
}

/// Runs a body at each assignment of one block of the loops round it. `numbers` has the numbers of all other loops.
///
/// Where the cache has a frame for each tile that the operations touch, each is touched once, and the operations run over
/// their words. `position` says where a block before began.
pub(crate) fn run_body<D: Disk>(
    evaluation: &Evaluation,
    store: &mut Storage<'_, D>,
    body: &Body<'_>,
    block: &Block,
    numbers: &Numbers,
    position: &mut Position,
) -> Result<(), Failed>
    requires prepared { IsPrepared (work_of D.files evaluation.now store.old) }
    requires position { IsPosition evaluation.now.space.now position.old }
    requires body { IsBodyAt evaluation.now.space.now (setting_of D.files evaluation.now store.old)
        body.now.loops.now body.now.ops.now (part_of block.now) (assignment_of numbers.now) }
    requires few { store.old.cache.now.touches + touches_of_body body.now.ops.now (part_of block.now) ≤ 2 ^ 100 }
    ensures changed { OnOk result (Changes (λ state. exec_part (setting_of D.files evaluation.now store.old)
        (program_of body.now.ops.now) body.now.loops.now (part_of block.now) state (assignment_of numbers.now))
        (touches_of_body body.now.ops.now (part_of block.now)) D.files evaluation.now store.old store.new) }
    ensures position { IsPosition evaluation.now.space.now position.new }
    ensures upheld { Upholds D.files D.faults evaluation.now store.old store.new (IsErr result) }
{
    let _indexes = evaluation.space.index_count();
    let from = block.from.as_slice();
    let len = block.len.as_slice();
    let at = BodyBlock {
        loops: body.loops,
        from,
        len,
        ops: body.ops,
    };
    let _nodes = evaluation.tree.count();
    let short = at.ops.len() <= MAX_LINKS && !at.loops.is_empty();
    if short && tiles_of(evaluation, at.ops) <= store.cache.frames() {
        position.go_to(evaluation.space, numbers);
        position.begin(evaluation.space, body.loops, from);
        return run_held(evaluation, store, &at, position);
    }
    let mut own = *numbers;
    run_loops(evaluation, store, &at, 0, &mut own)
}
