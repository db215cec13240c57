// Runs loop code from position to position.
ghost use Rattle.std.specs.Prelude.{◌≡◌, ◌+◌, ◌<◌, ◌≤◌, ◌^◌, drop, length, IfOk, OnOk, IsErr};
ghost use Rattle.tce_code.specs.Program.{program_of};
ghost use Rattle.tce_space.specs.Space.{extent_at};
ghost use Rattle.tce_walk.specs.Touches.{touch_bound};
ghost use Rattle.tce_walk.specs.Machine.{assignment_of, after, Upholds};
ghost use Rattle.tce_walk.specs.Opened.{loop_at};
ghost use Rattle.tce_walk.specs.Positions.{program_at, IsPlain, plain_program};
ghost use Rattle.tce_walk.specs.Run.{zeros, IsCodeOf, RunsOver, AreKept, IsPart, IsRun, IsEnd};
ghost use Rattle.tce_walk.specs.Search.{HasNoTail};
ghost use Rattle.tce_walk.specs.StraightBodies.{IsStraightBody};
ghost use Rattle.tce_walk.specs.BandSearch.{band_program, IsBandAt};
ghost use Rattle.tce_walk.specs.BandRuns.{FitsLoops, IsBandRun, IsBlockOf, IsPartRun, part_from, touches_in, touches_of_band};
ghost use Rattle.tce_walk.specs.Tails.{loops_round};
ghost use Rattle.tce_block.specs.Cuts.{part_of};

use crate::band_search::{Band, find_band};
use crate::combination::find_terms;
use crate::cuts::{cuts_of, last_block};
use crate::grouping::{group_sizes, readings_of_band};
use crate::machine::{Body, Machine};
use crate::search::find_tail;
use crate::straight::straight_body;
use crate::term_runs::run_terms_of_band;
use crate::walk::Walk;
use tce_block::{Block, GroupedBlocks};
use tce_code::Op;
use tce_outside::Failed;
use tce_space::{MAX_INDEXES, Numbers, Space};
use tce_tree::{Fusion, Tree};

// A loop of the code: where its `Open` stands, and its index.
#[derive(Clone, Copy)]
struct OpenLoop {
    at: usize,
    index: u8,
}

/// Runs the code of a tree on a machine.
///
/// Where it succeeds, the machine's state is what the code's meaning makes of it, and tiles were touched at most as often
/// as the bound on touches of the code says. `Failed` comes only where the machine's count of faults rose.
pub fn run_program<M: Machine>(
    space: &Space,
    tree: &Tree,
    fusion: &Fusion,
    ops: &[Op],
    machine: &mut M,
) -> Result<(), Failed>
    requires over { RunsOver space.now tree.now (M.space machine.old) (M.setting machine.old) }
    requires fused { (M.setting machine.old).fusion ≡ fusion.now.0.items }
    requires code { IsCodeOf tree.now (M.setting machine.old).fusion ops.now }
    requires ready { M.ready machine.old }
    requires few { M.touches machine.old
        + touch_bound space.now tree.now (program_of ops.now) ≤ 2 ^ 100 }
    ensures ready { OnOk result (M.ready machine.new) }
    ensures state { OnOk result (M.state machine.new
        ≡ after (M.setting machine.old) (program_of ops.now) zeros (M.state machine.old)) }
    ensures touches { OnOk result (M.touches machine.new
        ≤ M.touches machine.old + touch_bound space.now tree.now (program_of ops.now)) }
    ensures upheld { Upholds M.space M.setting M.keeps M.faults machine.old machine.new (IsErr result) }
{
    let _indexes = space.index_count();
    let _nodes = tree.count();
    let mut numbers = [0; MAX_INDEXES];
    let walk = Walk {
        space,
        tree,
        fusion,
        ops,
    };
    let _end = run_part(&walk, machine, 0, &mut numbers)?;
    Ok(())
}

// Does an operation that is no loop.
fn run_action<M: Machine>(machine: &mut M, op: Op, numbers: &Numbers) -> Result<(), Failed>
    requires plain { IsPlain op }
    requires ready { M.ready machine.old }
    requires part { IsPart (M.space machine.old) (M.setting machine.old).tree
        (plain_program op) (assignment_of numbers.now) }
    requires extents { (M.setting machine.old).elements.extent ≡ extent_at (M.space machine.old) }
    requires few { M.touches machine.old
        + touch_bound (M.space machine.old) (M.setting machine.old).tree (plain_program op) ≤ 2 ^ 100 }
    ensures ready { OnOk result (M.ready machine.new) }
    ensures run { OnOk result (IsRun (M.space machine.old) (M.setting machine.old).tree
        (M.setting machine.old) (plain_program op) (assignment_of numbers.now)
        (M.state machine.old) (M.state machine.new) (M.touches machine.old) (M.touches machine.new)) }
    ensures upheld { Upholds M.space M.setting M.keeps M.faults machine.old machine.new (IsErr result) }
{
    match op {
        Op::Open(_) | Op::Close => Ok(()),
        Op::Clear(v) => {
            machine.clear(v);
            Ok(())
        }
        Op::Mul(v) | Op::Add(v) | Op::Sub(v) | Op::Acc(v) => machine.operate(v, numbers),
    }
}

// Runs the program that begins at `start`, and says where it ends.
#[cycle(walking)]
fn run_part<M: Machine>(
    walk: &Walk,
    machine: &mut M,
    start: usize,
    numbers: &mut Numbers,
) -> Result<usize, Failed>
    requires start { start ≤ length walk.now.ops.now }
    requires limits { AreKept walk.now.space.now walk.now.tree.now }
    requires fused { (M.setting machine.old).fusion ≡ walk.now.fusion.now.0.items }
    requires over { RunsOver walk.now.space.now walk.now.tree.now (M.space machine.old) (M.setting machine.old) }
    requires part { IsPart walk.now.space.now walk.now.tree.now
        (program_at walk.now.ops.now start) (assignment_of numbers.old) }
    requires ready { M.ready machine.old }
    requires few { M.touches machine.old
        + touch_bound walk.now.space.now walk.now.tree.now (program_at walk.now.ops.now start) ≤ 2 ^ 100 }
    ensures ready { OnOk result (M.ready machine.new) }
    ensures run { OnOk result (IsRun walk.now.space.now walk.now.tree.now (M.setting machine.old)
        (program_at walk.now.ops.now start) (assignment_of numbers.old)
        (M.state machine.old) (M.state machine.new) (M.touches machine.old) (M.touches machine.new)) }
    ensures end { IfOk result (IsEnd walk.now.ops.now start) }
    ensures numbers { OnOk result (numbers.new ≡ numbers.old) }
    ensures upheld { Upholds M.space M.setting M.keeps M.faults machine.old machine.new (IsErr result) }
{
    let mut at = start;
    while at < walk.ops.len() {
        match walk.ops[at] {
            Op::Close => return Ok(at),
            Op::Open(i) => {
                let head = OpenLoop { at, index: i };
                let close = run_loop(walk, machine, head, numbers)?;
                at = (close + 1).min(walk.ops.len());
            }
            op => {
                run_action(machine, op, numbers)?;
                at += 1;
            }
        }
    }
    Ok(at)
}

// Runs a loop, and says where its body ends.
#[cycle(walking)]
fn run_loop<M: Machine>(
    walk: &Walk,
    machine: &mut M,
    head: OpenLoop,
    numbers: &mut Numbers,
) -> Result<usize, Failed>
    requires within { head.at < length walk.now.ops.now }
    requires limits { AreKept walk.now.space.now walk.now.tree.now }
    requires fused { (M.setting machine.old).fusion ≡ walk.now.fusion.now.0.items }
    requires over { RunsOver walk.now.space.now walk.now.tree.now (M.space machine.old) (M.setting machine.old) }
    requires part { IsPart walk.now.space.now walk.now.tree.now (loop_at walk.now.ops.now head) (assignment_of numbers.old) }
    requires ready { M.ready machine.old }
    requires few { M.touches machine.old
        + touch_bound walk.now.space.now walk.now.tree.now (loop_at walk.now.ops.now head) ≤ 2 ^ 100 }
    ensures ready { OnOk result (M.ready machine.new) }
    ensures run { OnOk result (IsRun walk.now.space.now walk.now.tree.now (M.setting machine.old)
        (loop_at walk.now.ops.now head) (assignment_of numbers.old)
        (M.state machine.old) (M.state machine.new) (M.touches machine.old) (M.touches machine.new)) }
    ensures end { IfOk result (IsEnd walk.now.ops.now (head.at + 1)) }
    ensures numbers { OnOk result (numbers.new ≡ numbers.old) }
    ensures upheld { Upholds M.space M.setting M.keeps M.faults machine.old machine.new (IsErr result) }
{
    if let Some(found) = find_tail(walk.tree, walk.ops, head.at, head.index) {
        machine.run_tail(&found.tail, numbers)?;
        return Ok(found.close);
    }
    if let Some(band) = find_band(walk, head.at, head.index) {
        run_band(walk, machine, &band, numbers)?;
        return Ok(band.close);
    }
    run_turns(walk, machine, head, numbers)
}

// Runs a band block by block.
#[cycle(walking)]
fn run_band<M: Machine>(
    walk: &Walk,
    machine: &mut M,
    band: &Band,
    numbers: &mut Numbers,
) -> Result<(), Failed>
    requires band { IsBandAt walk.now.tree.now walk.now.fusion.now.0.items walk.now.ops.now band.now }
    requires limits { AreKept walk.now.space.now walk.now.tree.now }
    requires fused { (M.setting machine.old).fusion ≡ walk.now.fusion.now.0.items }
    requires over { RunsOver walk.now.space.now walk.now.tree.now (M.space machine.old) (M.setting machine.old) }
    requires part { IsPart walk.now.space.now walk.now.tree.now
        (band_program walk.now.ops.now band.now) (assignment_of numbers.old) }
    requires ready { M.ready machine.old }
    requires few { M.touches machine.old
        + touches_of_band walk.now.space.now walk.now.tree.now walk.now.ops.now band.now ≤ 2 ^ 100 }
    ensures ready { OnOk result (M.ready machine.new) }
    ensures run { OnOk result (IsBandRun walk.now.space.now walk.now.tree.now (M.setting machine.old)
        walk.now.ops.now band.now (assignment_of numbers.old)
        (M.state machine.old) (M.state machine.new) (M.touches machine.old) (M.touches machine.new)) }
    ensures numbers { OnOk result (numbers.new ≡ numbers.old) }
    ensures upheld { Upholds M.space M.setting M.keeps M.faults machine.old machine.new (IsErr result) }
{
    if let Some(terms) = find_terms(walk, band) {
        run_terms_of_band(walk, machine, band, &terms, numbers)?;
        let last = last_block(walk.space, band.loops.0.as_slice());
        run_along(walk, machine, band, &last, 0, numbers)?;
        return Ok(());
    }
    let cuts = cuts_of(walk.space, band.loops.0.as_slice());
    let readings = readings_of_band(walk, band);
    let sizes = group_sizes(
        walk.space,
        cuts.as_slice(),
        readings.as_slice(),
        machine.frames(),
    );
    let mut parts = GroupedBlocks::new(&cuts, &sizes);
    let mut block = Block::default();
    while parts.next_in(&mut block) {
        run_block_of_band(walk, machine, band, &block, numbers)?;
    }
    Ok(())
}

// Runs the body of a band at all numbers of one block.
#[cycle(walking)]
fn run_block_of_band<M: Machine>(
    walk: &Walk,
    machine: &mut M,
    band: &Band,
    block: &Block,
    numbers: &mut Numbers,
) -> Result<(), Failed>
    requires within { band.now.at ≤ length walk.now.ops.now }
    requires block { IsBlockOf walk.now.space.now band.now.loops.0.items (part_of block.now) }
    requires limits { AreKept walk.now.space.now walk.now.tree.now }
    requires fused { (M.setting machine.old).fusion ≡ walk.now.fusion.now.0.items }
    requires over { RunsOver walk.now.space.now walk.now.tree.now (M.space machine.old) (M.setting machine.old) }
    requires part { IsPart walk.now.space.now walk.now.tree.now
        (band_program walk.now.ops.now band.now) (assignment_of numbers.old) }
    requires ready { M.ready machine.old }
    requires few { M.touches machine.old + touches_in walk.now.space.now walk.now.tree.now
        (program_at walk.now.ops.now band.now.at) (part_of block.now).len ≤ 2 ^ 100 }
    ensures ready { OnOk result (M.ready machine.new) }
    ensures run { OnOk result (IsPartRun walk.now.space.now walk.now.tree.now (M.setting machine.old)
        (program_at walk.now.ops.now band.now.at) band.now.loops.0.items (part_of block.now) (assignment_of numbers.old)
        (M.state machine.old) (M.state machine.new) (M.touches machine.old) (M.touches machine.new)) }
    ensures numbers { OnOk result (numbers.new ≡ numbers.old) }
    ensures upheld { Upholds M.space M.setting M.keeps M.faults machine.old machine.new (IsErr result) }
{
    if let Some(body) = straight_body(walk.ops, band.at) {
        return run_straight(walk, machine, band, body, block, numbers);
    }
    run_along(walk, machine, band, block, 0, numbers)
}

// Runs a body of operations alone at all numbers of one block.
fn run_straight<M: Machine>(
    walk: &Walk,
    machine: &mut M,
    band: &Band,
    ops: &[Op],
    block: &Block,
    numbers: &Numbers,
) -> Result<(), Failed>
    requires body { IsStraightBody walk.now.ops.now band.now.at ops.now }
    requires block { IsBlockOf walk.now.space.now band.now.loops.0.items (part_of block.now) }
    requires limits { AreKept walk.now.space.now walk.now.tree.now }
    requires over { RunsOver walk.now.space.now walk.now.tree.now (M.space machine.old) (M.setting machine.old) }
    requires part { IsPart walk.now.space.now walk.now.tree.now
        (band_program walk.now.ops.now band.now) (assignment_of numbers.now) }
    requires ready { M.ready machine.old }
    requires few { M.touches machine.old + touches_in walk.now.space.now walk.now.tree.now
        (program_at walk.now.ops.now band.now.at) (part_of block.now).len ≤ 2 ^ 100 }
    ensures ready { OnOk result (M.ready machine.new) }
    ensures run { OnOk result (IsPartRun walk.now.space.now walk.now.tree.now (M.setting machine.old)
        (program_at walk.now.ops.now band.now.at) band.now.loops.0.items (part_of block.now) (assignment_of numbers.now)
        (M.state machine.old) (M.state machine.new) (M.touches machine.old) (M.touches machine.new)) }
    ensures upheld { Upholds M.space M.setting M.keeps M.faults machine.old machine.new (IsErr result) }
{
    let body = Body {
        loops: band.loops.0.as_slice(),
        ops,
    };
    machine.run_body(&body, block, numbers)
}

// The same for the loops from the d-th on, at the numbers of those before.
#[cycle(walking)]
fn run_along<M: Machine>(
    walk: &Walk,
    machine: &mut M,
    band: &Band,
    block: &Block,
    d: usize,
    numbers: &mut Numbers,
) -> Result<(), Failed>
    requires within { band.now.at ≤ length walk.now.ops.now }
    requires d { d ≤ length band.now.loops.0.items }
    requires fits { FitsLoops walk.now.space.now band.now.loops.0.items (part_of block.now) }
    requires limits { AreKept walk.now.space.now walk.now.tree.now }
    requires fused { (M.setting machine.old).fusion ≡ walk.now.fusion.now.0.items }
    requires over { RunsOver walk.now.space.now walk.now.tree.now (M.space machine.old) (M.setting machine.old) }
    requires part { IsPart walk.now.space.now walk.now.tree.now
        (loops_round (drop d band.now.loops.0.items) (program_at walk.now.ops.now band.now.at))
        (assignment_of numbers.old) }
    requires ready { M.ready machine.old }
    requires few { M.touches machine.old + touches_in walk.now.space.now walk.now.tree.now
        (program_at walk.now.ops.now band.now.at) (part_from (part_of block.now) d).len ≤ 2 ^ 100 }
    ensures ready { OnOk result (M.ready machine.new) }
    ensures run { OnOk result (IsPartRun walk.now.space.now walk.now.tree.now (M.setting machine.old)
        (program_at walk.now.ops.now band.now.at) (drop d band.now.loops.0.items)
        (part_from (part_of block.now) d) (assignment_of numbers.old)
        (M.state machine.old) (M.state machine.new) (M.touches machine.old) (M.touches machine.new)) }
    ensures numbers { OnOk result (numbers.new ≡ numbers.old) }
    ensures upheld { Upholds M.space M.setting M.keeps M.faults machine.old machine.new (IsErr result) }
{
    if d >= band.loops.0.len() {
        let _end = run_part(walk, machine, band.at, numbers)?;
        return Ok(());
    }
    let i = band.loops.0[d];
    let from = block.from[d];
    let before = numbers[i as usize];
    for x in 0..block.len[d] {
        numbers[i as usize] = from + x;
        run_along(walk, machine, band, block, d + 1, numbers)?;
    }
    numbers[i as usize] = before;
    Ok(())
}

// Runs a loop turn by turn.
#[cycle(walking)]
fn run_turns<M: Machine>(
    walk: &Walk,
    machine: &mut M,
    head: OpenLoop,
    numbers: &mut Numbers,
) -> Result<usize, Failed>
    requires within { head.at < length walk.now.ops.now }
    requires limits { AreKept walk.now.space.now walk.now.tree.now }
    requires fused { (M.setting machine.old).fusion ≡ walk.now.fusion.now.0.items }
    requires over { RunsOver walk.now.space.now walk.now.tree.now (M.space machine.old) (M.setting machine.old) }
    requires part { IsPart walk.now.space.now walk.now.tree.now (loop_at walk.now.ops.now head) (assignment_of numbers.old) }
    requires no_tail { HasNoTail walk.now.tree.now head.index (program_at walk.now.ops.now (head.at + 1)) }
    requires ready { M.ready machine.old }
    requires few { M.touches machine.old
        + touch_bound walk.now.space.now walk.now.tree.now (loop_at walk.now.ops.now head) ≤ 2 ^ 100 }
    ensures ready { OnOk result (M.ready machine.new) }
    ensures run { OnOk result (IsRun walk.now.space.now walk.now.tree.now (M.setting machine.old)
        (loop_at walk.now.ops.now head) (assignment_of numbers.old)
        (M.state machine.old) (M.state machine.new) (M.touches machine.old) (M.touches machine.new)) }
    ensures end { IfOk result (IsEnd walk.now.ops.now (head.at + 1)) }
    ensures numbers { OnOk result (numbers.new ≡ numbers.old) }
    ensures upheld { Upholds M.space M.setting M.keeps M.faults machine.old machine.new (IsErr result) }
{
    let i = head.index;
    let extent = walk.space.extent(i);
    let before = numbers[i as usize];
    numbers[i as usize] = 0;
    let mut close = run_part(walk, machine, head.at + 1, numbers)?;
    for x in 1..extent {
        numbers[i as usize] = x;
        close = run_part(walk, machine, head.at + 1, numbers)?;
    }
    numbers[i as usize] = before;
    Ok(close)
}
