// One block of the loops of a term.
ghost use Rattle.std.specs.Prelude.{◌+◌, ◌≤◌, ◌^◌, length, IsTrue, OnOk, IsErr};
ghost use Rattle.tce_exec.specs.Loops.{AreLoops, IsWindowWithin};
ghost use Rattle.tce_exec.specs.Sequences.{IsLoopSequence};
ghost use Rattle.tce_exec.specs.Prepared.{IsPrepared};
ghost use Rattle.tce_exec.specs.Storages.{work_of, setting_of, Changes, Upholds};
ghost use Rattle.tce_exec.specs.Evaluations.{places_of};
ghost use Rattle.tce_exec.specs.Positions.{IsPosition, numbers_of};
ghost use Rattle.tce_exec.specs.Blocks.{AreOutside};
ghost use Rattle.tce_exec.specs.TermBlocks.{around, outer_part, block_part, after_term_block, IsScaled, IsAdded, IsReadBeside, IsTermNest, IsTermBlock};

use crate::block_loops::{BlockLoops, OperandWindows, grow, grow_by_products};
use crate::evaluation::Evaluation;
use crate::position::Position;
use crate::scaling::scale;
use crate::sequence::LoopSequence;
use crate::steps::Windows;
use crate::storage::Storage;
use crate::term_windows::{TermOperands, term_windows};
use crate::window::Window;
use tce_block::Block;
use tce_outside::{Disk, Failed};
use tce_space::Numbers;
use tce_words::Words;

/// By what the words of the places are multiplied, before a term is added and after that.
#[derive(Clone, Copy)]
pub(crate) struct Factors {
    pub before: u64,
    pub after: u64,
}

/// One term in one block of its combination's loops, at the numbers of the loops round them.
#[derive(Clone, Copy)]
pub(crate) struct TermRun<'a> {
    pub operands: TermOperands<'a>,
    // The loops of the combination, and those of the term.
    pub order: &'a [u8],
    pub inner: &'a [u8],
    pub block: &'a Block,
    pub numbers: &'a Numbers,
    pub factors: Factors,
}

/// One block of the term's loops, too.
#[derive(Clone, Copy)]
pub(crate) struct TermBlock<'a> {
    pub run: TermRun<'a>,
    // The loops of the combination, and behind them those of the term.
    pub loops: &'a [u8],
    pub block: &'a Block,
    pub factors: Factors,
}

/// The windows of a term, the sequence of its loops with those round them, and that of the latter alone.
#[derive(Drop)]
pub(crate) struct TermNest {
    pub windows: Windows,
    pub sequence: LoopSequence,
    pub places: LoopSequence,
}

// Multiplies the words of the places by a factor. By 1 they stay.
fn scale_places(
    words: &mut Words,
    factor: u64,
    run: &TermRun,
    sequence: &mut LoopSequence,
    out: &Window,
)
    requires sequence { IsLoopSequence run.now.order.now sequence.old }
    requires loops { AreLoops run.now.order.now (outer_part run.now).len }
    requires out { IsWindowWithin (length words.old) run.now.order.now (outer_part run.now).len
        out.now }
    ensures sequence { IsLoopSequence run.now.order.now sequence.new }
    ensures made { IsScaled factor run.now out.now words.old words.new }
{
    if factor == 1 {
        return;
    }
    let loops = BlockLoops {
        indexes: run.order,
        lens: run.block.len.as_slice(),
    };
    scale(words, factor, sequence, &loops, out);
}

// Adds the operand's words, or the products of both operands' words, to those of the places.
fn add_term(words: &mut Words, at: &TermBlock, sequence: &mut LoopSequence, windows: &Windows)
    requires sequence { IsLoopSequence at.now.loops.now sequence.old }
    requires loops { AreLoops at.now.loops.now (block_part at.now).len }
    requires out { IsWindowWithin (length words.old) at.now.loops.now (block_part at.now).len
        windows.now.out }
    requires left { IsReadBeside (length words.old) at.now windows.now.left windows.now.out }
    requires right { IsTrue at.now.run.operands.pair → IsReadBeside (length words.old) at.now
        windows.now.right windows.now.out }
    ensures sequence { IsLoopSequence at.now.loops.now sequence.new }
    ensures made { IsAdded at.now windows.now words.old words.new }
{
    let loops = BlockLoops {
        indexes: at.loops,
        lens: at.block.len.as_slice(),
    };
    if at.run.operands.pair {
        let operands = OperandWindows {
            left: &windows.left,
            right: &windows.right,
        };
        grow_by_products(words, sequence, &loops, &windows.out, &operands);
    } else {
        grow(words, sequence, &loops, &windows.out, &windows.left);
    }
}

/// Runs one block of a term, with at most three touches: multiplies the words of the places, adds the term, and multiplies
/// them again.
pub(crate) fn run_term_block<D: Disk>(
    evaluation: &Evaluation,
    store: &mut Storage<'_, D>,
    at: &TermBlock,
    first: &mut Position,
    nest: &mut TermNest,
) -> Result<(), Failed>
    requires prepared { IsPrepared (work_of D.files evaluation.now store.old) }
    requires position { IsPosition evaluation.now.space.now first.old }
    requires block { IsTermBlock (places_of evaluation.now) at.now }
    requires others { AreOutside at.now.loops.now (around at.now.run) (numbers_of first.old) }
    requires nest { IsTermNest (places_of evaluation.now) at.now.run at.now.loops.now nest.old }
    requires few { store.old.cache.now.touches + 3 ≤ 2 ^ 100 }
    ensures changed { OnOk result (Changes (after_term_block (setting_of D.files evaluation.now store.old) at.now) 3
        D.files evaluation.now store.old store.new) }
    ensures position { IsPosition evaluation.now.space.now first.new }
    ensures others { AreOutside at.now.loops.now (around at.now.run) (numbers_of first.new) }
    ensures nest { OnOk result (IsTermNest (places_of evaluation.now) at.now.run at.now.loops.now
        nest.new) }
    ensures upheld { Upholds D.files D.faults evaluation.now store.old store.new (IsErr result) }
{
    let run = &at.run;
    let factors = at.factors;
    first.begin(evaluation.space, at.loops, at.block.from.as_slice());
    term_windows(evaluation, store, &run.operands, first, &mut nest.windows)?;
    // All words are below 2^64, then and after each step.
    let _read = store.words.len();
    scale_places(
        store.words,
        factors.before,
        run,
        &mut nest.places,
        &nest.windows.out,
    );
    let _scaled = store.words.len();
    add_term(store.words, at, &mut nest.sequence, &nest.windows);
    let _added = store.words.len();
    scale_places(
        store.words,
        factors.after,
        run,
        &mut nest.places,
        &nest.windows.out,
    );
    Ok(())
}
