// How the loops of a term are cut, and the nest that runs each block.
ghost use Rattle.std.specs.Prelude.{◌≡◌, ◌<◌, ◌≤◌, ◌++◌, length, map, All};
ghost use Rattle.tce_space.specs.Limits.{max_loops};
ghost use Rattle.tce_space.specs.Space.{edge_at};
ghost use Rattle.tce_block.specs.Cuts.{part_of};
ghost use Rattle.tce_exec.specs.Evaluations.{places_of};
ghost use Rattle.tce_exec.specs.TermParts.{joined_part};
ghost use Rattle.tce_exec.specs.TermWindows.{CanStepTerm};
ghost use Rattle.tce_exec.specs.TermBlocks.{IsTermRun};
ghost use Rattle.tce_exec.specs.TermPlans.{IsTermPlan};

use crate::evaluation::Evaluation;
use crate::sequence::LoopSequence;
use crate::steps::Windows;
use crate::term_block::{TermNest, TermRun};
use crate::term_windows::set_term_steps;
use arrayvec::ArrayVec;
use tce_block::{Block, Blocks};
use tce_cache::Cache;
use tce_space::{MAX_LOOPS, Space};
use tce_walk::cuts_of;

/// How the loops of one term are cut, and the nest that runs its blocks.
#[derive(Drop)]
pub(crate) struct TermPlan {
    // The blocks of the term's loops that are still to come, and the next one.
    pub blocks: Blocks,
    pub next: Block,
    // The loops of the combination and behind them those of the term, and the block of them that runs.
    pub loops: ArrayVec<u8, MAX_LOOPS>,
    pub block: Block,
    pub nest: TermNest,
}

// Puts loops behind those of a list.
fn push_loops(loops: &mut ArrayVec<u8, MAX_LOOPS>, more: &[u8])
    requires { length (loops.old.items ++ more.now) ≤ max_loops }
    ensures { loops.new.items ≡ loops.old.items ++ more.now }
{
    for index in more {
        loops.push(*index);
    }
}

// Puts numbers behind those of a list.
fn push_numbers(list: &mut ArrayVec<u64, MAX_LOOPS>, more: &[u64])
    requires { length (list.old.items ++ more.now) ≤ max_loops }
    ensures { list.new.items ≡ list.old.items ++ more.now }
{
    for number in more {
        list.push(*number);
    }
}

// The loops of one list, and behind them those of another.
fn joined_loops(outer: &[u8], inner: &[u8]) -> ArrayVec<u8, MAX_LOOPS>
    requires { length (outer.now ++ inner.now) ≤ max_loops }
    ensures { result.items ≡ outer.now ++ inner.now }
{
    let mut loops = ArrayVec::new();
    push_loops(&mut loops, outer);
    push_loops(&mut loops, inner);
    loops
}

// Makes a list of numbers the one of both.
fn join(list: &mut ArrayVec<u64, MAX_LOOPS>, outer: &[u64], inner: &[u64])
    requires { length (outer.now ++ inner.now) ≤ max_loops }
    ensures { list.new.items ≡ outer.now ++ inner.now }
{
    list.clear();
    push_numbers(list, outer);
    push_numbers(list, inner);
}

/// Makes a block that of the loops of both, the inner ones behind the outer ones.
pub(crate) fn join_blocks(block: &mut Block, outer: &Block, inner: &Block)
    requires from { length ((part_of outer.now).from ++ (part_of inner.now).from) ≤ max_loops }
    requires len { length ((part_of outer.now).len ++ (part_of inner.now).len) ≤ max_loops }
    ensures { part_of block.new ≡ joined_part (part_of outer.now) (part_of inner.now) }
{
    join(
        &mut block.from,
        outer.from.as_slice(),
        inner.from.as_slice(),
    );
    join(&mut block.len, outer.len.as_slice(), inner.len.as_slice());
}

// The edges of loops.
fn edges_of_loops(space: &Space, loops: &[u8]) -> ArrayVec<u64, MAX_LOOPS>
    requires few { length loops.now ≤ max_loops }
    requires declared { All (λ i. i < length space.now.indexes) loops.now }
    ensures { result.items ≡ map (edge_at space.now) loops.now }
{
    let mut edges = ArrayVec::new();
    for index in loops {
        edges.push(space.edge(*index));
    }
    edges
}

impl TermPlan {
    /// The plan of a term.
    pub(crate) fn of(evaluation: &Evaluation, cache: &Cache, run: &TermRun) -> TermPlan
        requires steps { CanStepTerm (places_of evaluation.now)
            evaluation.now.result.now.tensor cache.now run.now.operands }
        requires run { IsTermRun (places_of evaluation.now) run.now }
        ensures { IsTermPlan (places_of evaluation.now) run.now result }
    {
        let mut windows = Windows::blank();
        set_term_steps(evaluation, cache, &run.operands, &mut windows);
        let cuts = cuts_of(evaluation.space, run.inner);
        let blocks = Blocks::new(&cuts);
        let loops = joined_loops(run.order, run.inner);
        let edges = edges_of_loops(evaluation.space, loops.as_slice());
        let sequence = LoopSequence::of(
            loops.as_slice(),
            edges.as_slice(),
            &windows.out,
            &windows.left,
            &windows.right,
        );
        let outer_edges = edges_of_loops(evaluation.space, run.order);
        let out = &windows.out;
        let places = LoopSequence::of(run.order, outer_edges.as_slice(), out, out, out);
        TermPlan {
            blocks,
            next: Block::default(),
            loops,
            block: Block::default(),
            nest: TermNest {
                windows,
                sequence,
                places,
            },
        }
    }
}
