// Nodes whose values are added up from terms, in one block of the loops round them.
ghost use Rattle.std.specs.Prelude.{◌≡◌, ◌+◌, ◌≤◌, ◌^◌, ◌==◌, if◌then◌else◌, OnOk, IsErr};
ghost use Rattle.tce_block.specs.Cuts.{part_of};
ghost use Rattle.tce_tree.specs.ContractionTree.{node};
ghost use Rattle.tce_tree.specs.Value.{value};
ghost use Rattle.tce_walk.specs.Machine.{assignment_of};
ghost use Rattle.tce_walk.specs.Parts.{set_by_part};
ghost use Rattle.tce_walk.specs.Terms.{touches_of_terms, IsCombinationAt};
ghost use Rattle.tce_exec.specs.Evaluations.{places_of};
ghost use Rattle.tce_exec.specs.Positions.{IsPosition};
ghost use Rattle.tce_exec.specs.Prepared.{IsPrepared};
ghost use Rattle.tce_exec.specs.Storages.{work_of, setting_of, Changes, Upholds};
ghost use Rattle.tce_exec.specs.TermBlocks.{IsTermRun};
ghost use Rattle.tce_exec.specs.TermPlans.{after_term, touches_of_run, IsTermPlan};

use crate::evaluation::Evaluation;
use crate::position::Position;
use crate::storage::Storage;
use crate::term_block::{Factors, TermBlock, TermRun, run_term_block};
use crate::term_plan::{TermPlan, join_blocks};
use crate::term_windows::term_operands;
use tce_block::Block;
use tce_outside::{Disk, Failed};
use tce_space::Numbers;
use tce_walk::Combination;

// By what the words are multiplied before term `n`: those that stand there before the first one do not count.
fn factor_before(n: usize, scale: u64) -> u64
    ensures { result ≡ (if n == 0 then 0 else scale) }
{
    if n == 0 { 0 } else { scale }
}

// By what they are multiplied in the end, after the last of several.
fn factor_after(last: bool, scale: u64) -> u64
    ensures { result ≡ (if last then scale else 1) }
{
    if last { scale } else { 1 }
}

// Runs all blocks of a term's loops. The words are multiplied by the first factor before the first block and by the second one
// after the last.
fn run_term<D: Disk>(
    evaluation: &Evaluation,
    store: &mut Storage<'_, D>,
    run: &TermRun,
    first: &mut Position,
    plan: &mut TermPlan,
) -> Result<(), Failed>
    requires prepared { IsPrepared (work_of D.files evaluation.now store.old) }
    requires position { IsPosition evaluation.now.space.now first.old }
    requires run { IsTermRun (places_of evaluation.now) run.now }
    requires plan { IsTermPlan (places_of evaluation.now) run.now plan.old }
    requires few { store.old.cache.now.touches
        + touches_of_run evaluation.now.space.now run.now ≤ 2 ^ 100 }
    ensures changed { OnOk result (Changes (after_term (setting_of D.files evaluation.now store.old) run.now)
        (touches_of_run evaluation.now.space.now run.now) D.files evaluation.now store.old store.new) }
    ensures position { OnOk result (IsPosition evaluation.now.space.now first.new) }
    ensures upheld { Upholds D.files D.faults evaluation.now store.old store.new (IsErr result) }
{
    // All words are below 2^64.
    let _words = store.words.len();
    first.go_to(evaluation.space, run.numbers);
    let mut before = run.factors.before;
    let mut more = plan.blocks.next_in(&mut plan.next);
    while more {
        join_blocks(&mut plan.block, run.block, &plan.next);
        more = plan.blocks.next_in(&mut plan.next);
        let after = factor_after(!more, run.factors.after);
        let at = TermBlock {
            run: *run,
            loops: plan.loops.as_slice(),
            block: &plan.block,
            factors: Factors { before, after },
        };
        // They still are.
        let _len = store.words.len();
        run_term_block(evaluation, store, &at, first, &mut plan.nest)?;
        before = 1;
    }
    Ok(())
}

/// Sets the places of a combination's node in one block of its loops to the node's values, term by term, with at most three
/// touches for each block of a term's loops. `position` says where a block before began.
pub(crate) fn run_terms<D: Disk>(
    evaluation: &Evaluation,
    store: &mut Storage<'_, D>,
    sum: &Combination<'_>,
    block: &Block,
    numbers: &Numbers,
    position: &mut Position,
) -> Result<(), Failed>
    requires prepared { IsPrepared (work_of D.files evaluation.now store.old) }
    requires position { IsPosition evaluation.now.space.now position.old }
    requires terms { IsCombinationAt evaluation.now.space.now (setting_of D.files evaluation.now store.old)
        sum.now (part_of block.now) (assignment_of numbers.now) }
    requires few { store.old.cache.now.touches
        + touches_of_terms evaluation.now.space.now sum.now.terms.now ≤ 2 ^ 100 }
    ensures changed { OnOk result (Changes (set_by_part (setting_of D.files evaluation.now store.old)
        sum.now.node sum.now.loops.now
        (value (setting_of D.files evaluation.now store.old).elements (node evaluation.now.tree.now sum.now.node))
        (assignment_of numbers.now) (part_of block.now)) (touches_of_terms evaluation.now.space.now sum.now.terms.now)
        D.files evaluation.now store.old store.new) }
    ensures position { OnOk result (IsPosition evaluation.now.space.now position.new) }
    ensures upheld { Upholds D.files D.faults evaluation.now store.old store.new (IsErr result) }
{
    // The limits of spaces and trees.
    let _indexes = evaluation.space.index_count();
    let _nodes = evaluation.tree.count();
    let count = sum.terms.len();
    for n in 0..count {
        let term = &sum.terms[n];
        let before = factor_before(n, term.scale);
        let after = factor_after(n + 1 == count, sum.scale);
        let run = TermRun {
            operands: term_operands(evaluation, term.operand, sum.node),
            order: sum.loops,
            inner: term.loops.0.as_slice(),
            block,
            numbers,
            factors: Factors { before, after },
        };
        let mut plan = TermPlan::of(evaluation, store.cache, &run);
        run_term(evaluation, store, &run, position, &mut plan)?;
    }
    Ok(())
}
