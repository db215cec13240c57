// Whole runs of loop code.
ghost use Rattle.std.specs.Prelude.{◌≡◌, ◌+◌, ◌≤◌, ◌^◌, false, IsTrue, OnOk, IsErr};
ghost use Rattle.tce_outside.specs.Fault.{FaultReported};
ghost use Rattle.tce_tree.specs.Fusion.{OrdersFit};
ghost use Rattle.tce_tree.specs.Orders.{lists_of};
ghost use Rattle.tce_tree.specs.WellFormed.{is_distinct};
ghost use Rattle.tce_code.specs.CodeFor.{IsCodeFor};
ghost use Rattle.tce_code.specs.Plan.{plan_of};
ghost use Rattle.tce_code.specs.Program.{program_of};
ghost use Rattle.tce_walk.specs.Touches.{touch_bound};
ghost use Rattle.tce_walk.specs.Run.{IsCodeOf};
ghost use Rattle.tce_exec.specs.Prepared.{IsPrepared};
ghost use Rattle.tce_exec.specs.Steps.{IsKept};
ghost use Rattle.tce_exec.specs.Storages.{work_of, Keeps, ReportsFaults};
ghost use Rattle.tce_exec.specs.Evaluations.{places_of};
ghost use Rattle.tce_exec.specs.Plans.{AreKept};
ghost use Rattle.tce_exec.specs.Run.{workspace_of, IsZero, IsRun};

use crate::evaluation::Evaluation;
use crate::plan::Kept;
use crate::runner::Runner;
use crate::storage::Storage;
use tce_cache::Cache;
use tce_code::Code;
use tce_layout::Layout;
use tce_outside::{Disk, Failed};
use tce_space::Space;
use tce_tree::{Fusion, Leaf, Orders, Tree};
use tce_walk::run_program;
use tce_words::Words;

// Runs the code of its tree on a runner.
fn run_on<D: Disk>(runner: &mut Runner<'_, D>, code: &Code) -> Result<(), Failed>
    requires code { IsCodeOf runner.old.evaluation.tree.now
        runner.old.evaluation.fusion.now.0.items code.now }
    requires prepared { IsPrepared (work_of D.files runner.old.evaluation runner.old.store) }
    requires working { runner.old.failed ≡ false }
    requires right { AreKept (places_of runner.old.evaluation) runner.old.kept }
    requires distinct { IsTrue (is_distinct runner.old.evaluation.result.now.indexes.items) }
    requires zero { IsZero (work_of D.files runner.old.evaluation runner.old.store) }
    requires few { runner.old.store.cache.now.touches
        + touch_bound runner.old.evaluation.space.now runner.old.evaluation.tree.now (program_of code.now) ≤ 2 ^ 100 }
    ensures run { OnOk result (IsRun (work_of D.files runner.old.evaluation runner.old.store)
        (work_of D.files runner.old.evaluation runner.new.store) code.now) }
    ensures kept { Keeps D.files runner.old.evaluation runner.old.store runner.new.store }
    ensures words { runner.new.store.words.ghost_name ≡ runner.old.store.words.ghost_name }
    ensures cache { runner.new.store.cache.ghost_name ≡ runner.old.store.cache.ghost_name }
    ensures disk { runner.new.store.disk.ghost_name ≡ runner.old.store.disk.ghost_name }
    ensures fault_reported { ReportsFaults D.faults runner.old.store runner.new.store (IsErr result) }
{
    let evaluation = runner.evaluation;
    let _nodes = evaluation.tree.count();
    run_program(
        evaluation.space,
        evaluation.tree,
        evaluation.fusion,
        code.ops(),
        runner,
    )?;
    Ok(())
}

/// Runs the code of a tree, which leaves the tree's values as the current elements of the result, the tensor `output`.
///
/// The words of the intermediates stand in their slots, before the frames of the cache; the result's current words are
/// 0 before the run. `Failed` comes only where the disk's count of faults rose. After it nothing is known of the
/// result.
pub fn run_code<D: Disk>(
    space: &Space,
    tree: &Tree,
    fusion: &Fusion,
    orders: &Orders,
    output: &Leaf,
    code: &Code,
    layout: &Layout,
    words: &mut Words,
    cache: &mut Cache,
    disk: &mut D,
) -> Result<(), Failed>
    requires orders { OrdersFit tree.now (lists_of orders.now.0.items) }
    requires code { IsCodeFor tree.now
        (plan_of fusion.now.0.items (lists_of orders.now.0.items)) code.now }
    requires prepared { IsPrepared (workspace_of space.now tree.now
        fusion.now.0.items layout.now.0.items output.now words.old cache.old (D.files disk.old)) }
    requires distinct { IsTrue (is_distinct output.now.indexes.items) }
    requires zero { IsZero (workspace_of space.now tree.now
        fusion.now.0.items layout.now.0.items output.now words.old cache.old (D.files disk.old)) }
    requires few { cache.old.touches
        + touch_bound space.now tree.now (program_of code.now) ≤ 2 ^ 100 }
    ensures run { OnOk result (IsRun (workspace_of space.now tree.now
        fusion.now.0.items layout.now.0.items output.now words.old cache.old (D.files disk.old))
        (workspace_of space.now tree.now fusion.now.0.items layout.now.0.items output.now words.new cache.new (D.files disk.new)) code.now) }
    ensures kept { IsKept (workspace_of space.now tree.now
        fusion.now.0.items layout.now.0.items output.now words.old cache.old (D.files disk.old))
        (workspace_of space.now tree.now fusion.now.0.items layout.now.0.items output.now words.new cache.new (D.files disk.new)) }
    ensures fault_reported { FaultReported D.faults disk.old disk.new (IsErr result) }
{
    let evaluation = Evaluation {
        space,
        tree,
        fusion,
        layout,
        result: output,
    };
    let mut runner = Runner {
        evaluation,
        store: Storage { words, cache, disk },
        kept: Kept::new(space),
        failed: false,
    };
    let answer = run_on(&mut runner, code);
    let Runner {
        evaluation: _,
        store: Storage {
            words: _,
            cache: _,
            disk: _,
        },
        kept: _,
        failed: _,
    } = runner;
    answer
}
