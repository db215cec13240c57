// The pieces in turn.
ghost use Rattle.std.specs.Prelude.{◌≡◌, ◌⊎◌, ℕ, ◌<◌, ◌≤◌, ◌*◌, IsTrue, IfOk, IfErr, OnOk, Err, length};
ghost use Rattle.std.specs.Option.{ForSome, option_map};
ghost use Rattle.tce_space.specs.Limits.{max_memory};
ghost use Rattle.tce_space.specs.IndexSet.{has};
ghost use Rattle.tce_outside.specs.Files.{others};
ghost use Rattle.tce_outside.specs.Fault.{FaultReported};
ghost use Rattle.tce_tree.specs.ContractionTree.{operations};
ghost use Rattle.tce_spec.specs.Declarations.{HaveNames};
ghost use Rattle.tce_spec.specs.Pieces.{is_root};
ghost use Rattle.tce_spec.specs.PieceSpecification.{piece_of};
ghost use Rattle.tce_job.specs.TensorFiles.{file_of};
ghost use Rattle.tce_job.specs.Opened.{HasOperands, operand_count};
ghost use Rattle.tce_job.specs.Laws.{LeavesNoHalfResult};
ghost use Rattle.tce_job.specs.ResultBytes.{with_result};
ghost use Rattle.tce_job.specs.Refusals.{IsAffordable};
ghost use Rattle.tce_job.specs.Prepared.{HasTaken};
ghost use Rattle.tce_job.specs.Run.{IsReported as IsRunReported};
ghost use Rattle.tce_spill.specs.Planned.{IsLeastButRows, IsPlanOfPiece, HavePlans};
ghost use Rattle.tce_spill.specs.declared.fault.SpillFault.{SpillFault as Fault};
ghost use Rattle.tce_spec.specs.Storable.{storable};
ghost use Rattle.tce_spill.specs.PieceRuns.{largest_of};
ghost use Rattle.tce_spill.specs.Values.{IsSpilled};
ghost use Rattle.tce_spill.specs.Reports.{HasRunAll};
ghost use Rattle.tce_spill.specs.RunRefusals.{CanSpill, IsRunFault, IsLateFault, IsTestFault, IsSpillCause, IsExact};
ghost use Rattle.tce_spill.specs.Left.{files_at, HasSpilled, IsLeftBy, IsLeft, OnlyPiecesDiffer};

use crate::cutting::planned_cuts;
use crate::fault::SpillFault;
use crate::opening::open_all;
use crate::plans::{Turn, take_plan};
use crate::report::{SpillReport, first_line, push_piece, push_wrote};
use crate::spilling::{Spilling, largest_tile};
use std::alloc::Global;
use tce_job::{Bytes, JobFault, PlannedRun, RunReport, run_by};
use tce_nesting::Plan;
use tce_outside::Disk;
use tce_spec::{Spec, piece};
use tce_words::Room;

// Runs a piece by a plan of a least fusion, without rows.
fn run_one<D: Disk, R: Room>(
    alloc: Global,
    spec: &Spec,
    budget: u64,
    plan: Plan,
    disk: &mut D,
    room: &mut R,
) -> Result<RunReport, SpillFault>
    requires affordable { IsAffordable spec.now budget }
    requires budget { budget ≤ max_memory }
    requires plan { IsLeastButRows spec.now.declarations.space spec.now.tree plan }
    requires operands { ForSome (D.files disk.old) (λ files. HasOperands files spec.now (operand_count spec.now)) }
    ensures told { OnOk result (D.files disk.new ≡ option_map (with_result spec.now) (D.files disk.old)) }
    ensures reported { IfOk result (IsRunReported spec.now budget (R.takings room.old) (R.takings room.new)) }
    ensures refused { IfErr result (IsRunFault (D.files disk.old) spec.now) }
    ensures unchanged { IfErr result (λ fault. (fault ≡ Fault.Disk) ⊎ (D.files disk.new ≡ D.files disk.old)) }
    ensures takings { IfErr result (λ _. (R.takings room.new ≡ R.takings room.old) ⊎ HasTaken spec.now budget (R.takings room.old) (R.takings room.new)) }
    ensures no_half { LeavesNoHalfResult spec.now (D.files disk.old) (D.files disk.new) }
    ensures others { others (file_of spec.now spec.now.result) (D.files disk.new) ≡ others (file_of spec.now spec.now.result) (D.files disk.old) }
    ensures fault_reported { FaultReported D.faults disk.old disk.new (result ≡ Err Fault.Disk) }
{
    let forms = match open_all(spec, disk) {
        Ok(forms) => forms,
        Err(fault) => {
            drop(plan);
            return Err(fault);
        }
    };
    let planned = PlannedRun { plan, forms };
    match run_by(alloc, spec, budget, planned, disk, room) {
        Ok(report) => Ok(report),
        Err(JobFault::Disk) => Err(SpillFault::Disk),
        Err(_) => Err(SpillFault::Memory),
    }
}

// Runs the piece of a root by its plan.
fn run_piece<D: Disk, R: Room>(
    alloc: Global,
    spec: &Spec,
    spilling: Spilling,
    turn: Turn,
    disk: &mut D,
    room: &mut R,
) -> Result<RunReport, SpillFault>
    requires can { CanSpill spec.now (has spilling.cuts) spilling.budget }
    requires inside { turn.root < operations spec.now.tree }
    requires root { IsTrue (is_root spec.now.tree (has spilling.cuts) turn.root) }
    requires plan { IsPlanOfPiece spec.now (has spilling.cuts) turn.root turn.plan }
    requires operands { ForSome (D.files disk.old) (λ files. HasOperands files (piece_of spec.now (has spilling.cuts) turn.root) (operand_count (piece_of spec.now (has spilling.cuts) turn.root))) }
    ensures told { OnOk result (D.files disk.new ≡ option_map (with_result (piece_of spec.now (has spilling.cuts) turn.root)) (D.files disk.old)) }
    ensures reported { IfOk result (IsRunReported (piece_of spec.now (has spilling.cuts) turn.root) spilling.budget (R.takings room.old) (R.takings room.new)) }
    ensures refused { IfErr result (IsRunFault (D.files disk.old) (piece_of spec.now (has spilling.cuts) turn.root)) }
    ensures unchanged { IfErr result (λ fault. (fault ≡ Fault.Disk) ⊎ (D.files disk.new ≡ D.files disk.old)) }
    ensures takings { IfErr result (λ _. (R.takings room.new ≡ R.takings room.old) ⊎ HasTaken (piece_of spec.now (has spilling.cuts) turn.root) spilling.budget (R.takings room.old) (R.takings room.new)) }
    ensures no_half { LeavesNoHalfResult (piece_of spec.now (has spilling.cuts) turn.root) (D.files disk.old) (D.files disk.new) }
    ensures others { others (file_of (piece_of spec.now (has spilling.cuts) turn.root) (piece_of spec.now (has spilling.cuts) turn.root).result) (D.files disk.new)
        ≡ others (file_of (piece_of spec.now (has spilling.cuts) turn.root) (piece_of spec.now (has spilling.cuts) turn.root).result) (D.files disk.old) }
    ensures fault_reported { FaultReported D.faults disk.old disk.new (result ≡ Err Fault.Disk) }
{
    // Specifications keep their rules.
    let _tree = spec.tree();
    let Ok(piece) = piece(alloc, spec, turn.root, spilling.cuts) else {
        drop(turn);
        return Err(SpillFault::Memory);
    };
    let ran = run_one(alloc, &piece, spilling.budget, turn.plan, disk, room);
    drop(piece);
    ran
}

// Runs all pieces in turn. Each takes its plan out of the list, which stays with the caller.
fn run_all<D: Disk, R: Room>(
    alloc: Global,
    spec: &Spec,
    spilling: Spilling,
    plans: &mut Vec<Option<Plan>>,
    disk: &mut D,
    room: &mut R,
) -> Result<Vec<u8>, SpillFault>
    requires can { CanSpill spec.now (has spilling.cuts) spilling.budget }
    requires plans { HavePlans spec.now (has spilling.cuts) plans.old.items }
    requires operands { ForSome (D.files disk.old) (λ files. HasOperands files spec.now (operand_count spec.now)) }
    ensures told { OnOk result (D.files disk.new ≡ files_at (D.files disk.old) spec.now (has spilling.cuts) (operations spec.now.tree)) }
    ensures spilled { OnOk result (ForSome (D.files disk.old) (λ start. ForSome (D.files disk.new) (λ after. IsSpilled start after spec.now (has spilling.cuts)))) }
    ensures reported { IfOk result (λ text. HasRunAll spec.now (has spilling.cuts) spilling.budget (R.takings room.old) (R.takings room.new) text.items) }
    ensures refused { IfErr result (IsLateFault (D.files disk.old) spec.now (has spilling.cuts)) }
    ensures left { IfErr result (IsLeftBy (D.files disk.old) (D.files disk.new)
        (R.takings room.old) (R.takings room.new) spec.now (has spilling.cuts) spilling.budget) }
    ensures fault_reported { FaultReported D.faults disk.old disk.new (result ≡ Err Fault.Disk) }
{
    let count = spec.tree().count();
    let Ok(mut text) = first_line(alloc) else {
        return Err(SpillFault::Memory);
    };
    for root in 0..count {
        if spilling.has_root(spec, root) {
            let plan = take_plan(plans, root);
            match run_piece(alloc, spec, spilling, Turn { root, plan }, disk, room) {
                Ok(report) => {
                    let pushed = push_piece(alloc, &mut text, root, &report);
                    drop(report);
                    let Ok(()) = pushed else {
                        return Err(SpillFault::Memory);
                    };
                }
                Err(fault) => return Err(fault),
            }
        }
    }
    let Ok(()) = push_wrote(alloc, &mut text, spec) else {
        return Err(SpillFault::Memory);
    };
    Ok(text)
}

// Tests the budget and the operands of the whole.
fn test_budget<D: Disk>(
    alloc: Global,
    spec: &Spec,
    spilling: Spilling,
    disk: &mut D,
) -> Result<(), SpillFault>
    requires names { HaveNames spec.now.declarations.tensors }
    requires few { length spec.now.declarations.tensors ≤ 31 }
    requires allowed { (v : ℕ) → IsTrue (has spilling.cuts v) → IsTrue (storable spec.now.declarations.space spec.now.tree v) }
    ensures enough { OnOk result (3 * largest_of spec.now (has spilling.cuts) ≤ spilling.budget) }
    ensures opened { OnOk result (ForSome (D.files disk.old) (λ files. HasOperands files spec.now (operand_count spec.now))) }
    ensures refused { IfErr result (IsTestFault (D.files disk.old) spec.now (has spilling.cuts) spilling.budget) }
    ensures same { D.files disk.new ≡ D.files disk.old }
    ensures fault_reported { FaultReported D.faults disk.old disk.new (result ≡ Err Fault.Disk) }
{
    let Ok(largest) = largest_tile(alloc, spec, spilling.cuts) else {
        return Err(SpillFault::Memory);
    };
    let least = 3 * largest;
    if spilling.budget < least {
        return Err(SpillFault::BudgetTooSmall(least));
    }
    let _forms = open_all(spec, disk)?;
    Ok(())
}

/// Runs a specification in pieces, each of which has a least fusion within a limit of memory, in elements: the values of
/// the cut nodes go to files `spill-V.tca`, which stay. Each piece is run by the plan that was found with the cuts.
///
/// The budget, in words, is for the tiles of each piece's run. Budget and limit are at most 2^40. The pieces are those of
/// [`crate::cuts`], in the order of their roots. Before any file is touched, it is refused for the first cause in this
/// order: those of `cuts`, `BudgetTooSmall` with three of the largest tiles of the operands, the result and the arrays of
/// the cut nodes, and `Array` with the first operand by first use that is refused. After `Disk` or `Memory` the files of
/// the pieces in front are complete, those behind are untouched, and the piece at hand leaves no half of its result.
pub fn run_spill<D: Disk, R: Room>(
    alloc: Global,
    spec: &Spec,
    budget: u64,
    limit: u64,
    disk: &mut D,
    room: &mut R,
) -> Result<SpillReport, SpillFault>
    requires names { HaveNames spec.now.declarations.tensors }
    requires budget { budget ≤ max_memory }
    requires limit { limit ≤ max_memory }
    ensures done { IfOk result (λ report. HasSpilled (D.files disk.old) (D.files disk.new)
        (R.takings room.old) (R.takings room.new) spec.now budget limit report.text) }
    ensures refused { IfErr result (IsSpillCause (D.files disk.old) spec.now budget limit) }
    ensures exactly { IsExact (D.files disk.old) spec.now budget limit result }
    ensures left { IfErr result (IsLeft (D.files disk.old) (D.files disk.new)
        (R.takings room.old) (R.takings room.new) spec.now budget limit) }
    ensures others { OnlyPiecesDiffer (D.files disk.old) (D.files disk.new) spec.now limit }
    ensures fault_reported { FaultReported D.faults disk.old disk.new (result ≡ Err Fault.Disk) }
{
    let planned = planned_cuts(alloc, spec, limit)?;
    let spilling = Spilling {
        cuts: planned.nodes,
        budget,
    };
    test_budget(alloc, spec, spilling, disk)?;
    let mut plans = planned.plans;
    let ran = run_all(alloc, spec, spilling, &mut plans, disk, room);
    drop(plans);
    let text = ran?;
    Ok(SpillReport {
        text: Bytes::of(text),
    })
}
