// The command that runs a tree in pieces.
ghost use Rattle.std.specs.Prelude.{◌≡◌, ◌≤◌, Err, IfOk, IfErr};
ghost use Rattle.tce_space.specs.Limits.{max_memory};
ghost use Rattle.tce_outside.specs.Fault.{FaultReported};
ghost use Rattle.tce_command.specs.Command.{NamesSpec};
ghost use Rattle.tce_spec.specs.Declarations.{HaveNames};
ghost use Rattle.tce_spill.specs.Left.{OnlyPiecesDiffer as OnlyFilesOfPiecesDiffer};
ghost use Rattle.tce_run.specs.SpillDone.{IsSpillLeft, IsSpillRoomLeft, IsSpillRun, OnlyPiecesDiffer};
ghost use Rattle.tce_run.specs.SpillOfSource.{ArePiecesRun, IsPieceFault};
ghost use Rattle.tce_run.specs.SpillRefusals.{IsSpillRefusalOn};

use crate::spill_refusals::refusal_of_pieces;
use std::alloc::Global;
use tce_command::{Refusal, read_source};
use tce_outside::Disk;
use tce_spec::Spec;
use tce_spill::run_spill;
use tce_words::Room;

/// Runs the specification in a file in pieces, each of which has a fusion of at most `limit` elements, and gives the report.
///
/// The pieces are those of the cuts for the limit, in the order of their roots; the values of each cut node `V` go to
/// `spill-V.tca`, which stays. The budget, in words, is for the tiles of each piece; budget and limit are at most 2^40. The
/// specification is refused first; then `Spill` comes where 32 tensors are declared, or where with all nodes cut that may be
/// a piece takes more than the limit; `Budget` with three of the largest tiles in words, those of the cut nodes among them;
/// and `Missing` or `Array` of the first operand by first use that is refused. After every refusal but `Disk` and `Memory`
/// all files are as they were. After `Memory` the arrays of the first pieces are complete and all other files as they were;
/// after `Disk` the same holds but for the array of the piece at which the disk failed, which is no half of one.
pub fn spill<D: Disk, R: Room>(
    alloc: Global,
    spec: &str,
    budget: u64,
    limit: u64,
    disk: &mut D,
    room: &mut R,
) -> Result<Vec<u8>, Refusal>
    requires spec { NamesSpec spec.now }
    requires budget { budget ≤ max_memory }
    requires limit { limit ≤ max_memory }
    ensures done { IfOk result (λ report. IsSpillRun (D.files disk.old) (D.files disk.new) (R.takings room.old) (R.takings room.new) spec.now budget limit report.items) }
    ensures refused { IfErr result (IsSpillRefusalOn (D.files disk.old) spec.now budget limit) }
    ensures left { IfErr result (λ refusal. IsSpillLeft refusal (D.files disk.old) (D.files disk.new) spec.now limit) }
    ensures takings { IfErr result (λ refusal. IsSpillRoomLeft refusal (D.files disk.old) (D.files disk.new) (R.takings room.old) (R.takings room.new) spec.now budget limit) }
    ensures others { OnlyPiecesDiffer spec.now limit (D.files disk.old) (D.files disk.new) }
    ensures fault_reported { FaultReported D.faults disk.old disk.new (result ≡ Err Refusal.Disk) }
{
    let source = read_source(alloc, disk, spec)?;
    let ran = run_pieces(alloc, &source, budget, limit, disk, room);
    drop(source);
    ran
}

// The same of a specification that was read.
fn run_pieces<D: Disk, R: Room>(
    alloc: Global,
    source: &Spec,
    budget: u64,
    limit: u64,
    disk: &mut D,
    room: &mut R,
) -> Result<Vec<u8>, Refusal>
    requires names { HaveNames source.now.declarations.tensors }
    requires budget { budget ≤ max_memory }
    requires limit { limit ≤ max_memory }
    ensures done { IfOk result (λ report. ArePiecesRun (D.files disk.old) (D.files disk.new) (R.takings room.old) (R.takings room.new) source.now budget limit report.items) }
    ensures refused { IfErr result (IsPieceFault (D.files disk.old) (D.files disk.new) (R.takings room.old) (R.takings room.new) source.now budget limit) }
    ensures others { OnlyFilesOfPiecesDiffer (D.files disk.old) (D.files disk.new) source.now limit }
    ensures fault_reported { FaultReported D.faults disk.old disk.new (result ≡ Err Refusal.Disk) }
{
    // A specification keeps its rules.
    let _space = source.space();
    match run_spill(alloc, source, budget, limit, disk, room) {
        Ok(report) => Ok(report.text.into_vec()),
        Err(fault) => Err(refusal_of_pieces(fault)),
    }
}
