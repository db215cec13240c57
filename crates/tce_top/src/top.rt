// The top call.
ghost use Rattle.std.specs.Prelude.{◌≡◌, ◌⊎◌, ℕ, List, Some, map};
ghost use Rattle.std.specs.String.{string_bytes};
ghost use Rattle.tce_outside.specs.Fault.{FaultReported, HasCause};
ghost use Rattle.tce_outside.specs.Files.{Files};
ghost use Rattle.tce_command.specs.Command.{batch, einsum, run, spill, IsCommand, IsNoCommand};
ghost use Rattle.tce_command.specs.Report.{IsWellFormed, LineNames, NamesNoIndex};
ghost use Rattle.tce_command.specs.declared.trouble.CertTrouble.{CertTrouble};
ghost use Rattle.tce_command.specs.Outcome.{Answers, Grew, GrewWithin, HasErrorLine, HasLine, IsFault, IsRefusal};
ghost use Rattle.tce_top.specs.Performed.{KeepsRoom, LeavesCutOff, LeavesNoHalf, MayTake, OthersStay};
ghost use Rattle.tce_top.specs.Cause.{IsCause, MayEnd, OfCommand, Told};
ghost use Rattle.tce_top.specs.Outcome.{AreNamed, IsDemonstration, IsFinished, IsPartOfBatch, IsPartOfSpill, IsTensorOf, IsWholeBatch, IsWholeEinsum, IsWholeRun, IsWholeSpill};

use crate::perform::perform;
use std::alloc::Global;
use tce_command::{Status, finish, read_command, refuse, refuse_words};
use tce_outside::{Disk, Sink};
use tce_words::Room;

/// Does all that the program does: reads the words of a command, does it over the disk, takes words from the room, and
/// puts the report, or the line of a refusal, on the sink.
pub fn tce<D: Disk, K: Sink, R: Room>(
    alloc: Global,
    words: &[String],
    disk: &mut D,
    out: &mut K,
    room: &mut R,
) -> Status
    // A command that is done: what it leaves, and the report.
    ensures done { result ≡ Status.Done → (report : List ℕ)
        × IsFinished (map string_bytes words.now) (D.files disk.old) (D.files disk.new) (R.takings room.old) (R.takings room.new) report
        × Grew report (K.bytes out.old) (K.bytes out.new) }

    // A run that is done, where the disk and the sink tell.
    ensures run { result ≡ Status.Done → (spec : List ℕ) (budget : ℕ) → IsCommand (map string_bytes words.now) (run spec budget)
        → (files : Files) (put : List ℕ) → D.files disk.old ≡ Some files → K.bytes out.old ≡ Some put
        → (after : Files) × (put_after : List ℕ) × (D.files disk.new ≡ Some after) × (K.bytes out.new ≡ Some put_after)
        × IsWholeRun spec budget files after (R.takings room.old) (R.takings room.new) put put_after }

    // Formulas that are run, where the disk and the sink tell.
    ensures batch { result ≡ Status.Done → (spec : List ℕ) (budget : ℕ) → IsCommand (map string_bytes words.now) (batch spec budget)
        → (files : Files) (put : List ℕ) → D.files disk.old ≡ Some files → K.bytes out.old ≡ Some put
        → (after : Files) × (put_after : List ℕ) × (D.files disk.new ≡ Some after) × (K.bytes out.new ≡ Some put_after)
        × IsWholeBatch spec budget files after (R.takings room.old) (R.takings room.new) put put_after }

    // A tree that is run in pieces, where the disk and the sink tell.
    ensures spill { result ≡ Status.Done → (spec : List ℕ) (budget limit : ℕ) → IsCommand (map string_bytes words.now) (spill spec budget limit)
        → (files : Files) (put : List ℕ) → D.files disk.old ≡ Some files → K.bytes out.old ≡ Some put
        → (after : Files) × (put_after : List ℕ) × (D.files disk.new ≡ Some after) × (K.bytes out.new ≡ Some put_after)
        × IsWholeSpill spec budget limit files after (R.takings room.old) (R.takings room.new) put put_after }

    // An einsum that is done, where the disk tells.
    ensures einsum { result ≡ Status.Done → (text path spec : List ℕ) → IsCommand (map string_bytes words.now) (einsum text path spec)
        → (files : Files) → D.files disk.old ≡ Some files
        → (after : Files) × (D.files disk.new ≡ Some after) × IsWholeEinsum text path spec files after }

    // When each status comes: only where its cause stands, and where a cause stands no other status but a fault.
    ensures bad_words { result ≡ Status.BadWords → IsNoCommand (map string_bytes words.now) }
    ensures no_command { IsNoCommand (map string_bytes words.now) → (result ≡ Status.BadWords) ⊎ (result ≡ Status.WantOfMemory) }
    ensures cause { Told (map string_bytes words.now) (D.files disk.old) (λ files command. IsCause files command result) }
    ensures exactly { Told (map string_bytes words.now) (D.files disk.old) (λ files command.
        (due : Status) → (IsFault due → ⊥) → IsCause files command due → Answers result due) }
    // Whatever the disk tells: how a command may be refused, and no fault that is told by another status.
    ensures refused { IsRefusal result → OfCommand (map string_bytes words.now) (λ command. MayEnd command result) }
    ensures well_formed { IsWellFormed result }
    ensures disk_fault { FaultReported D.faults disk.old disk.new (result ≡ Status.DiskFault) }
    ensures sink_fault { HasCause (K.faults out.old) (K.faults out.new) (result ≡ Status.SinkFault) }

    // What each outcome leaves.
    ensures unchanged { IsRefusal result → (D.files disk.new ≡ D.files disk.old)
        × OfCommand (map string_bytes words.now) (λ command. KeepsRoom command (D.files disk.old) (R.takings room.old) (R.takings room.new)) }
    ensures untouched { IsNoCommand (map string_bytes words.now) → (D.files disk.new ≡ D.files disk.old) × (R.takings room.new ≡ R.takings room.old) }
    ensures line { HasLine result → NamesNoIndex result → (names : LineNames) → IsTensorOf (map string_bytes words.now) result names.tensor
        → HasErrorLine names result (K.bytes out.old) (K.bytes out.new) (K.faults out.old) (K.faults out.new) }
    ensures cert_line { (trouble : CertTrouble) → result ≡ Status.CertRefused trouble
        → (names : LineNames) × AreNamed (map string_bytes words.now) (D.files disk.old) names.space × HasErrorLine names result (K.bytes out.old) (K.bytes out.new) (K.faults out.old) (K.faults out.new) }
    ensures cut_short { result ≡ Status.SinkFault → (report : List ℕ)
        × IsFinished (map string_bytes words.now) (D.files disk.old) (D.files disk.new) (R.takings room.old) (R.takings room.new) report
        × GrewWithin report (K.bytes out.old) (K.bytes out.new) }
    ensures no_memory { result ≡ Status.WantOfMemory → (D.files disk.new ≡ D.files disk.old)
        ⊎ ((report : List ℕ) × IsFinished (map string_bytes words.now) (D.files disk.old) (D.files disk.new) (R.takings room.old) (R.takings room.new) report)
        ⊎ IsDemonstration (map string_bytes words.now)
        ⊎ IsPartOfBatch (map string_bytes words.now) (D.files disk.old) (D.files disk.new)
        ⊎ IsPartOfSpill (map string_bytes words.now) (D.files disk.old) (D.files disk.new) }
    ensures cut_off { result ≡ Status.DiskFault → OfCommand (map string_bytes words.now) (λ command. LeavesCutOff command (D.files disk.old) (D.files disk.new)) }
    ensures no_half { OfCommand (map string_bytes words.now) (λ command. LeavesNoHalf command (D.files disk.old) (D.files disk.new)) }
    ensures takings { OfCommand (map string_bytes words.now) (λ command. MayTake command (D.files disk.old) (D.files disk.new) (R.takings room.old) (R.takings room.new)) }
    ensures others { OfCommand (map string_bytes words.now) (λ command. OthersStay command (D.files disk.old) (D.files disk.new)) }
{
    let Some(command) = read_command(words) else {
        return refuse_words(out);
    };
    match perform(alloc, command, disk, room) {
        Ok(report) => finish(&report, out),
        Err(refusal) => refuse(refusal, out),
    }
}
