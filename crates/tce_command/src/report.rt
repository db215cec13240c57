// What is put on the sink.
ghost use Rattle.std.specs.Prelude.{◌≡◌};
ghost use Rattle.tce_outside.specs.Fault.{FaultReported, HasCause};
ghost use Rattle.tce_command.specs.Outcome.{Grew, GrewWithin, HasLine, IsKept, IsReported, PutsLine, PutsStatus};
ghost use Rattle.tce_command.specs.CommandRefusals.{PutsRefusal};
ghost use Rattle.tce_command.specs.Report.{IsWellFormed, ending_of};

use crate::command_refusal::CommandRefusal;
use crate::line::{refusal_line, words_line};
use crate::status::Status;
use tce_outside::{OutFault, Sink};

/// Puts the line of a refusal, and gives the status that the command ends with: `WantOfMemory` in the place of that of
/// the refusal where the sink has no memory for the line, but never in the place of `DiskFault`.
#[tactic(auto, using(crate::proofs::Statuses::ends_well_formed))]
pub fn refuse<K: Sink>(refusal: CommandRefusal, out: &mut K) -> Status
    ensures kept { IsKept (ending_of refusal) result }
    ensures well_formed { IsWellFormed result }
    ensures line { PutsRefusal refusal result K.bytes K.faults out.old out.new }
    ensures cause { HasCause (K.faults out.old) (K.faults out.new) ⊥ }
{
    match refusal {
        CommandRefusal::Common(refusal) => {
            let line = refusal_line(&refusal);
            put_line(refusal.status(), line.as_str(), out)
        }
        CommandRefusal::Certificate(flaw, line) => {
            put_line(Status::CertRefused(flaw.trouble()), line.text.as_str(), out)
        }
    }
}

/// Puts the line of words that are those of no command, and gives the status that the program ends with: `BadWords`,
/// or `WantOfMemory` where the sink has no memory for the line.
pub fn refuse_words<K: Sink>(out: &mut K) -> Status
    ensures kept { IsKept Status.BadWords result }
    ensures well_formed { IsWellFormed result }
    ensures line { PutsStatus result K.bytes K.faults out.old out.new }
    ensures cause { HasCause (K.faults out.old) (K.faults out.new) ⊥ }
{
    let line = words_line();
    put_line(Status::BadWords, line.as_str(), out)
}

// Puts the line of a status.
fn put_line<K: Sink>(status: Status, line: &str, out: &mut K) -> Status
    requires line { HasLine status }
    requires well_formed { IsWellFormed status }
    ensures kept { IsKept status result }
    ensures well_formed { IsWellFormed result }
    ensures line { PutsLine line.now status result K.bytes K.faults out.old out.new }
    ensures cause { HasCause (K.faults out.old) (K.faults out.new) ⊥ }
{
    match out.put(line.as_bytes()) {
        // A failing disk is always told.
        Err(OutFault::Memory) if !matches!(status, Status::DiskFault) => Status::WantOfMemory,
        _ => status,
    }
}

/// Puts the report of a finished command, and gives the status that the command ends with.
pub fn finish<K: Sink>(report: &[u8], out: &mut K) -> Status
    ensures done { result ≡ Status.Done → Grew report.now (K.bytes out.old) (K.bytes out.new) }
    ensures failed { result ≡ Status.SinkFault
        → GrewWithin report.now (K.bytes out.old) (K.bytes out.new) }
    ensures memory { result ≡ Status.WantOfMemory → K.bytes out.new ≡ K.bytes out.old }
    ensures cases { IsReported result }
    ensures well_formed { IsWellFormed result }
    ensures fault_reported { FaultReported K.faults out.old out.new (result ≡ Status.SinkFault) }
{
    match out.put(report) {
        Ok(()) => Status::Done,
        Err(OutFault::Failed) => Status::SinkFault,
        Err(OutFault::Memory) => Status::WantOfMemory,
    }
}
