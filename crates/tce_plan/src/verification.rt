// The command `check`.
ghost use Rattle.std.specs.Prelude.{◌≡◌, ◌≤◌, length, Err, IfOk, IfErr};
ghost use Rattle.std.specs.String.{string_bytes};
ghost use Rattle.tce_outside.specs.Fault.{FaultReported};
ghost use Rattle.tce_command.specs.Command.{NamesCertificate, NamesSpec};
ghost use Rattle.tce_command.specs.CommandRefusals.{IsWrittenOver};
ghost use Rattle.tce_plan.specs.VerificationDone.{report_text, IsVerified};
ghost use Rattle.tce_plan.specs.Judging.{IsJudgement};
ghost use Rattle.tce_plan.specs.OfFile.{IsRefusedForOn, IsVerifiedFor, IsVerifiedText};
ghost use Rattle.tce_plan.specs.VerificationRefusals.{IsWrittenFor, IsVerifyRefusalOn, IsDiskFault};

use crate::judging::judge;
use crate::reading::read_file;
use std::alloc::{AllocError, Global};
use tce_command::{CommandRefusal, Refusal, read_source};
use tce_outside::Disk;
use tce_spec::Spec;

/// Checks the certificate in a file for the specification in another, and gives the report. Nothing is written.
///
/// Refused are, in this order: the specification; a certificate that is not there; the first faulty line of its text;
/// the first rule that its plan breaks. The text is read whole, so a file that no memory holds is want of memory.
pub fn verify<D: Disk>(
    alloc: Global,
    spec: &str,
    cert: &str,
    disk: &mut D,
) -> Result<String, CommandRefusal>
    requires spec { NamesSpec spec.now }
    requires cert { NamesCertificate cert.now }
    ensures done { IfOk result (λ report. IsVerified (D.files disk.old)
        spec.now cert.now (string_bytes report)) }
    ensures refused { IfErr result (IsVerifyRefusalOn (D.files disk.old) spec.now cert.now) }
    ensures line { IfErr result (λ refusal. IsWrittenFor (D.files disk.old) spec.now refusal) }
    ensures unchanged { D.files disk.new ≡ D.files disk.old }
    ensures fault_reported { FaultReported D.faults disk.old disk.new (IsDiskFault result) }
{
    let source = read_source(alloc, disk, spec)?;
    let verified = verify_file(alloc, &source, cert, disk);
    drop(source);
    verified
}

// Checks the certificate in a file for a specification, and gives the report.
fn verify_file<D: Disk>(
    alloc: Global,
    spec: &Spec,
    cert: &str,
    disk: &mut D,
) -> Result<String, CommandRefusal>
    requires { length cert.now ≤ 200 }
    ensures done { IfOk result (λ report. IsVerifiedFor (D.files disk.old)
        spec.now cert.now (string_bytes report)) }
    ensures refused { IfErr result (IsRefusedForOn (D.files disk.old) spec.now cert.now) }
    ensures line { IfErr result (IsWrittenOver spec.now.declarations.space) }
    ensures unchanged { D.files disk.new ≡ D.files disk.old }
    ensures fault_reported { FaultReported D.faults disk.old disk.new (IsDiskFault result) }
{
    let text = read_file(alloc, disk, cert)?;
    let verified = text_report(alloc, spec, &text);
    drop(text);
    verified
}

// The report on a text that is the certificate of an accepted plan.
fn text_report(alloc: Global, spec: &Spec, text: &[u8]) -> Result<String, CommandRefusal>
    ensures done { IfOk result (λ report. IsVerifiedText spec.now text.now (string_bytes report)) }
    ensures refused { IfErr result (IsJudgement spec.now text.now) }
{
    let memory = judge(alloc, spec, text)?;
    match report(alloc, memory) {
        Ok(report) => Ok(report),
        Err(_) => Err(CommandRefusal::Common(Refusal::Memory)),
    }
}

// The report on a plan of so much memory, in elements.
fn report(alloc: Global, memory: u128) -> Result<String, AllocError>
    ensures { IfOk result (λ text. string_bytes text ≡ report_text memory) }
{
    format!(in alloc; "tce check 1\naccepted memory {memory}\n")
}
