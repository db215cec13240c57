// The command `einsum`.
ghost use Rattle.std.specs.Prelude.{◌≡◌, ◌≢◌, length, Err, IfOk, IfErr};
ghost use Rattle.std.specs.String.{string_bytes};
ghost use Rattle.tce_outside.specs.Files.{others};
ghost use Rattle.tce_outside.specs.Fault.{FaultReported};
ghost use Rattle.tce_tree.specs.ContractionTree.{operations};
ghost use Rattle.tce_plan.specs.EinsumDone.{IsEinsumWritten, IsProducedWritten, einsum_report};
ghost use Rattle.tce_plan.specs.EinsumRefusals.{IsEinsumRefusal, TellsFault};
ghost use Rattle.tce_command.specs.Refusals.{IsFree, SameUnlessDisk};

use crate::saving::save;
use std::alloc::{AllocError, Global};
use tce_command::{EinsumTrouble, Refusal};
use tce_einsum::{EinsumFault, from_einsum};
use tce_outside::Disk;
use tce_spec::{Spec, print_spec};

/// Writes the specification of an einsum text and a path to a file, as its canonical text, and gives the report.
///
/// No file is read. Beside the refusals of the text and the path only want of memory and failures of the disk are
/// refused. All memory but the disk's own is taken before the file is made.
pub fn write_einsum<D: Disk>(
    alloc: Global,
    text: &str,
    path: &str,
    spec: &str,
    disk: &mut D,
) -> Result<String, Refusal>
    ensures done { IfOk result (λ report. IsEinsumWritten (D.files disk.old) (D.files disk.new)
        text.now path.now spec.now (string_bytes report)) }
    ensures refused { IfErr result (IsEinsumRefusal text.now path.now) }
    ensures unchanged { IfErr result (SameUnlessDisk (D.files disk.old) (D.files disk.new)) }
    ensures others { others spec.now (D.files disk.new) ≡ others spec.now (D.files disk.old) }
    ensures fault_reported { FaultReported D.faults disk.old disk.new (result ≡ Err Refusal.Disk) }
{
    let produced = match from_einsum(alloc, text.as_bytes(), path.as_bytes()) {
        Ok(produced) => produced,
        Err(fault) => return Err(refusal_of(fault)),
    };
    let done = write_produced(alloc, &produced, spec, disk);
    drop(produced);
    done
}

// Writes a specification as its canonical text, and gives the report. Only the disk may fail, or memory be wanting.
fn write_produced<D: Disk>(
    alloc: Global,
    produced: &Spec,
    spec: &str,
    disk: &mut D,
) -> Result<String, Refusal>
    ensures done { IfOk result (λ report. IsProducedWritten (D.files disk.old) (D.files disk.new)
        produced.now spec.now (string_bytes report)) }
    ensures free { IfErr result IsFree }
    ensures unchanged { IfErr result (SameUnlessDisk (D.files disk.old) (D.files disk.new)) }
    ensures others { others spec.now (D.files disk.new) ≡ others spec.now (D.files disk.old) }
    ensures fault_reported { FaultReported D.faults disk.old disk.new (result ≡ Err Refusal.Disk) }
{
    let Ok(written) = print_spec(alloc, produced) else {
        return Err(Refusal::Memory);
    };
    let Ok(report) = report(alloc, produced, spec, &written) else {
        return Err(Refusal::Memory);
    };
    save(disk, spec, &written)?;
    Ok(report)
}

// The refusal of a text and a path with this fault.
fn refusal_of(fault: EinsumFault) -> Refusal
    ensures no_disk { result ≢ Refusal.Disk }
    ensures told { TellsFault fault result }
{
    match fault {
        EinsumFault::BadText => Refusal::Einsum(EinsumTrouble::BadText),
        EinsumFault::BadSize(label) => Refusal::Einsum(EinsumTrouble::BadSize(label)),
        EinsumFault::BadPath(item) => Refusal::Einsum(EinsumTrouble::BadPath(item)),
        EinsumFault::Spec(fault) => Refusal::Einsum(EinsumTrouble::Spec(fault)),
        EinsumFault::Memory => Refusal::Memory,
    }
}

// The report of a specification whose text stands in this file.
fn report(alloc: Global, produced: &Spec, spec: &str, written: &[u8]) -> Result<String, AllocError>
    ensures { IfOk result (λ text. string_bytes text
        ≡ einsum_report (operations produced.now.tree) spec.now (length written.now)) }
{
    let nodes = produced.tree().count();
    let len = written.len();
    format!(in alloc; "tce einsum 1\nnodes {nodes}\nwrote {spec} {len}\n")
}
