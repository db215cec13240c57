// The command `cert`.
ghost use Rattle.std.specs.Prelude.{◌≡◌, Err, IfOk, IfErr};
ghost use Rattle.std.specs.String.{string_bytes};
ghost use Rattle.tce_outside.specs.Files.{others};
ghost use Rattle.tce_outside.specs.Fault.{FaultReported};
ghost use Rattle.tce_command.specs.Command.{NamesCertificate, NamesSpec};
ghost use Rattle.tce_command.specs.Refusals.{IsFree, SameUnlessDisk};
ghost use Rattle.tce_plan.specs.CertificateDone.{IsCertified, IsSaved};
ghost use Rattle.tce_plan.specs.CertificateRefusals.{IsCertifyRefusalIfTold};

use crate::certificate::certificate_of;
use crate::saving::save;
use std::alloc::Global;
use tce_command::{Refusal, read_source};
use tce_outside::Disk;
use tce_spec::Spec;

/// Writes the certificate of a plan of least memory for the specification in a file, and gives the report.
///
/// Beside the refusals of the specification itself only want of memory and failures of the disk are refused. All
/// memory but the disk's own is taken before the file is made.
pub fn certify<D: Disk>(
    alloc: Global,
    spec: &str,
    cert: &str,
    disk: &mut D,
) -> Result<String, Refusal>
    requires spec { NamesSpec spec.now }
    requires cert { NamesCertificate cert.now }
    ensures done { IfOk result (λ report. IsCertified (D.files disk.old) (D.files disk.new)
        spec.now cert.now (string_bytes report)) }
    ensures refused { IfErr result (IsCertifyRefusalIfTold (D.files disk.old) spec.now) }
    ensures unchanged { IfErr result (SameUnlessDisk (D.files disk.old) (D.files disk.new)) }
    ensures others { others cert.now (D.files disk.new) ≡ others cert.now (D.files disk.old) }
    ensures fault_reported { FaultReported D.faults disk.old disk.new (result ≡ Err Refusal.Disk) }
{
    let source = read_source(alloc, disk, spec)?;
    let done = certify_source(alloc, &source, cert, disk);
    drop(source);
    done
}

// The same of a specification that was read: only the disk may fail, or memory be wanting.
fn certify_source<D: Disk>(
    alloc: Global,
    source: &Spec,
    cert: &str,
    disk: &mut D,
) -> Result<String, Refusal>
    ensures done { IfOk result (λ report. IsSaved (D.files disk.old) (D.files disk.new)
        source.now cert.now (string_bytes report)) }
    ensures free { IfErr result IsFree }
    ensures unchanged { IfErr result (SameUnlessDisk (D.files disk.old) (D.files disk.new)) }
    ensures others { others cert.now (D.files disk.new) ≡ others cert.now (D.files disk.old) }
    ensures fault_reported { FaultReported D.faults disk.old disk.new (result ≡ Err Refusal.Disk) }
{
    let Ok(made) = certificate_of(alloc, source, cert) else {
        return Err(Refusal::Memory);
    };
    save(disk, cert, &made.text)?;
    Ok(made.into_report())
}
