// The files of a specification's operands.
ghost use Rattle.std.specs.Prelude.{◌≡◌, Err, IfOk, IfErr};
ghost use Rattle.std.specs.Option.{ForSome};
ghost use Rattle.tce_outside.specs.Fault.{FaultReported};
ghost use Rattle.tce_job.specs.Opened.{AreOpened, operand_count};
ghost use Rattle.tce_spill.specs.declared.fault.SpillFault.{SpillFault as Fault};
ghost use Rattle.tce_spill.specs.RunRefusals.{IsOpeningFault};

use crate::fault::SpillFault;
use tce_job::{Forms, JobFault, opened_forms};
use tce_outside::Disk;
use tce_spec::Spec;

/// The forms of the files of a specification's operands.
///
/// It is refused with `Array` and the first operand by first use that is refused, or with `Disk`.
pub(crate) fn open_all<D: Disk>(spec: &Spec, disk: &mut D) -> Result<Forms, SpillFault>
    ensures opened { IfOk result (λ forms. ForSome (D.files disk.old) (λ files. AreOpened files spec.now forms.0 (operand_count spec.now))) }
    ensures refused { IfErr result (IsOpeningFault (D.files disk.old) spec.now) }
    ensures same { D.files disk.new ≡ D.files disk.old }
    ensures fault_reported { FaultReported D.faults disk.old disk.new (result ≡ Err Fault.Disk) }
{
    match opened_forms(spec, disk) {
        Ok(forms) => Ok(forms),
        Err(JobFault::Array(t, fault)) => Err(SpillFault::Array(spec.tensor(t).name, fault)),
        Err(_) => Err(SpillFault::Disk),
    }
}
