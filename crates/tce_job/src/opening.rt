// The files of the operands.
ghost use Rattle.std.specs.Prelude.{◌≡◌, ◌<◌, IfOk, IfErr, length};
ghost use Rattle.tce_outside.specs.Fault.{FaultReported};
ghost use Rattle.tce_job.specs.TensorFiles.{file_of};
ghost use Rattle.tce_job.specs.Opened.{HasArrayOn, HasFaultOn, AreOpenedOn, IsRefusedOn, IsOfDeclared, IsDiskFault};

use crate::naming::file_of;
use tce_array::{ArrayFault, Form, open};
use tce_outside::Disk;
use tce_space::MAX_TENSORS;
use tce_spec::Spec;

/// The forms of the operands' files, by the numbers of their tensors. That of another tensor may be any.
#[derive(Clone, Copy)]
pub struct Forms(pub [Form; MAX_TENSORS]);

/// An operand that is refused, by the number of its tensor, and why.
#[derive(Clone, Copy)]
pub struct Refused {
    pub tensor: u8,
    pub fault: ArrayFault,
}

// Opens the file of one tensor.
fn open_tensor<D: Disk>(spec: &Spec, t: u8, disk: &mut D) -> Result<Form, Refused>
    requires { t < length spec.now.declarations.tensors }
    ensures opened { IfOk result (HasArrayOn (D.files disk.old) spec.now t) }
    ensures tensor { IfErr result (λ refused. refused.tensor ≡ t) }
    ensures declared { IfErr result (IsOfDeclared spec.now) }
    ensures fault { IfErr result (HasFaultOn (D.files disk.old) spec.now t) }
    ensures same { D.files disk.new ≡ D.files disk.old }
    ensures fault_reported { FaultReported D.faults disk.old disk.new (IsDiskFault result) }
{
    let name = file_of(spec, t);
    match open(disk, name.as_str(), &spec.tensor(t).shape) {
        Ok(form) => Ok(form),
        Err(fault) => Err(Refused { tensor: t, fault }),
    }
}

/// Opens the files of the operands, in the order of their first use.
///
/// The first operand that is refused decides; the fault `Disk` comes only where the disk failed. No file changes.
pub fn open_operands<D: Disk>(spec: &Spec, disk: &mut D) -> Result<Forms, Refused>
    ensures opened { IfOk result (λ forms. AreOpenedOn (D.files disk.old) spec.now forms.0) }
    ensures refused { IfErr result (IsRefusedOn (D.files disk.old) spec.now) }
    ensures declared { IfErr result (IsOfDeclared spec.now) }
    ensures same { D.files disk.new ≡ D.files disk.old }
    ensures fault_reported { FaultReported D.faults disk.old disk.new (IsDiskFault result) }
{
    let operands = spec.operands();
    // A specification keeps its rules.
    let _tree = spec.tree();
    let mut forms = [Form::One; MAX_TENSORS];
    for t in operands.as_slice() {
        forms[*t as usize] = open_tensor(spec, *t, disk)?;
    }
    Ok(Forms(forms))
}
