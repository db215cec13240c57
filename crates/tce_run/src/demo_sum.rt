// The sum of a result.
ghost use Rattle.std.specs.Prelude.{◌≡◌, IfOk, IsErr};
ghost use Rattle.tce_outside.specs.Fault.{FaultReported};
ghost use Rattle.tce_run.specs.DemoDone.{HasResultArray, IsSumOfResult};

use tce_array::Form;
use tce_job::file_of;
use tce_outside::{Disk, Failed};
use tce_spec::Spec;
use tce_tools::{Buffers, cell_sum};

/// The sum of all elements of the result, modulo 2^64.
pub fn result_sum<D: Disk>(disk: &mut D, spec: &Spec, buffers: &mut Buffers) -> Result<u64, Failed>
    requires { HasResultArray (D.files disk.old) spec.now }
    ensures sum { IfOk result (IsSumOfResult (D.files disk.old) spec.now) }
    ensures same { D.files disk.new ≡ D.files disk.old }
    ensures fault_reported { FaultReported D.faults disk.old disk.new (IsErr result) }
{
    let result = spec.result().tensor;
    let file = file_of(spec, result);
    cell_sum(
        disk,
        Form::One,
        &spec.tensor(result).shape,
        file.as_str(),
        buffers,
    )
}
