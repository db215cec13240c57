// Files of several formulas.
ghost use Rattle.std.specs.Prelude.{◌≡◌, ◌≤◌, length, Err, IfOk, IfErr};
ghost use Rattle.tce_outside.specs.Fault.{FaultReported};
ghost use Rattle.tce_run.specs.BatchSource.{HasBatchOn, IsBatchSourceRefusalOn};

use std::alloc::Global;
use tce_batch::{Batch, read_batch};
use tce_command::{Refusal, is_memory, read_text};
use tce_outside::Disk;

/// Reads the formulas in a file, in order.
///
/// Of a file that is too long no more is read than shows it.
pub fn read_batch_source<D: Disk>(alloc: Global, disk: &mut D, name: &str) -> Result<Batch, Refusal>
    requires { length name.now ≤ 200 }
    ensures read { IfOk result (HasBatchOn (D.files disk.old) name.now) }
    ensures refused { IfErr result (IsBatchSourceRefusalOn (D.files disk.old) name.now) }
    ensures same { D.files disk.new ≡ D.files disk.old }
    ensures fault_reported { FaultReported D.faults disk.old disk.new (result ≡ Err Refusal.Disk) }
{
    let text = read_text(alloc, disk, name)?;
    match read_batch(alloc, &text) {
        Ok(batch) => Ok(batch),
        Err(fault) if is_memory(&fault) => Err(Refusal::Memory),
        Err(fault) => Err(Refusal::Specification(fault)),
    }
}
