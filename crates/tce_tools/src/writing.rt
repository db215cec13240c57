// New files.
ghost use Rattle.std.specs.Prelude.{◌≡◌, OnOk, IsErrOf};
ghost use Rattle.tce_outside.specs.Files.{holding, others};
ghost use Rattle.tce_outside.specs.Fault.{FaultReported, HasFailed};

use tce_outside::{Disk, OutFault};

/// Puts a file with these bytes in the place of whatever has this name.
pub fn write_file<D: Disk>(disk: &mut D, name: &str, bytes: &[u8]) -> Result<(), OutFault>
    ensures made { OnOk result (D.files disk.new ≡ holding name.now bytes.now (D.files disk.old)) }
    ensures memory { IsErrOf result OutFault.Memory → D.files disk.new ≡ D.files disk.old }
    ensures others { others name.now (D.files disk.new) ≡ others name.now (D.files disk.old) }
    ensures fault_reported { FaultReported D.faults disk.old disk.new (HasFailed result) }
{
    disk.make(name, bytes.len() as u64)?;
    match disk.write_at(name, 0, bytes) {
        Ok(()) => Ok(()),
        Err(_) => Err(OutFault::Failed),
    }
}
