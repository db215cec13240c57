// The file that a command writes.
ghost use Rattle.std.specs.Prelude.{◌≡◌, Err, OnOk, IfErr};
ghost use Rattle.tce_outside.specs.Files.{holding, others};
ghost use Rattle.tce_outside.specs.Fault.{FaultReported};
ghost use Rattle.tce_command.specs.Refusals.{IsFree, SameUnlessDisk};

use tce_command::Refusal;
use tce_outside::{Disk, OutFault};
use tce_tools::write_file;

/// Puts a file with these bytes in the place of whatever has this name. Only the disk may fail, or memory be wanting.
pub fn save<D: Disk>(disk: &mut D, name: &str, bytes: &[u8]) -> Result<(), Refusal>
    ensures made { OnOk result (D.files disk.new ≡ holding name.now bytes.now (D.files disk.old)) }
    ensures free { IfErr result IsFree }
    ensures unchanged { IfErr result (SameUnlessDisk (D.files disk.old) (D.files disk.new)) }
    ensures others { others name.now (D.files disk.new) ≡ others name.now (D.files disk.old) }
    ensures fault_reported { FaultReported D.faults disk.old disk.new (result ≡ Err Refusal.Disk) }
{
    match write_file(disk, name, bytes) {
        Ok(()) => Ok(()),
        Err(OutFault::Failed) => Err(Refusal::Disk),
        Err(OutFault::Memory) => Err(Refusal::Memory),
    }
}
