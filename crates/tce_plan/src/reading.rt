// Files of certificates.
ghost use Rattle.std.specs.Prelude.{◌≡◌, ◌≤◌, length, Some, Err, IfOk, IfErr};
ghost use Rattle.std.specs.Option.{ForSome};
ghost use Rattle.tce_outside.specs.Files.{file};
ghost use Rattle.tce_outside.specs.Fault.{FaultReported};
ghost use Rattle.tce_plan.specs.VerificationRefusals.{IsUnreadOn};

use std::alloc::Global;
use tce_command::Refusal;
use tce_outside::Disk;

/// Reads a file whole, however long it is.
pub fn read_file<D: Disk>(alloc: Global, disk: &mut D, name: &str) -> Result<Vec<u8>, Refusal>
    requires { length name.now ≤ 200 }
    ensures bytes { IfOk result (λ bytes. ForSome (D.files disk.old) (λ files. file files name.now ≡ Some bytes.items)) }
    ensures refused { IfErr result (IsUnreadOn (D.files disk.old) name.now) }
    ensures same { D.files disk.new ≡ D.files disk.old }
    ensures fault_reported { FaultReported D.faults disk.old disk.new (result ≡ Err Refusal.Disk) }
{
    let Ok(size) = disk.size(name) else {
        return Err(Refusal::Disk);
    };
    let Some(len) = size else {
        return Err(Refusal::missing(name));
    };
    let Ok(mut bytes) = vec![in alloc; 0; len as usize] else {
        return Err(Refusal::Memory);
    };
    match disk.read_at(name, 0, &mut bytes) {
        Ok(()) => Ok(bytes),
        Err(_) => Err(Refusal::Disk),
    }
}
