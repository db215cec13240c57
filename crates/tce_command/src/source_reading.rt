// Files of specifications.
ghost use Rattle.std.specs.Prelude.{◌≡◌, ◌≤◌, ◌↔◌, IsTrue, length, Some, Err, IfOk, IfErr};
ghost use Rattle.tce_outside.specs.Fault.{FaultReported};
ghost use Rattle.tce_spec.specs.Declarations.{HaveNames};
ghost use Rattle.tce_command.specs.Source.{IsTooLong, HasSpecificationOn, IsSourceRefusalOn, HoldsOn, IsTextRefusalOn};

use crate::refusal::Refusal;
use std::alloc::Global;
use tce_outside::Disk;
use tce_space::MAX_SPEC_BYTES;
use tce_spec::{Spec, SpecFault, read_spec};

/// Reads the specification in a file.
///
/// Of a file that is too long no more is read than shows it.
pub fn read_source<D: Disk>(alloc: Global, disk: &mut D, name: &str) -> Result<Spec, Refusal>
    requires { length name.now ≤ 200 }
    ensures read { IfOk result (HasSpecificationOn (D.files disk.old) name.now) }
    ensures names { IfOk result (λ s. HaveNames s.declarations.tensors) }
    ensures refused { IfErr result (IsSourceRefusalOn (D.files disk.old) name.now) }
    ensures same { D.files disk.new ≡ D.files disk.old }
    ensures fault_reported { FaultReported D.faults disk.old disk.new (result ≡ Err Refusal.Disk) }
{
    let text = read_text(alloc, disk, name)?;
    match read_spec(alloc, &text) {
        Ok(spec) => Ok(spec),
        Err(fault) if is_memory(&fault) => Err(Refusal::Memory),
        Err(fault) => Err(Refusal::Specification(fault)),
    }
}

/// Whether a fault is want of memory.
pub fn is_memory(fault: &SpecFault) -> bool
    ensures { IsTrue result ↔ (fault.now ≡ SpecFault.Memory) }
{
    matches!(fault, SpecFault::Memory)
}

/// Reads a text that is not too long.
pub fn read_text<D: Disk>(alloc: Global, disk: &mut D, name: &str) -> Result<Vec<u8>, Refusal>
    requires { length name.now ≤ 200 }
    ensures bytes { IfOk result (λ bytes. HoldsOn (D.files disk.old) name.now bytes.items) }
    ensures refused { IfErr result (IsTextRefusalOn (D.files disk.old) IsTooLong name.now) }
    ensures same { D.files disk.new ≡ D.files disk.old }
    ensures fault_reported { FaultReported D.faults disk.old disk.new (result ≡ Err Refusal.Disk) }
{
    let Ok(size) = disk.size(name) else {
        return Err(Refusal::Disk);
    };
    let Some(len) = size else {
        return Err(Refusal::missing(name));
    };
    if len > MAX_SPEC_BYTES as u64 {
        return Err(Refusal::Specification(SpecFault::TooLong));
    }
    let Ok(mut bytes) = vec![in alloc; 0; len as usize] else {
        return Err(Refusal::Memory);
    };
    match disk.read_at(name, 0, &mut bytes) {
        Ok(()) => Ok(bytes),
        Err(_) => Err(Refusal::Disk),
    }
}
