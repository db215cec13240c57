// The files of the operands that are no earlier result.
ghost use Rattle.std.specs.Prelude.{◌≡◌, ◌≢◌, ◌⊎◌, ◌<◌, ◌≤◌, Err, IfOk, IfErr, OnOk, OnErr, Some, length, slice_get};
ghost use Rattle.std.specs.Option.{ForSome};
ghost use Rattle.tce_outside.specs.Fault.{FaultReported};
ghost use Rattle.tce_job.specs.declared.fault.JobFault.{JobFault as Fault};
ghost use Rattle.tce_spec.specs.Specification.{Specification};
ghost use Rattle.tce_spec.specs.Operands.{shape_of};
ghost use Rattle.tce_array.specs.Faults.{IsFault};
ghost use Rattle.tce_job.specs.Opened.{HasArray};
ghost use Rattle.tce_outside.specs.Files.{file};
ghost use Rattle.tce_job.specs.TensorFiles.{file_of};
ghost use Rattle.tce_batch.specs.BatchCode.{results_before};
ghost use Rattle.tce_batch.specs.Refusals.{IsSource, IsOperandFault, IsOpeningFault};
ghost use Rattle.tce_batch.specs.Told.{HoldsOf, HasSourceFile, HasSourceFiles, HasAllSources, IsSourceFaultOf, HasDiskFault};

use crate::batch::Batch;
use crate::fault::{BatchFault, before_runs};
use std::alloc::Global;
use tce_array::{ArrayFault, open};
use tce_job::{JobFault, file_of};
use tce_outside::Disk;
use tce_spec::Spec;

// Opens the file of one tensor.
fn open_tensor<D: Disk>(spec: &Spec, t: u8, disk: &mut D) -> Result<(), JobFault>
    requires { t < length spec.now.declarations.tensors }
    ensures opened { OnOk result (ForSome (D.files disk.old) (λ files. HasArray files spec.now t)) }
    ensures refused { IfErr result (IsOperandFault (D.files disk.old) spec.now t) }
    ensures same { D.files disk.new ≡ D.files disk.old }
    ensures fault_reported { FaultReported D.faults disk.old disk.new (result ≡ Err Fault.Disk) }
{
    let name = file_of(spec, t);
    match open(disk, name.as_str(), &spec.tensor(t).shape) {
        Ok(_) => Ok(()),
        Err(ArrayFault::Disk) => Err(JobFault::Disk),
        Err(fault) => Err(JobFault::Array(t, fault)),
    }
}

// Opens the file of one operand, unless it is a result of the formulas in front.
fn open_source<D: Disk>(
    batch: &Batch,
    number: usize,
    spec: &Spec,
    t: u8,
    disk: &mut D,
) -> Result<(), JobFault>
    requires number { number < length batch.now }
    requires declared { t < length spec.now.declarations.tensors }
    ensures opened { OnOk result (HasSourceFile (D.files disk.old) batch.now number spec.now t) }
    ensures source { OnErr result (IsSource (results_before batch.now number) t) }
    ensures refused { IfErr result (IsOperandFault (D.files disk.old) spec.now t) }
    ensures same { D.files disk.new ≡ D.files disk.old }
    ensures fault_reported { FaultReported D.faults disk.old disk.new (result ≡ Err Fault.Disk) }
{
    if batch.is_result_before(number, t) {
        return Ok(());
    }
    open_tensor(spec, t, disk)
}

// Opens the files of the operands of a formula that are no result of the formulas in front of it, by first use.
fn open_formula<D: Disk>(
    batch: &Batch,
    number: usize,
    spec: &Spec,
    disk: &mut D,
) -> Result<(), JobFault>
    requires { number < length batch.now }
    ensures opened { OnOk result (HasSourceFiles (D.files disk.old) batch.now number spec.now) }
    ensures refused { IfErr result (IsSourceFaultOf (D.files disk.old) batch.now number spec.now) }
    ensures same { D.files disk.new ≡ D.files disk.old }
    ensures fault_reported { FaultReported D.faults disk.old disk.new (result ≡ Err Fault.Disk) }
{
    let operands = spec.operands();
    // A specification keeps its rules.
    let _tree = spec.tree();
    for t in operands.as_slice() {
        open_source(batch, number, spec, *t, disk)?;
    }
    Ok(())
}

// The same by the formula's number, from 0.
fn open_numbered<D: Disk>(
    alloc: Global,
    batch: &Batch,
    number: usize,
    disk: &mut D,
) -> Result<(), JobFault>
    requires { number < length batch.now }
    ensures opened { OnOk result (HoldsOf batch.now number
        (λ s. HasSourceFiles (D.files disk.old) batch.now number s)) }
    ensures refused { IfErr result (λ fault. (fault ≡ Fault.Memory) ⊎ HoldsOf batch.now number
        (λ s. IsSourceFaultOf (D.files disk.old) batch.now number s fault)) }
    ensures same { D.files disk.new ≡ D.files disk.old }
    ensures fault_reported { FaultReported D.faults disk.old disk.new (result ≡ Err Fault.Disk) }
{
    let Ok(spec) = batch.spec(alloc, number) else {
        return Err(JobFault::Memory);
    };
    let opened = open_formula(batch, number, &spec, disk);
    drop(spec);
    opened
}

/// Opens the files of all operands that are no earlier result, formula by formula.
pub(crate) fn open_sources<D: Disk>(
    alloc: Global,
    batch: &Batch,
    disk: &mut D,
) -> Result<(), BatchFault>
    ensures opened { OnOk result (HasAllSources (D.files disk.old) batch.now) }
    ensures refused { IfErr result (IsOpeningFault (D.files disk.old) batch.now) }
    ensures same { D.files disk.new ≡ D.files disk.old }
    ensures fault_reported { FaultReported D.faults disk.old disk.new (HasDiskFault result) }
{
    let count = batch.len();
    for number in 0..count {
        if let Err(fault) = open_numbered(alloc, batch, number, disk) {
            return Err(before_runs(number, fault));
        }
    }
    Ok(())
}
