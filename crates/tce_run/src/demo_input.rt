// What is run: a specification, and the arrays of its operands.
ghost use Rattle.std.specs.Prelude.{◌≡◌, ◌≤◌, ◌<◌, IfOk};
ghost use Rattle.tce_outside.specs.Files.{others};
ghost use Rattle.tce_outside.specs.Fault.{FaultReported, HasFailed};
ghost use Rattle.tce_tools.specs.Demo.{demo_text};
ghost use Rattle.tce_run.specs.DemoSpecification.{IsDemo, demo_specification};
ghost use Rattle.tce_run.specs.DemoFiles.{IsSeed, DemoOthersStay, LeavesArray, LeavesOperands, number_after, OnlyArrayDiffers, PutsArray, PutsOperands};
ghost use Rattle.tce_run.specs.DemoInput.{PutsInput};

use std::alloc::{AllocError, Global};
use tce_job::file_of;
use tce_outside::{Disk, OutFault};
use tce_spec::{Spec, read_spec};
use tce_tools::{Buffers, demo_array, demo_spec, write_file};

/// A text, and what it specifies.
#[derive(Drop)]
pub struct Example {
    pub text: Vec<u8>,
    pub spec: Spec,
}

/// The example with these extents.
pub fn make_example(alloc: Global, v: u64, o: u64) -> Result<Example, AllocError>
    requires v { (1 ≤ v) × (v ≤ 32) }
    requires o { (1 ≤ o) × (o ≤ 32) }
    ensures text { IfOk result (λ made. made.text.items ≡ demo_text v o) }
    ensures spec { IfOk result (λ made. made.spec ≡ demo_specification v o) }
{
    let text = demo_spec(alloc, v, o)?;
    // The text is a specification, so only memory can be wanting.
    let Ok(spec) = read_spec(alloc, &text) else {
        return Err(AllocError);
    };
    Ok(Example { text, spec })
}

// Writes the array of an operand, of the numbers drawn after this one, and gives the last of them.
fn write_array<D: Disk>(
    disk: &mut D,
    spec: &Spec,
    t: u8,
    number: u64,
    buffers: &mut Buffers,
) -> Result<u64, OutFault>
    requires spec { IsDemo spec.now }
    requires number { IsSeed number }
    requires operand { t < 4 }
    ensures written { PutsArray spec.now t number (D.files disk.old) (D.files disk.new) result }
    ensures last { IfOk result (λ last. last ≡ number_after spec.now t number) }
    ensures seed { IfOk result IsSeed }
    ensures no_half { LeavesArray spec.now t number (D.files disk.old) (D.files disk.new) }
    ensures alone { OnlyArrayDiffers spec.now t (D.files disk.old) (D.files disk.new) }
    ensures others { DemoOthersStay (D.files disk.old) (D.files disk.new) }
    ensures fault_reported { FaultReported D.faults disk.old disk.new (HasFailed result) }
{
    let file = file_of(spec, t);
    demo_array(disk, &spec.tensor(t).shape, file.as_str(), number, buffers)
}

// Writes the arrays of the operands. The numbers go on from array to array.
fn write_operands<D: Disk>(
    disk: &mut D,
    spec: &Spec,
    seed: u64,
    buffers: &mut Buffers,
) -> Result<(), OutFault>
    requires spec { IsDemo spec.now }
    requires seed { IsSeed seed }
    ensures written { PutsOperands spec.now seed (D.files disk.old) (D.files disk.new) result }
    ensures no_half { LeavesOperands spec.now seed (D.files disk.old) (D.files disk.new) }
    ensures others { DemoOthersStay (D.files disk.old) (D.files disk.new) }
    ensures fault_reported { FaultReported D.faults disk.old disk.new (HasFailed result) }
{
    let number = write_array(disk, spec, 0, seed, buffers)?;
    let number = write_array(disk, spec, 1, number, buffers)?;
    let number = write_array(disk, spec, 2, number, buffers)?;
    write_array(disk, spec, 3, number, buffers)?;
    Ok(())
}

/// Writes the file of the specification, and those of the operands.
pub fn write_input<D: Disk>(
    disk: &mut D,
    example: &Example,
    seed: u64,
    buffers: &mut Buffers,
) -> Result<(), OutFault>
    requires spec { IsDemo example.now.spec }
    requires seed { IsSeed seed }
    ensures written { PutsInput example.now seed (D.files disk.old) (D.files disk.new) result }
    ensures no_half { LeavesOperands example.now.spec seed (D.files disk.old) (D.files disk.new) }
    ensures others { DemoOthersStay (D.files disk.old) (D.files disk.new) }
    ensures fault_reported { FaultReported D.faults disk.old disk.new (HasFailed result) }
{
    write_file(disk, "demo.tce", &example.text)?;
    write_operands(disk, &example.spec, seed, buffers)
}
