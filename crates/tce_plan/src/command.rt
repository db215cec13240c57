// The command `plan`.
ghost use Rattle.std.specs.Prelude.{◌≡◌, Err, IfOk, IfErr};
ghost use Rattle.tce_outside.specs.Fault.{FaultReported};
ghost use Rattle.tce_command.specs.Command as commands;
ghost use Rattle.tce_command.specs.Command.{KeepsRules};
ghost use Rattle.tce_plan.specs.Done.{IsPlanReport, IsPlanned};
ghost use Rattle.tce_plan.specs.Refusals.{IsPlanRefusalOn};

use std::alloc::{AllocError, Global};
use tce_command::{Refusal, read_source};
use tce_outside::Disk;
use tce_report::plan_text;
use tce_search::search;
use tce_spec::Spec;

/// The report of a plan of least memory for the specification in a file. Nothing is written.
///
/// Beside the refusals of the specification itself only want of memory and failures of the disk are refused.
pub fn plan<D: Disk>(alloc: Global, spec: &str, disk: &mut D) -> Result<Vec<u8>, Refusal>
    requires { KeepsRules (commands.plan spec.now) }
    ensures done { IfOk result (λ report. IsPlanned (D.files disk.old) spec.now report.items) }
    ensures refused { IfErr result (IsPlanRefusalOn (D.files disk.old) spec.now) }
    ensures unchanged { D.files disk.new ≡ D.files disk.old }
    ensures fault_reported { FaultReported D.faults disk.old disk.new (result ≡ Err Refusal.Disk) }
{
    let source = read_source(alloc, disk, spec)?;
    let made = plan_source(alloc, &source);
    drop(source);
    made
}

// The same of a specification that was read: only memory may be wanting.
fn plan_source(alloc: Global, source: &Spec) -> Result<Vec<u8>, Refusal>
    ensures done { IfOk result (λ report. IsPlanReport source.now report.items) }
    ensures refused { IfErr result (λ refusal. refusal ≡ Refusal.Memory) }
{
    match least_report(alloc, source) {
        Ok(report) => Ok(report),
        Err(_) => Err(Refusal::Memory),
    }
}

// The report of a plan of least memory.
fn least_report(alloc: Global, spec: &Spec) -> Result<Vec<u8>, AllocError>
    ensures { IfOk result (λ report. IsPlanReport spec.now report.items) }
{
    let space = spec.space();
    let tree = spec.tree();
    let least = search(alloc, space, tree)?;
    let text = plan_text(alloc, space, tree, &least);
    drop(least);
    text
}
