//! Specifications from einsums.

ghost use Rattle.std.specs.Prelude.{◌≡◌, ◌≤◌, ◌⊎◌, IfOk, Result, length};
ghost use Rattle.tce_spec.specs.Declarations.{HaveNames};
ghost use Rattle.tce_spec.specs.Faults.{Fault};
ghost use Rattle.tce_spec.specs.Specification.{Specification};
ghost use Rattle.tce_spec.specs.Outcome.{IsOutcome};
ghost use Rattle.tce_spec.specs.OutcomeCode.{Answers};
ghost use Rattle.tce_spec.specs.declared.fault.SpecFault.TheVariants as spec_faults;
ghost use Rattle.tce_einsum.specs.Answer.{AnswersEinsum};
ghost use Rattle.tce_einsum.specs.Code as code;
ghost use Rattle.tce_einsum.specs.HasValue.{HasValueOfEinsum};
ghost use Rattle.tce_einsum.specs.Path.{Leave};
ghost use Rattle.tce_einsum.specs.Produced.{produced_text};

use crate::fault::EinsumFault;
use crate::input::{Input, read_input};
use crate::produced::print_produced;
use std::alloc::Global;
use tce_spec::{Spec, SpecFault, read_spec};

/// The line of an operand has 12 bytes or more: a produced text of more operands is longer than a text may be.
const MAX_OPERANDS: usize = 5460;

/// The specification of an einsum that is read.
fn from_input(alloc: Global, input: &Input) -> Result<Spec, SpecFault>
    requires few { length input.now.einsum.sizes.items ≤ 26 }
    requires leave { Leave (length input.now.einsum.operands.items) (code.items input.now.items.items) 1 }
    ensures answers { (found : Result Specification Fault)
        → IsOutcome (produced_text (code.einsum input.now.einsum) (code.items input.now.items.items)) found → Answers found result }
    ensures names { IfOk result (λ s. HaveNames s.declarations.tensors) }
{
    if input.einsum.operands.len() > MAX_OPERANDS {
        return Err(SpecFault::TooLong);
    }
    let text = print_produced(alloc, input)?;
    read_spec(alloc, text.as_slice())
}

/// What is answered of a fault of the produced text.
fn fault_of(fault: SpecFault) -> EinsumFault
    ensures answers { ((fault ≡ spec_faults.Memory) × (result ≡ EinsumFault.Memory))
        ⊎ ((fault ≡ spec_faults.Memory → ⊥) × (result ≡ EinsumFault.Spec fault)) }
{
    match fault {
        SpecFault::Memory => EinsumFault::Memory,
        other => EinsumFault::Spec(other),
    }
}

/// The specification of an einsum: `operands->output@sizes` without blanks, as `ik,kj->ij@i=2,k=2,j=2`, with a path of
/// items with `;` between them, each one position or two with `,` between them, as `0,1;0,1`.
///
/// The entries of the path begin with the operands `X0`, `X1` and so on. An item takes out the entries at its positions
/// and appends one: the entry itself, or the product of two, the first one named on the left, in a sum over its labels
/// that stand neither in the output nor in another entry. The result is `Y`, over the labels of the output in their
/// order. Each different pair of extent and edge is a range `N0`, `N1` and so on.
///
/// `BadText`, else `BadSize`, else `BadPath`, else `Spec`, as [`EinsumFault`] says.
pub fn from_einsum(alloc: Global, text: &[u8], path: &[u8]) -> Result<Spec, EinsumFault>
    ensures answers { AnswersEinsum text.now path.now result }
    ensures value { IfOk result (λ s. HasValueOfEinsum text.now path.now s) }
    ensures names { IfOk result (λ s. HaveNames s.declarations.tensors) }
{
    let input = read_input(alloc, text, path)?;
    match from_input(alloc, &input) {
        Ok(spec) => Ok(spec),
        Err(fault) => Err(fault_of(fault)),
    }
}
