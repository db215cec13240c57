//! The canonical text of a specification, and the specification that it tells.

ghost use Rattle.std.specs.Prelude.{◌≡◌, IfOk, IfErr};
ghost use Rattle.tce_spec.specs.Declarations.{HaveNames};
ghost use Rattle.tce_spec.specs.Canonical.{canonical_of};

use crate::fault::SpecFault;
use crate::print::print_lines;
use crate::spec::{Spec, read_spec};
use std::alloc::{AllocError, Global};

/// The canonical text of a specification: a line for each range, the indexes in order of declaration with neighbours of
/// one range on one line, a line for each tensor, and the formula. An edge of 1 is not written, and an expression has no
/// more parentheses than it needs.
pub fn print_spec(alloc: Global, spec: &Spec) -> Result<Vec<u8>, AllocError>
    ensures { IfOk result (λ text. text.items ≡ canonical_of spec.now) }
{
    print_lines(alloc, spec.declarations(), spec.result(), spec.expr())
}

/// Prints the canonical text of a specification and reads it. Only want of memory can refuse it.
pub fn read_back(alloc: Global, spec: &Spec) -> Result<Spec, SpecFault>
    requires { HaveNames spec.now.declarations.tensors }
    ensures same { IfOk result (λ read. read ≡ spec.now) }
    ensures memory { IfErr result (λ fault. fault ≡ SpecFault.Memory) }
{
    // The specification keeps its rules.
    let _expr = spec.expr();
    let text = print_spec(alloc, spec)?;
    read_spec(alloc, text.as_slice())
}
