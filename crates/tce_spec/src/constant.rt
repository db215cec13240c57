//! Constants of a formula.

ghost use Rattle.std.specs.Prelude.{◌≡◌};
ghost use Rattle.std.specs.List.{list_all};
ghost use Rattle.tce_grammar.specs.Code.{formula};
ghost use Rattle.tce_spec.specs.Places.{constants};
ghost use Rattle.tce_spec.specs.FormulaFaults.{is_constant};

use crate::numbers::{leads_with_zero, value_of};
use tce_grammar::Formula;

fn is_constant(digits: &[u8]) -> bool
    ensures { result ≡ is_constant digits.now }
{
    if leads_with_zero(digits) {
        return false;
    }
    value_of(digits).is_some()
}

/// Whether each constant is below 2^64 and has no zero in front of it.
#[tactic(auto, using(crate::proofs::Joined::all_joined))]
pub(crate) fn has_good_constants(written: &Formula) -> bool
    ensures { result ≡ list_all is_constant (constants (formula written.now)) }
{
    match written {
        Formula::Tensor { .. } => true,
        Formula::Constant(digits) => is_constant(*digits),
        Formula::Sum { operand, .. } => has_good_constants(operand),
        Formula::Binary { left, right, .. } => {
            has_good_constants(left) && has_good_constants(right)
        }
    }
}
