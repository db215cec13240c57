//! Why there is no specification.

use std::alloc::{AllocError, AllocFailed};
use tce_spec::SpecFault;

/// Why an einsum and a path give no specification. The first in this order decides.
#[derive(Drop)]
pub enum EinsumFault {
    /// The text has not the form.
    BadText,
    /// The least letter that stands in an operand or in the output and has not exactly one size, or that has a size and
    /// stands in neither.
    BadSize(u8),
    /// The first item of the path, from 0, that has not the form, names a position that is not in the list, or names a
    /// position twice; or the number of items, where more than one entry is left.
    BadPath(u64),
    /// The produced text has this fault.
    Spec(SpecFault),
    /// There is no memory.
    Memory,
}

impl From<AllocError> for EinsumFault {
    ghost use Rattle.std.specs.Prelude.{◌≡◌};
    ghost use Rattle.tce_einsum.specs.declared.fault.EinsumFault.TheVariants.{Memory};

    ghost from_gives = { λ _ fault. fault ≡ Memory };

    fn from(_error: AllocError) -> EinsumFault {
        EinsumFault::Memory
    }
}

impl<T: Drop> From<AllocFailed<T>> for EinsumFault {
    ghost use Rattle.std.specs.Prelude.{◌≡◌};
    ghost use Rattle.tce_einsum.specs.declared.fault.EinsumFault.TheVariants.{Memory};

    ghost from_gives = { λ _ fault. fault ≡ Memory };

    fn from(_error: AllocFailed<T>) -> EinsumFault {
        EinsumFault::Memory
    }
}
