// Faults of certificates.

use std::alloc::AllocError;

/// Why a text is no certificate of a plan that fits the tree, or want of memory. The numbers are those of lines, from 1.
#[derive(Clone, Copy, PartialEq, Eq)]
pub enum CertFault {
    /// The first faulty line has none of the forms of lines, has no line feed, or is missing.
    BadText(u64),
    /// The first faulty line has a form, and does not fit the tree or its place.
    WrongTree(u64),
    /// Memory is wanting.
    Memory,
}

impl From<AllocError> for CertFault {
    ghost use Rattle.std.specs.Prelude.{◌≡◌};
    ghost use Rattle.tce_cert.specs.declared.fault.CertFault.TheVariants.{Memory};

    ghost from_gives = { λ _ fault. fault ≡ Memory };

    fn from(_error: AllocError) -> CertFault {
        CertFault::Memory
    }
}
