// Why a call is refused.
use tce_array::ArrayFault;
use tce_outside::{Failed, OutFault};
use thiserror::Error;

/// Why a file is not packed, unpacked or converted.
#[derive(Clone, Copy, Debug, PartialEq, Eq, Error)]
pub enum ToolFault {
    /// There is no such flat file.
    #[error("there is no such flat file")]
    NoFlat,
    /// The flat file has this length in bytes, which is not that of the elements.
    #[error("the flat file has {0} bytes")]
    FlatLength(u64),
    /// The file is no array of the shape, for this fault. It is never the fault of the disk.
    #[error("the array is refused: {0}")]
    Array(ArrayFault),
    /// The element at this place in row-major order is the first that cannot be stored in the form.
    #[error("element {0} does not fit")]
    DoesNotFit(u64),
    /// The disk failed: its count of faults rose in the call.
    #[error("the disk failed")]
    Disk,
    /// The disk found no memory for the file: no file was changed.
    #[error("want of memory")]
    Memory,
}

impl From<Failed> for ToolFault {
    ghost use Rattle.std.specs.Prelude.{◌≡◌};
    ghost use Rattle.tce_tools.specs.declared.fault.ToolFault.TheVariants.{Disk};

    ghost from_gives = { λ _ fault. fault ≡ Disk };

    fn from(_failed: Failed) -> ToolFault {
        ToolFault::Disk
    }
}

impl From<OutFault> for ToolFault {
    ghost use Rattle.std.specs.Prelude.{◌≡◌};
    ghost use Rattle.tce_tools.specs.Faults.{of_making};

    ghost from_gives = { λ fault made. made ≡ of_making fault };

    fn from(fault: OutFault) -> ToolFault {
        match fault {
            OutFault::Failed => ToolFault::Disk,
            OutFault::Memory => ToolFault::Memory,
        }
    }
}

impl From<ArrayFault> for ToolFault {
    ghost use Rattle.std.specs.Prelude.{◌≡◌};
    ghost use Rattle.tce_tools.specs.Faults.{of_opening};

    ghost from_gives = { λ fault made. made ≡ of_opening fault };

    fn from(fault: ArrayFault) -> ToolFault {
        match fault {
            ArrayFault::Disk => ToolFault::Disk,
            fault => ToolFault::Array(fault),
        }
    }
}
