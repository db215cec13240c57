// Why a file is refused.
use thiserror::Error;

/// Why a file is refused.
#[derive(Clone, Copy, Debug, PartialEq, Eq, Error)]
pub enum ArrayFault {
    /// There is no such file.
    #[error("there is no such file")]
    NoFile,
    /// The file has this length in bytes, which is not that of its form.
    #[error("the file has {0} bytes")]
    BadLength(u64),
    /// The head differs first at this place.
    #[error("byte {0} of the head differs")]
    BadHeader(u64),
    /// The disk failed: its count of faults rose in the call.
    #[error("the disk failed")]
    Disk,
}
