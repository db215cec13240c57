// Why a file is refused.
use thiserror::Error;

/// Why a file of stored elements is refused.
#[derive(Clone, Copy, Debug, Error)]
pub enum SymFault {
    /// There is no such file.
    #[error("there is no such file")]
    NoFile,
    /// The file has this length in bytes, which is too short for a head, or not that which the head tells.
    #[error("the file has {0} bytes")]
    BadLength(u64),
    /// The head is wrong from this byte on: the first byte of the mark that differs, 8 for the positions, 24 for the sign.
    #[error("byte {0} of the head is wrong")]
    BadHeader(u64),
    /// The disk failed: its count of faults rose in the call.
    #[error("the disk failed")]
    Disk,
}
