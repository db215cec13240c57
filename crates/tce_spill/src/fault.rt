// Why a tree is not cut, and why its pieces are not run.
use tce_array::ArrayFault;
use tce_space::Name;

/// Why a tree is not cut for a limit, or its pieces are not run.
#[derive(Clone, Copy)]
pub enum SpillFault {
    /// Thirty-two tensors are declared, so that a piece may need more than there may be.
    TooManyTensors,
    /// With all storable nodes cut, the piece of this root takes so many elements at least, more than the limit.
    LimitTooSmall(u8, u128),
    /// The budget is below three of the largest tiles, which have so many words.
    BudgetTooSmall(u64),
    /// The array of a tensor with this name is refused.
    Array(Name, ArrayFault),
    /// The disk failed.
    Disk,
    /// Memory was wanting.
    Memory,
}
