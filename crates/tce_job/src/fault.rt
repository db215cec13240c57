// Why a run is refused.
use tce_array::ArrayFault;

/// Why a run is refused.
#[derive(Clone, Copy)]
pub enum JobFault {
    /// The budget is below three of the largest tiles, which have so many words.
    BudgetTooSmall(u64),
    /// The least memory of a fusion, in words, is above 2^40.
    IntermediatesTooLarge(u128),
    /// The array of an operand, by the number of its tensor, is refused.
    Array(u8, ArrayFault),
    /// The disk failed.
    Disk,
    /// Memory was wanting.
    Memory,
}
