// The operations of loop code.

/// One operation of loop code. Indexes and nodes go by their numbers.
#[derive(Clone, Copy, PartialEq, Eq)]
pub enum Op {
    /// Begins a loop over an index, from 0 to its extent less 1.
    Open(u8),
    /// Ends the innermost open loop.
    Close,
    /// Sets every place of a node to 0.
    Clear(u8),
    /// Sets a node's place to the product of its operands' words.
    Mul(u8),
    /// Sets a node's place to the sum of its operands' words.
    Add(u8),
    /// Sets a node's place to the difference of its operands' words.
    Sub(u8),
    /// Adds the operand's word to a node's place.
    Acc(u8),
}
