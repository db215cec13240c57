//! Loops, and the steps of operands and results in them.

use tce_space::Arithmetic;

/// A loop over two operands: how many turns it has, and how many words the places of the result and of both operands move
/// from one turn to the next.
#[derive(Clone, Copy, Drop)]
pub struct Loop {
    pub len: u64,
    pub out: u64,
    pub left: u64,
    pub right: u64,
}

/// A loop over one operand: how many turns it has, and how many words the places of the result and of the operand move
/// from one turn to the next.
#[derive(Clone, Copy, Drop)]
pub struct SumLoop {
    pub len: u64,
    pub out: u64,
    pub operand: u64,
}

// Two loops, the second one inside the first.
#[derive(Clone, Copy, Drop)]
pub(crate) struct Rows {
    pub(crate) outer: Loop,
    pub(crate) along: Loop,
}

// What a turn leaves at the place of the result: the word there and the operands' product, or the operands' result alone.
#[derive(Clone, Copy, Drop)]
pub(crate) enum Turn {
    Grow,
    Compute(Arithmetic),
}
