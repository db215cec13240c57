// Verdicts on plans.
use tce_nesting::Nesting;
use tce_space::IndexSet;

/// What the check of a plan says: that it is accepted, or the first rule that it breaks.
#[derive(PartialEq, Eq, Drop)]
pub enum Verdict {
    /// The fusion is legal and no legal fusion of the tree takes less memory.
    Accepted,
    /// At this node two loops have scopes of which neither contains the other.
    NotLegal(u8),
    /// At this node the fused loops do not lead its order and its parent's.
    OrderWrong(u8),
    /// This node keeps that many elements, and another number is stated.
    SizeWrong(u8, u128),
    /// The nodes but the root keep that many elements together, and another number is stated.
    TotalWrong(u128),
    /// No row of this node stands for the state with these classes and this cost, to which a step with this fused set leads from rows of its operands.
    NotCovered(u8, IndexSet, Nesting, u128),
    /// At the root two rows have this sum, which is below the stated memory.
    BelowTotal(u128),
}
