// Laws of tails for machines, which hold without any code.
ghost use Rattle.tce_walk.specs.Laws.{JoinedTailsAreKnown, SingleTailsAreKnown, SumTailsAreKnown};

/// A state in which the places of a sum have grown by the words of the loops' assignments that fall on them, and
/// nothing else has changed, is what the tail of the sum leaves.
pub fn sum_tails_are_known()
    ensures { SumTailsAreKnown }
{}

/// A state in which the places of a node with two operands hold the results of the last assignments that fall on them,
/// and nothing else has changed, is what the tail of the node leaves.
pub fn single_tails_are_known()
    ensures { SingleTailsAreKnown }
{}

/// The same for a product that is joined to its sum.
pub fn joined_tails_are_known()
    ensures { JoinedTailsAreKnown }
{}
