// Laws of tails, which hold without any code.
ghost use Rattle.tce_walk.specs.TailLaws.{JoinedTailsAddUp, SingleTailsEndAtLast, SumTailsAddUp, TouchesAreFew};

/// A sum's operation inside loops: each place of the node grows by the sum of the operand's words at all assignments
/// that fall on it, and all other places stay.
pub fn sum_tails_add_up()
    ensures { SumTailsAddUp }
{}

/// The operation of a node with two operands inside loops: each place that is met ends with the result at the last
/// assignment that falls on it, and all other places stay.
pub fn single_tails_end_at_last()
    ensures { SingleTailsEndAtLast }
{}

/// The operation of a node with two operands, and that of its parent, a sum, inside the same loops: the sum's places
/// grow by the results, the node's own places end with the last ones, and all other places stay.
pub fn joined_tails_add_up()
    ensures { JoinedTailsAddUp }
{}

/// The code of a tree whose loops have at most 2^90 iterations at each node makes fewer than 2^100 touches.
pub fn touches_are_few()
    ensures { TouchesAreFew }
{}
