// Laws of candidates, which hold without any code.
ghost use Rattle.tce_search.specs.Laws.{CoveredPairsCoverSteps};
ghost use Rattle.tce_search.specs.Reached.{LeavesHaveStates, StepsAreStates};

/// Where the choices of a node are covered for two candidates of its operands that have no conflict, all steps from their rows are.
pub fn covered_pairs_cover_steps()
    ensures { CoveredPairsCoverSteps }
{}

/// The candidate without classes, cost and sets is the state of a tensor and of a constant.
pub fn leaves_have_states()
    ensures { LeavesHaveStates }
{}

/// A step from states of the operands of a node is a state of the node, under the fusion that its sets are.
pub fn steps_are_states()
    ensures { StepsAreStates }
{}
