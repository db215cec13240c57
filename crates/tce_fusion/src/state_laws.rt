// Laws of states, which hold without any code.
ghost use Rattle.tce_fusion.specs.StateLaws.{JoinsTellScopes, LegalWhereStatesExist, StatesHaveClasses, CostsAddUp, RowsStandTogether, LeafRowStands, StandingIsOrder, TotalIsBound, LeastByCover, OperandsAreJoined, LeafRowIsReached, StepsAreReached, RootIsReached, SomeRowsJoin, LaterTablesDoNotMatter, PartsAreIndexSets, ChoicesAreSteps, FirstChoiceIsFirstStep, CoveredLeavesNoStep, FirstLowPairIsFirstBelow, BoundLeavesNoSum};

/// At each node an index is above another in the join of the operands' states exactly where its scope has a node of the subtree that the other one's lacks.
pub fn joins_tell_scopes()
    ensures { JoinsTellScopes }
{}

/// A fusion is legal exactly where the states of all nodes but the root exist and those of the root's operands have no conflict there.
pub fn legal_where_states_exist()
    ensures { LegalWhereStatesExist }
{}

/// Where the state of a node exists, its relation is that of a list of disjoint, inhabited classes of the indexes that are fused there.
pub fn states_have_classes()
    ensures { StatesHaveClasses }
{}

/// The costs of the states at the root add up to the memory of the fusion.
pub fn costs_add_up()
    ensures { CostsAddUp }
{}

/// Rows may replace the states of both operands for which they stand: the join has no conflict where that of the states has none, allowed sets stay allowed, and the step is coarser and costs no more. The operands of a product, an addition or a subtraction are nodes, tensors or constants; a sum joins its operand with the state of a leaf.
pub fn rows_stand_together()
    ensures { RowsStandTogether }
{}

/// The row without classes and with cost 0 stands for the state of a tensor or a constant.
pub fn leaf_row_stands()
    ensures { LeafRowStands }
{}

/// To stand for a state is reflexive and transitive.
pub fn standing_is_order()
    ensures { StandingIsOrder }
{}

/// The total of a cover is at most the memory of each legal fusion.
pub fn total_is_bound()
    ensures { TotalIsBound }
{}

/// A legal fusion whose memory is the total of a cover is least.
pub fn least_by_cover()
    ensures { LeastByCover }
{}

/// The operands of a node, each as a tree of its own, are the trees that the node joins; a sum has a leaf on the right.
pub fn operands_are_joined()
    ensures { OperandsAreJoined }
{}

/// The row without classes and with cost 0 is the state of a tensor or a constant.
pub fn leaf_row_is_reached()
    ensures { LeafRowIsReached }
{}

/// A step from states of a node's operands is a state of the node, under the fused sets of both and its own.
pub fn steps_are_reached()
    ensures { StepsAreReached }
{}

/// States of the root's operands without conflict are those of a legal fusion, whose memory is the sum of their costs.
pub fn root_is_reached()
    ensures { RootIsReached }
{}

/// Where the tables cover, some rows of the root's operands have no conflict.
pub fn some_rows_join()
    ensures { SomeRowsJoin }
{}

/// Whether the rows of a node cover goes by its own table and those of earlier nodes.
pub fn later_tables_do_not_matter()
    ensures { LaterTablesDoNotMatter }
{}

/// Each part of a set of indexes is a set of indexes.
pub fn parts_are_index_sets()
    ensures { PartsAreIndexSets }
{}

/// Where the listed choices of a node are covered for each two rows of its operands, its rows cover, and the other way round.
pub fn choices_are_steps()
    ensures { ChoicesAreSteps }
{}

/// The first choice that is not covered, in the order of the tables and of the sets, is the first step that no row stands for.
pub fn first_choice_is_first_step()
    ensures { FirstChoiceIsFirstStep }
{}

/// Where the rows of a node cover, they stand for every step.
pub fn covered_leaves_no_step()
    ensures { CoveredLeavesNoStep }
{}

/// The first pair of rows whose costs add up to less than a total, in the order of the tables, is the first sum at the root below it.
pub fn first_low_pair_is_first_below()
    ensures { FirstLowPairIsFirstBelow }
{}

/// Where a total is at most each sum at the root, no sum is below it.
pub fn bound_leaves_no_sum()
    ensures { BoundLeavesNoSum }
{}
