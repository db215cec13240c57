// Laws of trees and their values, which hold without any code.
ghost use Rattle.tce_tree.specs.Laws.{ParentsHaveOperands, ValueDependsOnDims, ValueIsWord};

/// The parent of a node is the node that has it as an operand.
pub fn parents_have_operands()
    ensures { ParentsHaveOperands }
{}

/// The value of a tree depends on the numbers of its dims alone.
pub fn value_depends_on_dims()
    ensures { ValueDependsOnDims }
{}

/// The value of a tree is below 2^64.
pub fn value_is_word()
    ensures { ValueIsWord }
{}
