// The nodes of an expression, appended in postorder, and the first fault among them.
ghost use Rattle.std.specs.Prelude.{◌≡◌, ◌<◌, ◌≤◌, ◌+◌, ◌-◌, ◌++◌, ◌∷◌, [], None, IfOk, OnOk, IfErr};
ghost use Rattle.arrayvec.specs.ArrayVec.{array_vec_len};
ghost use Rattle.tce_space.specs.IndexSet.{set_of};
ghost use Rattle.tce_space.specs.Space.{IsDeclared};
ghost use Rattle.tce_tree.specs.ContractionTree.{binary, dims, loops, operations};
ghost use Rattle.tce_tree.specs.Expr.{tree_of};
ghost use Rattle.tce_tree.specs.WellFormed.{IsDeclaredTree, AreIndexes};
ghost use Rattle.tce_tree.specs.FlatTree.{node_of};
ghost use Rattle.tce_tree.specs.Faults.{sum_fault, loops_fault, Shows};
ghost use Rattle.tce_space.specs.Limits.{max_nodes};
ghost use Rattle.tce_tree.specs.Building.{GrowsBy, AppendsNodes, fault_behind, StandLast, AppendsSum, IsFaultlessSum, IsSumFault, IsOperandBefore};

use crate::expr::{Expr, Leaf};
use crate::fault::TreeFault;
use crate::node::{Node, Operand, Operation};
use arrayvec::ArrayVec;
use std::alloc::AllocError;
use tce_space::{Arithmetic, IndexSet, MAX_INDEXES, MAX_LOOPS, MAX_NODES, Space};

// Appends the nodes of an expression.
pub(crate) fn push_nodes(
    space: &Space,
    nodes: &mut ArrayVec<Node, MAX_NODES>,
    expr: &Expr,
) -> Result<(), TreeFault>
    requires room { array_vec_len nodes.old + operations (tree_of expr.now) ≤ max_nodes }
    requires declared { IsDeclaredTree space.now (tree_of expr.now) }
    ensures len { OnOk result (GrowsBy nodes.old nodes.new (operations (tree_of expr.now))) }
    ensures ok { OnOk result (AppendsNodes nodes.old nodes.new expr.now) }
    ensures faultless { OnOk result (fault_behind space.now nodes.old expr.now ≡ None) }
    ensures fault { IfErr result (Shows (fault_behind space.now nodes.old expr.now)) }
{
    let first = nodes.len();
    match expr {
        Expr::Leaf(_) => Ok(()),
        Expr::Constant(_) => Ok(()),
        Expr::Product(left, right) => {
            push_nodes(space, nodes, left)?;
            push_nodes(space, nodes, right)?;
            push_binary(space, nodes, first, Arithmetic::Multiply, left, right)
        }
        Expr::Add(left, right) => {
            push_nodes(space, nodes, left)?;
            push_nodes(space, nodes, right)?;
            push_binary(space, nodes, first, Arithmetic::Add, left, right)
        }
        Expr::Sub(left, right) => {
            push_nodes(space, nodes, left)?;
            push_nodes(space, nodes, right)?;
            push_binary(space, nodes, first, Arithmetic::Subtract, left, right)
        }
        Expr::Sum(indexes, operand) => {
            push_nodes(space, nodes, operand)?;
            push_sum(space, nodes, first, indexes, operand)
        }
    }
}

// Appends a node with two operands, whose nodes stand last, from number `first` on.
fn push_binary(
    space: &Space,
    nodes: &mut ArrayVec<Node, MAX_NODES>,
    first: usize,
    arithmetic: Arithmetic,
    left: &Expr,
    right: &Expr,
) -> Result<(), TreeFault>
    requires place { StandLast nodes.old first left.now right.now }
    requires room { array_vec_len nodes.old < max_nodes }
    requires left_declared { IsDeclaredTree space.now (tree_of left.now) }
    requires right_declared { IsDeclaredTree space.now (tree_of right.now) }
    ensures len { OnOk result (array_vec_len nodes.new ≡ array_vec_len nodes.old + 1) }
    ensures ok { OnOk result (nodes.new.items ≡ nodes.old.items
        ++ node_of first (binary arithmetic (tree_of left.now) (tree_of right.now)) ∷ []) }
    ensures faultless { OnOk result (loops_fault space.now (array_vec_len nodes.old)
        (loops (binary arithmetic (tree_of left.now) (tree_of right.now))) ≡ None) }
    ensures fault { IfErr result (Shows (loops_fault space.now (array_vec_len nodes.old)
        (loops (binary arithmetic (tree_of left.now) (tree_of right.now))))) }
{
    let middle = first + left.operations() as usize;
    let end = nodes.len();
    let dims = dims_of(space, left).union(dims_of(space, right));
    check_loops(space, end as u8, dims)?;
    let left_operand = operand_before(middle, left)?;
    let right_operand = operand_before(end, right)?;
    nodes.push(Node {
        operation: Operation::Binary(arithmetic, left_operand, right_operand),
        dims,
        loops: dims,
        size: (end - first + 1) as u8,
    });
    Ok(())
}

// Appends a sum over an operand, whose nodes stand last, from number `first` on.
fn push_sum(
    space: &Space,
    nodes: &mut ArrayVec<Node, MAX_NODES>,
    first: usize,
    indexes: &ArrayVec<u8, MAX_INDEXES>,
    operand: &Expr,
) -> Result<(), TreeFault>
    requires place { first + operations (tree_of operand.now) ≡ array_vec_len nodes.old }
    requires room { array_vec_len nodes.old < max_nodes }
    requires listed { AreIndexes space.now indexes.now.items }
    requires declared { IsDeclaredTree space.now (tree_of operand.now) }
    ensures len { OnOk result (array_vec_len nodes.new ≡ array_vec_len nodes.old + 1) }
    ensures ok { OnOk result (AppendsSum nodes.old nodes.new first indexes.now operand.now) }
    ensures faultless { OnOk result (IsFaultlessSum space.now nodes.old indexes.now operand.now) }
    ensures fault { IfErr result (IsSumFault space.now nodes.old indexes.now operand.now) }
{
    let end = nodes.len();
    let loops = dims_of(space, operand);
    check_sum(space, indexes.as_slice(), loops)?;
    check_loops(space, end as u8, loops)?;
    let summed = copied(indexes)?;
    let operand_place = operand_before(end, operand)?;
    nodes.push(Node {
        operation: Operation::Sum(summed, operand_place),
        dims: loops.minus(set_of_list(space, indexes.as_slice())),
        loops,
        size: (end - first + 1) as u8,
    });
    Ok(())
}

// An operand whose nodes end before number `end`.
fn operand_before(end: usize, expr: &Expr) -> Result<Operand, AllocError>
    requires numbered { operations (tree_of expr.now) ≤ end }
    requires few { end ≤ max_nodes }
    ensures { IfOk result (IsOperandBefore end expr.now) }
{
    match expr {
        Expr::Leaf(leaf) => Ok(Operand::Leaf(Leaf {
            tensor: leaf.tensor,
            indexes: leaf.indexes.clone()?,
        })),
        Expr::Constant(number) => Ok(Operand::Constant(*number)),
        Expr::Product(_, _) => Ok(Operand::Node((end - 1) as u8)),
        Expr::Add(_, _) => Ok(Operand::Node((end - 1) as u8)),
        Expr::Sub(_, _) => Ok(Operand::Node((end - 1) as u8)),
        Expr::Sum(_, _) => Ok(Operand::Node((end - 1) as u8)),
    }
}

fn copied(indexes: &ArrayVec<u8, MAX_INDEXES>) -> Result<ArrayVec<u8, MAX_INDEXES>, AllocError>
    ensures { IfOk result (λ copy. copy ≡ indexes.now) }
{
    indexes.clone()
}

// The indexes on which an expression depends.
fn dims_of(space: &Space, expr: &Expr) -> IndexSet
    requires { IsDeclaredTree space.now (tree_of expr.now) }
    ensures value { result ≡ dims (tree_of expr.now) }
    ensures declared { IsDeclared space.now result }
{
    let _count = space.index_count();
    expr.dims()
}

// The set of the listed indexes.
fn set_of_list(space: &Space, indexes: &[u8]) -> IndexSet
    requires { AreIndexes space.now indexes.now }
    ensures { result ≡ set_of indexes.now }
{
    let _count = space.index_count();
    IndexSet::of_list(indexes)
}

// Refuses a sum over an index that its operand lacks.
fn check_sum(space: &Space, indexes: &[u8], dims: IndexSet) -> Result<(), TreeFault>
    requires { AreIndexes space.now indexes.now }
    ensures ok { OnOk result (sum_fault space.now indexes.now dims ≡ None) }
    ensures fault { IfErr result (Shows (sum_fault space.now indexes.now dims)) }
{
    let _count = space.index_count();
    for index in indexes {
        if !dims.has(*index) {
            return Err(TreeFault::SumOverAbsent(space.index_name(*index)));
        }
    }
    Ok(())
}

// Refuses a node with more than ten loops, and one whose loops have more than 2^90 iterations.
#[tactic(auto, unfolding(crate::specs::Faults::loops_fault))]
fn check_loops(space: &Space, v: u8, loops: IndexSet) -> Result<(), TreeFault>
    requires { IsDeclared space.now loops }
    ensures ok { OnOk result (loops_fault space.now v loops ≡ None) }
    ensures fault { IfErr result (Shows (loops_fault space.now v loops)) }
{
    if loops.count() > MAX_LOOPS as u8 {
        return Err(TreeFault::TooManyLoops(v));
    }
    match space.volume(loops) {
        Some(_) => Ok(()),
        None => Err(TreeFault::VolumeTooLarge(v)),
    }
}
