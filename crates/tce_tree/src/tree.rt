// Trees: the nodes of an expression by their numbers in postorder.
ghost use Rattle.std.specs.Prelude.{ℕ, ◌≡◌, ◌<◌, ◌≤◌, ◌+◌, ◌↔◌, None, IsNone, IfSome, IfOk, OnOk, IfErr, IsTrue};
ghost use Rattle.tce_space.specs.Limits.{max_loops, max_nodes};
ghost use Rattle.tce_tree.specs.Expr.{tree_of};
ghost use Rattle.tce_tree.specs.WellFormed.{IsDeclaredTree, sums_distinct};
ghost use Rattle.tce_tree.specs.Measure.{IsMeasured};
ghost use Rattle.tce_tree.specs.Faults.{fault_of, Shows};

use crate::building::push_nodes;
use crate::expr::Expr;
use crate::fault::TreeFault;
use crate::node::{Kind, Node, Operand, Operation, kind_of};
use arrayvec::ArrayVec;
use std::alloc::Global;
use std::marker::Model;
use tce_space::{IndexSet, MAX_NODES, Space};

/// A tree with its nodes, numbered from 0 in postorder: left operand, right operand, the node itself. There are 1 to 32 nodes, of at most ten loops each, and the root is the last one.
#[derive(Drop)]
pub struct Tree {
    nodes: ArrayVec<Node, MAX_NODES>,
}

impl Model for Tree {
    ghost use Rattle.tce_tree.specs.ContractionTree.{ContractionTree};
    ghost use Rattle.tce_tree.specs.TreeCode.{tree_code};

    ghost Value = { ContractionTree };

    ghost coded = { tree_code };

    ghost use Rattle.tce_tree.specs.FlatTree.{AreNodes, tree_of_nodes};

    ghost view = { λ t. tree_of_nodes t.nodes.items };

    ghost invariant = { λ t. AreNodes t.nodes.items };
}

impl Tree {
    ghost use Rattle.std.specs.Option.{option_copied};
    ghost use Rattle.tce_space.specs.IndexSet as set;
    ghost use Rattle.tce_tree.specs.ContractionTree.{operations, node, node_dims, node_loops, parent};
    ghost use Rattle.tce_tree.specs.FlatTree.{IsTree, node_of, first_number_of, kind_of, left_of, right_of, IsBefore};

    /// The tree of an expression.
    ///
    /// `NoOperation` where the expression is a tensor or a constant. Else, node by node in postorder and at each node in this order: `SumOverAbsent` with the name of the first listed index that the operand lacks, `TooManyLoops` where there are more than ten loops, and `VolumeTooLarge` where the product of their extents is above 2^90.
    pub fn build(_alloc: Global, space: &Space, expr: &Expr) -> Result<Tree, TreeFault>
        requires few { operations (tree_of expr.now) ≤ max_nodes }
        requires declared { IsDeclaredTree space.now (tree_of expr.now) }
        requires distinct { IsTrue (sums_distinct (tree_of expr.now)) }
        ensures ok { IfOk result (λ tree. tree ≡ tree_of expr.now) }
        ensures faultless { OnOk result (fault_of space.now (tree_of expr.now) ≡ None) }
        ensures measured { OnOk result (IsMeasured space.now (tree_of expr.now)) }
        ensures fault { IfErr result (Shows (fault_of space.now (tree_of expr.now))) }
    {
        let _count = space.index_count();
        let mut nodes = ArrayVec::new();
        match push_nodes(space, &mut nodes, expr) {
            Err(fault) => Err(fault),
            Ok(()) if nodes.is_empty() => Err(TreeFault::NoOperation),
            Ok(()) => Ok(Tree { nodes }),
        }
    }

    /// The number of nodes. The root is node `count - 1`.
    pub fn count(&self) -> u8
        ensures value { result ≡ operations self.now }
        ensures positive { 0 < result }
        ensures limit { result ≤ max_nodes }
        ensures kept { IsTree self.now }
    {
        self.nodes.len() as u8
    }

    fn node(&self, v: u8) -> &Node
        requires { v < operations self.now }
        ensures limit { set.count (node_loops self.now v) ≤ max_loops }
        ensures value { result.now ≡ node_of (first_number_of self.now v) (node self.now v) }
    {
        &self.nodes[v as usize]
    }

    /// What the node computes.
    pub fn kind(&self, v: u8) -> Kind
        requires { v < operations self.now }
        ensures { result ≡ kind_of (node self.now v) }
    {
        match &self.node(v).operation {
            Operation::Binary(arithmetic, _, _) => kind_of(*arithmetic),
            Operation::Sum(_, _) => Kind::Sum,
        }
    }

    /// The left operand of the node, or the one operand of a sum.
    pub fn left(&self, v: u8) -> &Operand
        requires { v < operations self.now }
        ensures value { result.now ≡ left_of self.now v }
        ensures before { IsBefore v result.now }
    {
        match &self.node(v).operation {
            Operation::Binary(_, left, _) => left,
            Operation::Sum(_, operand) => operand,
        }
    }

    /// The right operand of the node; `None` exactly at a sum.
    pub fn right(&self, v: u8) -> Option<&Operand>
        requires { v < operations self.now }
        ensures value { option_copied result ≡ right_of self.now v }
        ensures before { IfSome (option_copied result) (IsBefore v) }
        ensures sum { IsNone result ↔ (kind_of (node self.now v) ≡ Kind.Sum) }
    {
        match &self.node(v).operation {
            Operation::Binary(_, _, right) => Some(right),
            Operation::Sum(_, _) => None,
        }
    }

    /// The indexes on which the node's value depends.
    pub fn dims(&self, v: u8) -> IndexSet
        requires { v < operations self.now }
        ensures { result ≡ node_dims self.now v }
    {
        self.node(v).dims
    }

    /// The indexes of the loops that compute the node, of which there are at most ten.
    pub fn loops(&self, v: u8) -> IndexSet
        requires { v < operations self.now }
        ensures value { result ≡ node_loops self.now v }
        ensures limit { set.count result ≤ max_loops }
    {
        self.node(v).loops
    }

    /// The node that has this one as an operand; `None` exactly at the root.
    pub fn parent(&self, v: u8) -> Option<u8>
        requires { v < operations self.now }
        ensures value { result ≡ parent self.now v }
        ensures root { IsNone result ↔ (v + 1 ≡ operations self.now) }
        ensures above { IfSome result (λ p. v < p) }
        ensures inside { IfSome result (λ p. p < operations self.now) }
    {
        let count = self.count();
        for u in v + 1..count {
            if u - v < self.node(u).size {
                return Some(u);
            }
        }
        None
    }
}
