// The code of a tree, written node by node.
ghost use Rattle.std.specs.Prelude.{◌≡◌, ◌<◌, ◌≤◌, ◌++◌, IfOk, OnOk, length};
ghost use Rattle.tce_tree.specs.ContractionTree.{operations, node};
ghost use Rattle.tce_tree.specs.FlatTree.{IsBefore};
ghost use Rattle.tce_tree.specs.Fusion.{FusionFits, OrdersFit, Carries, fused_at, order_at};
ghost use Rattle.tce_tree.specs.Orders.{lists_of};
ghost use Rattle.tce_code.specs.CodeFor.{IsCodeFor};
ghost use Rattle.tce_code.specs.Emission.{computing_op, named_code, node_inner_code, node_loops_code, HasJoints, node_clearing};
ghost use Rattle.tce_code.specs.Plan.{plan_with};
ghost use Rattle.tce_code.specs.Program.{spelled};

use crate::op::Op;
use std::alloc::{AllocError, Global};
use std::marker::Model;
use tce_space::{IndexSet, LoopOrder};
use tce_tree::{Fusion, Kind, Operand, Orders, Tree};

/// Loop code, as the list of its operations.
#[derive(Drop)]
pub struct Code {
    ops: Vec<Op>,
}

impl Model for Code {
    ghost use Rattle.std.specs.Prelude.{List};
    ghost use Rattle.tce_code.specs.declared.op.Op.{Op};

    ghost Value = { List Op };

    ghost view = { λ code. code.ops.items };
}

impl Code {
    /// The operations in sequence.
    pub fn ops(&self) -> &[Op]
        ensures { result.now ≡ self.now }
    {
        &self.ops
    }
}

/// The code that computes the tree with this fusion and these loop orders.
///
/// It takes a state in which the root's places are 0 and leaves the tree's values in them; the other places may hold
/// anything before. A sum but the root is cleared where the loops of its fused indexes are open.
pub fn generate(
    alloc: Global,
    tree: &Tree,
    fusion: &Fusion,
    orders: &Orders,
) -> Result<Code, AllocError>
    requires fusion_fits { FusionFits tree.now fusion.now.0.items }
    requires orders_fit { OrdersFit tree.now (lists_of orders.now.0.items) }
    requires carried { Carries tree.now fusion.now.0.items (lists_of orders.now.0.items) }
    ensures { IfOk result (IsCodeFor tree.now (plan_with fusion.now.0.items orders.now.0.items)) }
{
    let mut ops = Vec::new(alloc);
    let root = tree.count() - 1;
    emit_loops(&mut ops, tree, fusion, orders, root, 0)?;
    Ok(Code { ops })
}

// Appends the loops of node `v` from depth `depth` on.
#[cycle(emission)]
fn emit_loops(
    ops: &mut Vec<Op>,
    tree: &Tree,
    fusion: &Fusion,
    orders: &Orders,
    v: u8,
    depth: u8,
) -> Result<(), AllocError>
    requires fit { HasJoints tree.now (plan_with fusion.now.0.items orders.now.0.items) }
    requires inside { v < operations tree.now }
    requires deep { depth ≤ length (order_at (lists_of orders.now.0.items) v) }
    ensures { OnOk result (ops.new.items ≡ ops.old.items
        ++ spelled (node_loops_code tree.now (plan_with fusion.now.0.items orders.now.0.items) v depth)) }
{
    emit_inside(ops, tree, fusion, orders, v, depth)?;
    let order = order_at_node(orders, v);
    if (depth as usize) < order.0.len() {
        ops.push(Op::Open(order.0[depth as usize]))?;
        emit_loops(ops, tree, fusion, orders, v, depth + 1)?;
        ops.push(Op::Close)?;
    } else {
        ops.push(computing(tree, v))?;
    }
    Ok(())
}

// Appends what stands at depth `depth` of the loops of node `v`.
#[cycle(emission)]
fn emit_inside(
    ops: &mut Vec<Op>,
    tree: &Tree,
    fusion: &Fusion,
    orders: &Orders,
    v: u8,
    depth: u8,
) -> Result<(), AllocError>
    requires fit { HasJoints tree.now (plan_with fusion.now.0.items orders.now.0.items) }
    requires inside { v < operations tree.now }
    ensures { OnOk result (ops.new.items ≡ ops.old.items
        ++ spelled (node_inner_code tree.now (plan_with fusion.now.0.items orders.now.0.items) v depth)) }
{
    emit_operand(ops, tree, fusion, orders, tree.left(v), depth)?;
    match tree.right(v) {
        Some(right) => emit_operand(ops, tree, fusion, orders, right, depth),
        None => Ok(()),
    }
}

// Appends what stands at depth `depth` of an operand: above its joint what is inside it, and at its joint its loops.
#[cycle(emission)]
fn emit_operand(
    ops: &mut Vec<Op>,
    tree: &Tree,
    fusion: &Fusion,
    orders: &Orders,
    operand: &Operand,
    depth: u8,
) -> Result<(), AllocError>
    requires fit { HasJoints tree.now (plan_with fusion.now.0.items orders.now.0.items) }
    requires inside { IsBefore (operations tree.now) operand.now }
    ensures { OnOk result (ops.new.items ≡ ops.old.items
        ++ spelled (named_code tree.now (plan_with fusion.now.0.items orders.now.0.items) operand.now depth)) }
{
    let Operand::Node(v) = operand else {
        return Ok(());
    };
    let joint = fused_at_node(fusion, *v).count();
    if depth < joint {
        emit_inside(ops, tree, fusion, orders, *v, depth)
    } else if depth == joint {
        emit_clearing(ops, tree, *v)?;
        emit_loops(ops, tree, fusion, orders, *v, depth)
    } else {
        Ok(())
    }
}

// Appends a `Clear` of a sum, and nothing for another node.
fn emit_clearing(ops: &mut Vec<Op>, tree: &Tree, v: u8) -> Result<(), AllocError>
    requires { v < operations tree.now }
    ensures { OnOk result (ops.new.items ≡ ops.old.items ++ spelled (node_clearing tree.now v)) }
{
    match tree.kind(v) {
        Kind::Sum => ops.push(Op::Clear(v))?,
        Kind::Product | Kind::Add | Kind::Sub => {}
    }
    Ok(())
}

// The operation that computes a node.
fn computing(tree: &Tree, v: u8) -> Op
    requires { v < operations tree.now }
    ensures { result ≡ computing_op (node tree.now v) v }
{
    match tree.kind(v) {
        Kind::Product => Op::Mul(v),
        Kind::Add => Op::Add(v),
        Kind::Sub => Op::Sub(v),
        Kind::Sum => Op::Acc(v),
    }
}

pub(crate) fn fused_at_node(fusion: &Fusion, v: u8) -> IndexSet
    requires { v < length fusion.now.0.items }
    ensures { result ≡ fused_at fusion.now.0.items v }
{
    fusion.0[v as usize]
}

pub(crate) fn order_at_node(orders: &Orders, v: u8) -> &LoopOrder
    requires { v < length orders.now.0.items }
    ensures { result.now.0.items ≡ order_at (lists_of orders.now.0.items) v }
{
    &orders.0[v as usize]
}
