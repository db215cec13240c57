// Checks that a body leaves values of nodes, whatever stood in their places.
ghost use Rattle.std.specs.Prelude.{◌≡◌, ◌+◌, ◌<◌, ◌≤◌, length, IsTrue, IfSome};
ghost use Rattle.tce_tree.specs.ContractionTree.{operations};
ghost use Rattle.tce_tree.specs.Fusion.{kept_dims};
ghost use Rattle.tce_code.specs.Program.{step, clear};
ghost use Rattle.tce_walk.specs.BandSearch.{known_of};
ghost use Rattle.tce_walk.specs.FoundTerms.{AddsUp, IsCheckedNode, IsCodePart, IsSummedAt, LeavesValues, NamesTensor, TakesTensors};
ghost use Rattle.tce_walk.specs.Positions.{program_at};

use crate::band_search::{Marks, is_left_ready, is_right_ready};
use crate::counts::blocks_of;
use crate::indexes::{are_declared, are_summed};
use crate::search::{Found, find_tail};
use crate::walk::Walk;
use tce_code::Op;
use tce_space::IndexSet;
use tce_tree::Operand;

// Where the loops of a sum end, and the touches of its blocks.
#[derive(Clone, Copy)]
struct Summed {
    close: usize,
    touches: u128,
}

// Whether the operand is a tensor.
fn is_tensor(operand: &Operand) -> bool
    ensures { IsTrue result → NamesTensor operand.now }
{
    match operand {
        Operand::Leaf(_) => true,
        Operand::Constant(_) | Operand::Node(_) => false,
    }
}

fn takes_tensors(walk: &Walk, v: u8) -> bool
    requires { v < operations walk.now.tree.now }
    ensures { IsTrue result → TakesTensors walk.now.tree.now v }
{
    match walk.tree.right(v) {
        Some(right) => is_tensor(walk.tree.left(v)) && is_tensor(right),
        None => false,
    }
}

// Whether the node has a single place.
fn is_single(walk: &Walk, v: u8) -> bool
    requires { v < operations walk.now.tree.now }
    ensures { IsTrue result → kept_dims walk.now.tree.now walk.now.fusion.now.0.items v ≡ 0 }
{
    if v as usize >= walk.fusion.0.len() {
        return false;
    }
    walk.tree.dims(v).minus(walk.fusion.0[v as usize]) == IndexSet::empty()
}

// Whether a tail adds up the sum `v` of products of tensors.
fn adds_up(walk: &Walk, found: &Found, v: u8) -> bool
    requires node { found.now.tail.node < operations walk.now.tree.now }
    requires sum { v < operations walk.now.tree.now }
    ensures { IsTrue result
        → AddsUp walk.now.space.now walk.now.tree.now walk.now.fusion.now.0.items found.now.tail v }
{
    match found.tail.sum {
        None => false,
        Some(sum) => {
            sum == v
                && takes_tensors(walk, found.tail.node)
                && is_single(walk, v)
                && are_declared(walk.space, found.tail.loops.0.as_slice())
                && are_summed(walk.tree, v, found.tail.loops.0.as_slice())
        }
    }
}

// The loops of the sum `v` that begin here behind its `Clear`, if they leave its value.
fn check_sum(walk: &Walk, carrier: u8, at: usize, v: u8, right: &mut Marks) -> Option<Summed>
    requires within { at ≤ length walk.now.ops.now }
    requires code { IsCodePart walk.now.tree.now (step (clear v) (program_at walk.now.ops.now at)) }
    ensures { IfSome result (λ s. IsSummedAt walk.now.space.now walk.now.tree.now walk.now.fusion.now.0.items walk.now.ops.now
        carrier at v (known_of right.old) (known_of right.new) s) }
{
    if at >= walk.ops.len() {
        return None;
    }
    let Op::Open(i) = walk.ops[at] else {
        return None;
    };
    let found = find_tail(walk.tree, walk.ops, at, i)?;
    let u = found.tail.node;
    if v == carrier || u == carrier || !adds_up(walk, &found, v) {
        return None;
    }
    let _nodes = walk.tree.count();
    let blocks = blocks_of(walk.space, found.tail.loops.0.as_slice())?;
    right[u as usize] = false;
    right[v as usize] = true;
    Some(Summed {
        close: found.close,
        touches: 3 * blocks,
    })
}

// Whether the operation of a node with two operands leaves its value.
fn check_node(walk: &Walk, v: u8, right: &mut Marks) -> bool
    requires { v < operations walk.now.tree.now }
    ensures { IsTrue result → IsCheckedNode walk.now.tree.now v (known_of right.old) (known_of right.new) }
{
    let _nodes = walk.tree.count();
    if !is_left_ready(walk, v, right) || !is_right_ready(walk, v, right) {
        return false;
    }
    right[v as usize] = true;
    true
}

// Checks the program that begins here: sums of products of tensors, each cleared and added up in one tail, and operations
// whose operands' places hold their values. `right` marks the nodes whose places do. Tells a bound below its touches.
pub(crate) fn check_values(walk: &Walk, carrier: u8, at: usize, right: &mut Marks) -> Option<u128>
    requires within { at ≤ length walk.now.ops.now }
    requires code { IsCodePart walk.now.tree.now (program_at walk.now.ops.now at) }
    ensures { IfSome result (λ touches. LeavesValues walk.now.space.now walk.now.tree.now walk.now.fusion.now.0.items
        carrier (program_at walk.now.ops.now at) (known_of right.old) (known_of right.new) touches) }
{
    if at >= walk.ops.len() {
        return Some(0);
    }
    match walk.ops[at] {
        Op::Close => Some(0),
        Op::Open(_) | Op::Acc(_) => None,
        Op::Clear(v) => {
            let summed = check_sum(walk, carrier, at + 1, v, right)?;
            let next = (summed.close + 1).min(walk.ops.len());
            let rest = check_values(walk, carrier, next, right)?;
            Some(rest.saturating_add(summed.touches))
        }
        Op::Mul(v) | Op::Add(v) | Op::Sub(v) => {
            if !check_node(walk, v, right) {
                return None;
            }
            let rest = check_values(walk, carrier, at + 1, right)?;
            Some(rest.saturating_add(3))
        }
    }
}
