// Finds the tail that a loop of the code begins.
ghost use Rattle.std.specs.Prelude.{◌≡◌, ◌+◌, ◌<◌, ◌≤◌, ◌||◌, ℕ, true, false, length, slice_index_or, MatchOption};
ghost use Rattle.std.specs.declared.option.Option.TheVariants.{None};
ghost use Rattle.tce_space.specs.Limits.{max_loops};
ghost use Rattle.tce_tree.specs.ContractionTree.{operations};
ghost use Rattle.tce_code.specs.Shape.{most_open};
ghost use Rattle.tce_code.specs.declared.op.Op.TheVariants.{Open, Mul};
ghost use Rattle.tce_walk.specs.Tails.{is_stop, tail_loops, accumulates_parent, reads_constant};
ghost use Rattle.tce_walk.specs.Machine.{operation_of_node};
ghost use Rattle.tce_walk.specs.Positions.{program_at};
ghost use Rattle.tce_walk.specs.Run.{IsEnd};
ghost use Rattle.tce_walk.specs.Search.{IsShaped, IsSumAt, IsAlone, IsInside, IsTailOf, HasNoTail, names_constant};

use crate::machine::Tail;
use arrayvec::ArrayVec;
use tce_code::Op;
use tce_space::LoopOrder;
use tce_tree::{Operand, Tree};

// A tail with the position of the `Close` of its outermost loop.
#[derive(Drop)]
pub(crate) struct Found {
    pub(crate) tail: Tail,
    pub(crate) close: usize,
}

// The operations inside the loops of a tail, and the position where the loop found last ends.
#[derive(Clone, Copy)]
struct Inside {
    node: u8,
    sum: Option<u8>,
    close: usize,
}

// Whether no operation is left before the `Close`.
pub(crate) fn is_end(ops: &[Op], at: usize) -> bool
    ensures { result ≡ is_stop (program_at ops.now at) }
{
    if at >= ops.len() {
        return true;
    }
    match ops[at] {
        Op::Close => true,
        _ => false,
    }
}

// The sum that takes node `v`, where its operation stands here alone.
fn sum_alone(tree: &Tree, ops: &[Op], at: usize, v: u8) -> Option<u8>
    requires node { v < operations tree.now }
    requires shaped { IsShaped tree.now (program_at ops.now at) }
    ensures { MatchOption result (accumulates_parent tree.now v (program_at ops.now at) ≡ false)
        (IsSumAt tree.now ops.now at v) }
{
    if at >= ops.len() {
        return None;
    }
    let Op::Acc(u) = ops[at] else {
        return None;
    };
    let parent = tree.parent(v)?;
    if u == parent && is_end(ops, at + 1) {
        Some(u)
    } else {
        None
    }
}

// The operations of a tail that begins with the product `v`.
fn find_product(tree: &Tree, ops: &[Op], at: usize, v: u8) -> Option<Inside>
    requires within { at < length ops.now }
    requires op { slice_index_or ops.now at (Mul v) ≡ Mul v }
    requires shaped { IsShaped tree.now (program_at ops.now at) }
    ensures { MatchOption result (tail_loops tree.now (program_at ops.now at) ≡ None)
        (λ f. IsAlone tree.now ops.now at f.node f.sum f.close) }
{
    if is_end(ops, at + 1) {
        return Some(Inside {
            node: v,
            sum: None,
            close: at + 1,
        });
    }
    let sum = sum_alone(tree, ops, at + 1, v)?;
    Some(Inside {
        node: v,
        sum: Some(sum),
        close: at + 2,
    })
}

// The operations of a tail, where nothing else stands here.
fn find_operations(tree: &Tree, ops: &[Op], at: usize) -> Option<Inside>
    requires within { at < length ops.now }
    requires shaped { IsShaped tree.now (program_at ops.now at) }
    requires no_loop { (i : ℕ) → slice_index_or ops.now at (Open i) ≡ Open i → ⊥ }
    ensures { MatchOption result (tail_loops tree.now (program_at ops.now at) ≡ None)
        (λ f. IsAlone tree.now ops.now at f.node f.sum f.close) }
{
    match ops[at] {
        Op::Mul(v) => find_product(tree, ops, at, v),
        Op::Add(v) | Op::Sub(v) | Op::Acc(v) => {
            if !is_end(ops, at + 1) {
                return None;
            }
            Some(Inside {
                node: v,
                sum: None,
                close: at + 1,
            })
        }
        Op::Open(_) | Op::Close | Op::Clear(_) => None,
    }
}

// The loops of a tail that begins here, which are put behind the others, and what stands in them.
fn find_inside(tree: &Tree, ops: &[Op], at: usize, loops: &mut LoopOrder) -> Option<Inside>
    requires within { at ≤ length ops.now }
    requires shaped { IsShaped tree.now (program_at ops.now at) }
    requires few { length loops.old.0.items + most_open (program_at ops.now at) ≤ max_loops }
    ensures { MatchOption result (tail_loops tree.now (program_at ops.now at) ≡ None)
        (λ f. IsInside tree.now ops.now at loops.old.0.items loops.new.0.items f.node f.sum f.close) }
{
    if at >= ops.len() {
        return None;
    }
    let Op::Open(i) = ops[at] else {
        return find_operations(tree, ops, at);
    };
    loops.0.push(i);
    let inside = find_inside(tree, ops, at + 1, loops)?;
    let close = (inside.close + 1).min(ops.len());
    if !is_end(ops, close) {
        return None;
    }
    Some(Inside { close, ..inside })
}

// Whether an operand of the node is a constant.
#[tactic(auto, using(crate::proofs::Searching::constant_rules))]
fn has_constant(tree: &Tree, v: u8) -> bool
    requires { v < operations tree.now }
    ensures { result ≡ reads_constant tree.now (operation_of_node tree.now v) }
{
    if is_constant(tree.left(v)) {
        return true;
    }
    match tree.right(v) {
        Some(right) => is_constant(right),
        None => false,
    }
}

fn is_constant(operand: &Operand) -> bool
    ensures { result ≡ names_constant operand.now }
{
    match operand {
        Operand::Constant(_) => true,
        Operand::Leaf(_) | Operand::Node(_) => false,
    }
}

// The tail without a constant operand that the loop over `i` begins, whose `Open` stands here.
pub(crate) fn find_tail(tree: &Tree, ops: &[Op], at: usize, i: u8) -> Option<Found>
    requires within { at < length ops.now }
    requires few { 1 + most_open (program_at ops.now (at + 1)) ≤ max_loops }
    requires shaped { IsShaped tree.now (program_at ops.now (at + 1)) }
    ensures { MatchOption result (HasNoTail tree.now i (program_at ops.now (at + 1)))
        (λ f. IsTailOf tree.now i (program_at ops.now (at + 1)) f.tail × IsEnd ops.now (at + 1) f.close) }
{
    let mut loops = LoopOrder(ArrayVec::new());
    loops.0.push(i);
    let inside = find_inside(tree, ops, at + 1, &mut loops)?;
    if has_constant(tree, inside.node) {
        return None;
    }
    let tail = Tail {
        loops,
        node: inside.node,
        sum: inside.sum,
    };
    Some(Found {
        tail,
        close: inside.close,
    })
}
