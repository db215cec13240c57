// Finds the band that a loop of the code begins.
//
// What is claimed of it is guessed in one look ahead, and then checked.
ghost use Rattle.std.specs.Prelude.{◌≡◌, ◌⊎◌, ◌+◌, ◌<◌, ◌≤◌, ℕ, not, IsTrue, IfSome, length};
ghost use Rattle.std.specs.List.{list_all};
ghost use Rattle.tce_space.specs.IndexSet.{has};
ghost use Rattle.tce_tree.specs.ContractionTree.{Arithmetic, operations, node};
ghost use Rattle.tce_tree.specs.Fusion.{kept_dims};
ghost use Rattle.tce_tree.specs.WellFormed.{among};
ghost use Rattle.tce_code.specs.Program.{clear, compute, accumulate};
ghost use Rattle.tce_walk.specs.Bands.{action_passes, gained, is_sum, left_ready, right_ready};
ghost use Rattle.tce_walk.specs.BandSearch.{known_of, operand_ready, BeginsBand, IsCheckedAt, IsNestAt, IsPassed};
ghost use Rattle.tce_walk.specs.Positions.{plain_program};

use crate::indexes::{are_in, is_apart};
use crate::search::is_end;
use crate::walk::Walk;
use arrayvec::ArrayVec;
use tce_code::Op;
use tce_space::{IndexSet, LoopOrder, MAX_INDEXES, MAX_LOOPS, MAX_NODES, Space};
use tce_tree::{Kind, Operand};

// A mark for each node.
pub(crate) type Marks = [bool; MAX_NODES];

// Loops, outermost first, with the node that carries what their turns leave, the position of the body, and that of the `Close`
// of the outermost loop.
#[derive(Drop)]
pub(crate) struct Band {
    pub(crate) loops: LoopOrder,
    pub(crate) carrier: u8,
    pub(crate) at: usize,
    pub(crate) close: usize,
}

// What is claimed of a band: its loops, the node that carries what its turns leave, and the nodes that no action writes.
#[derive(Drop)]
pub(crate) struct Claim {
    pub(crate) loops: LoopOrder,
    pub(crate) carrier: u8,
    pub(crate) outside: Marks,
}

// How many loops stand directly in one another from a position on, where none holds anything else.
fn depth_at(ops: &[Op], start: usize) -> usize {
    let mut depth: usize = 0;
    let mut least = ops.len();
    let mut opens = true;
    for at in start..ops.len() {
        match ops[at] {
            Op::Open(_) => {
                if !opens {
                    least = least.min(depth);
                }
                depth = depth.saturating_add(1);
            }
            Op::Close => {
                opens = false;
                depth = depth.saturating_sub(1);
                if depth == 0 {
                    return least;
                }
            }
            _ => {
                opens = false;
                least = least.min(depth);
            }
        }
    }
    least
}

// Puts the loops that begin one directly after the other from here on behind the others.
fn push_loops(ops: &[Op], start: usize, loops: &mut LoopOrder) {
    for at in start..ops.len() {
        let Op::Open(i) = ops[at] else {
            return;
        };
        if loops.0.len() >= MAX_LOOPS {
            return;
        }
        loops.0.push(i);
    }
}

// Whether a loop other than the first has more tiles than one.
fn is_cut(space: &Space, loops: &LoopOrder) -> bool {
    let count = space.index_count();
    for d in 1..loops.0.len() {
        let i = loops.0[d];
        if i < count && space.edge(i) < space.extent(i) {
            return true;
        }
    }
    false
}

// The loops that stand directly in one another from a position on, if some inner one is cut or the body begins with an operation.
fn loops_at(walk: &Walk, at: usize) -> LoopOrder {
    let mut loops = LoopOrder(ArrayVec::new());
    push_loops(walk.ops, at, &mut loops);
    loops.0.truncate(depth_at(walk.ops, at));
    if !is_cut(walk.space, &loops) && opens_at(walk.ops, at.saturating_add(loops.0.len())) {
        loops.0.clear();
    }
    loops
}

// Whether a loop begins here.
fn opens_at(ops: &[Op], at: usize) -> bool {
    if at >= ops.len() {
        return false;
    }
    match ops[at] {
        Op::Open(_) => true,
        _ => false,
    }
}

// The nodes that the loop from here on writes lose their marks; the last of them is what is told.
fn unmark(ops: &[Op], at: usize, outside: &mut Marks) -> u8 {
    let mut depth: usize = 0;
    let mut last = 0;
    for k in at..ops.len() {
        match ops[k] {
            Op::Open(_) => depth = depth.saturating_add(1),
            Op::Close => {
                depth = depth.saturating_sub(1);
                if depth == 0 {
                    return last;
                }
            }
            Op::Clear(v) | Op::Mul(v) | Op::Add(v) | Op::Sub(v) | Op::Acc(v) => {
                if (v as usize) < MAX_NODES {
                    outside[v as usize] = false;
                }
                last = last.max(v);
            }
        }
    }
    last
}

// Whether the node is one of the tree, and not outside.
fn is_inside(walk: &Walk, claim: &Claim, v: u8) -> bool
    ensures known { IsTrue result → v < operations walk.now.tree.now }
    ensures inner { IsTrue result → IsTrue (not (known_of claim.now.outside v)) }
{
    v < walk.tree.count() && (v as usize) < MAX_NODES && !claim.outside[v as usize]
}

// Whether the node is a sum.
fn is_sum_at(walk: &Walk, v: u8) -> bool
    requires { v < operations walk.now.tree.now }
    ensures { result ≡ is_sum (node walk.now.tree.now v) }
{
    match walk.tree.kind(v) {
        Kind::Sum => true,
        Kind::Product | Kind::Add | Kind::Sub => false,
    }
}

// Whether the operand is no node, or a known one.
fn is_ready(operand: &Operand, known: &Marks) -> bool
    ensures { IsTrue result → IsTrue (operand_ready (known_of known.now) operand.now) }
{
    match operand {
        Operand::Leaf(_) | Operand::Constant(_) => true,
        Operand::Node(u) => (*u as usize) < MAX_NODES && known[*u as usize],
    }
}

pub(crate) fn is_left_ready(walk: &Walk, v: u8, known: &Marks) -> bool
    requires { v < operations walk.now.tree.now }
    ensures { IsTrue result → IsTrue (left_ready walk.now.tree.now (known_of known.now) v) }
{
    is_ready(walk.tree.left(v), known)
}

pub(crate) fn is_right_ready(walk: &Walk, v: u8, known: &Marks) -> bool
    requires { v < operations walk.now.tree.now }
    ensures { IsTrue result → IsTrue (right_ready walk.now.tree.now (known_of known.now) v) }
{
    match walk.tree.right(v) {
        Some(right) => is_ready(right, known),
        None => true,
    }
}

// Whether the places of a node with two operands are as asked: all loops are among the kept dims of the node that
// carries, and another one has a single place.
fn is_placed(walk: &Walk, claim: &Claim, v: u8) -> bool
    requires { v < operations walk.now.tree.now }
    ensures carrier { IsTrue result → v ≡ claim.now.carrier
        → IsTrue (list_all (has (kept_dims walk.now.tree.now walk.now.fusion.now.0.items v)) claim.now.loops.0.items) }
    ensures others { IsTrue result → (v ≡ claim.now.carrier → ⊥)
        → kept_dims walk.now.tree.now walk.now.fusion.now.0.items v ≡ 0 }
{
    if v as usize >= walk.fusion.0.len() {
        return false;
    }
    let kept = walk.tree.dims(v).minus(walk.fusion.0[v as usize]);
    if v == claim.carrier {
        are_in(kept, claim.loops.0.as_slice())
    } else {
        kept == IndexSet::empty()
    }
}

fn may_clear(walk: &Walk, claim: &Claim, known: &Marks, v: u8) -> bool
    ensures { IsTrue result → IsTrue (action_passes walk.now.tree.now walk.now.fusion.now.0.items
        claim.now.loops.0.items claim.now.carrier (known_of claim.now.outside) (known_of known.now) (clear v)) }
{
    is_inside(walk, claim, v) && v != claim.carrier && is_sum_at(walk, v)
}

fn may_compute(walk: &Walk, claim: &Claim, known: &Marks, v: u8) -> bool
    ensures { IsTrue result → (op : Arithmetic) → IsTrue (action_passes walk.now.tree.now walk.now.fusion.now.0.items
        claim.now.loops.0.items claim.now.carrier (known_of claim.now.outside) (known_of known.now) (compute op v)) }
{
    is_inside(walk, claim, v)
        && !is_sum_at(walk, v)
        && is_left_ready(walk, v, known)
        && is_right_ready(walk, v, known)
        && is_placed(walk, claim, v)
}

fn may_accumulate(walk: &Walk, claim: &Claim, known: &Marks, v: u8) -> bool
    ensures { IsTrue result → IsTrue (action_passes walk.now.tree.now walk.now.fusion.now.0.items
        claim.now.loops.0.items claim.now.carrier (known_of claim.now.outside) (known_of known.now) (accumulate v)) }
{
    is_inside(walk, claim, v)
        && is_sum_at(walk, v)
        && is_left_ready(walk, v, known)
        && (v == claim.carrier || known[v as usize])
}

// Marks a node that is written, but for the one that carries.
fn gain(claim: &Claim, known: &mut Marks, v: u8)
    ensures { known_of known.new ≡ gained claim.now.carrier (known_of known.old) v }
{
    if v != claim.carrier && (v as usize) < MAX_NODES {
        known[v as usize] = true;
    }
}

// Whether an operation that is no loop passes.
fn check_action(walk: &Walk, claim: &Claim, op: Op, known: &mut Marks) -> bool
    ensures { IsTrue result → IsPassed walk.now.tree.now walk.now.fusion.now.0.items
        claim.now (plain_program op) known.old known.new }
{
    match op {
        Op::Open(_) | Op::Close => false,
        Op::Clear(v) => {
            let passes = may_clear(walk, claim, known, v);
            gain(claim, known, v);
            passes
        }
        Op::Mul(v) | Op::Add(v) | Op::Sub(v) => {
            let passes = may_compute(walk, claim, known, v);
            gain(claim, known, v);
            passes
        }
        Op::Acc(v) => {
            let passes = may_accumulate(walk, claim, known, v);
            gain(claim, known, v);
            passes
        }
    }
}

// Where the program that begins here ends, if it passes.
fn check_part(walk: &Walk, claim: &Claim, at: usize, known: &mut Marks) -> Option<usize>
    requires { at ≤ length walk.now.ops.now }
    ensures { IfSome result (λ end. IsCheckedAt walk.now.tree.now walk.now.fusion.now.0.items walk.now.ops.now
        claim.now at end known.old known.new) }
{
    if at >= walk.ops.len() {
        return Some(at);
    }
    match walk.ops[at] {
        Op::Close => Some(at),
        Op::Open(i) => {
            if !is_apart(claim.loops.0.as_slice(), i) {
                return None;
            }
            let close = check_part(walk, claim, at + 1, known)?;
            let next = (close + 1).min(walk.ops.len());
            check_part(walk, claim, next, known)
        }
        op => {
            if !check_action(walk, claim, op, known) {
                return None;
            }
            check_part(walk, claim, at + 1, known)
        }
    }
}

// Where the loops of the band from the d-th on end that begin here, if they hold nothing else and the body passes.
fn check_nest(walk: &Walk, claim: &Claim, at: usize, d: usize, known: &mut Marks) -> Option<usize>
    requires at { at ≤ length walk.now.ops.now }
    requires d { d ≤ length claim.now.loops.0.items }
    ensures { IfSome result (λ end. IsNestAt walk.now.tree.now walk.now.fusion.now.0.items walk.now.ops.now
        claim.now at d end known.old known.new) }
{
    if d >= claim.loops.0.len() {
        return check_part(walk, claim, at, known);
    }
    if at >= walk.ops.len() {
        return None;
    }
    let Op::Open(i) = walk.ops[at] else {
        return None;
    };
    if i != claim.loops.0[d] {
        return None;
    }
    let close = check_nest(walk, claim, at + 1, d + 1, known)?;
    let end = (close + 1).min(walk.ops.len());
    if is_end(walk.ops, end) {
        Some(end)
    } else {
        None
    }
}

// Whether all nodes are marked but the one that carries.
fn are_known(known: &Marks, carrier: u8) -> bool
    ensures { IsTrue result → (v : ℕ) → (v ≡ carrier) ⊎ IsTrue (known_of known.now v) }
{
    for v in 0..MAX_NODES {
        if v != carrier as usize && !known[v] {
            return false;
        }
    }
    true
}

// The band that the loop over `i` begins, whose `Open` stands here, where its blocks are worth a look.
pub(crate) fn find_band(walk: &Walk, at: usize, i: u8) -> Option<Band>
    requires { at < length walk.now.ops.now }
    ensures { IfSome result (BeginsBand walk.now.tree.now walk.now.fusion.now.0.items walk.now.ops.now at i) }
{
    let mut claim = Claim {
        loops: loops_at(walk, at),
        carrier: 0,
        outside: [true; MAX_NODES],
    };
    if claim.loops.0.len() < 1 || claim.loops.0[0] != i {
        return None;
    }
    claim.carrier = unmark(walk.ops, at, &mut claim.outside);
    let mut known = claim.outside;
    let close = check_nest(walk, &claim, at + 1, 1, &mut known)?;
    if !are_known(&known, claim.carrier) {
        return None;
    }
    Some(Band {
        at: at + claim.loops.0.len(),
        loops: claim.loops,
        carrier: claim.carrier,
        close,
    })
}
