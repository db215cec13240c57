// The sequence in which loops run.
ghost use Rattle.std.specs.Prelude.{◌≡◌, ℕ, ◌<◌, ◌≤◌, IsTrue, List, length, map, take, slice_set};
ghost use Rattle.std.specs.List.{All};
ghost use Rattle.tce_space.specs.Limits.{max_indexes, max_loops};
ghost use Rattle.tce_exec.specs.Loops.{AreLoops};
ghost use Rattle.tce_exec.specs.Nests.{ArePlaced, IsPlaced, indexes_of, with_len, pair_loops, sum_loops};

use crate::window::Window;
use arrayvec::ArrayVec;
use tce_block::{Loop, SumLoop};
use tce_space::MAX_LOOPS;

/// How far in a loop runs best. They are compared field by field, the first one first: the greater, the better the loop is as
/// the innermost one.
#[derive(Clone, Copy, Default, PartialEq, Eq, PartialOrd, Ord)]
pub(crate) struct Rank {
    // Whether there are so many turns that a run pays for its call.
    long: bool,
    // How many of the three places stay or move word by word.
    near: u8,
    len: u64,
}

/// A loop: its index, where it stands among the loops, how many numbers it has in the block that runs, and how far in it
/// runs best.
#[derive(Clone, Copy, Default)]
pub(crate) struct Axis {
    pub(crate) index: u8,
    pub(crate) at: usize,
    pub(crate) len: u64,
    pub(crate) rank: Rank,
}

// From so many turns on a run pays for its call.
const LONG: u64 = 8;

// A loop of one turn is best outside.
fn rank_of(len: u64, out: u64, left: u64, right: u64) -> Rank {
    if len <= 1 {
        return Rank::default();
    }
    Rank {
        long: LONG <= len,
        near: u8::from(out <= 1) + u8::from(left <= 1) + u8::from(right <= 1),
        len,
    }
}

fn ranked(index: u8, at: usize, len: u64, out: &Window, left: &Window, right: &Window) -> Axis
    requires { index < max_indexes }
    ensures index { result.index ≡ index }
    ensures place { result.at ≡ at }
{
    let i = index as usize;
    Axis {
        index,
        at,
        len,
        rank: rank_of(len, out.steps[i], left.steps[i], right.steps[i]),
    }
}

/// The loops in their own sequence, with ranks for these windows.
pub(crate) fn axes_of(
    loops: &[u8],
    lens: &[u64],
    out: &Window,
    left: &Window,
    right: &Window,
) -> ArrayVec<Axis, MAX_LOOPS>
    requires few { length loops.now ≤ max_loops }
    requires loops { AreLoops loops.now lens.now }
    ensures indexes { indexes_of result.items ≡ loops.now }
    ensures placed { All (IsPlaced loops.now) result.items }
{
    let mut axes = ArrayVec::new();
    for d in 0..loops.len() {
        axes.push(ranked(loops[d], d, lens[d], out, left, right));
    }
    axes
}

/// Gives each loop its numbers in a block.
pub(crate) fn set_lens(axes: &mut [Axis], _loops: &[u8], lens: &[u64])
    requires placed { ArePlaced _loops.now axes.old }
    requires each { length lens.now ≡ length _loops.now }
    ensures { axes.new ≡ map (with_len lens.now) axes.old }
{
    for d in 0..axes.len() {
        axes[d].len = lens[axes[d].at];
    }
}

/// Whether each loop has its numbers in a block already.
#[inline]
pub(crate) fn have_lens(axes: &[Axis], _loops: &[u8], lens: &[u64]) -> bool
    requires placed { ArePlaced _loops.now axes.now }
    requires each { length lens.now ≡ length _loops.now }
    ensures { IsTrue result → axes.now ≡ map (with_len lens.now) axes.now }
{
    for d in 0..axes.len() {
        if axes[d].len != lens[axes[d].at] {
            return false;
        }
    }
    true
}

// Puts a loop into its place, where another one stands there: from block to block most stay.
#[inline]
fn put_sum_loop(loops: &mut [SumLoop; MAX_LOOPS], d: usize, next: SumLoop)
    requires { d < max_loops }
    ensures { loops.new ≡ slice_set loops.old d next }
{
    let SumLoop { len, out, operand } = next;
    if loops[d].len != len || loops[d].out != out || loops[d].operand != operand {
        loops[d] = next;
    }
}

/// The same for a loop over two operands.
#[inline]
pub(crate) fn put_pair_loop(loops: &mut [Loop; MAX_LOOPS], d: usize, next: Loop)
    requires { d < max_loops }
    ensures { loops.new ≡ slice_set loops.old d next }
{
    let Loop {
        len,
        out,
        left,
        right,
    } = next;
    if loops[d].len != len
        || loops[d].out != out
        || loops[d].left != left
        || loops[d].right != right
    {
        loops[d] = next;
    }
}

/// Puts the loops over a result and one operand at the front of a list.
pub(crate) fn fill_sum_loops(
    axes: &[Axis],
    out: &Window,
    operand: &Window,
    loops: &mut [SumLoop; MAX_LOOPS],
)
    requires few { length axes.now ≤ max_loops }
    requires below { All (λ x. x.index < max_indexes) axes.now }
    ensures { take (length axes.now) loops.new ≡ sum_loops out.now operand.now axes.now }
{
    for d in 0..axes.len() {
        let i = axes[d].index as usize;
        let next = SumLoop {
            len: axes[d].len,
            out: out.steps[i],
            operand: operand.steps[i],
        };
        put_sum_loop(loops, d, next);
    }
}

/// Puts the loops over a result and two operands at the front of a list.
pub(crate) fn fill_pair_loops(
    axes: &[Axis],
    out: &Window,
    left: &Window,
    right: &Window,
    loops: &mut [Loop; MAX_LOOPS],
)
    requires few { length axes.now ≤ max_loops }
    requires below { All (λ x. x.index < max_indexes) axes.now }
    ensures { take (length axes.now) loops.new ≡ pair_loops out.now left.now right.now axes.now }
{
    for d in 0..axes.len() {
        let i = axes[d].index as usize;
        let next = Loop {
            len: axes[d].len,
            out: out.steps[i],
            left: left.steps[i],
            right: right.steps[i],
        };
        put_pair_loop(loops, d, next);
    }
}
