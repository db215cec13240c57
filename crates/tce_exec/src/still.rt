// Loops along which the place of a result stays: of what is put there, only that of their last turns counts.
ghost use Rattle.std.specs.Prelude.{◌≡◌, ℕ, ◌+◌, ◌<◌, ◌≤◌, ◌^◌, length, take, sum_by};
ghost use Rattle.std.specs.List.{All};
ghost use Rattle.tce_space.specs.Limits.{max_indexes, max_loops};
ghost use Rattle.tce_exec.specs.Nests.{advanced, moving_loops};

use crate::block_loops::OperandWindows;
use crate::nest::{Axis, put_pair_loop};
use crate::window::Window;
use tce_block::Loop;
use tce_space::MAX_LOOPS;

/// How many loops there are along which the place of a result moves, and how far the operands' places are moved before they
/// run: all other loops have their last numbers.
#[derive(Clone, Copy, Default)]
pub(crate) struct Moving {
    pub(crate) count: usize,
    pub(crate) left: u64,
    pub(crate) right: u64,
}

// How far the word of a window moves where a loop has its last number, along which that of the result stays.
#[inline]
fn advance(axis: Axis, out: &Window, window: &Window) -> u64
    requires below { axis.index < max_indexes }
    requires some { 0 < axis.len }
    requires fits { advanced out.now window.now axis < 2 ^ 60 }
    ensures { result ≡ advanced out.now window.now axis }
{
    let i = axis.index as usize;
    if out.steps[i] == 0 {
        (axis.len - 1) * window.steps[i]
    } else {
        0
    }
}

/// Puts the loops along which the place of the result moves at the front of a list, and answers how many they are, and how far
/// the operands' words are moved where all other loops have their last numbers, and these their first ones.
#[inline]
pub(crate) fn fill_moving_loops(
    axes: &[Axis],
    out: &Window,
    operands: &OperandWindows,
    loops: &mut [Loop; MAX_LOOPS],
) -> Moving
    requires few { length axes.now ≤ max_loops }
    requires below { All (λ x. x.index < max_indexes) axes.now }
    requires some { All (λ x. 0 < x.len) axes.now }
    requires left { sum_by (advanced out.now operands.now.left.now) axes.now < 2 ^ 60 }
    requires right { sum_by (advanced out.now operands.now.right.now) axes.now < 2 ^ 60 }
    ensures few { result.count ≤ max_loops }
    ensures loops { take result.count loops.new
        ≡ moving_loops out.now operands.now.left.now operands.now.right.now axes.now }
    ensures left { result.left ≡ sum_by (advanced out.now operands.now.left.now) axes.now }
    ensures right { result.right ≡ sum_by (advanced out.now operands.now.right.now) axes.now }
{
    let left = operands.left;
    let right = operands.right;
    let mut count = 0;
    let mut left_moved = 0;
    let mut right_moved = 0;
    for axis in axes {
        let i = axis.index as usize;
        left_moved += advance(*axis, out, left);
        right_moved += advance(*axis, out, right);
        if out.steps[i] != 0 {
            let next = Loop {
                len: axis.len,
                out: out.steps[i],
                left: left.steps[i],
                right: right.steps[i],
            };
            put_pair_loop(loops, count, next);
            count += 1;
        }
    }
    Moving {
        count,
        left: left_moved,
        right: right_moved,
    }
}
