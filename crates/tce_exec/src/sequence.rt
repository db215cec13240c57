//! The sequence in which the loops of blocks run.
ghost use Rattle.std.specs.Prelude.{◌≡◌, ◌≤◌, false, length};
ghost use Rattle.tce_space.specs.Limits.{max_loops};
ghost use Rattle.tce_exec.specs.Loops.{AreLoops};
ghost use Rattle.tce_exec.specs.Nests.{IsNest};

use crate::nest::{Axis, axes_of, set_lens};
use crate::still::Moving;
use crate::window::Window;
use arrayvec::ArrayVec;
use tce_block::{Loop, SumLoop};
use tce_space::MAX_LOOPS;

/// The sequence in which loops run best over windows with some steps, the last one innermost, for one block after another.
///
/// It has room for the loops of the block that runs, with their steps. From block to block of a joined product most stay.
#[derive(Drop)]
pub struct LoopSequence {
    pub(crate) axes: ArrayVec<Axis, MAX_LOOPS>,
    pub(crate) sums: [SumLoop; MAX_LOOPS],
    pub(crate) pairs: [Loop; MAX_LOOPS],
    pub(crate) puts: [Loop; MAX_LOOPS],
    pub(crate) moving: Moving,
    // Whether the loops that put and that add products are those of the block before.
    pub(crate) filled: bool,
}

impl LoopSequence {
    ghost use Rattle.tce_exec.specs.Sequences.{IsLoopSequence, IsUnfilled};

    /// The sequence for blocks with so many numbers in each loop, over windows with these steps. Loops of other lengths may
    /// run in it too.
    pub fn of(
        loops: &[u8],
        lens: &[u64],
        out: &Window,
        left: &Window,
        right: &Window,
    ) -> LoopSequence
        requires few { length loops.now ≤ max_loops }
        requires loops { AreLoops loops.now lens.now }
        ensures sequence { IsLoopSequence loops.now result }
        ensures unfilled { IsUnfilled result }
    {
        let mut axes = axes_of(loops, lens, out, left, right);
        axes.sort_unstable_by_key(|axis| axis.rank);
        let pair = Loop {
            len: 1,
            out: 0,
            left: 0,
            right: 0,
        };
        LoopSequence {
            axes,
            sums: [SumLoop {
                len: 1,
                out: 0,
                operand: 0,
            }; MAX_LOOPS],
            pairs: [pair; MAX_LOOPS],
            puts: [pair; MAX_LOOPS],
            moving: Moving::default(),
            filled: false,
        }
    }

    /// Gives the loops their numbers in a block.
    pub(crate) fn begin(&mut self, loops: &[u8], lens: &[u64])
        requires sequence { IsLoopSequence loops.now self.old }
        requires loops { AreLoops loops.now lens.now }
        ensures nest { IsNest loops.now lens.now self.new.axes.items }
        ensures sequence { IsLoopSequence loops.now self.new }
    {
        set_lens(self.axes.as_mut_slice(), loops, lens);
        self.filled = false;
    }
}
