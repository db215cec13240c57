// The sequence of the loops of a tail, which are cut at the edges of their ranges.
ghost use Rattle.std.specs.Prelude.{◌≡◌, ◌≤◌, length, All};
ghost use Rattle.tce_space.specs.Limits.{max_loops};
ghost use Rattle.tce_block.specs.Cuts.{IsCut, edges_of};
ghost use Rattle.tce_exec.specs.Loops.{AreLoops};
ghost use Rattle.tce_exec.specs.Sequences.{IsLoopSequence, IsUnfilled};
ghost use Rattle.tce_exec.specs.Blocks.{loops_of};

use crate::sequence::LoopSequence;
use crate::steps::Windows;
use arrayvec::ArrayVec;
use tce_block::Cut;
use tce_space::MAX_LOOPS;
use tce_walk::Tail;

/// The best sequence of a tail's loops over its windows, for blocks as long as the edges.
pub(crate) fn sequence_of(
    tail: &Tail,
    cuts: &ArrayVec<Cut, MAX_LOOPS>,
    windows: &Windows,
) -> LoopSequence
    requires cuts { All IsCut cuts.now.items }
    requires loops { AreLoops (loops_of tail.now) (edges_of cuts.now.items) }
    ensures sequence { IsLoopSequence (loops_of tail.now) result }
    ensures unfilled { IsUnfilled result }
{
    let edges = edges_in(cuts.as_slice());
    LoopSequence::of(
        tail.loops.0.as_slice(),
        edges.as_slice(),
        &windows.out,
        &windows.left,
        &windows.right,
    )
}

// The edges of cuts.
fn edges_in(cuts: &[Cut]) -> ArrayVec<u64, MAX_LOOPS>
    requires few { length cuts.now ≤ max_loops }
    ensures { result.items ≡ edges_of cuts.now }
{
    let mut edges = ArrayVec::new();
    for cut in cuts {
        edges.push(cut.edge);
    }
    edges
}
