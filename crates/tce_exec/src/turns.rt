// The turns of one block of a tail.
ghost use Rattle.std.specs.Prelude.{◌≡◌, ◌<◌, IsTrue, length, slice_index};
ghost use Rattle.tce_block.specs.Cuts.{part_of};
ghost use Rattle.tce_block.specs.Turns.{grown, computed};
ghost use Rattle.tce_exec.specs.Loops.{AreLoops, AreMade, AreProductsJoined, IsResultWindow, place_along};
ghost use Rattle.tce_exec.specs.Sequences.{IsLoopSequence};
ghost use Rattle.tce_exec.specs.Turns.{turns_of};
ghost use Rattle.tce_exec.specs.Blocks.{loops_of, IsWithin, HaveNone};
ghost use Rattle.tce_exec.specs.Positions.{IsPosition};
ghost use Rattle.tce_exec.specs.TailBlocks.{part_in};
ghost use Rattle.tce_exec.specs.Windows.{FitSequence};

use crate::block_loops::{BlockLoops, OperandWindows, compute, compute_and_grow, grow};
use crate::position::Position;
use crate::sequence::LoopSequence;
use crate::steps::Windows;
use crate::window::Window;
use tce_block::Block;
use tce_space::{Arithmetic, Numbers, Space};
use tce_walk::Tail;
use tce_words::Words;

/// One block of a tail, at the numbers of the loops round it.
#[derive(Clone, Copy)]
pub(crate) struct TailBlock<'a> {
    pub tail: &'a Tail,
    pub numbers: &'a Numbers,
    pub block: &'a Block,
}

/// Gives the loops their numbers at the first turn of a block, among those of all indexes.
pub(crate) fn begin_block(space: &Space, first: &mut Position, tail: &Tail, block: &Block)
    requires position { IsPosition space.now first.old }
    requires loops { AreLoops (loops_of tail.now) (part_of block.now).len }
    requires each { length (part_of block.now).from ≡ length (loops_of tail.now) }
    ensures numbers { slice_index first.new.numbers
        ≡ (turns_of (loops_of tail.now) (slice_index first.old.numbers) (part_of block.now)).first }
    ensures position { IsPosition space.now first.new }
{
    first.begin(space, tail.loops.0.as_slice(), block.from.as_slice());
}

// The loops of the block.
fn loops_in<'a>(at: &TailBlock<'a>) -> BlockLoops<'a>
    ensures indexes { result.indexes.now ≡ loops_of at.now.tail.now }
    ensures lens { result.lens.now ≡ (part_in at.now).len }
{
    BlockLoops {
        indexes: at.tail.loops.0.as_slice(),
        lens: at.block.len.as_slice(),
    }
}

// Where the words of the operands stand.
fn operands_of(windows: &Windows) -> OperandWindows<'_>
    ensures left { result.left.now ≡ windows.now.left }
    ensures right { result.right.now ≡ windows.now.right }
{
    OperandWindows {
        left: &windows.left,
        right: &windows.right,
    }
}

/// Adds the left words to the result's.
pub(crate) fn grow_turns(
    words: &mut Words,
    sequence: &mut LoopSequence,
    at: &TailBlock,
    windows: &Windows,
)
    requires loops { AreLoops (loops_of at.now.tail.now) (part_in at.now).len }
    requires sequence { IsLoopSequence (loops_of at.now.tail.now) sequence.old }
    requires out { IsWithin (length words.old) at.now.tail.now (part_in at.now) windows.now.out }
    requires operand { IsWithin (length words.old) at.now.tail.now
        (part_in at.now) windows.now.left }
    requires apart { HaveNone at.now.tail.now (part_in at.now) windows.now.out windows.now.left }
    ensures sequence { IsLoopSequence (loops_of at.now.tail.now) sequence.new }
    ensures made { AreMade (loops_of at.now.tail.now) (part_in at.now).len
        (λ inner. grown words.old (place_along windows.now.left inner)) windows.now.out words.old words.new }
{
    grow(words, sequence, &loops_in(at), &windows.out, &windows.left);
}

/// Puts the products of the operands' words into those of `own`, and adds them after that to the result's. The windows have the
/// steps that they had in the block before.
pub(crate) fn join_turns(
    words: &mut Words,
    sequence: &mut LoopSequence,
    at: &TailBlock,
    windows: &Windows,
)
    requires loops { AreLoops (loops_of at.now.tail.now) (part_in at.now).len }
    requires sequence { IsLoopSequence (loops_of at.now.tail.now) sequence.old }
    requires fit { FitSequence windows.now sequence.old }
    requires own { IsResultWindow (length words.old) (loops_of at.now.tail.now) (part_in at.now).len
        windows.now.own
        windows.now.left
        windows.now.right }
    requires out { IsResultWindow (length words.old) (loops_of at.now.tail.now) (part_in at.now).len
        windows.now.out
        windows.now.left
        windows.now.right }
    requires left { IsWithin (length words.old) at.now.tail.now
        (part_in at.now) windows.now.left }
    requires right { IsWithin (length words.old) at.now.tail.now
        (part_in at.now) windows.now.right }
    ensures sequence { IsLoopSequence (loops_of at.now.tail.now) sequence.new }
    ensures fit { FitSequence windows.now sequence.new }
    ensures made { AreProductsJoined (loops_of at.now.tail.now) (part_in at.now).len windows.now.own
        windows.now.out
        windows.now.left
        windows.now.right
        words.old
        words.new }
{
    compute_and_grow(
        words,
        sequence,
        &loops_in(at),
        &windows.own,
        &windows.out,
        &operands_of(windows),
    );
}

/// Puts what the operation makes of the operands' words into the words of `out`.
pub(crate) fn compute_turns(
    words: &mut Words,
    operation: Arithmetic,
    sequence: &mut LoopSequence,
    at: &TailBlock,
    out: &Window,
    windows: &Windows,
)
    requires loops { AreLoops (loops_of at.now.tail.now) (part_in at.now).len }
    requires sequence { IsLoopSequence (loops_of at.now.tail.now) sequence.old }
    requires out { IsWithin (length words.old) at.now.tail.now (part_in at.now) out.now }
    requires left { IsWithin (length words.old) at.now.tail.now
        (part_in at.now) windows.now.left }
    requires right { IsWithin (length words.old) at.now.tail.now
        (part_in at.now) windows.now.right }
    requires apart_from_left { HaveNone at.now.tail.now (part_in at.now) out.now windows.now.left }
    requires apart_from_right { HaveNone at.now.tail.now (part_in at.now)
        out.now windows.now.right }
    ensures sequence { IsLoopSequence (loops_of at.now.tail.now) sequence.new }
    ensures made { AreMade (loops_of at.now.tail.now) (part_in at.now).len
        (λ inner. computed operation words.old (place_along windows.now.left inner) (place_along windows.now.right inner))
        out.now words.old words.new }
{
    compute(
        words,
        operation,
        sequence,
        &loops_in(at),
        out,
        &operands_of(windows),
    );
}
