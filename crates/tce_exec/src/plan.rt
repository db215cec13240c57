// What stays from run to run of one tail.
ghost use Rattle.std.specs.Prelude.{◌≡◌, ◌<◌, ◌≤◌, false, length, map, All, IsTrue};
ghost use Rattle.tce_space.specs.Limits.{max_loops};
ghost use Rattle.tce_exec.specs.NodeStates.{Places};
ghost use Rattle.tce_space.specs.Space.{edge_at};
ghost use Rattle.tce_exec.specs.Loops.{AreLoops};
ghost use Rattle.tce_exec.specs.Blocks.{loops_of};
ghost use Rattle.tce_exec.specs.Evaluations.{places_of};
ghost use Rattle.tce_exec.specs.Windows.{CanStep};
ghost use Rattle.tce_block.specs.Cuts.{IsCut};
ghost use Rattle.tce_exec.specs.Plans.{IsPlan, IsPlanFor, AreKept, AreAllBlocks};

use crate::cuts::sequence_of;
use crate::evaluation::Evaluation;
use crate::position::Position;
use crate::sequence::LoopSequence;
use crate::steps::{Windows, set_steps};
use arrayvec::ArrayVec;
use tce_block::{Block, Blocks, Cut};
use tce_cache::Cache;
use tce_space::{LoopOrder, MAX_LOOPS, Space};
use tce_walk::{Tail, cuts_of};

/// So many blocks of a tail are kept at most.
const MOST_BLOCKS: usize = 16;

/// In which sequence the loops of a tail run in a block, and the windows of its operands and places.
#[derive(Drop)]
pub(crate) struct Nest {
    pub windows: Windows,
    pub sequence: LoopSequence,
}

/// How the loops of a tail are cut, and the nest that runs each block.
#[derive(Drop)]
pub(crate) struct Plan {
    // Whether the plan is that of its tail.
    pub made: bool,
    pub tail: Tail,
    pub cuts: ArrayVec<Cut, MAX_LOOPS>,
    // The blocks that are still to come, and the one that runs. Each run of the tail begins with all of them.
    pub blocks: Blocks,
    pub block: Block,
    // Whether the tail ran again, so that its blocks were counted, and whether they are few. Then all are in the list.
    pub counted: bool,
    pub few: bool,
    pub list: ArrayVec<Block, MOST_BLOCKS>,
    pub nest: Nest,
}

// The same loops in a list of their own.
fn copied(loops: &[u8]) -> ArrayVec<u8, MAX_LOOPS>
    requires { length loops.now ≤ max_loops }
    ensures { result.items ≡ loops.now }
{
    let mut copy = ArrayVec::new();
    for index in loops {
        copy.push(*index);
    }
    copy
}

// Puts the blocks of a box into a list, and answers whether these are all.
#[inline(never)]
fn list_blocks(cuts: &ArrayVec<Cut, MAX_LOOPS>, list: &mut ArrayVec<Block, MOST_BLOCKS>) -> bool
    requires { All IsCut cuts.now.items }
    ensures { IsTrue result → AreAllBlocks cuts.now.items list.new.items }
{
    list.clear();
    let mut rest = Blocks::new(cuts);
    while list.len() < MOST_BLOCKS {
        match rest.next() {
            Some(block) => list.push(block),
            None => return true,
        }
    }
    rest.next().is_none()
}

impl Plan {
    // The plan of no tail.
    fn blank() -> Plan
        ensures { result.made ≡ false }
    {
        let windows = Windows::blank();
        let sequence = LoopSequence::of(&[], &[], &windows.out, &windows.left, &windows.right);
        let cuts = ArrayVec::new();
        let blocks = Blocks::new(&cuts);
        Plan {
            made: false,
            tail: Tail {
                loops: LoopOrder(ArrayVec::new()),
                node: 0,
                sum: None,
            },
            cuts,
            blocks,
            block: Block::default(),
            counted: false,
            few: false,
            list: ArrayVec::new(),
            nest: Nest { windows, sequence },
        }
    }

    /// Becomes the plan of a tail, where it is that of another one.
    pub(crate) fn turn_to(&mut self, evaluation: &Evaluation, cache: &Cache, tail: &Tail)
        requires before { IsTrue self.old.made → IsPlan (places_of evaluation.now) self.old }
        requires steps { CanStep (places_of evaluation.now)
            evaluation.now.result.now.tensor cache.now tail.now }
        requires declared { All (λ i. i < length evaluation.now.space.now.indexes)
            (loops_of tail.now) }
        requires loops { AreLoops (loops_of tail.now)
            (map (edge_at evaluation.now.space.now) (loops_of tail.now)) }
        ensures { IsPlanFor (places_of evaluation.now) tail.now self.new }
    {
        if self.made && self.tail == *tail {
            if !self.counted {
                self.counted = true;
                self.few = list_blocks(&self.cuts, &mut self.list);
            }
            return;
        }
        self.become_that_of(evaluation, cache, tail);
    }

    // Becomes the plan of a tail. It stands apart, so that a tail that has its plan has no room for the lists of a new one, which
    // are cleared first.
    #[inline(never)]
    fn become_that_of(&mut self, evaluation: &Evaluation, cache: &Cache, tail: &Tail)
        requires steps { CanStep (places_of evaluation.now)
            evaluation.now.result.now.tensor cache.now tail.now }
        requires declared { All (λ i. i < length evaluation.now.space.now.indexes)
            (loops_of tail.now) }
        requires loops { AreLoops (loops_of tail.now)
            (map (edge_at evaluation.now.space.now) (loops_of tail.now)) }
        ensures { IsPlanFor (places_of evaluation.now) tail.now self.new }
    {
        self.cuts = cuts_of(evaluation.space, tail.loops.0.as_slice());
        set_steps(evaluation, cache, tail, &mut self.nest.windows);
        self.nest.sequence = sequence_of(tail, &self.cuts, &self.nest.windows);
        self.tail = Tail {
            loops: LoopOrder(copied(tail.loops.0.as_slice())),
            node: tail.node,
            sum: tail.sum,
        };
        self.counted = false;
        self.few = false;
        self.made = true;
    }
}

/// What a run keeps from tail to tail: the numbers at which the last block began, and plans of the tails that ran last.
#[derive(Drop)]
pub(crate) struct Kept {
    pub position: Position,
    // Each tail has its place by its node.
    pub plans: [Plan; 8],
}

impl Kept {
    /// Nothing has run.
    pub(crate) fn new(space: &Space) -> Kept
        ensures { (p : Places) → p.space ≡ space.now → AreKept p result }
    {
        Kept {
            position: Position::zero(space),
            plans: [
                Plan::blank(),
                Plan::blank(),
                Plan::blank(),
                Plan::blank(),
                Plan::blank(),
                Plan::blank(),
                Plan::blank(),
                Plan::blank(),
            ],
        }
    }
}
