// What loop code runs on.
ghost use Rattle.std.specs.Prelude.{◌≡◌, ◌+◌, ◌≤◌, ◌^◌, ℕ, Option, OnOk, IsErr};
ghost use Rattle.std.specs.Option.{option_map};
ghost use Rattle.tce_space.specs.Space.{IndexSpace};
ghost use Rattle.tce_block.specs.Cuts.{part_of};
ghost use Rattle.tce_code.specs.Execution.{Setting, State, cleared};
ghost use Rattle.tce_walk.specs.Bodies.{after_body, touches_of_body, IsBodyAt};
ghost use Rattle.tce_walk.specs.Terms.{after_combination, touches_of_terms, IsCombinationAt};
ghost use Rattle.tce_walk.specs.Machine.{assignment_of, after, operation_of_node, tail_program, touches_of_tail, IsNodeAt, IsInnerSum, IsTailAt, Upholds};

use crate::terms::Combination;
use tce_block::Block;
use tce_code::Op;
use tce_outside::Failed;
use tce_space::{LoopOrder, Numbers};

/// A tail: loops, outermost first, that hold the operation of one node, and behind it that of a joined sum, where there
/// is one.
#[derive(Clone, PartialEq, Eq, Drop)]
pub struct Tail {
    pub loops: LoopOrder,
    pub node: u8,
    pub sum: Option<u8>,
}

/// A body without loops inside: its operations, and the loops round it, outermost first.
#[derive(Clone, Copy)]
pub struct Body<'a> {
    pub loops: &'a [u8],
    pub ops: &'a [Op],
}

/// What loop code runs on: the places of a tree's nodes, over one space.
///
/// The numbers of the open loops are handed over as a list with one number for each index; those of other indexes say
/// nothing. A call that fails says nothing of the machine but what it keeps.
pub trait Machine {
    /// The space of the tree's indexes. It never changes.
    ghost space: { Self → IndexSpace };

    /// The tree with its fusion, and the elements of its tensors. They never change.
    ghost setting: { Self → Setting };

    /// The words in the places of the nodes, where the machine tells them.
    ghost state: { Self → Option State };

    /// How often tiles were touched.
    ghost touches: { Self → ℕ };

    /// How often the machine's devices have failed.
    ghost faults: { Self → ℕ };

    /// What each call asks of the machine, and leaves where it succeeds.
    ghost ready: { Self → Type 0 };

    /// What stays from one machine to a later one, also where a call fails.
    ghost keeps: { Self → Self → Type 0 };

    /// How many tiles the machine holds at once.
    fn frames(&self) -> usize;

    /// Sets every place of a node to 0.
    fn clear(&mut self, v: u8)
        requires ready { ready self.old }
        requires sum { IsInnerSum (setting self.old).tree v }
        ensures ready { ready self.new }
        ensures state { state self.new
            ≡ option_map (λ before. cleared before v) (state self.old) }
        ensures touches { touches self.new ≤ touches self.old }
        ensures upheld { Upholds space setting keeps faults self.old self.new ⊥ };

    /// Does the operation of one node at the numbers of its loops, with at most three touches.
    fn operate(&mut self, v: u8, numbers: &Numbers) -> Result<(), Failed>
        requires ready { ready self.old }
        requires node { IsNodeAt (setting self.old) v (assignment_of numbers.now) }
        requires few { touches self.old + 3 ≤ 2 ^ 100 }
        ensures ready { OnOk result (ready self.new) }
        ensures state { OnOk result (state self.new
            ≡ after (setting self.old) (operation_of_node (setting self.old).tree v) (assignment_of numbers.now) (state self.old)) }
        ensures touches { OnOk result (touches self.new ≤ touches self.old + 3) }
        ensures upheld { Upholds space setting keeps faults self.old self.new (IsErr result) };

    /// Runs a whole tail at the numbers of the loops round it, with at most three touches for each block of its loops.
    fn run_tail(&mut self, tail: &Tail, numbers: &Numbers) -> Result<(), Failed>
        requires ready { ready self.old }
        requires tail { IsTailAt (setting self.old) tail.now (assignment_of numbers.now) }
        requires few { touches self.old + touches_of_tail (space self.old) tail.now ≤ 2 ^ 100 }
        ensures ready { OnOk result (ready self.new) }
        ensures state { OnOk result (state self.new
            ≡ after (setting self.old) (tail_program (setting self.old).tree tail.now) (assignment_of numbers.now) (state self.old)) }
        ensures touches { OnOk result (touches self.new
            ≤ touches self.old + touches_of_tail (space self.old) tail.now) }
        ensures upheld { Upholds space setting keeps faults self.old self.new (IsErr result) };

    /// Runs a body at each assignment of one block of the loops round it, the last loop the fastest, with at most three
    /// touches for each operation at each assignment. `numbers` has the numbers of all other loops.
    fn run_body(&mut self, body: &Body<'_>, block: &Block, numbers: &Numbers) -> Result<(), Failed>
        requires ready { ready self.old }
        requires body { IsBodyAt (space self.old) (setting self.old)
            body.now.loops.now body.now.ops.now (part_of block.now) (assignment_of numbers.now) }
        requires few { touches self.old + touches_of_body body.now.ops.now (part_of block.now) ≤ 2 ^ 100 }
        ensures ready { OnOk result (ready self.new) }
        ensures state { OnOk result (state self.new ≡ after_body (setting self.old)
            body.now.loops.now body.now.ops.now (part_of block.now) (assignment_of numbers.now) (state self.old)) }
        ensures touches { OnOk result (touches self.new
            ≤ touches self.old + touches_of_body body.now.ops.now (part_of block.now)) }
        ensures upheld { Upholds space setting keeps faults self.old self.new (IsErr result) };

    /// Sets the places of a combination's node in one block of its loops to the node's values, with at most three touches for
    /// each block of each term's loops. No other place changes. `numbers` has the numbers of all other loops.
    fn run_terms(
        &mut self,
        sum: &Combination<'_>,
        block: &Block,
        numbers: &Numbers,
    ) -> Result<(), Failed>
        requires ready { ready self.old }
        requires terms { IsCombinationAt (space self.old) (setting self.old)
            sum.now (part_of block.now) (assignment_of numbers.now) }
        requires few { touches self.old + touches_of_terms (space self.old) sum.now.terms.now ≤ 2 ^ 100 }
        ensures ready { OnOk result (ready self.new) }
        ensures state { OnOk result (state self.new ≡ after_combination (setting self.old)
            sum.now (part_of block.now) (assignment_of numbers.now) (state self.old)) }
        ensures touches { OnOk result (touches self.new
            ≤ touches self.old + touches_of_terms (space self.old) sum.now.terms.now) }
        ensures upheld { Upholds space setting keeps faults self.old self.new (IsErr result) };

    /// Each machine keeps its own, and what is kept twice is kept.
    ghost keeps_own: { (x : Self) → keeps x x };

    ghost keeps_on: { (x y z : Self) → keeps x y → keeps y z → keeps x z };
}
