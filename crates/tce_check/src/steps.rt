// The steps at a node from rows of its operands, and whether its rows stand for them.
ghost use Rattle.std.specs.Prelude.{◌≡◌, ◌+◌, ◌^◌, ◌<◌, ◌≤◌, IsTrue, false, IfSome, MatchOption, All, Any};
ghost use Rattle.tce_space.specs.Limits.{cost_limit, max_volume};
ghost use Rattle.tce_fusion.specs.Relation.{Relation};
ghost use Rattle.tce_fusion.specs.Row.{StandsFor};
ghost use Rattle.tce_fusion.specs.StateClasses.{IsNesting};
ghost use Rattle.tce_nesting.specs.Classes.{restricted};
ghost use Rattle.tce_check.specs.First.{First, FirstPair};
ghost use Rattle.tce_check.specs.Joint.{ChoiceCovered, ChoiceUncovered, IsFirstUncovered};
ghost use Rattle.tce_check.specs.Node.{IsReady, PairCovered, IsFailing, AreBelowLimit};

use crate::groups::Groups;
use crate::joint::joint;
use crate::parts::PartCost;
use crate::verdict::Verdict;
use tce_nesting::{Choice, Row, Stretch};
use tce_space::{IndexSet, Space};
use tce_tree::Tree;

// What is kept of one node at a time: the groups of its rows, and from which sums of costs on rows stand for all steps, by a top of the left row.
#[derive(Drop)]
pub(crate) struct Kept<'a> {
    pub(crate) groups: Groups<'a>,
    pub(crate) reaches: &'a mut [PartCost],
}

// A node but the root, the loops of its parent, the sets that may be fused above it, and the rows that are to stand for its steps, with what is kept of them.
#[derive(Clone, Copy)]
pub(crate) struct Node<'a> {
    pub(crate) space: &'a Space,
    pub(crate) tree: &'a Tree,
    pub(crate) number: u8,
    pub(crate) outer: IndexSet,
    pub(crate) choices: &'a [Choice],
    pub(crate) stretches: &'a [Stretch],
    pub(crate) rows: &'a [Row],
    pub(crate) kept: &'a Kept<'a>,
    // Some row stands for every state that costs no less.
    pub(crate) bound: Option<u128>,
}

// A step: the set that is fused, and the state to which it leads.
#[derive(Drop)]
pub(crate) struct Step {
    pub(crate) fused: IndexSet,
    pub(crate) state: Row,
}

impl Step {
    // The verdict that no row of the node stands for this step.
    pub(crate) fn refused(self, node: u8) -> Verdict
        ensures { result ≡ Verdict.NotCovered node self.fused self.state.classes self.state.cost }
    {
        let Row { classes, cost } = self.state;
        Verdict::NotCovered(node, self.fused, classes, cost)
    }
}

// The state to which the joined states of the operands lead with a choice.
pub(crate) fn state_of(joint: &Row, choice: &Choice) -> Row
    requires small { joint.now.cost < 2 ^ 97 }
    requires size { choice.now.size ≤ max_volume }
    ensures classes { result.classes ≡ restricted joint.now.classes choice.now.fused }
    ensures cost { result.cost ≡ joint.now.cost + choice.now.size }
    ensures nesting { IsNesting result.classes }
{
    let state = Row {
        classes: joint.classes.restrict(choice.fused),
        cost: joint.cost + choice.size,
    };
    let _classes = state.classes.classes();
    state
}

impl<'a> Node<'a> {
    // Whether a row is known to stand for all states of this cost.
    pub(crate) fn stands_for_all(&self, cost: u128) -> bool
        requires { IsReady self.now }
        ensures { IsTrue result → (relation : Relation) →
            Any (StandsFor self.now.outer relation cost) self.now.rows.now }
    {
        match self.bound {
            Some(bound) => bound <= cost,
            None => false,
        }
    }

    // Whether the choice's set may not be fused, or some row stands for its step.
    fn is_covered(&self, joint: &Row, choice: &Choice) -> bool
        requires ready { IsReady self.now }
        requires small { joint.now.cost < 2 ^ 97 }
        requires size { choice.now.size ≤ max_volume }
        ensures yes { IsTrue result → ChoiceCovered self.now.outer self.now.rows.now joint.now
            choice.now }
        ensures no { result ≡ false → ChoiceUncovered self.now.outer self.now.rows.now joint.now
            choice.now }
    {
        if self.stands_for_all(joint.cost + choice.size) {
            return true;
        }
        !joint.classes.allowed(choice.fused)
            || self
                .kept
                .groups
                .is_stood_for(self.rows, &state_of(joint, choice), self.outer)
    }

    // The first choice for whose step no row stands.
    fn first_uncovered_choice(&self, joint: &Row) -> Option<Choice>
        requires ready { IsReady self.now }
        requires small { joint.now.cost < 2 ^ 97 }
        ensures first { MatchOption result
            (All (ChoiceCovered self.now.outer self.now.rows.now joint.now) self.now.choices.now)
            (λ choice. IsFirstUncovered self.now.outer self.now.rows.now joint.now
            self.now.choices.now choice) }
        ensures size { IfSome result (λ choice. choice.size ≤ max_volume) }
    {
        for choice in self.choices {
            if !self.is_covered(joint, choice) {
                return Some(*choice);
            }
        }
        None
    }

    // Of the steps from two rows the one of the least set for which no row stands.
    pub(crate) fn first_uncovered_step(&self, left: &Row, right: &Row) -> Option<Step>
        requires ready { IsReady self.now }
        requires left { left.now.cost < cost_limit }
        requires right { right.now.cost < cost_limit }
        ensures { MatchOption result (PairCovered self.now left.now right.now)
            (λ found. IsFailing self.now found.fused found.state left.now right.now) }
    {
        if self.stands_for_all(left.cost + right.cost) {
            return None;
        }
        let joint = joint(left, right, self.tree.loops(self.number))?;
        let choice = self.first_uncovered_choice(&joint)?;
        let state = state_of(&joint, &choice);
        Some(Step {
            fused: choice.fused,
            state,
        })
    }

    // The first such step with one left row, by the right row.
    fn first_uncovered_with(&self, left: &Row, rights: &[Row]) -> Option<Step>
        requires ready { IsReady self.now }
        requires left { left.now.cost < cost_limit }
        requires rights { AreBelowLimit rights.now }
        ensures { MatchOption result (All (PairCovered self.now left.now) rights.now)
            (λ found. First (PairCovered self.now left.now) (IsFailing self.now found.fused
            found.state left.now) rights.now) }
    {
        for right in rights {
            if let Some(step) = self.first_uncovered_step(left, right) {
                return Some(step);
            }
        }
        None
    }

    // The first such step, by the left row and then by the right one.
    pub(crate) fn first_uncovered(
        &self,
        lefts: &[Row],
        rights: &[Row],
        hints: &mut [u32],
    ) -> Option<Step>
        requires ready { IsReady self.now }
        requires lefts { AreBelowLimit lefts.now }
        requires rights { AreBelowLimit rights.now }
        ensures { MatchOption result
            (All (λ left. All (PairCovered self.now left) rights.now) lefts.now)
            (λ found. FirstPair (PairCovered self.now) (IsFailing self.now found.fused found.state)
            lefts.now rights.now) }
    {
        if self.covers(lefts, rights, hints) {
            return None;
        }
        for left in lefts {
            if let Some(step) = self.first_uncovered_with(left, rights) {
                return Some(step);
            }
        }
        None
    }
}
