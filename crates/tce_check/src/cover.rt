// Whether rows of a node stand for all steps from rows of its operands, told without the order in which steps are looked for.
ghost use Rattle.std.specs.Prelude.{◌≡◌, ◌<◌, ◌≤◌, ◌^◌, length, IsTrue, All};
ghost use Rattle.tce_space.specs.Limits.{cost_limit, max_volume};
ghost use Rattle.tce_tree.specs.ContractionTree.{node_loops};
ghost use Rattle.tce_nesting.specs.Ends.{AreRuns};
ghost use Rattle.tce_check.specs.Joint.{ChoiceCovered};
ghost use Rattle.tce_check.specs.Node.{IsReady, PairCovered, JointCovered, AreBelowLimit};
ghost use Rattle.tce_check.specs.Tops.{AreTops};

use crate::joint::joint;
use crate::runs::{BLOCK, runs_of};
use crate::steps::{Node, state_of};
use crate::tops::{are_crossed, tops_of};
use tce_nesting::{Choice, Row, Run, allows_none, ends_of, have_conflict};
use tce_space::IndexSet;

impl<'a> Node<'a> {
    // Whether the choice's set may not be fused, or some row is seen to stand for its step.
    fn covers_choice(&self, joint: &Row, choice: &Choice, hints: &mut [u32]) -> bool
        requires ready { IsReady self.now }
        requires small { joint.now.cost < 2 ^ 97 }
        requires size { choice.now.size ≤ max_volume }
        ensures { IsTrue result → ChoiceCovered self.now.outer self.now.rows.now joint.now
            choice.now }
    {
        if self.stands_for_all(joint.cost + choice.size) {
            return true;
        }
        if !joint.classes.allowed(choice.fused) {
            return true;
        }
        self.kept
            .groups
            .is_soon_stood_for(hints, self.rows, &state_of(joint, choice), self.outer)
    }

    // The same of each choice. Of most stretches none is allowed.
    fn covers_choices(&self, joint: &Row, hints: &mut [u32]) -> bool
        requires ready { IsReady self.now }
        requires small { joint.now.cost < 2 ^ 97 }
        ensures { IsTrue result → All (ChoiceCovered self.now.outer self.now.rows.now joint.now)
            self.now.choices.now }
    {
        let loops = self.tree.loops(self.number);
        let mut place = 0;
        while place < self.choices.len() {
            let stretch = self.stretches[place];
            if allows_none(&joint.classes, &stretch, loops) {
                place = stretch.until;
                continue;
            }
            if !self.covers_choice(joint, &self.choices[place], hints) {
                return false;
            }
            place += 1;
        }
        true
    }

    // Whether some row stands for each step from rows with this join. Rows with one class may stand for all, by what the join puts above all else.
    fn covers_joint(&self, joint: &Row, hints: &mut [u32]) -> bool
        requires ready { IsReady self.now }
        requires small { joint.now.cost < 2 ^ 97 }
        ensures { IsTrue result → JointCovered self.now joint.now }
    {
        let tops = tops_of(joint, self.tree.loops(self.number));
        if self.reach_with(tops.as_slice()) <= joint.cost {
            return true;
        }
        self.covers_choices(joint, hints)
    }

    // Whether some row stands for each step from two rows.
    fn covers_pair(&self, left: &Row, right: &Row, hints: &mut [u32]) -> bool
        requires ready { IsReady self.now }
        requires left { left.now.cost < cost_limit }
        requires right { right.now.cost < cost_limit }
        ensures { IsTrue result → PairCovered self.now left.now right.now }
    {
        if self.stands_for_all(left.cost + right.cost) {
            return true;
        }
        match joint(left, right, self.tree.loops(self.number)) {
            Some(joint) => self.covers_joint(&joint, hints),
            None => true,
        }
    }

    // The same, where the tops of the left row may show that there is no step.
    fn covers_next(&self, left: &Row, tops: &[IndexSet], right: &Row, hints: &mut [u32]) -> bool
        requires ready { IsReady self.now }
        requires left { left.now.cost < cost_limit }
        requires right { right.now.cost < cost_limit }
        requires tops { AreTops (node_loops self.now.tree.now self.now.number) left.now tops.now }
        ensures { IsTrue result → PairCovered self.now left.now right.now }
    {
        if are_crossed(tops, right, self.tree.loops(self.number)) {
            return true;
        }
        self.covers_pair(left, right, hints)
    }

    // The same of one left row and each of the right ones. Runs that have a conflict with it, or cost so much with it that rows stand for all steps, are passed over.
    fn covers_with(&self, left: &Row, rights: &[Row], runs: &[Run], hints: &mut [u32]) -> bool
        requires ready { IsReady self.now }
        requires left { left.now.cost < cost_limit }
        requires rights { AreBelowLimit rights.now }
        requires runs { AreRuns (node_loops self.now.tree.now self.now.number) rights.now runs.now }
        ensures { IsTrue result → All (PairCovered self.now left.now) rights.now }
    {
        let loops = self.tree.loops(self.number);
        let own = ends_of(left, loops);
        let tops = tops_of(left, loops);
        let reach = self.reach_with(tops.as_slice());
        let mut place = 0;
        while place < rights.len() {
            let run = runs[place];
            if have_conflict(&own, &run.ends) {
                place = run.until;
                continue;
            }
            if self.is_dear(left, reach, &run) {
                place = run.until;
                continue;
            }
            if !self.covers_next(left, tops.as_slice(), &rights[place], hints) {
                return false;
            }
            place += 1;
        }
        true
    }

    // The same of each left row and each of a few right ones.
    fn covers_few(&self, lefts: &[Row], rights: &[Row], hints: &mut [u32]) -> bool
        requires few { length rights.now ≤ 1024 }
        requires ready { IsReady self.now }
        requires lefts { AreBelowLimit lefts.now }
        requires rights { AreBelowLimit rights.now }
        ensures { IsTrue result → All (λ left. All (PairCovered self.now left) rights.now)
            lefts.now }
    {
        let runs = runs_of(rights, self.tree.loops(self.number));
        for left in lefts {
            if !self.covers_with(left, rights, &runs, hints) {
                return false;
            }
        }
        true
    }

    // The same of each left row and each right one.
    pub(crate) fn covers(&self, lefts: &[Row], rights: &[Row], hints: &mut [u32]) -> bool
        requires ready { IsReady self.now }
        requires lefts { AreBelowLimit lefts.now }
        requires rights { AreBelowLimit rights.now }
        ensures { IsTrue result → All (λ left. All (PairCovered self.now left) rights.now)
            lefts.now }
    {
        let mut rest = rights;
        while !rest.is_empty() {
            let (few, later) = rest.split_at(rest.len().min(BLOCK));
            if !self.covers_few(lefts, few, hints) {
                return false;
            }
            rest = later;
        }
        true
    }
}
