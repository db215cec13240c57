// What one round of the search may cost, and what earlier rounds showed subtrees to cost at least.
ghost use Rattle.std.specs.Prelude.{◌≡◌, ◌<◌, ◌≤◌, true, false, IfSome};
ghost use Rattle.tce_space.specs.Limits.{cost_limit};
ghost use Rattle.tce_tree.specs.ContractionTree.{operations};

use crate::candidate::Candidate;
use tce_space::MAX_NODES;
use tce_tree::{Operand, Tree};

// A round that keeps fewer candidates is so short that the next one may go twice as far.
const FEW: usize = 8192;

// After a round that keeps fewer candidates the next one does not look ahead.
const SOME: usize = 2000;

// After a round that keeps more candidates a pass tells how far the next one has to go.
const MANY: usize = 20_000;

// A pass goes so many times as far as the round before it.
const FARTHER: u128 = 4;

/// A round that is over: its ceiling, and how many candidates it kept.
#[derive(Clone, Copy)]
struct Round {
    ceiling: u128,
    kept: usize,
}

/// The ceiling of a round, below which a plan is sought, and for each node by its number the most that all its candidates were seen to cost at least.
///
/// These costs only choose how far each subtree is searched: what is found is shown to be least without them.
#[derive(Clone, Copy)]
pub(crate) struct Bounds {
    pub(crate) ceiling: u128,
    // Whether they are used; else each subtree is searched up to the ceiling.
    pub(crate) learns: bool,
    // What the least memory is guessed or known to be below: one round ends here, where it would go past.
    near: u128,
    // Whether it is known: then the next round ends here, however far that is.
    known: bool,
    least: [u128; MAX_NODES],
    kept: usize,
    earlier: Round,
}

impl Bounds {
    /// Before the first round the ceiling is 0, and nothing is known of subtrees. No round goes past `near` at once.
    pub(crate) fn new(near: u128) -> Bounds
        ensures ceiling { result.ceiling ≡ 0 }
        ensures learns { result.learns ≡ true }
    {
        Bounds {
            ceiling: 0,
            learns: true,
            near,
            known: false,
            least: [0; MAX_NODES],
            kept: 0,
            earlier: Round {
                ceiling: 0,
                kept: 0,
            },
        }
    }

    /// How far the subtree of a node is searched: the ceiling less what is known of the operands beside the way to the root.
    pub(crate) fn target(&self, tree: &Tree, v: u8) -> u128
        requires { v < operations tree.now }
        ensures { result ≤ self.now.ceiling }
    {
        let mut target = self.ceiling;
        let mut below = v;
        for p in v..tree.count() {
            if tree.parent(below) == Some(p) {
                target = target.saturating_sub(self.beside(tree, p, below));
                below = p;
            }
        }
        target
    }

    /// Whether the round before kept so many candidates that it is worth its time to tell by what is ahead which states are of use. Else the tables stay shorter without the rows that stand for the others.
    pub(crate) fn looks_ahead(&self) -> bool {
        SOME <= self.earlier.kept
    }

    /// What each candidate costs at least that is no state: the ceiling where nothing that is known is used.
    pub(crate) fn least(&self) -> u128
        ensures small { result ≤ self.now.ceiling }
        ensures plain { self.now.learns ≡ false → result ≡ self.now.ceiling }
    {
        if self.learns { 0 } else { self.ceiling }
    }

    // What is known of the other operand of a node.
    fn beside(&self, tree: &Tree, p: u8, below: u8) -> u128
        requires { p < operations tree.now }
    {
        let left = self.of_operand(tree.left(p), below);
        match tree.right(p) {
            Some(right) => left.max(self.of_operand(right, below)),
            None => left,
        }
    }

    // What is known of an operand, where it is not the node `below`.
    fn of_operand(&self, operand: &Operand, below: u8) -> u128 {
        match operand {
            Operand::Node(u) if *u != below => self.of_node(*u),
            _ => 0,
        }
    }

    fn of_node(&self, u: u8) -> u128 {
        if !self.learns {
            return 0;
        }
        match self.least.get(u as usize) {
            Some(least) => *least,
            None => 0,
        }
    }

    /// Takes note of the candidates that a node has in this round.
    pub(crate) fn learn(&mut self, v: u8, candidates: &[Candidate])
        ensures ceiling { self.new.ceiling ≡ self.old.ceiling }
        ensures learns { self.new.learns ≡ self.old.learns }
    {
        self.kept = self.kept.saturating_add(candidates.len());
        let place = v as usize;
        if place < 32 {
            self.least[place] = self.least[place].max(least_cost(candidates));
        }
    }

    /// The bounds of a pass after this round, where one is worth its time: the round kept many candidates, and no fusion is known that takes less than the end. The ceiling is a few times as high, at most the end.
    pub(crate) fn ahead(&self, end: u128) -> Option<Bounds>
        requires small { end < cost_limit }
        requires some { 0 < self.now.ceiling }
        ensures some { IfSome result (λ ahead. 0 < ahead.ceiling) }
        ensures small { IfSome result (λ ahead. ahead.ceiling < cost_limit) }
    {
        if self.kept < MANY || end <= self.ceiling || (self.known && self.ceiling < self.near) {
            return None;
        }
        let mut ahead = *self;
        ahead.ceiling = end.min(self.ceiling * FARTHER);
        Some(ahead)
    }

    /// The bounds of one more round after one that found a fusion with this memory: it ends right above, where the one before went farther and kept few candidates.
    pub(crate) fn right_above(&self, memory: u128) -> Option<Bounds>
        ensures { IfSome result (λ closer. closer.ceiling < self.now.ceiling) }
    {
        let ceiling = memory.saturating_add(1);
        if FEW <= self.kept || self.ceiling <= ceiling {
            return None;
        }
        let mut closer = *self;
        closer.ceiling = ceiling;
        Some(closer)
    }

    /// Takes note of a fusion that takes this much memory: the next round ends where that is below its ceiling.
    pub(crate) fn expect(&mut self, memory: u128)
        ensures ceiling { self.new.ceiling ≡ self.old.ceiling }
        ensures learns { self.new.learns ≡ self.old.learns }
    {
        self.near = memory.saturating_add(1);
        self.known = true;
    }

    // Whether the candidates grew little against the ceiling since the round before: by at most three to two.
    fn grew_slowly(&self) -> bool {
        let more = self.kept.saturating_sub(self.earlier.kept) as u128;
        let raised = self.ceiling.saturating_sub(self.earlier.ceiling);
        more.saturating_mul(self.earlier.ceiling).saturating_mul(2)
            <= raised
                .saturating_mul(self.earlier.kept as u128)
                .saturating_mul(3)
    }

    // How much the ceiling rises: to twice as much after a short round, by half where the candidates grow slowly, else by a sixth.
    fn step(&self) -> u128
        ensures { result ≤ self.now.ceiling }
    {
        if self.kept < FEW {
            self.ceiling
        } else if self.grew_slowly() {
            self.ceiling / 2
        } else {
            self.ceiling / 6
        }
    }

    // The next ceiling, but for the end.
    fn next(&self) -> u128
        requires { self.now.ceiling < cost_limit }
        ensures { self.now.ceiling < result }
    {
        if self.ceiling == 0 {
            return self.near / 2 + 1;
        }
        let next = self.ceiling + self.step() + 1;
        if self.ceiling < self.near && (self.known || self.near < next) {
            self.near
        } else {
            next
        }
    }

    /// Raises the ceiling for the next round, at most to the end. Behind a round at the end comes one that uses nothing of what is known.
    pub(crate) fn raise(&mut self, end: u128)
        requires small { end < cost_limit }
        requires below { self.old.ceiling ≤ end }
        ensures most { self.new.ceiling ≤ end }
        ensures more { self.new.learns ≡ true → self.old.ceiling < self.new.ceiling }
        ensures last { self.new.learns ≡ false → self.new.ceiling ≡ end }
    {
        self.learns = self.ceiling < end;
        if !self.learns {
            return;
        }
        let next = self.next();
        self.earlier = Round {
            ceiling: self.ceiling,
            kept: self.kept,
        };
        self.ceiling = end.min(next);
        self.kept = 0;
    }
}

/// The least cost of some candidates, and 0 of none.
pub(crate) fn least_cost(candidates: &[Candidate]) -> u128 {
    let Some(first) = candidates.first() else {
        return 0;
    };
    let mut least = first.row.cost;
    for candidate in candidates {
        least = least.min(candidate.row.cost);
    }
    least
}
