// The candidates of the nodes that the search has gone through.
ghost use Rattle.std.specs.Prelude.{◌≡◌, ◌<◌, ◌≤◌, [], ◌∷◌, ◌++◌, length, OnOk};
ghost use Rattle.tce_tree.specs.ContractionTree.{operations};
ghost use Rattle.tce_tree.specs.FlatTree.{IsBefore};
ghost use Rattle.tce_search.specs.CandidateLists as list;

use crate::candidate::Candidate;
use std::alloc::{AllocError, Global};
use std::marker::Model;
use tce_tree::{Operand, Tree};

/// The candidates of the first nodes of a tree, by the node's number: states, and what stands for others, which costs at least so much.
#[derive(Drop)]
pub(crate) struct Found {
    least: u128,
    lists: Vec<Vec<Candidate>>,
}

impl Model for Found {
    ghost use Rattle.std.specs.Prelude.{map};
    ghost use Rattle.tce_search.specs.CandidateLists.{Searched};

    ghost Value = { Searched };

    ghost view = { λ f. record { least = f.least; lists = map (λ candidates. candidates.items) f.lists.items } };
}

impl Found {
    /// No candidates.
    pub(crate) fn new(alloc: Global, least: u128) -> Found
        ensures { result ≡ record { least = least; lists = [] } }
    {
        Found {
            least,
            lists: Vec::new(alloc),
        }
    }

    /// Appends the candidates of the next node.
    pub(crate) fn push(&mut self, candidates: Vec<Candidate>) -> Result<(), AllocError>
        ensures { OnOk result (self.new ≡ list.with_next self.old candidates.items) }
    {
        self.lists.push(candidates)?;
        Ok(())
    }

    /// What each candidate costs at least that is no state.
    pub(crate) fn least(&self) -> u128
        ensures { result ≡ self.now.least }
    {
        self.least
    }

    /// The candidates of node `v`.
    pub(crate) fn candidates(&self, v: u8) -> &[Candidate]
        requires { v < length self.now.lists }
        ensures { result.now ≡ list.candidates_at self.now.lists v }
    {
        self.lists[v as usize].as_slice()
    }

    /// The candidates of the left or only operand of a node.
    pub(crate) fn of_left<'a>(
        &'a self,
        tree: &Tree,
        v: u8,
        leaf: &'a [Candidate],
    ) -> &'a [Candidate]
        requires node { v < operations tree.now }
        requires earlier { v ≤ length self.now.lists }
        requires leaf { leaf.now ≡ list.leaf_candidate ∷ [] }
        ensures { result.now ≡ list.left_candidates tree.now self.now.lists v }
    {
        self.of_operand(tree.left(v), leaf)
    }

    /// The candidates of the right operand of a node, and that of a leaf where it is a sum.
    pub(crate) fn of_right<'a>(
        &'a self,
        tree: &Tree,
        v: u8,
        leaf: &'a [Candidate],
    ) -> &'a [Candidate]
        requires node { v < operations tree.now }
        requires earlier { v ≤ length self.now.lists }
        requires leaf { leaf.now ≡ list.leaf_candidate ∷ [] }
        ensures { result.now ≡ list.right_candidates tree.now self.now.lists v }
    {
        match tree.right(v) {
            Some(operand) => self.of_operand(operand, leaf),
            None => leaf,
        }
    }

    fn of_operand<'a>(&'a self, operand: &Operand, leaf: &'a [Candidate]) -> &'a [Candidate]
        requires inside { IsBefore (length self.now.lists) operand.now }
        requires leaf { leaf.now ≡ list.leaf_candidate ∷ [] }
        ensures { result.now ≡ list.operand_candidates self.now.lists operand.now }
    {
        match operand {
            Operand::Node(u) => self.candidates(*u),
            Operand::Leaf(_) => leaf,
            Operand::Constant(_) => leaf,
        }
    }
}
