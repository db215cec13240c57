// Lists of candidates in which those that stand for a state are found quickly.
ghost use Rattle.std.specs.Prelude.{◌≡◌, ◌↔◌, ◌-◌, ◌<◌, ◌≤◌, [], ◌∷◌, ◌++◌, length, IsTrue, IfOk, OnOk, Any, Contains};
ghost use Rattle.tce_space.specs.IndexSet.{empty};
ghost use Rattle.tce_fusion.specs.Relation.{above};
ghost use Rattle.tce_search.specs.Candidates.{Stands};
ghost use Rattle.tce_search.specs.Groups.{group_of, AreByCost, StandsAt, TripleStands, PairStands, PartStands};

use crate::candidate::Candidate;
use crate::groups::{Entry, Groups, key_of};
use crate::steps::stands_for;
use crate::upper::{marks_of, upper_parts};
use std::alloc::{AllocError, Global};
use std::marker::Model;
use tce_nesting::Row;
use tce_space::IndexSet;

// A list has no fewer groups.
const LEAST_GROUPS: usize = 61;

// It has so many for each candidate that is expected, since a group that has none is passed over at once.
const GROUPS_EACH: usize = 4;

/// Candidates of a node in the order in which they came, to be compared on outer loops.
///
/// Each has an entry in the group of its three largest upper parts. The upper parts of what stands for a state are upper parts of the state too, so a candidate that does is in the group of three of these.
#[derive(Drop)]
pub(crate) struct CandidateList {
    outer: IndexSet,
    candidates: Vec<Candidate>,
    groups: Groups,
}

impl Model for CandidateList {
    ghost use Rattle.tce_search.specs.Groups.{Listed, AreEntered};

    ghost Value = { Listed };

    ghost view = { λ l. record { outer = l.outer; candidates = l.candidates.items } };

    ghost invariant = { λ l. AreEntered l.outer l.groups l.candidates.items };
}

impl CandidateList {
    /// No candidates, where about so many are expected.
    pub(crate) fn new(
        alloc: Global,
        outer: IndexSet,
        expected: usize,
    ) -> Result<CandidateList, AllocError>
        ensures { IfOk result (λ list. list ≡ record { outer = outer; candidates = [] }) }
    {
        Ok(CandidateList {
            outer,
            candidates: Vec::new(alloc),
            groups: Groups::new(
                alloc,
                expected.saturating_mul(GROUPS_EACH).max(LEAST_GROUPS),
            )?,
        })
    }

    /// The loops on which states are compared.
    pub(crate) fn outer(&self) -> IndexSet
        ensures { result ≡ self.now.outer }
    {
        self.outer
    }

    /// Whether some candidate stands for the state.
    pub(crate) fn covers(&self, state: &Row) -> bool
        ensures { IsTrue result ↔ Any (Stands self.now.outer (above state.now.classes)
            state.now.cost) self.now.candidates }
    {
        let parts = upper_parts(&state.classes, self.outer);
        let sought = Sought {
            state,
            outer: self.outer,
            parts: parts.as_slice(),
            marks: marks_of(parts.as_slice()),
        };
        some_group_covers(self.candidates.as_slice(), &self.groups, &sought)
    }

    /// Appends a candidate.
    pub(crate) fn push(&mut self, candidate: Candidate) -> Result<(), AllocError>
        ensures outer { self.new.outer ≡ self.old.outer }
        ensures candidates { OnOk result (self.new.candidates ≡ self.old.candidates ++ candidate ∷
            []) }
    {
        let parts = upper_parts(&candidate.row.classes, self.outer);
        let part = last_of(parts.as_slice());
        let under = next_below(parts.as_slice(), part);
        let third = next_below(parts.as_slice(), under);
        let entry = Entry {
            cost: candidate.row.cost,
            place: self.count(),
            marks: marks_of(parts.as_slice()),
        };
        self.groups.push(key_of(part, under, third), entry)?;
        self.candidates.push(candidate)?;
        Ok(())
    }

    /// How many candidates there are.
    pub(crate) fn count(&self) -> usize
        ensures { result ≡ length self.now.candidates }
    {
        self.candidates.len()
    }

    /// The candidates, in their order.
    pub(crate) fn into_candidates(self) -> Vec<Candidate>
        ensures { result.items ≡ self.candidates }
    {
        self.candidates
    }
}

// The last of the parts.
#[tactic(auto, using(crate::proofs::Covers::read_contains))]
fn last_of(parts: &[IndexSet]) -> IndexSet
    requires { 0 < length parts.now }
    ensures { Contains parts.now result }
{
    parts[parts.len() - 1]
}

// The last of the parts that are less than one of them as numbers. Below the empty part stands the empty one again.
fn next_below(parts: &[IndexSet], part: IndexSet) -> IndexSet
    requires { Contains parts.now empty }
    ensures among { Contains parts.now result }
    ensures order { result ≤ part - 1 }
{
    let most = part.bits().saturating_sub(1);
    match parts.iter().rev().find(|below| below.bits() <= most) {
        Some(below) => *below,
        None => IndexSet::empty(),
    }
}

// A state, the outer loops on which it is compared, its upper parts, and their marks.
#[derive(Clone, Copy)]
struct Sought<'a> {
    state: &'a Row,
    outer: IndexSet,
    parts: &'a [IndexSet],
    marks: IndexSet,
}

// Whether some candidate of the groups of the parts stands for the state.
fn some_group_covers(candidates: &[Candidate], groups: &Groups, sought: &Sought) -> bool
    ensures { IsTrue result ↔ Any (PartStands sought.now.outer (above sought.now.state.now.classes)
        sought.now.state.now.cost sought.now.marks groups.now candidates.now sought.now.parts.now)
        sought.now.parts.now }
{
    let parts = sought.parts;
    for part in parts {
        if part_covers(candidates, groups, sought, *part) {
            return true;
        }
    }
    false
}

// The same of one part.
fn part_covers(candidates: &[Candidate], groups: &Groups, sought: &Sought, part: IndexSet) -> bool
    ensures { IsTrue result ↔ PartStands sought.now.outer (above sought.now.state.now.classes)
        sought.now.state.now.cost sought.now.marks groups.now candidates.now sought.now.parts.now
        part }
{
    some_pair_covers(candidates, groups, sought, part)
}

// Whether some candidate of the groups of a part and each other one stands for the state.
fn some_pair_covers(
    candidates: &[Candidate],
    groups: &Groups,
    sought: &Sought,
    part: IndexSet,
) -> bool
    ensures { IsTrue result ↔ Any (PairStands sought.now.outer (above sought.now.state.now.classes)
        sought.now.state.now.cost sought.now.marks groups.now candidates.now sought.now.parts.now
        part) sought.now.parts.now }
{
    let parts = sought.parts;
    for under in parts {
        if pair_covers(candidates, groups, sought, part, *under) {
            return true;
        }
    }
    false
}

// Whether the second of two parts is less as a number, or both are empty, and some candidate of the groups of both and each other part stands for the state.
fn pair_covers(
    candidates: &[Candidate],
    groups: &Groups,
    sought: &Sought,
    part: IndexSet,
    under: IndexSet,
) -> bool
    ensures { IsTrue result ↔ PairStands sought.now.outer (above sought.now.state.now.classes)
        sought.now.state.now.cost sought.now.marks groups.now candidates.now sought.now.parts.now
        part under }
{
    under.bits() <= part.bits().saturating_sub(1)
        && some_triple_covers(candidates, groups, sought, part, under)
}

// Whether some candidate of the groups of two parts and each other one stands for the state.
fn some_triple_covers(
    candidates: &[Candidate],
    groups: &Groups,
    sought: &Sought,
    part: IndexSet,
    under: IndexSet,
) -> bool
    ensures { IsTrue result ↔ Any (TripleStands sought.now.outer
        (above sought.now.state.now.classes) sought.now.state.now.cost sought.now.marks groups.now
        candidates.now part under) sought.now.parts.now }
{
    sought.parts.iter().any(|third| triple_covers(candidates, groups, sought, part, under, *third))
}

// Whether the third of three parts is less than the second as a number, or both are empty, and some candidate of their group stands for the state.
fn triple_covers(
    candidates: &[Candidate],
    groups: &Groups,
    sought: &Sought,
    part: IndexSet,
    under: IndexSet,
    third: IndexSet,
) -> bool
    ensures { IsTrue result ↔ TripleStands sought.now.outer (above sought.now.state.now.classes)
        sought.now.state.now.cost sought.now.marks groups.now candidates.now part under third }
{
    third.bits() <= under.bits().saturating_sub(1)
        && key_covers(candidates, groups, sought, key_of(part, under, third))
}

// Whether some candidate of the group of a key stands for the state. None does where the least cost there is more.
fn key_covers(candidates: &[Candidate], groups: &Groups, sought: &Sought, key: usize) -> bool
    ensures { IsTrue result ↔ Any (StandsAt sought.now.outer (above sought.now.state.now.classes)
        sought.now.state.now.cost sought.now.marks candidates.now) (group_of groups.now key) }
{
    let state = sought.state;
    let least = groups.least_of(key);
    if state.cost < least {
        return false;
    }
    group_covers(candidates, groups.of(key), sought)
}

// Whether some candidate of a group stands for the state. They go by cost, so none behind one that costs more is asked.
fn group_covers(candidates: &[Candidate], group: &[Entry], sought: &Sought) -> bool
    requires { AreByCost group.now }
    ensures { IsTrue result ↔ Any (StandsAt sought.now.outer (above sought.now.state.now.classes)
        sought.now.state.now.cost sought.now.marks candidates.now) group.now }
{
    let state = sought.state;
    for entry in group {
        if state.cost < entry.cost {
            return false;
        }
        if stands_at(candidates, entry, sought) {
            return true;
        }
    }
    false
}

// Whether there is a candidate at the entry's place that stands for the state, the entry's cost is no more, and its marks are among those of the state.
fn stands_at(candidates: &[Candidate], entry: &Entry, sought: &Sought) -> bool
    ensures { IsTrue result ↔ StandsAt sought.now.outer (above sought.now.state.now.classes)
        sought.now.state.now.cost sought.now.marks candidates.now entry.now }
{
    let state = sought.state;
    if state.cost < entry.cost || !entry.marks.within(sought.marks) {
        return false;
    }
    match candidates.get(entry.place) {
        Some(candidate) => stands_for(&candidate.row, state, sought.outer),
        None => false,
    }
}
