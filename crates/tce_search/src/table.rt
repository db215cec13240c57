// Tables of candidates of which none stands for another.
ghost use Rattle.std.specs.Prelude.{ℕ, ◌⊎◌, ◌<◌, ◌≤◌, IfOk, OnOk, IfSome, IsSome, All, AllPairs, Any, Contains};
ghost use Rattle.tce_space.specs.Limits.{cost_limit};
ghost use Rattle.tce_fusion.specs.Relation.{above, none};
ghost use Rattle.tce_space.specs.IndexSet.{IsWithin};
ghost use Rattle.tce_nesting.specs.Classes.{AllowsSet};
ghost use Rattle.tce_nesting.specs.Plan.{LiesWithin};
ghost use Rattle.tce_search.specs.Candidates.{Stands, AreApart, AreOperands, ChoiceCovered, PairCovered, IsReachedOrBound, IsSmall};
ghost use Rattle.tce_search.specs.Joins.{IsNewStep, IsSomeStepFrom, IsStepOrBound, StandsForStep, Grows, HasNext, KnowsStretches};

use crate::candidate::{Candidate, at_limit, with_set};
use crate::candidate_list::CandidateList;
use crate::joins::joins_of;
use crate::limits::{Limits, bound_of};
use crate::ordered::by_ends;
use crate::steps::step;
use crate::thinned::thinned;
use arrayvec::ArrayVec;
use std::alloc::{AllocError, Global};
use tce_nesting::{Choice, MAX_CHOICES, Nesting, Row, Stretch, allows_none, stretches_of};
use tce_space::IndexSet;

// The choices of a node, its loops, and from which cost on steps are of no use.
#[derive(Clone, Copy)]
pub(crate) struct Choosing<'a> {
    pub(crate) choices: &'a [Choice],
    pub(crate) loops: IndexSet,
    pub(crate) limit: u128,
    pub(crate) limits: Limits<'a>,
}

// The step of one choice, or where it is of no use what stands for all such steps; `None` where its set is not allowed.
fn useful_step(join: &Candidate, choice: &Choice, limits: &Limits) -> Option<Candidate>
    requires next { HasNext join.now }
    requires size { IsSmall choice.now }
    ensures some { AllowsSet (above join.now.row.classes) choice.now.fused → IsSome result }
    ensures stands { IfSome result (StandsForStep join.now choice.now) }
    ensures origin { IfSome result (IsStepOrBound limits.now.least join.now choice.now) }
{
    let row = step(&join.row, choice)?;
    match bound_of(&row, limits) {
        Some(bound) => Some(Candidate {
            row: bound,
            sets: ArrayVec::new(),
        }),
        None => {
            let sets = with_set(join.sets.as_slice(), choice.fused);
            Some(Candidate { row, sets })
        }
    }
}

// Appends the step of one choice, or what stands for it, where its set is allowed, it costs less than the limit, and no candidate stands for it.
fn add_step(
    list: &mut CandidateList,
    join: &Candidate,
    choice: &Choice,
    choosing: &Choosing,
) -> Result<(), AllocError>
    requires limit { Any (Stands list.old.outer none choosing.now.limit) list.old.candidates }
    requires next { HasNext join.now }
    requires size { IsSmall choice.now }
    ensures covered { OnOk result (ChoiceCovered list.old.outer join.now.row list.new.candidates choice.now) }
    ensures grows { OnOk result (Grows list.old list.new) }
    ensures origin { OnOk result (All (λ x. Contains list.old.candidates x ⊎ IsNewStep choosing.now join.now choice.now x) list.new.candidates) }
{
    if choosing.limit <= join.row.cost + choice.size {
        return Ok(());
    }
    let Some(candidate) = useful_step(join, choice, &choosing.limits) else {
        return Ok(());
    };
    if list.covers(&candidate.row) {
        return Ok(());
    }
    list.push(candidate)?;
    Ok(())
}

// The loops that a joined state puts above the others down to the first one that the set fuses and the node's parent sums, that one's class with them; all where there is none.
fn loops_of_use(classes: &Nesting, fused: IndexSet, summed: IndexSet) -> IndexSet {
    let sought = fused.meet(summed);
    let mut reached = IndexSet::empty();
    for class in classes.classes() {
        reached = reached.union(*class);
        if class.meet(sought).bits() != 0 {
            return reached;
        }
    }
    fused
}

// A row that stands for all steps which cost more than that of the choice and have the same classes of use; `None` where all are, or where it costs too little or too much.
//
// The parent fuses no loop that it sums, so where this step is fused on, only loops above these and in their class are. What the step puts below is of no use there.
fn row_of_use(join: &Candidate, choice: &Choice, choosing: &Choosing) -> Option<Row>
    requires next { HasNext join.now }
    requires size { IsSmall choice.now }
    ensures high { IfSome result (λ row. choosing.now.limits.least ≤ row.cost) }
    ensures cheap { IfSome result (λ row. row.cost < choosing.now.limit) }
    ensures within { IfSome result (λ row. (dims : ℕ) → IsWithin choice.now.fused dims → All (LiesWithin dims) row.classes) }
{
    let classes = &join.row.classes;
    let of_use = loops_of_use(classes, choice.fused, choosing.limits.ahead.summed());
    let cost = join.row.cost + choice.size + 1;
    if choosing.limit <= cost || cost < choosing.limits.least || choice.fused.within(of_use) {
        return None;
    }
    Some(Row {
        classes: classes.restrict(of_use.meet(choice.fused)),
        cost,
    })
}

// Appends that row, where there is one and no candidate stands for it.
fn add_bound(
    list: &mut CandidateList,
    join: &Candidate,
    choice: &Choice,
    choosing: &Choosing,
) -> Result<(), AllocError>
    requires next { HasNext join.now }
    requires size { IsSmall choice.now }
    ensures grows { OnOk result (Grows list.old list.new) }
    ensures origin { OnOk result (All (λ x. Contains list.old.candidates x ⊎ IsNewStep choosing.now join.now choice.now x) list.new.candidates) }
{
    let Some(row) = row_of_use(join, choice, choosing) else {
        return Ok(());
    };
    if list.covers(&row) {
        return Ok(());
    }
    let sets = ArrayVec::new();
    list.push(Candidate { row, sets })?;
    Ok(())
}

// Appends the step of one choice as `add_step` does, and where it is new a row that stands for steps like it.
fn add_choice(
    list: &mut CandidateList,
    join: &Candidate,
    choice: &Choice,
    choosing: &Choosing,
) -> Result<(), AllocError>
    requires limit { Any (Stands list.old.outer none choosing.now.limit) list.old.candidates }
    requires next { HasNext join.now }
    requires size { IsSmall choice.now }
    ensures covered { OnOk result (ChoiceCovered list.old.outer join.now.row list.new.candidates choice.now) }
    ensures grows { OnOk result (Grows list.old list.new) }
    ensures origin { OnOk result (All (λ x. Contains list.old.candidates x ⊎ IsNewStep choosing.now join.now choice.now x) list.new.candidates) }
{
    let count = list.count();
    add_step(list, join, choice, choosing)?;
    if list.count() == count {
        return Ok(());
    }
    add_bound(list, join, choice, choosing)?;
    Ok(())
}

// For each of the first choices a stretch from it on.
fn first_stretches(choices: &[Choice]) -> [Stretch; MAX_CHOICES]
    ensures { KnowsStretches choices.now result }
{
    stretches_of(&choices[..choices.len().min(MAX_CHOICES)])
}

// Appends the steps of all choices from what two operands' candidates are together, where they cost less than the limit and no candidate stands for them. Of most stretches of choices none is allowed.
fn add_steps(
    list: &mut CandidateList,
    join: &Candidate,
    choosing: &Choosing,
    stretches: &[Stretch; MAX_CHOICES],
) -> Result<(), AllocError>
    requires limit { Any (Stands list.old.outer none choosing.now.limit) list.old.candidates }
    requires next { HasNext join.now }
    requires small { All IsSmall choosing.now.choices.now }
    requires stretches { KnowsStretches choosing.now.choices.now stretches.now }
    ensures covered { OnOk result (All (ChoiceCovered list.old.outer join.now.row list.new.candidates) choosing.now.choices.now) }
    ensures grows { OnOk result (Grows list.old list.new) }
    ensures origin { OnOk result (All (λ x. Contains list.old.candidates x ⊎ IsSomeStepFrom choosing.now join.now x) list.new.candidates) }
{
    let choices = choosing.choices;
    let mut place = 0;
    while place < choices.len() {
        if place < MAX_CHOICES {
            let stretch = stretches[place];
            if allows_none(&join.row.classes, &stretch, choosing.loops) {
                place = stretch.until;
                continue;
            }
        }
        add_choice(list, join, &choices[place], choosing)?;
        place += 1;
    }
    Ok(())
}

// Appends the steps from each of these.
fn add_all_steps(
    list: &mut CandidateList,
    joins: &[Candidate],
    choosing: &Choosing,
    stretches: &[Stretch; MAX_CHOICES],
) -> Result<(), AllocError>
    requires limit { Any (Stands list.old.outer none choosing.now.limit) list.old.candidates }
    requires next { All HasNext joins.now }
    requires small { All IsSmall choosing.now.choices.now }
    requires stretches { KnowsStretches choosing.now.choices.now stretches.now }
    ensures covered { OnOk result (All (λ join. All (ChoiceCovered list.old.outer join.row list.new.candidates) choosing.now.choices.now) joins.now) }
    ensures grows { OnOk result (Grows list.old list.new) }
    ensures origin { OnOk result (All (λ x. Contains list.old.candidates x ⊎ Any (λ join. IsSomeStepFrom choosing.now join x) joins.now) list.new.candidates) }
{
    for join in joins {
        add_steps(list, join, choosing, stretches)?;
    }
    Ok(())
}

/// The loops of a node, and the outer ones, which are those of its parent.
#[derive(Clone, Copy)]
pub struct NodeLoops {
    pub own: IndexSet,
    pub outer: IndexSet,
}

/// The candidates of a node: of the steps from its operands' candidates with one of the choices so many that for each step one of them is coarser on the outer loops and costs no more. None of them is so for another.
///
/// Steps that are of no use by the limits are not among them. Candidates without sets stand for these, of which one has no classes either. What is stepped to from such a one has fewer sets than there are operations.
pub fn candidates_of(
    alloc: Global,
    lefts: &[Candidate],
    rights: &[Candidate],
    loops: NodeLoops,
    choices: &[Choice],
    limits: &Limits,
) -> Result<Vec<Candidate>, AllocError>
    requires known { AreOperands loops.own lefts.now rights.now }
    requires choices { All IsSmall choices.now }
    requires target { limits.now.target < cost_limit }
    requires least { limits.now.least < cost_limit }
    ensures covered { IfOk result (λ table. All (λ left. All (PairCovered loops.own loops.outer choices.now table.items left) rights.now) lefts.now) }
    ensures reached { IfOk result (λ table. All (IsReachedOrBound limits.now.least loops.own choices.now lefts.now rights.now) table.items) }
    ensures apart { IfOk result (λ table. AllPairs (AreApart loops.outer) table.items) }
{
    let _number = loops.own.bits();
    let limit = limits.of(IndexSet::empty());
    let joins = joins_of(alloc, lefts, rights, loops.own, limit)?;
    let mut list = CandidateList::new(alloc, loops.outer, joins.len())?;
    list.push(at_limit(limit))?;
    let choosing = Choosing {
        choices,
        loops: loops.own,
        limit,
        limits: *limits,
    };
    let stretches = first_stretches(choices);
    add_all_steps(&mut list, joins.as_slice(), &choosing, &stretches)?;
    let kept = thinned(alloc, list)?;
    let table = by_ends(kept, loops.outer)?;
    Ok(table)
}
