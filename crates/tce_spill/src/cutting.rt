// The cuts of a tree for a limit of memory.
ghost use Rattle.std.specs.Prelude.{◌≡◌, ℕ, ◌+◌, ◌-◌, ◌<◌, ◌≤◌, false, IfOk, IfErr, IfSome, IfNone, OnOk, length};
ghost use Rattle.tce_space.specs.Limits.{max_tensors};
ghost use Rattle.tce_space.specs.IndexSet.{has};
ghost use Rattle.tce_tree.specs.ContractionTree.{operations};
ghost use Rattle.tce_tree.specs.Measure.{IsMeasured};
ghost use Rattle.tce_spec.specs.Declarations.{HaveNames};
ghost use Rattle.tce_spec.specs.Pieces.{is_root as is_root_of, IsRootOver};
ghost use Rattle.tce_spec.specs.PieceSpecification.{CanCut};
ghost use Rattle.tce_spill.specs.CutsFor.{AreCutsFor, MeetLimit};
ghost use Rattle.tce_spill.specs.InTurn.{AllAreCut, FitBefore};
ghost use Rattle.tce_spill.specs.Planned.{ArePlanned, HavePlans, IsPlanned, IsPlanOfPiece, IsAbove};
ghost use Rattle.tce_spill.specs.CutRefusals.{IsCutFault, IsFree, IsRefusedAs};
ghost use Rattle.tce_spill.specs.declared.fault.SpillFault.{SpillFault as Fault};

use crate::fault::SpillFault;
use crate::node_set::{has_node, with_node, without_node};
use crate::planned::{PlannedCuts, joined_guess, least_plan, least_plan_within, put_joined};
use crate::storage::storable;
use std::alloc::{AllocError, Global};
use tce_nesting::Plan;
use tce_space::{MAX_TENSORS, Space};
use tce_spec::{Spec, piece};
use tce_tree::Tree;

// A piece may need one tensor more than the whole declares.
const MOST_TENSORS: u8 = MAX_TENSORS as u8 - 1;

/// The nodes that are cut so that each piece has a fusion within the limit, in elements: bit `v` stands for node `v`.
///
/// They are those of [`planned_cuts`], and there are none for the same causes.
pub fn cuts(alloc: Global, spec: &Spec, limit: u64) -> Result<u32, SpillFault>
    requires { HaveNames spec.now.declarations.tensors }
    ensures cuts { IfOk result (λ kept. AreCutsFor spec.now.declarations.space spec.now.tree limit (has kept)) }
    ensures meet { IfOk result (λ kept. MeetLimit spec.now.declarations.space spec.now.tree (has kept) limit) }
    ensures nodes { IfOk result (λ kept. (v : ℕ) → operations spec.now.tree ≤ v → has kept v ≡ false) }
    ensures refused { IfErr result (IsCutFault spec.now limit) }
    ensures exactly { (due : Fault) → (IsFree due → ⊥) → IsCutFault spec.now limit due → IsRefusedAs due result }
{
    match planned_cuts(alloc, spec, limit) {
        Ok(planned) => Ok(planned.nodes),
        Err(fault) => Err(fault),
    }
}

/// The nodes that are cut so that each piece has a fusion within the limit, in elements, with a plan of each piece.
///
/// At first all nodes are cut that may be. Then, in order, the cut of a node is taken back where the piece that joins
/// both sides has a fusion within the limit. So for each node at most two pieces are searched, and no piece twice: a
/// joined piece that stays keeps the plan that was found of it. It is refused with `TooManyTensors`, with `LimitTooSmall`
/// for the first piece that is above the limit where all nodes are cut that may be, with its least memory, or with
/// `Memory`.
pub fn planned_cuts(alloc: Global, spec: &Spec, limit: u64) -> Result<PlannedCuts, SpillFault>
    requires { HaveNames spec.now.declarations.tensors }
    ensures cuts { IfOk result (λ planned. AreCutsFor spec.now.declarations.space spec.now.tree limit (has planned.nodes)) }
    ensures meet { IfOk result (λ planned. MeetLimit spec.now.declarations.space spec.now.tree (has planned.nodes) limit) }
    ensures nodes { IfOk result (λ planned. (v : ℕ) → operations spec.now.tree ≤ v → has planned.nodes v ≡ false) }
    ensures plans { IfOk result (λ planned. HavePlans spec.now (has planned.nodes) planned.plans.items) }
    ensures refused { IfErr result (IsCutFault spec.now limit) }
    ensures exactly { (due : Fault) → (IsFree due → ⊥) → IsCutFault spec.now limit due → IsRefusedAs due result }
{
    if spec.tensor_count() > MOST_TENSORS {
        return Err(SpillFault::TooManyTensors);
    }
    let nodes = storable_nodes(spec.space(), spec.tree());
    let plans = plan_pieces(alloc, spec, nodes, limit)?;
    let mut planned = PlannedCuts { nodes, plans };
    match take_back(alloc, spec, &mut planned, limit) {
        Ok(()) => Ok(planned),
        Err(_) => Err(SpillFault::Memory),
    }
}

// All nodes that may be cut.
fn storable_nodes(space: &Space, tree: &Tree) -> u32
    requires { IsMeasured space.now tree.now }
    ensures { AllAreCut space.now tree.now (has result) }
{
    let mut nodes = 0;
    for v in 0..tree.count() {
        if storable(space, tree, v) {
            nodes = with_node(nodes, v);
        }
    }
    nodes
}

// The plans of the pieces, each of which has to be within the limit.
fn plan_pieces(
    alloc: Global,
    spec: &Spec,
    cuts: u32,
    limit: u64,
) -> Result<Vec<Option<Plan>>, SpillFault>
    requires names { HaveNames spec.now.declarations.tensors }
    requires few { length spec.now.declarations.tensors ≤ max_tensors - 1 }
    requires all { AllAreCut spec.now.declarations.space spec.now.tree (has cuts) }
    ensures meet { OnOk result (MeetLimit spec.now.declarations.space spec.now.tree (has cuts) limit) }
    ensures count { IfOk result (λ plans. length plans.items ≡ operations spec.now.tree) }
    ensures plans { IfOk result (λ plans. HavePlans spec.now (has cuts) plans.items) }
    ensures refused { IfErr result (IsCutFault spec.now limit) }
{
    let mut plans = Vec::new(alloc);
    for root in 0..spec.tree().count() {
        let plan = test_piece(alloc, spec, cuts, root, limit)?;
        let Ok(()) = plans.push(plan) else {
            return Err(SpillFault::Memory);
        };
    }
    Ok(plans)
}

// The plan of the piece of a node, if it is the root of one.
fn test_piece(
    alloc: Global,
    spec: &Spec,
    cuts: u32,
    root: u8,
    limit: u64,
) -> Result<Option<Plan>, SpillFault>
    requires names { HaveNames spec.now.declarations.tensors }
    requires few { length spec.now.declarations.tensors ≤ max_tensors - 1 }
    requires all { AllAreCut spec.now.declarations.space spec.now.tree (has cuts) }
    requires inside { root < operations spec.now.tree }
    requires earlier { FitBefore spec.now.declarations.space spec.now.tree (has cuts) limit root }
    ensures fit { OnOk result (FitBefore spec.now.declarations.space spec.now.tree (has cuts) limit (root + 1)) }
    ensures plan { IfOk result (IsPlanned spec.now (has cuts) root) }
    ensures refused { IfErr result (IsCutFault spec.now limit) }
{
    if !is_root(spec, cuts, root) {
        return Ok(None);
    }
    let Ok(plan) = plan_of_piece(alloc, spec, root, cuts) else {
        return Err(SpillFault::Memory);
    };
    if plan.memory > limit as u128 {
        return Err(SpillFault::LimitTooSmall(root, plan.memory));
    }
    Ok(Some(plan))
}

// Takes cuts back in order, as far as the limit allows.
fn take_back(
    alloc: Global,
    spec: &Spec,
    planned: &mut PlannedCuts,
    limit: u64,
) -> Result<(), AllocError>
    requires names { HaveNames spec.now.declarations.tensors }
    requires few { length spec.now.declarations.tensors ≤ max_tensors - 1 }
    requires planned { ArePlanned spec.now limit planned.old 0 }
    ensures { OnOk result (ArePlanned spec.now limit planned.new (operations spec.now.tree)) }
{
    for v in 0..spec.tree().count() {
        decide(alloc, spec, planned, v, limit)?;
    }
    Ok(())
}

// Takes the cut of a node back, if it is cut and the joined piece is within the limit.
fn decide(
    alloc: Global,
    spec: &Spec,
    planned: &mut PlannedCuts,
    v: u8,
    limit: u64,
) -> Result<(), AllocError>
    requires names { HaveNames spec.now.declarations.tensors }
    requires few { length spec.now.declarations.tensors ≤ max_tensors - 1 }
    requires inside { v < operations spec.now.tree }
    requires planned { ArePlanned spec.now limit planned.old v }
    ensures { OnOk result (ArePlanned spec.now limit planned.new (v + 1)) }
{
    let _count = spec.tree().count();
    if !has_node(planned.nodes, v) {
        return Ok(());
    }
    let fewer = without_node(planned.nodes, v);
    let root = root_over(spec, fewer, v);
    let guess = joined_guess(planned.plans.as_slice(), v, root);
    let Some(joined) = plan_within(alloc, spec, root, fewer, guess, limit)? else {
        return Ok(());
    };
    put_joined(&mut planned.plans, v, root, joined);
    planned.nodes = fewer;
    Ok(())
}

// A plan of a least fusion of the piece of a root, without rows.
fn plan_of_piece(alloc: Global, spec: &Spec, root: u8, cuts: u32) -> Result<Plan, AllocError>
    requires names { HaveNames spec.now.declarations.tensors }
    requires few { length spec.now.declarations.tensors ≤ max_tensors - 1 }
    requires cuts { CanCut spec.now (has cuts) root }
    ensures { IfOk result (IsPlanOfPiece spec.now (has cuts) root) }
{
    let piece = piece(alloc, spec, root, cuts)?;
    let plan = least_plan(alloc, &piece);
    drop(piece);
    plan
}

// The same, where its memory is at most the limit; none where each fusion of the piece takes more.
fn plan_within(
    alloc: Global,
    spec: &Spec,
    root: u8,
    cuts: u32,
    guess: u128,
    limit: u64,
) -> Result<Option<Plan>, AllocError>
    requires names { HaveNames spec.now.declarations.tensors }
    requires few { length spec.now.declarations.tensors ≤ max_tensors - 1 }
    requires cuts { CanCut spec.now (has cuts) root }
    ensures plan { IfOk result (λ found. IfSome found (IsPlanOfPiece spec.now (has cuts) root)) }
    ensures within { IfOk result (λ found. IfSome found (λ plan. plan.memory ≤ limit)) }
    ensures none { IfOk result (λ found. IfNone found (IsAbove spec.now (has cuts) root limit)) }
{
    let piece = piece(alloc, spec, root, cuts)?;
    let found = least_plan_within(alloc, &piece, guess, limit);
    drop(piece);
    found
}

// Whether a node is the root of a piece.
fn is_root(spec: &Spec, cuts: u32, v: u8) -> bool
    requires { v < operations spec.now.tree }
    ensures { result ≡ is_root_of spec.now.tree (has cuts) v }
{
    let count = spec.tree().count();
    has_node(cuts, v) || v + 1 == count
}

// The root of the piece in which a node stands.
fn root_over(spec: &Spec, cuts: u32, v: u8) -> u8
    requires { v < operations spec.now.tree }
    ensures { IsRootOver spec.now.tree (has cuts) v result }
{
    if is_root(spec, cuts, v) {
        return v;
    }
    let above = spec.tree().parent(v).unwrap();
    root_over(spec, cuts, above)
}
