// Finds the terms of the node that a band carries.
ghost use Rattle.std.specs.Prelude.{◌≡◌, ◌+◌, ◌<◌, ◌≤◌, IsTrue, IfSome, All, length, map};
ghost use Rattle.tce_base.specs.Word.{wrapping_mul};
ghost use Rattle.tce_space.specs.Box.{product};
ghost use Rattle.tce_space.specs.Space.{extent_at};
ghost use Rattle.tce_tree.specs.ContractionTree.{multiply, operations, node};
ghost use Rattle.tce_code.specs.Shape.{IsBinary};
ghost use Rattle.tce_walk.specs.FoundTerms.{AddUpTo, AddUpToValue, AreKeptDims, AreTermsOf, IsCodePart, IsDimsOfTensor, IsOperandIn, IsOperandOver, IsTermOver};
ghost use Rattle.tce_walk.specs.Positions.{program_at};
ghost use Rattle.tce_walk.specs.Terms.{touches_of_terms};
ghost use Rattle.tce_walk.specs.Touches.{block_count};

use crate::band_search::Band;
use crate::counts::{blocks_of, volume_of};
use crate::indexes::{are_declared, are_distinct, are_in, are_outside, copied, set_of};
use crate::straight::straight_body;
use crate::summands::{MAX_TERMS, Summand, Summands, add_node};
use crate::terms::{Term, TermOperand};
use crate::values::check_values;
use crate::walk::Walk;
use arrayvec::ArrayVec;
use tce_space::{IndexSet, LoopOrder, MAX_NODES, Space};
use tce_tree::{Kind, Operand, Tree};

// A band goes term by term where a block has so many elements in the mean. With fewer, the blocks' overhead outweighs what
// is saved.
const LEAST_ELEMENTS: u128 = 4;

// Terms, each added to a multiple of those before it, and what all together are multiplied by.
#[derive(Drop)]
pub(crate) struct Terms {
    pub(crate) terms: ArrayVec<Term, MAX_TERMS>,
    pub(crate) scale: u64,
}

// A number by which `next` is multiplied to give `factor`.
fn ratio(factor: u64, next: u64) -> Option<u64>
    ensures { IfSome result (λ r. wrapping_mul r next ≡ factor) }
{
    let zeros = next.trailing_zeros();
    if zeros >= 64 {
        return if factor == 0 { Some(0) } else { None };
    }
    let odd = next >> zeros;
    // Each turn doubles how many of the low bits are those of the inverse, from three on.
    let mut inverse = odd;
    for _ in 0..5 {
        inverse = inverse.wrapping_mul(2_u64.wrapping_sub(odd.wrapping_mul(inverse)));
    }
    let ratio = (factor >> zeros).wrapping_mul(inverse);
    if ratio.wrapping_mul(next) == factor {
        Some(ratio)
    } else {
        None
    }
}

// The terms that add up to the summands.
fn terms_of(tree: &Tree, summands: &[Summand]) -> Option<Terms>
    ensures { IfSome result (λ found. AddUpTo tree.now summands.now found.terms.items found.scale) }
{
    if summands.len() > MAX_TERMS {
        return None;
    }
    let mut terms = ArrayVec::new();
    let mut scale = 0;
    for at in 0..summands.len() {
        let summand = &summands[at];
        let term = Term {
            scale: ratio(scale, summand.factor)?,
            loops: copied(summand.loops.0.as_slice())?,
            operand: summand.operand,
        };
        scale = summand.factor;
        terms.push(term);
    }
    Some(Terms { terms, scale })
}

// The indexes of a tensor.
fn tensor_dims(operand: &Operand) -> Option<IndexSet>
    ensures { IfSome result (IsDimsOfTensor operand.now) }
{
    match operand {
        Operand::Leaf(leaf) => set_of(leaf.indexes.as_slice()),
        Operand::Constant(_) | Operand::Node(_) => None,
    }
}

// The indexes of an operand, where it is a tensor or a product of two.
fn operand_dims(tree: &Tree, operand: TermOperand) -> Option<IndexSet>
    ensures { IfSome result (IsOperandOver tree.now operand) }
{
    match operand {
        TermOperand::Product(v) => {
            if v >= tree.count() || !is_product(tree, v) {
                return None;
            }
            let _left = tensor_dims(tree.left(v))?;
            let _right = tensor_dims(tree.right(v)?)?;
            Some(tree.dims(v))
        }
        TermOperand::Left(v) => {
            if v >= tree.count() {
                return None;
            }
            tensor_dims(tree.left(v))
        }
        TermOperand::Right(v) => {
            if v >= tree.count() {
                return None;
            }
            tensor_dims(tree.right(v)?)
        }
    }
}

fn is_product(tree: &Tree, v: u8) -> bool
    requires { v < operations tree.now }
    ensures { IsTrue result → IsBinary multiply (node tree.now v) }
{
    match tree.kind(v) {
        Kind::Product => true,
        Kind::Sum | Kind::Add | Kind::Sub => false,
    }
}

// Whether all indexes of an operand are among the loops.
fn is_operand_in(tree: &Tree, operand: TermOperand, loops: &[u8]) -> bool
    ensures { IsTrue result → IsOperandIn tree.now operand loops.now }
{
    match (operand_dims(tree, operand), set_of(loops)) {
        (Some(dims), Some(set)) => dims.within(set),
        _ => false,
    }
}

// Whether a term can be added up inside the loops, over loops of its own that are none of the dims.
fn is_term(walk: &Walk, loops: &[u8], dims: IndexSet, term: &Term) -> bool
    ensures { IsTrue result → IsTermOver walk.now.space.now walk.now.tree.now loops.now dims term.now }
{
    let mut all: LoopOrder = LoopOrder(ArrayVec::new());
    if all.0.try_extend_from_slice(loops).is_err() {
        return false;
    }
    if all
        .0
        .try_extend_from_slice(term.loops.0.as_slice())
        .is_err()
    {
        return false;
    }
    are_declared(walk.space, all.0.as_slice())
        && are_distinct(all.0.as_slice())
        && are_outside(dims, term.loops.0.as_slice())
        && is_operand_in(walk.tree, term.operand, all.0.as_slice())
        && volume_of(walk.space, all.0.as_slice()).is_some()
}

fn are_terms(walk: &Walk, loops: &[u8], dims: IndexSet, terms: &[Term]) -> bool
    ensures { IsTrue result → All (IsTermOver walk.now.space.now walk.now.tree.now loops.now dims) terms.now }
{
    for at in 0..terms.len() {
        if !is_term(walk, loops, dims, &terms[at]) {
            return false;
        }
    }
    true
}

// The touches of terms at one block.
fn touches_of(space: &Space, terms: &[Term]) -> Option<u128>
    ensures { IfSome result (λ n. touches_of_terms space.now terms.now ≤ n) }
{
    match terms {
        [] => Some(0),
        [first, rest @ ..] => {
            if !are_declared(space, first.loops.0.as_slice()) {
                return None;
            }
            let blocks = blocks_of(space, first.loops.0.as_slice())?;
            let others = touches_of(space, rest)?;
            others.checked_add(3 * blocks)
        }
    }
}

// Whether the blocks of the loops have enough elements.
fn is_coarse(space: &Space, loops: &[u8]) -> bool
    requires { All (λ i. i < length space.now.indexes) loops.now }
    ensures { IsTrue result → block_count space.now loops.now + 1 ≤ product (map (extent_at space.now) loops.now) }
{
    match (blocks_of(space, loops), volume_of(space, loops)) {
        (Some(blocks), Some(volume)) => blocks > 0 && LEAST_ELEMENTS * blocks <= volume,
        _ => false,
    }
}

// Whether the loops are the node's dims, and none of them is fused.
fn are_kept(walk: &Walk, loops: &[u8], v: u8) -> bool
    requires { v < operations walk.now.tree.now }
    ensures { IsTrue result → AreKeptDims walk.now.tree.now walk.now.fusion.now.0.items loops.now v }
{
    if v as usize >= walk.fusion.0.len() {
        return false;
    }
    let kept = walk.tree.dims(v).minus(walk.fusion.0[v as usize]);
    match set_of(loops) {
        Some(set) => are_in(kept, loops) && walk.tree.dims(v).within(set),
        None => false,
    }
}

// The terms that add up to the value of the node.
fn added_up(tree: &Tree, v: u8) -> Option<Terms>
    requires { v < operations tree.now }
    ensures { IfSome result (λ found. AddUpToValue tree.now v found.terms.items found.scale) }
{
    let mut summands: Summands = ArrayVec::new();
    if !add_node(tree, v, 1, &mut summands) {
        return None;
    }
    terms_of(tree, summands.as_slice())
}

// The terms of the node that a band carries, where its body leaves the node's values and the terms take no more touches.
// A body of operations alone is handed over as it is.
pub(crate) fn find_terms(walk: &Walk, band: &Band) -> Option<Terms>
    requires within { band.now.at ≤ length walk.now.ops.now }
    requires code { IsCodePart walk.now.tree.now (program_at walk.now.ops.now band.now.at) }
    ensures { IfSome result (AreTermsOf walk.now.space.now walk.now.tree.now walk.now.fusion.now.0.items walk.now.ops.now band.now) }
{
    if straight_body(walk.ops, band.at).is_some() {
        return None;
    }
    let loops = band.loops.0.as_slice();
    let v = band.carrier;
    if v >= walk.tree.count() || (v as usize) >= MAX_NODES {
        return None;
    }
    if !are_declared(walk.space, loops) || !are_distinct(loops) || !are_kept(walk, loops, v) {
        return None;
    }
    if !is_coarse(walk.space, loops) {
        return None;
    }
    let mut right = [false; MAX_NODES];
    let least = check_values(walk, v, band.at, &mut right)?;
    if !right[v as usize] {
        return None;
    }
    let terms = added_up(walk.tree, v)?;
    if terms.terms.len() < 1 {
        return None;
    }
    let most = touches_of(walk.space, terms.terms.as_slice())?;
    if most > least || !are_terms(walk, loops, walk.tree.dims(v), terms.terms.as_slice()) {
        return None;
    }
    Some(terms)
}
