// What a node's value is the sum of: tensors and products of two, with their factors.
ghost use Rattle.std.specs.Prelude.{◌≡◌, ◌<◌, IsTrue, IfSome};
ghost use Rattle.std.specs.declared.option.Option.TheVariants.{Some};
ghost use Rattle.tce_tree.specs.ContractionTree.{ContractionTree, operations, node, left_tree, right_tree};
ghost use Rattle.tce_tree.specs.FlatTree.{kind_of, left_of, right_of};
ghost use Rattle.tce_tree.specs.declared.node.Kind.TheVariants.{Product, Sum};
ghost use Rattle.tce_tree.specs.declared.node.Operand.TheVariants.{Constant};
ghost use Rattle.tce_walk.specs.FoundTerms.{AddsTimes, AreSummed, IsInserted};
ghost use Rattle.tce_walk.specs.Terms.{operand_tree};

use crate::indexes::are_summed;
use crate::terms::TermOperand;
use arrayvec::ArrayVec;
use tce_space::{LoopOrder, MAX_INDEXES, MAX_LOOPS};
use tce_tree::{Kind, Operand, Tree};

// How many summands a value may have.
pub(crate) const MAX_TERMS: usize = 16;

// The sum of an operand over all numbers of some loops, and how often it is taken.
#[derive(Clone, Drop)]
pub(crate) struct Summand {
    pub(crate) factor: u64,
    pub(crate) loops: LoopOrder,
    pub(crate) operand: TermOperand,
}

impl Default for Summand {
    fn default() -> Self {
        Summand {
            factor: 0,
            loops: LoopOrder(ArrayVec::new()),
            operand: TermOperand::Product(0),
        }
    }
}

pub(crate) type Summands = ArrayVec<Summand, MAX_TERMS>;

// Whether a factor stands in front of another one: the more twos divide it, the earlier, so that each is a multiple of the
// next one. Equal factors stand side by side.
fn precedes(factor: u64, other: u64) -> bool {
    let zeros = factor.trailing_zeros();
    let others = other.trailing_zeros();
    zeros > others || zeros == others && factor < other
}

// Puts a summand where its factor belongs, if there is room.
fn insert(summands: &mut Summands, summand: Summand) -> bool
    ensures { IsTrue result → IsInserted summand summands.old.items summands.new.items }
{
    if summands.len() >= MAX_TERMS {
        return false;
    }
    let mut at = 0;
    while at < summands.len() && !precedes(summand.factor, summands[at].factor) {
        at += 1;
    }
    summands.insert(at, summand);
    true
}

// The loops over which a sum goes.
fn loops_of_sum(tree: &Tree, v: u8) -> Option<LoopOrder>
    requires { v < operations tree.now }
    ensures { IfSome result (λ loops. AreSummed tree.now v loops.0.items) }
{
    let set = tree.loops(v).minus(tree.dims(v));
    let mut loops = LoopOrder(ArrayVec::new());
    for i in 0..MAX_INDEXES as u8 {
        if set.has(i) {
            if loops.0.len() >= MAX_LOOPS {
                return None;
            }
            loops.0.push(i);
        }
    }
    if are_summed(tree, v, loops.0.as_slice()) {
        Some(loops)
    } else {
        None
    }
}

// Adds a sum, taken so often.
fn add_sum(tree: &Tree, v: u8, factor: u64, summands: &mut Summands) -> bool
    requires node { v < operations tree.now }
    requires sum { kind_of (node tree.now v) ≡ Sum }
    ensures { IsTrue result → AddsTimes tree.now (node tree.now v) factor summands.old.items summands.new.items }
{
    let Some(loops) = loops_of_sum(tree, v) else {
        return false;
    };
    let operand = match tree.left(v) {
        Operand::Leaf(_) | Operand::Constant(_) => TermOperand::Left(v),
        Operand::Node(u) => TermOperand::Product(*u),
    };
    insert(
        summands,
        Summand {
            factor,
            loops,
            operand,
        },
    )
}

// Adds the operand itself, without loops.
fn add_operand(factor: u64, operand: TermOperand, summands: &mut Summands) -> bool
    ensures { IsTrue result → (tree : ContractionTree)
        → AddsTimes tree (operand_tree tree operand) factor summands.old.items summands.new.items }
{
    insert(
        summands,
        Summand {
            factor,
            loops: LoopOrder(ArrayVec::new()),
            operand,
        },
    )
}

// The constant that an operand is.
fn constant_of(operand: &Operand) -> Option<u64>
    ensures { IfSome result (λ number. operand.now ≡ Constant number) }
{
    match operand {
        Operand::Constant(number) => Some(*number),
        Operand::Leaf(_) | Operand::Node(_) => None,
    }
}

fn left_constant(tree: &Tree, v: u8) -> Option<u64>
    requires { v < operations tree.now }
    ensures { IfSome result (λ number. left_of tree.now v ≡ Constant number) }
{
    constant_of(tree.left(v))
}

fn right_constant(tree: &Tree, v: u8) -> Option<u64>
    requires { v < operations tree.now }
    ensures { IfSome result (λ number. right_of tree.now v ≡ Some (Constant number)) }
{
    constant_of(tree.right(v)?)
}

// Adds the summands of the left operand, taken so often.
#[cycle(adding)]
fn add_left(tree: &Tree, v: u8, factor: u64, summands: &mut Summands) -> bool
    requires { v < operations tree.now }
    ensures { IsTrue result → AddsTimes tree.now (left_tree (node tree.now v)) factor summands.old.items summands.new.items }
{
    match tree.left(v) {
        Operand::Leaf(_) | Operand::Constant(_) => {
            add_operand(factor, TermOperand::Left(v), summands)
        }
        Operand::Node(u) => add_node(tree, *u, factor, summands),
    }
}

// Adds those of the right operand.
#[cycle(adding)]
fn add_right(tree: &Tree, v: u8, factor: u64, summands: &mut Summands) -> bool
    requires { v < operations tree.now }
    ensures { IsTrue result → AddsTimes tree.now (right_tree (node tree.now v)) factor summands.old.items summands.new.items }
{
    match tree.right(v) {
        None => false,
        Some(Operand::Leaf(_)) | Some(Operand::Constant(_)) => {
            add_operand(factor, TermOperand::Right(v), summands)
        }
        Some(Operand::Node(u)) => add_node(tree, *u, factor, summands),
    }
}

// Adds those of a product: one of its operands so often as the other one says, if that is a constant, or else both together.
#[cycle(adding)]
fn add_product(tree: &Tree, v: u8, factor: u64, summands: &mut Summands) -> bool
    requires node { v < operations tree.now }
    requires product { kind_of (node tree.now v) ≡ Product }
    ensures { IsTrue result → AddsTimes tree.now (node tree.now v) factor summands.old.items summands.new.items }
{
    if let Some(number) = left_constant(tree, v) {
        return add_right(tree, v, factor.wrapping_mul(number), summands);
    }
    if let Some(number) = right_constant(tree, v) {
        return add_left(tree, v, factor.wrapping_mul(number), summands);
    }
    add_operand(factor, TermOperand::Product(v), summands)
}

// Adds the summands of a node's value, taken so often, and says whether there was room for them.
#[cycle(adding)]
pub(crate) fn add_node(tree: &Tree, v: u8, factor: u64, summands: &mut Summands) -> bool
    requires { v < operations tree.now }
    ensures { IsTrue result → AddsTimes tree.now (node tree.now v) factor summands.old.items summands.new.items }
{
    match tree.kind(v) {
        Kind::Sum => add_sum(tree, v, factor, summands),
        Kind::Product => add_product(tree, v, factor, summands),
        Kind::Add => { add_left(tree, v, factor, summands) && add_right(tree, v, factor, summands) }
        Kind::Sub => {
            let negated = 0_u64.wrapping_sub(factor);
            add_left(tree, v, factor, summands) && add_right(tree, v, negated, summands)
        }
    }
}
