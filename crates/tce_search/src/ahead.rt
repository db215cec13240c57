// What the nodes of a tree and all above them keep together at least, whatever is fused above them.
ghost use Rattle.std.specs.Prelude.{◌<◌, IfSome};
ghost use Rattle.tce_tree.specs.ContractionTree.{operations};
ghost use Rattle.tce_tree.specs.Measure.{IsMeasured};

use crate::candidate::Candidate;
use crate::limits::Ahead;
use crate::side::Side;
use std::alloc::{AllocError, Global};
use tce_nesting::{Choice, choices};
use tce_space::{IndexSet, Space};
use tce_tree::{Operand, Tree};

/// What is ahead of each node's operands, the root's first, and for its right operand with what the left one costs beside it, where that is known.
#[derive(Drop)]
pub(crate) struct Aheads {
    nodes: Vec<Ahead>,
    rights: Vec<Option<Ahead>>,
    sides: Vec<KnownSide>,
    nothing: Ahead,
}

// The side of a node's right operand.
#[derive(Drop)]
struct KnownSide {
    node: u8,
    side: Side,
}

impl Aheads {
    /// Those of all nodes of a tree. They are found from the root down: what is fused above a node decides what its parent may fuse.
    pub(crate) fn new(alloc: Global, space: &Space, tree: &Tree) -> Result<Aheads, AllocError>
        requires { IsMeasured space.now tree.now }
    {
        Aheads::with_sides(alloc, space, tree, Vec::new(alloc))
    }

    // The same, where the sides of some nodes' right operands are known.
    fn with_sides(
        alloc: Global,
        space: &Space,
        tree: &Tree,
        sides: Vec<KnownSide>,
    ) -> Result<Aheads, AllocError>
        requires { IsMeasured space.now tree.now }
    {
        let root = tree.count() - 1;
        let mut aheads = Aheads {
            nodes: Vec::new(alloc),
            rights: Vec::new(alloc),
            sides,
            nothing: nothing(alloc, tree, root),
        };
        aheads.push(alloc, root, nothing(alloc, tree, root))?;
        for below in 0..root {
            let ahead = ahead_of_node(alloc, space, tree, root - 1 - below, &aheads)?;
            aheads.push(alloc, root - 1 - below, ahead)?;
        }
        Ok(aheads)
    }

    // Appends what is ahead of a node's operands.
    fn push(&mut self, alloc: Global, v: u8, ahead: Ahead) -> Result<(), AllocError> {
        let mut right = None;
        for known in self.sides.as_slice() {
            if known.node == v {
                right = Some(ahead.beside(alloc, &known.side)?);
            }
        }
        self.rights.push(right)?;
        self.nodes.push(ahead)?;
        Ok(())
    }

    /// As if nothing were kept above any node.
    pub(crate) fn none(alloc: Global, tree: &Tree) -> Aheads {
        Aheads {
            nodes: Vec::new(alloc),
            rights: Vec::new(alloc),
            sides: Vec::new(alloc),
            nothing: nothing(alloc, tree, tree.count() - 1),
        }
    }

    /// What is ahead after the candidates of a node are found: where it is a left operand, those of the right one's subtree go with it.
    pub(crate) fn after(
        self,
        alloc: Global,
        space: &Space,
        tree: &Tree,
        v: u8,
        candidates: &[Candidate],
    ) -> Result<Aheads, AllocError>
        requires measured { IsMeasured space.now tree.now }
        requires inside { v < operations tree.now }
    {
        if self.nodes.is_empty() {
            return Ok(self);
        }
        let Some(node) = right_beside(tree, v) else {
            return Ok(self);
        };
        let side = Side::new(alloc, candidates, tree.loops(node))?;
        let mut sides = self.sides;
        sides.push(KnownSide { node, side })?;
        Aheads::with_sides(alloc, space, tree, sides)
    }

    /// What is ahead of a node: what its parent keeps, and all above. Nothing is ahead of the root.
    pub(crate) fn of(&self, tree: &Tree, v: u8) -> &Ahead
        requires { v < operations tree.now }
    {
        match tree.parent(v) {
            Some(p) => self.of_operand(tree, p, v),
            None => &self.nothing,
        }
    }

    // What is ahead of an operand of a node.
    fn of_operand(&self, tree: &Tree, p: u8, v: u8) -> &Ahead
        requires { p < operations tree.now }
    {
        let place = tree.count().saturating_sub(1).saturating_sub(p) as usize;
        if is_node(tree.right(p), v) {
            if let Some(Some(ahead)) = self.rights.get(place) {
                return ahead;
            }
        }
        match self.nodes.get(place) {
            Some(ahead) => ahead,
            None => &self.nothing,
        }
    }
}

// Whether an operand is the node.
fn is_node(operand: Option<&Operand>, v: u8) -> bool {
    match operand {
        Some(Operand::Node(u)) => *u == v,
        _ => false,
    }
}

// The parent of a left operand whose right operand is a node, too.
fn right_beside(tree: &Tree, v: u8) -> Option<u8>
    requires { v < operations tree.now }
    ensures { IfSome result (λ p. p < operations tree.now) }
{
    let p = tree.parent(v)?;
    match tree.right(p) {
        Some(Operand::Node(u)) if *u != v => Some(p),
        _ => None,
    }
}

// What is ahead of the operands of the root: nothing is kept.
fn nothing(alloc: Global, tree: &Tree, root: u8) -> Ahead
    requires { root < operations tree.now }
{
    Ahead::new(
        tree.loops(root),
        tree.dims(root),
        Vec::new(alloc),
        Vec::new(alloc),
    )
}

// What is ahead of the operands of a node, where that of all nodes above it is known.
fn ahead_of_node(
    alloc: Global,
    space: &Space,
    tree: &Tree,
    v: u8,
    aheads: &Aheads,
) -> Result<Ahead, AllocError>
    requires measured { IsMeasured space.now tree.now }
    requires inside { v < operations tree.now }
{
    let above = aheads.of(tree, v);
    let choices = choices(space, tree, v);
    let mut beyond = kept_with_each(alloc, choices.as_slice(), above)?;
    lower_to_subsets(beyond.as_mut_slice());
    let within = kept_above_each(alloc, choices.as_slice(), above, beyond.as_slice())?;
    Ok(Ahead::new(tree.loops(v), tree.dims(v), within, beyond))
}

// For each choice what the node keeps and all above it at least, where just this set is fused.
fn kept_with_each(
    alloc: Global,
    choices: &[Choice],
    above: &Ahead,
) -> Result<Vec<u128>, AllocError> {
    let mut kept = Vec::with_capacity(alloc, choices.len())?;
    for choice in choices {
        kept.push(choice.size.saturating_add(above.of(choice.fused)))?;
    }
    Ok(kept)
}

// For each choice that, where a set is fused that is among these, or has all of them.
fn kept_above_each(
    alloc: Global,
    choices: &[Choice],
    above: &Ahead,
    among: &[u128],
) -> Result<Vec<u128>, AllocError> {
    let mut kept = Vec::with_capacity(alloc, choices.len())?;
    for (place, choice) in choices.iter().enumerate() {
        let wider = above.of(choice.fused).saturating_add(1);
        match among.get(place) {
            Some(least) => kept.push(wider.min(*least))?,
            None => kept.push(0)?,
        }
    }
    Ok(kept)
}

// Lowers each cost to the least of those of all subsets, where they stand by the numbers of the subsets.
fn lower_to_subsets(costs: &mut [u128]) {
    for bit in 0..MOST_DIMS {
        lower_by_one(costs, 1 << bit);
    }
}

// A node has so many dims at most.
const MOST_DIMS: u32 = 10;

// The same for the subsets that lack one loop alone.
fn lower_by_one(costs: &mut [u128], step: usize) {
    for number in step..costs.len() {
        if number & step != 0 {
            costs[number] = costs[number].min(costs[number - step]);
        }
    }
}
