// What the reads of a run cost, by a model that tells loop orders apart.
//
// As many tiles are held as there are frames, those that were touched last. Loops that stand directly in one another go block by
// block. All that is touched in the same loops shares the frames, so the loops are gone through from the innermost ones outwards,
// with what all operations inside touch: as long as that is held, each tile is read once, and after that only the tiles stay
// that each further turn touches again.
ghost use Rattle.std.specs.Prelude.{◌<◌};
ghost use Rattle.tce_tree.specs.ContractionTree.{operations};
ghost use Rattle.tce_tree.specs.Fusion.{FusionFits};

use crate::references::{Reference, References};
use tce_space::{IndexSet, LoopOrder, MAX_INDEXES, MAX_NODES, Numbers, Space};
use tce_tree::{Fusion, Kind, Leaf, Operand, Tree};

// A read costs as much as this many words more.
const CALL: u64 = 256;

// The number of no node.
const NONE: u8 = u8::MAX;

/// What decides how many tiles the loops of a run read.
#[derive(Drop)]
pub(crate) struct Model {
    // Along each index how many tiles there are, and how many elements a tile has.
    tiles: Numbers,
    elements: Numbers,
    // The references, before any loop.
    references: References,
    // How many of its loops each node shares with its parent, and in whose loops its code stands.
    joints: [u8; MAX_NODES],
    holders: [u8; MAX_NODES],
    // Whether rows of values are kept in the code of a node. The loops round that do not go block by block.
    has_rows: [bool; MAX_NODES],
}

impl Model {
    /// The model of a run by a fusion with so many frames, whose value goes to `output`.
    pub(crate) fn of(
        space: &Space,
        tree: &Tree,
        fusion: &Fusion,
        output: &Leaf,
        frames: u64,
    ) -> Model
        requires { FusionFits tree.now fusion.now.0.items }
    {
        let mut tiles = [1; MAX_INDEXES];
        let mut elements = [1; MAX_INDEXES];
        for i in 0..space.index_count() {
            let edge = space.edge(i);
            tiles[i as usize] = space.extent(i).div_ceil(edge);
            elements[i as usize] = edge;
        }
        let joints = joints_of(tree, fusion);
        let holders = holders_of(tree, &joints);
        Model {
            tiles,
            elements,
            references: references_of(tree, output, &elements, frames),
            joints,
            holders,
            has_rows: rows_of(tree, fusion, &holders),
        }
    }

    /// Whether the index has a single tile.
    pub(crate) fn has_one_tile(&self, index: u8) -> bool {
        self.tiles_along(index) == 1
    }

    /// What all reads cost where the nodes' loops go in these orders.
    pub(crate) fn cost(&self, orders: &[LoopOrder]) -> u64 {
        let mut references = self.references;
        for v in 0..MAX_NODES as u8 {
            if let Some(order) = orders.get(v as usize) {
                self.go_through(v, order.0.as_slice(), &mut references);
            }
        }
        references.cost()
    }

    fn tiles_along(&self, index: u8) -> u64 {
        self.tiles.get(index as usize).copied().unwrap_or(1)
    }

    fn elements_along(&self, index: u8) -> u64 {
        self.elements.get(index as usize).copied().unwrap_or(1)
    }

    // Goes through the loops of a node that its parent has not, from the innermost one on.
    fn go_through(&self, v: u8, order: &[u8], references: &mut References) {
        references.settle(v);
        let joint = self.joints.get(v as usize).copied().unwrap_or(0) as usize;
        let mut inner = order.len();
        let mut has_rows = false;
        for depth in (joint..order.len() + 1).rev() {
            if self.holds(v, depth) || depth == joint {
                let nest = between(order, depth, inner);
                if has_rows {
                    self.turn_loops(v, nest, references);
                } else {
                    self.turn_blocks(v, nest, references);
                }
                inner = depth;
                has_rows |= self.join_at(v, depth, references);
            }
        }
    }

    // Goes through loops one after the other.
    fn turn_loops(&self, v: u8, loops: &[u8], references: &mut References) {
        for index in loops.iter().rev() {
            references.turn(v, self.elements_along(*index), 0);
            references.turn(v, self.tiles_along(*index), bits_of(*index));
        }
    }

    // Goes through loops that stand directly in one another: the elements of a block inside, the tiles outside.
    fn turn_blocks(&self, v: u8, loops: &[u8], references: &mut References) {
        let mut elements: u64 = 1;
        for index in loops {
            elements = elements.saturating_mul(self.elements_along(*index));
        }
        references.turn(v, elements, 0);
        for index in loops.iter().rev() {
            references.turn(v, self.tiles_along(*index), bits_of(*index));
        }
    }

    // Whether the code of a node stands in the loops of another at this depth.
    fn is_held(&self, u: usize, v: u8, depth: usize) -> bool {
        match (self.holders.get(u), self.joints.get(u)) {
            (Some(holder), Some(joint)) => *holder == v && *joint as usize == depth,
            _ => false,
        }
    }

    // Whether something else than a loop stands at this depth of a node's loops.
    fn holds(&self, v: u8, depth: usize) -> bool {
        for u in 0..MAX_NODES {
            if self.is_held(u, v, depth) {
                return true;
            }
        }
        false
    }

    // What stands at this depth of a node's loops joins its references. Tells whether rows are kept there.
    fn join_at(&self, v: u8, depth: usize, references: &mut References) -> bool {
        let mut has_rows = false;
        for u in 0..MAX_NODES {
            if self.is_held(u, v, depth) {
                references.join(u as u8, v);
                has_rows |= self.has_rows[u];
            }
        }
        references.settle(v);
        has_rows
    }
}

// The set of one index.
fn bits_of(index: u8) -> u32 {
    if (index as usize) < MAX_INDEXES {
        1 << index
    } else {
        0
    }
}

// The loops of an order from one depth to another.
fn between(order: &[u8], from: usize, to: usize) -> &[u8] {
    let to = to.min(order.len());
    &order[from.min(to)..to]
}

// The references of the operations of a tree's nodes. A tile of the result is read and written.
fn references_of(tree: &Tree, output: &Leaf, elements: &Numbers, frames: u64) -> References {
    let mut references = References::new(frames);
    let count = tree.count();
    for v in 0..count {
        if let Operand::Leaf(leaf) = tree.left(v) {
            references.put(reference_of(v, leaf, elements, 1));
        }
        if let Some(Operand::Leaf(leaf)) = tree.right(v) {
            references.put(reference_of(v, leaf, elements, 1));
        }
    }
    references.put(reference_of(count - 1, output, elements, 2));
    references
}

// A reference by the operation of a node, whose tiles are moved so often.
fn reference_of(node: u8, leaf: &Leaf, elements: &Numbers, moves: u64) -> Reference {
    let mut number = leaf.tensor as u64 + 1;
    let mut bits = 0;
    let mut words: u64 = 1;
    for index in leaf.indexes.as_slice() {
        number = number.wrapping_mul(32).wrapping_add(*index as u64 + 1);
        bits |= bits_of(*index);
        let edge = elements.get(*index as usize).copied().unwrap_or(1);
        words = words.saturating_mul(edge);
    }
    let cost = words.saturating_add(CALL).saturating_mul(moves);
    Reference::new(node, number, bits, cost)
}

// How many loops each node shares with its parent.
fn joints_of(tree: &Tree, fusion: &Fusion) -> [u8; MAX_NODES]
    requires { FusionFits tree.now fusion.now.0.items }
{
    let mut joints = [0; MAX_NODES];
    for v in 0..tree.count() {
        joints[v as usize] = fusion.0[v as usize].count();
    }
    joints
}

// In whose loops the code of each node stands: the nearest above it that does not share more of its loops.
fn holders_of(tree: &Tree, joints: &[u8; MAX_NODES]) -> [u8; MAX_NODES] {
    let mut holders = [NONE; MAX_NODES];
    for v in (0..tree.count()).rev() {
        if let Some(parent) = tree.parent(v) {
            holders[v as usize] = first_holder(&holders, joints, parent, joints[v as usize]);
        }
    }
    holders
}

// The first node from this one on upwards that shares at most so many of its loops.
fn first_holder(holders: &[u8; MAX_NODES], joints: &[u8; MAX_NODES], from: u8, depth: u8) -> u8 {
    let mut holder = from;
    for _ in 0..MAX_NODES {
        match joints.get(holder as usize) {
            Some(joint) if depth < *joint => holder = holders[holder as usize],
            _ => return holder,
        }
    }
    holder
}

// In the code of which nodes rows are kept: values of an operation but a sum, along loops that are not fused.
fn rows_of(tree: &Tree, fusion: &Fusion, holders: &[u8; MAX_NODES]) -> [bool; MAX_NODES]
    requires { FusionFits tree.now fusion.now.0.items }
{
    let mut has_rows = [false; MAX_NODES];
    for v in 0..tree.count() {
        let kept = tree.dims(v).minus(fusion.0[v as usize]);
        match tree.kind(v) {
            Kind::Sum => {}
            Kind::Product | Kind::Add | Kind::Sub => has_rows[v as usize] |= kept
                != IndexSet::empty(),
        }
        let holder = holders[v as usize] as usize;
        if has_rows[v as usize] && holder < MAX_NODES {
            has_rows[holder] = true;
        }
    }
    has_rows
}
