// What is known of a run's references to tensors, as its loops are gone through from the innermost ones outwards.
ghost use Rattle.std.specs.Prelude.{◌<◌};

use tce_space::MAX_NODES;

// Two operands for each node, and the result.
const MAX_REFERENCES: usize = 2 * MAX_NODES + 1;

/// A reference to a tensor by the operation of a node, with the tiles that the loops so far touch through it.
///
/// One that means nothing has no tiles and costs nothing.
#[derive(Clone, Copy, Default)]
pub(crate) struct Reference {
    // The node in whose loops it stands.
    node: u8,
    // The tensor and the indexes at its positions, as one number.
    leaf: u64,
    // The set of its indexes.
    bits: u32,
    // What it costs to read one of its tiles.
    cost: u64,
    // How many different tiles are touched, and how many are read.
    tiles: u64,
    reads: u64,
    // Whether its tiles are still held when the same ones come again.
    stays: bool,
}

impl Reference {
    /// A reference by the operation of a node, before any loop.
    pub(crate) fn new(node: u8, leaf: u64, bits: u32, cost: u64) -> Reference {
        Reference {
            node,
            leaf,
            bits,
            cost,
            tiles: 1,
            reads: 1,
            stays: true,
        }
    }

    // Goes through a loop with so many turns over the indexes of a set.
    fn turn(&mut self, turns: u64, bits: u32) {
        if self.bits & bits != 0 {
            self.tiles = self.tiles.saturating_mul(turns);
            self.reads = self.reads.saturating_mul(turns);
        } else if !self.stays {
            self.reads = self.reads.saturating_mul(turns);
        }
    }

    // Whether it touches the tiles of another one in the same loops.
    fn is_same(&self, other: &Reference) -> bool {
        self.node == other.node && self.leaf == other.leaf && self.tiles == other.tiles
    }
}

/// The references of a run, by the node in whose loops they stand.
#[derive(Clone, Copy)]
pub(crate) struct References {
    // How many tiles are held.
    frames: u64,
    count: usize,
    all: [Reference; MAX_REFERENCES],
    // Whether the loops of a node so far touch more tiles than are held.
    is_over: [bool; MAX_NODES],
}

impl References {
    /// No references, where so many tiles are held.
    pub(crate) fn new(frames: u64) -> References {
        References {
            frames,
            count: 0,
            all: [Reference::default(); MAX_REFERENCES],
            is_over: [false; MAX_NODES],
        }
    }

    /// Puts one more behind the others.
    pub(crate) fn put(&mut self, reference: Reference) {
        if self.count < MAX_REFERENCES {
            self.all[self.count] = reference;
            self.count += 1;
        }
    }

    /// What all reads cost.
    pub(crate) fn cost(&self) -> u64 {
        let mut cost: u64 = 0;
        for reference in &self.all {
            cost = cost.saturating_add(reference.cost.saturating_mul(reference.reads));
        }
        cost
    }

    /// What stood in the loops of one node stands in those of another from here on.
    pub(crate) fn join(&mut self, from: u8, to: u8) {
        for r in 0..self.count.min(MAX_REFERENCES) {
            if self.all[r].node == from {
                self.all[r].node = to;
            }
        }
        if self.is_over(from) {
            self.set_over(to);
        }
    }

    /// Looks anew at what stands in the loops of a node, after others were joined: the same tiles count once.
    pub(crate) fn settle(&mut self, node: u8) {
        for r in 0..self.count.min(MAX_REFERENCES) {
            if self.all[r].node == node && self.is_repeated(r) {
                self.all[r] = Reference::default();
            }
        }
        self.look_over(node);
        if self.is_over(node) {
            self.let_go(node, u32::MAX);
        }
    }

    /// Goes through a loop of a node with so many turns over the indexes of a set.
    pub(crate) fn turn(&mut self, node: u8, turns: u64, bits: u32) {
        for r in 0..self.count.min(MAX_REFERENCES) {
            if self.all[r].node == node {
                self.all[r].turn(turns, bits);
            }
        }
        self.look_over(node);
        if self.is_over(node) && 1 < turns {
            self.let_go(node, bits);
        }
    }

    fn is_over(&self, node: u8) -> bool {
        self.is_over.get(node as usize) == Some(&true)
    }

    fn set_over(&mut self, node: u8) {
        if (node as usize) < MAX_NODES {
            self.is_over[node as usize] = true;
        }
    }

    // Whether one before touches the same tiles.
    fn is_repeated(&self, r: usize) -> bool
        requires { r < 65 }
    {
        for q in 0..r {
            if self.all[q].is_same(&self.all[r]) {
                return true;
            }
        }
        false
    }

    // Marks the node where its loops touch more tiles than are held.
    fn look_over(&mut self, node: u8) {
        let mut tiles: u64 = 0;
        for reference in &self.all {
            if reference.node == node {
                tiles = tiles.saturating_add(reference.tiles);
            }
        }
        if tiles > self.frames {
            self.set_over(node);
        }
    }

    // The tiles of references with one of these indexes do not stay.
    fn let_go(&mut self, node: u8, bits: u32) {
        for r in 0..self.count.min(MAX_REFERENCES) {
            if self.all[r].node == node && self.all[r].bits & bits != 0 {
                self.all[r].stays = false;
            }
        }
    }
}
