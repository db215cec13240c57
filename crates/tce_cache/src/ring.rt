// Nodes in rings, each with the node after it and the node before it.
ghost use Rattle.std.specs.Prelude.{◌≡◌, ◌<◌, ◌+◌, [], ◌^◌, length, slice_index, IfOk};

use std::alloc::{AllocError, Global};
use std::marker::Model;

/// Nodes in rings. Some nodes are the ends at which a ring begins.
#[derive(Drop)]
pub struct Rings {
    after: Vec<usize>,
    before: Vec<usize>,
}

impl Model for Rings {
    ghost use Rattle.tce_cache.specs.Ring.{Links, AreLinks};

    ghost Value = { Links };

    ghost view = { λ r. record { after = r.after.items; before = r.before.items } };

    ghost invariant = { λ r. AreLinks (record { after = r.after.items; before = r.before.items }) };
}

impl Rings {
    ghost use Rattle.tce_cache.specs.Ring.{AreRings, AreLinks, IsTakenOut, IsPutBehind};

    /// As many nodes in no ring, and as many rings without nodes: ring r begins and ends at the node `nodes + r`.
    pub fn new(alloc: Global, nodes: usize, rings: usize) -> Result<Rings, AllocError>
        requires { nodes + rings < 2 ^ 64 }
        ensures len { IfOk result (λ links. length links.after ≡ nodes + rings) }
        ensures rings { IfOk result (λ links. AreRings links nodes rings (λ r. [])) }
    {
        let mut after = Vec::with_capacity(alloc, nodes + rings)?;
        let mut before = Vec::with_capacity(alloc, nodes + rings)?;
        for node in 0..nodes + rings {
            after.push(node)?;
            before.push(node)?;
        }
        Ok(Rings { after, before })
    }

    /// The node after this one.
    pub fn after(&self, node: usize) -> usize
        requires { node < length self.now.after }
        ensures node { result ≡ slice_index self.now.after node }
        ensures links { AreLinks self.now }
    {
        self.after[node]
    }

    /// The node before this one.
    pub fn before(&self, node: usize) -> usize
        requires { node < length self.now.after }
        ensures node { result ≡ slice_index self.now.before node }
        ensures links { AreLinks self.now }
    {
        self.before[node]
    }

    /// Takes a node out of its ring.
    pub fn remove(&mut self, node: usize)
        requires { node < length self.old.after }
        ensures len { length self.new.after ≡ length self.old.after }
        ensures rings { IsTakenOut node self.old self.new }
    {
        let after = self.after[node];
        let before = self.before[node];
        self.after[before] = after;
        self.before[after] = before;
    }

    /// Puts a node that is in no ring behind the end of one.
    pub fn push(&mut self, end: usize, node: usize)
        requires end { end < length self.old.after }
        requires node { node < length self.old.after }
        ensures len { length self.new.after ≡ length self.old.after }
        ensures rings { IsPutBehind end node self.old self.new }
    {
        let first = self.after[end];
        self.after[node] = first;
        self.after[end] = node;
        self.before[node] = end;
        self.before[first] = node;
    }
}
