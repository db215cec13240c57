// Plans: fusions with all that shows them to be least.
ghost use Rattle.std.specs.Prelude.{◌↔◌, ◌<◌, IsTrue, All};
ghost use Rattle.tce_space.specs.Limits.{cost_limit};
ghost use Rattle.tce_nesting.specs.Plan.{PlanFits};

use crate::tables::Tables;
use arrayvec::ArrayVec;
use tce_space::{COST_LIMIT, MAX_NODES};
use tce_tree::{Fusion, Orders, Tree};

/// A fusion of a tree with loop orders that carry it, and with what shows that no other fusion takes less memory.
#[derive(Drop)]
pub struct Plan {
    pub fusion: Fusion,
    pub orders: Orders,
    /// The elements that each node but the root keeps, by its number.
    pub sizes: ArrayVec<u128, MAX_NODES>,
    /// The elements that they keep together.
    pub memory: u128,
    /// The states that the subtrees of each node but the root may have, by its number.
    pub tables: Tables,
}

impl Plan {
    /// Whether the fusion and the orders fit the tree, there is a size and a list of rows for each node but the root, the classes of each row lie within its node's dims, and all numbers are below 2^96.
    pub fn fits(&self, tree: &Tree) -> bool
        ensures { IsTrue result ↔ PlanFits tree.now self.now }
    {
        let inner = tree.count() - 1;
        self.fusion.fits(tree)
            && self.orders.fits(tree)
            && self.sizes.len() == inner as usize
            && are_limited(self.sizes.as_slice())
            && self.memory < COST_LIMIT
            && self.tables.lists() == inner
            && self.tables.fit(tree)
    }
}

// Whether all numbers are below the limit.
fn are_limited(numbers: &[u128]) -> bool
    ensures { IsTrue result ↔ All (λ n. n < cost_limit) numbers.now }
{
    numbers.iter().all(|number| *number < COST_LIMIT)
}
