// Sets of nodes, as the bits of a number.
ghost use Rattle.std.specs.Prelude.{◌≡◌, ℕ, ◌<◌, ◌||◌, ◌==◌};
ghost use Rattle.tce_space.specs.Limits.{max_nodes};
ghost use Rattle.tce_space.specs.IndexSet.{has};
ghost use Rattle.tce_spec.specs.Pieces.{except};

/// Whether a node is in the set.
pub(crate) fn has_node(nodes: u32, v: u8) -> bool
    requires { v < max_nodes }
    ensures { result ≡ has nodes v }
{
    nodes >> v & 1 == 1
}

/// The set with one node more.
pub(crate) fn with_node(nodes: u32, v: u8) -> u32
    requires { v < max_nodes }
    ensures { (u : ℕ) → has result u ≡ (has nodes u || v == u) }
{
    nodes | 1 << v
}

/// The set without a node.
pub(crate) fn without_node(nodes: u32, v: u8) -> u32
    requires { v < max_nodes }
    ensures { (u : ℕ) → has result u ≡ except (has nodes) v u }
{
    nodes ^ nodes & 1 << v
}
