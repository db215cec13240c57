// The limits of what is accepted. Clauses cite them by the names in `specs/Limits.antt`.

/// How many bytes a specification has at most.
pub const MAX_SPEC_BYTES: usize = 65_536;

/// How many ranges are declared at most.
pub const MAX_RANGES: usize = 16;

/// How many indexes are declared at most; their numbers are below it.
pub const MAX_INDEXES: usize = 24;

/// How many tensors are declared at most; their numbers are below it.
pub const MAX_TENSORS: usize = 32;

/// How many operations a tree has at most; the numbers of its nodes are below it.
pub const MAX_NODES: usize = 32;

/// How many loops a node has at most.
pub const MAX_LOOPS: usize = 10;

/// How many dimensions an array has at most.
pub const MAX_RANK: usize = 8;

/// How many words a tile has at most.
pub const MAX_TILE_WORDS: u64 = 1 << 20;

/// How many words an array has at most, with its padding.
pub const MAX_ARRAY_WORDS: u64 = 1 << 48;

/// How many iterations the loops of a node have at most, and how many elements its array.
pub const MAX_VOLUME: u128 = 1 << 90;

/// Costs, sizes and memories of plans and certificates are below it.
pub const COST_LIMIT: u128 = 1 << 96;

/// How many words a run takes at most for intermediates, and how many for tiles.
pub const MAX_MEMORY: u64 = 1 << 40;

/// A number for each index.
pub type Numbers = [u64; MAX_INDEXES];
