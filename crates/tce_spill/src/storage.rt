// Nodes whose values may be stored in an array.
ghost use Rattle.std.specs.Prelude.{◌≡◌, ◌<◌, ◌≤◌, ◌+◌, ◌==◌, All, length, map};
ghost use Rattle.tce_space.specs.IndexSet.{count, members};
ghost use Rattle.tce_space.specs.Space.{IsDeclared, index_at, tiling_of};
ghost use Rattle.tce_tree.specs.ContractionTree.{operations};
ghost use Rattle.tce_tree.specs.Measure.{IsMeasured};
ghost use Rattle.tce_spec.specs.Storable as store;

use arrayvec::ArrayVec;
use tce_space::{IndexSet, MAX_INDEXES, MAX_RANK, Space};
use tce_tree::Tree;

/// Whether a node may be cut: it is not the root, and its values fit an array, which has a dimension for each of its
/// dims in the order of the indexes, of at most eight, tiles of at most 2^20 words, and at most 2^48 words in all tiles.
pub fn storable(space: &Space, tree: &Tree, v: u8) -> bool
    requires measured { IsMeasured space.now tree.now }
    requires inside { v < operations tree.now }
    ensures { result ≡ store.storable space.now tree.now v }
{
    let _indexes = space.index_count();
    let dims = tree.dims(v);
    if is_root(tree, v) || dims.count() > MAX_RANK as u8 {
        return false;
    }
    has_room(space, &ranges_of(space, dims))
}

fn is_root(tree: &Tree, v: u8) -> bool
    requires { v < operations tree.now }
    ensures { result ≡ (v + 1 == operations tree.now) }
{
    let count = tree.count();
    v + 1 == count
}

// The ranges of the members of a set, in order.
fn ranges_of(space: &Space, dims: IndexSet) -> ArrayVec<u8, MAX_RANK>
    requires few { count dims ≤ 8 }
    requires declared { IsDeclared space.now dims }
    ensures ranges { result.items ≡ map (λ i. (index_at space.now i).of_range) (members dims) }
    ensures declared { All (λ r. r < length space.now.ranges) result.items }
{
    let mut ranges = ArrayVec::new();
    for index in 0..MAX_INDEXES as u8 {
        if dims.has(index) {
            ranges.push(space.range_of(index));
        }
    }
    ranges
}

// Whether an array over these ranges is within the limits.
fn has_room(space: &Space, ranges: &ArrayVec<u8, MAX_RANK>) -> bool
    requires { All (λ r. r < length space.now.ranges) ranges.now.items }
    ensures { result ≡ store.has_room (tiling_of space.now ranges.now.items) }
{
    space.shape(ranges).is_ok()
}
