// Where a block begins: its first numbers, and in which tiles of the ranges they lie.
ghost use Rattle.std.specs.Prelude.{◌≡◌, ◌/◌, ◌%◌, ◌<◌, length, map, slice_index, slice_set, All, if◌then◌else◌};
ghost use Rattle.tce_space.specs.Limits.{max_indexes};
ghost use Rattle.tce_space.specs.Box.{IsInside};
ghost use Rattle.tce_space.specs.Tiling.{IsTiling};
ghost use Rattle.tce_tree.specs.Value.{assignment};
ghost use Rattle.tce_tree.specs.WellFormed.{among};
ghost use Rattle.tce_exec.specs.Elements.{IsElementAt};
ghost use Rattle.tce_exec.specs.Workspace.{shape_over};

use crate::element::ElementPlace;
use tce_space::{MAX_INDEXES, Numbers, Space};

/// A number for each index, in which tile of the index's range it lies, and how far behind the beginning of that tile.
///
/// Tiles of tensors and places in them are found from these without a division.
#[derive(Drop)]
pub(crate) struct Position {
    pub numbers: Numbers,
    pub tiles: Numbers,
    pub rests: Numbers,
    // Of each index the edge, and the number of tiles that cover its extent. Both are 1 where no index is declared.
    pub edges: Numbers,
    pub counts: Numbers,
}

// A number divided by an edge, and what is left, where they are known of the number before. Where that stays, a tile further,
// and in the first tile nothing is divided.
fn divided(number: u64, edge: u64, before: u64, tile: u64, rest: u64) -> (u64, u64)
    requires some { 0 < edge }
    requires tile { tile ≡ before / edge }
    requires rest { rest ≡ before % edge }
    ensures tile { result.0 ≡ number / edge }
    ensures rest { result.1 ≡ number % edge }
{
    if number == before {
        (tile, rest)
    } else if before <= number && number - before == edge {
        (tile + 1, rest)
    } else if number < edge {
        (0, number)
    } else {
        (number / edge, number % edge)
    }
}

impl Position {
    ghost use Rattle.tce_exec.specs.Positions.{IsPosition};

    /// All numbers are 0.
    pub(crate) fn zero(space: &Space) -> Position
        ensures { IsPosition space.now result }
    {
        let mut edges = [1; MAX_INDEXES];
        let mut counts = [1; MAX_INDEXES];
        for index in 0..space.index_count() {
            let edge = space.edge(index);
            edges[index as usize] = edge;
            counts[index as usize] = space.extent(index).div_ceil(edge);
        }
        Position {
            numbers: [0; MAX_INDEXES],
            tiles: [0; MAX_INDEXES],
            rests: [0; MAX_INDEXES],
            edges,
            counts,
        }
    }

    // Gives an index a number.
    fn set(&mut self, _space: &Space, index: usize, number: u64)
        requires position { IsPosition _space.now self.old }
        requires known { index < max_indexes }
        ensures numbers { self.new.numbers ≡ slice_set self.old.numbers index number }
        ensures position { IsPosition _space.now self.new }
    {
        let edge = self.edges[index];
        let (tile, rest) = divided(
            number,
            edge,
            self.numbers[index],
            self.tiles[index],
            self.rests[index],
        );
        self.tiles[index] = tile;
        self.rests[index] = rest;
        self.numbers[index] = number;
    }

    /// Gives all indexes these numbers.
    pub(crate) fn go_to(&mut self, space: &Space, numbers: &Numbers)
        requires position { IsPosition space.now self.old }
        ensures numbers { slice_index self.new.numbers ≡ slice_index numbers.now }
        ensures position { IsPosition space.now self.new }
    {
        for i in 0..MAX_INDEXES {
            if numbers[i] != self.numbers[i] {
                self.set(space, i, numbers[i]);
            }
        }
    }

    /// Gives loops their numbers among those of all indexes: they have those with which a block begins, one for each loop,
    /// and all other indexes keep theirs.
    pub(crate) fn begin(&mut self, space: &Space, loops: &[u8], from: &[u64])
        requires position { IsPosition space.now self.old }
        requires known { All (λ i. i < max_indexes) loops.now }
        requires each { length from.now ≡ length loops.now }
        ensures numbers { slice_index self.new.numbers
            ≡ (λ i. if among loops.now i then assignment loops.now from.now i else slice_index self.old.numbers i) }
        ensures position { IsPosition space.now self.new }
    {
        for d in (0..loops.len()).rev() {
            self.set(space, loops[d] as usize, from[d]);
        }
    }

    /// Where the element of a tensor with these indexes stands at these numbers.
    pub(crate) fn element(&self, _space: &Space, indexes: &[u8]) -> ElementPlace
        requires position { IsPosition _space.now self.now }
        requires known { All (λ i. i < max_indexes) indexes.now }
        requires tiling { IsTiling (shape_over _space.now indexes.now) }
        requires inside { IsInside (shape_over _space.now indexes.now).extents
            (map (slice_index self.now.numbers) indexes.now) }
        ensures { IsElementAt (shape_over _space.now indexes.now)
            (map (slice_index self.now.numbers) indexes.now) result.tile result.place }
    {
        let mut tile = 0;
        let mut place = 0;
        for d in 0..indexes.len() {
            let i = indexes[d] as usize;
            tile = tile * self.counts[i] + self.tiles[i];
            place = place * self.edges[i] + self.rests[i];
        }
        ElementPlace { tile, place }
    }
}
