// Elements of the whole array, from the stored words.
ghost use Rattle.std.specs.Prelude.{◌≡◌, ◌≤◌};
ghost use Rattle.tce_sym.specs.Storage.{AreRight, stored_count};
ghost use Rattle.tce_sym.specs.Lines.{HasRoom};
ghost use Rattle.tce_sym.specs.Cells.{AreTriangles, AreOf};

use crate::slots::{Slots, are_across, grid_within, slots_of};
use crate::symmetry::{Symmetry, pairs, stored_count};
use tce_space::Shape;

/// What is stored: for each place of the other coordinates a triangle of pairs.
#[derive(Clone, Copy)]
pub struct Triangles {
    /// Whether the elements turn their sign where the two coordinates are exchanged.
    pub negated: bool,
    /// The extent of the two dimensions.
    pub extent: u64,
    /// How many pairs a triangle has.
    pub pairs: u64,
    /// How many triangles there are.
    pub others: u64,
    /// How many words there are.
    pub count: u64,
    /// The slots for lines of the words.
    pub slots: Slots,
}

/// An element: the place of its other coordinates, and the two.
#[derive(Clone, Copy)]
pub struct Pair {
    /// The place of the other coordinates in row-major order.
    pub outer: u64,
    /// The first coordinate.
    pub first: u64,
    /// The second coordinate.
    pub second: u64,
}

/// The triangles of a tensor, with so many words for lines.
pub fn triangles_of(shape: &Shape, s: &Symmetry, room: usize) -> Triangles
    requires right { AreRight shape.now.extents s.now }
    requires some { 32 ≤ room }
    ensures triangles { AreTriangles result }
    ensures same { AreOf shape.now.extents s.now result }
    ensures count { result.count ≡ stored_count shape.now.extents s.now }
    ensures room { HasRoom result.slots.grid.layout result.slots.grid room }
{
    let extent = shape.extents()[s.first as usize];
    let count = stored_count(shape, s);
    let pairs = pairs(s.negated, extent);
    let others = shape.elements() / (extent * extent);
    let mut slots = slots_of(shape, s, count, room);
    slots.grid = grid_within(slots.grid, others, pairs, are_across(shape, s), room);
    Triangles {
        negated: s.negated,
        extent,
        pairs,
        others,
        count,
        slots,
    }
}
