// Which slots are for which lines: those of columns, the pairs with one second coordinate, and those of pieces of triangles.
ghost use Rattle.std.specs.Prelude.{◌≡◌, ◌+◌, ◌*◌, ◌<◌, ◌≤◌, length};
ghost use Rattle.tce_space.specs.Limits.{max_array_words};
ghost use Rattle.tce_sym.specs.Storage.{AreRight};
ghost use Rattle.tce_sym.specs.Lines.{IsGrid, HasRoom};

use crate::lines::{Grid, LONGEST_LINE, Layout, WINDOW};
use crate::symmetry::Symmetry;
use crate::walks::Region;
use tce_space::Shape;
use tce_tools::is_row_major;

// The slots for pieces.
const PIECES: u64 = 8192;

/// The slots for the lines. Slots of columns come first, then those of pieces.
#[derive(Clone, Copy)]
pub struct Slots {
    /// The room for the lines.
    pub grid: Grid,
    /// Those of columns.
    pub columns: Region,
    /// Those of pieces.
    pub pieces: Region,
    /// The slots from a column to that with the next place of the others.
    pub by_outer: u64,
    /// The slots from a column to the next.
    pub by_second: u64,
}

// A power of two that is no less than a number, or the highest one within a limit.
fn power_within(number: u64, limit: u64) -> u64
    requires { 0 < limit }
    ensures some { 0 < result }
    ensures within { result ≤ limit }
{
    let mut power = 1;
    while power < number && power <= limit / 2 {
        power *= 2;
    }
    power
}

// The power to which two is at most a number, up to 8.
fn shift_of(number: usize) -> u32
    ensures { result < 64 }
{
    let mut shift = 0;
    let mut size = 2;
    while shift < 8 && size <= number.min(LONGEST_LINE) {
        size *= 2;
        shift += 1;
    }
    shift
}

// The product of the numbers behind a position, up to the highest number.
fn product_behind(numbers: &[u64], position: usize) -> u64 {
    let mut product: u64 = 1;
    for d in 0..numbers.len() {
        if position < d {
            product = product.saturating_mul(numbers[d]);
        }
    }
    product
}

// The grid with so many slots, of lines that are no longer than is wanted.
fn grid_of(slots: usize, wanted: u64, count: u64, room: usize) -> Grid
    requires some { 0 < slots }
    requires room { 2 * (slots + 8) ≤ room }
    ensures grid { IsGrid result room }
    ensures last { result.last + 1 ≡ slots }
    ensures count { result.count ≡ count }
{
    let pitch = slots + 8;
    let fitting = (room / pitch).max(2) - 1;
    let line = power_within(wanted.min(LONGEST_LINE as u64), fitting as u64);
    Grid {
        layout: Layout::Lines,
        last: slots - 1,
        pitch,
        line: (line as usize).min(LONGEST_LINE),
        count,
        others: 0,
        pairs: 0,
    }
}

// The lines of columns of a shape that are used again before others come in their place: those of the array where there is
// room for them, and else those of a tile.
fn columns_of(shape: &Shape, s: &Symmetry, room: usize) -> (u64, u64, u64)
    requires { AreRight shape.now.extents s.now }
{
    let first = s.first as usize;
    let second = s.second as usize;
    let extents = shape.extents();
    let edges = shape.edges();
    let all = product_behind(extents, first);
    let reach = edges[first].saturating_add(8);
    if is_row_major(shape) || all.saturating_mul(reach) <= room as u64 {
        return (all, extents[second], LONGEST_LINE as u64);
    }
    (product_behind(edges, first), edges[second], edges[first])
}

// The slots for columns.
fn columns_from(columns: u64, by_second: u64) -> Region {
    Region {
        base: 0,
        mask: columns.saturating_sub(1),
        shift: 0,
        groups: 1,
        ahead: 0,
        unit: 1,
        next: by_second as usize,
        growth: 1,
    }
}

// The slots for pieces behind so many for columns: as many for each triangle as there is room for, up to so many triangles.
fn pieces_behind(grid: &Grid, columns: u64, pieces: u64, others: u64) -> Region
    requires { 0 < pieces }
{
    let groups = power_within(others, pieces);
    let ahead = pieces / groups;
    let line = grid.line.min(LONGEST_LINE) as u64;
    Region {
        base: columns,
        mask: groups - 1,
        shift: shift_of(grid.line),
        groups,
        ahead: (ahead.saturating_sub(1)).wrapping_mul(groups),
        unit: line * ahead.min(WINDOW as u64 / line.max(1)),
        next: groups as usize,
        growth: 0,
    }
}

// Rows of elements of one pair that are no longer are read as fast from all words one after the other.
const SHORT_ROW: u64 = 64;

/// Whether rows of elements are long, and their last dimension is none of the two: then those of a row are those of one
/// pair, and it is faster to have them side by side.
pub fn are_across(shape: &Shape, s: &Symmetry) -> bool
    requires right { AreRight shape.now.extents s.now }
{
    let extents = shape.extents();
    let last = extents.len() - 1;
    let row = if is_row_major(shape) {
        extents[last]
    } else {
        shape.edges()[last]
    };
    (s.second as usize) < last && row > SHORT_ROW
}

/// The grid for all words, where there is room for them, or else that for lines. Words of one pair stand side by side if they
/// are to be so.
pub fn grid_within(grid: Grid, others: u64, pairs: u64, across: bool, room: usize) -> Grid
    requires lines { IsGrid grid room }
    requires count { grid.count ≡ others * pairs }
    requires few { others ≤ max_array_words }
    ensures room { HasRoom result.layout result room }
    ensures count { result.count ≡ grid.count }
{
    let mut grid = grid;
    grid.layout = Layout::Lines;
    if across && pairs > 0 && others + 8 <= room as u64 / pairs {
        grid.layout = Layout::Across;
        grid.pitch = (others + 8) as usize;
        grid.others = others;
        grid.pairs = pairs;
        return grid;
    }
    if grid.count <= room as u64 {
        grid.layout = Layout::Whole;
    }
    grid
}

/// The slots for the lines of a tensor of which so many words are stored.
pub fn slots_of(shape: &Shape, s: &Symmetry, count: u64, room: usize) -> Slots
    requires right { AreRight shape.now.extents s.now }
    requires some { 32 ≤ room }
    ensures grid { IsGrid result.grid room }
    ensures count { result.grid.count ≡ count }
{
    let (behind, along, wanted) = columns_of(shape, s, room);
    let is_last = s.second as usize + 1 == shape.extents().len();
    let limit = (room as u64 / 64).max(1);
    let others = behind / along.max(1);
    let columns = power_within(behind, limit);
    let pieces = power_within(PIECES, limit);
    let grid = grid_of((columns + pieces) as usize, wanted, count, room);
    let by_second = if is_last { 1 } else { others };
    Slots {
        grid,
        columns: columns_from(columns, by_second),
        pieces: pieces_behind(&grid, columns, pieces, others),
        by_outer: if is_last { along } else { 1 },
        by_second,
    }
}
