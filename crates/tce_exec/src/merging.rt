// Which loops of a block run as one row.
ghost use Rattle.std.specs.Prelude.{◌≡◌, ◌*◌, ◌<◌, drop, length, slice_index, All, IsTrue};
ghost use Rattle.tce_space.specs.Box.{product};
ghost use Rattle.tce_space.specs.Limits.{max_indexes};
ghost use Rattle.tce_exec.specs.MergedRows.{IsSourceAlike, IsLinkAlike, AreAlike};

use crate::body::BodyBlock;
use crate::links::{Link, Source};
use crate::window::Window;

/// From which loop on the loops of a block run as one row, and how many turns that has.
#[derive(Clone, Copy)]
pub(crate) struct Row {
    pub depth: usize,
    pub count: u64,
}

// Two neighbouring loops: their indexes, and how many numbers the inner one has.
#[derive(Clone, Copy)]
struct Neighbours {
    outer: usize,
    inner: usize,
    count: u64,
}

// Whether the outer loop steps as far as all numbers of the inner one.
#[inline]
fn is_window_alike(window: &Window, loops: Neighbours) -> bool
    requires outer { loops.outer < max_indexes }
    requires inner { loops.inner < max_indexes }
    ensures { IsTrue result → slice_index window.now.steps loops.outer
        ≡ loops.count * slice_index window.now.steps loops.inner }
{
    match loops.count.checked_mul(window.steps[loops.inner]) {
        Some(far) => window.steps[loops.outer] == far,
        None => false,
    }
}

#[inline]
fn is_source_alike(source: &Source, loops: Neighbours) -> bool
    requires outer { loops.outer < max_indexes }
    requires inner { loops.inner < max_indexes }
    ensures { IsTrue result → IsSourceAlike loops.outer loops.inner loops.count source.now }
{
    match source {
        Source::Number(_) => true,
        Source::Words(window) => is_window_alike(window, loops),
    }
}

// Whether all windows of a link do.
#[inline]
fn is_link_alike(link: &Link, loops: Neighbours) -> bool
    requires outer { loops.outer < max_indexes }
    requires inner { loops.inner < max_indexes }
    ensures { IsTrue result → IsLinkAlike loops.outer loops.inner loops.count link.now }
{
    is_source_alike(&link.left, loops)
        && is_source_alike(&link.right, loops)
        && is_window_alike(&link.out, loops)
}

// Whether those of all links do.
fn are_links_alike(links: &[Link], loops: Neighbours) -> bool
    requires outer { loops.outer < max_indexes }
    requires inner { loops.inner < max_indexes }
    ensures { IsTrue result → All (IsLinkAlike loops.outer loops.inner loops.count) links.now }
{
    for link in links {
        if !is_link_alike(link, loops) {
            return false;
        }
    }
    true
}

/// The longest row with which the loops of a block end, where those from some loop on are one row.
pub(crate) fn longest_row(at: &BodyBlock, links: &[Link], row: Row) -> Row
    requires known { All (λ i. i < max_indexes) at.now.loops.now }
    requires each { length at.now.len.now ≡ length at.now.loops.now }
    requires depth { row.depth < length at.now.loops.now }
    requires alike { AreAlike at.now row.depth links.now }
    requires count { row.count ≡ product (drop row.depth at.now.len.now) }
    ensures depth { result.depth < length at.now.loops.now }
    ensures alike { AreAlike at.now result.depth links.now }
    ensures count { result.count ≡ product (drop result.depth at.now.len.now) }
{
    if row.depth == 0 {
        return row;
    }
    let depth = row.depth - 1;
    let loops = Neighbours {
        outer: at.loops[depth] as usize,
        inner: at.loops[row.depth] as usize,
        count: at.len[row.depth],
    };
    if !are_links_alike(links, loops) {
        return row;
    }
    match at.len[depth].checked_mul(row.count) {
        Some(count) => longest_row(at, links, Row { depth, count }),
        None => row,
    }
}
