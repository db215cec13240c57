// Whether the tables of a plan cover all steps.
ghost use Rattle.std.specs.Prelude.{◌≡◌, ◌+◌, ◌-◌, ◌<◌, MatchOption, length};
ghost use Rattle.tce_tree.specs.ContractionTree.{operations};
ghost use Rattle.tce_tree.specs.Measure.{IsMeasured};
ghost use Rattle.tce_fusion.specs.Cover.{NodesCovered};
ghost use Rattle.tce_nesting.specs.Plan.{RowsFit};
ghost use Rattle.tce_check.specs.First.{IsFirst};
ghost use Rattle.tce_check.specs.Verdict.{CoversAt, FailsAt};

use crate::bound::bound_of;
use crate::groups::{Entry, Groups};
use crate::operands::{leaf_row, left_rows, right_rows};
use crate::parts::{PARTS, PartCost};
use crate::reach::fill_reaches;
use crate::steps::{Kept, Node, Step};
use crate::uppers::{SINGLES, slots_for};
use std::alloc::Global;
use tce_nesting::{Tables, choices, stretches_of};
use tce_space::Space;
use tce_tree::Tree;

// The first step at a node for which none of its rows stands; none at the root.
fn first_uncovered_at(
    space: &Space,
    tree: &Tree,
    tables: &Tables,
    kept: &mut Kept,
    hints: &mut [u32],
    v: u8,
) -> Option<Step>
    requires measured { IsMeasured space.now tree.now }
    requires lists { length tables.now + 1 ≡ operations tree.now }
    requires rows { RowsFit tree.now tables.now }
    requires inside { v + 1 < operations tree.now }
    ensures { MatchOption result (CoversAt space.now tree.now tables.now v)
        (λ step. FailsAt space.now tree.now tables.now step.fused step.state v) }
{
    let parent = tree.parent(v)?;
    let leaf = [leaf_row()];
    let outer = tree.loops(parent);
    let list = choices(space, tree, v);
    let choices = list.as_slice();
    let rows = tables.rows(v);
    let stretches = stretches_of(choices);
    let bound = bound_of(rows, outer);
    kept.groups.fill(rows, outer);
    fill_reaches(kept.reaches, rows, choices, tree.loops(v), outer, bound);
    let node = Node {
        space,
        tree,
        number: v,
        outer,
        choices,
        stretches: &stretches,
        rows,
        kept,
        bound,
    };
    node.first_uncovered(
        left_rows(tree, tables, v, &leaf),
        right_rows(tree, tables, v, &leaf),
        hints,
    )
}

// How many rows a table has at least whose rows go by groups.
const MANY: usize = 250;

// How many rows the largest table has.
fn most_rows(tables: &Tables) -> usize {
    let mut most = 0;
    for v in 0..tables.lists() {
        most = most.max(tables.rows(v).len());
    }
    most
}

// The least node whose rows do not cover the steps at it, with the first of these.
pub(crate) fn first_uncovered_node(
    space: &Space,
    tree: &Tree,
    tables: &Tables,
) -> Option<(u8, Step)>
    requires measured { IsMeasured space.now tree.now }
    requires lists { length tables.now + 1 ≡ operations tree.now }
    requires rows { RowsFit tree.now tables.now }
    ensures { MatchOption result (NodesCovered space.now tree.now tables.now)
        (λ found. IsFirst (operations tree.now - 1) (CoversAt space.now tree.now tables.now)
        (FailsAt space.now tree.now tables.now found.1.fused found.1.state) found.0) }
{
    let most = most_rows(tables);
    if MANY <= most {
        return first_uncovered_of_many(space, tree, tables, most);
    }
    let mut kept = Kept {
        groups: Groups {
            ends: &mut [],
            entries: &mut [],
            singles: &mut [],
            are_filled: false,
        },
        reaches: &mut [],
    };
    first_uncovered_of(space, tree, tables, &mut kept, &mut [])
}

// So many copies of a value, and none where memory is wanting.
fn copies<T: Copy>(alloc: Global, value: T, count: usize) -> Vec<T> {
    match vec![in alloc; value; count] {
        Ok(all) => all,
        Err(_) => Vec::new(alloc),
    }
}

// The same, where the rows go by groups, at most so many rows at a node. What has no room is empty, and then more rows are asked.
fn first_uncovered_of_many(
    space: &Space,
    tree: &Tree,
    tables: &Tables,
    most: usize,
) -> Option<(u8, Step)>
    requires measured { IsMeasured space.now tree.now }
    requires lists { length tables.now + 1 ≡ operations tree.now }
    requires rows { RowsFit tree.now tables.now }
    ensures { MatchOption result (NodesCovered space.now tree.now tables.now)
        (λ found. IsFirst (operations tree.now - 1) (CoversAt space.now tree.now tables.now)
        (FailsAt space.now tree.now tables.now found.1.fused found.1.state) found.0) }
{
    let alloc = tables.allocator();
    let mut ends = copies(alloc, 0, slots_for(most / 2));
    let mut entries = copies(alloc, Entry::default(), most);
    let mut hints = copies(alloc, 0, slots_for(most.saturating_mul(4)));
    let mut singles = copies(alloc, 0, SINGLES);
    let mut reaches = copies(alloc, PartCost::none(), PARTS);
    let mut kept = Kept {
        groups: Groups {
            ends: ends.as_mut_slice(),
            entries: entries.as_mut_slice(),
            singles: singles.as_mut_slice(),
            are_filled: false,
        },
        reaches: reaches.as_mut_slice(),
    };
    first_uncovered_of(space, tree, tables, &mut kept, hints.as_mut_slice())
}

// The same, with what is kept of a node, and the hints that are kept from state to state.
fn first_uncovered_of(
    space: &Space,
    tree: &Tree,
    tables: &Tables,
    kept: &mut Kept,
    hints: &mut [u32],
) -> Option<(u8, Step)>
    requires measured { IsMeasured space.now tree.now }
    requires lists { length tables.now + 1 ≡ operations tree.now }
    requires rows { RowsFit tree.now tables.now }
    ensures { MatchOption result (NodesCovered space.now tree.now tables.now)
        (λ found. IsFirst (operations tree.now - 1) (CoversAt space.now tree.now tables.now)
        (FailsAt space.now tree.now tables.now found.1.fused found.1.state) found.0) }
{
    for v in 0..tree.count() - 1 {
        if let Some(step) = first_uncovered_at(space, tree, tables, kept, hints, v) {
            return Some((v, step));
        }
    }
    None
}
