// Whether no sum at the root is below the total.
ghost use Rattle.std.specs.Prelude.{◌≡◌, ℕ, ◌+◌, ◌-◌, ◌<◌, ◌≤◌, MatchOption, All, length};
ghost use Rattle.tce_space.specs.Limits.{cost_limit};
ghost use Rattle.tce_tree.specs.ContractionTree.{operations};
ghost use Rattle.tce_fusion.specs.Cover.{RootBelow};
ghost use Rattle.tce_nesting.specs.Plan.{RowsFit};
ghost use Rattle.tce_check.specs.First.{First, FirstPair};
ghost use Rattle.tce_check.specs.Verdict.{WhereJoined, IsBelow, FirstBelow};

use crate::joint::joint;
use crate::operands::{leaf_row, left_rows, right_rows};
use crate::sums::are_above;
use tce_nesting::{Row, Tables};
use tce_tree::Tree;

// The first sum at the root, by the left row and then by the right one, of rows without conflict that is below the total.
pub(crate) fn first_below(tree: &Tree, tables: &Tables, total: u128) -> Option<u128>
    requires lists { length tables.now + 1 ≡ operations tree.now }
    requires rows { RowsFit tree.now tables.now }
    ensures { MatchOption result (RootBelow tree.now tables.now total)
        (λ sum. FirstBelow tree.now tables.now total sum) }
{
    let root = tree.count() - 1;
    let leaf = [leaf_row()];
    let rights = right_rows(tree, tables, root, &leaf);
    let lefts = left_rows(tree, tables, root, &leaf);
    first_among(tree, root, lefts, rights, total, true)
}

// So many pairs are looked at one by one sooner than it is told that none need be.
const FEW: usize = 1_000_000;

// The same of the operands' rows. If there is such a sum and that is not known yet, `unknown` says so.
fn first_among(
    tree: &Tree,
    root: u8,
    lefts: &[Row],
    rights: &[Row],
    total: u128,
    unknown: bool,
) -> Option<u128>
    requires inside { root < operations tree.now }
    requires lefts { All (λ row. row.cost < cost_limit) lefts.now }
    requires rights { All (λ row. row.cost < cost_limit) rights.now }
    ensures { MatchOption result
        (All (λ left. All (WhereJoined tree.now root
        (λ l r. total ≤ l.cost + r.cost) left) rights.now) lefts.now)
        (λ sum. FirstPair (WhereJoined tree.now root
        (λ l r. total ≤ l.cost + r.cost)) (IsBelow tree.now root total sum) lefts.now rights.now) }
{
    if lefts.len() < 2 || lefts.len().saturating_mul(rights.len()) <= FEW {
        return first_below_of(tree, root, lefts, rights, total);
    }
    if unknown && are_above(lefts, rights, tree.loops(root), total) {
        return None;
    }
    let (front, back) = lefts.split_at(lefts.len() / 2);
    if let Some(sum) = first_among(tree, root, front, rights, total, true) {
        return Some(sum);
    }
    first_among(tree, root, back, rights, total, false)
}

// The same of so few rows that each pair is looked at.
fn first_below_of(tree: &Tree, root: u8, lefts: &[Row], rights: &[Row], total: u128) -> Option<u128>
    requires inside { root < operations tree.now }
    requires lefts { All (λ row. row.cost < cost_limit) lefts.now }
    requires rights { All (λ row. row.cost < cost_limit) rights.now }
    ensures { MatchOption result
        (All (λ left. All (WhereJoined tree.now root
        (λ l r. total ≤ l.cost + r.cost) left) rights.now) lefts.now)
        (λ sum. FirstPair (WhereJoined tree.now root
        (λ l r. total ≤ l.cost + r.cost)) (IsBelow tree.now root total sum) lefts.now rights.now) }
{
    for left in lefts {
        if let Some(sum) = first_below_with(tree, root, left, rights, total) {
            return Some(sum);
        }
    }
    None
}

// The first such sum with one left row, by the right row.
fn first_below_with(tree: &Tree, root: u8, left: &Row, rights: &[Row], total: u128) -> Option<u128>
    requires inside { root < operations tree.now }
    requires left { left.now.cost < cost_limit }
    requires rights { All (λ row. row.cost < cost_limit) rights.now }
    ensures { MatchOption result
        (All (WhereJoined tree.now root (λ l r. total ≤ l.cost + r.cost) left.now) rights.now)
        (λ sum. First (WhereJoined tree.now root
        (λ l r. total ≤ l.cost + r.cost) left.now) (IsBelow tree.now root total sum left.now)
        rights.now) }
{
    for right in rights {
        if let Some(sum) = sum_below(tree, root, left, right, total) {
            return Some(sum);
        }
    }
    None
}

// The sum of two rows, where they have no conflict and it is below the total.
fn sum_below(tree: &Tree, root: u8, left: &Row, right: &Row, total: u128) -> Option<u128>
    requires inside { root < operations tree.now }
    requires left { left.now.cost < cost_limit }
    requires right { right.now.cost < cost_limit }
    ensures { MatchOption result (WhereJoined tree.now root
        (λ l r. total ≤ l.cost + r.cost) left.now right.now)
        (λ sum. IsBelow tree.now root total sum left.now right.now) }
{
    let sum = left.cost + right.cost;
    if total <= sum {
        return None;
    }
    joint(left, right, tree.loops(root))?;
    Some(sum)
}
