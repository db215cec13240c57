// Tables: the rows of each node.
ghost use Rattle.std.specs.Prelude.{◌≡◌, ◌↔◌, ℕ, ◌+◌, ◌<◌, ◌≤◌, [], ◌∷◌, ◌++◌, length, replicate, slice_set, IsTrue, IfOk, OnOk, OnErr, All};
ghost use Rattle.tce_fusion.specs.Row.{rows_at};
ghost use Rattle.tce_tree.specs.ContractionTree.{operations, node_dims};
ghost use Rattle.tce_nesting.specs.Plan.{RowFits, RowsFit};

use crate::row::Row;
use std::alloc::{AllocError, Global};
use std::marker::Model;
use tce_space::IndexSet;
use tce_tree::Tree;

/// Lists of rows, at most 31, one for each node but the root, by the node's number.
#[derive(Drop)]
pub struct Tables {
    lists: Vec<Vec<Row>>,
}

impl Model for Tables {
    ghost use Rattle.std.specs.Prelude.{List, map, length, ◌≤◌};
    ghost use Rattle.tce_fusion.specs.Row as states;

    ghost Value = { List (List states.Row) };

    ghost view = { λ t. map (λ list. list.items) t.lists.items };

    ghost invariant = { λ t. length t.lists.items ≤ 31 };
}

impl Tables {
    /// That many empty lists.
    pub fn new(alloc: Global, lists: u8) -> Result<Tables, AllocError>
        requires { lists ≤ 31 }
        ensures { IfOk result (λ tables. tables ≡ replicate lists []) }
    {
        let mut all = Vec::with_capacity(alloc, lists as usize)?;
        for _ in 0..lists {
            all.push(Vec::new(alloc))?;
        }
        Ok(Tables { lists: all })
    }

    /// Appends a row to the list of node `v`. Where memory is wanting nothing changes.
    pub fn push(&mut self, v: u8, row: Row) -> Result<(), AllocError>
        requires { v < length self.old }
        ensures added { OnOk result (self.new ≡ slice_set self.old v (rows_at self.old v ++ row ∷ [])) }
        ensures unchanged { OnErr result (self.new ≡ self.old) }
    {
        self.lists[v as usize].push(row)?;
        Ok(())
    }

    /// Where the lists lie, so that whoever reads them can keep as many notes of them.
    pub fn allocator(&self) -> Global {
        *self.lists.allocator()
    }

    /// How many lists there are.
    pub fn lists(&self) -> u8
        ensures value { result ≡ length self.now }
        ensures limit { result ≤ 31 }
    {
        self.lists.len() as u8
    }

    /// The rows of node `v`.
    pub fn rows(&self, v: u8) -> &[Row]
        requires { v < length self.now }
        ensures { result.now ≡ rows_at self.now v }
    {
        self.lists[v as usize].as_slice()
    }

    // Whether all rows fit their nodes.
    pub(crate) fn fit(&self, tree: &Tree) -> bool
        requires { length self.now + 1 ≡ operations tree.now }
        ensures { IsTrue result ↔ RowsFit tree.now self.now }
    {
        for v in 0..self.lists() {
            if !rows_fit(self.rows(v), tree.dims(v)) {
                return false;
            }
        }
        true
    }
}

// Whether all rows of a node with these dims fit.
fn rows_fit(rows: &[Row], dims: IndexSet) -> bool
    ensures { IsTrue result ↔ All (RowFits dims) rows.now }
{
    rows.iter().all(|row| row.fits(dims))
}
