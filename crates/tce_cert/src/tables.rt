// The tables of a certificate.
ghost use Rattle.std.specs.Prelude.{◌≡◌, ◌≢◌, ◌+◌, ◌-◌, ◌<◌, ◌++◌, List, length, map, replicate, IfErr, IfOk};
ghost use Rattle.std.specs.List.{range_with_len};
ghost use Rattle.tce_tree.specs.ContractionTree.{operations};
ghost use Rattle.tce_tree.specs.WellFormed.{IsDeclaredTree};
ghost use Rattle.tce_cert.specs.Faults.{Due, row, table, IsFaultIn};
ghost use Rattle.tce_cert.specs.Cursors.{AddsRows, KeepsRowFaults, ReadsAllTables, KeepsTableFaults};

use crate::cursor::Cursor;
use crate::due::{read_row, read_table};
use crate::fault::CertFault;
use std::alloc::Global;
use tce_nesting::Tables;
use tce_space::Space;
use tce_tree::Tree;

// Reads so many rows of node `v` into its table.
pub(crate) fn read_rows<'a>(
    space: &Space,
    tree: &Tree,
    v: u8,
    rows: u128,
    tables: &mut Tables,
    from: Cursor<'a>,
) -> Result<Cursor<'a>, CertFault>
    requires declared { IsDeclaredTree space.now tree.now }
    requires inside { v < operations tree.now }
    requires listed { v < length tables.old }
    ensures ok { IfOk result (AddsRows space.now tree.now v rows tables.old tables.new from.entry) }
    ensures on { IfOk result (KeepsRowFaults space.now tree.now v rows from.entry) }
    ensures err { IfErr result (λ fault. fault ≢ CertFault.Memory → (ds : List Due) →
        IsFaultIn space.now tree.now (replicate rows (row v) ++ ds) from.entry.number from.entry.rest.now fault) }
{
    let mut at = from;
    for _ in 0..rows {
        let (row, next) = read_row(space, tree, v, at)?;
        tables.push(v, row)?;
        at = next;
    }
    Ok(at)
}

// Reads the tables of all nodes but the root.
pub(crate) fn read_tables<'a>(
    alloc: Global,
    space: &Space,
    tree: &Tree,
    from: Cursor<'a>,
) -> Result<(Tables, Cursor<'a>), CertFault>
    requires { IsDeclaredTree space.now tree.now }
    ensures each { IfOk result (λ read. length read.0 + 1 ≡ operations tree.now) }
    ensures ok { IfOk result (ReadsAllTables space.now tree.now from.entry) }
    ensures on { IfOk result (λ read. KeepsTableFaults space.now tree.now from.entry read.1) }
    ensures err { IfErr result (λ fault. fault ≢ CertFault.Memory → (ds : List Due) →
        IsFaultIn space.now tree.now (map table (range_with_len 0 (operations tree.now - 1)) ++ ds) from.entry.number from.entry.rest.now fault) }
{
    let inner = tree.count() - 1;
    let mut tables = Tables::new(alloc, inner)?;
    let mut at = from;
    for v in 0..inner {
        let (rows, first) = read_table(space, tree, v, at)?;
        at = read_rows(space, tree, v, rows, &mut tables, first)?;
    }
    Ok((tables, at))
}
