// The lines of a certificate that are due, each read at its place.
ghost use Rattle.std.specs.Prelude.{◌≡◌, ◌↔◌, ◌<◌, ◌++◌, [], ◌∷◌, IsTrue, IfErr, IfOk, OnOk};
ghost use Rattle.tce_tree.specs.ContractionTree.{operations};
ghost use Rattle.tce_tree.specs.WellFormed.{IsDeclaredTree};
ghost use Rattle.tce_report.specs.NodeForm as nodes;
ghost use Rattle.tce_cert.specs.Lines.{end_line};
ghost use Rattle.tce_cert.specs.Faults.{opening, node, memory, table, row, ending, IsFaultOf};
ghost use Rattle.tce_cert.specs.Cursors.{ReadsOpening, ReadsNode, ReadsMemory, ReadsTable, ReadsRow, IsFaultAt, IsFaultOfRest};

use crate::cursor::Cursor;
use crate::fault::CertFault;
use crate::forms::{has_form, is_end_line, is_opening_line, read_memory_line, read_table_line};
use crate::rows::read_row_line;
use tce_nesting::Row;
use tce_report::{LineFault, NodeLine, read_node_line};
use tce_space::Space;
use tce_tree::Tree;

// Whether a line has one of the forms of node lines.
fn has_node_form(space: &Space, tree: &Tree, line: &[u8]) -> bool
    requires { IsDeclaredTree space.now tree.now }
    ensures { IsTrue result ↔ nodes.HasForm line.now }
{
    let _declared = space.index_count();
    let _count = tree.count();
    match read_node_line(space, tree, 0, line) {
        Ok(_) => true,
        Err(LineFault::WrongTree) => true,
        Err(LineFault::BadText) => false,
    }
}

// The fault of a line that is not the one due.
fn fault_of(space: &Space, tree: &Tree, line: &[u8], number: u64) -> CertFault
    requires { IsDeclaredTree space.now tree.now }
    ensures { IsFaultOf line.now number result }
{
    if has_form(line) || has_node_form(space, tree, line) {
        CertFault::WrongTree(number)
    } else {
        CertFault::BadText(number)
    }
}

// Reads the first line.
pub(crate) fn read_opening<'a>(
    space: &Space,
    tree: &Tree,
    from: Cursor<'a>,
) -> Result<Cursor<'a>, CertFault>
    requires { IsDeclaredTree space.now tree.now }
    ensures ok { IfOk result (ReadsOpening from.entry) }
    ensures err { IfErr result (IsFaultAt space.now tree.now opening from.entry) }
{
    let (line, to) = from.line()?;
    if is_opening_line(line) {
        Ok(to)
    } else {
        Err(fault_of(space, tree, line, from.number))
    }
}

// Reads the line of node `v`.
pub(crate) fn read_node<'a>(
    space: &Space,
    tree: &Tree,
    v: u8,
    from: Cursor<'a>,
) -> Result<(NodeLine, Cursor<'a>), CertFault>
    requires declared { IsDeclaredTree space.now tree.now }
    requires inside { v < operations tree.now }
    ensures ok { IfOk result (ReadsNode space.now tree.now v from.entry) }
    ensures err { IfErr result (IsFaultAt space.now tree.now (node v) from.entry) }
{
    let (line, to) = from.line()?;
    match read_node_line(space, tree, v, line) {
        Ok(read) => Ok((read, to)),
        Err(_) => Err(fault_of(space, tree, line, from.number)),
    }
}

// Reads the memory.
pub(crate) fn read_memory<'a>(
    space: &Space,
    tree: &Tree,
    from: Cursor<'a>,
) -> Result<(u128, Cursor<'a>), CertFault>
    requires { IsDeclaredTree space.now tree.now }
    ensures ok { IfOk result (ReadsMemory from.entry) }
    ensures err { IfErr result (IsFaultAt space.now tree.now memory from.entry) }
{
    let (line, to) = from.line()?;
    match read_memory_line(line) {
        Some(total) => Ok((total, to)),
        None => Err(fault_of(space, tree, line, from.number)),
    }
}

// Reads the head of the table of node `v`, which states how many rows are due.
pub(crate) fn read_table<'a>(
    space: &Space,
    tree: &Tree,
    v: u8,
    from: Cursor<'a>,
) -> Result<(u128, Cursor<'a>), CertFault>
    requires { IsDeclaredTree space.now tree.now }
    ensures ok { IfOk result (ReadsTable v from.entry) }
    ensures err { IfErr result (IsFaultAt space.now tree.now (table v) from.entry) }
{
    let (line, to) = from.line()?;
    let Some((of_node, rows)) = read_table_line(line) else {
        return Err(fault_of(space, tree, line, from.number));
    };
    if of_node != v as u128 {
        return Err(fault_of(space, tree, line, from.number));
    }
    Ok((rows, to))
}

// Reads a row of node `v`.
pub(crate) fn read_row<'a>(
    space: &Space,
    tree: &Tree,
    v: u8,
    from: Cursor<'a>,
) -> Result<(Row, Cursor<'a>), CertFault>
    requires declared { IsDeclaredTree space.now tree.now }
    requires inside { v < operations tree.now }
    ensures ok { IfOk result (ReadsRow space.now tree.now v from.entry) }
    ensures err { IfErr result (IsFaultAt space.now tree.now (row v) from.entry) }
{
    let (line, to) = from.line()?;
    let _declared = space.index_count();
    match read_row_line(space, tree.dims(v), line) {
        Some(read) => Ok((read, to)),
        None => Err(fault_of(space, tree, line, from.number)),
    }
}

// Reads the last line, behind which nothing stands.
pub(crate) fn read_end(space: &Space, tree: &Tree, from: Cursor<'_>) -> Result<(), CertFault>
    requires { IsDeclaredTree space.now tree.now }
    ensures ok { OnOk result (from.entry.rest.now ≡ end_line ++ 10 ∷ []) }
    ensures err { IfErr result (IsFaultOfRest space.now tree.now (ending ∷ []) from.entry) }
{
    let (line, to) = from.line()?;
    if !is_end_line(line) {
        return Err(fault_of(space, tree, line, from.number));
    }
    if to.rest.is_empty() {
        return Ok(());
    }
    let (behind, _) = to.line()?;
    Err(fault_of(space, tree, behind, to.number))
}
