// The text of a certificate.
ghost use Rattle.std.specs.Prelude.{◌≡◌, ◌<◌, ◌≤◌, ◌++◌, All, OnOk, IfOk};
ghost use Rattle.std.specs.List.{flat_map};
ghost use Rattle.tce_space.specs.Space.{IsDeclared};
ghost use Rattle.tce_tree.specs.WellFormed.{IsDeclaredTree};
ghost use Rattle.tce_nesting.specs.Plan.{PlanFits};
ghost use Rattle.tce_cert.specs.Lines.{classes_text};
ghost use Rattle.tce_cert.specs.Laws.{IsNestingRow, RowsAreNestings};
ghost use Rattle.tce_cert.specs.Certificate.{certificate, with_nodes, with_tables, with_rows, with_row, AreDeclaredRows, AreDeclaredTables};

use crate::names::push_set;
use std::alloc::{AllocError, Global};
use tce_nesting::{Plan, Row, Tables};
use tce_report::node_line;
use tce_space::{IndexSet, Space};
use tce_tree::Tree;

/// The certificate of a plan that fits the tree: a head line, the lines of all nodes, the memory, in elements, and for each node but the root the number of its rows and a line for each row.
pub fn write_cert(
    alloc: Global,
    space: &Space,
    tree: &Tree,
    plan: &Plan,
) -> Result<Vec<u8>, AllocError>
    requires declared { IsDeclaredTree space.now tree.now }
    requires fits { PlanFits tree.now plan.now }
    ensures text { IfOk result (λ text. text.items ≡ certificate space.now tree.now plan.now) }
    ensures nestings { OnOk result (RowsAreNestings plan.now.tables) }
{
    let _declared = space.index_count();
    let mut text = Vec::new(alloc);
    text.extend_from_slice(b"tce certificate 1\n")?;
    push_nodes(&mut text, space, tree, plan)?;
    let memory = format!(in alloc; "memory {}\n", plan.memory)?;
    text.extend_from_slice(memory.as_str().as_bytes())?;
    push_tables(alloc, &mut text, space, &plan.tables)?;
    text.extend_from_slice(b"end\n")?;
    Ok(text)
}

// Appends the lines of all nodes in order.
fn push_nodes(text: &mut Vec<u8>, space: &Space, tree: &Tree, plan: &Plan) -> Result<(), AllocError>
    requires declared { IsDeclaredTree space.now tree.now }
    requires fits { PlanFits tree.now plan.now }
    ensures { OnOk result (text.new.items ≡ with_nodes text.old.items space.now tree.now plan.now) }
{
    for v in 0..tree.count() {
        text.extend_from_slice(node_line(space, tree, plan, v).as_str().as_bytes())?;
        text.push(b'\n')?;
    }
    Ok(())
}

// Appends the tables of all nodes but the root, in order.
fn push_tables(
    alloc: Global,
    text: &mut Vec<u8>,
    space: &Space,
    tables: &Tables,
) -> Result<(), AllocError>
    requires { AreDeclaredTables space.now tables.now }
    ensures text { OnOk result (text.new.items ≡ with_tables text.old.items space.now tables.now) }
    ensures nestings { OnOk result (RowsAreNestings tables.now) }
{
    for v in 0..tables.lists() {
        let rows = tables.rows(v);
        let head = format!(in alloc; "table {v} {}\n", rows.len())?;
        text.extend_from_slice(head.as_str().as_bytes())?;
        push_rows(alloc, text, space, rows)?;
    }
    Ok(())
}

// Appends a line for each row.
fn push_rows(
    alloc: Global,
    text: &mut Vec<u8>,
    space: &Space,
    rows: &[Row],
) -> Result<(), AllocError>
    requires { AreDeclaredRows space.now rows.now }
    ensures text { OnOk result (text.new.items ≡ with_rows text.old.items space.now rows.now) }
    ensures nestings { OnOk result (All IsNestingRow rows.now) }
{
    for row in rows {
        push_row(alloc, text, space, row)?;
    }
    Ok(())
}

// Appends the line of a row with its line feed.
fn push_row(alloc: Global, text: &mut Vec<u8>, space: &Space, row: &Row) -> Result<(), AllocError>
    requires { All (IsDeclared space.now) row.now.classes }
    ensures text { OnOk result (text.new.items ≡ with_row text.old.items space.now row.now) }
    ensures nesting { OnOk result (IsNestingRow row.now) }
{
    let head = format!(in alloc; "row {} ", row.cost)?;
    text.extend_from_slice(head.as_str().as_bytes())?;
    push_classes(text, space, row.classes.classes())?;
    text.push(b'\n')?;
    Ok(())
}

// Appends the classes with `/` between them, or `-` where there are none.
fn push_classes(text: &mut Vec<u8>, space: &Space, classes: &[IndexSet]) -> Result<(), AllocError>
    requires { All (IsDeclared space.now) classes.now }
    ensures { OnOk result (text.new.items ≡ text.old.items ++ classes_text space.now classes.now) }
{
    let Some((first, rest)) = classes.split_first() else {
        text.push(b'-')?;
        return Ok(());
    };
    push_set(text, space, *first)?;
    for class in rest {
        text.push(b'/')?;
        push_set(text, space, *class)?;
    }
    Ok(())
}
