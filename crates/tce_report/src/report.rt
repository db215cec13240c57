// The texts that report a plan.
ghost use Rattle.std.specs.Prelude.{◌≡◌, ◌++◌, OnOk, IfOk};
ghost use Rattle.tce_tree.specs.WellFormed.{IsDeclaredTree};
ghost use Rattle.tce_nesting.specs.Plan.{PlanFits};
ghost use Rattle.tce_report.specs.Report as reports;

use crate::node_lines::node_line;
use std::alloc::{AllocError, Global};
use tce_nesting::Plan;
use tce_space::{FileName, Space};
use tce_tree::Tree;

// Appends the lines of all nodes in order.
fn push_node_lines(
    text: &mut Vec<u8>,
    space: &Space,
    tree: &Tree,
    plan: &Plan,
) -> Result<(), AllocError>
    requires declared { IsDeclaredTree space.now tree.now }
    requires fits { PlanFits tree.now plan.now }
    ensures { OnOk result (text.new.items
        ≡ text.old.items ++ reports.plan_lines space.now tree.now plan.now) }
{
    for v in 0..tree.count() {
        text.extend_from_slice(node_line(space, tree, plan, v).as_str().as_bytes())?;
        text.push(b'\n')?;
    }
    Ok(())
}

// A head line, the lines of all nodes, and an end.
fn text_between(
    alloc: Global,
    head: &[u8],
    space: &Space,
    tree: &Tree,
    plan: &Plan,
    end: &str,
) -> Result<Vec<u8>, AllocError>
    requires declared { IsDeclaredTree space.now tree.now }
    requires fits { PlanFits tree.now plan.now }
    ensures { IfOk result (λ text. text.items
        ≡ head.now ++ (reports.plan_lines space.now tree.now plan.now ++ end.now)) }
{
    let mut text = Vec::new(alloc);
    text.extend_from_slice(head)?;
    push_node_lines(&mut text, space, tree, plan)?;
    text.extend_from_slice(end.as_bytes())?;
    Ok(text)
}

/// The report of a plan that fits the tree: a head line, the lines of all nodes, and the memory, in elements.
pub fn plan_text(
    alloc: Global,
    space: &Space,
    tree: &Tree,
    plan: &Plan,
) -> Result<Vec<u8>, AllocError>
    requires declared { IsDeclaredTree space.now tree.now }
    requires fits { PlanFits tree.now plan.now }
    ensures { IfOk result (λ text. text.items ≡ reports.plan_report space.now tree.now plan.now) }
{
    let end = format!(in alloc; "memory {}\n", plan.memory)?;
    let text = text_between(alloc, b"tce plan 1\n", space, tree, plan, end.as_str());
    drop(end);
    text
}

/// The report of a run by a plan that fits the tree: a head line, the lines of all nodes, the memory, in elements, the words that the run took for `tiles`, and the name and the length, in bytes, of the result's file.
pub fn run_text(
    alloc: Global,
    space: &Space,
    tree: &Tree,
    plan: &Plan,
    tiles: u64,
    file: &FileName,
    bytes: u64,
) -> Result<Vec<u8>, AllocError>
    requires declared { IsDeclaredTree space.now tree.now }
    requires fits { PlanFits tree.now plan.now }
    ensures { IfOk result (λ text. text.items
        ≡ reports.run_report space.now tree.now plan.now tiles file.now.bytes bytes) }
{
    let end = format!(in alloc;
        "memory {}\ntiles {tiles}\nwrote {file} {bytes}\n",
        plan.memory
    )?;
    let text = text_between(alloc, b"tce run 1\n", space, tree, plan, end.as_str());
    drop(end);
    text
}
