// The line of a node in reports and certificates.
ghost use Rattle.std.specs.Prelude.{◌≡◌, ◌<◌, ◌≤◌, ◌+◌, ◌++◌, length, All};
ghost use Rattle.std.specs.Fmt.{decimal};
ghost use Rattle.tce_space.specs.Limits.{cost_limit, max_loops, max_nodes};
ghost use Rattle.tce_space.specs.IndexSet.{members, count};
ghost use Rattle.tce_tree.specs.ContractionTree.{operations};
ghost use Rattle.tce_tree.specs.Fusion.{fused_at, order_at};
ghost use Rattle.tce_tree.specs.Orders.{lists_of};
ghost use Rattle.tce_tree.specs.WellFormed.{IsDeclaredTree};
ghost use Rattle.tce_nesting.specs.Plan.{PlanFits};
ghost use Rattle.tce_report.specs.NodeLine as lines;

use crate::name_lists::push_names;
use arrayvec::ArrayString;
use tce_fields::{decimal_text, members_of};
use tce_nesting::Plan;
use tce_space::{IndexSet, Space};
use tce_tree::{Kind, Tree};

pub(crate) type Line = ArrayString<512>;

fn kind_word(kind: Kind) -> &'static str
    ensures word { result.now ≡ lines.kind_word kind }
    ensures short { length result.now ≤ 7 }
{
    match kind {
        Kind::Product => "product",
        Kind::Sum => "sum",
        Kind::Add => "add",
        Kind::Sub => "sub",
    }
}

// Appends a number in decimal, without leading zeros.
fn push_decimal(line: &mut Line, number: u128)
    requires { length line.old.bytes + length (decimal number) ≤ 512 }
    ensures { line.new.bytes ≡ line.old.bytes ++ decimal number }
{
    line.push_str(decimal_text(number).as_str());
}

// A node, what it computes, and its loops, outermost first.
fn loops_text(space: &Space, v: u8, kind: Kind, order: &[u8]) -> Line
    requires inside { v < max_nodes }
    requires declared { All (λ i. i < length space.now.indexes) order.now }
    requires few { length order.now ≤ max_loops }
    ensures text { result.bytes ≡ lines.loops_text space.now v kind order.now }
    ensures length { length result.bytes ≤ 193 }
{
    let mut line = ArrayString::new();
    line.push_str("node ");
    push_decimal(&mut line, v as u128);
    line.push_str(" ");
    line.push_str(kind_word(kind));
    line.push_str(" loops ");
    push_names(&mut line, space, order);
    line
}

// What is fused on the edge to the parent, and how many elements the node's array then has.
fn push_array(line: &mut Line, space: &Space, fused: IndexSet, size: u128)
    requires declared { All (λ i. i < length space.now.indexes) (members fused) }
    requires few { count fused ≤ max_loops }
    requires small { size < cost_limit }
    requires room { length line.old.bytes ≤ 193 }
    ensures { line.new.bytes ≡ line.old.bytes ++ lines.fused_text space.now fused size }
{
    line.push_str(" fused ");
    push_names(line, space, members_of(fused).as_slice());
    line.push_str(" size ");
    push_decimal(line, size);
}

/// The line of node `v` of a plan that fits the tree, without a line feed: its number, what it computes and its loops, and then `result` at the root and elsewhere the indexes that are fused on the edge to its parent and the size of its array, in elements.
pub fn node_line(space: &Space, tree: &Tree, plan: &Plan, v: u8) -> ArrayString<512>
    requires declared { IsDeclaredTree space.now tree.now }
    requires fits { PlanFits tree.now plan.now }
    requires inside { v < operations tree.now }
    ensures { result.bytes ≡ lines.node_line space.now tree.now (lines.stated plan.now) v }
{
    let count = tree.count();
    let _declared = space.index_count();
    let mut line = loops_text(space, v, tree.kind(v), order_of(plan, v));
    if v + 1 == count {
        line.push_str(" result");
    } else {
        push_array(&mut line, space, fused_of(plan, v), plan.sizes[v as usize]);
    }
    line
}

fn order_of(plan: &Plan, v: u8) -> &[u8]
    requires { v < length plan.now.orders.0.items }
    ensures value { result.now ≡ order_at (lists_of plan.now.orders.0.items) v }
    ensures few { length result.now ≤ max_loops }
{
    plan.orders.0[v as usize].0.as_slice()
}

fn fused_of(plan: &Plan, v: u8) -> IndexSet
    requires { v < length plan.now.fusion.0.items }
    ensures { result ≡ fused_at plan.now.fusion.0.items v }
{
    plan.fusion.0[v as usize]
}
