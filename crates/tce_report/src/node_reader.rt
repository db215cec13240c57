// What a node line says of a node of a tree.
ghost use Rattle.std.specs.Prelude.{◌≡◌, ◌<◌, ◌≤◌, ◌↔◌, IsTrue, length, option_map};
ghost use Rattle.std.specs.List.{list_all};
ghost use Rattle.tce_space.specs.Limits.{max_indexes, max_loops};
ghost use Rattle.tce_space.specs.Name.{is_name};
ghost use Rattle.tce_tree.specs.ContractionTree.{operations};
ghost use Rattle.tce_tree.specs.WellFormed.{IsDeclaredTree};
ghost use Rattle.tce_fields.specs.Reading.{GivesExactly, texts};
ghost use Rattle.tce_report.specs.FormCode.{form};
ghost use Rattle.tce_report.specs.NodeForm.{IsForm, HasForm};
ghost use Rattle.tce_report.specs.NodeLine.{Says};
ghost use Rattle.tce_report.specs.ReadLine.{said, said_if_read, DoesNotFit, IsFusedNamed, IsOrderNamed, IsWrongTree, WrittenSays};

use crate::node_form::{WrittenLine, read_form};
use tce_fields::{indexes_named, set_named};
use tce_space::{IndexSet, LoopOrder, MAX_LOOPS, Space};
use tce_tree::{Tree, is_order_of};

/// What the line of a node says of it.
#[derive(Drop)]
pub struct NodeLine {
    /// The loops of the node, outermost first.
    pub order: LoopOrder,
    /// The indexes that are fused on the edge to the parent; none at the root.
    pub fused: IndexSet,
    /// The size of the node's array, in elements; 0 at the root.
    pub size: u128,
}

/// Why a line is none of a node.
#[derive(Clone, Copy)]
pub enum LineFault {
    /// The line has neither of the two forms of a node line.
    BadText,
    /// The line has a form, and does not fit the node of the tree.
    WrongTree,
}

// The order of the loops with these names.
fn read_order(space: &Space, loops: IndexSet, names: &[&[u8]]) -> Option<LoopOrder>
    requires named { IsTrue (list_all is_name (texts names.now)) }
    requires few { length names.now ≤ max_loops }
    ensures { GivesExactly (option_map (λ order. order.0.items) result)
        (IsOrderNamed space.now loops (texts names.now)) }
{
    let Some(order) = indexes_named::<MAX_LOOPS>(space, names) else {
        return None;
    };
    if is_order_of(order.as_slice(), loops) {
        Some(LoopOrder(order))
    } else {
        None
    }
}

// The set of the dims with these names.
fn read_fused(space: &Space, dims: IndexSet, names: &[&[u8]]) -> Option<IndexSet>
    requires named { IsTrue (list_all is_name (texts names.now)) }
    requires few { length names.now ≤ max_indexes }
    ensures { GivesExactly result (IsFusedNamed space.now dims (texts names.now)) }
{
    let Some(fused) = set_named(space, names) else {
        return None;
    };
    if fused.within(dims) {
        Some(fused)
    } else {
        None
    }
}

// What the written line says, where it fits the node.
fn read_written(space: &Space, tree: &Tree, v: u8, line: &WrittenLine<'_>) -> Option<NodeLine>
    requires declared { IsDeclaredTree space.now tree.now }
    requires inside { v < operations tree.now }
    requires form { IsForm (form line.now) }
    ensures { GivesExactly (option_map said result) (WrittenSays space.now tree.now v line.now) }
{
    let _declared = space.index_count();
    let is_root = tree.count() == v + 1;
    if line.node != v as u128 || line.kind != tree.kind(v) {
        return None;
    }
    let Some(order) = read_order(space, tree.loops(v), line.order.as_slice()) else {
        return None;
    };
    match &line.array {
        None if is_root => Some(NodeLine {
            order,
            fused: IndexSet::empty(),
            size: 0,
        }),
        Some(array) if !is_root => {
            let Some(fused) = read_fused(space, tree.dims(v), array.fused.as_slice()) else {
                return None;
            };
            Some(NodeLine {
                order,
                fused,
                size: array.size,
            })
        }
        _ => None,
    }
}

/// Reads the line of node `v`, without its line feed.
///
/// A node line is `node V KIND loops ORDER fused SET size SIZE`, or `node V KIND loops ORDER result`, with one space
/// between words: V and SIZE are numbers below 2^96 without leading zeros, KIND is `product`, `sum`, `add` or `sub`,
/// ORDER has at most 10 names and SET at most 24, with commas between them, or is `-`. Every other line is `BadText`.
/// A line with a form is `WrongTree` where V or KIND is not the node's, `result` does not stand exactly at the root, a
/// name is not declared, ORDER is no permutation of the node's loops, or SET is not within the node's dims, in order of
/// declaration and without repeats.
pub fn read_node_line(space: &Space, tree: &Tree, v: u8, line: &[u8]) -> Result<NodeLine, LineFault>
    requires declared { IsDeclaredTree space.now tree.now }
    requires inside { v < operations tree.now }
    ensures read { GivesExactly (said_if_read result) (Says space.now tree.now v line.now) }
    ensures bad_text { (result ≡ Err LineFault.BadText) ↔ ¬ HasForm line.now }
    ensures wrong_tree { IsWrongTree result ↔ DoesNotFit space.now tree.now v line.now }
{
    let _declared = space.index_count();
    let _count = tree.count();
    let Some(written) = read_form(line) else {
        return Err(LineFault::BadText);
    };
    match read_written(space, tree, v, &written) {
        Some(said) => Ok(said),
        None => Err(LineFault::WrongTree),
    }
}
