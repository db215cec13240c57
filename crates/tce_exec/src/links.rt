// The windows of the operations of a body.
ghost use Rattle.std.specs.Prelude.{◌≡◌, ◌+◌, ◌*◌, ◌<◌, ◌≤◌, ◌^◌, ℕ, [], length, All, IfOk, OnOk, IsErr};
ghost use Rattle.tce_tree.specs.ContractionTree.{operations};
ghost use Rattle.tce_tree.specs.declared.node.Operand.TheVariants.{Node};
ghost use Rattle.tce_walk.specs.Machine.{IsNodeAt};
ghost use Rattle.tce_exec.specs.Bodies.{node_of_op, IsOperationAt};
ghost use Rattle.tce_exec.specs.Evaluations.{places_of};
ghost use Rattle.tce_exec.specs.Links.{IsSource, IsTarget, IsLink, AreLinks, KeepsMore};
ghost use Rattle.tce_exec.specs.TileCounts.{tile_count_of_operand, tile_count_of_place, tile_count_of_node, tile_count};
ghost use Rattle.tce_exec.specs.Operands.{IsReadable};
ghost use Rattle.tce_exec.specs.Positions.{IsPosition, numbers_of};
ghost use Rattle.tce_exec.specs.Prepared.{IsPrepared};
ghost use Rattle.tce_exec.specs.Storages.{work_of, setting_of, Reads, Upholds};

use crate::evaluation::Evaluation;
use crate::operand_windows::{node_window, operand_window, place_window};
use crate::position::Position;
use crate::steps::{set_operand_steps, set_place_steps};
use crate::storage::Storage;
use crate::window::Window;
use arrayvec::ArrayVec;
use tce_code::Op;
use tce_outside::{Disk, Failed};
use tce_space::MAX_INDEXES;
use tce_tree::{Kind, Operand};

/// As many operations of one body run over windows.
pub(crate) const MAX_LINKS: usize = 8;

/// Where the words of an operand come from.
#[derive(Clone, Copy)]
pub(crate) enum Source {
    Number(u64),
    Words(Window),
}

/// What one operation of a body reads, and where it puts its words. A sum has its own words on the right.
#[derive(Clone, Copy)]
pub(crate) struct Link {
    pub kind: Kind,
    pub left: Source,
    pub right: Source,
    pub out: Window,
}

impl Default for Link {
    /// A link that means nothing yet.
    fn default() -> Link {
        Link {
            kind: Kind::Product,
            left: Source::Number(0),
            right: Source::Number(0),
            out: blank(),
        }
    }
}

/// The node that an operation names.
pub(crate) fn node_of(op: Op) -> u8
    ensures { result ≡ node_of_op op }
{
    match op {
        Op::Open(v) | Op::Clear(v) | Op::Mul(v) | Op::Add(v) | Op::Sub(v) | Op::Acc(v) => v,
        Op::Close => 0,
    }
}

// How many tiles the word of an operand takes.
fn tiles_of_operand(operand: &Operand) -> usize
    ensures { result ≡ tile_count_of_operand operand.now }
{
    match operand {
        Operand::Leaf(_) => 1,
        Operand::Constant(_) | Operand::Node(_) => 0,
    }
}

// How many tiles the operation of a node touches: one for each tensor that it reads, and that of the result for the root.
fn tiles_of_node(evaluation: &Evaluation, v: u8) -> usize
    requires { v < operations evaluation.now.tree.now }
    ensures { result ≡ tile_count_of_node evaluation.now.tree.now v }
{
    let count = evaluation.tree.count();
    let left = tiles_of_operand(evaluation.tree.left(v));
    let right = match evaluation.tree.right(v) {
        Some(operand) => tiles_of_operand(operand),
        None => 0,
    };
    left + right + usize::from(v + 1 == count)
}

/// How many tiles the operations of a body touch in a block.
pub(crate) fn tiles_of(evaluation: &Evaluation, ops: &[Op]) -> usize
    requires known { All (λ op. node_of_op op < operations evaluation.now.tree.now) ops.now }
    requires few { length ops.now ≤ 8 }
    ensures { result ≡ tile_count evaluation.now.tree.now ops.now }
{
    let mut tiles = 0;
    for op in ops {
        tiles += tiles_of_node(evaluation, node_of(*op));
    }
    tiles
}

// A window that means nothing yet.
fn blank() -> Window {
    Window {
        first: 0,
        steps: [0; MAX_INDEXES],
    }
}

// Finds where the words of an operand come from. The tile of a tensor is touched.
fn find_source<D: Disk>(
    evaluation: &Evaluation,
    store: &mut Storage<'_, D>,
    operand: &Operand,
    first: &Position,
) -> Result<Source, Failed>
    requires prepared { IsPrepared (work_of D.files evaluation.now store.old) }
    requires position { IsPosition evaluation.now.space.now first.now }
    requires readable { IsReadable (work_of D.files evaluation.now store.old) operand.now (numbers_of first.now) }
    requires inner { (u : ℕ) → operand.now ≡ Node u → u + 1 < operations evaluation.now.tree.now }
    requires few { store.old.cache.now.touches + 1 ≤ 2 ^ 100 }
    ensures source { IfOk result (IsSource 1 (places_of evaluation.now) store.new.cache.now (numbers_of first.now) operand.now) }
    ensures last { OnOk result (KeepsMore (tile_count_of_operand operand.now) store.old.cache.now store.new.cache.now) }
    ensures read { OnOk result (Reads 1 D.files evaluation.now store.old store.new) }
    ensures upheld { Upholds D.files D.faults evaluation.now store.old store.new (IsErr result) }
{
    if let Operand::Constant(number) = operand {
        let word = *number;
        return Ok(Source::Number(word));
    }
    let mut window = blank();
    set_operand_steps(evaluation, store.cache, operand, &mut window);
    // A node's slot is found without a touch.
    if let Operand::Node(v) = operand {
        node_window(evaluation, store.words, *v, first, &mut window);
        return Ok(Source::Words(window));
    }
    operand_window(evaluation, store, operand, first, &mut window)?;
    Ok(Source::Words(window))
}

// Finds where the words of a node's places stand. For the root a tile of the result is touched for writing.
fn find_target<D: Disk>(
    evaluation: &Evaluation,
    store: &mut Storage<'_, D>,
    v: u8,
    first: &Position,
) -> Result<Window, Failed>
    requires prepared { IsPrepared (work_of D.files evaluation.now store.old) }
    requires position { IsPosition evaluation.now.space.now first.now }
    requires node { IsNodeAt (setting_of D.files evaluation.now store.old) v (numbers_of first.now) }
    requires few { store.old.cache.now.touches + 1 ≤ 2 ^ 100 }
    ensures target { IfOk result (IsTarget 1 (places_of evaluation.now) store.new.cache.now
        evaluation.now.result.now.tensor (numbers_of first.now) v) }
    ensures last { OnOk result (KeepsMore (tile_count_of_place evaluation.now.tree.now v) store.old.cache.now store.new.cache.now) }
    ensures read { OnOk result (Reads 1 D.files evaluation.now store.old store.new) }
    ensures upheld { Upholds D.files D.faults evaluation.now store.old store.new (IsErr result) }
{
    let count = evaluation.tree.count();
    let mut window = blank();
    set_place_steps(evaluation, store.cache, v, &mut window);
    if v + 1 != count {
        node_window(evaluation, store.words, v, first, &mut window);
        return Ok(window);
    }
    place_window(evaluation, store, v, first, &mut window)?;
    Ok(window)
}

// Finds the windows of the operation of a node, with at most three touches.
fn find_link<D: Disk>(
    evaluation: &Evaluation,
    store: &mut Storage<'_, D>,
    v: u8,
    first: &Position,
) -> Result<Link, Failed>
    requires prepared { IsPrepared (work_of D.files evaluation.now store.old) }
    requires position { IsPosition evaluation.now.space.now first.now }
    requires node { IsNodeAt (setting_of D.files evaluation.now store.old) v (numbers_of first.now) }
    requires few { store.old.cache.now.touches + 3 ≤ 2 ^ 100 }
    ensures link { IfOk result (IsLink (tile_count_of_node evaluation.now.tree.now v) (places_of evaluation.now) store.new.cache.now
        evaluation.now.result.now.tensor (numbers_of first.now) v) }
    ensures last { OnOk result (KeepsMore (tile_count_of_node evaluation.now.tree.now v) store.old.cache.now store.new.cache.now) }
    ensures read { OnOk result (Reads 3 D.files evaluation.now store.old store.new) }
    ensures upheld { Upholds D.files D.faults evaluation.now store.old store.new (IsErr result) }
{
    let _nodes = evaluation.tree.count();
    let kind = evaluation.tree.kind(v);
    let operand = evaluation.tree.left(v);
    let left = find_source(evaluation, store, operand, first)?;
    match evaluation.tree.right(v) {
        Some(second) => {
            let right = find_source(evaluation, store, second, first)?;
            let out = find_target(evaluation, store, v, first)?;
            Ok(Link {
                kind,
                left,
                right,
                out,
            })
        }
        None => {
            let out = find_target(evaluation, store, v, first)?;
            let right = Source::Words(out);
            Ok(Link {
                kind,
                left,
                right,
                out,
            })
        }
    }
}

/// Finds the windows of the operations of a body, at the first numbers of a block. There is a frame for each tile that is
/// touched, so that all of them stay.
pub(crate) fn find_links<D: Disk>(
    evaluation: &Evaluation,
    store: &mut Storage<'_, D>,
    ops: &[Op],
    first: &Position,
    links: &mut ArrayVec<Link, MAX_LINKS>,
) -> Result<(), Failed>
    requires prepared { IsPrepared (work_of D.files evaluation.now store.old) }
    requires position { IsPosition evaluation.now.space.now first.now }
    requires ops { All (IsOperationAt (setting_of D.files evaluation.now store.old) (numbers_of first.now)) ops.now }
    requires frames { tile_count evaluation.now.tree.now ops.now ≤ store.old.cache.now.frames }
    requires room { length ops.now ≤ 8 }
    requires empty { links.old.items ≡ [] }
    requires few { store.old.cache.now.touches + 3 * length ops.now ≤ 2 ^ 100 }
    ensures links { OnOk result (AreLinks (3 * length ops.now) (places_of evaluation.now) store.new.cache.now
        evaluation.now.result.now.tensor (numbers_of first.now) ops.now links.new.items) }
    ensures read { OnOk result (Reads (3 * length ops.now) D.files evaluation.now store.old store.new) }
    ensures upheld { Upholds D.files D.faults evaluation.now store.old store.new (IsErr result) }
{
    let _nodes = evaluation.tree.count();
    for op in ops {
        let link = find_link(evaluation, store, node_of(*op), first)?;
        links.push(link);
    }
    Ok(())
}
