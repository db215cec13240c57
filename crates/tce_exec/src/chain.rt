// The blocks of a body over the windows of its operations.
ghost use Rattle.std.specs.Prelude.{◌≡◌, ◌+◌, ◌*◌, ◌<◌, ◌≤◌, length, slice_index};
ghost use Rattle.tce_exec.specs.Bodies.{after_from, touches_from, IsBodyFrom};
ghost use Rattle.tce_exec.specs.Evaluations.{places_of};
ghost use Rattle.tce_exec.specs.Links.{AreLinks, IsAtFirst};
ghost use Rattle.tce_exec.specs.MergedRows.{IsRow};
ghost use Rattle.tce_exec.specs.Prepared.{IsPrepared};
ghost use Rattle.tce_exec.specs.Storages.{work_of, IsSame, Keeps, Changes};

use crate::body::BodyBlock;
use crate::evaluation::Evaluation;
use crate::links::Link;
use crate::merging::Row;
use crate::row::{Step, advance, run_row, withdraw};
use crate::storage::Storage;
use tce_outside::Disk;
use tce_space::Numbers;

/// A block whose last loops run as one row.
#[derive(Clone, Copy)]
pub(crate) struct RowBlock<'a> {
    pub at: BodyBlock<'a>,
    pub row: Row,
}

// Runs the loops that are one row over windows that begin at these numbers.
fn turn_row<D: Disk>(
    evaluation: &Evaluation,
    store: &mut Storage<'_, D>,
    rows: &RowBlock,
    links: &[Link],
    _numbers: &Numbers,
)
    requires prepared { IsPrepared (work_of D.files evaluation.now store.old) }
    requires row { IsRow rows.now links.now }
    requires body { IsBodyFrom D.files evaluation.now store.old rows.now.at rows.now.row.depth _numbers.now }
    requires links { AreLinks (3 * length rows.now.at.ops.now) (places_of evaluation.now) store.old.cache.now
        evaluation.now.result.now.tensor (slice_index _numbers.now) rows.now.at.ops.now links.now }
    requires begun { IsAtFirst evaluation.now.space.now rows.now.at rows.now.row.depth _numbers.now }
    ensures changed { Changes (after_from D.files evaluation.now store.old rows.now.at rows.now.row.depth _numbers.now)
        (touches_from rows.now.at rows.now.row.depth) D.files evaluation.now store.old store.new }
    ensures kept { Keeps D.files evaluation.now store.old store.new }
    ensures cache { store.new.cache.now ≡ store.old.cache.now }
    ensures disk { store.new.disk.now ≡ store.old.disk.now }
    ensures same { IsSame store.old store.new }
{
    // The limits of spaces, trees and words.
    let _indexes = evaluation.space.index_count();
    let _nodes = evaluation.tree.count();
    let _len = store.words.len();
    let loops = rows.at.loops;
    let index = loops[loops.len() - 1] as usize;
    run_row(store.words, links, index, rows.row.count);
}

/// Runs the loops of a block from one of them on over windows that begin at these numbers, at which those loops have their
/// first ones. From turn to turn the windows go on by the steps of the loop that moves.
pub(crate) fn turn_loops<D: Disk>(
    evaluation: &Evaluation,
    store: &mut Storage<'_, D>,
    rows: &RowBlock,
    links: &mut [Link],
    depth: usize,
    numbers: &mut Numbers,
)
    requires depth { depth ≤ rows.now.row.depth }
    requires prepared { IsPrepared (work_of D.files evaluation.now store.old) }
    requires row { IsRow rows.now links.old }
    requires body { IsBodyFrom D.files evaluation.now store.old rows.now.at depth numbers.old }
    requires links { AreLinks (3 * length rows.now.at.ops.now) (places_of evaluation.now) store.old.cache.now
        evaluation.now.result.now.tensor (slice_index numbers.old) rows.now.at.ops.now links.old }
    requires begun { IsAtFirst evaluation.now.space.now rows.now.at depth numbers.old }
    ensures changed { Changes (after_from D.files evaluation.now store.old rows.now.at depth numbers.old)
        (touches_from rows.now.at depth) D.files evaluation.now store.old store.new }
    ensures links { links.new ≡ links.old }
    ensures numbers { numbers.new ≡ numbers.old }
    ensures kept { Keeps D.files evaluation.now store.old store.new }
    ensures cache { store.new.cache.now ≡ store.old.cache.now }
    ensures disk { store.new.disk.now ≡ store.old.disk.now }
    ensures same { IsSame store.old store.new }
{
    // The limits of spaces, trees and words.
    let _indexes = evaluation.space.index_count();
    let _nodes = evaluation.tree.count();
    let _len = store.words.len();
    if depth == rows.row.depth {
        turn_row(evaluation, store, rows, links, numbers);
        return;
    }
    let index = rows.at.loops[depth] as usize;
    let first = rows.at.from[depth];
    let count = rows.at.len[depth];
    let before = numbers[index];
    for x in 0..count {
        numbers[index] = first + x;
        // The first turn is that at which the windows begin.
        advance(
            links,
            Step {
                index,
                by: x.min(1),
            },
        );
        turn_loops(evaluation, store, rows, links, depth + 1, numbers);
    }
    withdraw(
        links,
        Step {
            index,
            by: count - 1,
        },
    );
    numbers[index] = before;
}
