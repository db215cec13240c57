//! The loops of one block, over windows of one list of words.
ghost use Rattle.std.specs.Prelude.{◌≡◌, length};
ghost use Rattle.tce_exec.specs.Loops.{AreLoops, IsWindowWithin, AreWindowsApart, IsResultWindow, HasGrown, HasGrownByProducts, IsComputed, AreProductsJoined};
ghost use Rattle.tce_exec.specs.Nests.{IsNest};
ghost use Rattle.tce_exec.specs.Sequences.{IsLoopSequence, ArePuts, AreProducts, AreFilled, FitWindows};

use crate::nest::{fill_pair_loops, fill_sum_loops, have_lens};
use crate::sequence::LoopSequence;
use crate::still::fill_moving_loops;
use crate::window::Window;
use tce_space::Arithmetic;
use tce_words::Words;

/// The loops of a block: their indexes, and how many numbers each index has in it.
#[derive(Clone, Copy)]
pub struct BlockLoops<'a> {
    pub indexes: &'a [u8],
    pub lens: &'a [u64],
}

/// Where the words of two operands stand.
#[derive(Clone, Copy)]
pub struct OperandWindows<'a> {
    pub left: &'a Window,
    pub right: &'a Window,
}

/// Adds in each turn of the loops the operand's word to the result's.
///
/// The loops run in the given sequence, so that the result must not lie
/// among the operand's words.
pub fn grow(
    words: &mut Words,
    sequence: &mut LoopSequence,
    loops: &BlockLoops,
    out: &Window,
    operand: &Window,
)
    requires sequence { IsLoopSequence loops.now.indexes.now sequence.old }
    requires loops { AreLoops loops.now.indexes.now loops.now.lens.now }
    requires out { IsWindowWithin (length words.old) loops.now.indexes.now loops.now.lens.now
        out.now }
    requires operand { IsWindowWithin (length words.old) loops.now.indexes.now loops.now.lens.now
        operand.now }
    requires apart { AreWindowsApart loops.now.indexes.now loops.now.lens.now out.now operand.now }
    ensures sequence { IsLoopSequence loops.now.indexes.now sequence.new }
    ensures made { HasGrown loops.now.indexes.now loops.now.lens.now out.now operand.now words.old
        words.new }
{
    sequence.begin(loops.indexes, loops.lens);
    let count = sequence.axes.len();
    fill_sum_loops(sequence.axes.as_slice(), out, operand, &mut sequence.sums);
    tce_block::grow(words, &sequence.sums[..count], out.first, operand.first);
}

/// Adds in each turn of the loops the product of the operands' words to the result's.
///
/// The loops run in the given sequence, so that the result must not lie
/// among the operands' words.
pub fn grow_by_products(
    words: &mut Words,
    sequence: &mut LoopSequence,
    loops: &BlockLoops,
    out: &Window,
    operands: &OperandWindows,
)
    requires sequence { IsLoopSequence loops.now.indexes.now sequence.old }
    requires loops { AreLoops loops.now.indexes.now loops.now.lens.now }
    requires out { IsWindowWithin (length words.old) loops.now.indexes.now loops.now.lens.now
        out.now }
    requires left { IsWindowWithin (length words.old) loops.now.indexes.now loops.now.lens.now
        operands.now.left.now }
    requires right { IsWindowWithin (length words.old) loops.now.indexes.now loops.now.lens.now
        operands.now.right.now }
    requires apart_from_left { AreWindowsApart loops.now.indexes.now loops.now.lens.now out.now
        operands.now.left.now }
    requires apart_from_right { AreWindowsApart loops.now.indexes.now loops.now.lens.now out.now
        operands.now.right.now }
    ensures sequence { IsLoopSequence loops.now.indexes.now sequence.new }
    ensures made { HasGrownByProducts loops.now.indexes.now loops.now.lens.now out.now
        operands.now.left.now
        operands.now.right.now
        words.old words.new }
{
    sequence.begin(loops.indexes, loops.lens);
    fill_pair_loops(
        sequence.axes.as_slice(),
        out,
        operands.left,
        operands.right,
        &mut sequence.pairs,
    );
    grow_filled(words, sequence, loops, out, operands);
}

// Adds the products by the loops that stand there.
#[inline]
fn grow_filled(
    words: &mut Words,
    sequence: &LoopSequence,
    _loops: &BlockLoops,
    out: &Window,
    operands: &OperandWindows,
)
    requires nest { IsNest _loops.now.indexes.now _loops.now.lens.now sequence.now.axes.items }
    requires products { AreProducts out.now operands.now.left.now operands.now.right.now
        sequence.now }
    requires loops { AreLoops _loops.now.indexes.now _loops.now.lens.now }
    requires out { IsWindowWithin (length words.old) _loops.now.indexes.now _loops.now.lens.now
        out.now }
    requires left { IsWindowWithin (length words.old) _loops.now.indexes.now _loops.now.lens.now
        operands.now.left.now }
    requires right { IsWindowWithin (length words.old) _loops.now.indexes.now _loops.now.lens.now
        operands.now.right.now }
    requires apart_from_left { AreWindowsApart _loops.now.indexes.now _loops.now.lens.now out.now
        operands.now.left.now }
    requires apart_from_right { AreWindowsApart _loops.now.indexes.now _loops.now.lens.now out.now
        operands.now.right.now }
    ensures { HasGrownByProducts _loops.now.indexes.now _loops.now.lens.now out.now
        operands.now.left.now
        operands.now.right.now
        words.old words.new }
{
    let count = sequence.axes.len();
    tce_block::grow_by_products(
        words,
        &sequence.pairs[..count],
        out.first,
        operands.left.first,
        operands.right.first,
    );
}

/// Sets in each turn of the loops the result's word to what the operation makes of the operands' words.
///
/// The loops run in the given sequence, so that the result must not lie
/// among the operands' words. Where several turns set one word, the last of them
/// in each loop counts, whatever the sequence; the others are left out.
pub fn compute(
    words: &mut Words,
    operation: Arithmetic,
    sequence: &mut LoopSequence,
    loops: &BlockLoops,
    out: &Window,
    operands: &OperandWindows,
)
    requires sequence { IsLoopSequence loops.now.indexes.now sequence.old }
    requires loops { AreLoops loops.now.indexes.now loops.now.lens.now }
    requires out { IsWindowWithin (length words.old) loops.now.indexes.now loops.now.lens.now
        out.now }
    requires left { IsWindowWithin (length words.old) loops.now.indexes.now loops.now.lens.now
        operands.now.left.now }
    requires right { IsWindowWithin (length words.old) loops.now.indexes.now loops.now.lens.now
        operands.now.right.now }
    requires apart_from_left { AreWindowsApart loops.now.indexes.now loops.now.lens.now out.now
        operands.now.left.now }
    requires apart_from_right { AreWindowsApart loops.now.indexes.now loops.now.lens.now out.now
        operands.now.right.now }
    ensures sequence { IsLoopSequence loops.now.indexes.now sequence.new }
    ensures made { IsComputed operation loops.now.indexes.now loops.now.lens.now out.now
        operands.now.left.now
        operands.now.right.now
        words.old words.new }
{
    sequence.begin(loops.indexes, loops.lens);
    fill_puts(words, sequence, loops, out, operands);
    compute_filled(words, operation, sequence, loops, out, operands);
}

// Finds the loops along which the place of the result moves, where the loops have their numbers.
fn fill_puts(
    words: &Words,
    sequence: &mut LoopSequence,
    _loops: &BlockLoops,
    out: &Window,
    operands: &OperandWindows,
)
    requires nest { IsNest _loops.now.indexes.now _loops.now.lens.now sequence.old.axes.items }
    requires loops { AreLoops _loops.now.indexes.now _loops.now.lens.now }
    requires left { IsWindowWithin (length words.now) _loops.now.indexes.now _loops.now.lens.now
        operands.now.left.now }
    requires right { IsWindowWithin (length words.now) _loops.now.indexes.now _loops.now.lens.now
        operands.now.right.now }
    ensures axes { sequence.new.axes ≡ sequence.old.axes }
    ensures puts { ArePuts out.now operands.now.left.now operands.now.right.now sequence.new }
{
    // The length's limit keeps the places within a word.
    let _count = words.len();
    let axes = sequence.axes.as_slice();
    sequence.moving = fill_moving_loops(axes, out, operands, &mut sequence.puts);
}

// Sets the results by the loops that stand there.
#[inline]
fn compute_filled(
    words: &mut Words,
    operation: Arithmetic,
    sequence: &LoopSequence,
    _loops: &BlockLoops,
    out: &Window,
    operands: &OperandWindows,
)
    requires nest { IsNest _loops.now.indexes.now _loops.now.lens.now sequence.now.axes.items }
    requires puts { ArePuts out.now operands.now.left.now operands.now.right.now sequence.now }
    requires loops { AreLoops _loops.now.indexes.now _loops.now.lens.now }
    requires out { IsWindowWithin (length words.old) _loops.now.indexes.now _loops.now.lens.now
        out.now }
    requires left { IsWindowWithin (length words.old) _loops.now.indexes.now _loops.now.lens.now
        operands.now.left.now }
    requires right { IsWindowWithin (length words.old) _loops.now.indexes.now _loops.now.lens.now
        operands.now.right.now }
    requires apart_from_left { AreWindowsApart _loops.now.indexes.now _loops.now.lens.now out.now
        operands.now.left.now }
    requires apart_from_right { AreWindowsApart _loops.now.indexes.now _loops.now.lens.now out.now
        operands.now.right.now }
    ensures { IsComputed operation _loops.now.indexes.now _loops.now.lens.now out.now
        operands.now.left.now
        operands.now.right.now
        words.old words.new }
{
    // The length's limit keeps the places within a word.
    let _count = words.len();
    let moving = sequence.moving;
    tce_block::compute(
        words,
        operation,
        &sequence.puts[..moving.count],
        out.first,
        operands.left.first + moving.left,
        operands.right.first + moving.right,
    );
}

/// Sets in each turn of the loops the word of `own` to the product of the operands' words, and after that adds in each turn
/// this product to the result's word.
///
/// It leaves what `compute` and `grow_by_products` leave one after the other. The windows have the steps of those of the call
/// before, if that has filled the sequence's loops: they are filled anew only where a loop has another number of turns.
pub fn compute_and_grow(
    words: &mut Words,
    sequence: &mut LoopSequence,
    loops: &BlockLoops,
    own: &Window,
    out: &Window,
    operands: &OperandWindows,
)
    requires sequence { IsLoopSequence loops.now.indexes.now sequence.old }
    requires fit { FitWindows own.now out.now operands.now.left.now operands.now.right.now
        sequence.old }
    requires loops { AreLoops loops.now.indexes.now loops.now.lens.now }
    requires own { IsResultWindow (length words.old) loops.now.indexes.now loops.now.lens.now
        own.now
        operands.now.left.now
        operands.now.right.now }
    requires out { IsResultWindow (length words.old) loops.now.indexes.now loops.now.lens.now
        out.now
        operands.now.left.now
        operands.now.right.now }
    requires left { IsWindowWithin (length words.old) loops.now.indexes.now loops.now.lens.now
        operands.now.left.now }
    requires right { IsWindowWithin (length words.old) loops.now.indexes.now loops.now.lens.now
        operands.now.right.now }
    ensures sequence { IsLoopSequence loops.now.indexes.now sequence.new }
    ensures fit { FitWindows own.now out.now operands.now.left.now operands.now.right.now
        sequence.new }
    ensures made { AreProductsJoined loops.now.indexes.now loops.now.lens.now own.now out.now
        operands.now.left.now
        operands.now.right.now
        words.old words.new }
{
    refill(words, sequence, loops, own, out, operands);
    compute_filled(words, Arithmetic::Multiply, sequence, loops, own, operands);
    // All words are below 2^64 where the products are put.
    let _len = words.len();
    grow_filled(words, sequence, loops, out, operands);
}

// Has the loops that put and that add products stand there: those of the call before, where they have the same numbers.
#[inline]
fn refill(
    words: &Words,
    sequence: &mut LoopSequence,
    loops: &BlockLoops,
    own: &Window,
    out: &Window,
    operands: &OperandWindows,
)
    requires sequence { IsLoopSequence loops.now.indexes.now sequence.old }
    requires fit { FitWindows own.now out.now operands.now.left.now operands.now.right.now
        sequence.old }
    requires loops { AreLoops loops.now.indexes.now loops.now.lens.now }
    requires left { IsWindowWithin (length words.now) loops.now.indexes.now loops.now.lens.now
        operands.now.left.now }
    requires right { IsWindowWithin (length words.now) loops.now.indexes.now loops.now.lens.now
        operands.now.right.now }
    ensures sequence { IsLoopSequence loops.now.indexes.now sequence.new }
    ensures nest { IsNest loops.now.indexes.now loops.now.lens.now sequence.new.axes.items }
    ensures filled { AreFilled own.now out.now operands.now.left.now operands.now.right.now
        sequence.new }
{
    if sequence.filled && have_lens(sequence.axes.as_slice(), loops.indexes, loops.lens) {
        return;
    }
    fill(words, sequence, loops, own, out, operands);
}

// Fills the loops that put and that add products.
#[inline(never)]
fn fill(
    words: &Words,
    sequence: &mut LoopSequence,
    loops: &BlockLoops,
    own: &Window,
    out: &Window,
    operands: &OperandWindows,
)
    requires sequence { IsLoopSequence loops.now.indexes.now sequence.old }
    requires loops { AreLoops loops.now.indexes.now loops.now.lens.now }
    requires left { IsWindowWithin (length words.now) loops.now.indexes.now loops.now.lens.now
        operands.now.left.now }
    requires right { IsWindowWithin (length words.now) loops.now.indexes.now loops.now.lens.now
        operands.now.right.now }
    ensures sequence { IsLoopSequence loops.now.indexes.now sequence.new }
    ensures nest { IsNest loops.now.indexes.now loops.now.lens.now sequence.new.axes.items }
    ensures filled { AreFilled own.now out.now operands.now.left.now operands.now.right.now
        sequence.new }
{
    sequence.begin(loops.indexes, loops.lens);
    fill_puts(words, sequence, loops, own, operands);
    let axes = sequence.axes.as_slice();
    fill_pair_loops(
        axes,
        out,
        operands.left,
        operands.right,
        &mut sequence.pairs,
    );
    sequence.filled = true;
}
