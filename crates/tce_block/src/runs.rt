//! Single turns, and innermost loops.
ghost use Rattle.std.specs.Prelude.{◌≡◌, ◌↔◌, ◌+◌, ◌^◌, ◌<◌, ◌≤◌, IsTrue, length, [], ◌∷◌};
ghost use Rattle.tce_block.specs.Turns.{operate};
ghost use Rattle.tce_block.specs.Running.{CanRun, CanSum, IsLeftWithin, IsRightWithin, AreAdded, AreTurned, AreComputed};
ghost use Rattle.tce_block.specs.Rows.{AreFourWords, four_products, products_along};

use crate::loops::{Loop, SumLoop, Turn};
use tce_space::Arithmetic;
use tce_words::Words;

// From so many turns on a run of words pays for its call.
pub(crate) const LONG: u64 = 8;

pub(crate) fn grow_once(words: &mut Words, out: u64, operand: u64)
    requires out { out < length words.old }
    requires operand { operand < length words.old }
    ensures { AreAdded [] out operand words.old words.new }
{
    let word = words.get(out).wrapping_add(words.get(operand));
    words.put(out, word);
}

pub(crate) fn grow_along(words: &mut Words, along: SumLoop, out: u64, operand: u64)
    requires run { CanSum (length words.old) (along ∷ []) out operand }
    ensures { AreAdded (along ∷ []) out operand words.old words.new }
{
    if along.out == 0 {
        words.sum_run(out, operand, along.operand, along.len);
    } else {
        words.add_run(out, along.out, operand, along.operand, along.len);
    }
}

// The word that an operation gives.
fn result_of(operation: Arithmetic, left: u64, right: u64) -> u64
    ensures { result ≡ operate operation left right }
{
    match operation {
        Arithmetic::Multiply => left.wrapping_mul(right),
        Arithmetic::Add => left.wrapping_add(right),
        Arithmetic::Subtract => left.wrapping_sub(right),
    }
}

pub(crate) fn turn_once(words: &mut Words, turn: Turn, out: u64, left: u64, right: u64)
    requires out { out < length words.old }
    requires left { left < length words.old }
    requires right { right < length words.old }
    ensures { AreTurned turn [] out left right words.old words.new }
{
    let (left, right) = (words.get(left), words.get(right));
    let word = match turn {
        Turn::Grow => words.get(out).wrapping_add(left.wrapping_mul(right)),
        Turn::Compute(operation) => result_of(operation, left, right),
    };
    words.put(out, word);
}

// One loop. The short ones are made part of their rows, where a call would cost as much as the turns.
#[inline]
pub(crate) fn turn_along(
    words: &mut Words,
    turn: Turn,
    along: Loop,
    out: u64,
    left: u64,
    right: u64,
)
    requires limit { length words.old < 2 ^ 60 }
    requires run { CanRun (length words.old) (along ∷ []) out left right }
    ensures { AreTurned turn (along ∷ []) out left right words.old words.new }
{
    if along.len < LONG {
        turn_short(words, turn, along, out, left, right);
    } else {
        turn_long(words, turn, along, out, left, right);
    }
}

// The turns of a short loop.
#[inline]
fn turn_short(words: &mut Words, turn: Turn, along: Loop, out: u64, left: u64, right: u64)
    requires limit { length words.old < 2 ^ 60 }
    requires run { CanRun (length words.old) (along ∷ []) out left right }
    ensures { AreTurned turn (along ∷ []) out left right words.old words.new }
{
    match turn {
        Turn::Grow => grow_short(words, along, out, left, right),
        Turn::Compute(_) => turn_by_turn(words, turn, along, out, left, right),
    }
}

// The products in the turns of a short loop are added.
#[inline]
fn grow_short(words: &mut Words, along: Loop, out: u64, left: u64, right: u64)
    requires limit { length words.old < 2 ^ 60 }
    requires run { CanRun (length words.old) (along ∷ []) out left right }
    ensures { AreTurned Turn.Grow (along ∷ []) out left right words.old words.new }
{
    if along.out == 0 {
        grow_at_one(words, along, out, left, right);
    } else {
        turn_by_turn(words, Turn::Grow, along, out, left, right);
    }
}

// The turns of a long loop, by runs of words.
#[inline(never)]
fn turn_long(words: &mut Words, turn: Turn, along: Loop, out: u64, left: u64, right: u64)
    requires limit { length words.old < 2 ^ 60 }
    requires run { CanRun (length words.old) (along ∷ []) out left right }
    ensures { AreTurned turn (along ∷ []) out left right words.old words.new }
{
    if along.out == 0 {
        turns_at_one(words, turn, along, out, left, right);
    } else {
        turns_along(words, turn, along, out, left, right);
    }
}

// Whether both operands go on word by word for four turns, as in tiles with edges of 4.
pub(crate) fn are_four_words(along: Loop) -> bool
    ensures { IsTrue result ↔ AreFourWords along }
{
    along.len == 4 && along.left == 1 && along.right == 1
}

// A word and the products of four words each, without a loop.
#[inline]
pub(crate) fn grown_by_four(words: &Words, word: u64, left: u64, right: u64) -> u64
    requires limit { length words.now < 2 ^ 60 }
    requires left { left + 4 ≤ length words.now }
    requires right { right + 4 ≤ length words.now }
    ensures { result ≡ four_products words.now left right word }
{
    let a = words.get(left).wrapping_mul(words.get(right));
    let b = words.get(left + 1).wrapping_mul(words.get(right + 1));
    let c = words.get(left + 2).wrapping_mul(words.get(right + 2));
    let d = words.get(left + 3).wrapping_mul(words.get(right + 3));
    word.wrapping_add(a)
        .wrapping_add(b)
        .wrapping_add(c)
        .wrapping_add(d)
}

// A word and the products of the operands' words in the turns of a short loop.
#[inline]
fn grown_short(words: &Words, along: Loop, word: u64, left: u64, right: u64) -> u64
    requires limit { length words.now < 2 ^ 60 }
    requires left { IsLeftWithin (length words.now) (along ∷ []) left }
    requires right { IsRightWithin (length words.now) (along ∷ []) right }
    ensures { result ≡ products_along words.now along left right word }
{
    if are_four_words(along) {
        grown_by_four(words, word, left, right)
    } else {
        grown_along(words, along, word, left, right)
    }
}

// The same, turn by turn.
#[inline]
fn grown_along(words: &Words, along: Loop, word: u64, left: u64, right: u64) -> u64
    requires limit { length words.now < 2 ^ 60 }
    requires left { IsLeftWithin (length words.now) (along ∷ []) left }
    requires right { IsRightWithin (length words.now) (along ∷ []) right }
    ensures { result ≡ products_along words.now along left right word }
{
    let mut total = word;
    for x in 0..along.len {
        let a = words.get(left + x * along.left);
        let b = words.get(right + x * along.right);
        total = total.wrapping_add(a.wrapping_mul(b));
    }
    total
}

// Adds the products in the turns of a short loop to the word at one place.
#[inline]
fn grow_at_one(words: &mut Words, along: Loop, out: u64, left: u64, right: u64)
    requires limit { length words.old < 2 ^ 60 }
    requires run { CanRun (length words.old) (along ∷ []) out left right }
    requires still { along.out ≡ 0 }
    ensures { AreTurned Turn.Grow (along ∷ []) out left right words.old words.new }
{
    let word = grown_short(words, along, words.get(out), left, right);
    words.put(out, word);
}

fn turns_at_one(words: &mut Words, turn: Turn, along: Loop, out: u64, left: u64, right: u64)
    requires limit { length words.old < 2 ^ 60 }
    requires run { CanRun (length words.old) (along ∷ []) out left right }
    requires still { along.out ≡ 0 }
    ensures { AreTurned turn (along ∷ []) out left right words.old words.new }
{
    match turn {
        Turn::Grow => words.dot_run(out, left, along.left, right, along.right, along.len),
        Turn::Compute(operation) => {
            let last = along.len - 1;
            let a = words.get(left + last * along.left);
            let b = words.get(right + last * along.right);
            words.put(out, result_of(operation, a, b));
        }
    }
}

// The turns of a short loop, one by one.
#[inline]
fn turn_by_turn(words: &mut Words, turn: Turn, along: Loop, out: u64, left: u64, right: u64)
    requires limit { length words.old < 2 ^ 60 }
    requires run { CanRun (length words.old) (along ∷ []) out left right }
    ensures { AreTurned turn (along ∷ []) out left right words.old words.new }
{
    for x in 0..along.len {
        turn_once(
            words,
            turn,
            out + x * along.out,
            left + x * along.left,
            right + x * along.right,
        );
    }
}

fn turns_along(words: &mut Words, turn: Turn, along: Loop, out: u64, left: u64, right: u64)
    requires run { CanRun (length words.old) (along ∷ []) out left right }
    requires moving { 0 < along.out }
    ensures { AreTurned turn (along ∷ []) out left right words.old words.new }
{
    match turn {
        Turn::Grow => words.mul_add_run(
            out,
            along.out,
            left,
            along.left,
            right,
            along.right,
            along.len,
        ),
        Turn::Compute(operation) => results_along(words, operation, along, out, left, right),
    }
}

fn results_along(
    words: &mut Words,
    operation: Arithmetic,
    along: Loop,
    out: u64,
    left: u64,
    right: u64,
)
    requires run { CanRun (length words.old) (along ∷ []) out left right }
    requires moving { 0 < along.out }
    ensures { AreComputed operation (along ∷ []) out left right words.old words.new }
{
    let Loop {
        len,
        out: out_step,
        left: left_step,
        right: right_step,
    } = along;
    match operation {
        Arithmetic::Multiply => {
            words.mul_run(out, out_step, left, left_step, right, right_step, len)
        }
        Arithmetic::Add => words.plus_run(out, out_step, left, left_step, right, right_step, len),
        Arithmetic::Subtract => {
            words.minus_run(out, out_step, left, left_step, right, right_step, len)
        }
    }
}
