// Two loops, one inside the other: rows, some of them all at once.
ghost use Rattle.std.specs.Prelude.{◌≡◌, ◌↔◌, ◌+◌, ◌^◌, ◌<◌, ◌≤◌, IsTrue, length, [], ◌∷◌};
ghost use Rattle.tce_block.specs.Running.{CanRun, AreTurned};
ghost use Rattle.tce_block.specs.Rows.{AreFourWords, IsScaled, loops_of};

use crate::loops::{Loop, Rows, Turn};
use crate::runs::{LONG, are_four_words, grown_by_four, turn_along, turn_once};
use tce_words::{Strided, Words};

// Two loops, one inside the other.
pub(crate) fn turns_in_rows(
    words: &mut Words,
    turn: Turn,
    rows: Rows,
    out: u64,
    left: u64,
    right: u64,
)
    requires limit { length words.old < 2 ^ 60 }
    requires run { CanRun (length words.old) (loops_of rows) out left right }
    ensures { AreTurned turn (loops_of rows) out left right words.old words.new }
{
    match turn {
        Turn::Grow => grow_in_rows(words, rows, out, left, right),
        Turn::Compute(_) => rows_by_one(words, turn, rows, out, left, right),
    }
}

// Whether a loop goes with one factor along words of the result.
fn is_scaled(along: Loop) -> bool
    ensures { IsTrue result ↔ IsScaled along }
{
    along.out == 1 && along.left == 0 && along.right == 1
}

// Two loops that add products.
fn grow_in_rows(words: &mut Words, rows: Rows, out: u64, left: u64, right: u64)
    requires limit { length words.old < 2 ^ 60 }
    requires run { CanRun (length words.old) (loops_of rows) out left right }
    ensures { AreTurned Turn.Grow (loops_of rows) out left right words.old words.new }
{
    if is_scaled(rows.along) {
        grow_by_scaled_rows(words, rows, out, left, right);
    } else if rows.along.out == 0 && are_four_words(rows.along) {
        dots_of_four(words, rows, out, left, right);
    } else {
        grow_in_rows_of_left(words, rows, out, left, right);
    }
}

// The same, where the rows may be those of the left operand.
fn grow_in_rows_of_left(words: &mut Words, rows: Rows, out: u64, left: u64, right: u64)
    requires limit { length words.old < 2 ^ 60 }
    requires run { CanRun (length words.old) (loops_of rows) out left right }
    ensures { AreTurned Turn.Grow (loops_of rows) out left right words.old words.new }
{
    let swapped = Rows {
        outer: Loop {
            left: rows.outer.right,
            right: rows.outer.left,
            ..rows.outer
        },
        along: Loop {
            left: rows.along.right,
            right: rows.along.left,
            ..rows.along
        },
    };
    if is_scaled(swapped.along) {
        grow_by_scaled_rows(words, swapped, out, right, left);
    } else {
        rows_by_one(words, Turn::Grow, rows, out, left, right);
    }
}

// Rows that are added with one factor each.
fn grow_by_scaled_rows(words: &mut Words, rows: Rows, out: u64, left: u64, right: u64)
    requires limit { length words.old < 2 ^ 60 }
    requires run { CanRun (length words.old) (loops_of rows) out left right }
    requires scaled { IsScaled rows.along }
    ensures { AreTurned Turn.Grow (loops_of rows) out left right words.old words.new }
{
    if rows.along.len == 4 {
        rows_of_four(words, rows, out, left, right);
    } else if rows.outer.out == 0 && LONG <= rows.along.len {
        rows_at_once(words, rows, out, left, right);
    } else {
        rows_by_one(words, Turn::Grow, rows, out, left, right);
    }
}

// Adds the products of one factor and four words to four words of the result, without a loop.
#[inline]
fn grow_four(words: &mut Words, _along: Loop, out: u64, left: u64, right: u64)
    requires limit { length words.old < 2 ^ 60 }
    requires run { CanRun (length words.old) (_along ∷ []) out left right }
    requires scaled { IsScaled _along }
    requires four { _along.len ≡ 4 }
    ensures { AreTurned Turn.Grow (_along ∷ []) out left right words.old words.new }
{
    turn_once(words, Turn::Grow, out, left, right);
    turn_once(words, Turn::Grow, out + 1, left, right + 1);
    turn_once(words, Turn::Grow, out + 2, left, right + 2);
    turn_once(words, Turn::Grow, out + 3, left, right + 3);
}

// Rows of four words that are added with one factor each.
fn rows_of_four(words: &mut Words, rows: Rows, out: u64, left: u64, right: u64)
    requires limit { length words.old < 2 ^ 60 }
    requires run { CanRun (length words.old) (loops_of rows) out left right }
    requires scaled { IsScaled rows.along }
    requires four { rows.along.len ≡ 4 }
    ensures { AreTurned Turn.Grow (loops_of rows) out left right words.old words.new }
{
    let Rows { outer, along } = rows;
    for x in 0..outer.len {
        grow_four(
            words,
            along,
            out + x * outer.out,
            left + x * outer.left,
            right + x * outer.right,
        );
    }
}

// Adds the products of four words of each operand to one word.
#[inline]
fn dot_of_four(words: &mut Words, _along: Loop, out: u64, left: u64, right: u64)
    requires limit { length words.old < 2 ^ 60 }
    requires run { CanRun (length words.old) (_along ∷ []) out left right }
    requires still { _along.out ≡ 0 }
    requires four { AreFourWords _along }
    ensures { AreTurned Turn.Grow (_along ∷ []) out left right words.old words.new }
{
    let word = grown_by_four(words, words.get(out), left, right);
    words.put(out, word);
}

// Rows that each add the products of four words to one word.
fn dots_of_four(words: &mut Words, rows: Rows, out: u64, left: u64, right: u64)
    requires limit { length words.old < 2 ^ 60 }
    requires run { CanRun (length words.old) (loops_of rows) out left right }
    requires still { rows.along.out ≡ 0 }
    requires four { AreFourWords rows.along }
    ensures { AreTurned Turn.Grow (loops_of rows) out left right words.old words.new }
{
    let Rows { outer, along } = rows;
    for x in 0..outer.len {
        dot_of_four(
            words,
            along,
            out + x * outer.out,
            left + x * outer.left,
            right + x * outer.right,
        );
    }
}

// Rows that are added with one factor each to the same words, which are loaded and stored once for all rows.
fn rows_at_once(words: &mut Words, rows: Rows, out: u64, left: u64, right: u64)
    requires run { CanRun (length words.old) (loops_of rows) out left right }
    requires still { rows.outer.out ≡ 0 }
    requires scaled { IsScaled rows.along }
    ensures { AreTurned Turn.Grow (loops_of rows) out left right words.old words.new }
{
    let Rows { outer, along } = rows;
    let factors = Strided {
        first: left,
        step: outer.left,
    };
    let scaled = Strided {
        first: right,
        step: outer.right,
    };
    words.mul_add_rows(out, factors, scaled, along.len, outer.len);
}

// The rows one by one.
fn rows_by_one(words: &mut Words, turn: Turn, rows: Rows, out: u64, left: u64, right: u64)
    requires limit { length words.old < 2 ^ 60 }
    requires run { CanRun (length words.old) (loops_of rows) out left right }
    ensures { AreTurned turn (loops_of rows) out left right words.old words.new }
{
    let Rows { outer, along } = rows;
    for x in 0..outer.len {
        turn_along(
            words,
            turn,
            along,
            out + x * outer.out,
            left + x * outer.left,
            right + x * outer.right,
        );
    }
}
