//! Results of two operands in loops, and sums of products.
ghost use Rattle.std.specs.Prelude.{◌≡◌, ◌^◌, ◌<◌, length};
ghost use Rattle.tce_space.specs.Tiling.{ArePositive};
ghost use Rattle.tce_block.specs.StrideSteps.{lens};
ghost use Rattle.tce_block.specs.Running.{CanRun, IsOutWithin, IsLeftWithin, IsRightWithin, IsApartFromLeft, IsApartFromRight, AreTurned, AreProductsAdded, AreComputed};

use crate::loops::{Loop, Rows, Turn};
use crate::{rows, runs};
use tce_space::Arithmetic;
use tce_words::Words;

/// Adds in each turn of the loops, the last one innermost, the product of the operands' words to the word at the place of the
/// result. No place of the result may be one of an operand.
pub fn grow_by_products(words: &mut Words, loops: &[Loop], out: u64, left: u64, right: u64)
    requires positive { ArePositive (lens loops.now) }
    requires out { IsOutWithin (length words.old) loops.now out }
    requires left { IsLeftWithin (length words.old) loops.now left }
    requires right { IsRightWithin (length words.old) loops.now right }
    requires apart_from_left { IsApartFromLeft loops.now out left }
    requires apart_from_right { IsApartFromRight loops.now out right }
    ensures { AreProductsAdded loops.now out left right words.old words.new }
{
    // The length's limit keeps the places within a word.
    let _count = words.len();
    turns_below(words, Turn::Grow, loops, out, left, right);
}

/// Makes in each turn of the loops, the last one innermost, the word at the place of the result that of the operation on the
/// operands' words. No place of the result may be one of an operand.
pub fn compute(
    words: &mut Words,
    operation: Arithmetic,
    loops: &[Loop],
    out: u64,
    left: u64,
    right: u64,
)
    requires positive { ArePositive (lens loops.now) }
    requires out { IsOutWithin (length words.old) loops.now out }
    requires left { IsLeftWithin (length words.old) loops.now left }
    requires right { IsRightWithin (length words.old) loops.now right }
    requires apart_from_left { IsApartFromLeft loops.now out left }
    requires apart_from_right { IsApartFromRight loops.now out right }
    ensures { AreComputed operation loops.now out left right words.old words.new }
{
    // The length's limit keeps the places within a word.
    let _count = words.len();
    let turn = Turn::Compute(operation);
    // One result alone is common, and too little work for a call.
    match loops {
        [] => runs::turn_once(words, turn, out, left, right),
        _ => turns_below(words, turn, loops, out, left, right),
    }
}

fn turns_below(words: &mut Words, turn: Turn, loops: &[Loop], out: u64, left: u64, right: u64)
    requires limit { length words.old < 2 ^ 60 }
    requires run { CanRun (length words.old) loops.now out left right }
    ensures { AreTurned turn loops.now out left right words.old words.new }
{
    match loops {
        [] => runs::turn_once(words, turn, out, left, right),
        [only] => runs::turn_along(words, turn, *only, out, left, right),
        [outer, along] => {
            let rows = Rows {
                outer: *outer,
                along: *along,
            };
            rows::turns_in_rows(words, turn, rows, out, left, right);
        }
        [first, rest @ ..] => {
            for x in 0..first.len {
                turns_below(
                    words,
                    turn,
                    rest,
                    out + x * first.out,
                    left + x * first.left,
                    right + x * first.right,
                );
            }
        }
    }
}
