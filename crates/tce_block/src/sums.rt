//! Sums over loops.
ghost use Rattle.std.specs.Prelude.{◌≡◌, ◌^◌, ◌<◌, length};
ghost use Rattle.tce_space.specs.Tiling.{ArePositive};
ghost use Rattle.tce_block.specs.StrideSteps.{sum_lens};
ghost use Rattle.tce_block.specs.Running.{CanSum, IsSumWithin, IsOperandWithin, IsApartFromOperand, AreAdded};

use crate::loops::SumLoop;
use crate::runs;
use tce_words::Words;

/// Adds in each turn of the loops, the last one innermost, the operand's word to the word at the place of the result.
/// No place of the result may be one of the operand.
pub fn grow(words: &mut Words, loops: &[SumLoop], out: u64, operand: u64)
    requires positive { ArePositive (sum_lens loops.now) }
    requires out { IsSumWithin (length words.old) loops.now out }
    requires operand { IsOperandWithin (length words.old) loops.now operand }
    requires apart { IsApartFromOperand loops.now out operand }
    ensures { AreAdded loops.now out operand words.old words.new }
{
    // The length's limit keeps the places within a word.
    let _count = words.len();
    grow_below(words, loops, out, operand);
}

fn grow_below(words: &mut Words, loops: &[SumLoop], out: u64, operand: u64)
    requires limit { length words.old < 2 ^ 60 }
    requires run { CanSum (length words.old) loops.now out operand }
    ensures { AreAdded loops.now out operand words.old words.new }
{
    match loops {
        [] => runs::grow_once(words, out, operand),
        [only] => runs::grow_along(words, *only, out, operand),
        [first, rest @ ..] => {
            for x in 0..first.len {
                grow_below(
                    words,
                    rest,
                    out + x * first.out,
                    operand + x * first.operand,
                );
            }
        }
    }
}
