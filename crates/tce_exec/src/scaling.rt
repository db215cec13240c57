// The words of a window, multiplied by a factor.
ghost use Rattle.std.specs.Prelude.{◌≡◌, ◌<◌, ◌^◌, [], ◌∷◌, length};
ghost use Rattle.tce_space.specs.Tiling.{ArePositive};
ghost use Rattle.tce_block.specs.StrideSteps.{sum_lens};
ghost use Rattle.tce_block.specs.Running.{IsSumWithin};
ghost use Rattle.tce_exec.specs.Loops.{AreLoops, IsWindowWithin};
ghost use Rattle.tce_exec.specs.Scaling.{AreScaled, HasScaled};
ghost use Rattle.tce_exec.specs.Sequences.{IsLoopSequence};

use crate::block_loops::BlockLoops;
use crate::nest::fill_sum_loops;
use crate::sequence::LoopSequence;
use crate::window::Window;
use tce_block::SumLoop;
use tce_words::Words;

/// Multiplies in each turn of the loops the word of a window by a factor.
pub(crate) fn scale(
    words: &mut Words,
    factor: u64,
    sequence: &mut LoopSequence,
    loops: &BlockLoops,
    out: &Window,
)
    requires sequence { IsLoopSequence loops.now.indexes.now sequence.old }
    requires loops { AreLoops loops.now.indexes.now loops.now.lens.now }
    requires out { IsWindowWithin (length words.old) loops.now.indexes.now loops.now.lens.now
        out.now }
    ensures sequence { IsLoopSequence loops.now.indexes.now sequence.new }
    ensures made { HasScaled factor loops.now.indexes.now loops.now.lens.now out.now words.old
        words.new }
{
    sequence.begin(loops.indexes, loops.lens);
    let count = sequence.axes.len();
    fill_sum_loops(sequence.axes.as_slice(), out, out, &mut sequence.sums);
    // The length's limit keeps the places within a word.
    let _count = words.len();
    scale_below(words, factor, &sequence.sums[..count], out.first);
}

// Multiplies the words in the turns of these loops, the last one innermost.
fn scale_below(words: &mut Words, factor: u64, loops: &[SumLoop], out: u64)
    requires limit { length words.old < 2 ^ 60 }
    requires positive { ArePositive (sum_lens loops.now) }
    requires out { IsSumWithin (length words.old) loops.now out }
    ensures { AreScaled factor loops.now out words.old words.new }
{
    match loops {
        [] => scale_once(words, factor, out),
        [only] => scale_along(words, factor, *only, out),
        [first, rest @ ..] => {
            for x in 0..first.len {
                scale_below(words, factor, rest, out + x * first.out);
            }
        }
    }
}

#[inline]
fn scale_once(words: &mut Words, factor: u64, out: u64)
    requires { out < length words.old }
    ensures { AreScaled factor [] out words.old words.new }
{
    let word = factor.wrapping_mul(words.get(out));
    words.put(out, word);
}

// One loop.
fn scale_along(words: &mut Words, factor: u64, along: SumLoop, out: u64)
    requires limit { length words.old < 2 ^ 60 }
    requires positive { ArePositive (sum_lens (along ∷ [])) }
    requires out { IsSumWithin (length words.old) (along ∷ []) out }
    ensures { AreScaled factor (along ∷ []) out words.old words.new }
{
    for x in 0..along.len {
        scale_once(words, factor, out + x * along.out);
    }
}
