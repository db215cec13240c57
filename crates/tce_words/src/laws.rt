//! Laws with which a caller meets the conditions of a run: where a run along one dimension of a row-major block goes.
//! The functions do nothing; their contracts are the laws.
ghost use Rattle.tce_words.specs.RunLaws.{RowsLieInBlocks, WordsLieInBlocks, BlocksAreWithin, BlocksAreApart, StepsAreDistinct};

/// The words along one dimension of a row-major block lie in the block, as far apart as the product of the extents
/// behind that dimension.
pub fn rows_lie_in_blocks()
    ensures { RowsLieInBlocks }
{}

/// A run with the step 0 lies in a block where its one word does.
pub fn words_lie_in_blocks()
    ensures { WordsLieInBlocks }
{}

/// A run that lies in a block is in range where the block is.
pub fn blocks_are_within()
    ensures { BlocksAreWithin }
{}

/// Runs that lie in two blocks, one of which ends before the other begins, are apart.
pub fn blocks_are_apart()
    ensures { BlocksAreApart }
{}

/// A run whose step is not 0 has no place twice.
pub fn steps_are_distinct()
    ensures { StepsAreDistinct }
{}
