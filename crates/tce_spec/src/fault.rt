//! Why a text is no specification.

use std::alloc::AllocError;
use tce_space::Name;
use tce_tree::TreeFault;

/// A limit that a line passes.
#[derive(Clone, Copy)]
pub enum Limit {
    /// There are 16 ranges.
    Ranges,
    /// The line makes more than 24 indexes.
    Indexes,
    /// There are 32 tensors.
    Tensors,
    /// The tensor has more than 8 dimensions.
    Rank,
    /// A tile of the tensor has more than 2^20 words.
    TileWords,
    /// The tiles of the tensor have more than 2^48 words together.
    ArrayWords,
}

/// Why a text is no specification. The first number of a fault is that of its line, from 1.
#[derive(Clone, Copy)]
pub enum SpecFault {
    /// The text has more than 65,536 bytes.
    TooLong,
    /// The line has none of the four forms, or stands behind the formula; or the text ends without a formula, and then
    /// the line is the one behind its last.
    BadText(u64),
    /// The formula has more than 32 sums, products, additions and subtractions.
    TooManyNodes(u64),
    /// A range, an index or a tensor of this name is declared already.
    NameTwice(u64, Name),
    /// Nothing of this name is declared.
    UnknownName(u64, Name),
    /// An extent or an edge is 0, has a leading 0 or is above 4294967295, or the edge is above the extent. In a formula:
    /// a constant has a leading 0, or is above 18446744073709551615.
    BadNumber(u64),
    /// The line passes a limit.
    LimitPassed(u64, Limit),
    /// The tensor has another number of dimensions.
    RankDiffers(u64, Name),
    /// The index is of another range than its place.
    RangeDiffers(u64, Name),
    /// A list names the index twice.
    IndexTwice(u64, Name),
    /// The result stands in the expression.
    ResultIsOperand(u64, Name),
    /// The expression has no tree.
    Tree(u64, TreeFault),
    /// The result has not the indexes of the expression.
    ResultIndices(u64),
    /// There is no memory.
    Memory,
}

impl From<AllocError> for SpecFault {
    ghost use Rattle.std.specs.Prelude.{◌≡◌};
    ghost use Rattle.tce_spec.specs.declared.fault.SpecFault.TheVariants.{Memory};

    ghost from_gives = { λ _ fault. fault ≡ Memory };

    fn from(_error: AllocError) -> SpecFault {
        SpecFault::Memory
    }
}
