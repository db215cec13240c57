//! Lines that declare a tensor.

ghost use Rattle.std.specs.Prelude.{◌≡◌, ◌≤◌, IsTrue, IfSome, length};
ghost use Rattle.tce_space.specs.Limits.{max_rank};
ghost use Rattle.tce_space.specs.Name.{is_name};
ghost use Rattle.tce_grammar.specs.Code.{text_if_some};
ghost use Rattle.tce_grammar.specs.Code as code;
ghost use Rattle.tce_grammar.specs.Grammar.{AreNames};
ghost use Rattle.tce_spec.specs.DeclarationLines.{numbers_of_ranges, unknown_range};

use crate::ranges::range_named;
use arrayvec::ArrayVec;
use tce_space::{MAX_RANK, Space};

/// The number of no range.
const NO_RANGE: u8 = 16;

/// The first of some names that no range has.
pub(crate) fn unknown_range<'a>(space: &Space, names: &[&'a [u8]]) -> Option<&'a [u8]>
    requires { AreNames (code.names names.now) }
    ensures first { text_if_some result ≡ unknown_range space.now (code.names names.now) }
    ensures named { IfSome result (λ name. IsTrue (is_name name.now)) }
{
    for name in names {
        if range_named(space, *name).is_none() {
            return Some(*name);
        }
    }
    None
}

/// The numbers of ranges by their names, and 16 for a name that no range has.
pub(crate) fn range_numbers(space: &Space, names: &[&[u8]]) -> ArrayVec<u8, MAX_RANK>
    requires names { AreNames (code.names names.now) }
    requires rank { length names.now ≤ max_rank }
    ensures { result.items ≡ numbers_of_ranges space.now (code.names names.now) }
{
    let mut numbers = ArrayVec::new();
    for name in names {
        numbers.push(range_named(space, *name).unwrap_or(NO_RANGE));
    }
    numbers
}
