//! Names of tensors and indexes, and the numbers under which they are declared.

ghost use Rattle.std.specs.Prelude.{◌≡◌, ℕ, IsTrue, [], List};
ghost use Rattle.tce_space.specs.Name.{is_name};
ghost use Rattle.tce_space.specs.Space.{index_number};
ghost use Rattle.tce_grammar.specs.Code.{names};
ghost use Rattle.tce_grammar.specs.Grammar.{AreNames};
ghost use Rattle.tce_spec.specs.Declarations.{tensor_number};
ghost use Rattle.tce_spec.specs.DeclarationLines.{twice_after};
ghost use Rattle.std.specs.List.{list_any};
ghost use Rattle.std.specs.Str.{bytes_eq};
ghost use Rattle.tce_spec.specs.PlaceFaults.{undeclared_index, ranges_of, has_range, wrong_index};
ghost use Rattle.tce_spec.specs.Rules.{bytes_if_some};

use crate::declarations::Declarations;
use tce_grammar::name_of;
use tce_space::{Name, Space};

/// The number of the index of this name.
pub(crate) fn index_named(space: &Space, name: &[u8]) -> Option<u8>
    requires { IsTrue (is_name name.now) }
    ensures { result ≡ index_number space.now name.now }
{
    space.index_named(name_of(name).as_str())
}

/// The number of the tensor of this name.
pub(crate) fn tensor_named(declarations: &Declarations, name: &[u8]) -> Option<u8>
    requires { IsTrue (is_name name.now) }
    ensures { result ≡ tensor_number declarations.now.tensors name.now }
{
    declarations.tensor_named(name_of(name).as_str())
}

/// The first name that no index has.
pub(crate) fn undeclared_index(space: &Space, indexes: &[&[u8]]) -> Option<Name>
    requires { AreNames (names indexes.now) }
    ensures { bytes_if_some result ≡ undeclared_index space.now (names indexes.now) }
{
    let mut rest = indexes;
    while let [name, behind @ ..] = rest {
        if index_named(space, *name).is_none() {
            return Some(name_of(*name));
        }
        rest = behind;
    }
    None
}

/// The numbers of the ranges of a tensor's dimensions. A tensor that is not declared has none.
pub(crate) fn ranges_of<'a>(declarations: &'a Declarations, name: &[u8]) -> &'a [u8]
    requires { IsTrue (is_name name.now) }
    ensures { result.now ≡ ranges_of declarations.now name.now }
{
    match tensor_named(declarations, name) {
        Some(tensor) => declarations.tensor(tensor).ranges.as_slice(),
        None => &[],
    }
}

/// Whether an index that is declared is of this range.
fn has_range(space: &Space, index: &[u8], range: u8) -> bool
    requires { IsTrue (is_name index.now) }
    ensures { result ≡ has_range space.now index.now range }
{
    match index_named(space, index) {
        Some(number) => space.range_of(number) == range,
        None => true,
    }
}

/// The first index that is of another range than the one at its place.
pub(crate) fn wrong_index(space: &Space, indexes: &[&[u8]], ranges: &[u8]) -> Option<Name>
    requires { AreNames (names indexes.now) }
    ensures { bytes_if_some result ≡ wrong_index space.now (names indexes.now) ranges.now }
{
    let [index, later @ ..] = indexes else {
        return None;
    };
    let [range, others @ ..] = ranges else {
        return None;
    };
    if has_range(space, *index, *range) {
        wrong_index(space, later, others)
    } else {
        Some(name_of(*index))
    }
}

fn stands_in(indexes: &[&[u8]], name: &[u8]) -> bool
    ensures { result ≡ list_any (λ other. bytes_eq name.now other.now) indexes.now }
{
    indexes.iter().any(|other| name == *other)
}

/// The first index that stands in the list for the second time.
pub(crate) fn listed_twice(indexes: &[&[u8]]) -> Option<Name>
    requires { AreNames (names indexes.now) }
    ensures { bytes_if_some result ≡ twice_after [] (names indexes.now) }
{
    for place in 0..indexes.len() {
        if stands_in(&indexes[..place], indexes[place]) {
            return Some(name_of(indexes[place]));
        }
    }
    None
}
