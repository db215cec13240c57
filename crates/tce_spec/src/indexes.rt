//! Lines that declare indexes.

ghost use Rattle.std.specs.Prelude.{◌≡◌, ◌<◌, ◌≤◌, ◌+◌, IsTrue, OnOk, IfErr, IfSome, None, length};
ghost use Rattle.std.specs.List.{list_any};
ghost use Rattle.std.specs.Str.{bytes_eq};
ghost use Rattle.tce_space.specs.Limits.{max_indexes};
ghost use Rattle.tce_space.specs.Name.{is_name};
ghost use Rattle.tce_space.specs.Space.{IsSpace};
ghost use Rattle.tce_grammar.specs.Code.{text_if_some};
ghost use Rattle.tce_grammar.specs.Code as code;
ghost use Rattle.tce_grammar.specs.Grammar.{AreNames};
ghost use Rattle.tce_spec.specs.DeclarationLines.{index_names, declared_twice};
ghost use Rattle.tce_spec.specs.DeclarationLineCode.{HasNumberedIndexes, ShowsIndexes, IndexesFit, HasIndexes};

use crate::fault::{Limit, SpecFault};
use crate::ranges::range_named;
use std::alloc::AllocError;
use tce_grammar::name_of;
use tce_space::{MAX_INDEXES, Space};

/// Whether there is an index of this name.
fn is_index(space: &Space, name: &[u8]) -> bool
    requires { IsTrue (is_name name.now) }
    ensures { result ≡ list_any (bytes_eq name.now) (index_names space.now) }
{
    let name = name_of(name);
    space.index_named(name.as_str()).is_some()
}

fn any_is(names: &[&[u8]], name: &[u8]) -> bool
    ensures { result ≡ list_any (λ other. bytes_eq name.now other.now) names.now }
{
    names.iter().any(|other| name == *other)
}

fn is_among(names: &[&[u8]], name: &[u8]) -> bool
    ensures { result ≡ list_any (bytes_eq name.now) (code.names names.now) }
{
    any_is(names, name)
}

/// The first of some names that an index has, or that stands before among them.
fn declared_twice<'a>(space: &Space, names: &[&'a [u8]]) -> Option<&'a [u8]>
    requires { AreNames (code.names names.now) }
    ensures first { text_if_some result ≡ declared_twice space.now (code.names names.now) }
    ensures named { IfSome result (λ name. IsTrue (is_name name.now)) }
{
    for (place, name) in names.iter().enumerate() {
        if is_index(space, *name) || is_among(&names[..place], *name) {
            return Some(*name);
        }
    }
    None
}

/// Declares indexes of a range, which have new names and for which there is room. After an `Err` some are declared.
fn add_indexes(space: &mut Space, range: u8, names: &[&[u8]]) -> Result<(), AllocError>
    requires names { AreNames (code.names names.now) }
    requires declared { range < length space.old.ranges }
    requires new { declared_twice space.old (code.names names.now) ≡ None }
    requires room { length space.old.indexes + length names.now ≤ max_indexes }
    requires limits { IsSpace space.old }
    ensures declared { OnOk result (HasNumberedIndexes space.old space.new range names.now) }
    ensures limits { OnOk result (IsSpace space.new) }
{
    for name in names {
        // No refusal but want of memory is left: the names are new and there is room.
        let Ok(_) = space.add_index(&name_of(*name), range) else {
            return Err(AllocError);
        };
    }
    Ok(())
}

/// Declares indexes of a range. After an `Err` some of them may be declared.
pub(crate) fn declare_indexes(
    space: &mut Space,
    line: u64,
    range: &[u8],
    names: &[&[u8]],
) -> Result<(), SpecFault>
    requires range { IsTrue (is_name range.now) }
    requires names { AreNames (code.names names.now) }
    ensures fault { IfErr result (ShowsIndexes line space.old range.now names.now) }
    ensures faultless { OnOk result (IndexesFit line space.old range.now names.now) }
    ensures declared { OnOk result (HasIndexes space.old space.new range.now names.now) }
    ensures limits { OnOk result (IsSpace space.new) }
{
    if let Some(name) = declared_twice(space, names) {
        return Err(SpecFault::NameTwice(line, name_of(name)));
    }
    let Some(number) = range_named(space, range) else {
        return Err(SpecFault::UnknownName(line, name_of(range)));
    };
    if names.len() > MAX_INDEXES - space.index_count() as usize {
        return Err(SpecFault::LimitPassed(line, Limit::Indexes));
    }
    add_indexes(space, number, names)?;
    Ok(())
}
