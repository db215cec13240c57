//! Lines that declare a range.

ghost use Rattle.std.specs.Prelude.{◌≡◌, IsTrue, OnOk, IfErr};
ghost use Rattle.tce_space.specs.Name.{is_name};
ghost use Rattle.tce_space.specs.Space.{range_number, IsSpace};
ghost use Rattle.tce_spec.specs.DeclarationLineCode.{ShowsRange, RangeFits, HasRange};

use crate::fault::{Limit, SpecFault};
use crate::numbers::range_size;
use tce_grammar::name_of;
use tce_space::{Space, SpaceFault};

/// The number of a range by its name.
pub(crate) fn range_named(space: &Space, name: &[u8]) -> Option<u8>
    requires { IsTrue (is_name name.now) }
    ensures { result ≡ range_number space.now name.now }
{
    let name = name_of(name);
    space.range_named(name.as_str())
}

/// Declares a range.
pub(crate) fn declare_range(
    space: &mut Space,
    line: u64,
    name: &[u8],
    extent: &[u8],
    edge: Option<&[u8]>,
) -> Result<(), SpecFault>
    requires { IsTrue (is_name name.now) }
    ensures fault { IfErr result (ShowsRange line space.old name.now extent.now edge.entry) }
    ensures faultless { OnOk result (RangeFits line space.old name.now extent.now edge.entry) }
    ensures declared { OnOk result (HasRange space.old space.new name.now extent.now edge.entry) }
    ensures limits { OnOk result (IsSpace space.new) }
{
    if range_named(space, name).is_some() {
        return Err(SpecFault::NameTwice(line, name_of(name)));
    }
    let Some((extent, edge)) = range_size(extent, edge) else {
        return Err(SpecFault::BadNumber(line));
    };
    match space.add_range(&name_of(name), extent, edge) {
        Ok(_) => Ok(()),
        Err(SpaceFault::Full) => Err(SpecFault::LimitPassed(line, Limit::Ranges)),
        Err(_) => Err(SpecFault::Memory),
    }
}
