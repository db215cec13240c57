//! Copies of what a specification has.

ghost use Rattle.std.specs.Prelude.{◌≡◌, ◌↔◌, [], IfOk, OnOk, IsOk};
ghost use Rattle.tce_space.specs.Space.{no_declarations};

use std::alloc::{AllocError, Global};
use tce_space::{Space, SpaceFault};

/// A space with the same declarations.
pub(crate) fn copied_space(alloc: Global, space: &Space) -> Result<Space, AllocError>
    ensures { IfOk result (λ copy. copy ≡ space.now) }
{
    let mut copy = Space::new(alloc)?;
    match copy_declarations(&mut copy, space) {
        Ok(()) => Ok(copy),
        Err(error) => {
            drop(copy);
            Err(error)
        }
    }
}

// Declares what a space declares in a space without declarations.
fn copy_declarations(copy: &mut Space, space: &Space) -> Result<(), AllocError>
    requires { copy.old ≡ no_declarations }
    ensures { OnOk result (copy.new ≡ space.now) }
{
    copy_ranges(copy, space)?;
    copy_indexes(copy, space)
}

// Declares the ranges of a space in a space without declarations.
fn copy_ranges(copy: &mut Space, space: &Space) -> Result<(), AllocError>
    requires { copy.old ≡ no_declarations }
    ensures { OnOk result (copy.new ≡ record { ranges = space.now.ranges; indexes = [] }) }
{
    for range in 0..space.range_count() {
        let name = space.range_name(range);
        let added = copy.add_range(&name, space.range_extent(range), space.range_edge(range));
        no_fault(added)?;
    }
    Ok(())
}

// Declares the indexes of a space in one of its ranges.
fn copy_indexes(copy: &mut Space, space: &Space) -> Result<(), AllocError>
    requires { copy.old ≡ record { ranges = space.now.ranges; indexes = [] } }
    ensures { OnOk result (copy.new ≡ space.now) }
{
    for index in 0..space.index_count() {
        let name = space.index_name(index);
        let added = copy.add_index(&name, space.range_of(index));
        no_fault(added)?;
    }
    Ok(())
}

// The declarations are those of a space, so only memory can be wanting.
fn no_fault(added: Result<u8, SpaceFault>) -> Result<(), AllocError>
    ensures { IsOk result ↔ IsOk added }
{
    match added {
        Ok(_) => Ok(()),
        Err(_) => Err(AllocError),
    }
}
