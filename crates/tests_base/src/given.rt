//! What tests are given: declarations in a space, and how a test ends.
ghost use Rattle.std.specs.Prelude.{IsTrue};
ghost use Rattle.tce_space.specs.Name.{is_name};

use std::alloc::Global;
use std::process::Abort;
use tce_space::*;

// Ends the test where this does not hold, with what it is about.
pub(crate) fn check(rt: &impl Abort, holds: bool, what: &str) {
    assert!(rt; holds, "{what}");
}

// What was made. The test ends where it could not be made.
pub(crate) fn must<T, E>(rt: &impl Abort, made: Result<T, E>) -> T {
    match made {
        Ok(made) => made,
        Err(_) => panic!(rt; "this cannot be made"),
    }
}

pub(crate) fn new_space(rt: &impl Abort, alloc: Global) -> Space {
    match Space::new(alloc) {
        Ok(space) => space,
        Err(_) => panic!(rt; "no memory"),
    }
}

// A name, tested.
fn name_of(rt: &impl Abort, text: &str) -> Name
    ensures { IsTrue (is_name result.bytes) }
{
    let Ok(name) = Name::from(text) else {
        panic!(rt; "too long: {text}");
    };
    assert!(rt; is_name(name.as_str().as_bytes()), "no name: {text}");
    name
}

// Declares a range by its name and by its extent and edge.
pub(crate) fn add_range(
    rt: &impl Abort,
    space: &mut Space,
    text: &str,
    size: (u64, u64),
) -> Result<u8, SpaceFault> {
    assert!(rt; 0 < size.1);
    assert!(rt; size.1 <= size.0);
    assert!(rt; size.0 < 1 << 32);
    space.add_range(&name_of(rt, text), size.0, size.1)
}

pub(crate) fn add_index(
    rt: &impl Abort,
    space: &mut Space,
    text: &str,
    range: u8,
) -> Result<u8, SpaceFault> {
    assert!(rt; range < space.range_count());
    space.add_index(&name_of(rt, text), range)
}

// The range is declared, with this number.
pub(crate) fn expect_range(
    rt: &impl Abort,
    space: &mut Space,
    text: &str,
    size: (u64, u64),
    number: u8,
) {
    assert!(rt; add_range(rt, space, text, size) == Ok(number), "{text}");
}

// The index is declared, with this number.
pub(crate) fn expect_index(rt: &impl Abort, space: &mut Space, text: &str, range: u8, number: u8) {
    assert!(rt; add_index(rt, space, text, range) == Ok(number), "{text}");
}
