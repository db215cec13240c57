//! What tests of runs share.
use std::alloc::{AllocError, Global};
use std::process::Abort;
use std::test::Fail;
use tce_spec::{Spec, read_spec};

/// Ends the test where this does not hold, with what it is about.
pub fn check(rt: &impl Abort, holds: bool, what: &str) {
    assert!(rt; holds, "{what}");
}

/// What was made. The test ends where it could not be made.
pub fn must<T, E>(rt: &impl Abort, made: Result<T, E>) -> T {
    match made {
        Ok(made) => made,
        Err(_) => panic!(rt; "this cannot be made"),
    }
}

/// Puts a number behind bytes, as eight bytes, the lowest first.
pub fn push_number(bytes: &mut Vec<u8>, number: u64) -> Result<(), AllocError> {
    bytes.extend_from_slice(&number.to_le_bytes())
}

/// The specification of a text.
pub fn spec_of(alloc: Global, text: &[u8]) -> Result<Spec, Fail> {
    match read_spec(alloc, text) {
        Ok(spec) => Ok(spec),
        Err(_) => Err(Fail::new("the text is refused")),
    }
}
