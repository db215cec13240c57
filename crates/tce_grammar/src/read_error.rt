//! Why tokens were not read.

ghost use Rattle.std.specs.Prelude.{◌≡◌};
ghost use Rattle.tce_grammar.specs.declared.read_error.ReadError.TheVariants.{Memory};

use std::alloc::{AllocError, AllocFailed};

#[derive(Drop)]
pub(crate) enum ReadError {
    Memory,
    /// The tokens have no such form.
    Form,
}

impl From<AllocError> for ReadError {
    ghost from_gives = { λ _ e. e ≡ Memory };

    fn from(_e: AllocError) -> ReadError {
        ReadError::Memory
    }
}

impl<T: Drop> From<AllocFailed<T>> for ReadError {
    ghost from_gives = { λ _ e. e ≡ Memory };

    fn from(_e: AllocFailed<T>) -> ReadError {
        ReadError::Memory
    }
}
