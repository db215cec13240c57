// The arrays whose tiles a cache holds.
ghost use Rattle.std.specs.Prelude.{◌≡◌, ⊤};

use std::alloc::AllocError;
use tce_array::Form;
use tce_space::{FileName, Shape};

/// An array in a file.
#[derive(Drop)]
pub struct ArrayRef {
    /// The name of the file.
    pub file: FileName,
    /// The extents of the array, and the edges of its tiles.
    pub shape: Shape,
    /// How the file stores the words.
    pub form: Form,
    /// Whether tiles of the array may be touched for writing.
    pub writable: bool,
}

/// A clone takes no memory.
impl Clone for ArrayRef {
    ghost is_clone = { λ a b. b ≡ a };

    ghost is_infallible = { λ _. ⊤ };

    fn clone(&self) -> Result<Self, AllocError> {
        Ok(ArrayRef {
            file: self.file.clone()?,
            shape: self.shape.clone()?,
            form: self.form,
            writable: self.writable,
        })
    }
}
