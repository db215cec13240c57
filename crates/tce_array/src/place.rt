// How long a file is.
ghost use Rattle.std.specs.Prelude.{◌≡◌, ℕ, ◌+◌, ◌*◌, ◌≤◌, ◌^◌, length};
ghost use Rattle.tce_space.specs.Tiling.{tiles, tile_words, file_len};
ghost use Rattle.tce_array.specs.Forms.{form_len};

use crate::form::Form;
use tce_space::Shape;

/// The length in bytes of a file of this form and shape: its head, and the words of all tiles with their padding.
///
/// In the form `One` it is the length that the shape gives.
pub fn form_len(form: Form, shape: &Shape) -> u64
    ensures bytes { result ≡ form_len form shape.now }
    ensures first { form ≡ Form.One → result ≡ file_len shape.now }
{
    form.head_len(shape) + form.width() * shape.padded_words()
}
