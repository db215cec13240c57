// Where an element stands.
ghost use Rattle.std.specs.Prelude.{◌≡◌, ℕ, ◌*◌, ◌<◌, length};
ghost use Rattle.tce_space.specs.Limits.{max_array_words};
ghost use Rattle.tce_space.specs.Box.{IsInside};
ghost use Rattle.tce_space.specs.Tiling.{IsTiling, word_number};
ghost use Rattle.tce_array.specs.Forms.{address};

use crate::form::Form;
use tce_space::Shape;

// How many words stand before an element.
fn word_number(shape: &Shape, coords: &[u64]) -> u64
    requires { IsInside shape.now.extents coords.now }
    ensures number { result ≡ word_number shape.now coords.now }
    ensures small { result < max_array_words }
    ensures limits { IsTiling shape.now }
{
    let extents = shape.extents();
    let edges = shape.edges();
    let mut tile = 0;
    let mut inside = 0;
    for d in 0..extents.len() {
        let edge = edges[d];
        tile = tile * extents[d].div_ceil(edge) + coords[d] / edge;
        inside = inside * edge + coords[d] % edge;
    }
    shape.tile_words() * tile + inside
}

/// The place in bytes of the element with these coordinates, one for each dimension, in a file of this form and
/// shape. Different elements have different places, as `places_are_apart` says.
pub fn address(form: Form, shape: &Shape, coords: &[u64]) -> u64
    requires { IsInside shape.now.extents coords.now }
    ensures { result ≡ address form shape.now coords.now }
{
    form.head_len(shape) + form.width() * word_number(shape, coords)
}
