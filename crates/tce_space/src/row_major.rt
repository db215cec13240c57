// The places of a box: the last coordinate runs fastest.
ghost use Rattle.std.specs.Prelude.{◌≡◌, ◌<◌, ◌^◌};
ghost use Rattle.tce_space.specs.Box.{product, place, IsInside};
ghost use Rattle.tce_space.specs.Laws.{PlacesAreInOrder};

/// The place of an element in row-major order: how many elements stand before it, the last coordinate running fastest.
pub fn place(extents: &[u64], coords: &[u64]) -> u64
    requires inside { IsInside extents.now coords.now }
    requires fits { product extents.now < 2 ^ 64 }
    ensures place { result ≡ place extents.now coords.now }
    ensures within { result < product extents.now }
{
    let mut place = 0;
    for d in 0..extents.len() {
        place = place * extents[d] + coords[d];
    }
    place
}

/// The places of a box are its coordinates in order, each once.
pub fn places_are_in_order()
    ensures { PlacesAreInOrder }
{}
