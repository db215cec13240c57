// What holds of all stored places.
ghost use Rattle.tce_sym.specs.Laws.{StoredPlacesAreTheirs};

/// Different stored elements have different places, every place below the number of stored elements is one, and they are
/// no more than the elements of the array.
pub fn stored_places_are_theirs()
    ensures { StoredPlacesAreTheirs }
{}
