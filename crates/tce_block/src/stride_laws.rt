//! Laws of the places of loops. The functions do nothing: their contracts are the laws.
ghost use Rattle.tce_block.specs.StrideLaws.{PlacesAreWithin, PlacesAreApart};
ghost use Rattle.tce_block.specs.Results.{GrowthsAddUp, ResultsEndAtLast};

/// Places are within a block where the place of the last coordinates is.
pub fn places_are_within()
    ensures { PlacesAreWithin }
{}

/// Places of which one's end before the other's begin are apart.
pub fn places_are_apart()
    ensures { PlacesAreApart }
{}

/// Loops that add leave at each place the sum over all assignments of their indexes that fall on it.
pub fn growths_add_up()
    ensures { GrowthsAddUp }
{}

/// Loops that set words leave at a place the word of the last assignment of their indexes that falls on it.
pub fn results_end_at_last()
    ensures { ResultsEndAtLast }
{}
