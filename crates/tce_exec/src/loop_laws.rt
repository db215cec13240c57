//! Laws of loops over windows. The functions do nothing: their contracts are the laws.
ghost use Rattle.tce_exec.specs.Leaving.{ComputeLeaves, GrowLeaves, PartsAreApart, PartsAreWithin, ProductsLeave};
ghost use Rattle.tce_exec.specs.LoopLaws.{CoordinatesAreTurns, OthersStay, TurnsAreApart, TurnsAreWithin, TurnsGrow, TurnsSet};

/// The coordinates of loops in any sequence are turns, whose words stand at the places that a window gives them.
pub fn coordinates_are_turns()
    ensures { CoordinatesAreTurns }
{}

/// Loops in any sequence stay within the words where all turns do.
pub fn turns_are_within()
    ensures { TurnsAreWithin }
{}

/// Loops in any sequence keep two windows apart where all turns do.
pub fn turns_are_apart()
    ensures { TurnsAreApart }
{}

/// Words that change in the turns of loops alone change at the turns' places alone.
pub fn others_stay()
    ensures { OthersStay }
{}

/// Turns that add words to those of a node's places leave what the part of the loops leaves.
pub fn turns_grow()
    ensures { TurnsGrow }
{}

/// Turns that put words at a node's places leave what the part of the loops leaves.
pub fn turns_set()
    ensures { TurnsSet }
{}

/// A call stays within the words where all turns of the part do.
pub fn parts_are_within()
    ensures { PartsAreWithin }
{}

/// A call keeps two windows apart where all turns of the part do.
pub fn parts_are_apart()
    ensures { PartsAreApart }
{}

/// A call that adds one operand's words leaves what the part of the loops leaves, and changes the result's words alone.
pub fn grow_leaves()
    ensures { GrowLeaves }
{}

/// A call that adds products leaves what the part of the loops leaves, and changes the result's words alone.
pub fn products_leave()
    ensures { ProductsLeave }
{}

/// A call that puts results leaves what the part of the loops leaves, and changes the result's words alone.
pub fn compute_leaves()
    ensures { ComputeLeaves }
{}
