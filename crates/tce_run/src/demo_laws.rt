//! Laws of the definitions. These functions do nothing: their contracts are the laws.

ghost use Rattle.tce_run.specs.DemoLaws.{DemosAreSpecified, DemosAreCanonical};

/// The text of a demonstration specifies what it should, whatever the extents.
pub fn demos_are_specified()
    ensures { DemosAreSpecified }
{}

/// The text of a demonstration is the canonical text of what it specifies.
pub fn demos_are_canonical()
    ensures { DemosAreCanonical }
{}
