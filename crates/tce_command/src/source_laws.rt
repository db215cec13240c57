//! Laws of the definitions. These functions do nothing: their contracts are the laws.

ghost use Rattle.tce_command.specs.SourceLaws.{SourcesHaveOneOutcome};

/// A file specifies one thing, or is refused for one reason.
pub fn sources_have_one_outcome()
    ensures { SourcesHaveOneOutcome }
{}
