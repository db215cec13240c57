//! Laws of the definitions. These functions do nothing: their contracts are the laws.

ghost use Rattle.tce_run.specs.BatchSourceLaws.{BatchSourcesHaveOneOutcome};
ghost use Rattle.tce_run.specs.SequenceLaws.{BatchesHaveOneAnswer, SpillsHaveOneAnswer};

/// Formulas that can be run are not refused, those that are refused have one reason, and those that are run could be run.
pub fn batches_have_one_answer()
    ensures { BatchesHaveOneAnswer }
{}

/// A tree that can be run in pieces is not refused, one that is refused has one reason, and one that is run could be run.
pub fn spills_have_one_answer()
    ensures { SpillsHaveOneAnswer }
{}

/// A file specifies one list of formulas, or is refused for one reason.
pub fn batch_sources_have_one_outcome()
    ensures { BatchSourcesHaveOneOutcome }
{}
