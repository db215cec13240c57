//! Laws of the definitions. These functions do nothing: their contracts are the laws.

ghost use Rattle.tce_run.specs.Laws.{RunsHaveOneAnswer};

/// What can be run is not refused, what is refused has one reason, and what is run could be run.
pub fn runs_have_one_answer()
    ensures { RunsHaveOneAnswer }
{}
