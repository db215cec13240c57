//! Laws of the definitions. These functions do nothing: their contracts are the laws.

ghost use Rattle.tce_spec.specs.FormulaExamples.{ExamplesHaveTheirFaults, ExamplesMeanTheirTrees};
ghost use Rattle.tce_spec.specs.FormulaLaws.{FormulaLinesHaveNames};

/// A line that says a formula has names where names stand, as [`crate::read_formula`] asks.
pub fn formula_lines_have_names()
    ensures { FormulaLinesHaveNames }
{}

/// Some lines that were judged by hand have the fault that they were found to have, or none.
pub fn formula_examples_have_their_faults()
    ensures { ExamplesHaveTheirFaults }
{}

/// Some lines mean the trees that were written by hand.
pub fn examples_mean_their_trees()
    ensures { ExamplesMeanTheirTrees }
{}
