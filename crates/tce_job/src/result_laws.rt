//! Laws of the definitions. These functions do nothing: their contracts are the laws.

ghost use Rattle.tce_job.specs.ResultLaws.{TensorsHaveFiles, ResultsAreTold};

/// The shapes of tensors keep the limits of shapes, and different tensors have different files.
pub fn tensors_have_files()
    ensures { TensorsHaveFiles }
{}

/// A result's file is told by its elements, which are the values of the formula, and by its padding. What it held before
/// does not matter.
pub fn results_are_told()
    ensures { ResultsAreTold }
{}
