//! Laws of the definitions. These functions do nothing: their contracts are the laws.

ghost use Rattle.tce_job.specs.Laws.{OperandsAreThoseOfTheTree, MadeResultsAreZero, FlushedResultsAreTold};
ghost use Rattle.tce_job.specs.Reading.{OpenedArraysAreRead};

/// The operands of a specification are the tensors of its tree.
pub fn operands_are_those_of_the_tree()
    ensures { OperandsAreThoseOfTheTree }
{}

/// Operands that were opened have their files, also once the result's file was made, and a cache finds their elements
/// in them.
pub fn opened_arrays_are_read()
    ensures { OpenedArraysAreRead }
{}

/// The file of a result is made with zeros.
pub fn made_results_are_zero()
    ensures { MadeResultsAreZero }
{}

/// A finished result that was flushed has the bytes of the formula.
pub fn flushed_results_are_told()
    ensures { FlushedResultsAreTold }
{}
