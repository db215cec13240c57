//! Laws of the definitions. These functions do nothing: their contracts are the laws.

ghost use Rattle.tce_spec.specs.DeclarationExamples.{ExamplesHaveTheirFaults};
ghost use Rattle.tce_spec.specs.DeclarationLaws.{EveryTextHasOneReading};

/// Every text has one head, or one fault in its place, and the lines behind a formula have one fault, or none.
pub fn every_text_has_one_reading()
    ensures { EveryTextHasOneReading }
{}

/// Some lines that were judged by hand have the fault that was found.
pub fn declaration_examples_have_their_faults()
    ensures { ExamplesHaveTheirFaults }
{}
