//! Laws of the definitions. These functions do nothing: their contracts are the laws.

ghost use Rattle.tce_spec.specs.Laws.{EveryTextHasOneOutcome};
ghost use Rattle.tce_spec.specs.PieceLaws.{PieceSpecificationHasValue};

/// Every text specifies one thing, or has one fault.
pub fn every_text_has_one_outcome()
    ensures { EveryTextHasOneOutcome }
{}

/// Over files in which its arrays have the values of the cut nodes, the specification of a piece has the value of its node.
pub fn piece_specification_has_value()
    ensures { PieceSpecificationHasValue }
{}
