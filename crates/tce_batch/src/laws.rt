//! Laws of the definitions. These functions do nothing: their contracts are the laws.

ghost use Rattle.tce_batch.specs.Laws.{EveryTextHasOneBatch};

/// Every text specifies one batch, or has one fault as a batch.
pub fn every_text_has_one_batch()
    ensures { EveryTextHasOneBatch }
{}
