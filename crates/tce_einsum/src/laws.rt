//! Laws of the definitions. These functions do nothing: their contracts are the laws.

ghost use Rattle.tce_einsum.specs.ContractionLaws.{
  EveryPathHasTheValue,
  EveryTextHasItsValue,
  PathsLeaveOneEntry,
  PathsLeaveTheirEntries,
  ProductsHaveNoOrder,
  SizesAreFew,
};
ghost use Rattle.tce_einsum.specs.HasValue.{SpecificationsHaveTheValue};
ghost use Rattle.tce_einsum.specs.Laws.{ReadingIsTheGrammar, TextsHaveOneReading};
ghost use Rattle.tce_einsum.specs.ProducedExamples.{ExamplesProduceTheirTexts};
ghost use Rattle.tce_einsum.specs.ValueLaws.{
  ProductsAssociate,
  ProductsCommute,
  SumsExchange,
  SumsHaveNoOrder,
  SumsJoin,
  SumsMoveOutOfLeftOperands,
  SumsMoveOutOfRightOperands,
};

/// What is read from the left is what the grammar says, and nothing else.
pub fn reading_is_the_grammar()
    ensures { ReadingIsTheGrammar }
{}

/// A text has one reading at most.
pub fn texts_have_one_reading()
    ensures { TextsHaveOneReading }
{}

/// A sum moves out of a product whose right operand has none of its indexes.
pub fn sums_move_out_of_left_operands()
    ensures { SumsMoveOutOfLeftOperands }
{}

/// A sum moves out of a product whose left operand has none of its indexes.
pub fn sums_move_out_of_right_operands()
    ensures { SumsMoveOutOfRightOperands }
{}

/// The operands of a product may change places.
pub fn products_commute()
    ensures { ProductsCommute }
{}

/// Products may be grouped to either side.
pub fn products_associate()
    ensures { ProductsAssociate }
{}

/// A sum of a sum is one sum over the indexes of both.
pub fn sums_join()
    ensures { SumsJoin }
{}

/// Neighbours in the list of a sum may change places.
pub fn sums_exchange()
    ensures { SumsExchange }
{}

/// The indexes of a sum may be listed in any order.
pub fn sums_have_no_order()
    ensures { SumsHaveNoOrder }
{}

/// A product of words does not depend on their order.
pub fn products_have_no_order()
    ensures { ProductsHaveNoOrder }
{}

/// A path leaves as many entries as its items say.
pub fn paths_leave_their_entries()
    ensures { PathsLeaveTheirEntries }
{}

/// The tree that a path leaves has the value of the einsum, for all contents of the operands, whatever the path.
pub fn every_path_has_the_value()
    ensures { EveryPathHasTheValue }
{}

/// A text and a path that are read give a tree with the value of the text's einsum, for all contents of the operands.
pub fn every_text_has_its_value()
    ensures { EveryTextHasItsValue }
{}

/// What the text specifies that an einsum and a path produce has the value of the einsum, for all contents of the operands.
pub fn specifications_have_the_value()
    ensures { SpecificationsHaveTheValue }
{}

/// A text that is read has no more sizes than there are letters.
pub fn sizes_are_few()
    ensures { SizesAreFew }
{}

/// The items of a path that is read leave one entry of the operands.
pub fn paths_leave_one_entry()
    ensures { PathsLeaveOneEntry }
{}

/// Texts that were written by hand are those that their einsums and paths produce.
pub fn examples_produce_their_texts()
    ensures { ExamplesProduceTheirTexts }
{}
