//! Laws of the definitions. These functions do nothing: their contracts are the laws.

ghost use Rattle.tce_grammar.specs.Examples.{
  CanonicalExamplesArePrinted,
  ExamplesAreTheirLines,
  TextExamplesHaveTheirLines,
};
ghost use Rattle.tce_grammar.specs.Laws.{
  CanonicalFormulasMeanThemselves,
  CanonicalTextsSayTheirStatements,
  EveryLineHasOneReading,
  JoinedLinesAreTheLines,
  PrintedTokensAreReadBack,
  TokensPrintTheLine,
};

/// Every text of a line is one thing: skipped, bad, or a line that says one statement.
pub fn every_line_has_one_reading()
    ensures { EveryLineHasOneReading }
{}

/// The canonical writing of a formula is in the grammar, means the formula, and has no more parentheses open at once
/// than the formula has operations.
pub fn canonical_formulas_mean_themselves()
    ensures { CanonicalFormulasMeanThemselves }
{}

/// Printed tokens are read as themselves.
pub fn printed_tokens_are_read_back()
    ensures { PrintedTokensAreReadBack }
{}

/// Printing token after token prints the line.
pub fn tokens_print_the_line()
    ensures { TokensPrintTheLine }
{}

/// Lines that end in line feeds are the lines of the text that they make.
pub fn joined_lines_are_the_lines()
    ensures { JoinedLinesAreTheLines }
{}

/// The lines of the canonical text of statements say these statements.
pub fn canonical_texts_say_their_statements()
    ensures { CanonicalTextsSayTheirStatements }
{}

/// Some sixty lines that were read by hand are what they were read as.
pub fn examples_are_their_lines()
    ensures { ExamplesAreTheirLines }
{}

/// Some texts that were cut by hand have these lines.
pub fn text_examples_have_their_lines()
    ensures { TextExamplesHaveTheirLines }
{}

/// Some lines say what they were read as, and have the canonical text that was written by hand.
pub fn canonical_examples_are_printed()
    ensures { CanonicalExamplesArePrinted }
{}
