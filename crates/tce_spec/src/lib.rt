//! Specifications: declared ranges, indexes and tensors, and one formula over them.
//!
//! [`read_spec`] reads a text. What a text specifies, or with which fault it is refused, is `specs/Outcome.antt`: the
//! first line with a fault decides. A [`Spec`] is seen as a `Specification` (`specs/Specification.antt`), and each keeps
//! the rules that stand there. [`piece`] gives the specification of a piece of a tree that is cut
//! (`specs/PieceSpecification.antt`).
//!
//! [`read_head`] reads a text up to the line of its formula, and [`check_rest`] what stands behind that line. A
//! [`Declarations`] is seen as an index space and a list of tensors, in order of declaration
//! (`specs/Declarations.antt`). The faults of a line are the rows of `specs/DeclarationLines.antt`, in the order in
//! which they are tried, and `specs/Text.antt` says what the lines of a text mean together.
//!
//! [`read_formula`] reads the line of the formula. It is faulty where a name is not declared, a list of indexes does not
//! fit its tensor, an index stands twice in a list, the result is an operand, or the expression has no tree over the
//! indexes of the result. The faults are tried in a fixed order, each over the whole line from the left:
//! `specs/FormulaFaults.antt` is that order, and `specs/Meaning.antt` is what a formula without a fault means.
//!
//! [`print_spec`] prints the canonical text of a specification (`specs/Canonical.antt`), and [`read_back`] reads it again.
//! `specs/Statements.antt` lists the statements of declarations and of a contraction over them: a line for each range, the
//! indexes in order of declaration with neighbours of one range on one line, a line for each tensor, and the formula. How
//! statements stand as lines of bytes is the canonical text of `tce_grammar`.
//!
//! `specs/Pieces.antt` says what the pieces of a tree are that is cut at a set of nodes, whose values are stored in arrays, and
//! `specs/Storable.antt` which nodes may be stored. The laws of `cut_laws.rt` say that the pieces, one after the other, have the
//! values of the tree.
//!
//! The functions that do nothing carry laws of these definitions.
#![tactic(auto)]

mod canonical_laws;
mod canonical_texts;
mod constant;
mod copies;
mod cut_laws;
mod declaration_laws;
mod declarations;
mod expression;
mod expression_text;
mod fault;
mod formula;
mod formula_laws;
mod index_lines;
mod indexes;
mod laws;
mod names;
mod numbers;
mod operands;
mod pieces;
mod print;
mod range_lines;
mod ranges;
mod rule;
mod sources;
mod spec;
mod tensor_lines;
mod tensors;
mod text;
mod words;

pub use canonical_laws::{
    accepted_texts_have_canonical_texts, canonical_texts_are_short,
    canonical_texts_specify_the_same, canonical_texts_tell_specifications,
    texts_specify_what_can_be_written,
};
pub use canonical_texts::{print_spec, read_back};
pub use cut_laws::{piece_has_value, pieces_have_values};
pub use declaration_laws::{declaration_examples_have_their_faults, every_text_has_one_reading};
pub use declarations::{Declarations, Tensor};
pub use fault::{Limit, SpecFault};
pub use formula::{Contraction, read_formula};
pub use formula_laws::{
    examples_mean_their_trees, formula_examples_have_their_faults, formula_lines_have_names,
};
pub use laws::{every_text_has_one_outcome, piece_specification_has_value};
pub use numbers::{leads_with_zero, value_of};
pub use pieces::piece;
pub use print::print_lines;
pub use spec::{Spec, read_spec};
pub use text::{Head, check_rest, read_head};
