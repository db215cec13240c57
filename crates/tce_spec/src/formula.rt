//! The formula line as a whole.

ghost use Rattle.std.specs.Prelude.{◌≡◌, ◌≤◌, ◌==◌, None, IfOk, IfErr, OnOk, IsTrue};
ghost use Rattle.tce_space.specs.Name.{is_name};
ghost use Rattle.tce_tree.specs.Expr.{tree_of};
ghost use Rattle.tce_tree.specs.ContractionTree.{dims, operations as node_count};
ghost use Rattle.tce_tree.specs.WellFormed.{IsDeclaredTree, sums_distinct};
ghost use Rattle.tce_tree.specs.Measure.{IsMeasured};
ghost use Rattle.tce_tree.specs.Faults.{fault_of};
ghost use Rattle.tce_space.specs.IndexSet.{set_of};
ghost use Rattle.tce_space.specs.Limits.{max_nodes};
ghost use Rattle.tce_grammar.specs.Code.{names, formula};
ghost use Rattle.tce_grammar.specs.Grammar.{AreNames};
ghost use Rattle.tce_grammar.specs.Formula.{operations};
ghost use Rattle.tce_spec.specs.FaultCode.{Shows};
ghost use Rattle.tce_spec.specs.Places.{IsNamed};
ghost use Rattle.tce_spec.specs.Rules.{column};
ghost use Rattle.tce_spec.specs.Meaning.{meaning, tensor_of};
ghost use Rattle.tce_spec.specs.FormulaLineCode.{AreIndexesOf, GoodPlaces, BadPlace, BadExpression, GoodTree, BadTree, KeepsRules, GoodLine, BadLine, HasIndexes, HasMeaning};

use crate::constant::has_good_constants;
use crate::declarations::Declarations;
use crate::expression::{expression_of, leaf_of};
use crate::fault::SpecFault;
use crate::rule::Rule;
use std::alloc::Global;
use tce_grammar::{Formula, name_of};
use tce_space::{IndexSet, MAX_NODES};
use tce_tree::{Expr, Leaf, Tree, TreeFault};

/// What a formula line computes.
#[derive(Drop)]
pub struct Contraction {
    /// The tensor that is computed, with an index for each of its dimensions.
    pub result: Leaf,
    /// Its elements, by those of other tensors.
    pub expr: Expr,
    /// The tree of the expression.
    pub tree: Tree,
}

/// Refuses a formula line that breaks a rule.
fn keep(
    rule: Rule,
    line: u64,
    declarations: &Declarations,
    name: &[u8],
    indexes: &[&[u8]],
    written: &Formula,
) -> Result<(), SpecFault>
    requires name { IsTrue (is_name name.now) }
    requires indexes { AreNames (names indexes.now) }
    requires written { IsNamed (formula written.now) }
    ensures ok { OnOk result (column rule.entry line declarations.now name.now (names indexes.now) (formula written.now) ≡ None) }
    ensures fault { IfErr result (Shows (column rule.entry line declarations.now name.now (names indexes.now) (formula written.now))) }
{
    match rule.broken_by_line(declarations, name, indexes, written) {
        Some(broken) => Err(rule.fault(line, broken)),
        None => Ok(()),
    }
}

/// Refuses a formula line by its names, their places and its constants.
fn check_places(
    line: u64,
    declarations: &Declarations,
    name: &[u8],
    indexes: &[&[u8]],
    written: &Formula,
) -> Result<(), SpecFault>
    requires name { IsTrue (is_name name.now) }
    requires indexes { AreNames (names indexes.now) }
    requires written { IsNamed (formula written.now) }
    ensures ok { OnOk result (GoodPlaces line declarations.now name.now indexes.now written.now) }
    ensures fault { IfErr result (BadPlace line declarations.now name.now indexes.now written.now) }
{
    keep(Rule::Declared, line, declarations, name, indexes, written)?;
    if !has_good_constants(written) {
        return Err(SpecFault::BadNumber(line));
    }
    keep(Rule::SameRank, line, declarations, name, indexes, written)?;
    keep(Rule::SameRanges, line, declarations, name, indexes, written)?;
    keep(Rule::ListedOnce, line, declarations, name, indexes, written)?;
    keep(
        Rule::NotNamed(name),
        line,
        declarations,
        name,
        indexes,
        written,
    )
}

/// The tree of an expression that stands in a formula line.
fn build_tree(
    alloc: Global,
    line: u64,
    declarations: &Declarations,
    expr: &Expr,
) -> Result<Tree, SpecFault>
    requires few { node_count (tree_of expr.now) ≤ max_nodes }
    requires declared { IsDeclaredTree declarations.now.space (tree_of expr.now) }
    requires distinct { IsTrue (sums_distinct (tree_of expr.now)) }
    ensures ok { IfOk result (λ tree. tree ≡ tree_of expr.now) }
    ensures faultless { OnOk result (fault_of declarations.now.space (tree_of expr.now) ≡ None) }
    ensures measured { OnOk result (IsMeasured declarations.now.space (tree_of expr.now)) }
    ensures fault { IfErr result (BadExpression line declarations.now expr.now) }
{
    match Tree::build(alloc, declarations.space(), expr) {
        Ok(tree) => Ok(tree),
        Err(TreeFault::Memory) => Err(SpecFault::Memory),
        Err(fault) => Err(SpecFault::Tree(line, fault)),
    }
}

/// Whether a tree has the listed indexes and no others.
fn has_indexes(declarations: &Declarations, tree: &Tree, indexes: &[u8]) -> bool
    requires { AreIndexesOf declarations.now indexes.now }
    ensures { result ≡ (set_of indexes.now == dims tree.now) }
{
    let _count = declarations.space().index_count();
    let root = tree.count() - 1;
    IndexSet::of_list(indexes) == tree.dims(root)
}

/// What a formula line means that has no fault but of its tree.
fn contraction_of(
    alloc: Global,
    line: u64,
    declarations: &Declarations,
    name: &[u8],
    indexes: &[&[u8]],
    written: &Formula,
) -> Result<Contraction, SpecFault>
    requires name { IsTrue (is_name name.now) }
    requires indexes { AreNames (names indexes.now) }
    requires written { IsNamed (formula written.now) }
    requires few { operations (formula written.now) ≤ max_nodes }
    requires faultless { GoodPlaces line declarations.now name.now indexes.now written.now }
    ensures tensor { IfOk result (λ c. c.result.tensor ≡ tensor_of declarations.now name.now) }
    ensures indexes { IfOk result (HasIndexes declarations.now indexes.now) }
    ensures expr { IfOk result (HasMeaning declarations.now written.now) }
    ensures tree { IfOk result (λ c. c.tree ≡ meaning declarations.now (formula written.now)) }
    ensures measured { IfOk result (λ c. IsMeasured declarations.now.space c.tree) }
    ensures ok { OnOk result (GoodTree line declarations.now indexes.now written.now) }
    ensures fault { IfErr result (BadTree line declarations.now indexes.now written.now) }
{
    let _space = declarations.space();
    let expr = expression_of(alloc, declarations, written)?;
    let tree = build_tree(alloc, line, declarations, &expr)?;
    let result = leaf_of(declarations, name, indexes);
    let contraction = Contraction { result, expr, tree };
    if has_indexes(
        declarations,
        &contraction.tree,
        contraction.result.indexes.as_slice(),
    ) {
        Ok(contraction)
    } else {
        drop(contraction);
        Err(SpecFault::ResultIndices(line))
    }
}

/// Reads a formula line over its declarations: what `NAME[INDEX,INDEX,..] = FORMULA` computes, with its tree.
///
/// `line` is the number of the line, which its faults name. They are tried in this order, each over the whole line from
/// the left, the result in front:
///
/// - `TooManyNodes`: there are more than 32 sums, products, additions and subtractions;
/// - `UnknownName`: a tensor or an index is not declared;
/// - `BadNumber`: a constant has a needless 0 in front or is 2^64 or more;
/// - `RankDiffers`: a tensor has not an index for each of its dimensions;
/// - `RangeDiffers`: an index is not of the range of its dimension;
/// - `IndexTwice`: the result or a sum lists an index twice, and this is the second place;
/// - `ResultIsOperand`: the result stands in the formula;
/// - `Tree`: the expression has no tree, as [`Tree::build`] says;
/// - `ResultIndices`: the indexes of the result are not those of the expression.
pub fn read_formula(
    alloc: Global,
    line: u64,
    declarations: &Declarations,
    name: &[u8],
    indexes: &[&[u8]],
    written: &Formula,
) -> Result<Contraction, SpecFault>
    requires name { IsTrue (is_name name.now) }
    requires indexes { AreNames (names indexes.now) }
    requires written { IsNamed (formula written.now) }
    ensures tensor { IfOk result (λ c. c.result.tensor ≡ tensor_of declarations.now name.now) }
    ensures indexes { IfOk result (HasIndexes declarations.now indexes.now) }
    ensures expr { IfOk result (HasMeaning declarations.now written.now) }
    ensures tree { IfOk result (λ c. c.tree ≡ meaning declarations.now (formula written.now)) }
    ensures measured { IfOk result (λ c. IsMeasured declarations.now.space c.tree) }
    ensures rules { IfOk result (KeepsRules declarations.now) }
    ensures ok { OnOk result (GoodLine line declarations.now name.now indexes.now written.now) }
    ensures fault { IfErr result (BadLine line declarations.now name.now indexes.now written.now) }
{
    let _space = declarations.space();
    if written.has_more_operations(MAX_NODES as u32) {
        return Err(SpecFault::TooManyNodes(line));
    }
    check_places(line, declarations, name, indexes, written)?;
    contraction_of(alloc, line, declarations, name, indexes, written)
}
