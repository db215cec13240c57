//! The rules that each place of a formula keeps, or breaks at a name.

ghost use Rattle.std.specs.Prelude.{ℕ, IsTrue, Some};
ghost use Rattle.tce_space.specs.Name.{is_name};
ghost use Rattle.tce_grammar.specs.Code.{names, formula};
ghost use Rattle.tce_grammar.specs.Grammar.{AreNames};
ghost use Rattle.tce_spec.specs.FaultCode.{Shows};
ghost use Rattle.tce_spec.specs.Places.{listing, places, IsNamed};
ghost use Rattle.tce_spec.specs.Rules.{rule_fault, BrokenAt, FirstBroken, BrokenResult, BrokenLine, tensor_place};

use crate::declarations::Declarations;
use crate::fault::SpecFault;
use crate::names::{listed_twice, ranges_of, tensor_named, undeclared_index, wrong_index};
use tce_grammar::{Formula, name_of};
use tce_space::Name;

/// What the names at a place of a formula keep.
#[derive(Clone, Copy)]
pub(crate) enum Rule<'a> {
    /// Each name is declared.
    Declared,
    /// A tensor has an index for each of its dimensions.
    SameRank,
    /// The indexes of a tensor are of the ranges of its dimensions.
    SameRanges,
    /// No index stands twice in a list.
    ListedOnce,
    /// No tensor has this name.
    NotNamed(&'a [u8]),
}

impl<'a> Rule<'a> {
    /// The name at which a tensor with its indexes breaks the rule.
    fn broken_by_tensor(
        self,
        declarations: &Declarations,
        name: &[u8],
        indexes: &[&[u8]],
    ) -> Option<Name>
        requires name { IsTrue (is_name name.now) }
        requires indexes { AreNames (names indexes.now) }
        ensures { BrokenAt declarations.now self.entry (tensor_place name.now indexes.now) result }
    {
        match self {
            Rule::Declared => match tensor_named(declarations, name) {
                Some(_) => undeclared_index(declarations.space(), indexes),
                None => Some(name_of(name)),
            },
            Rule::SameRank if indexes.len() != ranges_of(declarations, name).len() => {
                Some(name_of(name))
            }
            Rule::SameRanges => {
                wrong_index(declarations.space(), indexes, ranges_of(declarations, name))
            }
            Rule::NotNamed(other) if name == other => Some(name_of(name)),
            _ => None,
        }
    }

    /// The name at which the list of a sum breaks the rule.
    fn broken_by_list(self, declarations: &Declarations, indexes: &[&[u8]]) -> Option<Name>
        requires { AreNames (names indexes.now) }
        ensures { BrokenAt declarations.now self.entry (listing (names indexes.now)) result }
    {
        match self {
            Rule::Declared => undeclared_index(declarations.space(), indexes),
            Rule::ListedOnce => listed_twice(indexes),
            _ => None,
        }
    }

    /// The leftmost name at which a formula breaks the rule.
    #[tactic(auto, using(crate::proofs::Joined::first_joined))]
    fn broken_by_formula(self, declarations: &Declarations, written: &Formula) -> Option<Name>
        requires { IsNamed (formula written.now) }
        ensures { FirstBroken declarations.now self.entry (places (formula written.now)) result }
    {
        match written {
            Formula::Tensor { name, indexes } => {
                self.broken_by_tensor(declarations, *name, indexes.as_slice())
            }
            Formula::Constant(_) => None,
            Formula::Sum { indexes, operand } => {
                match self.broken_by_list(declarations, indexes.as_slice()) {
                    Some(name) => Some(name),
                    None => self.broken_by_formula(declarations, operand),
                }
            }
            Formula::Binary { left, right, .. } => {
                match self.broken_by_formula(declarations, left) {
                    Some(name) => Some(name),
                    None => self.broken_by_formula(declarations, right),
                }
            }
        }
    }

    /// The name at which the result breaks the rule.
    fn broken_by_result(
        self,
        declarations: &Declarations,
        name: &[u8],
        indexes: &[&[u8]],
    ) -> Option<Name>
        requires name { IsTrue (is_name name.now) }
        requires indexes { AreNames (names indexes.now) }
        ensures { BrokenResult declarations.now self.entry name.now indexes.now result }
    {
        match self {
            Rule::ListedOnce => self.broken_by_list(declarations, indexes),
            Rule::NotNamed(_) => None,
            _ => self.broken_by_tensor(declarations, name, indexes),
        }
    }

    /// The leftmost name at which a formula line breaks the rule.
    pub(crate) fn broken_by_line(
        self,
        declarations: &Declarations,
        name: &[u8],
        indexes: &[&[u8]],
        written: &Formula,
    ) -> Option<Name>
        requires name { IsTrue (is_name name.now) }
        requires indexes { AreNames (names indexes.now) }
        requires written { IsNamed (formula written.now) }
        ensures { BrokenLine declarations.now self.entry name.now indexes.now written.now result }
    {
        match self.broken_by_result(declarations, name, indexes) {
            Some(found) => Some(found),
            None => self.broken_by_formula(declarations, written),
        }
    }

    /// The fault of a line in which a name breaks the rule.
    pub(crate) fn fault(self, line: u64, name: Name) -> SpecFault
        ensures { Shows (Some (rule_fault line self.entry name.bytes)) result }
    {
        match self {
            Rule::Declared => SpecFault::UnknownName(line, name),
            Rule::SameRank => SpecFault::RankDiffers(line, name),
            Rule::SameRanges => SpecFault::RangeDiffers(line, name),
            Rule::ListedOnce => SpecFault::IndexTwice(line, name),
            Rule::NotNamed(_) => SpecFault::ResultIsOperand(line, name),
        }
    }
}
