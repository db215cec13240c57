//! A specification, and its reader.

ghost use Rattle.std.specs.Prelude.{◌≡◌, ◌<◌, ◌≤◌, ◌+◌, length, Result, IfOk, IfErr};
ghost use Rattle.tce_space.specs.Limits.{max_spec_bytes};
ghost use Rattle.tce_space.specs.Tiling.{tile_words};
ghost use Rattle.tce_tree.specs.Expr.{tree_of};
ghost use Rattle.tce_spec.specs.Declarations.{HaveNames, tensor_number, tensor_at};
ghost use Rattle.tce_spec.specs.Specification.{IsSpecification};
ghost use Rattle.tce_spec.specs.Operands.{operands, largest_tile, shape_of};
ghost use Rattle.tce_spec.specs.OutcomeCode.{FormulaHasNames, SpecifiesAs, HasFault, AnswersText};
ghost use Rattle.tce_spec.specs.SpecCode.{specification_of, IsKept};

use crate::declarations::{Declarations, Tensor};
use crate::fault::SpecFault;
use crate::formula::{Contraction, read_formula};
use crate::operands::add_operands;
use crate::text::{Head, check_rest, read_head};
use arrayvec::ArrayVec;
use std::alloc::Global;
use std::marker::Model;
use tce_space::{MAX_TENSORS, Space};
use tce_tree::{Expr, Leaf, Tree};

/// Declared ranges, indexes and tensors, and a formula over them with its tree.
#[derive(Drop)]
pub struct Spec {
    declarations: Declarations,
    contraction: Contraction,
}

impl Model for Spec {
    ghost use Rattle.std.specs.Coded.{codes};
    ghost use Rattle.tce_tree.specs.TreeCode.{tree_code};
    ghost use Rattle.tce_spec.specs.Specification.{Specification};

    ghost Value = { Specification };

    ghost coded = { Prim.hlevel (codes, tree_code) };

    ghost use Rattle.tce_spec.specs.SpecCode.{specification_of, IsKept};

    ghost view = { λ s. specification_of s.declarations s.contraction };

    ghost invariant = { λ s. IsKept s.declarations s.contraction };
}

impl Spec {
    /// A specification of these parts.
    pub(crate) fn of_parts(declarations: Declarations, contraction: Contraction) -> Spec
        requires { IsKept declarations contraction }
        ensures { result ≡ specification_of declarations contraction }
    {
        Spec {
            declarations,
            contraction,
        }
    }

    /// The declared ranges, indexes and tensors.
    pub fn declarations(&self) -> &Declarations
        ensures declarations { result.now ≡ self.now.declarations }
        ensures rules { IsSpecification self.now }
    {
        &self.declarations
    }

    /// The declared ranges and indexes.
    pub fn space(&self) -> &Space
        ensures space { result.now ≡ self.now.declarations.space }
        ensures rules { IsSpecification self.now }
    {
        self.declarations.space()
    }

    /// The tree of the formula.
    pub fn tree(&self) -> &Tree
        ensures tree { result.now ≡ self.now.tree }
        ensures rules { IsSpecification self.now }
    {
        &self.contraction.tree
    }

    /// The tensor that is computed, with an index for each of its dimensions.
    pub fn result(&self) -> &Leaf
        ensures tensor { result.now.tensor ≡ self.now.result }
        ensures indexes { result.now.indexes.items ≡ self.now.indexes }
        ensures rules { IsSpecification self.now }
    {
        &self.contraction.result
    }

    /// The elements of the result, by those of the operands.
    pub fn expr(&self) -> &Expr
        ensures expr { tree_of result.now ≡ self.now.tree }
        ensures rules { IsSpecification self.now }
    {
        &self.contraction.expr
    }

    /// How many tensors are declared.
    pub fn tensor_count(&self) -> u8
        ensures { result ≡ length self.now.declarations.tensors }
    {
        self.declarations.tensor_count()
    }

    /// A declared tensor by its number.
    pub fn tensor(&self, t: u8) -> &Tensor
        requires { t < length self.now.declarations.tensors }
        ensures name { result.now.name.bytes ≡ (tensor_at self.now.declarations t).name }
        ensures ranges { result.now.ranges.items ≡ (tensor_at self.now.declarations t).ranges }
        ensures shape { result.now.shape ≡ shape_of self.now t }
    {
        self.declarations.tensor(t)
    }

    /// The number of the tensor with this name. `None` exactly where no tensor has it.
    pub fn tensor_named(&self, name: &str) -> Option<u8>
        ensures { result ≡ tensor_number self.now.declarations.tensors name.now }
    {
        self.declarations.tensor_named(name)
    }

    /// The numbers of the tensors of the formula, by their first place from the left, each once.
    pub fn operands(&self) -> ArrayVec<u8, MAX_TENSORS>
        ensures { result.items ≡ operands self.now }
    {
        let mut seen = ArrayVec::new();
        add_operands(&mut seen, &self.contraction.expr);
        seen
    }

    /// The words of the largest tile of the operands and the result.
    pub fn largest_tile(&self) -> u64
        ensures { result ≡ largest_tile self.now }
    {
        let operands = self.operands();
        let mut largest = self.tile_words(self.contraction.result.tensor);
        for t in operands.as_slice() {
            largest = largest.max(self.tile_words(*t));
        }
        largest
    }

    /// The words of a tile of a tensor.
    fn tile_words(&self, t: u8) -> u64
        requires { t < length self.now.declarations.tensors }
        ensures { result ≡ tile_words (shape_of self.now t) }
    {
        self.tensor(t).shape.tile_words()
    }
}

/// What the formula of a head means, with nothing but skipped lines behind it.
fn read_contraction(alloc: Global, head: &Head) -> Result<Contraction, SpecFault>
    requires names { FormulaHasNames head.now }
    requires few { head.now.line + length head.now.rest.now ≤ max_spec_bytes }
    ensures kept { IfOk result (IsKept head.now.declarations) }
    ensures specified { IfOk result (SpecifiesAs head.now) }
    ensures fault { IfErr result (HasFault head.now) }
{
    // Declarations keep their rules.
    let _space = head.declarations.space();
    let contraction = read_formula(
        alloc,
        head.line,
        &head.declarations,
        head.result,
        head.indexes.as_slice(),
        &head.formula,
    )?;
    match check_rest(alloc, head.line + 1, head.rest) {
        Ok(()) => Ok(contraction),
        Err(fault) => {
            drop(contraction);
            Err(fault)
        }
    }
}

/// Reads a specification.
///
/// `TooLong` where the text has more than 65,536 bytes. Else the first line with a fault decides, and on one line the
/// first fault in the order of [`SpecFault`]. The numbers kept in faults are those of lines, from 1.
pub fn read_spec(alloc: Global, text: &[u8]) -> Result<Spec, SpecFault>
    ensures answers { AnswersText text.now result }
    ensures names { IfOk result (λ s. HaveNames s.declarations.tensors) }
{
    let head = read_head(alloc, text)?;
    match read_contraction(alloc, &head) {
        Ok(contraction) => Ok(Spec {
            declarations: head.declarations,
            contraction,
        }),
        Err(fault) => {
            drop(head);
            Err(fault)
        }
    }
}
