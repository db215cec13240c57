//! Several specifications over the same declarations.

ghost use Rattle.std.specs.Prelude.{◌≡◌, ◌<◌, ◌≤◌, ◌==◌, eqb, length, IfOk, slice_get, Some};
ghost use Rattle.std.specs.List.{list_any};
ghost use Rattle.tce_batch.specs.BatchCode.{AreOver, IsBatch, results_before};

use std::alloc::{AllocError, Global};
use std::marker::Model;
use tce_spec::{Contraction, Declarations, Spec, print_lines, read_spec};

/// One formula or more, in order, over the same ranges, indexes and tensors. Contracts see the list of specifications.
#[derive(Drop)]
pub struct Batch {
    pub(crate) declarations: Declarations,
    pub(crate) contractions: Vec<Contraction>,
}

impl Model for Batch {
    ghost use Rattle.std.specs.Prelude.{List};
    ghost use Rattle.tce_spec.specs.Specification.{Specification};
    ghost use Rattle.std.specs.Coded.{codes};
    ghost use Rattle.tce_tree.specs.TreeCode.{tree_code};

    ghost Value = { List Specification };

    ghost coded = { Prim.hlevel (codes, tree_code) };

    ghost use Rattle.tce_batch.specs.BatchCode.{specifications_of, AreKept};

    ghost view = { λ b. specifications_of b.declarations b.contractions.items };

    ghost invariant = { λ b. AreKept b.declarations b.contractions.items };
}

/// Whether one of these computes the tensor.
fn is_computed(contractions: &[Contraction], t: u8) -> bool
    ensures { result ≡ list_any (λ c. t == c.result.tensor) contractions.now }
{
    contractions.iter().any(|c| t == c.result.tensor)
}

impl Batch {
    /// How many formulas there are.
    pub fn len(&self) -> usize
        ensures count { result ≡ length self.now }
        ensures rules { IsBatch self.now }
    {
        self.contractions.len()
    }

    /// The declared ranges, indexes and tensors, which all formulas have.
    pub fn declarations(&self) -> &Declarations
        ensures { AreOver result.now self.now }
    {
        &self.declarations
    }

    /// A specification by its number, from 0.
    pub fn spec(&self, alloc: Global, number: usize) -> Result<Spec, AllocError>
        requires { number < length self.now }
        ensures { IfOk result (λ spec. slice_get self.now number ≡ Some spec) }
    {
        let Contraction { result, expr, .. } = &self.contractions[number];
        let text = print_lines(alloc, &self.declarations, result, expr)?;
        match read_spec(alloc, text.as_slice()) {
            Ok(spec) => Ok(spec),
            // The canonical text of a specification has no fault.
            Err(_) => Err(AllocError),
        }
    }

    /// Whether a tensor is the result of one of the first formulas, that many of them.
    pub fn is_result_before(&self, number: usize, t: u8) -> bool
        requires { number ≤ length self.now }
        ensures { result ≡ list_any (eqb t) (results_before self.now number) }
    {
        is_computed(&self.contractions[..number], t)
    }
}
