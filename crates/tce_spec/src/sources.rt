//! The tensors and arrays of nodes that a piece reads and computes.

ghost use Rattle.std.specs.Prelude.{◌≡◌, ◌<◌, ◌≤◌, ◌+◌, ◌++◌, ◌∷◌, [], None, nat_lt, codes, IfOk, IsTrue, length};
ghost use Rattle.std.specs.List.{list_all};
ghost use Rattle.std.specs.Fmt.{decimal};
ghost use Rattle.tce_space.specs.Limits.{max_nodes, max_rank, max_tensors};
ghost use Rattle.tce_space.specs.IndexSet.{count, members};
ghost use Rattle.tce_tree.specs.Expr.{tree_of};
ghost use Rattle.tce_tree.specs.ContractionTree.{operations, node_dims};
ghost use Rattle.tce_tree.specs.Measure.{IsMeasured};
ghost use Rattle.tce_spec.specs.Declarations.{IsTensor, tensor_number};
ghost use Rattle.tce_spec.specs.Storable.{ranges_of_node};
ghost use Rattle.tce_spec.specs.PieceSpecification.{source, declared_of};
ghost use Rattle.tce_spec.specs.PieceCode.{IsSource, CanDeclare};
ghost use Rattle.tce_spec.specs.Operands.{references, each_once};

use crate::copies::copied_space;
use crate::declarations::Declarations;
use crate::operands::add_operands;
use crate::spec::Spec;
use arrayvec::ArrayVec;
use std::alloc::{AllocError, Global};
use tce_fields::{decimal_text, members_of};
use tce_space::{MAX_NODES, MAX_RANK, MAX_TENSORS, Name, Space};
use tce_tree::{Expr, Tree};

/// The array of node `v` stands behind all tensors that may be declared, as number `FIRST_ARRAY + v`.
pub(crate) const FIRST_ARRAY: u8 = MAX_TENSORS as u8;

/// How many tensors and arrays of nodes there are at most.
const MAX_SOURCES: usize = MAX_TENSORS + MAX_NODES;

/// The tensors and arrays of an expression, by their first place from the left, each once.
pub(crate) fn sources_of(expr: &Expr) -> ArrayVec<u8, MAX_SOURCES>
    requires { IsTrue (list_all (λ t. nat_lt t (max_tensors + max_nodes)) (references (tree_of expr.now))) }
    ensures { result.items ≡ each_once (references (tree_of expr.now)) }
{
    let mut sources = ArrayVec::new();
    add_operands(&mut sources, expr);
    sources
}

/// The indexes of a node in order.
pub(crate) fn dims_of(tree: &Tree, v: u8) -> ArrayVec<u8, MAX_RANK>
    requires inside { v < operations tree.now }
    requires rank { count (node_dims tree.now v) ≤ max_rank }
    ensures { result.items ≡ members (node_dims tree.now v) }
{
    let all = members_of(tree.dims(v));
    let mut dims = ArrayVec::new();
    for index in all.as_slice() {
        dims.push(*index);
    }
    dims
}

// The name of a node's array.
fn array_name(v: u8) -> Name
    requires { v < max_nodes }
    ensures { result.bytes ≡ codes "spill-" ++ decimal v }
{
    let mut name = Name::new();
    name.push_str("spill-");
    name.push_str(decimal_text(u128::from(v)).as_str());
    name
}

// The ranges of a node's dims.
fn ranges_of(space: &Space, tree: &Tree, v: u8) -> ArrayVec<u8, MAX_RANK>
    requires measured { IsMeasured space.now tree.now }
    requires inside { v < operations tree.now }
    requires rank { count (node_dims tree.now v) ≤ max_rank }
    ensures { result.items ≡ ranges_of_node space.now tree.now v }
{
    let _indexes = space.index_count();
    let dims = dims_of(tree, v);
    let mut ranges = ArrayVec::new();
    for index in dims.as_slice() {
        ranges.push(space.range_of(*index));
    }
    ranges
}

// The name of a tensor or an array.
fn source_name(spec: &Spec, t: u8) -> Name
    requires { IsSource spec.now t }
    ensures { result.bytes ≡ (source spec.now t).name }
{
    let _rules = spec.space();
    if t < FIRST_ARRAY {
        spec.tensor(t).name
    } else {
        array_name(t - FIRST_ARRAY)
    }
}

// The ranges of a tensor or an array.
fn source_ranges(spec: &Spec, t: u8) -> Result<ArrayVec<u8, MAX_RANK>, AllocError>
    requires { IsSource spec.now t }
    ensures { IfOk result (λ ranges. ranges.items ≡ (source spec.now t).ranges) }
{
    let space = spec.space();
    if t < FIRST_ARRAY {
        spec.tensor(t).ranges.clone()
    } else {
        Ok(ranges_of(space, spec.tree(), t - FIRST_ARRAY))
    }
}

// One more tensor or array behind the others.
fn declare_source(
    declarations: Declarations,
    spec: &Spec,
    t: u8,
) -> Result<Declarations, AllocError>
    requires source { IsSource spec.now t }
    requires unnamed { tensor_number declarations.tensors (source spec.now t).name ≡ None }
    requires room { length declarations.tensors < max_tensors }
    requires fits { IsTensor declarations.space (source spec.now t) }
    ensures { IfOk result (λ d. d ≡ record {
      space = declarations.space;
      tensors = declarations.tensors ++ source spec.now t ∷ [];
    }) }
{
    match source_ranges(spec, t) {
        Ok(ranges) => declarations.with_tensor_over(source_name(spec, t), ranges),
        Err(error) => {
            drop(declarations);
            Err(error)
        }
    }
}

/// These tensors and arrays over the same space.
pub(crate) fn declared(
    alloc: Global,
    spec: &Spec,
    numbers: &[u8],
) -> Result<Declarations, AllocError>
    requires { CanDeclare spec.now numbers.now }
    ensures { IfOk result (λ d. d ≡ declared_of spec.now numbers.now) }
{
    let mut declarations = Declarations::over(alloc, copied_space(alloc, spec.space())?)?;
    for t in numbers {
        declarations = declare_source(declarations, spec, *t)?;
    }
    Ok(declarations)
}
