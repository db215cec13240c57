//! Declared ranges, indexes and tensors.

ghost use Rattle.std.specs.Prelude.{◌≡◌, ◌<◌, ◌≤◌, ◌++◌, ◌∷◌, [], Err, None, All, length, IfOk, IfErr, IfSome, OnOk, IsTrue};
ghost use Rattle.std.specs.List.{IsDistinct};
ghost use Rattle.std.specs.Str.{bytes_eq};
ghost use Rattle.tce_space.specs.Limits.{max_name_bytes, max_tensors};
ghost use Rattle.tce_space.specs.Name.{is_name};
ghost use Rattle.tce_grammar.specs.Grammar.{AreNames};
ghost use Rattle.tce_grammar.specs.Code.{names, statement};
ghost use Rattle.tce_spec.specs.DeclarationLines.{with_range, with_indexes, with_tensor, statement_fault, with_statement, HasNames};
ghost use Rattle.tce_spec.specs.FaultCode.{Shows};
ghost use Rattle.tce_space.specs.SpaceEntries.{entry_number, names_of};
ghost use Rattle.tce_spec.specs.Declarations.{IsDeclarations, IsTensor, nothing_declared, tensor_number, tensor_at, tensor_shape};
ghost use Rattle.tce_spec.specs.DeclarationsCode.{entry_of};
ghost use Rattle.tce_spec.specs.DeclarationLineCode.{RangeFits, ShowsRange, DeclaresRange, IndexesFit, ShowsIndexes, DeclaresIndexes, TensorFits, ShowsTensor, IsOverRanges, HasShapeOf};

use crate::fault::{Limit, SpecFault};
use crate::indexes::declare_indexes;
use crate::ranges::declare_range;
use crate::tensors::{range_numbers, unknown_range};
use arrayvec::ArrayVec;
use indexmap::IndexMap;
use std::alloc::{AllocError, Global};
use std::marker::Model;
use tce_grammar::{Statement, name_of};
use tce_space::{MAX_RANK, MAX_TENSORS, Name, Shape, ShapeFault, Space};

/// A declared tensor: its name, the number of the range of each dimension, and the shape that these ranges give.
#[derive(Drop)]
pub struct Tensor {
    pub name: Name,
    pub ranges: ArrayVec<u8, MAX_RANK>,
    pub shape: Shape,
}

/// The declared ranges, indexes and tensors, each with the number of its place in the order of declaration.
///
/// There are at most 16 ranges, 24 indexes and 32 tensors. Ranges, indexes and tensors have separate names.
#[derive(Drop)]
pub struct Declarations {
    space: Space,
    tensors: IndexMap<Name, Tensor>,
}

impl Model for Declarations {
    ghost use Rattle.tce_spec.specs.Declarations.{Declarations};
    ghost use Rattle.tce_spec.specs.DeclarationsCode.{declarations_of, AreKept};

    ghost Value = { Declarations };

    ghost view = { λ d. declarations_of d.space d.tensors.entries };

    ghost invariant = { λ d. AreKept d.space d.tensors.entries };
}

/// Keeps a tensor under its name, behind those that are there.
fn keep(tensors: &mut IndexMap<Name, Tensor>, tensor: Tensor) -> Result<(), AllocError>
    requires { entry_number tensors.old.entries tensor.name.bytes ≡ None }
    ensures kept { OnOk result (tensors.new.entries ≡ tensors.old.entries ++ entry_of tensor ∷ []) }
    ensures apart { OnOk result (IsDistinct bytes_eq (names_of tensors.new.entries)) }
{
    match tensors.insert(tensor.name, tensor) {
        Ok(_) => Ok(()),
        Err(_) => Err(AllocError),
    }
}

/// The number of the tensor with this name. A text that is too long for a name is none of them.
fn named(tensors: &IndexMap<Name, Tensor>, name: &str) -> Option<u8>
    requires small { length tensors.now.entries ≤ max_tensors }
    requires short { All (λ name. length name ≤ max_name_bytes) (names_of tensors.now.entries) }
    ensures { result ≡ entry_number tensors.now.entries name.now }
{
    let Ok(name) = Name::from(name) else {
        return None;
    };
    let number = place_of(tensors, &name)?;
    Some(number as u8)
}

fn place_of(tensors: &IndexMap<Name, Tensor>, name: &Name) -> Option<usize>
    ensures place { result ≡ entry_number tensors.now.entries name.now.bytes }
    ensures within { IfSome result (λ place. place < length tensors.now.entries) }
{
    tensors.get_index_of(name)
}

/// Ends declarations.
fn ended(_space: Space, _tensors: IndexMap<Name, Tensor>) {}

/// Refuses a line, where the declarations in front of it end.
fn refused(
    space: Space,
    tensors: IndexMap<Name, Tensor>,
    fault: SpecFault,
) -> Result<Declarations, SpecFault>
    ensures { result ≡ Err fault }
{
    ended(space, tensors);
    Err(fault)
}

impl Declarations {
    /// Nothing is declared.
    pub fn new(alloc: Global) -> Result<Declarations, AllocError>
        ensures { IfOk result (λ d. d ≡ nothing_declared) }
    {
        Ok(Declarations {
            space: Space::new(alloc)?,
            tensors: IndexMap::with_capacity(alloc, MAX_TENSORS)?,
        })
    }

    /// Ranges and indexes are declared, and no tensor.
    pub fn over(alloc: Global, space: Space) -> Result<Declarations, AllocError>
        ensures { IfOk result (λ d. d ≡ record { space = space; tensors = [] }) }
    {
        let _ranges = space.range_count();
        Ok(Declarations {
            space,
            tensors: IndexMap::with_capacity(alloc, MAX_TENSORS)?,
        })
    }

    /// The declared ranges and indexes.
    pub fn space(&self) -> &Space
        ensures space { result.now ≡ self.now.space }
        ensures limits { IsDeclarations self.now }
    {
        &self.space
    }

    /// How many tensors are declared.
    pub fn tensor_count(&self) -> u8
        ensures count { result ≡ length self.now.tensors }
        ensures limits { IsDeclarations self.now }
    {
        self.tensors.len() as u8
    }

    /// A tensor by its number.
    pub fn tensor(&self, tensor: u8) -> &Tensor
        requires { tensor < length self.now.tensors }
        ensures name { result.now.name.bytes ≡ (tensor_at self.now tensor).name }
        ensures ranges { result.now.ranges.items ≡ (tensor_at self.now tensor).ranges }
        ensures shape { result.now.shape ≡ tensor_shape self.now tensor }
        ensures limits { IsDeclarations self.now }
    {
        &self.tensors[tensor as usize]
    }

    /// The number of the tensor with this name. `None` where no tensor has it.
    pub fn tensor_named(&self, name: &str) -> Option<u8>
        ensures number { result ≡ tensor_number self.now.tensors name.now }
        ensures limits { IsDeclarations self.now }
    {
        named(&self.tensors, name)
    }

    /// The tensor that a line declares.
    fn tensor_of_line(&self, line: u64, name: &[u8], ranges: &[&[u8]]) -> Result<Tensor, SpecFault>
        requires name { IsTrue (is_name name.now) }
        requires ranges { AreNames (names ranges.now) }
        ensures fault { IfErr result (ShowsTensor line self.now name.now ranges.now) }
        ensures faultless { OnOk result (TensorFits line self.now name.now ranges.now) }
        ensures name { IfOk result (λ tensor. tensor.name.bytes ≡ name.now) }
        ensures ranges { IfOk result (IsOverRanges self.now.space ranges.now) }
        ensures shape { IfOk result (HasShapeOf self.now.space ranges.now) }
    {
        let tensor_name = name_of(name);
        if self.tensor_named(tensor_name.as_str()).is_some() {
            return Err(SpecFault::NameTwice(line, tensor_name));
        }
        if let Some(range) = unknown_range(&self.space, ranges) {
            return Err(SpecFault::UnknownName(line, name_of(range)));
        }
        if self.tensors.len() == MAX_TENSORS {
            return Err(SpecFault::LimitPassed(line, Limit::Tensors));
        }
        if ranges.len() > MAX_RANK {
            return Err(SpecFault::LimitPassed(line, Limit::Rank));
        }
        let numbers = range_numbers(&self.space, ranges);
        match self.space.shape(&numbers) {
            Ok(shape) => Ok(Tensor {
                name: tensor_name,
                ranges: numbers,
                shape,
            }),
            Err(ShapeFault::TileWords) => Err(SpecFault::LimitPassed(line, Limit::TileWords)),
            Err(ShapeFault::ArrayWords) => Err(SpecFault::LimitPassed(line, Limit::ArrayWords)),
        }
    }

    /// Declares a range, by its name and the digits of its extent and its edge.
    ///
    /// `NameTwice`, else `BadNumber`, else `LimitPassed`.
    pub fn with_range(
        self,
        line: u64,
        name: &[u8],
        extent: &[u8],
        edge: Option<&[u8]>,
    ) -> Result<Declarations, SpecFault>
        requires { IsTrue (is_name name.now) }
        ensures fault { IfErr result (ShowsRange line self.space name.now extent.now edge.entry) }
        ensures faultless { OnOk result (RangeFits line self.space name.now extent.now edge.entry) }
        ensures declared { IfOk result (DeclaresRange self name.now extent.now edge.entry) }
    {
        let Declarations { mut space, tensors } = self;
        match declare_range(&mut space, line, name, extent, edge) {
            Ok(()) => Ok(Declarations { space, tensors }),
            Err(fault) => refused(space, tensors, fault),
        }
    }

    /// Declares indexes of a range, by their names.
    ///
    /// `NameTwice` also where a name stands twice on the line, else `UnknownName`, else `LimitPassed`.
    pub fn with_indexes(
        self,
        line: u64,
        range: &[u8],
        indexes: &[&[u8]],
    ) -> Result<Declarations, SpecFault>
        requires range { IsTrue (is_name range.now) }
        requires indexes { AreNames (names indexes.now) }
        ensures fault { IfErr result (ShowsIndexes line self.space range.now indexes.now) }
        ensures faultless { OnOk result (IndexesFit line self.space range.now indexes.now) }
        ensures declared { IfOk result (DeclaresIndexes self range.now indexes.now) }
    {
        let Declarations { mut space, tensors } = self;
        match declare_indexes(&mut space, line, range, indexes) {
            Ok(()) => Ok(Declarations { space, tensors }),
            Err(fault) => refused(space, tensors, fault),
        }
    }

    /// Declares a tensor, by its name and the names of its ranges, one for each dimension.
    ///
    /// `NameTwice`, else `UnknownName`, else `LimitPassed` in the order of [`Limit`].
    pub fn with_tensor(
        self,
        line: u64,
        name: &[u8],
        ranges: &[&[u8]],
    ) -> Result<Declarations, SpecFault>
        requires name { IsTrue (is_name name.now) }
        requires ranges { AreNames (names ranges.now) }
        ensures fault { IfErr result (ShowsTensor line self name.now ranges.now) }
        ensures faultless { OnOk result (TensorFits line self name.now ranges.now) }
        ensures declared { IfOk result (λ d. d ≡ with_tensor self name.now (names ranges.now)) }
    {
        let made = self.tensor_of_line(line, name, ranges);
        let Declarations { space, mut tensors } = self;
        let tensor = match made {
            Ok(tensor) => tensor,
            Err(fault) => return refused(space, tensors, fault),
        };
        match keep(&mut tensors, tensor) {
            Ok(()) => Ok(Declarations { space, tensors }),
            Err(_) => refused(space, tensors, SpecFault::Memory),
        }
    }

    /// Declares a tensor by its name, which may be one that no line can declare, and the numbers of its ranges.
    pub fn with_tensor_over(
        self,
        name: Name,
        ranges: ArrayVec<u8, MAX_RANK>,
    ) -> Result<Declarations, AllocError>
        requires unnamed { tensor_number self.tensors name.bytes ≡ None }
        requires room { length self.tensors < max_tensors }
        requires fits { IsTensor self.space (record { name = name.bytes; ranges = ranges.items }) }
        ensures { IfOk result (λ d. d ≡ record {
          space = self.space;
          tensors = self.tensors ++ record { name = name.bytes; ranges = ranges.items } ∷ [];
        }) }
    {
        let made = self.space.shape(&ranges);
        let Declarations { space, mut tensors } = self;
        let Ok(shape) = made else {
            ended(space, tensors);
            return Err(AllocError);
        };
        let tensor = Tensor {
            name,
            ranges,
            shape,
        };
        match keep(&mut tensors, tensor) {
            Ok(()) => Ok(Declarations { space, tensors }),
            Err(error) => {
                ended(space, tensors);
                Err(error)
            }
        }
    }

    /// Declares what a line says. A formula declares nothing.
    pub fn declare(self, line: u64, said: &Statement) -> Result<Declarations, SpecFault>
        requires { HasNames (statement said.now) }
        ensures fault { IfErr result (Shows (statement_fault line self (statement said.now))) }
        ensures faultless { OnOk result (statement_fault line self (statement said.now) ≡ None) }
        ensures declared { IfOk result (λ d. d ≡ with_statement self (statement said.now)) }
    {
        match said {
            Statement::Range { name, extent, edge } => self.with_range(line, *name, *extent, *edge),
            Statement::Index { range, indexes } => {
                self.with_indexes(line, *range, indexes.as_slice())
            }
            Statement::Tensor { name, ranges } => self.with_tensor(line, *name, ranges.as_slice()),
            Statement::Formula { .. } => Ok(self),
        }
    }
}
