// Index spaces: the declared ranges and indexes, by name and by number.
ghost use Rattle.std.specs.Prelude.{◌≡◌, ◌<◌, ◌≤◌, ◌^◌, length, None, IfOk, OnOk, OnErr, IsTrue, slice_index_or, All};
ghost use Rattle.tce_space.specs.Space.{IsSpace, IsRange, IsDeclared, no_declarations, range_at, index_at, extent_at, edge_at, range_number, index_number, tiling_of};
ghost use Rattle.tce_space.specs.Limits.{max_name_bytes};
ghost use Rattle.tce_space.specs.Tiling.{tile_words};
ghost use Rattle.tce_space.specs.Laws.{VolumesGrow};
ghost use Rattle.tce_space.specs.Name.{is_name};
ghost use Rattle.tce_space.specs.SpaceEntries.{Enters, entry_number, names_of};
ghost use Rattle.std.specs.List.{IsDistinct};
ghost use Rattle.std.specs.Str.{bytes_eq};
ghost use Rattle.tce_space.specs.Refusals.{RefusesTwice, RefusesEntries, RefusesRanges, RefusesIndexes, DeclaresRange, DeclaresIndex, GivesVolume, RefusesTiles, RefusesArrays};

use crate::index_set::IndexSet;
use crate::limits::{MAX_INDEXES, MAX_RANGES, MAX_RANK, MAX_VOLUME};
use crate::name::Name;
use crate::shape::{Shape, ShapeFault, shape_of};
use arrayvec::ArrayVec;
use indexmap::IndexMap;
use std::alloc::{AllocError, Global};
use std::marker::Model;

/// Why a declaration is refused.
#[derive(Clone, Copy, Debug, PartialEq, Eq)]
pub enum SpaceFault {
    /// The name is declared already.
    NameTwice,
    /// No more can be declared.
    Full,
    /// There is no memory.
    Memory,
}

// How long a range is, and how long its tiles are.
#[derive(Clone, Copy)]
struct RangeSize {
    extent: u64,
    edge: u64,
}

/// The declared ranges and indexes, each with the number of its place in the order of declaration.
///
/// A range has a name, an extent and the edge of its tiles; an index has a name and a range.
/// There are at most 16 ranges and 24 indexes.
#[derive(Drop)]
pub struct Space {
    ranges: IndexMap<Name, RangeSize>,
    indexes: IndexMap<Name, u8>,
}

impl Model for Space {
    ghost use Rattle.tce_space.specs.Space.{IndexSpace, IsSpace};

    ghost Value = { IndexSpace };

    ghost use Rattle.tce_space.specs.SpaceEntries.{space_of};

    ghost view = { λ s. space_of s.ranges.entries s.indexes.entries };

    ghost invariant = { λ s. IsSpace (space_of s.ranges.entries s.indexes.entries) };
}

// The number of a name among the entries.
fn number_of<V>(entries: &IndexMap<Name, V>, name: &Name) -> Option<usize>
    ensures number { result ≡ entry_number entries.now.entries name.now.bytes }
{
    entries.get_index_of(name)
}

// Enters a value under a name, behind those that are there.
fn declare<V: Copy>(
    entries: &mut IndexMap<Name, V>,
    limit: usize,
    name: &Name,
    value: V,
) -> Result<u8, SpaceFault>
    requires small { limit ≤ 256 }
    requires within { length entries.old.entries ≤ limit }
    ensures added { IfOk result (Enters entries.old.entries entries.new.entries limit name.now value) }
    ensures named { RefusesTwice (entry_number entries.old.entries name.now.bytes) result }
    ensures full { RefusesEntries entries.old.entries limit name.now.bytes result }
    ensures refused { OnErr result (entries.new.entries ≡ entries.old.entries) }
    ensures apart { OnOk result (IsDistinct bytes_eq (names_of entries.new.entries)) }
{
    if number_of(entries, name).is_some() {
        return Err(SpaceFault::NameTwice);
    }
    let number = entries.len();
    if number == limit {
        return Err(SpaceFault::Full);
    }
    match entries.insert(*name, value) {
        Ok(_) => Ok(number as u8),
        Err(_) => Err(SpaceFault::Memory),
    }
}

// The number of this name among the entries. A text that is too long for a name is none of them.
fn named<V>(entries: &IndexMap<Name, V>, name: &str) -> Option<u8>
    requires small { length entries.now.entries ≤ 256 }
    requires short { All (λ name. length name ≤ max_name_bytes) (names_of entries.now.entries) }
    ensures { result ≡ entry_number entries.now.entries name.now }
{
    let Ok(name) = Name::from(name) else {
        return None;
    };
    let number = number_of(entries, &name)?;
    Some(number as u8)
}

// The name of an entry.
fn name_at<V>(entries: &IndexMap<Name, V>, number: usize) -> Name
    requires { number < length entries.now.entries }
    ensures { result.bytes ≡ slice_index_or (names_of entries.now.entries) number result.bytes }
{
    let (name, _) = entries.get_index(number).unwrap();
    *name
}

impl Space {
    /// A space without declarations.
    pub fn new(alloc: Global) -> Result<Space, AllocError>
        ensures { IfOk result (λ space. space ≡ no_declarations) }
    {
        Ok(Space {
            ranges: IndexMap::with_capacity(alloc, MAX_RANGES)?,
            indexes: IndexMap::with_capacity(alloc, MAX_INDEXES)?,
        })
    }

    /// Declares a range and gives its number.
    ///
    /// `NameTwice` where a range has this name, and `Full` where there are 16 others. After a refusal the space is unchanged.
    pub fn add_range(&mut self, name: &Name, extent: u64, edge: u64) -> Result<u8, SpaceFault>
        requires { IsRange (record { name = name.now.bytes; extent = extent; edge = edge }) }
        ensures added { IfOk result (DeclaresRange self.old self.new name.now.bytes extent edge) }
        ensures named { RefusesTwice (range_number self.old name.now.bytes) result }
        ensures full { RefusesRanges self.old name.now.bytes result }
        ensures refused { OnErr result (self.new ≡ self.old) }
        ensures limits { IsSpace self.new }
    {
        declare(
            &mut self.ranges,
            MAX_RANGES,
            name,
            RangeSize { extent, edge },
        )
    }

    /// Declares an index of a range and gives its number.
    ///
    /// `NameTwice` where an index has this name, and `Full` where there are 24 others. After a refusal the space is unchanged.
    pub fn add_index(&mut self, name: &Name, range: u8) -> Result<u8, SpaceFault>
        requires name { IsTrue (is_name name.now.bytes) }
        requires declared { range < length self.old.ranges }
        ensures added { IfOk result (DeclaresIndex self.old self.new name.now.bytes range) }
        ensures named { RefusesTwice (index_number self.old name.now.bytes) result }
        ensures full { RefusesIndexes self.old name.now.bytes result }
        ensures refused { OnErr result (self.new ≡ self.old) }
        ensures limits { IsSpace self.new }
    {
        declare(&mut self.indexes, MAX_INDEXES, name, range)
    }

    /// How many ranges are declared.
    pub fn range_count(&self) -> u8
        ensures count { result ≡ length self.now.ranges }
        ensures limits { IsSpace self.now }
    {
        self.ranges.len() as u8
    }

    /// How many indexes are declared.
    pub fn index_count(&self) -> u8
        ensures count { result ≡ length self.now.indexes }
        ensures limits { IsSpace self.now }
    {
        self.indexes.len() as u8
    }

    /// The number of the range with this name. `None` where no range has it.
    pub fn range_named(&self, name: &str) -> Option<u8>
        ensures number { result ≡ range_number self.now name.now }
        ensures limits { IsSpace self.now }
    {
        named(&self.ranges, name)
    }

    /// The number of the index with this name. `None` where no index has it.
    pub fn index_named(&self, name: &str) -> Option<u8>
        ensures number { result ≡ index_number self.now name.now }
        ensures limits { IsSpace self.now }
    {
        named(&self.indexes, name)
    }

    /// The name of a range.
    pub fn range_name(&self, range: u8) -> Name
        requires { range < length self.now.ranges }
        ensures name { result.bytes ≡ (range_at self.now range).name }
        ensures limits { IsSpace self.now }
    {
        name_at(&self.ranges, range as usize)
    }

    /// The extent of a range, in elements.
    pub fn range_extent(&self, range: u8) -> u64
        requires { range < length self.now.ranges }
        ensures extent { result ≡ (range_at self.now range).extent }
        ensures positive { 0 < result }
        ensures small { result < 2 ^ 32 }
        ensures limits { IsSpace self.now }
    {
        self.ranges[range as usize].extent
    }

    /// The edge of a range's tiles, in elements.
    pub fn range_edge(&self, range: u8) -> u64
        requires { range < length self.now.ranges }
        ensures edge { result ≡ (range_at self.now range).edge }
        ensures positive { 0 < result }
        ensures within { result ≤ (range_at self.now range).extent }
        ensures limits { IsSpace self.now }
    {
        self.ranges[range as usize].edge
    }

    /// The name of an index.
    pub fn index_name(&self, index: u8) -> Name
        requires { index < length self.now.indexes }
        ensures name { result.bytes ≡ (index_at self.now index).name }
        ensures limits { IsSpace self.now }
    {
        name_at(&self.indexes, index as usize)
    }

    /// The number of an index's range.
    pub fn range_of(&self, index: u8) -> u8
        requires { index < length self.now.indexes }
        ensures range { result ≡ (index_at self.now index).of_range }
        ensures declared { result < length self.now.ranges }
        ensures limits { IsSpace self.now }
    {
        self.indexes[index as usize]
    }

    /// The extent of an index, which is that of its range.
    pub fn extent(&self, index: u8) -> u64
        requires { index < length self.now.indexes }
        ensures extent { result ≡ extent_at self.now index }
        ensures positive { 0 < result }
        ensures small { result < 2 ^ 32 }
        ensures limits { IsSpace self.now }
    {
        self.range_extent(self.range_of(index))
    }

    /// The edge of an index's tiles, which is that of its range.
    pub fn edge(&self, index: u8) -> u64
        requires { index < length self.now.indexes }
        ensures edge { result ≡ edge_at self.now index }
        ensures positive { 0 < result }
        ensures within { result ≤ extent_at self.now index }
        ensures limits { IsSpace self.now }
    {
        self.range_edge(self.range_of(index))
    }

    /// How many elements an array over these indexes has: the product of their extents. `None` where it is above 2^90.
    pub fn volume(&self, set: IndexSet) -> Option<u128>
        requires { IsDeclared self.now set }
        ensures volume { GivesVolume self.now set result }
        ensures limits { IsSpace self.now }
    {
        let mut product: u128 = 1;
        for index in 0..self.index_count() {
            if set.has(index) {
                product *= u128::from(self.extent(index));
                if product > MAX_VOLUME {
                    return None;
                }
            }
        }
        Some(product)
    }

    /// The shape of an array with these ranges, one for each dimension.
    ///
    /// `TileWords` where a tile has more than 2^20 words, and else `ArrayWords` where the tiles together have more than 2^48.
    pub fn shape(&self, ranges: &ArrayVec<u8, MAX_RANK>) -> Result<Shape, ShapeFault>
        requires { All (λ r. r < length self.now.ranges) ranges.now.items }
        ensures made { IfOk result (λ shape. shape ≡ tiling_of self.now ranges.now.items) }
        ensures tile_words { RefusesTiles (tiling_of self.now ranges.now.items) result }
        ensures array_words { RefusesArrays (tiling_of self.now ranges.now.items) result }
    {
        let mut extents = ArrayVec::new();
        let mut edges = ArrayVec::new();
        for range in ranges.as_slice() {
            extents.push(self.range_extent(*range));
            edges.push(self.range_edge(*range));
        }
        shape_of(extents, edges)
    }
}

/// The volume of a part of a set is no larger than that of the set.
pub fn volumes_grow()
    ensures { VolumesGrow }
{}
