//! The ranges of sizes: one for each different pair of extent and edge.

ghost use Rattle.std.specs.Prelude.{◌≡◌, IfOk, OnOk, map};
ghost use Rattle.std.specs.List.{list_any, position_or_len};
ghost use Rattle.tce_einsum.specs.Code as code;
ghost use Rattle.tce_einsum.specs.Produced as produced;
ghost use Rattle.tce_einsum.specs.ProducedCode.{tiled, tileds};

use crate::numbering::place_of;
use crate::size::Size;
use std::alloc::{AllocError, Global};

/// The digits of an extent and of an edge.
#[derive(Clone, Copy)]
pub(crate) struct Tiled<'a> {
    pub(crate) extent: &'a [u8],
    pub(crate) edge: &'a [u8],
}

fn tiled_as<'a>(size: Size<'a>) -> Tiled<'a>
    ensures { tiled result ≡ produced.tiled (code.size size.entry) }
{
    let edge = match size.edge {
        Some(edge) => edge,
        None => b"1".as_slice(),
    };
    Tiled {
        extent: size.extent,
        edge,
    }
}

fn is_same(a: Tiled, b: Tiled) -> bool
    ensures { result ≡ produced.is_same (tiled a.entry) (tiled b.entry) }
{
    a.extent == b.extent && a.edge == b.edge
}

fn is_any(seen: &[Tiled], one: Tiled) -> bool
    ensures { result ≡ list_any (produced.is_same (tiled one.entry)) (tileds seen.now) }
{
    let mut rest = seen;
    while let [first, behind @ ..] = rest {
        if is_same(one, *first) {
            return true;
        }
        rest = behind;
    }
    false
}

/// Appends a pair, unless it is there.
fn add_new<'a>(seen: &mut Vec<Tiled<'a>>, one: Tiled<'a>) -> Result<(), AllocError>
    ensures { OnOk result (tileds seen.new.items ≡ produced.with_new (tileds seen.old.items) (tiled one.entry)) }
{
    if is_any(seen.as_slice(), one) {
        return Ok(());
    }
    seen.push(one)?;
    Ok(())
}

/// The different pairs of extent and edge, by their first places.
pub(crate) fn ranges_of<'a>(alloc: Global, sizes: &[Size<'a>]) -> Result<Vec<Tiled<'a>>, AllocError>
    ensures { IfOk result (λ v. tileds v.items ≡ produced.ranges (code.sizes sizes.now)) }
{
    let mut seen = Vec::new(alloc);
    let mut rest = sizes;
    while let [size, behind @ ..] = rest {
        add_new(&mut seen, tiled_as(*size))?;
        rest = behind;
    }
    Ok(seen)
}

/// The number of a range, or how many ranges there are.
fn number_in(ranges: &[Tiled], one: Tiled) -> usize
    ensures { result ≡ position_or_len (produced.is_same (tiled one.entry)) (tileds ranges.now) }
{
    let mut number: usize = 0;
    let mut rest = ranges;
    while let [first, behind @ ..] = rest {
        if is_same(one, *first) {
            return number;
        }
        number += 1;
        rest = behind;
    }
    number
}

/// The range of each size.
pub(crate) fn range_numbers(
    alloc: Global,
    sizes: &[Size],
    ranges: &[Tiled],
) -> Result<Vec<usize>, AllocError>
    requires { tileds ranges.now ≡ produced.ranges (code.sizes sizes.now) }
    ensures { IfOk result (λ v. v.items ≡ produced.range_numbers (code.sizes sizes.now)) }
{
    let mut found = Vec::new(alloc);
    let mut rest = sizes;
    while let [size, behind @ ..] = rest {
        found.push(number_in(ranges, tiled_as(*size)))?;
        rest = behind;
    }
    Ok(found)
}

/// The range of a label. A label without a size is none that is read.
fn range_of(sizes: &[Size], numbers: &[usize], label: u8) -> usize
    requires { numbers.now ≡ produced.range_numbers (code.sizes sizes.now) }
    ensures { result ≡ produced.range_of (code.sizes sizes.now) label }
{
    match place_of(sizes, label) {
        Some(place) => numbers[place],
        None => 0,
    }
}

/// The ranges of labels.
pub(crate) fn ranges_of_labels(
    alloc: Global,
    sizes: &[Size],
    numbers: &[usize],
    labels: &[u8],
) -> Result<Vec<usize>, AllocError>
    requires { numbers.now ≡ produced.range_numbers (code.sizes sizes.now) }
    ensures { IfOk result (λ v. v.items ≡ map (produced.range_of (code.sizes sizes.now)) labels.now) }
{
    let mut found = Vec::new(alloc);
    let mut rest = labels;
    while let [label, behind @ ..] = rest {
        found.push(range_of(sizes, numbers, *label))?;
        rest = behind;
    }
    Ok(found)
}
