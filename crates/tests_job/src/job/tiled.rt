//! Array files of ranges that are cut into tiles, by their elements in row-major order.
use crate::job::given::push_number;
use std::alloc::{AllocError, Global};

/// A range: its extent, the edge of its tiles, and how many tiles cover it. None of them is 0.
#[derive(Clone, Copy)]
pub struct Range {
    pub extent: u64,
    pub edge: u64,
    pub tiles: u64,
}

impl Range {
    /// The range of this extent that is cut into tiles of this edge.
    pub fn cut(extent: u64, edge: u64) -> Range {
        let (tiles, rest) = divided(extent, edge);
        Range {
            extent,
            edge,
            tiles: if rest == 0 {
                tiles
            } else {
                tiles.wrapping_add(1)
            },
        }
    }
}

// How often a divisor goes into a number, and what is left.
fn divided(number: u64, divisor: u64) -> (u64, u64) {
    if divisor == 0 {
        return (0, 0);
    }
    (number / divisor, number % divisor)
}

/// How many elements an array over these ranges has.
pub fn elements(ranges: &[Range]) -> u64 {
    let mut product = 1u64;
    for range in ranges {
        product = product.wrapping_mul(range.extent);
    }
    product
}

// How many words a tile has, and how many tiles there are.
fn tiling(ranges: &[Range]) -> (u64, u64) {
    let mut words = 1u64;
    let mut tiles = 1u64;
    for range in ranges {
        words = words.wrapping_mul(range.edge);
        tiles = tiles.wrapping_mul(range.tiles);
    }
    (words, tiles)
}

// The row-major place of the element at this place of this tile, or none where it is padding.
fn element_at(ranges: &[Range], tile: u64, place: u64) -> Option<u64> {
    let mut tile = tile;
    let mut place = place;
    let mut element = 0u64;
    let mut step = 1u64;
    for range in ranges.iter().rev() {
        let (tiles, tile_number) = divided(tile, range.tiles);
        let (places, inner) = divided(place, range.edge);
        let number = tile_number.wrapping_mul(range.edge).wrapping_add(inner);
        if range.extent <= number {
            return None;
        }
        element = element.wrapping_add(number.wrapping_mul(step));
        step = step.wrapping_mul(range.extent);
        tile = tiles;
        place = places;
    }
    Some(element)
}

fn push_head(bytes: &mut Vec<u8>, ranges: &[Range]) -> Result<(), AllocError> {
    bytes.extend_from_slice(b"TCARRAY1")?;
    push_number(bytes, ranges.len() as u64)?;
    for range in ranges {
        push_number(bytes, range.extent)?;
    }
    for range in ranges {
        push_number(bytes, range.edge)?;
    }
    Ok(())
}

// The word at a place of a tile.
fn word_at(ranges: &[Range], tile: u64, place: u64, elements: &[u64]) -> u64 {
    match element_at(ranges, tile, place) {
        Some(element) => elements.get(element as usize).copied().unwrap_or(0),
        None => 0,
    }
}

fn push_tiles(bytes: &mut Vec<u8>, ranges: &[Range], elements: &[u64]) -> Result<(), AllocError> {
    let (words, tiles) = tiling(ranges);
    for tile in 0..tiles {
        for place in 0..words {
            push_number(bytes, word_at(ranges, tile, place, elements))?;
        }
    }
    Ok(())
}

/// The bytes of an array file: tile by tile, with 0 as padding.
pub fn tiled_bytes(
    alloc: Global,
    ranges: &[Range],
    elements: &[u64],
) -> Result<Vec<u8>, AllocError> {
    let mut bytes = Vec::new(alloc);
    push_head(&mut bytes, ranges)?;
    push_tiles(&mut bytes, ranges, elements)?;
    Ok(bytes)
}
