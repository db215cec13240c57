// The elements of a band, between row-major order and the order of an array file.
ghost use Rattle.std.specs.Prelude.{◌≡◌, ◌+◌, ◌*◌, ◌<◌, ◌≤◌, length, replicate};
ghost use Rattle.tce_tools.specs.Bands.{IsBand, IsPart, AreZerosBetween, Untiles, Tiles};

use crate::band::Band;
use crate::run::run_at;
use tce_space::Shape;

// Elements of a band that stand together among the words of its pieces.
#[derive(Clone, Copy)]
struct Part {
    // How many words of the pieces stand before them.
    index: u64,
    // How many elements there are.
    len: u64,
}

// The part from this element on.
fn part_at(shape: &Shape, band: Band, start: u64) -> Part
    requires band { IsBand shape.now band }
    requires from { band.start ≤ start }
    requires to { start < band.start + band.len }
    ensures { IsPart shape.now band start result }
{
    let run = run_at(shape, start);
    let before = run.word - band.word;
    let offset = before % band.stride;
    let in_band = band.start + band.len - start;
    Part {
        index: before / band.stride * band.piece_len + offset,
        len: run.len.min(in_band).min(band.piece_len - offset),
    }
}

/// Puts the words of a band's pieces, one piece after the other, into row-major order.
pub fn flatten(shape: &Shape, band: Band, tiled: &[u64], words: &mut [u64])
    requires band { IsBand shape.now band }
    requires tiled { length tiled.now ≡ band.pieces * band.piece_len }
    requires words { length words.old ≡ band.len }
    ensures { Untiles shape.now band tiled.now words.new }
{
    let mut done = 0;
    while done < band.len {
        let part = part_at(shape, band, band.start + done);
        let from = &tiled[part.index as usize..(part.index + part.len) as usize];
        words[done as usize..(done + part.len) as usize].copy_from_slice(from);
        done += part.len;
    }
}

// Makes each word 0.
fn clear(words: &mut [u64])
    ensures { words.new ≡ replicate (length words.old) 0 }
{
    words.fill(0);
}

/// Puts the elements of a band into its pieces, one piece after the other, with zeros for the padding.
pub fn tile(shape: &Shape, band: Band, words: &[u64], tiled: &mut [u64])
    requires band { IsBand shape.now band }
    requires words { length words.now ≡ band.len }
    requires tiled { length tiled.old ≡ band.pieces * band.piece_len }
    ensures elements { Tiles shape.now band words.now tiled.new }
    ensures padding { AreZerosBetween shape.now band tiled.new }
{
    clear(tiled);
    let mut done = 0;
    while done < band.len {
        let part = part_at(shape, band, band.start + done);
        let from = &words[done as usize..(done + part.len) as usize];
        tiled[part.index as usize..(part.index + part.len) as usize].copy_from_slice(from);
        done += part.len;
    }
}
