//! Boxes that are cut into blocks, worked by hand.
ghost use Rattle.std.specs.Prelude.{IsTrue, All};
ghost use Rattle.tce_block.specs.Cuts.{IsCut};

use arrayvec::ArrayVec;
use std::process::Abort;
use tce_block::{Blocks, Cut};

// Whether all extents and edges are within their limits.
fn are_within_limits(cuts: &[Cut]) -> bool
    ensures { IsTrue result → All IsCut cuts.now }
{
    cuts.iter().all(|cut| cut.extent < 1 << 32 && 0 < cut.edge && cut.edge <= cut.extent)
}

// The numbers of a text, apart by blanks.
fn numbers_of(rt: &impl Abort, text: &str) -> ArrayVec<u64, 16> {
    let mut numbers = ArrayVec::new();
    for word in text.split(' ') {
        if !word.is_empty() {
            let Ok(number) = word.parse::<u64>() else {
                panic!(rt; "no number: {word}");
            };
            assert!(rt; numbers.len() < 16);
            numbers.push(number);
        }
    }
    numbers
}

// The part of a text in front of or behind a character.
fn side<'a>(text: &'a str, between: char, number: usize) -> &'a str {
    text.split(between).nth(number).unwrap_or("")
}

// The loops of a text, as `5/2` for an extent of 5 in tiles of 2.
fn cuts_of(rt: &impl Abort, text: &str) -> ArrayVec<Cut, 10> {
    let mut cuts = ArrayVec::new();
    for word in text.split(' ') {
        if !word.is_empty() {
            let extent = numbers_of(rt, side(word, '/', 0));
            let edge = numbers_of(rt, side(word, '/', 1));
            assert!(rt; extent.len() == 1 && edge.len() == 1 && cuts.len() < 10);
            cuts.push(Cut {
                index: 0,
                extent: extent[0],
                edge: edge[0],
            });
        }
    }
    cuts
}

// The blocks of a box, or the first of them: parted by commas, each by its first numbers and its lengths.
fn expect_blocks(rt: &impl Abort, loops: &str, wanted: &str, are_all: bool) {
    let cuts = cuts_of(rt, loops);
    assert!(rt; are_within_limits(cuts.as_slice()), "{loops}");
    let mut blocks = Blocks::new(&cuts);
    for part in wanted.split(',') {
        let Some(block) = blocks.next() else {
            panic!(rt; "too few blocks of {loops}");
        };
        let from = numbers_of(rt, side(part, ':', 0));
        let len = numbers_of(rt, side(part, ':', 1));
        assert!(rt; block.from.as_slice() == from.as_slice(), "{loops}");
        assert!(rt; block.len.as_slice() == len.as_slice(), "{loops}");
    }
    if are_all {
        assert!(rt; blocks.next() == None, "{loops}");
        assert!(rt; blocks.next() == None, "once more, {loops}");
    }
}

#[test]
fn boxes_are_cut_at_the_multiples_of_their_edges(rt: HostRuntime) {
    expect_blocks(&rt, "", ":", true);
    expect_blocks(&rt, "1/1", "0:1", true);
    expect_blocks(&rt, "5/5", "0:5", true);
    expect_blocks(&rt, "3/1", "0:1,1:1,2:1", true);
    expect_blocks(&rt, "5/2", "0:2,2:2,4:1", true);
    let wanted = "0 0 0:2 1 4,0 0 4:2 1 1,2 0 0:1 1 4,2 0 4:1 1 1";
    expect_blocks(&rt, "3/2 1/1 5/4", wanted, true);
}

#[test]
fn ten_loops_are_cut(rt: HostRuntime) {
    let wanted =
        "0 0 0 0 0 0 0 0 0 0:1 2 1 1 1 1 1 1 1 2,0 0 0 0 0 0 0 0 0 2:1 2 1 1 1 1 1 1 1 1,0 0 0 1 0 0 0 0 0 0:1 2 1 1 1 1 1 1 1 2,0 0 0 1 0 0 0 0 0 2:1 2 1 1 1 1 1 1 1 1";
    let loops = "1/1 2/2 1/1 2/1 1/1 1/1 1/1 1/1 1/1 3/2";
    expect_blocks(&rt, loops, wanted, true);
}

#[test]
fn long_loops_are_cut(rt: HostRuntime) {
    let wanted =
        "0 0 0:4294967294 1 4294967295,0 1 0:4294967294 1 4294967295,0 2 0:4294967294 1 4294967295";
    let loops = "4294967295/4294967294 4294967295/1 4294967295/4294967295";
    expect_blocks(&rt, loops, wanted, false);
    let wanted = "0 0:4294967294 4294967295,4294967294 0:1 4294967295";
    let loops = "4294967295/4294967294 4294967295/4294967295";
    expect_blocks(&rt, loops, wanted, true);
}
