//! Worked parts and bands.
ghost use Rattle.tce_walk.specs.BandExamples.{WorkedBands};
ghost use Rattle.tce_walk.specs.PartExamples.{WorkedParts};

use tce_walk::{blocks_make_bands, parts_keep_words, parts_make_tails};

// What the definitions give for the worked parts.
fn worked_parts()
    ensures { WorkedParts }
{}

#[test]
fn laws_of_parts() {
    worked_parts();
    parts_make_tails();
    parts_keep_words();
}

// What the definitions give for the worked bands.
fn worked_bands()
    ensures { WorkedBands }
{}

#[test]
fn laws_of_bands() {
    worked_bands();
    blocks_make_bands();
}
