//! Whole runs of formulas that are drawn and evaluated apart, by least fusions, by drawn ones and in pieces,
//! and how often runs touch tiles.

mod chains;
mod draws;
mod formulas;
mod fusions;
mod given;
mod pieces;
mod terms;
mod tiled;
mod touches;
