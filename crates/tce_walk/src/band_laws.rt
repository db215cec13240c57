// The laws of bands, which hold without any code.
ghost use Rattle.tce_walk.specs.Bands.{BlocksMakeBands};
ghost use Rattle.tce_walk.specs.TermRuns.{ValuesMakeBands};

/// The blocks of a band's loops, one after the other in row-major order, leave what the band leaves, whatever the edges.
pub fn blocks_make_bands()
    ensures { BlocksMakeBands }
{}

/// A band whose body sets the places of one node to words that the loops' numbers decide: these places get them block by
/// block, whatever the edges, and then the body runs once, at the last numbers.
pub fn values_make_bands()
    ensures { ValuesMakeBands }
{}
