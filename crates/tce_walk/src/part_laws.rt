// Laws of the parts of a tail, which hold without any code.
ghost use Rattle.tce_walk.specs.PartLaws.{PartsKeepWords, PartsMakeTails};

/// The blocks of a tail's loops, one after the other in row-major order, leave what the tail leaves, whatever the edges.
pub fn parts_make_tails()
    ensures { PartsMakeTails }
{}

/// Where the places of all nodes hold words, they hold words after a part.
pub fn parts_keep_words()
    ensures { PartsKeepWords }
{}
