// Laws of cuts, which hold without any code.
ghost use Rattle.tce_spill.specs.Laws.{PartsTakeNoMore, MoreCutsTakeNoMore, CutsAreOne, CutsMeetLimits, NoCutIsIdle, RenumberedIsAlike};

/// What is left of a subtree, where some of its own subtrees are tensors of the same dims, has a legal fusion that takes
/// no more memory than one of the whole tree.
pub fn parts_take_no_more()
    ensures { PartsTakeNoMore }
{}

/// Where more nodes are cut, the piece in which a node stands has a legal fusion that takes no more memory.
pub fn more_cuts_take_no_more()
    ensures { MoreCutsTakeNoMore }
{}

/// The cuts for a limit are one set, if there are any.
pub fn cuts_are_one()
    ensures { CutsAreOne }
{}

/// Where there are cuts of storable nodes whose pieces all have a fusion within a limit, this is so of the cuts for that limit.
pub fn cuts_meet_limits()
    ensures { CutsMeetLimits }
{}

/// Of the cuts for a limit no single one can be taken back: the joined piece would take more than the limit.
pub fn no_cut_is_idle()
    ensures { NoCutIsIdle }
{}

/// Other numbers for the tensors of a tree change none of its fusions: the same ones fit and are legal, and they take the
/// same memory.
pub fn renumbered_is_alike()
    ensures { RenumberedIsAlike }
{}
