// What holds of windows.
ghost use Rattle.tce_exec.specs.TilesOfBlocks.{BlocksStayInTiles, TurnsStayInOneTile};
ghost use Rattle.tce_exec.specs.WindowLaws.{ChangesKeepCells, SlotsShowNodes, SlotsShowWords, TilesShowNodes, TilesShowWords, WindowsAreApart};
ghost use Rattle.tce_exec.specs.Touches.{TouchedTilesStay};

/// The turns of a block cross no edge of a tile, and stay in the extents.
pub fn blocks_stay_in_tiles()
    ensures { BlocksStayInTiles }
{}

/// Turns that cross no edge fall into one tile, whose window says where their words stand.
pub fn turns_stay_in_one_tile()
    ensures { TurnsStayInOneTile }
{}

/// The window of a slot shows the words of its node, which is an operand.
pub fn slots_show_words()
    ensures { SlotsShowWords }
{}

/// The window of a tile in a frame shows the current words of a tensor's elements.
pub fn tiles_show_words()
    ensures { TilesShowWords }
{}

/// The window of a slot shows the places of its node: words that change there change these places alone.
pub fn slots_show_nodes()
    ensures { SlotsShowNodes }
{}

/// The window of the result's tile in a frame shows the places of the root: words that change there change these places
/// alone.
pub fn tiles_show_nodes()
    ensures { TilesShowNodes }
{}

/// The windows of different slots, of a slot and a tile, and of different tiles have no word in common.
pub fn windows_are_apart()
    ensures { WindowsAreApart }
{}

/// Words that change in a slot or in a marked tile leave the cache ready, and change no current word of another tile.
pub fn changes_keep_cells()
    ensures { ChangesKeepCells }
{}

/// A touched tile stays in its frame while two more are touched.
pub fn touched_tiles_stay()
    ensures { TouchedTilesStay }
{}
