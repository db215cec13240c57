// What holds of held tiles and of current words.
ghost use Rattle.tce_cache.specs.FrameLaws.{TouchesChangeTheList, LatestTilesStay, WritesStayInTheirTile, PutsAreCurrent, WritesLeaveCleanTiles, TouchesKeep, LoadsKeep, DropsKeep, WriteBacksKeep};

/// A touched tile comes to the front of the list. Only where it was not held and all frames are in use, the last one
/// is given up.
pub fn touches_change_the_list()
    ensures { TouchesChangeTheList }
{}

/// With three frames or more the two tiles that were touched last stay where they are, whatever is touched next.
pub fn latest_tiles_stay()
    ensures { LatestTilesStay }
{}

/// A write inside the frame of a tile changes no word of another tile.
pub fn writes_stay_in_their_tile()
    ensures { WritesStayInTheirTile }
{}

/// A word that is put is the current one, and all others stay.
pub fn puts_are_current()
    ensures { PutsAreCurrent }
{}

/// A write to a marked tile leaves the others as their files have them.
pub fn writes_leave_clean_tiles()
    ensures { WritesLeaveCleanTiles }
{}

/// A held tile that comes to the front keeps all current words.
pub fn touches_keep()
    ensures { TouchesKeep }
{}

/// A tile that is read into a free frame keeps all current words.
pub fn loads_keep()
    ensures { LoadsKeep }
{}

/// The last tile may be given up where it is not marked.
pub fn drops_keep()
    ensures { DropsKeep }
{}

/// A tile that is written to its file keeps all current words.
pub fn write_backs_keep()
    ensures { WriteBacksKeep }
{}
