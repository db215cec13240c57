// What holds of all flat files.
ghost use Rattle.tce_tools.specs.Laws.{FlatFilesHoldTheirElements};

/// The flat file of a function of coordinates has the length, and the function's values as its elements.
pub fn flat_files_hold_their_elements()
    ensures { FlatFilesHoldTheirElements }
{}
