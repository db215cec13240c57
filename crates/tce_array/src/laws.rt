// What holds of all array files.
ghost use Rattle.tce_array.specs.Files.{PlacesAreApart, FilesHoldTheirElements, PaddingIsZero, TilesStandTogether, PartsHoldTheirWords, WritesChangeTheirWords, TileWritesStayInTheirTile, FilesAreTheirElements, FormsAreTold, WordsFit, HeadsCompleteFiles, ArraysDoNotBeginWithZeros, NoHalfFileIsAnArray};

/// Different elements are stored at different places, each behind the head and inside the file.
pub fn places_are_apart()
    ensures { PlacesAreApart }
{}

/// The file of a function of coordinates has the form, and the function's values as its elements.
pub fn files_hold_their_elements()
    ensures { FilesHoldTheirElements }
{}

/// The words of that file that are no element are 0.
pub fn padding_is_zero()
    ensures { PaddingIsZero }
{}

/// The words of one tile stand together, the tiles in row-major order.
pub fn tiles_stand_together()
    ensures { TilesStandTogether }
{}

/// The words of a part of a file are words of the file.
pub fn parts_hold_their_words()
    ensures { PartsHoldTheirWords }
{}

/// A write of words stores these words, and leaves all others and the form.
pub fn writes_change_their_words()
    ensures { WritesChangeTheirWords }
{}

/// A write of one tile's words changes that tile's elements alone.
pub fn tile_writes_stay_in_their_tile()
    ensures { TileWritesStayInTheirTile }
{}

/// A file is told by its form, its elements, and zeros elsewhere.
pub fn files_are_their_elements()
    ensures { FilesAreTheirElements }
{}

/// A file has one form.
pub fn forms_are_told()
    ensures { FormsAreTold }
{}

/// Eight bytes hold every word, and four those that as signed numbers are from -2^31 to 2^31 - 1.
pub fn words_that_fit()
    ensures { WordsFit }
{}

/// A file of the right length is an array once its head is written over it, and before that it may begin with zeros, as
/// no array does. So what is left of a file whose head was to come last is no array, or was there before, or is whole.
pub fn heads_come_last()
    ensures complete { HeadsCompleteFiles }
    ensures no_zeros { ArraysDoNotBeginWithZeros }
    ensures no_half { NoHalfFileIsAnArray }
{}
