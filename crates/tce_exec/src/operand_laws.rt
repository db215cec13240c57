// What holds of the words of operands.
ghost use Rattle.tce_exec.specs.Slots.{SlotsLeadToPlaces};
ghost use Rattle.tce_exec.specs.OperandLaws.{PutsChangeOnePlace, ClearedSlotsAreCleared, TilePutsChangeOnePlace, TouchesKeepStates, PlacesHaveTheirWords, TouchedTilesShowElements};

/// The words that the slots of a layout have are those of the nodes' places, each of its own.
pub fn slots_lead_to_places()
    ensures { SlotsLeadToPlaces }
{}

/// The word of a place stands where its slot says, and that of a place of the root is the current word of an element of
/// the result.
pub fn places_have_their_words()
    ensures { PlacesHaveTheirWords }
{}

/// A touched tile shows the current words of its elements.
pub fn touched_tiles_show_elements()
    ensures { TouchedTilesShowElements }
{}

/// A word that is put at a node's place changes this place alone.
pub fn puts_change_one_place()
    ensures { PutsChangeOnePlace }
{}

/// A slot whose words become 0 clears its node.
pub fn cleared_slots_are_cleared()
    ensures { ClearedSlotsAreCleared }
{}

/// A word that is put into the frame of a marked tile of the result changes one place of the root alone.
pub fn tile_puts_change_one_place()
    ensures { TilePutsChangeOnePlace }
{}

/// A touch of a tile changes no place of any node.
pub fn touches_keep_states()
    ensures { TouchesKeepStates }
{}
