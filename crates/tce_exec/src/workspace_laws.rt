// What holds of workspaces.
ghost use Rattle.tce_exec.specs.WorkspaceLaws.{OperandsAreAsFiled, PlacesHoldWords, SettingsStay, StepsFollow, TouchesAreReads};

/// The elements of the tensors stay in every outcome of a call.
pub fn settings_stay()
    ensures { SettingsStay }
{}

/// The current words of arrays that are not written are those of their files.
pub fn operands_are_as_filed()
    ensures { OperandsAreAsFiled }
{}

/// The places of all nodes hold words.
pub fn places_hold_words()
    ensures { PlacesHoldWords }
{}

/// A touch of a tile changes no place of any node.
pub fn touches_are_reads()
    ensures { TouchesAreReads }
{}

/// What calls leave one after the other.
pub fn steps_follow()
    ensures { StepsFollow }
{}
