//! Laws of the definitions. These functions do nothing: their contracts are the laws.

ghost use Rattle.tce_flat.specs.Laws.{FlatCommandsHaveOneAnswer};

/// What can be packed, unpacked, converted or expanded is not refused, and what is refused has one reason.
pub fn flat_commands_have_one_answer()
    ensures { FlatCommandsHaveOneAnswer }
{}
