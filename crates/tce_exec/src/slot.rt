// The windows of slots.
ghost use Rattle.std.specs.Prelude.{◌<◌, ◌^◌, slice_index};
ghost use Rattle.tce_exec.specs.Slots.{slot_word};
ghost use Rattle.tce_exec.specs.OperandWindows.{IsSlotWindow};

use crate::slot_places::slot_place;
use crate::window::Window;
use tce_layout::Slot;
use tce_space::Numbers;

/// Where the words of a slot stand from the first turn of a block on, whose numbers are `first`.
pub fn slot_window(slot: &Slot, first: &Numbers) -> Window
    requires { slot_word slot.now (slice_index first.now) < 2 ^ 64 }
    ensures { IsSlotWindow slot.now (slice_index first.now) result }
{
    Window {
        first: slot_place(slot, first),
        steps: slot.steps,
    }
}
