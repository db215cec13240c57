// The words of nodes.
ghost use Rattle.std.specs.Prelude.{◌≡◌, ◌<◌, ◌^◌, slice_index};
ghost use Rattle.tce_exec.specs.Slots.{slot_word};

use tce_layout::Slot;
use tce_space::{MAX_INDEXES, Numbers};

/// The place, in words, that a slot has at these numbers of the indexes, one for each index.
///
/// Numbers of indexes that the node does not keep are not looked at: their steps are 0.
pub fn slot_place(slot: &Slot, numbers: &Numbers) -> u64
    requires { slot_word slot.now (slice_index numbers.now) < 2 ^ 64 }
    ensures { result ≡ slot_word slot.now (slice_index numbers.now) }
{
    let mut place = slot.offset;
    for i in 0..MAX_INDEXES {
        place += slot.steps[i] * numbers[i];
    }
    place
}
