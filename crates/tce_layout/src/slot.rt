// Slots of words.

use arrayvec::ArrayVec;
use tce_space::{MAX_INDEXES, MAX_NODES, Numbers};

/// The words of one node: the first word, how many there are, and for each index how many words further on the place
/// stands whose number of this index is one more.
#[derive(Clone, Copy, PartialEq, Eq)]
pub struct Slot {
    pub offset: u64,
    pub size: u64,
    pub steps: Numbers,
}

impl Default for Slot {
    fn default() -> Self {
        Slot {
            offset: 0,
            size: 0,
            steps: [0; MAX_INDEXES],
        }
    }
}

/// The slots of the nodes but the root, by the node's number.
#[derive(Drop)]
pub struct Layout(pub ArrayVec<Slot, MAX_NODES>);
