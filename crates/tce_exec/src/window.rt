//! Where words stand while loops run.

use tce_space::Numbers;

/// Where words stand while the loops of a block run: the place of the first turn's word, and how many words each index's
/// next number is further.
#[derive(Clone, Copy)]
pub struct Window {
    pub first: u64,
    pub steps: Numbers,
}
