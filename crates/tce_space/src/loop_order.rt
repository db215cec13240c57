use crate::limits::MAX_LOOPS;
use arrayvec::ArrayVec;

/// The loops of a node, outermost first: at most ten indexes.
#[derive(Clone, Default, PartialEq, Eq, Drop)]
pub struct LoopOrder(pub ArrayVec<u8, MAX_LOOPS>);
