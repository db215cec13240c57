//! Loop code of contraction trees: a flat list of operations that computes each node inside its fused loops.
//!
//! A fusion with loop orders that carry it says in which loops each node stands. [`generate`] writes the loops of the
//! root, and in them, in front of what stands at each depth, the loops of the nodes whose fused indexes are open
//! there. After Lam, Cociorva, Baumgartner and Sadayappan (1999).
#![tactic(auto)]

mod emission;
mod op;

pub use emission::{Code, generate};
pub use op::Op;
