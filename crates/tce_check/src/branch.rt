// Nestings that put some loops above all others of a node, one after another.
ghost use Rattle.std.specs.Prelude.{◌<◌, IsTrue, IfSome};
ghost use Rattle.tce_space.specs.IndexSet.{has};
ghost use Rattle.tce_space.specs.Limits.{max_indexes};
ghost use Rattle.tce_check.specs.Branch.{IsAfter};

use crate::uppermost::Turn;
use arrayvec::ArrayVec;
use tce_space::{IndexSet, MAX_LOOPS};

// The loops that come first, each with those among which it does, and the rest.
#[derive(Drop)]
pub(crate) struct Branch {
    pub(crate) turns: ArrayVec<Turn, MAX_LOOPS>,
    pub(crate) rest: IndexSet,
}

impl Branch {
    // The nestings that put this loop next.
    pub(crate) fn after(&self, index: u8) -> Option<Branch>
        requires inside { IsTrue (has self.now.rest index) }
        requires index { index < max_indexes }
        ensures { IfSome result (IsAfter self.now index) }
    {
        let mut turns = ArrayVec::new();
        if turns.try_extend_from_slice(self.turns.as_slice()).is_err() {
            return None;
        }
        let rest = self.rest;
        if turns.try_push(Turn { rest, index }).is_err() {
            return None;
        }
        Some(Branch {
            turns,
            rest: rest.minus(IndexSet::empty().with(index)),
        })
    }
}
