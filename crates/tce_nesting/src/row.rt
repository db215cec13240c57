// Rows: states of subtrees as tables keep them.
ghost use Rattle.std.specs.Prelude.{◌≡◌, ◌↔◌, IsTrue, All};
ghost use Rattle.tce_nesting.specs.Plan.{LiesWithin, RowFits};

use crate::nesting::Nesting;
use std::marker::Model;
use tce_space::{COST_LIMIT, IndexSet};

/// A state of a subtree: which loops have to be above which, and the elements that its nodes keep together.
#[derive(Clone, Default, PartialEq, Eq, Drop)]
pub struct Row {
    pub classes: Nesting,
    pub cost: u128,
}

impl Model for Row {
    ghost use Rattle.tce_fusion.specs.Row as states;

    ghost Value = { states.Row };

    ghost view = { λ r. record { classes = r.classes; cost = r.cost } };

    ghost inverse = { λ s. record { classes = s.classes; cost = s.cost } };
}

impl Row {
    // Whether the classes lie within the dims, and the cost is below the limit.
    pub(crate) fn fits(&self, dims: IndexSet) -> bool
        ensures { IsTrue result ↔ RowFits dims self.now }
    {
        self.cost < COST_LIMIT && lie_within(self.classes.classes(), dims)
    }
}

// Whether each of the sets lies within the dims.
fn lie_within(sets: &[IndexSet], dims: IndexSet) -> bool
    ensures { IsTrue result ↔ All (LiesWithin dims) sets.now }
{
    sets.iter().all(|set| set.within(dims))
}
