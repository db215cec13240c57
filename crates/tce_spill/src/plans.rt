// The plans of the pieces, which were found with the cuts.
ghost use Rattle.std.specs.Prelude.{◌≡◌, ◌<◌, Some, None, IsSome, length, slice_index_or, slice_set};

use tce_nesting::Plan;

/// A piece whose turn it is: its root, and the plan that it is run by.
#[derive(Drop)]
pub(crate) struct Turn {
    pub(crate) root: u8,
    pub(crate) plan: Plan,
}

/// Takes the plan of a root out of the list.
pub(crate) fn take_plan(plans: &mut Vec<Option<Plan>>, root: u8) -> Plan
    requires place { root < length plans.old.items }
    requires some { IsSome (slice_index_or plans.old.items root None) }
    ensures plan { slice_index_or plans.old.items root None ≡ Some result }
    ensures left { plans.new.items ≡ slice_set plans.old.items root None }
{
    plans[root as usize].take().unwrap()
}
