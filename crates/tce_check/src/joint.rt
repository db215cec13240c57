// Two rows of the operands of a node together.
ghost use Rattle.std.specs.Prelude.{◌<◌, ◌≤◌, ◌↔◌, IsSome, IfSome};
ghost use Rattle.tce_space.specs.Limits.{cost_limit, max_loops};
ghost use Rattle.tce_space.specs.IndexSet.{count};
ghost use Rattle.tce_fusion.specs.Relation.{HasNoConflict};
ghost use Rattle.tce_fusion.specs.Row.{rows_joined};
ghost use Rattle.tce_check.specs.Joint.{IsJointOf};

use tce_nesting::{Nesting, Row};
use tce_space::IndexSet;

// All loops of the node as both rows put them above each other, with the sum of the costs; none where the rows have a conflict.
pub(crate) fn joint(left: &Row, right: &Row, loops: IndexSet) -> Option<Row>
    requires few { count loops ≤ max_loops }
    requires left { left.now.cost < cost_limit }
    requires right { right.now.cost < cost_limit }
    ensures joins { IfSome result (IsJointOf loops left.now right.now) }
    ensures quiet { IsSome result ↔ HasNoConflict loops (rows_joined left.now right.now) }
{
    let classes = Nesting::combine(&left.classes, &right.classes, loops)?;
    Some(Row {
        classes,
        cost: left.cost + right.cost,
    })
}
