// Steps from rows of the operands of a node.
ghost use Rattle.std.specs.Prelude.{◌≡◌, ◌↔◌, ◌<◌, ◌≤◌, ◌^◌, IsTrue, IsSome, IfSome, Any};
ghost use Rattle.tce_space.specs.Limits.{cost_limit, max_loops};
ghost use Rattle.tce_space.specs.IndexSet.{count};
ghost use Rattle.tce_fusion.specs.Relation.{above, HasNoConflict};
ghost use Rattle.tce_fusion.specs.Row.{rows_joined, StandsFor};
ghost use Rattle.tce_nesting.specs.Classes.{AllowsSet};
ghost use Rattle.tce_search.specs.Steps.{IsRowJoin, IsRestricted};

use tce_nesting::{Choice, Nesting, Row};
use tce_space::IndexSet;

/// The two rows of a node's operands together: their classes joined on the node's loops, at most ten, and the sum of their costs. `None` exactly where they conflict.
pub fn join_rows(left: &Row, right: &Row, loops: IndexSet) -> Option<Row>
    requires loops { count loops ≤ max_loops }
    requires left { left.now.cost < cost_limit }
    requires right { right.now.cost < cost_limit }
    ensures joins { IfSome result (IsRowJoin loops left.now right.now) }
    ensures conflict { IsSome result ↔ HasNoConflict loops (rows_joined left.now right.now) }
{
    let classes = Nesting::combine(&left.classes, &right.classes, loops)?;
    Some(Row {
        classes,
        cost: left.cost + right.cost,
    })
}

/// What is left of the joined rows of a node's operands where the choice's set is fused: its classes, and the cost with the elements that the node keeps. `None` exactly where the set is not allowed.
pub fn step(joined: &Row, choice: &Choice) -> Option<Row>
    requires cost { joined.now.cost < 2 ^ 97 }
    requires size { choice.now.size < cost_limit }
    ensures left { IfSome result (IsRestricted joined.now choice.now) }
    ensures allowed { IsSome result ↔ AllowsSet (above joined.now.classes) choice.now.fused }
{
    if !joined.classes.allowed(choice.fused) {
        return None;
    }
    Some(Row {
        classes: joined.classes.restrict(choice.fused),
        cost: joined.cost + choice.size,
    })
}

/// Whether the row is coarser than the state on the outer loops, those of the node's parent, and costs no more.
pub fn stands_for(row: &Row, state: &Row, outer: IndexSet) -> bool
    ensures { IsTrue result ↔ StandsFor outer (above state.now.classes) state.now.cost row.now }
{
    row.cost <= state.cost && row.classes.coarser(&state.classes, outer)
}

/// Whether some row stands for the state.
pub fn is_stood_for(rows: &[Row], state: &Row, outer: IndexSet) -> bool
    ensures { IsTrue result ↔ Any (StandsFor outer (above state.now.classes) state.now.cost) rows.now }
{
    rows.iter().any(|row| stands_for(row, state, outer))
}
