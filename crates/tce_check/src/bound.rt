// From which cost on a row stands for every state.
ghost use Rattle.std.specs.Prelude.{◌≡◌, ◌⊎◌};
ghost use Rattle.std.specs.declared.option.Option.TheVariants.{Some};
ghost use Rattle.tce_fusion.specs.Relation.{above, none, IsCoarser};
ghost use Rattle.tce_check.specs.Joint.{IsBound};

use tce_nesting::{Nesting, Row};
use tce_space::IndexSet;

// The least cost of a row that puts no outer loop above another, and so is coarser than every state; none where no row does so.
pub(crate) fn bound_of(rows: &[Row], outer: IndexSet) -> Option<u128>
    ensures { IsBound outer rows.now result }
{
    let mut bound = None;
    for row in rows {
        bound = lesser(bound, row, outer);
    }
    bound
}

// The cost of the row where it is lesser and the row puts no outer loop above another; else the bound as it was.
fn lesser(bound: Option<u128>, row: &Row, outer: IndexSet) -> Option<u128>
    ensures { (result ≡ bound) ⊎ ((result ≡ Some row.now.cost) ×
        IsCoarser outer (above row.now.classes) none) }
{
    if let Some(cost) = bound {
        if cost <= row.cost {
            return bound;
        }
    }
    if row.classes.coarser(&Nesting::none(), outer) {
        Some(row.cost)
    } else {
        bound
    }
}
