// Rows and their classes.
ghost use Rattle.std.specs.Prelude.{◌≡◌, ◌↔◌, ◌<◌, ◌≤◌, ℕ, false, All, IsTrue, length};
ghost use Rattle.tce_space.specs.Limits.{max_loops};
ghost use Rattle.tce_space.specs.IndexSet.{has};
ghost use Rattle.tce_space.specs.Space.{IsDeclared};
ghost use Rattle.tce_fields.specs.Reading.{GivesExactly, texts};
ghost use Rattle.tce_cert.specs.Forms.{IsPart, StatesClass, AreClasses, StatesClasses, StatesRow};

use crate::classes::is_none;
use crate::forms::read_cost_line;
use tce_fields::{read_names, set_named, split_parts};
use tce_nesting::{Nesting, Row};
use tce_space::{IndexSet, MAX_INDEXES, Space};

/// The row of a node with these dims that a line states. `None` where the line is no row, or has an index that is not declared or not among the dims, indexes out of the order of declaration, or an index in two classes.
pub fn read_row_line(space: &Space, dims: IndexSet, line: &[u8]) -> Option<Row>
    requires { IsDeclared space.now dims }
    ensures { GivesExactly result (StatesRow space.now dims line.now) }
{
    let (cost, text) = read_cost_line(line)?;
    let classes = read_classes(space, dims, text)?;
    Some(Row { classes, cost })
}

// The disjoint classes with `/` between them, or none.
fn read_classes(space: &Space, dims: IndexSet, text: &[u8]) -> Option<Nesting>
    requires { IsDeclared space.now dims }
    ensures { GivesExactly result (StatesClasses space.now dims text.now) }
{
    let _declared = space.index_count();
    if is_none(text) {
        return Some(Nesting::none());
    }
    let parts = split_parts::<10>(text, b'/')?;
    read_parts(space, dims, parts.as_slice())
}

// The disjoint classes of these texts.
fn read_parts(space: &Space, dims: IndexSet, parts: &[&[u8]]) -> Option<Nesting>
    requires declared { IsDeclared space.now dims }
    requires few { length parts.now ≤ max_loops }
    ensures { GivesExactly result (AreClasses space.now dims (texts parts.now)) }
{
    let mut nesting = Nesting::none();
    for part in parts {
        let class = read_class(space, dims, *part)?;
        if !are_apart(class, nesting.members()) {
            return None;
        }
        nesting = nesting.with_class(class);
    }
    let _nesting = nesting.classes();
    Some(nesting)
}

// Some of the dims, with commas between them.
fn read_class(space: &Space, dims: IndexSet, text: &[u8]) -> Option<IndexSet>
    requires { IsDeclared space.now dims }
    ensures { GivesExactly result (StatesClass space.now dims text.now) }
{
    let _declared = space.index_count();
    let names = read_names::<MAX_INDEXES>(text)?;
    let class = set_named(space, names.as_slice())?;
    if is_part(class, dims) {
        Some(class)
    } else {
        None
    }
}

// Whether a set has members, all among the dims.
fn is_part(class: IndexSet, dims: IndexSet) -> bool
    ensures { IsTrue result ↔ IsPart class dims }
{
    !is_empty(class) && class.within(dims)
}

// Whether no index is in both sets.
fn are_apart(a: IndexSet, b: IndexSet) -> bool
    ensures { IsTrue result ↔ ((i : ℕ) → IsTrue (has a i) → has b i ≡ false) }
{
    is_empty(a.meet(b))
}

// Whether a set has no members.
fn is_empty(set: IndexSet) -> bool
    ensures { IsTrue result ↔ ((i : ℕ) → has set i ≡ false) }
{
    set.bits() == 0
}
