// Sets of indexes as their names.
ghost use Rattle.std.specs.Prelude.{◌≡◌, ◌<◌, ◌++◌, length, All, OnOk};
ghost use Rattle.tce_space.specs.Space.{index_at, IsDeclared};
ghost use Rattle.tce_report.specs.Names.{index_list};
ghost use Rattle.tce_report.specs.NodeLine.{set_text};

use std::alloc::AllocError;
use tce_fields::members_of;
use tce_space::{IndexSet, Space};

// Appends the names of a set's members in order of declaration, or `-` where it has none.
pub(crate) fn push_set(text: &mut Vec<u8>, space: &Space, set: IndexSet) -> Result<(), AllocError>
    requires { IsDeclared space.now set }
    ensures { OnOk result (text.new.items ≡ text.old.items ++ set_text space.now set) }
{
    push_names(text, space, members_of(set).as_slice())
}

// Appends the names of the indexes with commas between them, or `-` where there are none.
fn push_names(text: &mut Vec<u8>, space: &Space, indexes: &[u8]) -> Result<(), AllocError>
    requires { All (λ i. i < length space.now.indexes) indexes.now }
    ensures { OnOk result (text.new.items ≡ text.old.items ++ index_list space.now indexes.now) }
{
    let Some((first, rest)) = indexes.split_first() else {
        text.push(b'-')?;
        return Ok(());
    };
    push_name(text, space, *first)?;
    for index in rest {
        text.push(b',')?;
        push_name(text, space, *index)?;
    }
    Ok(())
}

fn push_name(text: &mut Vec<u8>, space: &Space, index: u8) -> Result<(), AllocError>
    requires { index < length space.now.indexes }
    ensures { OnOk result (text.new.items ≡ text.old.items ++ (index_at space.now index).name) }
{
    text.extend_from_slice(space.index_name(index).as_str().as_bytes())
}
