// Indexes by their names.
ghost use Rattle.std.specs.Prelude.{◌≡◌, ◌≤◌, ℕ, IsTrue, List, length};
ghost use Rattle.std.specs.List.{list_all};
ghost use Rattle.std.specs.Str.{bytes_eq};
ghost use Rattle.tce_space.specs.Limits.{max_indexes};
ghost use Rattle.tce_space.specs.IndexSet.{members};
ghost use Rattle.tce_space.specs.Name.{is_name};
ghost use Rattle.tce_fields.specs.Names.{IsNamed, AreNamed, IsSetNamed};
ghost use Rattle.tce_fields.specs.Reading.{GivesExactly, texts, items_if_some};

use arrayvec::ArrayVec;
use std::str;
use tce_space::{IndexSet, MAX_INDEXES, Space};

// The index with this name.
fn index_named(space: &Space, name: &[u8]) -> Option<u8>
    requires { IsTrue (is_name name.now) }
    ensures { GivesExactly result (IsNamed space.now name.now) }
{
    let Ok(text) = str::from_utf8(name) else {
        return None;
    };
    space.index_named(text)
}

/// The declared indexes with these names, in their sequence. `None` where a name is not declared.
pub fn indexes_named<const N: usize>(space: &Space, names: &[&[u8]]) -> Option<ArrayVec<u8, N>>
    requires named { IsTrue (list_all is_name (texts names.now)) }
    requires few { length names.now ≤ N }
    ensures { GivesExactly (items_if_some result) (AreNamed space.now (texts names.now)) }
{
    let mut indexes = ArrayVec::new();
    for name in names {
        let Some(index) = index_named(space, *name) else {
            return None;
        };
        indexes.push(index);
    }
    Some(indexes)
}

/// The members of a set in order.
pub fn members_of(set: IndexSet) -> ArrayVec<u8, MAX_INDEXES>
    ensures { result.items ≡ members set }
{
    let mut all = ArrayVec::new();
    for index in 0..MAX_INDEXES as u8 {
        if set.has(index) {
            all.push(index);
        }
    }
    all
}

fn are_same(a: &[u8], b: &[u8]) -> bool
    ensures { result ≡ bytes_eq a.now b.now }
{
    a == b
}

/// The set of the indexes with these names. `None` where a name is not declared, stands twice or stands out of the order of declaration.
pub fn set_named(space: &Space, names: &[&[u8]]) -> Option<IndexSet>
    requires named { IsTrue (list_all is_name (texts names.now)) }
    requires few { length names.now ≤ max_indexes }
    ensures { GivesExactly result (IsSetNamed space.now (texts names.now)) }
{
    let _declared = space.index_count();
    let Some(indexes) = indexes_named::<MAX_INDEXES>(space, names) else {
        return None;
    };
    let set = IndexSet::of_list(indexes.as_slice());
    if are_same(members_of(set).as_slice(), indexes.as_slice()) {
        Some(set)
    } else {
        None
    }
}
