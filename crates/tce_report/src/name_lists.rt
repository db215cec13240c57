// Lists of indexes as their names.
ghost use Rattle.std.specs.Prelude.{◌≡◌, ◌<◌, ◌≤◌, ◌+◌, ◌*◌, ◌++◌, length, All};
ghost use Rattle.tce_space.specs.Space.{index_at};
ghost use Rattle.tce_report.specs.Names.{index_list};

use crate::node_lines::Line;
use arrayvec::ArrayString;
use tce_space::Space;

/// Appends the names of the indexes with commas between them, or `-` where there are none.
pub fn push_names(line: &mut ArrayString<512>, space: &Space, indexes: &[u8])
    requires declared { All (λ i. i < length space.now.indexes) indexes.now }
    requires room { length line.old.bytes + 17 * length indexes.now + 1 ≤ 512 }
    ensures names { line.new.bytes ≡ line.old.bytes ++ index_list space.now indexes.now }
    ensures length { length line.new.bytes ≤ length line.old.bytes + 17 * length indexes.now + 1 }
{
    let Some((first, rest)) = indexes.split_first() else {
        line.push('-');
        return;
    };
    push_name(line, space, *first);
    for index in rest {
        line.push(',');
        push_name(line, space, *index);
    }
}

fn push_name(line: &mut Line, space: &Space, index: u8)
    requires declared { index < length space.now.indexes }
    requires room { length line.old.bytes + 16 ≤ 512 }
    ensures name { line.new.bytes ≡ line.old.bytes ++ (index_at space.now index).name }
    ensures length { length line.new.bytes ≤ length line.old.bytes + 16 }
{
    line.push_str(space.index_name(index).as_str());
}
