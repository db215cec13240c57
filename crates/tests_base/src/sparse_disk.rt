ghost use Rattle.std.specs.Prelude.{IsTrue, length};
ghost use Rattle.std.specs.Option.{ForSome};
ghost use Rattle.tce_outside.specs.Files.{HasPart};

use std::alloc::Global;
use std::process::Abort;
use tce_outside::{Disk, FaultyDisk, MemDisk};
use tce_system::SparseDisk;

// Whether the part of a file with this length lies inside it.
fn has_part(disk: &SparseDisk<FaultyDisk>, name: &str, at: u64, len: usize) -> bool
    ensures { IsTrue result → ForSome disk.now.files (λ files. HasPart files name.now at len) }
{
    let at = at as usize;
    match disk.inner().inner().file(name) {
        Some(bytes) => at <= bytes.len() && len <= bytes.len() - at,
        None => false,
    }
}

// A disk whose calls with these numbers fail.
fn disk_failing(rt: &impl Abort, alloc: Global, failing: &[u64]) -> SparseDisk<FaultyDisk> {
    let Ok(failing) = failing.to_vec(alloc) else {
        panic!(rt; "no memory");
    };
    SparseDisk::new(alloc, FaultyDisk::new(MemDisk::new(alloc), failing))
}

fn make(rt: &impl Abort, disk: &mut SparseDisk<FaultyDisk>, name: &str, len: u64) {
    assert!(rt; disk.make(name, len) == Ok(()), "{name} of {len} bytes");
}

// A call that writes, which fails or not.
fn write(
    rt: &impl Abort,
    disk: &mut SparseDisk<FaultyDisk>,
    name: &str,
    at: u64,
    text: &str,
    due: bool,
) {
    assert!(rt; has_part(disk, name, at, text.len()), "no part from {at}");
    let done = disk.write_at(name, at, text.as_bytes()).is_ok();
    assert!(rt; done == due, "{text} from {at}");
}

// Three bytes, with dots for zeros; or a call that fails.
fn read(
    rt: &impl Abort,
    disk: &mut SparseDisk<FaultyDisk>,
    name: &str,
    at: u64,
    due: Option<&str>,
) {
    let mut out = [7u8; 3];
    assert!(rt; has_part(disk, name, at, out.len()), "no part from {at}");
    let done = disk.read_at(name, at, &mut out).is_ok();
    assert!(rt; done == due.is_some(), "a read from {at}");
    if let Some(text) = due {
        for byte in &mut out {
            if *byte == 0 {
                *byte = b'.';
            }
        }
        assert!(rt; out.as_slice() == text.as_bytes(), "{name} from {at}");
    }
}

// How many calls the disk inside was asked is seen from which of them fail: the second and the fifth.
#[test]
fn what_lies_in_holes_is_not_read(rt: HostRuntime) {
    let mut disk = disk_failing(&rt, rt.alloc(), &[1, 4]);
    // 300 bytes: the pieces begin at 44 and at 172
    make(&rt, &mut disk, "a", 300);
    read(&rt, &mut disk, "a", 44, Some("..."));
    read(&rt, &mut disk, "a", 170, Some("..."));
    // in front of the first piece nothing is known: the second call
    read(&rt, &mut disk, "a", 42, None);
    write(&rt, &mut disk, "a", 171, "x", true);
    read(&rt, &mut disk, "a", 169, Some("..x"));
    // the second piece is a hole still, the first one is not
    read(&rt, &mut disk, "a", 172, Some("..."));
    read(&rt, &mut disk, "a", 44, None);
    read(&rt, &mut disk, "a", 170, Some(".x."));
}

#[test]
fn holes_end_where_anything_may_have_changed(rt: HostRuntime) {
    let mut disk = disk_failing(&rt, rt.alloc(), &[1, 4, 8]);
    // a write that fails may have written anything
    make(&rt, &mut disk, "a", 128);
    write(&rt, &mut disk, "a", 3, "xyz", false);
    read(&rt, &mut disk, "a", 100, Some("..."));
    // a file that is made anew is one hole
    make(&rt, &mut disk, "a", 128);
    read(&rt, &mut disk, "a", 3, Some("..."));
    // a file that was made later has them, and another that was written has none of its own
    write(&rt, &mut disk, "a", 0, "abc", false);
    make(&rt, &mut disk, "b", 128);
    read(&rt, &mut disk, "b", 3, Some("..."));
    write(&rt, &mut disk, "a", 0, "abc", true);
    read(&rt, &mut disk, "a", 0, Some("abc"));
    read(&rt, &mut disk, "b", 3, None);
}
