//! Files that are written over others.

use crate::given::{expect_file, put_file};
use std::process::Abort;
use tce_outside::{FaultyDisk, MemDisk, OutFault};
use tce_tools::write_file;

fn expect_written(rt: &impl Abort, disk: &mut MemDisk, name: &str, bytes: &[u8]) {
    assert!(rt; write_file(disk, name, bytes).is_ok());
    expect_file(rt, disk, name, bytes);
}

#[test]
fn files_are_written_whole(rt: HostRuntime) {
    let mut disk = MemDisk::new(rt.alloc());
    put_file(&rt, &mut disk, "a", b"before");
    put_file(&rt, &mut disk, "b", b"beside");
    expect_written(&rt, &mut disk, "a", b"x");
    expect_written(&rt, &mut disk, "c", b"");
    expect_written(&rt, &mut disk, "a", b"longer than before");
    expect_file(&rt, &disk, "b", b"beside");
}
