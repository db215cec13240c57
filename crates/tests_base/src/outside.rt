ghost use Rattle.std.specs.Prelude.{IsTrue, length};
ghost use Rattle.tce_outside.specs.Files.{HasPart};

use std::alloc::Global;
use std::process::Abort;
use tce_outside::{Disk, Failed, FaultyDisk, FaultySink, MemDisk, MemSink, OutFault, Sink};

// Whether the part of a file with this length lies inside it.
fn has_part(disk: &MemDisk, name: &str, at: u64, len: usize) -> bool
    ensures { IsTrue result → HasPart disk.now name.now at len }
{
    let at = at as usize;
    match disk.file(name) {
        Some(bytes) => at <= bytes.len() && len <= bytes.len() - at,
        None => false,
    }
}

fn put(rt: &impl Abort, disk: &mut MemDisk, name: &str, bytes: &[u8]) {
    assert!(rt; disk.put_file(name, bytes).is_ok(), "no memory");
}

fn expect_file(rt: &impl Abort, disk: &MemDisk, name: &str, bytes: Option<&[u8]>) {
    assert!(rt; disk.file(name) == bytes, "the file {name}");
}

fn expect_size(rt: &impl Abort, disk: &mut MemDisk, name: &str, size: Option<u64>) {
    assert!(rt; disk.size(name) == Ok(size), "the size of {name}");
}

fn expect_made(rt: &impl Abort, disk: &mut MemDisk, len: u64, due: Result<(), OutFault>) {
    assert!(rt; disk.make("a", len) == due, "a file of {len} bytes");
}

fn write(rt: &impl Abort, disk: &mut MemDisk, at: u64, bytes: &[u8]) {
    assert!(rt; has_part(disk, "a", at, bytes.len()));
    assert!(rt; disk.write_at("a", at, bytes) == Ok(()));
}

fn expect_read(rt: &impl Abort, disk: &mut MemDisk, at: u64, bytes: [u8; 2]) {
    let mut out = [7u8; 2];
    assert!(rt; has_part(disk, "a", at, out.len()));
    assert!(rt; disk.read_at("a", at, &mut out) == Ok(()));
    assert!(rt; out == bytes, "bytes from {at}");
}

#[test]
fn a_disk_in_memory_holds_what_was_put(rt: HostRuntime) {
    let mut disk = MemDisk::new(rt.alloc());
    expect_file(&rt, &disk, "a", None);
    expect_size(&rt, &mut disk, "a", None);
    put(&rt, &mut disk, "a", b"old bytes");
    put(&rt, &mut disk, "b", b"");
    expect_size(&rt, &mut disk, "b", Some(0));
    // the old bytes are gone
    expect_made(&rt, &mut disk, 5, Ok(()));
    expect_file(&rt, &disk, "a", Some(&[0; 5]));
    write(&rt, &mut disk, 1, b"xyz");
    expect_file(&rt, &disk, "a", Some(b"\0xyz\0"));
    expect_read(&rt, &mut disk, 2, *b"yz");
}

#[test]
fn files_in_memory_stay_where_one_is_refused(rt: HostRuntime) {
    let mut disk = MemDisk::new(rt.alloc());
    put(&rt, &mut disk, "a", b"old bytes");
    put(&rt, &mut disk, "b", b"");
    put(&rt, &mut disk, "a", b"new");
    expect_file(&rt, &disk, "a", Some(b"new"));
    // there is no such memory
    expect_made(&rt, &mut disk, u64::MAX, Err(OutFault::Memory));
    expect_size(&rt, &mut disk, "a", Some(3));
    expect_file(&rt, &disk, "b", Some(b""));
}

// A call that makes a file, or fails.
fn made(rt: &impl Abort, disk: &mut FaultyDisk, len: u64) -> bool {
    match disk.make("b", len) {
        Ok(()) => true,
        Err(fault) => {
            assert!(rt; fault == OutFault::Failed);
            false
        }
    }
}

// A call that asks for a size, or fails.
fn sized(rt: &impl Abort, disk: &mut FaultyDisk, name: &str, due: Option<u64>) -> bool {
    match disk.size(name) {
        Ok(size) => {
            assert!(rt; size == due);
            true
        }
        Err(Failed) => false,
    }
}

// A call that reads, or fails and leaves what stood there.
fn read(rt: &impl Abort, disk: &mut FaultyDisk) -> bool {
    let mut out = [7u8; 2];
    assert!(rt; has_part(disk.inner(), "a", 1, out.len()));
    let done = disk.read_at("a", 1, &mut out).is_ok();
    assert!(rt; out == if done { [2, 3] } else { [7, 7] });
    done
}

fn written(rt: &impl Abort, disk: &mut FaultyDisk) -> bool {
    assert!(rt; has_part(disk.inner(), "a", 2, 2));
    disk.write_at("a", 2, &[9, 8]).is_ok()
}

// Six calls on a disk that holds the file `a` of the bytes 1 to 4: which are done.
fn six_calls(rt: &impl Abort, disk: &mut FaultyDisk) -> [bool; 6] {
    let size = sized(rt, disk, "a", Some(4));
    let first = made(rt, disk, 2);
    let read = read(rt, disk);
    let written = written(rt, disk);
    let absent = sized(rt, disk, "c", None);
    [size, first, read, written, absent, made(rt, disk, 1)]
}

fn disk_failing(rt: &impl Abort, alloc: Global, failing: &[u64]) -> FaultyDisk {
    let mut inner = MemDisk::new(alloc);
    put(rt, &mut inner, "a", &[1, 2, 3, 4]);
    match failing.to_vec(alloc) {
        Ok(failing) => FaultyDisk::new(inner, failing),
        Err(_) => panic!(rt; "no memory"),
    }
}

fn failures(done: [bool; 6]) -> u64 {
    let mut count: u64 = 0;
    for is_done in done {
        if !is_done {
            count = count.wrapping_add(1);
        }
    }
    count
}

// The calls that are done, and the two files at their end.
fn expect_calls(
    rt: &impl Abort,
    alloc: Global,
    failing: &[u64],
    done: [bool; 6],
    first: &[u8],
    second: Option<&[u8]>,
) {
    let mut disk = disk_failing(rt, alloc, failing);
    assert!(rt; six_calls(rt, &mut disk) == done, "failing {failing:?}");
    assert!(rt; disk.faults() == failures(done), "failing {failing:?}");
    expect_file(rt, disk.inner(), "a", Some(first));
    expect_file(rt, disk.inner(), "b", second);
}

#[test]
fn a_faulty_disk_fails_the_listed_calls_alone(rt: HostRuntime) {
    let (alloc, kept, changed) = (rt.alloc(), [1, 2, 3, 4], [1, 2, 9, 8]);
    expect_calls(&rt, alloc, &[], [true; 6], &changed, Some(&[0]));
    let done = [false, true, true, true, true, true];
    expect_calls(&rt, alloc, &[0], done, &changed, Some(&[0]));
    let done = [true, false, true, true, true, false];
    expect_calls(&rt, alloc, &[5, 1], done, &changed, None);
    let done = [true, true, false, false, true, true];
    expect_calls(&rt, alloc, &[2, 3, 3], done, &kept, Some(&[0]));
    let done = [true, true, true, true, false, false];
    expect_calls(&rt, alloc, &[4, 5, 6], done, &changed, Some(&[0, 0]));
    expect_calls(&rt, alloc, &[0, 1, 2, 3, 4, 5], [false; 6], &kept, None);
}

// Puts three pieces through the bound, and tells which were taken.
fn put_three<S: Sink>(sink: &mut S) -> [bool; 3] {
    let first = sink.put(b"ab").is_ok();
    let empty = sink.put(b"").is_ok();
    [first, empty, sink.put(b"cd").is_ok()]
}

fn sink_failing(rt: &impl Abort, alloc: Global, failing: &[u64]) -> FaultySink {
    match failing.to_vec(alloc) {
        Ok(failing) => FaultySink::new(MemSink::new(alloc), failing),
        Err(_) => panic!(rt; "no memory"),
    }
}

// The pieces that are taken, the bytes at their end, and the faults.
fn expect_pieces(rt: &impl Abort, sink: FaultySink, taken: [bool; 3], bytes: &[u8], faults: u64) {
    let mut sink = sink;
    assert!(rt; put_three(&mut sink) == taken);
    assert!(rt; sink.inner().bytes() == bytes);
    assert!(rt; sink.faults() == faults);
}

#[test]
fn a_sink_appends_each_piece_that_it_takes(rt: HostRuntime) {
    let mut sink = MemSink::new(rt.alloc());
    assert!(rt; put_three(&mut sink) == [true; 3]);
    assert!(rt; sink.bytes() == b"abcd".as_slice());
}

#[test]
fn a_faulty_sink_refuses_the_listed_pieces_alone(rt: HostRuntime) {
    let (alloc, all) = (rt.alloc(), [true; 3]);
    expect_pieces(&rt, sink_failing(&rt, alloc, &[]), all, b"abcd", 0);
    let sink = sink_failing(&rt, alloc, &[0]);
    expect_pieces(&rt, sink, [false, true, true], b"cd", 1);
    let sink = sink_failing(&rt, alloc, &[2, 1]);
    expect_pieces(&rt, sink, [true, false, false], b"ab", 2);
    expect_pieces(&rt, sink_failing(&rt, alloc, &[3]), all, b"abcd", 0);
}
