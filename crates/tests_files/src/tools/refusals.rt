//! Calls that are refused and change no file, and calls whose disk fails.
use super::{converted, counted, disk_of, first_form, packed, unpacked};
use crate::given::{expect_file, failing, put_file, repeated, shape_of};
use std::alloc::Global;
use std::process::Abort;
use tce_array::{ArrayFault, Form};
use tce_outside::{FaultyDisk, MemDisk};
use tce_space::Shape;
use tce_tools::ToolFault;

// A disk with the old file A.tca alone.
fn old_disk(rt: &impl Abort, alloc: Global) -> MemDisk {
    let mut disk = MemDisk::new(alloc);
    put_file(rt, &mut disk, "A.tca", b"old");
    disk
}

fn expect_old(rt: &impl Abort, disk: &MemDisk) {
    expect_file(rt, disk, "A.tca", b"old");
    assert!(rt; disk.file("b.flat").is_none());
}

// Packing is refused with this fault, and changes nothing.
fn expect_no_flat(
    rt: &impl Abort,
    alloc: Global,
    disk: &mut MemDisk,
    shape: &Shape,
    fault: ToolFault,
) {
    assert!(rt; packed(alloc, disk, shape, "a.flat", "A.tca") == Some(Err(fault)));
    expect_old(rt, disk);
}

// A flat file of another length than 40 bytes.
fn expect_flat_length(
    rt: &impl Abort,
    alloc: Global,
    disk: &mut MemDisk,
    shape: &Shape,
    len: usize,
) {
    put_file(rt, disk, "a.flat", repeated(rt, alloc, 7, len).as_slice());
    expect_no_flat(rt, alloc, disk, shape, ToolFault::FlatLength(len as u64));
}

#[test]
fn flat_files_are_refused(rt: HostRuntime) {
    let alloc = rt.alloc();
    let shape = shape_of(&rt, alloc, "5/2");
    let mut disk = old_disk(&rt, alloc);
    expect_no_flat(&rt, alloc, &mut disk, &shape, ToolFault::NoFlat);
    expect_flat_length(&rt, alloc, &mut disk, &shape, 0);
    expect_flat_length(&rt, alloc, &mut disk, &shape, 39);
    expect_flat_length(&rt, alloc, &mut disk, &shape, 41);
}

// Unpacking and converting the array are refused with this fault, and change nothing.
fn expect_no_array(
    rt: &impl Abort,
    alloc: Global,
    disk: &mut MemDisk,
    shape: &Shape,
    name: &str,
    fault: ArrayFault,
) {
    let refused = Some(Err(ToolFault::Array(fault)));
    assert!(rt; unpacked(alloc, disk, shape, name, "b.flat") == refused);
    assert!(rt; converted(alloc, disk, shape, name, Form::Wide, "b.flat") == refused);
    expect_old(rt, disk);
}

#[test]
fn arrays_are_refused(rt: HostRuntime) {
    let alloc = rt.alloc();
    let shape = shape_of(&rt, alloc, "5/2");
    let mut disk = old_disk(&rt, alloc);
    expect_no_array(
        &rt,
        alloc,
        &mut disk,
        &shape,
        "A.tca",
        ArrayFault::BadLength(3),
    );
    expect_no_array(&rt, alloc, &mut disk, &shape, "B.tca", ArrayFault::NoFile);
}

// Whether a call ended well, or with the fault of the disk where it failed.
fn is_fault(ended: Option<Result<(), ToolFault>>, faults: u64) -> bool {
    match ended {
        Some(Ok(())) => faults == 0,
        Some(Err(fault)) => faults == 1 && fault == ToolFault::Disk,
        None => false,
    }
}

// One of three commands over a disk with the flat file a.flat and the array A.tca.
fn ended(
    alloc: Global,
    disk: &mut FaultyDisk,
    shape: &Shape,
    command: u8,
) -> Option<Result<(), ToolFault>> {
    match command {
        0 => packed(alloc, disk, shape, "a.flat", "B.tca"),
        1 => unpacked(alloc, disk, shape, "A.tca", "B.tca"),
        _ => converted(alloc, disk, shape, "A.tca", Form::Narrow, "B.tca"),
    }
}

// A file that a command did not make to its end is not there, or begins with zeros as no array does.
fn expect_no_half(rt: &impl Abort, disk: &MemDisk, call: u64) {
    if let Some(bytes) = disk.file("B.tca") {
        assert!(rt; bytes.starts_with(&[0; 8]), "half a file at call {call}");
    }
}

// A command over a disk whose call with this number fails.
fn expect_failure(
    rt: &impl Abort,
    alloc: Global,
    call: u64,
    command: u8,
    flat: &[u8],
    array: &[u8],
) {
    let shape = shape_of(rt, alloc, "3/2 3/2");
    let mut files = disk_of(rt, alloc, flat);
    put_file(rt, &mut files, "A.tca", array);
    let mut disk = failing(rt, alloc, files, call);
    let done = ended(alloc, &mut disk, &shape, command);
    assert!(rt; is_fault(done, disk.faults()), "call {call} of {command}");
    if disk.faults() == 1 {
        expect_no_half(rt, disk.inner(), call);
    }
    expect_file(rt, disk.inner(), "a.flat", flat);
    expect_file(rt, disk.inner(), "A.tca", array);
}

// Each call of a command fails in turn.
fn expect_failures(rt: &impl Abort, alloc: Global, command: u8, flat: &[u8], array: &[u8]) {
    for call in 0..24 {
        expect_failure(rt, alloc, call, command, flat, array);
    }
}

#[test]
fn failures_of_the_disk_are_passed_on(rt: HostRuntime) {
    let alloc = rt.alloc();
    let shape = shape_of(&rt, alloc, "3/2 3/2");
    let flat = counted(&rt, alloc, 9);
    let array = first_form(&rt, alloc, &shape, "1 2 4 5 3 0 6 0 7 8 0 0 9 0 0 0");
    expect_failures(&rt, alloc, 0, flat.as_slice(), array.as_slice());
    expect_failures(&rt, alloc, 1, flat.as_slice(), array.as_slice());
    expect_failures(&rt, alloc, 2, flat.as_slice(), array.as_slice());
}
