//! Operands that are opened or refused, and arrays for a cache.

use crate::given::spec_of;
use std::alloc::Global;
use std::process::Abort;
use tce_array::{ArrayFault, Form};
use tce_cache::ArrayRef;
use tce_job::{arrays_of, open_operands};
use tce_outside::MemDisk;

// The operands are tensor 2 and then tensor 0. Tensor 1 is not used, and its tiles have eight words; the largest has four.
const TEXT: &[u8] =
    b"range N 2 tile 2\nindex N i j\ntensor B[N]\ntensor X[N,N,N]\ntensor A[N]\ntensor C[N,N]\nC[i,j] = A[i] * B[j]\n";

const NARROW: &[u8] =
    b"TCARRAY2\x01\0\0\0\0\0\0\0\x04\0\0\0\0\0\0\0\x02\0\0\0\0\0\0\0\x02\0\0\0\0\0\0\0\xff\xff\xff\xff\x05\0\0\0";

const EIGHT: &[u8] =
    b"TCARRAY1\x01\0\0\0\0\0\0\0\x02\0\0\0\0\0\0\0\x02\0\0\0\0\0\0\0\x03\0\0\0\0\0\0\0\x04\0\0\0\0\0\0\0";

// The edge is 1 in place of 2.
const OTHER_EDGE: &[u8] =
    b"TCARRAY1\x01\0\0\0\0\0\0\0\x02\0\0\0\0\0\0\0\x01\0\0\0\0\0\0\0\x03\0\0\0\0\0\0\0\x04\0\0\0\0\0\0\0";

fn put(rt: &impl Abort, disk: &mut MemDisk, name: &str, bytes: &[u8]) {
    if !bytes.is_empty() {
        assert!(rt; disk.put_file(name, bytes).is_ok());
    }
}

// A disk with these files of A and of B, where an empty one is absent.
fn disk_of(rt: &impl Abort, alloc: Global, a: &[u8], b: &[u8]) -> MemDisk {
    let mut disk = MemDisk::new(alloc);
    put(rt, &mut disk, "A.tca", a);
    put(rt, &mut disk, "B.tca", b);
    disk
}

// Over a disk with these files the operand of this tensor is refused.
fn expect_refused(
    rt: &impl Abort,
    alloc: Global,
    a: &[u8],
    b: &[u8],
    tensor: u8,
    fault: ArrayFault,
) {
    let spec = spec_of(rt, alloc, TEXT);
    let mut disk = disk_of(rt, alloc, a, b);
    match open_operands(&spec, &mut disk) {
        Ok(_) => panic!(rt; "an operand is missing or damaged"),
        Err(refused) => assert!(rt; refused.tensor == tensor && refused.fault == fault),
    }
    drop(spec);
}

#[test]
fn the_first_operand_that_is_absent_decides(rt: HostRuntime) {
    let alloc = rt.alloc();
    expect_refused(&rt, alloc, b"", b"", 2, ArrayFault::NoFile);
    expect_refused(&rt, alloc, b"", EIGHT, 2, ArrayFault::NoFile);
    expect_refused(&rt, alloc, NARROW, b"", 0, ArrayFault::NoFile);
}

#[test]
fn the_first_operand_that_is_damaged_decides(rt: HostRuntime) {
    let alloc = rt.alloc();
    expect_refused(&rt, alloc, OTHER_EDGE, b"", 2, ArrayFault::BadHeader(24));
    expect_refused(&rt, alloc, EIGHT, OTHER_EDGE, 0, ArrayFault::BadHeader(24));
    let short = ArrayFault::BadLength(8);
    expect_refused(&rt, alloc, EIGHT, b"TCARRAY1", 0, short);
}

// The array with this file has this form, these words in a tile, and is written or not.
fn expect_array(
    rt: &impl Abort,
    array: &ArrayRef,
    file: &str,
    form: Form,
    words: usize,
    writable: bool,
) {
    assert!(rt; array.file.as_str() == file);
    assert!(rt; array.form == form && array.writable == writable, "{file}");
    assert!(rt; array.shape.tile_words() == words as u64, "{file}");
}

fn expect_arrays(rt: &impl Abort, arrays: &[ArrayRef]) {
    assert!(rt; arrays.len() == 4);
    expect_array(rt, &arrays[0], "B.tca", Form::One, 2, false);
    expect_array(rt, &arrays[1], "X.tca", Form::One, 4, false);
    expect_array(rt, &arrays[2], "A.tca", Form::Narrow, 2, false);
    expect_array(rt, &arrays[3], "C.tca", Form::One, 4, true);
}

#[test]
fn arrays_are_those_of_the_tensors(rt: HostRuntime) {
    let spec = spec_of(&rt, rt.alloc(), TEXT);
    let mut disk = disk_of(&rt, rt.alloc(), NARROW, EIGHT);
    let Ok(forms) = open_operands(&spec, &mut disk) else {
        panic!(rt; "both operands are arrays");
    };
    match arrays_of(rt.alloc(), &spec, &forms) {
        Ok(arrays) => expect_arrays(&rt, arrays.as_slice()),
        Err(_) => panic!(rt; "no memory"),
    }
    drop(spec);
}
