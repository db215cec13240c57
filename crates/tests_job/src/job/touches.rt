//! How often runs touch tiles.
use crate::job::fusions::touches_unfused;
use crate::job::given::{check, must, spec_of};
use std::alloc::Global;
use std::process::Abort;
use tce_outside::MemDisk;

// A product element by element, in three tiles of each tensor.
const PADDED: &[u8] =
    b"range N 5 tile 2\nindex N i\ntensor A[N]\ntensor B[N]\ntensor C[N]\nC[i] = A[i] * B[i]\n";

// The array of 1 to 5.
const OPERAND: &[u8] =
    b"TCARRAY1\x01\0\0\0\0\0\0\0\x05\0\0\0\0\0\0\0\x02\0\0\0\0\0\0\0\x01\0\0\0\0\0\0\0\x02\0\0\0\0\0\0\0\x03\0\0\0\0\0\0\0\x04\0\0\0\0\0\0\0\x05\0\0\0\0\0\0\0\0\0\0\0\0\0\0\0";

fn disk_with_operands(rt: &impl Abort, alloc: Global) -> MemDisk {
    let mut disk = MemDisk::new(alloc);
    must(rt, disk.put_file("A.tca", OPERAND));
    must(rt, disk.put_file("B.tca", OPERAND));
    disk
}

// Three blocks, each of which touches one tile of each operand and of the result. One assignment at a time, there would be
// fifteen touches.
#[test]
fn each_block_touches_its_tiles_once(rt: HostRuntime) {
    let spec = must(&rt, spec_of(rt.alloc(), PADDED));
    let mut disk = disk_with_operands(&rt, rt.alloc());
    let touches = must(&rt, touches_unfused(rt.alloc(), &spec, 6, &mut disk));
    check(&rt, touches.is_some(), "no run");
    check(&rt, touches.unwrap_or(0) <= 9, "more touches");
}
