//! Demonstrations.

use super::given::{
    LINE, check, check_code, check_line, check_report, check_rows, filled, part, perform, put_files,
};
use super::losing::LosingDisk;
use std::alloc::Global;
use std::process::Abort;
use tce_outside::{MemDisk, MemSink};
use tce_words::HeapRoom;

const SMALLEST: &str =
    "demo 1 1 1|other.tce:another specification|0|tce demo 1/memory 5/tiles 5/sum 168/|5 5|demo.tce:range V 1/range O 1/index V a b c d e f/index O i j k l/tensor demoA[V,V,O,O]/tensor demoB[V,V,V,O]/tensor demoC[V,V,O,O]/tensor demoD[V,V,V,O]/tensor demoS[V,V,O,O]/demoS[a,b,i,j] = sum{c,k}(sum{d,f}(sum{e,l}(demoB[b,e,f,l] * demoD[c,d,e,l]) * demoC[d,f,j,k]) * demoA[a,c,i,k])/;demoA 4 1*8 1;demoB 4 1*8 4;demoC 4 1*8 6;demoD 4 1*8 7;demoS 4 1*8 168";

#[test]
fn the_smallest_demonstration_is_the_product_of_four_numbers(rt: HostRuntime) {
    check_rows(&rt, rt.alloc(), LINE, SMALLEST);
}

// What a line says is put a second time as it was put at first.
fn check_twice(rt: &impl Abort, alloc: Global, line: &str) {
    let mut disk = MemDisk::new(alloc);
    let first = check_line(rt, alloc, &mut disk, line);
    let second = check_line(rt, alloc, &mut disk, line);
    check(rt, first.bytes() == second.bytes(), line);
}

// All on one disk, over one another. The square of the lesser extent is kept whole, and four elements more. Edges of
// tiles are at most 4, and each tile has a frame as large as the largest, as far as the budget goes.
const SUMS: &str = "\
demo 1 5 1|other.tce:another specification|0|tce demo 1/memory 5/tiles 1792/sum 6955242/|5 1792|
demo 7 2 3||0|tce demo 1/memory 8/tiles 180/sum 2330062/|8 180|
demo 2147483646 3 5||0|tce demo 1/memory 13/tiles 2304/sum 204588136/|13 2304|
demo 1 16 8||0|tce demo 1/memory 68/tiles 16384/sum 28707270205499/|68 16384|
demo 1 16 8||0|tce demo 1/memory 68/tiles 16384/sum 28707270205499/|68 16384|
demo 1 1 1||0|tce demo 1/memory 5/tiles 5/sum 168/|5 5|other.tce:another specification";

#[test]
fn demonstrations_have_their_sums(rt: HostRuntime) {
    check_rows(&rt, rt.alloc(), SUMS, "");
}

// The fused loops have 50 million steps, the plain sum 2^40. It is to end within a minute.
#[test]
fn the_fused_loops_of_a_demonstration_end(rt: HostRuntime) {
    let line = "demo 1 16 16||0|tce demo 1/memory 260/tiles 16384/sum ..|260 16384|";
    check_twice(&rt, rt.alloc(), line);
}

// How a command ends where an operand has this length, or is lost, whenever it is looked for.
fn check_lost(rt: &impl Abort, alloc: Global, len: Option<u64>, row: &str) {
    let line = filled(rt, alloc, LOST, row);
    let mut files = MemDisk::new(alloc);
    put_files(rt, alloc, &mut files, part(&line, 1));
    let mut disk = LosingDisk::new(files, "demoB.tca", len);
    let mut out = MemSink::new(alloc);
    let mut room = HeapRoom::new(alloc);
    let code = perform(rt, alloc, part(&line, 0), &mut disk, &mut out, &mut room);
    check_code(rt, &line, code);
    check_report(rt, alloc, &line, out.bytes());
    check(rt, room.takings().is_empty(), &line);
}

const LOST: &str =
    "%|demo.tce:range V 1/range O 1/index V a b c d e f/index O i j k l/tensor demoA[V,V,O,O]/tensor demoB[V,V,V,O]/tensor demoC[V,V,O,O]/tensor demoD[V,V,V,O]/tensor demoS[V,V,O,O]/demoS[a,b,i,j] = sum{c,k}(sum{d,f}(sum{e,l}(demoB[b,e,f,l] * demoD[c,d,e,l]) * demoC[d,f,j,k]) * demoA[a,c,i,k])/;demoA 4 1*8 1;demoB 4 1*8 4;demoC 4 1*8 6;demoD 4 1*8 7;demoS 4 1*8 168|%|%/||";

#[test]
fn a_demonstration_that_loses_a_file_ends_as_its_run(rt: HostRuntime) {
    let absent = "demo 1 1 1|3|error 3: no file demoB.tca";
    check_lost(&rt, rt.alloc(), None, absent);
    let absent = "run demo.tce 16384|3|error 3: no file demoB.tca";
    check_lost(&rt, rt.alloc(), None, absent);
    let short = "demo 1 1 1|4|error 4: demoB.tca: length 8";
    check_lost(&rt, rt.alloc(), Some(8), short);
    let short = "run demo.tce 16384|4|error 4: demoB.tca: length 8";
    check_lost(&rt, rt.alloc(), Some(8), short);
}
