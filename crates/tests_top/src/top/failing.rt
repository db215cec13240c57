//! Disks that fail at one call, each in turn, sinks that fail, and rooms that refuse.
//!
//! The lines are those of `given`. Behind their six parts stands what is there where a command is cut off: with no
//! taking, with one, and so on.

use super::given::{
    LINE, check, check_code, check_files, check_line, check_report, check_takings, filled, must,
    part, perform, put_files, taking_text,
};
use std::alloc::Global;
use std::process::Abort;
use tce_outside::{FaultyDisk, FaultySink, MemDisk, MemSink};
use tce_words::{HeapRoom, RefusingRoom};

/// Lines that are given whole, and what they leave.
pub const WITH_ENDS: &str = "%|%|%|%|%|%|%|%|%|%";

// A disk with the files of a line.
fn disk_before(rt: &impl Abort, alloc: Global, line: &str) -> MemDisk {
    let mut disk = MemDisk::new(alloc);
    put_files(rt, alloc, &mut disk, part(line, 1));
    disk
}

// The number of the one call that fails.
fn failing(rt: &impl Abort, alloc: Global, call: u64) -> Vec<u64> {
    must(rt, vec![in alloc; call])
}

// A command that is done met no fault, and one that is cut off tells of the one that it met.
fn check_ending(rt: &impl Abort, line: &str, code: u8, out: &MemSink, faults: u64) {
    let is_as_due = match code {
        0 => faults == 0,
        8 => faults == 1 && out.bytes() == b"error 8: disk fault\n".as_slice(),
        _ => false,
    };
    check(rt, is_as_due, line);
}

// A command that is cut off has taken nothing else, and leaves what its line says.
fn check_cut_off(
    rt: &impl Abort,
    alloc: Global,
    line: &str,
    disk: &MemDisk,
    takings: &[(u64, u64)],
) {
    for (number, taking) in takings.iter().enumerate() {
        let wanted = part(line, 4).split(',').nth(number).unwrap_or("");
        let text = taking_text(rt, alloc, "", *taking);
        check(rt, text.as_str() == wanted, line);
    }
    check_files(rt, alloc, disk, part(line, 1));
    check_files(rt, alloc, disk, part(line, takings.len().saturating_add(6)));
}

// Whether the command is done where this call of the disk fails.
fn is_done(rt: &impl Abort, alloc: Global, line: &str, call: u64) -> bool {
    let mut disk = FaultyDisk::new(disk_before(rt, alloc, line), failing(rt, alloc, call));
    let mut out = MemSink::new(alloc);
    let mut room = HeapRoom::new(alloc);
    let code = perform(rt, alloc, part(line, 0), &mut disk, &mut out, &mut room);
    check_ending(rt, line, code, &out, disk.faults());
    if code != 0 {
        check_cut_off(rt, alloc, line, disk.inner(), room.takings());
    }
    drop(disk);
    code == 0
}

// The command of a line is cut off at each of its calls, and then done.
fn check_calls(rt: &impl Abort, alloc: Global, line: &str) {
    let mut disk = MemDisk::new(alloc);
    let _report = check_line(rt, alloc, &mut disk, line);
    check_silent(rt, alloc, line);
    for call in 0..100_000 {
        if is_done(rt, alloc, line, call) {
            check(rt, call > 1, line);
            return;
        }
    }
    panic!(rt; "so many calls are not made");
}

/// The lines of the form for each row, where each call of the disk fails in turn, and where the sink fails.
pub fn check_each_call(rt: &impl Abort, alloc: Global, form: &str, rows: &str) {
    for row in rows.split('\n') {
        check_calls(rt, alloc, &filled(rt, alloc, form, row));
    }
}

// A sink that fails leaves all that the command writes, and keeps its refusal.
fn check_silent(rt: &impl Abort, alloc: Global, line: &str) {
    let mut disk = disk_before(rt, alloc, line);
    let mut out = FaultySink::new(MemSink::new(alloc), failing(rt, alloc, 0));
    let mut room = HeapRoom::new(alloc);
    let code = perform(rt, alloc, part(line, 0), &mut disk, &mut out, &mut room);
    check_code(rt, line, if code == 9 { 0 } else { code });
    check(rt, code != 0 && out.faults() == 1, line);
    check(rt, out.inner().bytes().is_empty(), line);
    check_files(rt, alloc, &disk, part(line, 1));
    check_files(rt, alloc, &disk, part(line, 5));
}

const RUNS: &str = "\
run s.tce 3|s.tce:range N 2/index N i j/tensor A[N]/tensor B[N]/tensor C[N,N]/C[i,j] = A[i] * B[j]/;A 1 2 1 1 2;B 1 2 1 3 4|0|tce run 1/node 0 product loops i,j result/memory 0/tiles 3/wrote C.tca 80/|0 3|C 2 2 2 1 1 3 4 6 8|?C|?C
run s.tce 12|s.tce:range N 4 tile 2/index N i j k/tensor A[N,N]/tensor B[N,N]/tensor C[N,N]/C[i,j] = sum{k}(A[i,k] * B[k,j])/;A 2 4 4 2 2 1 2 5 6 3 4 7 8 9 10 13 14 11 12 15 16;B 2 4 4 2 2 1 0 0 1 0*8 1 0 0 1|0|tce run 1/node 0 product loops i,j,k fused i,j,k size 1/node 1 sum loops i,j,k result/memory 1/tiles 12/wrote C.tca 176/|1 12|C 2 4 4 2 2 1 2 5 6 3 4 7 8 9 10 13 14 11 12 15 16|?C|?C";

#[test]
fn each_call_of_a_run_may_fail(rt: HostRuntime) {
    check_each_call(&rt, rt.alloc(), WITH_ENDS, RUNS);
}

const MOVES: &str = "\
pack s.tce A a.flat|=a.flat 1 2 3 4 5|tce pack 1/wrote A.tca 80/|A 1 5 2 1 2 3 4 5 0|?A
unpack s.tce A b.flat|A 1 5 2 1 2 3 4 5 0|tce unpack 1/wrote b.flat 40/|=b.flat 1 2 3 4 5|?=b.flat
convert s.tce A 4|A 1 5 2 1 2 3 4 5 0|tce convert 1/wrote A.v2.tca 64/|+A.v2 1 4 5 2 ~1 ~2 ~3 ~4 ~5 ~0|?A.v2";

const MOVE: &str =
    "%|s.tce:range N 5 tile 2/index N i/tensor A[N]/tensor C[N]/C[i] = A[i] * A[i]/;other.tce:another file;%|0|%||%|%";

#[test]
fn each_call_of_a_move_may_fail(rt: HostRuntime) {
    check_each_call(&rt, rt.alloc(), MOVE, MOVES);
}

const PLAIN: &str = "\
plan s.tce|s.tce:range I 5/range J 7/range K 2/index I i/index J j/index K k l/tensor A[I,K]/tensor B[J,K]/tensor C[I,J]/C[i,j] = (sum{k}(A[i,k])) * (sum{l}(B[j,l]))/|0|tce plan 1/node 0 sum loops i,k fused - size 5/node 1 sum loops j,l fused j size 1/node 2 product loops j,i result/memory 6/||
cert s.tce s.cert|s.tce:range I 5/range J 7/range K 2/index I i/index J j/index K k l/tensor A[I,K]/tensor B[J,K]/tensor C[I,J]/C[i,j] = (sum{k}(A[i,k])) * (sum{l}(B[j,l]))/|0|tce cert 1/memory 6/wrote s.cert 187/||*s.cert:tce certificate 1/node 0 sum loops i,k fused - size 5/node 1 sum loops j,l fused j size 1/node 2 product loops j,i result/memory 6/table 0 2/
check s.tce e.cert|s.tce:range I 5/range J 7/range K 2/index I i/index J j/index K k l/tensor A[I,K]/tensor B[J,K]/tensor C[I,J]/C[i,j] = (sum{k}(A[i,k])) * (sum{l}(B[j,l]))/;e.cert:tce certificate 1/node 0 sum loops i,k fused - size 5/node 1 sum loops j,l fused j size 1/node 2 product loops j,i result/memory 6/table 0 2/row 5 -/row 1 i/table 1 2/row 7 -/row 1 j/end/|0|tce check 1/accepted memory 6/||
einsum ik,kj->ij@i=2,k=2,j=2 0,1 mm.tce|!mm.tce:what stood there before/|0|tce einsum 1/nodes 2/wrote mm.tce 111/||mm.tce:range N0 2/index N0 i k j/tensor X0[N0,N0]/tensor X1[N0,N0]/tensor Y[N0,N0]/Y[i,j] = sum{k}(X0[i,k] * X1[k,j])/";

#[test]
fn each_call_of_a_command_without_arrays_may_fail(rt: HostRuntime) {
    check_each_call(&rt, rt.alloc(), LINE, PLAIN);
}

const DEMONSTRATION: &str =
    "demo 1 1 1||0|tce demo 1/memory 5/tiles 5/sum 168/|5 5|demo.tce:range V 1/range O 1/index V a b c d e f/index O i j k l/tensor demoA[V,V,O,O]/tensor demoB[V,V,V,O]/tensor demoC[V,V,O,O]/tensor demoD[V,V,V,O]/tensor demoS[V,V,O,O]/demoS[a,b,i,j] = sum{c,k}(sum{d,f}(sum{e,l}(demoB[b,e,f,l] * demoD[c,d,e,l]) * demoC[d,f,j,k]) * demoA[a,c,i,k])/;demoA 4 1*8 1;demoB 4 1*8 4;demoC 4 1*8 6;demoD 4 1*8 7;demoS 4 1*8 168|?demoS";

#[test]
fn each_call_of_a_demonstration_may_fail(rt: HostRuntime) {
    check_each_call(&rt, rt.alloc(), WITH_ENDS, DEMONSTRATION);
}

// The first result is an operand of the next formula; of three, it is an operand twice and is written twice.
const FORMULAS: &str = "\
batch s.tce 3|s.tce:range N 2/index N i j k/tensor A[N,N]/tensor B[N,N]/tensor C[N,N]/tensor D[N,N]/C[i,j] = sum{k}(A[i,k] * B[k,j])/D[i,j] = sum{k}(C[i,k] * A[k,j])/;A 2 2 2 1 1 1 2 3 4;B 2 2 2 1 1 5 6 7 8|0|tce batch 1/formula 1/node 0 product loops i,j,k fused i,j,k size 1/node 1 sum loops i,j,k result/memory 1/tiles 3/wrote C.tca 80/formula 2/node 0 product loops i,j,k fused i,j,k size 1/node 1 sum loops i,j,k result/memory 1/tiles 3/wrote D.tca 80/|1 3,1 3|C 2 2 2 1 1 19 22 43 50;D 2 2 2 1 1 85 126 193 286|?C;-D||C 2 2 2 1 1 19 22 43 50
batch s.tce 3|s.tce:range N 2/index N i j k/tensor A[N,N]/tensor B[N,N]/tensor C[N,N]/tensor D[N,N]/C[i,j] = sum{k}(A[i,k] * B[k,j])/D[i,j] = sum{k}(C[i,k] * C[k,j])/C[i,j] = D[i,j] + A[i,j]/;A 2 2 2 1 1 1 2 3 4;B 2 2 2 1 1 5 6 7 8|0|tce batch 1/formula 1/node 0 product loops i,j,k fused i,j,k size 1/node 1 sum loops i,j,k result/memory 1/tiles 3/wrote C.tca 80/formula 2/node 0 product loops i,j,k fused i,j,k size 1/node 1 sum loops i,j,k result/memory 1/tiles 3/wrote D.tca 80/formula 3/node 0 add loops i,j result/memory 0/tiles 3/wrote C.tca 80/|1 3,1 3,0 3|C 2 2 2 1 1 1308 1520 2970 3450;D 2 2 2 1 1 1307 1518 2967 3446|?C;-D||C 2 2 2 1 1 19 22 43 50|D 2 2 2 1 1 1307 1518 2967 3446";

#[test]
fn each_call_of_several_formulas_may_fail(rt: HostRuntime) {
    check_each_call(&rt, rt.alloc(), WITH_ENDS, FORMULAS);
}

const REFUSED: &str = "\
run t.tce 3|s.tce:range N 2/index N i j/tensor A[N]/tensor B[N]/tensor C[N,N]/C[i,j] = A[i] * B[j]/;A 1 2 1 1 2;B 1 2 1 3 4|3|||-C
run s.tce 2|s.tce:range N 2/index N i j/tensor A[N]/tensor B[N]/tensor C[N,N]/C[i,j] = A[i] * B[j]/;A 1 2 1 1 2;B 1 2 1 3 4|5|||-C
run|s.tce:range N 2/index N i j/tensor A[N]/tensor B[N]/tensor C[N,N]/C[i,j] = A[i] * B[j]/;A 1 2 1 1 2;B 1 2 1 3 4|1|||-C
check s.tce t.cert|s.tce:range N 2/index N i j/tensor A[N]/tensor B[N]/tensor C[N,N]/C[i,j] = A[i] * B[j]/;A 1 2 1 1 2;B 1 2 1 3 4|3|||-C
unpack s.tce Z z.flat|s.tce:range N 2/index N i j/tensor A[N]/tensor B[N]/tensor C[N,N]/C[i,j] = A[i] * B[j]/;A 1 2 1 1 2;B 1 2 1 3 4|12|||-C";

#[test]
fn a_failing_sink_keeps_each_refusal(rt: HostRuntime) {
    for line in REFUSED.split('\n') {
        check_silent(&rt, rt.alloc(), line);
    }
}

/// A room that refuses one call: the command is cut off there. Where that was the first, doing it again gives what
/// the line says.
pub fn check_want(rt: &impl Abort, alloc: Global, line: &str, call: u64) {
    let mut disk = disk_before(rt, alloc, line);
    let mut out = MemSink::new(alloc);
    let mut room = RefusingRoom::new(alloc, call);
    let code = perform(rt, alloc, part(line, 0), &mut disk, &mut out, &mut room);
    let wanted = b"error 10: want of memory\n";
    check(rt, code == 10, line);
    check(rt, out.bytes() == wanted.as_slice(), line);
    check(rt, room.takings().len() as u64 == call, line);
    check_cut_off(rt, alloc, line, &disk, room.takings());
    if call == 0 {
        check_again(rt, alloc, line, &mut disk, &mut room);
    }
    drop(room);
}

fn check_again(
    rt: &impl Abort,
    alloc: Global,
    line: &str,
    disk: &mut MemDisk,
    room: &mut RefusingRoom,
) {
    let mut out = MemSink::new(alloc);
    let code = perform(rt, alloc, part(line, 0), disk, &mut out, room);
    check_code(rt, line, code);
    check_report(rt, alloc, line, out.bytes());
    check_takings(rt, alloc, line, room.takings());
    check_files(rt, alloc, disk, part(line, 5));
}

const OUTER: &str =
    "run s.tce 3|s.tce:range N 2/index N i j/tensor A[N]/tensor B[N]/tensor C[N,N]/C[i,j] = A[i] * B[j]/;A 1 2 1 1 2;B 1 2 1 3 4|0|tce run 1/node 0 product loops i,j result/memory 0/tiles 3/wrote C.tca 80/|0 3|C 2 2 2 1 1 3 4 6 8|-C";

const TWO_FORMULAS: &str =
    "batch s.tce 3|s.tce:range N 2/index N i j k/tensor A[N,N]/tensor B[N,N]/tensor C[N,N]/tensor D[N,N]/C[i,j] = sum{k}(A[i,k] * B[k,j])/D[i,j] = sum{k}(C[i,k] * A[k,j])/;A 2 2 2 1 1 1 2 3 4;B 2 2 2 1 1 5 6 7 8|0|tce batch 1/formula 1/node 0 product loops i,j,k fused i,j,k size 1/node 1 sum loops i,j,k result/memory 1/tiles 3/wrote C.tca 80/formula 2/node 0 product loops i,j,k fused i,j,k size 1/node 1 sum loops i,j,k result/memory 1/tiles 3/wrote D.tca 80/|1 3,1 3|C 2 2 2 1 1 19 22 43 50;D 2 2 2 1 1 85 126 193 286|-C;-D|C 2 2 2 1 1 19 22 43 50;-D";

const AMONG_OTHERS: &str =
    "demo 1 1 1|other.tce:range|0|tce demo 1/memory 5/tiles 5/sum 168/|5 5|demo.tce:range V 1/range O 1/index V a b c d e f/index O i j k l/tensor demoA[V,V,O,O]/tensor demoB[V,V,V,O]/tensor demoC[V,V,O,O]/tensor demoD[V,V,V,O]/tensor demoS[V,V,O,O]/demoS[a,b,i,j] = sum{c,k}(sum{d,f}(sum{e,l}(demoB[b,e,f,l] * demoD[c,d,e,l]) * demoC[d,f,j,k]) * demoA[a,c,i,k])/;demoA 4 1*8 1;demoB 4 1*8 4;demoC 4 1*8 6;demoD 4 1*8 7;demoS 4 1*8 168|-demoS";

#[test]
fn a_refusing_room_leaves_no_result(rt: HostRuntime) {
    check_want(&rt, rt.alloc(), OUTER, 0);
}

#[test]
fn without_memory_no_formula_is_run(rt: HostRuntime) {
    check_want(&rt, rt.alloc(), TWO_FORMULAS, 0);
    check_want(&rt, rt.alloc(), TWO_FORMULAS, 1);
}

#[test]
fn a_demonstration_may_want_memory(rt: HostRuntime) {
    check_want(&rt, rt.alloc(), AMONG_OTHERS, 0);
}
