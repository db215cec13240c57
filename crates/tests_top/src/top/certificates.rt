//! Certificates, of any writer.

use super::given::{LINE, check_rows, must};
use std::alloc::{AllocError, Global};
use std::process::Abort;

// The check of a certificate of the two sums, written by hand.
const CHECK: &str =
    "check s.tce e.cert|e.cert:tce certificate 1/node 0 sum loops i,k fused - size 5/node 1 sum loops j,l fused j size 1/node 2 product loops j,i result/memory 6/table 0 2/row 5 -/row 1 i/table 1 2/row 7 -/row 1 j/end/;s.tce:range I 5/range J 7/range K 2/index I i/index J j/index K k l/tensor A[I,K]/tensor B[J,K]/tensor C[I,J]/C[i,j] = (sum{k}(A[i,k])) * (sum{l}(B[j,l]))/|%|%/||";

// Both sides of the first bar.
fn halves<'a>(rt: &impl Abort, row: &'a str) -> (&'a str, &'a str) {
    let Some(halves) = row.split_once('|') else {
        panic!(rt; "{row} has no bar");
    };
    halves
}

// The text with its one part in place of another.
fn changed(rt: &impl Abort, alloc: Global, text: &str, old: &str, new: &str) -> String {
    let Some((before, after)) = text.split_once(old) else {
        panic!(rt; "{old} does not stand there");
    };
    must(rt, format!(in alloc; "{before}{new}{after}"))
}

fn check_changed(rt: &impl Abort, alloc: Global, row: &str) {
    let (old, rest) = halves(rt, row);
    let (new, rest) = halves(rt, rest);
    let form = changed(rt, alloc, CHECK, old, new);
    check_rows(rt, alloc, form.as_str(), rest);
}

fn check_all_changed(rt: &impl Abort, alloc: Global, rows: &str) {
    for row in rows.split('\n') {
        check_changed(rt, alloc, row);
    }
}

// A row is a part of the certificate, what stands in its place, the exit status, and the line or the report.
const BROKEN_RULES: &str = "\
size 5|size 5|0|tce check 1/accepted memory 6
memory 6|memory 5|7|error 7: memory 6
table 0 2/row 5 -/|table 0 1/|7|error 7: node 0: fused - classes - cost 5 not covered
row 5 -|row 4 -|7|error 7: below total 5
size 5|size 4|7|error 7: node 0: size 5
loops j,i|loops i,j|7|error 7: node 1: loop order
row 1 j|row 0 j|7|error 7: below total 5
table 0 2/row 5 -/row 1 i/|table 0 3/row 5 -/row 1 i/row 0 -/|7|error 7: below total 1
table 0 2/row 5 -/row 1 i/|table 0 1/row 5 -/|7|error 7: node 0: fused i classes i cost 1 not covered";

#[test]
fn plans_that_break_a_rule_are_refused(rt: HostRuntime) {
    check_all_changed(&rt, rt.alloc(), BROKEN_RULES);
}

const BOTH_FUSED: &str =
    "fused - size 5/node 1 sum loops j,l fused j size 1/node 2 product loops j,i result/memory 6/|fused i size 1/node 1 sum loops j,l fused j size 1/node 2 product loops j,i result/memory 2/|7|error 7: node 2: fusion not legal";

#[test]
fn both_sums_fused_are_refused(rt: HostRuntime) {
    check_changed(&rt, rt.alloc(), BOTH_FUSED);
}

// A row twice, rows that are never needed, and another order of loops that are not fused.
const ACCEPTED: &str = "\
table 1 2/row 7 -/row 1 j/|table 1 3/row 7 -/row 1 j/row 1 j/|0|tce check 1/accepted memory 6
table 0 2/row 5 -/row 1 i/|table 0 4/row 9 i/row 5 -/row 1 i/row 6 -/|0|tce check 1/accepted memory 6
loops i,k|loops k,i|0|tce check 1/accepted memory 6";

#[test]
fn plans_that_keep_the_rules_are_accepted(rt: HostRuntime) {
    check_all_changed(&rt, rt.alloc(), ACCEPTED);
}

// The first table in more than 2^24 bytes, with rows behind those that are needed.
fn long_table(alloc: Global) -> Result<String, AllocError> {
    let mut text = String::new(alloc);
    text.push_str("table 0 520002/row 5 -/row 1 i/")?;
    for _ in 0..520_000u32 {
        text.push_str("row 10000000000000000000000000 i/")?;
    }
    Ok(text)
}

#[test]
fn a_long_certificate_is_accepted(rt: HostRuntime) {
    let table = must(&rt, long_table(rt.alloc()));
    let old = "table 0 2/row 5 -/row 1 i/";
    let form = changed(&rt, rt.alloc(), CHECK, old, &table);
    check_rows(&rt, rt.alloc(), &form, "0|tce check 1/accepted memory 6");
}

const NO_CERTIFICATES: &str = "\
table 0 2|table 0 79228162514264337593543950335|7|error 7: line 9: does not fit the tree
memory 6|memory 79228162514264337593543950336|7|error 7: line 5: bad text
end/||7|error 7: line 12: bad text
end/|end|7|error 7: line 12: bad text
end/|end/end/|7|error 7: line 13: does not fit the tree
tce certificate 1/||7|error 7: line 1: does not fit the tree
tce certificate 1/node 0 sum loops i,k fused - size 5/node 1 sum loops j,l fused j size 1/node 2 product loops j,i result/memory 6/table 0 2/row 5 -/row 1 i/table 1 2/row 7 -/row 1 j/end/||7|error 7: line 1: bad text
memory 6/table 0 2/row 5 -/|memory 5/table 0 2/row 05 -/|7|error 7: line 7: bad text";

#[test]
fn texts_that_are_no_certificates_are_refused(rt: HostRuntime) {
    check_all_changed(&rt, rt.alloc(), NO_CERTIFICATES);
}

// One row stands for all states of the first product: all its indexes in one class, at the least cost.
const PRUNED: &str =
    "cert s.tce s.cert|s.tce:range V 3000/range O 100/index V a b c d e f/index O i j k l/tensor A[V,V,O,O]/tensor B[V,V,V,O]/tensor C[V,V,O,O]/tensor D[V,V,V,O]/tensor S[V,V,O,O]/S[a,b,i,j] = sum{c,k}(sum{d,f}(sum{e,l}(B[b,e,f,l] * D[c,d,e,l]) * C[d,f,j,k]) * A[a,c,i,k])/|0|tce cert 1/memory 10004/wrote s.cert ..||*s.cert:memory 10004/table 0 1/row 1 b,c,d,e,f,l/table 1 ";

#[test]
fn a_table_that_was_written_is_pruned(rt: HostRuntime) {
    check_rows(&rt, rt.alloc(), LINE, PRUNED);
}

const WRITTEN: &str =
    "cert s.tce s.cert|s.tce:range V 3000/range O 100/index V a b c d e f/index O i j k l/tensor A[V,V,O,O]/tensor B[V,V,V,O]/tensor C[V,V,O,O]/tensor D[V,V,V,O]/tensor S[V,V,O,O]/S[a,b,i,j] = sum{c,k}(sum{d,f}(sum{e,l}(B[b,e,f,l] * D[c,d,e,l]) * C[d,f,j,k]) * A[a,c,i,k])/|0|tce cert 1/memory 10004/wrote s.cert ..||*s.cert:memory 10004/table 0 1/row 1 b,c,d,e,f,l/table 1 \ncheck s.tce s.cert||0|tce check 1/accepted memory 10004/||\ncheck s.tce s.cert|!s.tce:range I 5/range J 7/range K 2/index I i/index J j/index K k l/tensor A[I,K]/tensor B[J,K]/tensor C[I,J]/C[i,j] = (sum{k}(A[i,k])) * (sum{l}(B[j,l]))/|7|error 7: line 2: does not fit the tree/||\ncheck s.tce t.cert||3|error 3: no file t.cert/||\ncheck t.tce t.cert||3|error 3: no file t.tce/||";

#[test]
fn a_certificate_that_was_written_is_accepted(rt: HostRuntime) {
    check_rows(&rt, rt.alloc(), WRITTEN, "");
}

// Its rows may come in any order.
const BEGINNING: &str =
    "cert s.tce s.cert|s.tce:range I 5/range J 7/range K 2/index I i/index J j/index K k l/tensor A[I,K]/tensor B[J,K]/tensor C[I,J]/C[i,j] = (sum{k}(A[i,k])) * (sum{l}(B[j,l]))/|0|tce cert 1/memory 6/wrote s.cert 187/||*s.cert:tce certificate 1/node 0 sum loops i,k fused - size 5/node 1 sum loops j,l fused j size 1/node 2 product loops j,i result/memory 6/table 0 2/";

#[test]
fn a_certificate_is_written(rt: HostRuntime) {
    check_rows(&rt, rt.alloc(), LINE, BEGINNING);
}

// A row is a specification and the least memory.
const SPECIFICATIONS: &str = "\
range I 5/range J 7/range K 2/index I i/index J j/index K k l/tensor A[I,K]/tensor B[J,K]/tensor C[I,J]/C[i,j] = (sum{k}(A[i,k])) * (sum{l}(B[j,l]))/|6
range V 3000/range O 100/index V a b c d e f/index O i j k l/tensor A[V,V,O,O]/tensor B[V,V,V,O]/tensor C[V,V,O,O]/tensor D[V,V,V,O]/tensor S[V,V,O,O]/S[a,b,i,j] = sum{c,k}(sum{d,f}(sum{e,l}(B[b,e,f,l] * D[c,d,e,l]) * C[d,f,j,k]) * A[a,c,i,k])/|10004
range N 2/index N i j/tensor A[N,N]/tensor B[N,N]/tensor C[N]/C[j] = sum{i}(A[i,j]) * sum{i}(B[i,j])/|2
range N 2/index N i/tensor A[N]/tensor B[N]/tensor C[N]/C[i] = 2 * A[i] - B[i] + 1/|2
tensor C[]/C[] = 2 + 3/|0";

const WRITTEN_AND_CHECKED: &str =
    "cert s.tce s.cert|s.tce:%|0|..||\ncheck s.tce s.cert||0|tce check 1/accepted memory %/||";

#[test]
fn written_certificates_are_accepted(rt: HostRuntime) {
    check_rows(&rt, rt.alloc(), WRITTEN_AND_CHECKED, SPECIFICATIONS);
}

const ABSENT: &str = "\
check s.tce e.cert||3|error 3: no file s.tce/||
check s.tce e.cert|e.cert:tce certificate 1/|3|error 3: no file s.tce/||
check s.tce e.cert|s.tce:;e.cert:tce certificate 1/|2|error 2: line 1: bad text/||
check s.tce e.cert|s.tce:range I 5/range J 7/range K 2/index I i/index J j/index K k l/tensor A[I,K]/tensor B[J,K]/tensor C[I,J]/C[i,j] = (sum{k}(A[i,k])) * (sum{l}(B[j,l]))/|3|error 3: no file e.cert/||";

#[test]
fn files_that_are_not_there_are_named(rt: HostRuntime) {
    check_rows(&rt, rt.alloc(), LINE, ABSENT);
}
