//! Fifty drawn trees, cut for drawn limits of memory and run, against runs of the whole.
//!
//! `python3 bench/drawn_trees.py cuts 50` prints the rows: a formula, a limit, and the pieces of the report, which it finds by
//! trying all fusions of each piece and all sets of cuts.

ghost use Rattle.std.specs.Prelude.{◌≤◌, ◌^◌};

use super::given::push_number;
use std::alloc::{AllocError, Global};
use std::process::Abort;
use std::test::Fail;
use tce_job::{Bytes, run_job};
use tce_outside::MemDisk;
use tce_spec::read_spec;
use tce_spill::run_spill;
use tce_words::HeapRoom;

const DECLARED: &str =
    "range I 2\nrange J 3\nrange K 5\nrange L 7\nindex I i\nindex J j\nindex K k\nindex L l\ntensor A[I,K]\ntensor B[J,L]\ntensor D[K,L]\ntensor F[I,J]\ntensor G[J,K]\ntensor P[K]\ntensor Q[L]\ntensor R[I,J]\n";

const FIRST: &str =
    "R[i,j] = sum{k}((sum{k}(G[j,k])) - A[i,k]);0;piece 0 memory 0 tiles 18/piece 1 memory 0 tiles 43/piece 2 memory 0 tiles 36|R[i,j] = sum{k}(P[k] - ((G[j,k] * (A[i,k] * A[i,k])) - (sum{k}(F[i,j] * P[k]))));5;piece 3 memory 1 tiles 17/piece 6 memory 4 tiles 42|R[i,j] = sum{k}((F[i,j] * P[k]) * (P[k] + A[i,k]));1;piece 1 memory 0 tiles 25/piece 2 memory 1 tiles 51/piece 3 memory 0 tiles 36|R[i,j] = (sum{k,l}(B[j,l] + ((B[j,l] * Q[l]) * D[k,l]))) - F[i,j];3;piece 3 memory 3 tiles 66/piece 4 memory 0 tiles 15|R[i,j] = sum{k}(((F[i,j] + F[i,j]) - F[i,j]) + ((sum{l}(Q[l])) - (F[i,j] + P[k])));5;piece 5 memory 5 tiles 48/piece 6 memory 0 tiles 36|R[i,j] = sum{k,l}((G[j,k] - ((sum{k}(P[k])) * (F[i,j] * F[i,j]))) + (P[k] * ((F[i,j] + D[k,l]) + A[i,k])));4;piece 6 memory 2 tiles 266/piece 7 memory 4 tiles 446/piece 8 memory 0 tiles 216|R[i,j] = sum{k}((sum{k,l}(B[j,l] + (P[k] + D[k,l]))) - (sum{l}(B[j,l] * (P[k] - A[i,k]))));6;piece 5 memory 2 tiles 66/piece 7 memory 6 tiles 97|R[i,j] = sum{k}((sum{l}(B[j,l] - F[i,j])) * ((P[k] + F[i,j]) - P[k]));1;piece 1 memory 1 tiles 33/piece 3 memory 1 tiles 41/piece 5 memory 1 tiles 42|R[i,j] = sum{k}((sum{l}(B[j,l])) - (F[i,j] - G[j,k]));0;piece 0 memory 0 tiles 24/piece 1 memory 0 tiles 51/piece 2 memory 0 tiles 63/piece 3 memory 0 tiles 36|R[i,j] = F[i,j] * (sum{l}(F[i,j] * B[j,l]));2;piece 2 memory 2 tiles 33";

const SECOND: &str =
    "R[i,j] = sum{k}(A[i,k] * F[i,j]);1;piece 1 memory 1 tiles 22|R[i,j] = F[i,j] + (sum{k}(A[i,k] * G[j,k]));1;piece 1 memory 1 tiles 31/piece 2 memory 0 tiles 18|R[i,j] = sum{k}(F[i,j] + P[k]);1;piece 1 memory 1 tiles 17|R[i,j] = sum{k}(P[k] + ((sum{l}(B[j,l])) * (sum{k}(A[i,k]))));1;piece 1 memory 0 tiles 12/piece 2 memory 1 tiles 29/piece 4 memory 1 tiles 17|R[i,j] = (sum{k,l}((F[i,j] * G[j,k]) * Q[l])) * (sum{k,l}((D[k,l] * F[i,j]) + F[i,j]));2;piece 2 memory 2 tiles 34/piece 5 memory 2 tiles 47/piece 6 memory 0 tiles 18|R[i,j] = (F[i,j] - F[i,j]) * (sum{k}(P[k]));0;piece 0 memory 0 tiles 12/piece 1 memory 0 tiles 6/piece 2 memory 0 tiles 13|R[i,j] = (((sum{l}(Q[l])) + (sum{k}(P[k]))) + (sum{k,l}(B[j,l] + G[j,k]))) * (sum{k,l}((F[i,j] + F[i,j]) * (D[k,l] - D[k,l])));18;piece 9 memory 8 tiles 47/piece 10 memory 6 tiles 60|R[i,j] = sum{k,l}(D[k,l] - (D[k,l] * F[i,j]));2;piece 2 memory 2 tiles 47|R[i,j] = (sum{k}(F[i,j] - P[k])) * (sum{k,l}(D[k,l] * P[k]));1;piece 1 memory 1 tiles 17/piece 3 memory 1 tiles 41/piece 4 memory 0 tiles 13|R[i,j] = sum{l}((B[j,l] + (F[i,j] * Q[l])) + Q[l]);2;piece 2 memory 2 tiles 76/piece 3 memory 0 tiles 48";

const THIRD: &str =
    "R[i,j] = sum{k}((G[j,k] * F[i,j]) + (P[k] * P[k]));1;piece 1 memory 0 tiles 10/piece 2 memory 1 tiles 56/piece 3 memory 0 tiles 36|R[i,j] = sum{k,l}(((sum{k}(Q[l] * A[i,k])) + (A[i,k] - (B[j,l] * D[k,l]))) - D[k,l]);7;piece 6 memory 7 tiles 79|R[i,j] = (sum{k,l}(D[k,l] * (F[i,j] + A[i,k]))) - (sum{k,l}((D[k,l] + G[j,k]) * F[i,j]));6;piece 5 memory 2 tiles 62/piece 6 memory 3 tiles 63|R[i,j] = (sum{k}(G[j,k])) + F[i,j];0;piece 0 memory 0 tiles 18/piece 1 memory 0 tiles 15|R[i,j] = (sum{k}(G[j,k])) * F[i,j];1;piece 1 memory 1 tiles 27|R[i,j] = sum{k}(sum{l}(D[k,l] + (B[j,l] - F[i,j])));4;piece 2 memory 2 tiles 92/piece 3 memory 0 tiles 36|R[i,j] = sum{k}(A[i,k] * F[i,j]);0;piece 0 memory 0 tiles 46/piece 1 memory 0 tiles 36|R[i,j] = F[i,j] + (sum{l}(B[j,l] - B[j,l]));1;piece 1 memory 1 tiles 24/piece 2 memory 0 tiles 15|R[i,j] = sum{k}((A[i,k] + G[j,k]) * P[k]);0;piece 0 memory 0 tiles 55/piece 1 memory 0 tiles 65/piece 2 memory 0 tiles 36|R[i,j] = sum{k}(A[i,k] + G[j,k]);0;piece 0 memory 0 tiles 55/piece 1 memory 0 tiles 36";

const FOURTH: &str =
    "R[i,j] = sum{k,l}(((sum{l}(Q[l])) - (B[j,l] - D[k,l])) * A[i,k]);0;piece 0 memory 0 tiles 8/piece 1 memory 0 tiles 161/piece 2 memory 0 tiles 211/piece 3 memory 0 tiles 325/piece 4 memory 0 tiles 216|R[i,j] = sum{k}((sum{k}(G[j,k])) - A[i,k]);0;piece 0 memory 0 tiles 18/piece 1 memory 0 tiles 43/piece 2 memory 0 tiles 36|R[i,j] = sum{k,l}(A[i,k] + B[j,l]);1;piece 1 memory 1 tiles 37|R[i,j] = sum{k,l}((sum{k}((D[k,l] * G[j,k]) * A[i,k])) - (P[k] + (sum{k,l}(G[j,k] + D[k,l]))));0;piece 0 memory 0 tiles 155/piece 1 memory 0 tiles 325/piece 2 memory 0 tiles 252/piece 3 memory 0 tiles 155/piece 4 memory 0 tiles 108/piece 5 memory 0 tiles 23/piece 6 memory 0 tiles 267/piece 7 memory 0 tiles 216|R[i,j] = sum{k,l}((B[j,l] - ((sum{k}(G[j,k])) + (F[i,j] - B[j,l]))) + P[k]);0;piece 0 memory 0 tiles 18/piece 1 memory 0 tiles 69/piece 2 memory 0 tiles 87/piece 3 memory 0 tiles 105/piece 4 memory 0 tiles 257/piece 5 memory 0 tiles 216|R[i,j] = (sum{k,l}(A[i,k] * ((sum{l}(B[j,l])) + (Q[l] * D[k,l])))) * (sum{k,l}((D[k,l] - F[i,j]) - (sum{l}(Q[l]))));10;piece 4 memory 6 tiles 79/piece 9 memory 4 tiles 60|R[i,j] = sum{l}(sum{k}((sum{k,l}(D[k,l])) * (F[i,j] - D[k,l])));0;piece 0 memory 0 tiles 36/piece 1 memory 0 tiles 251/piece 2 memory 0 tiles 421/piece 3 memory 0 tiles 252/piece 4 memory 0 tiles 48|R[i,j] = (sum{k}(A[i,k] + (sum{k}(G[j,k])))) + F[i,j];0;piece 0 memory 0 tiles 18/piece 1 memory 0 tiles 43/piece 2 memory 0 tiles 36/piece 3 memory 0 tiles 18|R[i,j] = sum{k}((sum{l}(B[j,l])) - (G[j,k] - A[i,k]));0;piece 0 memory 0 tiles 24/piece 1 memory 0 tiles 55/piece 2 memory 0 tiles 63/piece 3 memory 0 tiles 36|R[i,j] = sum{k}(sum{l}((P[k] + (G[j,k] - F[i,j])) + ((B[j,l] - G[j,k]) * A[i,k])));1;piece 1 memory 1 tiles 56/piece 3 memory 1 tiles 256/piece 5 memory 1 tiles 270/piece 6 memory 0 tiles 36";

const FIFTH: &str =
    "R[i,j] = (sum{k,l}((sum{l}(Q[l])) - (G[j,k] - B[j,l]))) + (sum{k,l}(A[i,k] - (sum{k}(D[k,l]))));7;piece 6 memory 2 tiles 47/piece 7 memory 4 tiles 51|R[i,j] = sum{k}(A[i,k] + ((A[i,k] * (sum{l}(B[j,l]))) * F[i,j]));0;piece 0 memory 0 tiles 24/piece 1 memory 0 tiles 43/piece 2 memory 0 tiles 66/piece 3 memory 0 tiles 70/piece 4 memory 0 tiles 36|R[i,j] = (sum{k}(P[k] + F[i,j])) + (sum{k}(A[i,k] * F[i,j]));4;piece 4 memory 4 tiles 27|R[i,j] = sum{l}((B[j,l] + (sum{k}(A[i,k]))) * Q[l]);2;piece 2 memory 2 tiles 80/piece 3 memory 0 tiles 48|R[i,j] = sum{k}((F[i,j] - A[i,k]) + (sum{l}(B[j,l])));0;piece 0 memory 0 tiles 46/piece 1 memory 0 tiles 24/piece 2 memory 0 tiles 63/piece 3 memory 0 tiles 36|R[i,j] = sum{k,l}((sum{k}(F[i,j] * A[i,k])) - ((sum{k}(P[k])) * (B[j,l] * D[k,l])));0;piece 0 memory 0 tiles 46/piece 1 memory 0 tiles 36/piece 2 memory 0 tiles 6/piece 3 memory 0 tiles 161/piece 4 memory 0 tiles 211/piece 5 memory 0 tiles 321/piece 6 memory 0 tiles 216|R[i,j] = F[i,j] - ((F[i,j] * F[i,j]) * (sum{k}(P[k])));1;piece 1 memory 0 tiles 6/piece 2 memory 1 tiles 13/piece 3 memory 0 tiles 18|R[i,j] = sum{k}((sum{k}(G[j,k] - A[i,k])) * A[i,k]);3;piece 3 memory 3 tiles 31|R[i,j] = F[i,j] * (sum{l}(Q[l] * (Q[l] - (sum{k}(A[i,k])))));2;piece 2 memory 2 tiles 31/piece 4 memory 1 tiles 26|R[i,j] = (sum{k,l}(B[j,l] * (A[i,k] + D[k,l]))) * ((sum{k,l}(D[k,l] * G[j,k])) * F[i,j]);3;piece 2 memory 2 tiles 72/piece 6 memory 3 tiles 68";

fn part<'a>(text: &'a str, between: char, number: usize) -> &'a str {
    text.split(between).nth(number).unwrap_or("")
}

// The array file over tiles of one element of so many words, each of which is the one before it times a factor.
fn array_of(
    alloc: Global,
    extents: &[u64],
    count: u64,
    first: u64,
    factor: u64,
) -> Result<Vec<u8>, Fail> {
    let mut bytes = Vec::new(alloc);
    bytes.extend_from_slice(b"TCARRAY1")?;
    push_number(&mut bytes, extents.len() as u64)?;
    for extent in extents {
        push_number(&mut bytes, *extent)?;
    }
    for _ in extents {
        push_number(&mut bytes, 1)?;
    }
    let mut word = first;
    for _ in 0..count {
        push_number(&mut bytes, word)?;
        word = word.wrapping_mul(factor);
    }
    Ok(bytes)
}

fn put(
    alloc: Global,
    disk: &mut MemDisk,
    name: &str,
    extents: &[u64],
    count: u64,
) -> Result<(), Fail> {
    let bytes = array_of(
        alloc,
        extents,
        count,
        count.wrapping_mul(2) | 1,
        6364136223846793005,
    )?;
    disk.put_file(name, &bytes)?;
    Ok(())
}

fn operands(alloc: Global) -> Result<MemDisk, Fail> {
    let mut disk = MemDisk::new(alloc);
    put(alloc, &mut disk, "A.tca", &[2, 5], 10)?;
    put(alloc, &mut disk, "B.tca", &[3, 7], 21)?;
    put(alloc, &mut disk, "D.tca", &[5, 7], 35)?;
    put(alloc, &mut disk, "F.tca", &[2, 3], 6)?;
    put(alloc, &mut disk, "G.tca", &[3, 5], 15)?;
    put(alloc, &mut disk, "P.tca", &[5], 5)?;
    put(alloc, &mut disk, "Q.tca", &[7], 7)?;
    Ok(disk)
}

fn text_of(rt: &impl Abort, alloc: Global, formula: &str) -> String {
    match format!(in alloc; "{DECLARED}{formula}\n") {
        Ok(text) => text,
        Err(_) => panic!(rt; "no memory"),
    }
}

// The report of these pieces.
fn report_of(alloc: Global, pieces: &str) -> Result<String, AllocError> {
    let mut text = String::new(alloc);
    text.push_str("tce spill 1\n")?;
    for piece in pieces.split('/') {
        text.push_str(piece)?;
        text.push_str("\n")?;
    }
    text.push_str("wrote R.tca 96\n")?;
    Ok(text)
}

// Runs the pieces, each of which must be within the limit.
fn spilled(rt: &impl Abort, alloc: Global, text: &str, limit: u64, disk: &mut MemDisk) -> Bytes
    requires { limit ≤ 2 ^ 40 }
{
    let Ok(spec) = read_spec(alloc, text.as_bytes()) else {
        panic!(rt; "refused: {text}");
    };
    let mut room = HeapRoom::new(alloc);
    let Ok(made) = run_spill(alloc, &spec, 4096, limit, disk, &mut room) else {
        panic!(rt; "the pieces are not run");
    };
    for taking in room.takings() {
        assert!(rt; taking.0 <= limit);
    }
    drop(spec);
    made.text
}

fn run(rt: &impl Abort, alloc: Global, text: &str, disk: &mut MemDisk) {
    let Ok(spec) = read_spec(alloc, text.as_bytes()) else {
        panic!(rt; "refused: {text}");
    };
    let mut room = HeapRoom::new(alloc);
    assert!(rt; run_job(alloc, &spec, 4096, disk, &mut room).is_ok());
    drop(spec);
}

fn limit_of(rt: &impl Abort, word: &str) -> u64
    ensures { result ≤ 2 ^ 40 }
{
    match word.parse::<u64>() {
        Ok(limit) if limit <= 1 << 40 => limit,
        _ => panic!(rt; "no limit: {word}"),
    }
}

fn check_report(rt: &impl Abort, alloc: Global, told: &Bytes, pieces: &str) {
    match report_of(alloc, pieces) {
        Ok(due) => assert!(rt; told.as_slice() == due.as_str().as_bytes()),
        Err(_) => panic!(rt; "no memory"),
    }
}

// Compares the pieces of a row, and their result with that of the whole.
fn check_row(rt: &impl Abort, alloc: Global, row: &str, whole: &mut MemDisk, cut: &mut MemDisk) {
    let text = text_of(rt, alloc, part(row, ';', 0));
    let limit = limit_of(rt, part(row, ';', 1));
    let told = spilled(rt, alloc, text.as_str(), limit, cut);
    check_report(rt, alloc, &told, part(row, ';', 2));
    run(rt, alloc, text.as_str(), whole);
    assert!(rt; cut.file("R.tca") == whole.file("R.tca"));
}

fn check_rows(rt: &impl Abort, alloc: Global, rows: &str, whole: &mut MemDisk, cut: &mut MemDisk) {
    for row in rows.split('|') {
        check_row(rt, alloc, row, whole, cut);
    }
}

#[test]
fn drawn_trees_are_cut_and_run(rt: HostRuntime) -> Result<(), Fail> {
    let alloc = rt.alloc();
    let mut whole = operands(alloc)?;
    let mut cut = operands(alloc)?;
    check_rows(&rt, alloc, FIRST, &mut whole, &mut cut);
    check_rows(&rt, alloc, SECOND, &mut whole, &mut cut);
    check_rows(&rt, alloc, THIRD, &mut whole, &mut cut);
    check_rows(&rt, alloc, FOURTH, &mut whole, &mut cut);
    check_rows(&rt, alloc, FIFTH, &mut whole, &mut cut);
    Ok(())
}
