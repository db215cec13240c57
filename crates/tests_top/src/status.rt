//! Exit statuses of the program, over real files in a folder of their own.

use crate::top::given::{check, must, part, with_feeds};
use std::env::FillError;
use std::fs::{File, OpenOptions};
use std::process::Abort;
use std::rt::{Env, Files};
use std::{env, fs, process};
use tce_outside::{FaultySink, MemSink, Sink};
use tce_top::{answer, words_of};

// The file has these bytes, also for others.
fn check_file<R: Files<File = File> + AllocGlobal + Abort>(rt: &R, name: &str, bytes: &[u8]) {
    let found = must(rt, fs::read(rt, name));
    check(rt, found.as_slice() == bytes, name);
}

// The words of a command line.
#[derive(Drop)]
struct Line(&'static str);

impl Env for Line {
    fn arg(&self, i: usize, buf: &mut [u8]) -> Result<usize, FillError> {
        let Some(word) = self.0.split(' ').nth(i) else {
            return Err(FillError::NotPresent);
        };
        let bytes = word.as_bytes();
        if buf.len() < bytes.len() {
            return Err(FillError::TooLong);
        }
        buf[..bytes.len()].copy_from_slice(bytes);
        Ok(bytes.len())
    }

    fn var(&self, _name: &str, _buf: &mut [u8]) -> Result<usize, FillError> {
        Err(FillError::NotPresent)
    }

    fn var_at(&self, _i: usize, _buf: &mut [u8]) -> Result<usize, FillError> {
        Err(FillError::NotPresent)
    }
}

// The files of the folder, which differ from one row of answers to another only in what commands write. A slash is a line
// feed; the flat file is read as it is, and holds 2^32 and 0.
const FILES: &str = "\
bad.tce|bad/
bad.cert|bad/
bad.flat|bad/
A.tca|bad/
A.sym|bad/
w.flat|\0\0\0\0\x01\0\0\0\0\0\0\0\0\0\0\0
t.tce|range N 2/index N i/tensor A[N]/tensor B[N]/tensor C[N]/C[i] = A[i] * B[i]/
n.tce|range N 1/index N a b c d e f g h i/tensor A[N,N,N,N,N,N,N,N]/tensor B[N]/tensor C[N,N,N,N,N,N,N,N]/C[a,b,c,d,e,f,g,h] = sum{i}(A[a,b,c,d,e,f,g,h] * B[i])/
large.tce|range N 2097152/range K 1/index N a b c d/index K k/tensor A[N,N,K]/tensor B[N,N,K]/tensor S[N,N]/S[c,d] = sum{a,b}(sum{k}(A[a,b,k]) * sum{k}(B[c,d,k]))/";

// Each row is the words, the exit status, and what is printed, which ends with its line. Words behind the fourth count too.
const ANSWERS: &str = "\
tce demo 1 1 1|0|tce demo 1
memory 5
tiles 5
sum 168
;tce|1|error 1: bad words
;tce run demo.tce 16384 more|1|error 1: bad words
;tce spill n.tce 0 0 more|1|error 1: bad words
;tce pack t.tce A bad.flat more words|1|error 1: bad words
;tce unpack bad.tce demoS s.flat|2|error 2: line 1: bad text
;tce pack demo.tce demoA a.flat|3|error 3: no file a.flat
;tce run t.tce 3|4|error 4: A.tca: length 4
;tce run t.tce 2|5|error 5: budget needs 3
;tce run large.tce 3|6|error 6: intermediates 4398046511106
;tce check demo.tce bad.cert|7|error 7: line 1: bad text
;tce plan folder.tce|8|error 8: disk fault
;tce pack t.tce A bad.flat|11|error 11: flat length 4
;tce pack t.tce Z bad.flat|12|error 12: no tensor Z
;tce pack t.tce B w.flat|0|tce pack 1
wrote B.tca 48
;tce convert t.tce B 4|13|error 13: element 0 does not fit
;tce einsum a b c.tce|14|error 14: bad text
;tce spill n.tce 0 0|15|error 15: piece 1 needs 1
;tce expand t.tce A|16|error 16: A.sym: length 4
;tce unpack demo.tce demoS s.flat|0|tce unpack 1
wrote s.flat 8
";

// The answer to the words has this exit status.
fn check_status<R: Files<File = File> + AllocGlobal + Abort, K: Sink>(
    rt: &R,
    words: &'static str,
    out: &mut K,
    status: &str,
) {
    let alloc = rt.alloc();
    let words = must(rt, words_of(alloc, &Line(words)));
    let code = answer(alloc, &words, rt, out);
    let code = must(rt, format!(in alloc; "{code:?}"));
    let wanted = must(
        rt,
        format!(in alloc; "ExitCode(unix_exit_status({status}))"),
    );
    check(rt, code == wanted, status);
}

fn check_answer<R: Files<File = File> + AllocGlobal + Abort>(rt: &R, row: &'static str) {
    let mut out = MemSink::new(rt.alloc());
    check_status(rt, part(row, 0), &mut out, part(row, 1));
    check(rt, out.bytes() == part(row, 2).as_bytes(), row);
}

// A report that the sink does not take.
fn check_failing_sink<R: Files<File = File> + AllocGlobal + Abort>(rt: &R) {
    let first = must(rt, vec![in rt.alloc(); 0]);
    let mut out = FaultySink::new(MemSink::new(rt.alloc()), first);
    check_status(rt, "tce plan demo.tce", &mut out, "9");
}

// A new folder in this one, with this number at the end of its name.
fn made_folder<R: Files<File = File> + AllocGlobal + Abort>(
    rt: &R,
    above: &str,
    number: u32,
) -> String {
    let folder = must(rt, format!(in rt.alloc(); "{above}/tce-status-{number}"));
    must(rt, fs::create_dir(rt, folder.as_str()));
    folder
}

// Writes the files of a table.
fn write_files<R: Files<File = File> + AllocGlobal + Abort>(rt: &R, files: &str) {
    for row in files.split('\n') {
        let text = with_feeds(rt, rt.alloc(), part(row, 1));
        must(rt, fs::write(rt, part(row, 0), text.as_str()));
    }
}

// In a folder of its own, whose files are left by one command to the next.
#[test]
fn commands_end_with_their_status(rt: HostRuntime) {
    let above = must(&rt, env::temp_dir(&rt));
    let folder = made_folder(&rt, above.as_str(), process::id(rt.process()));
    must(&rt, env::set_current_dir(&rt, folder.as_str()));
    must(&rt, fs::create_dir(&rt, "folder.tce"));
    write_files(&rt, FILES);
    for row in ANSWERS.split(';') {
        check_answer(&rt, row);
    }
    check_failing_sink(&rt);
    check_file(&rt, "s.flat", b"\xa8\0\0\0\0\0\0\0");
    must(&rt, fs::remove_dir_all(&rt, folder.as_str()));
}

// A matrix of 2^8 tiles of 2^20 words, of which those on the diagonal are read, and a list of 2^21 tiles of one word, which
// are all read. The first element of each is 5, and all others are 0.
const LARGE: &str = "\
w.tce|range N 16384 tile 1024/index N i/tensor A[N,N]/tensor C[]/C[] = sum{i}(A[i,i])/
l.tce|range N 2097152/index N i/tensor B[N]/tensor C[]/C[] = sum{i}(B[i])/";

const WIDE_HEAD: &[u8] =
    b"TCARRAY1\x02\0\0\0\0\0\0\0\0\x40\0\0\0\0\0\0\0\x40\0\0\0\0\0\0\0\x04\0\0\0\0\0\0\0\x04\0\0\0\0\0\0\x05";

const LONG_HEAD: &[u8] = b"TCARRAY1\x01\0\0\0\0\0\0\0\0\0\x20\0\0\0\0\0\x01\0\0\0\0\0\0\0\x05";

const LARGE_RUNS: &str = "\
tce run w.tce 269484032|0|tce run 1
node 0 sum loops i result
memory 0
tiles 269484032
wrote C.tca 24
;tce run l.tce 3|0|tce run 1
node 0 sum loops i result
memory 0
tiles 3
wrote C.tca 24
";

// A file that begins with these bytes, and has zeros behind them.
fn write_sparse<R: Files<File = File> + AllocGlobal + Abort>(
    rt: &R,
    name: &str,
    head: &[u8],
    len: u64,
) {
    must(rt, fs::write(rt, name, head));
    let file = must(rt, OpenOptions::new().write(true).open(rt, name));
    must(rt, file.set_len(len));
}

// A run takes one tile more than 2^28 words, where there are 2 GiB of memory for them.
#[test]
fn words_and_tiles_may_be_very_many(rt: HostRuntime) {
    let above = must(&rt, env::temp_dir(&rt));
    let folder = made_folder(&rt, above.as_str(), process::id(rt.process()));
    must(&rt, env::set_current_dir(&rt, folder.as_str()));
    write_files(&rt, LARGE);
    write_sparse(&rt, "A.tca", WIDE_HEAD, 48 + (8 << 28));
    write_sparse(&rt, "B.tca", LONG_HEAD, 32 + (8 << 21));
    for row in LARGE_RUNS.split(';') {
        check_answer(&rt, row);
        check_file(&rt, "C.tca", b"TCARRAY1\0\0\0\0\0\0\0\0\x05\0\0\0\0\0\0\0");
    }
    must(&rt, fs::remove_dir_all(&rt, folder.as_str()));
}
