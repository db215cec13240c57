//! The program: one command in the current folder, as `run SPEC BUDGET`, `plan SPEC` or `pack SPEC TENSOR FLAT`.
//!
//! The words of the command line, the files of the system and its standard output are handed to [`tce_top::answer`], which
//! knows all commands and does all the rest. The exit status is that of its answer.
#![tactic(auto)]

use std::fs::File;
use std::io;
use std::os::fd::AsRawFd;
use std::process::ExitCode;
use std::rt::Files;
use tce_outside::Sink;
use tce_system::OutSink;
use tce_top::{Status, answer, words_of};

// What is always there: a file that is opened for reading alone, so that what is put on a closed output fails, and a folder
// where there is no such file.
const NO_FILE: &str = "/dev/null";

const TOP_FOLDER: &str = "/";

// The descriptor of standard error, the last of those that a process is given.
const LAST_GIVEN: i32 = 2;

// What stands in the place of a closed standard input, output or error, or `None` where none of them is closed.
fn stand_in<R: Files<File = File>>(files: &R) -> io::Result<Option<File>> {
    let file = match File::open(files, NO_FILE) {
        Ok(file) => file,
        Err(_) => File::open(files, TOP_FOLDER)?,
    };
    Ok((file.as_raw_fd() <= LAST_GIVEN).then_some(file))
}

fn main(rt: HostRuntime) -> ExitCode {
    let alloc = rt.alloc();
    // Where standard input, output or error is closed, no file of a command may come in its place: these do.
    let Ok(_first) = stand_in(&rt) else {
        return Status::SinkFault.exit_code();
    };
    let Ok(_second) = stand_in(&rt) else {
        return Status::SinkFault.exit_code();
    };
    let Ok(_third) = stand_in(&rt) else {
        return Status::SinkFault.exit_code();
    };
    let mut out = OutSink::new(&rt);
    let Ok(words) = words_of(alloc, &rt) else {
        let _ = out.put(b"error 10: want of memory\n");
        return Status::WantOfMemory.exit_code();
    };
    answer(alloc, &words, &rt, &mut out)
}
