use crate::given::{check, must};
use std::alloc::Global;
use std::cell::Cell;
use std::fmt::Display;
use std::fs::File;
use std::io::{ErrorKind, PipeWriter, Read, Write};
use std::os::fd::AsRawFd;
use std::os::unix::fs::{FileExt, symlink};
use std::process::Abort;
use std::rt::Files;
use std::{env, fs, io, process};
use tce_outside::{Disk, Failed, OutFault, Sink};
use tce_system::{FileDisk, OutSink, read_fully, write_fully};

// The file has these bytes, also for others.
fn check_file<R: Files<File = File> + AllocGlobal + Abort>(rt: &R, name: &str, bytes: &[u8]) {
    let found = must(rt, fs::read(rt, name));
    check(rt, found.as_slice() == bytes, name);
}

// Reading these bytes at this place gives them.
fn check_read<R: Files<File = File>>(
    rt: &impl Abort,
    disk: &mut FileDisk<'_, R>,
    name: &str,
    at: u64,
    bytes: &[u8; 2],
) {
    let mut out = [7u8; 2];
    check(rt, disk.read_at(name, at, &mut out).is_ok(), name);
    check(rt, out == *bytes, name);
}

fn keeps_bytes<R: Files<File = File>>(rt: &impl Abort, disk: &mut FileDisk<'_, R>, name: &str) {
    check(rt, disk.size(name) == Ok(None), "it is not there yet");
    check(rt, disk.make(name, 6).is_ok(), "it is made");
    check(rt, disk.size(name) == Ok(Some(6)), "it has its length");
    check(rt, disk.write_at(name, 1, b"xyz").is_ok(), "a part");
    check_read(rt, disk, name, 0, b"\0x");
    check_read(rt, disk, name, 2, b"yz");
    check_read(rt, disk, name, 4, b"\0\0");
    let none = disk.read_at(name, 9, &mut []);
    check(rt, none.is_ok(), "no bytes are there everywhere");
    check(rt, disk.write_at(name, 0, b"w").is_ok(), "the beginning");
    check_read(rt, disk, name, 0, b"wx");
}

// Over a longer file of other bytes, which stands until the new one is whole.
fn makes_zeros<R: Files<File = File> + AllocGlobal + Abort>(rt: &R, name: &str) {
    let mut disk = FileDisk::new(rt.alloc(), rt);
    must(rt, fs::write(rt, name, "seventeen letters"));
    check(rt, disk.make(name, 2).is_ok(), "it is made anew");
    check(rt, disk.size(name) == Ok(Some(2)), "it is shorter");
    check_read(rt, &mut disk, name, 0, b"\0\0");
    check_file(rt, name, b"seventeen letters");
    check(rt, disk.write_at(name, 0, b"\0").is_ok(), "it is whole");
    check_file(rt, name, b"\0\0");
    must(rt, fs::remove_file(rt, name));
    drop(disk);
}

// On the file that `keeps_bytes` left. A new file takes the place of the old one.
fn keeps_files_open<R: Files<File = File> + AllocGlobal + Abort>(
    rt: &R,
    disk: &mut FileDisk<'_, R>,
    name: &str,
) {
    must(rt, fs::remove_file(rt, name));
    check_read(rt, disk, name, 2, b"yz");
    check(rt, disk.make(name, 2).is_ok(), "it is made anew");
    check(rt, disk.write_at(name, 0, b"hi").is_ok(), "it is written");
    check_read(rt, disk, name, 0, b"hi");
    check_file(rt, name, b"hi");
    check(rt, disk.faults() == 0, "nothing has failed");
}

// Names behind that of a file.
fn behind(rt: &impl Abort, alloc: Global, name: &str, end: &str) -> String {
    must(rt, format!(in alloc; "{name}{end}"))
}

// With the file of two bytes that `keeps_files_open` left.
fn counts_reads_and_writes<R: Files<File = File> + AllocGlobal + Abort>(
    rt: &R,
    disk: &mut FileDisk<'_, R>,
    name: &str,
) {
    let absent = behind(rt, rt.alloc(), name, "-absent");
    let mut out = [7u8; 2];
    let cut = disk.read_at(name, 1, &mut out);
    check(rt, cut == Err(Failed), "one byte is left");
    let none = disk.read_at(&absent, 0, &mut out);
    check(rt, none == Err(Failed), "it is not there");
    let made = disk.write_at(&absent, 0, &out);
    check(rt, made == Err(Failed), "a write makes no file");
    check(rt, disk.faults() == 3, "each is counted");
    check(rt, disk.size(&absent) == Ok(None), "this is no fault");
    check(rt, disk.faults() == 3, "nor counted");
}

fn counts_makes_and_sizes<R: Files<File = File> + AllocGlobal + Abort>(
    rt: &R,
    disk: &mut FileDisk<'_, R>,
    name: &str,
) {
    let below = behind(rt, rt.alloc(), name, "/below");
    let made = disk.make(&below, 1);
    check(rt, made == Err(OutFault::Failed), "a file is no folder");
    let size = disk.size(&below);
    check(
        rt,
        size == Err(Failed),
        "not even to look for another in it",
    );
    check(rt, disk.faults() == 5, "each is counted");
}

// One of 100 files, all of which stay open.
fn uses_a_file<R: Files<File = File>>(
    rt: &impl Abort,
    disk: &mut FileDisk<'_, R>,
    name: &str,
    byte: u8,
    is_new: bool,
) {
    check(rt, !is_new || disk.make(name, 1).is_ok(), name);
    let mut out = [100];
    check(rt, disk.write_at(name, 0, &[byte]).is_ok(), name);
    check(rt, disk.read_at(name, 0, &mut out).is_ok(), name);
    check(rt, out == [byte], name);
}

fn uses_many_files<R: Files<File = File> + AllocGlobal + Abort>(
    rt: &R,
    disk: &mut FileDisk<'_, R>,
    name: &str,
    is_new: bool,
) {
    for file in 0..100u8 {
        let name = must(rt, format!(in rt.alloc(); "{name}-{file}"));
        uses_a_file(rt, disk, &name, file, is_new);
    }
}

// A new folder in this one, with this number at the end of its name.
fn made_folder<R: Files<File = File> + AllocGlobal + Abort>(
    rt: &R,
    above: &str,
    number: u32,
) -> String {
    let folder = must(rt, format!(in rt.alloc(); "{above}/tce-{number}"));
    must(rt, fs::create_dir(rt, folder.as_str()));
    folder
}

#[test]
fn the_disk_uses_real_files(rt: HostRuntime) {
    let above = must(&rt, env::temp_dir(&rt));
    let folder = made_folder(&rt, above.as_str(), process::id(rt.process()));
    let name = behind(&rt, rt.alloc(), &folder, "/a");
    makes_zeros(&rt, &name);
    let mut disk = FileDisk::new(rt.alloc(), &rt);
    keeps_bytes(&rt, &mut disk, &name);
    keeps_files_open(&rt, &mut disk, &name);
    counts_reads_and_writes(&rt, &mut disk, &name);
    counts_makes_and_sizes(&rt, &mut disk, &name);
    uses_many_files(&rt, &mut disk, &name, true);
    uses_many_files(&rt, &mut disk, &name, false);
    must(&rt, fs::remove_dir_all(&rt, folder.as_str()));
}

// Files of a folder by their names.
#[derive(Drop)]
struct Trial {
    operand: String,
    other: String,
    result: String,
}

// An operand of two bytes, another file, and the name of a result.
fn trial_files<R: Files<File = File> + AllocGlobal + Abort>(rt: &R, folder: &str) -> Trial {
    let operand = behind(rt, rt.alloc(), folder, "/operand");
    let other = behind(rt, rt.alloc(), folder, "/other");
    let result = behind(rt, rt.alloc(), folder, "/result");
    must(rt, fs::write(rt, operand.as_str(), "op"));
    must(rt, fs::write(rt, other.as_str(), "another"));
    Trial {
        operand,
        other,
        result,
    }
}

// A run that reads an operand, makes a result of it and reads both again. Where it is refused, nothing has changed.
fn makes_result<R: Files<File = File> + AllocGlobal + Abort>(
    rt: &R,
    files: &Trial,
    is_right: bool,
) {
    let mut disk = FileDisk::new(rt.alloc(), rt);
    check_read(rt, &mut disk, &files.operand, 0, b"op");
    let made = disk.make(&files.result, 2);
    check(rt, made.is_ok() == is_right, "it is made or refused");
    if is_right {
        check_read(rt, &mut disk, &files.operand, 0, b"op");
        let written = disk.write_at(&files.result, 0, b"hi");
        check(rt, written.is_ok(), "it is written");
        check_read(rt, &mut disk, &files.operand, 0, b"op");
        check_file(rt, &files.result, b"hi");
    } else {
        check_file(rt, &files.operand, b"op");
    }
    check(rt, disk.faults() == u64::from(!is_right), "it is counted");
    drop(disk);
}

// A result whose name is a link with this text.
fn tries_link<R: Files<File = File> + AllocGlobal + Abort>(
    rt: &R,
    files: &Trial,
    text: &str,
    is_right: bool,
) {
    must(rt, symlink(rt, text, files.result.as_str()));
    makes_result(rt, files, is_right);
    must(rt, fs::remove_file(rt, files.result.as_str()));
}

#[test]
fn a_result_that_is_a_link_destroys_no_operand(rt: HostRuntime) {
    let above = must(&rt, env::temp_dir(&rt));
    let id = process::id(rt.process());
    let folder = made_folder(&rt, above.as_str(), id.wrapping_add(1));
    let files = trial_files(&rt, &folder);
    tries_link(&rt, &files, "operand", false);
    tries_link(&rt, &files, "result", false);
    tries_link(&rt, &files, "none/result", false);
    tries_link(&rt, &files, "/dev/null", false);
    tries_link(&rt, &files, "nothing", true);
    tries_link(&rt, &files, &files.other, true);
    check_file(&rt, &files.other, b"hi");

    // a second name of the operand, and an operand that is a link to the result
    must(
        &rt,
        fs::hard_link(&rt, files.operand.as_str(), files.result.as_str()),
    );
    makes_result(&rt, &files, true);
    check_file(&rt, &files.operand, b"op");
    must(
        &rt,
        fs::rename(&rt, files.operand.as_str(), files.result.as_str()),
    );
    must(&rt, symlink(&rt, "result", files.operand.as_str()));
    makes_result(&rt, &files, true);
    check_file(&rt, &files.operand, b"hi");
    must(&rt, fs::remove_dir_all(&rt, folder.as_str()));
}

// Begins a result of two letters.
fn begins<R: Files<File = File>>(rt: &impl Abort, disk: &mut FileDisk<'_, R>, name: &str) {
    check(rt, disk.make(name, 2).is_ok(), "it is begun");
    check(rt, disk.write_at(name, 1, b"x").is_ok(), "its end");
}

#[test]
fn runs_at_once_keep_their_files_apart(rt: HostRuntime) {
    let above = must(&rt, env::temp_dir(&rt));
    let id = process::id(rt.process());
    let folder = made_folder(&rt, above.as_str(), id.wrapping_add(2));
    let files = trial_files(&rt, &folder);
    let left = behind(&rt, rt.alloc(), &folder, "/tce-unfinished~1");
    must(&rt, fs::write(&rt, left.as_str(), "what a killed run left"));

    let mut one = FileDisk::new(rt.alloc(), &rt);
    let mut other = FileDisk::new(rt.alloc(), &rt);
    check_read(&rt, &mut other, &files.operand, 0, b"op");
    begins(&rt, &mut one, &files.operand);
    begins(&rt, &mut other, &files.result);
    check(
        &rt,
        one.write_at(&files.operand, 0, b"a").is_ok(),
        "it is whole",
    );
    check(
        &rt,
        other.write_at(&files.result, 0, b"b").is_ok(),
        "it is whole",
    );
    check_file(&rt, &files.operand, b"ax");
    check_file(&rt, &files.result, b"bx");

    // a file that is replaced while it is open
    check_read(&rt, &mut other, &files.operand, 0, b"op");
    begins(&rt, &mut one, &files.result);
    drop(one);
    check_file(&rt, &files.result, b"bx");
    let is_gone = matches!(fs::exists(&rt, left.as_str()), Ok(false));
    check(&rt, is_gone, "nothing unfinished is left");
    drop(other);
    must(&rt, fs::remove_dir_all(&rt, folder.as_str()));
}

// What has no bytes of its own is no file: each call fails at once.
fn is_no_file<R: Files<File = File>>(rt: &impl Abort, disk: &mut FileDisk<'_, R>, name: &str) {
    let before = disk.faults();
    check(rt, disk.size(name) == Err(Failed), name);
    check(rt, disk.read_at(name, 0, &mut [0]) == Err(Failed), name);
    check(rt, disk.write_at(name, 0, b"x") == Err(Failed), name);
    check(rt, disk.make(name, 1) == Err(OutFault::Failed), name);
    check(
        rt,
        disk.faults().saturating_sub(before) == 4,
        "each is counted",
    );
}

#[test]
fn devices_and_pipes_and_folders_are_no_files(rt: HostRuntime) {
    let mut disk = FileDisk::new(rt.alloc(), &rt);
    is_no_file(&rt, &mut disk, "/dev/null");
    is_no_file(&rt, &mut disk, "/");
    let (reader, end) = must(&rt, io::pipe(&rt));
    let number = reader.as_raw_fd();
    let name = must(&rt, format!(in rt.alloc(); "/proc/self/fd/{number}"));
    is_no_file(&rt, &mut disk, &name);
    drop(reader);
    drop(end);
    drop(disk);
}

// Prints into a pipe.
#[derive(Drop)]
struct Piped {
    end: PipeWriter,
}

impl Print for Piped {
    fn print<D: Display + Drop>(&self, _value: D) -> io::Result<()> {
        Err(io::Error::from(ErrorKind::Unsupported))
    }

    fn println<D: Display + Drop>(&self, _value: D) -> io::Result<()> {
        Err(io::Error::from(ErrorKind::Unsupported))
    }

    fn write_all(&self, bytes: &[u8]) -> io::Result<()> {
        let mut end = &self.end;
        end.write_all(bytes)
    }
}

#[test]
fn the_sink_writes_into_a_real_pipe(rt: HostRuntime) {
    let (mut reader, end) = must(&rt, io::pipe(&rt));
    let piped = Piped { end };
    let mut out = OutSink::new(&piped);
    check_puts(&rt, &mut out);
    let mut text = [0u8; 19];
    must(&rt, reader.read_exact(&mut text));
    let is_all = text == *b"error 1: bad words\n" && out.faults() == 0;
    check(&rt, is_all, "all is there");

    drop(reader);
    check_no_puts(&rt, &mut out);
    check(&rt, out.faults() == 2, "each is counted");
}

fn check_puts<K: Sink>(rt: &impl Abort, out: &mut K) {
    check(rt, out.put(b"error 1:").is_ok(), "a beginning");
    check(rt, out.put(b"").is_ok(), "nothing");
    check(rt, out.put(b" bad words\n").is_ok(), "an end");
}

fn check_no_puts<K: Sink>(rt: &impl Abort, out: &mut K) {
    let put = out.put(b"more");
    check(rt, put == Err(OutFault::Failed), "nobody reads");
    check(rt, out.put(b"").is_ok(), "no bytes need no reader");
    let put = out.put(b"more");
    check(rt, put == Err(OutFault::Failed), "still nobody");
}

// Three bytes, of which each call reads or writes one.
#[derive(Drop)]
struct Slow {
    bytes: Cell<[u8; 3]>,
}

impl FileExt for Slow {
    fn read_at(&self, buf: &mut [u8], offset: u64) -> io::Result<usize> {
        if buf.is_empty() || offset >= 3 {
            return Ok(0);
        }
        buf[0] = self.bytes.get()[offset as usize];
        Ok(1)
    }

    fn write_at(&self, buf: &[u8], offset: u64) -> io::Result<usize> {
        if buf.is_empty() || offset >= 3 {
            return Ok(0);
        }
        let mut bytes = self.bytes.get();
        bytes[offset as usize] = buf[0];
        self.bytes.set(bytes);
        Ok(1)
    }
}

#[test]
fn short_reads_and_writes_go_on(rt: HostRuntime) {
    let file = Slow {
        bytes: Cell::new(*b"abc"),
    };
    let mut out = [0u8; 3];
    let is_whole = read_fully(&file, 0, &mut out) && out == *b"abc";
    check(&rt, is_whole, "all is read");
    let is_put = write_fully(&file, 1, b"xy") && file.bytes.get() == *b"axy";
    check(&rt, is_put, "all is written");
    check(&rt, !read_fully(&file, 1, &mut out), "two bytes are left");
    check(&rt, !write_fully(&file, 2, b"zz"), "one byte is left");
}
