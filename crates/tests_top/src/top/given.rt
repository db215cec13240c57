//! What is given to a command, and what it is to give back, in lines of text.
//!
//! A line has parts, with bars between them: the words, the files that are put on the disk before, the exit status, the
//! report, the takings as `1 3,0 3`, and the files that are there behind it. Those of the second part are there still.
//! An underscore is a space within a word. A report that begins or ends with two dots is given by its end or its beginning,
//! and takings of two dots may be any.
//!
//! Files stand between semicolons. `A 1 2 1 7 8` is the file `A.tca` in the first version of the format, with the
//! rank, the extents, the edges and the words of its tiles, `+A 1 4 2 1 ~7 ~8` one in the second version, with how
//! many bytes a word takes behind the rank, `=a.flat 7 8` a file of these words alone, and `s.tce:range N 2/` a file
//! of this text. A word is a number in eight bytes, in four behind a tilde, or in one behind a dot, or so many of it,
//! as `1*36`. `!` before a file puts it there and asks nothing of it afterwards. `-A` is no such file, `?A` none or
//! one that begins with zeros, as no array does, and `*s.cert:row 1` a file that has this text in it. A slash in a
//! report or in the text of a file is a line feed.

use std::alloc::{AllocError, Global};
use std::process::Abort;
use tce_outside::{Disk, MemDisk, MemSink, Sink};
use tce_top::tce;
use tce_words::{HeapRoom, Room};

// How no array begins.
const ZEROS: &[u8] = b"\0\0\0\0\0\0\0\0";

/// Lines that are given whole.
pub const LINE: &str = "%|%|%|%|%|%";

/// Ends the test where this does not hold, with what it is about.
pub fn check(rt: &impl Abort, holds: bool, what: &str) {
    assert!(rt; holds, "{what}");
}

/// What was made. The test ends where it could not be made.
pub fn must<T, E>(rt: &impl Abort, made: Result<T, E>) -> T {
    match made {
        Ok(made) => made,
        Err(_) => panic!(rt; "this cannot be made"),
    }
}

/// The part of a line with this number, where bars part it; nothing where there is none.
pub fn part<'a>(line: &'a str, number: usize) -> &'a str {
    line.split('|').nth(number).unwrap_or("")
}

fn number_of(rt: &impl Abort, text: &str) -> u64 {
    let Ok(number) = text.parse::<u64>() else {
        panic!(rt; "no number: {text}");
    };
    number
}

// Appends a part of a text, with a line feed for a slash at its end.
fn push_part(whole: &mut String, part: &str) -> Result<(), AllocError> {
    match part.strip_suffix('/') {
        Some(line) => {
            whole.push_str(line)?;
            whole.push_str("\n")
        }
        None => whole.push_str(part),
    }
}

/// The text with a line feed for each slash.
pub fn with_feeds(rt: &impl Abort, alloc: Global, text: &str) -> String {
    let mut whole = String::new(alloc);
    for part in text.split_inclusive('/') {
        must(rt, push_part(&mut whole, part));
    }
    whole
}

// Puts a word behind bytes.
fn push_word(rt: &impl Abort, bytes: &mut Vec<u8>, text: &str) -> Result<(), AllocError> {
    if let Some(digits) = text.strip_prefix('~') {
        return bytes.extend_from_slice(&number_of(rt, digits).to_le_bytes()[..4]);
    }
    match text.strip_prefix('.') {
        Some(digits) => bytes.extend_from_slice(&number_of(rt, digits).to_le_bytes()[..1]),
        None => bytes.extend_from_slice(&number_of(rt, text).to_le_bytes()),
    }
}

// Puts a word behind bytes, or a word so many times.
fn push_words(rt: &impl Abort, bytes: &mut Vec<u8>, text: &str) {
    let (word, times) = match text.split_once('*') {
        Some((word, times)) => (word, number_of(rt, times)),
        None => (text, 1),
    };
    for _ in 0..times {
        must(rt, push_word(rt, bytes, word));
    }
}

// How a file begins whose text begins with this mark.
fn start_of(file: &str) -> &'static [u8] {
    if file.starts_with('=') {
        b""
    } else if file.starts_with('+') {
        b"TCARRAY2"
    } else {
        b"TCARRAY1"
    }
}

// The bytes of a file that is described by words.
fn array_of(rt: &impl Abort, alloc: Global, file: &str) -> Vec<u8> {
    let mut bytes = Vec::new(alloc);
    must(rt, bytes.extend_from_slice(start_of(file)));
    for words in file.split(' ').skip(1) {
        push_words(rt, &mut bytes, words);
    }
    bytes
}

// The bytes of a file.
fn bytes_of(rt: &impl Abort, alloc: Global, file: &str) -> Vec<u8> {
    match file.split_once(':') {
        Some((_, text)) => with_feeds(rt, alloc, text).into_bytes(),
        None => array_of(rt, alloc, file),
    }
}

// The name of a file, behind its mark.
fn name_of(rt: &impl Abort, alloc: Global, file: &str) -> String {
    if let Some((name, _)) = file.split_once(':') {
        return must(rt, String::from_str(alloc, name));
    }
    let word = file.split(' ').next().unwrap_or("");
    match word.strip_prefix('=') {
        Some(whole) => must(rt, String::from_str(alloc, whole)),
        None => array_name(rt, alloc, word.strip_prefix('+').unwrap_or(word)),
    }
}

fn array_name(rt: &impl Abort, alloc: Global, name: &str) -> String {
    must(rt, format!(in alloc; "{name}.tca"))
}

// The bytes that the disk has under the name of a file.
fn stands<'a>(rt: &impl Abort, alloc: Global, disk: &'a MemDisk, file: &str) -> Option<&'a [u8]> {
    disk.file(&name_of(rt, alloc, file))
}

fn put_file(rt: &impl Abort, alloc: Global, disk: &mut MemDisk, file: &str) {
    let name = name_of(rt, alloc, file);
    let bytes = bytes_of(rt, alloc, file);
    must(rt, disk.put_file(&name, &bytes));
}

/// Puts files on a disk.
pub fn put_files(rt: &impl Abort, alloc: Global, disk: &mut MemDisk, files: &str) {
    for file in files.split(';') {
        if !file.is_empty() {
            put_file(rt, alloc, disk, file.strip_prefix('!').unwrap_or(file));
        }
    }
}

// Whether bytes are a text that has this part.
fn has_text(rt: &impl Abort, alloc: Global, bytes: &[u8], text: &str) -> bool {
    let part = with_feeds(rt, alloc, text);
    std::str::from_utf8(bytes)
        .unwrap_or("")
        .contains(part.as_str())
}

// Whether the disk has a file as its text says.
fn is_there(rt: &impl Abort, alloc: Global, disk: &MemDisk, file: &str) -> bool {
    if let Some(name) = file.strip_prefix('-') {
        return stands(rt, alloc, disk, name).is_none();
    }
    if let Some(name) = file.strip_prefix('?') {
        return stands(rt, alloc, disk, name)
            .unwrap_or(ZEROS)
            .starts_with(ZEROS);
    }
    if let Some(name) = file.strip_prefix('*') {
        let text = name.split(':').nth(1).unwrap_or("");
        return has_text(
            rt,
            alloc,
            stands(rt, alloc, disk, name).unwrap_or(b""),
            text,
        );
    }
    stands(rt, alloc, disk, file) == Some(bytes_of(rt, alloc, file).as_slice())
}

/// The disk has files as their texts say.
pub fn check_files(rt: &impl Abort, alloc: Global, disk: &MemDisk, files: &str) {
    for file in files.split(';') {
        if !file.is_empty() && !file.starts_with('!') {
            check(rt, is_there(rt, alloc, disk, file), file);
        }
    }
}

// Appends a part of a word, with a space for an underscore at its end.
fn push_spaced(word: &mut String, part: &str) -> Result<(), AllocError> {
    match part.strip_suffix('_') {
        Some(before) => {
            word.push_str(before)?;
            word.push_str(" ")
        }
        None => word.push_str(part),
    }
}

// The word with a space for each underscore.
fn spaced(rt: &impl Abort, alloc: Global, text: &str) -> String {
    let mut word = String::new(alloc);
    for part in text.split_inclusive('_') {
        must(rt, push_spaced(&mut word, part));
    }
    word
}

// The words of a text, between its spaces. The empty text has none.
fn words_of(rt: &impl Abort, alloc: Global, text: &str) -> Vec<String> {
    let mut words = Vec::new(alloc);
    if text.is_empty() {
        return words;
    }
    for word in text.split(' ') {
        must(rt, words.push(spaced(rt, alloc, word)));
    }
    words
}

/// Does what the words say, and answers the exit status.
pub fn perform<D: Disk, K: Sink, R: Room>(
    rt: &impl Abort,
    alloc: Global,
    words: &str,
    disk: &mut D,
    out: &mut K,
    room: &mut R,
) -> u8 {
    let given = words_of(rt, alloc, words);
    tce(alloc, &given, disk, out, room).code()
}

/// The report is the one that a line says.
pub fn check_report(rt: &impl Abort, alloc: Global, line: &str, report: &[u8]) {
    let text = part(line, 3);
    let (start, end) = text.split_once("..").unwrap_or((text, text));
    let start = with_feeds(rt, alloc, start);
    let end = with_feeds(rt, alloc, end);
    let is_whole = text.contains("..") || report.len() == start.len();
    let begins = report.starts_with(start.as_bytes());
    let ends = report.ends_with(end.as_bytes());
    check(rt, is_whole && begins && ends, line);
}

/// A taking as text, behind a comma where others stand before it.
pub fn taking_text(rt: &impl Abort, alloc: Global, before: &str, taking: (u64, u64)) -> String {
    let (inter, tiles) = taking;
    let comma = if before.is_empty() { "" } else { "," };
    must(rt, format!(in alloc; "{before}{comma}{inter} {tiles}"))
}

// The takings as text.
fn takings_text(rt: &impl Abort, alloc: Global, takings: &[(u64, u64)]) -> String {
    let mut text = String::new(alloc);
    for taking in takings {
        text = taking_text(rt, alloc, text.as_str(), *taking);
    }
    text
}

/// The takings are those that a line says.
pub fn check_takings(rt: &impl Abort, alloc: Global, line: &str, takings: &[(u64, u64)]) {
    let wanted = part(line, 4);
    let text = takings_text(rt, alloc, takings);
    check(rt, wanted == ".." || text.as_str() == wanted, line);
}

/// The exit status is the one that a line says.
pub fn check_code(rt: &impl Abort, line: &str, code: u8) {
    check(rt, u64::from(code) == number_of(rt, part(line, 2)), line);
}

/// What a line says comes of its words over this disk.
pub fn check_line(rt: &impl Abort, alloc: Global, disk: &mut MemDisk, line: &str) -> MemSink {
    let mut out = MemSink::new(alloc);
    let mut room = HeapRoom::new(alloc);
    put_files(rt, alloc, disk, part(line, 1));
    let code = perform(rt, alloc, part(line, 0), disk, &mut out, &mut room);
    check_code(rt, line, code);
    check_report(rt, alloc, line, out.bytes());
    check_takings(rt, alloc, line, room.takings());
    check_files(rt, alloc, disk, part(line, 1));
    check_files(rt, alloc, disk, part(line, 5));
    out
}

// Appends what stands in a form behind the sign with this number, and before it the part of the row.
fn push_filled(whole: &mut String, row: &str, number: usize, text: &str) -> Result<(), AllocError> {
    if number > 0 {
        whole.push_str(part(row, number - 1))?;
    }
    whole.push_str(text)
}

/// The form with the parts of a row for its signs `%`, one after the other.
pub fn filled(rt: &impl Abort, alloc: Global, form: &str, row: &str) -> String {
    let mut whole = String::new(alloc);
    for (number, text) in form.split('%').enumerate() {
        must(rt, push_filled(&mut whole, row, number, text));
    }
    whole
}

// The lines, one after the other over one disk.
fn check_lines(rt: &impl Abort, alloc: Global, lines: &str) {
    let mut disk = MemDisk::new(alloc);
    for line in lines.split('\n') {
        let _report = check_line(rt, alloc, &mut disk, line);
    }
}

/// The lines of the form for each row, which has the parts that the form leaves open. Each row begins with a disk
/// without files.
pub fn check_rows(rt: &impl Abort, alloc: Global, form: &str, rows: &str) {
    for row in rows.split('\n') {
        let lines = filled(rt, alloc, form, row);
        check_lines(rt, alloc, &lines);
    }
}
