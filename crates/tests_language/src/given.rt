//! What tests of texts share: rows of texts, and faults in words.
use std::alloc::Global;
use std::process::Abort;
use tce_space::Name;
use tce_spec::{Limit, SpecFault};
use tce_tree::TreeFault;

// The part of a row with this number, where bars part it; nothing where there is none.
pub(crate) fn part<'a>(row: &'a str, number: usize) -> &'a str {
    row.split('|').nth(number).unwrap_or("")
}

pub(crate) fn put(rt: &impl Abort, text: &mut Vec<u8>, bytes: &[u8]) {
    assert!(rt; text.extend_from_slice(bytes).is_ok(), "no memory");
}

// The text with a line feed for each slash.
pub(crate) fn with_feeds(rt: &impl Abort, alloc: Global, text: &str) -> Vec<u8> {
    let mut whole = Vec::new(alloc);
    for byte in text.as_bytes() {
        assert!(rt;
            whole
                .push(if *byte == b'/' { b'\n' } else { *byte })
                .is_ok()
        );
    }
    whole
}

pub(crate) fn joined(rt: &impl Abort, alloc: Global, first: &[u8], second: &[u8]) -> Vec<u8> {
    let mut text = Vec::new(alloc);
    put(rt, &mut text, first);
    put(rt, &mut text, second);
    text
}

// The text is this one, at the row of a table.
pub(crate) fn expect_text(rt: &impl Abort, text: &[u8], wanted: &[u8], row: &str) {
    assert!(rt; text == wanted, "{row}");
}

pub(crate) fn words_of_limit(limit: Limit) -> &'static str {
    match limit {
        Limit::Ranges => "ranges",
        Limit::Indexes => "indexes",
        Limit::Tensors => "tensors",
        Limit::Rank => "rank",
        Limit::TileWords => "tile words",
        Limit::ArrayWords => "array words",
    }
}

// The fault of a tree in words, with the line, or the node where one is named, and the name.
fn words_of_tree(line: u64, fault: &TreeFault) -> (&'static str, u64, Name) {
    match fault {
        TreeFault::NoOperation => ("no operation", line, Name::new()),
        TreeFault::SumOverAbsent(name) => ("absent", line, *name),
        TreeFault::TooManyLoops(node) => ("loops", u64::from(*node), Name::new()),
        TreeFault::VolumeTooLarge(node) => ("volume", u64::from(*node), Name::new()),
        TreeFault::Memory => ("memory", 0, Name::new()),
    }
}

// A fault that names nothing, in words, with its line.
fn plain_words(fault: &SpecFault) -> (&'static str, u64) {
    match fault {
        SpecFault::TooLong => ("too long", 0),
        SpecFault::BadText(line) => ("text", *line),
        SpecFault::TooManyNodes(line) => ("many nodes", *line),
        SpecFault::BadNumber(line) => ("number", *line),
        SpecFault::LimitPassed(line, limit) => (words_of_limit(*limit), *line),
        SpecFault::ResultIndices(line) => ("indices", *line),
        _ => ("memory", 0),
    }
}

// The fault in words, with its line or its node, and the name in it.
fn words_of(fault: &SpecFault) -> (&'static str, u64, Name) {
    match fault {
        SpecFault::NameTwice(line, name) => ("name twice", *line, *name),
        SpecFault::UnknownName(line, name) => ("unknown", *line, *name),
        SpecFault::RankDiffers(line, name) => ("rank differs", *line, *name),
        SpecFault::RangeDiffers(line, name) => ("range differs", *line, *name),
        SpecFault::IndexTwice(line, name) => ("index twice", *line, *name),
        SpecFault::ResultIsOperand(line, name) => ("operand", *line, *name),
        SpecFault::Tree(line, fault) => words_of_tree(*line, fault),
        _ => {
            let (kind, line) = plain_words(fault);
            (kind, line, Name::new())
        }
    }
}

pub(crate) fn numbered(rt: &impl Abort, alloc: Global, kind: &str, number: u64) -> Vec<u8> {
    match format!(in alloc; "{kind} {number}") {
        Ok(text) => text.into_bytes(),
        Err(_) => panic!(rt; "no memory"),
    }
}

pub(crate) fn told_fault(rt: &impl Abort, alloc: Global, fault: &SpecFault) -> Vec<u8> {
    let (kind, line, name) = words_of(fault);
    let mut text = numbered(rt, alloc, kind, line);
    if !name.as_str().is_empty() {
        put(rt, &mut text, b" ");
        put(rt, &mut text, name.as_str().as_bytes());
    }
    text
}
