//! Declarations, their limits and their faults, judged by hand.
use crate::given::{expect_text, part, put, told_fault, with_feeds};
use std::alloc::Global;
use std::process::Abort;
use std::str;
use tce_spec::{Head, SpecFault, check_rest, read_head};

/// The fault of a text up to its formula.
fn fault_of(alloc: Global, text: &[u8]) -> Option<SpecFault> {
    read_head(alloc, text).err()
}

/// The fault of the lines behind a formula.
fn fault_behind(alloc: Global, line: u64, text: &[u8]) -> Option<SpecFault> {
    if line > 65_536 || text.len() > 65_536 {
        return None;
    }
    let Err(fault) = check_rest(alloc, line, text) else {
        return None;
    };
    Some(fault)
}

// The fault in words, or that there is none, is the text of the row.
fn expect_fault(rt: &impl Abort, alloc: Global, fault: Option<SpecFault>, row: &str) {
    let wanted = part(row, 1).as_bytes();
    match fault {
        Some(fault) => expect_text(rt, told_fault(rt, alloc, &fault).as_slice(), wanted, row),
        None => expect_text(rt, b"none", wanted, row),
    }
}

fn text_of<'a>(head: &Head<'a>) -> &'a str {
    str::from_utf8(head.result).unwrap_or("")
}

const OUTER: &[u8] =
    b"range N 2\nindex N i j\ntensor A[N]\ntensor B[N]\ntensor C[N,N]\nC[i,j] = A[i] * B[j]\n";

const NAMED_ALIKE: &[u8] =
    b"\t# a note\r\nrange N 10 tile 4\n\nindex N N i\ntensor N[N,N]\ntensor s[]\ns[] = 3\n \n# end";

fn expect_head(rt: &impl Abort, head: &Head, line: u64, name: &str, rest: &[u8]) {
    assert!(rt; head.line == line);
    assert!(rt; text_of(head) == name);
    assert!(rt; head.rest == rest);
}

fn expect_counts(rt: &impl Abort, head: &Head, ranges: u8, indexes: u8, tensors: u8) {
    assert!(rt; head.declarations.space().range_count() == ranges);
    assert!(rt; head.declarations.space().index_count() == indexes);
    assert!(rt; head.declarations.tensor_count() == tensors);
}

fn expect_index(rt: &impl Abort, head: &Head, name: &str, number: Option<u8>) {
    assert!(rt;
        head.declarations.space().index_named(name) == number,
        "{name}"
    );
}

fn expect_tensor(rt: &impl Abort, head: &Head, name: &str, number: Option<u8>) {
    assert!(rt; head.declarations.tensor_named(name) == number, "{name}");
}

#[test]
fn declarations_are_read_up_to_the_formula(rt: HostRuntime) {
    let Ok(head) = read_head(rt.alloc(), OUTER) else {
        panic!(rt; "refused");
    };
    expect_head(&rt, &head, 6, "C", b"");
    assert!(rt; head.indexes.len() == 2);
    expect_counts(&rt, &head, 1, 2, 3);
    expect_index(&rt, &head, "j", Some(1));
    expect_tensor(&rt, &head, "C", Some(2));
    expect_tensor(&rt, &head, "N", None);
    expect_tensor(&rt, &head, "a_name_with_seventeen_bytes", None);
    drop(head);
}

// The two tensors of the names that are alike.
fn expect_both(rt: &impl Abort, head: &Head) {
    assert!(rt; head.declarations.tensor_count() == 2);
    let matrix = head.declarations.tensor(0);
    assert!(rt; matrix.name.as_str() == "N");
    assert!(rt; matrix.ranges.as_slice() == &[0, 0][..]);
    assert!(rt; matrix.shape.tile_words() == 16);
    assert!(rt; matrix.shape.tiles() == 9);
    assert!(rt; head.declarations.tensor(1).ranges.as_slice().len() == 0);
}

#[test]
fn names_of_ranges_indexes_and_tensors_are_separate(rt: HostRuntime) {
    let Ok(head) = read_head(rt.alloc(), NAMED_ALIKE) else {
        panic!(rt; "refused");
    };
    expect_head(&rt, &head, 7, "s", b" \n# end");
    assert!(rt; head.declarations.space().range_named("N") == Some(0));
    expect_index(&rt, &head, "N", Some(0));
    expect_index(&rt, &head, "i", Some(1));
    expect_tensor(&rt, &head, "N", Some(0));
    expect_tensor(&rt, &head, "s", Some(1));
    expect_both(&rt, &head);
    assert!(rt; fault_behind(rt.alloc(), 8, head.rest).is_none());
    drop(head);
}

// Each row is a text, with a slash for each line feed, and its fault.
fn expect_faults(rt: &impl Abort, alloc: Global, rows: &str) {
    for row in rows.split('\n') {
        let text = with_feeds(rt, alloc, part(row, 0));
        expect_fault(rt, alloc, fault_of(alloc, text.as_slice()), row);
    }
}

const NO_FORMULA: &str = "\
|text 1
//# nothing|text 4
range N 2/|text 2";

const NO_LINE: &str = "\
range N 2/range N/|text 2
range abcdefghijklmnopq 2/|text 1
range tile 2/|text 1
index N/|text 1
range N 2\r|text 1";

const RANGES: &str = "\
range N 2/range N 3/|name twice 2 N
range N 2/range N 0/|name twice 2 N
range N 0/|number 1
range N 02/|number 1
range N 4294967296/|number 1
range N 18446744073709551617/|number 1
range N 2 tile 0/|number 1
range N 2 tile 01/|number 1
range N 2 tile 3/|number 1
range N 4294967295 tile 4294967295/|text 2";

const INDEXES: &str = "\
range N 2/index N i/index N j i/|name twice 3 i
range N 2/index N i j j i/|name twice 2 j
index M i i/|name twice 1 i
index M i/|unknown 1 M
index M a b c d e f g h i j k l m n o p q r s t u v w x y/|unknown 1 M
range N 2/index N a b c d e f g h i j k l m n o p q r s t u v w x y/|indexes 2
range N 2/index N a b c d e f g h i j k l m n o p q r s t u v w x/index N y/|indexes 3
range N 2/index N a b c d e f g h i j k l m n o p q r s t u v w x/|text 3
range N 2/index N a b c d e f g h i j k l m n o p q r s t u v w x y i/|name twice 2 i";

// 16777215 elements in tiles of 1000 are 16777 whole tiles and one in part.
const TENSORS: &str = "\
range N 2/tensor A[N]/tensor A[M]/|name twice 3 A
range N 2/tensor A[N,M,X]/|unknown 2 M
range N 2/tensor A[N,N,N,N,N,N,N,N,M]/|unknown 2 M
range N 2/tensor A[N,N,N,N,N,N,N,N,N]/|rank 2
range N 2/tensor A[N,N,N,N,N,N,N,N]/|text 3
range N 1048577 tile 1048577/tensor A[N]/|tile words 2
range N 1048576 tile 1048576/tensor A[N]/|text 3
range N 4294967295 tile 1048577/tensor A[N,N]/|tile words 2
range N 4294967295/tensor A[N,N,N,N,N,N,N,N]/|array words 2
range N 16777216/tensor A[N,N]/|text 3
range N 16777215 tile 1000/tensor A[N,N]/|array words 2";

const FIRST: &str = "\
range N 0/index M i/|number 1
# note/index M i/range N 0/|unknown 2 M";

#[test]
fn the_first_fault_decides(rt: HostRuntime) {
    let alloc = rt.alloc();
    expect_faults(&rt, alloc, NO_FORMULA);
    expect_faults(&rt, alloc, NO_LINE);
    expect_faults(&rt, alloc, RANGES);
    expect_faults(&rt, alloc, INDEXES);
    expect_faults(&rt, alloc, TENSORS);
    expect_faults(&rt, alloc, FIRST);
}

/// Lines `word X rest` for the first letters X, and a last line.
fn lines_and_last(
    rt: &impl Abort,
    alloc: Global,
    word: &[u8],
    rest: &[u8],
    count: u8,
    last: &[u8],
) -> Vec<u8> {
    let mut text = Vec::new(alloc);
    for letter in b"ABCDEFGHIJKLMNOPQRSTUVWXYZabcdefghijkl"
        .iter()
        .take(count as usize)
    {
        put(rt, &mut text, word);
        put(rt, &mut text, &[*letter]);
        put(rt, &mut text, rest);
    }
    put(rt, &mut text, last);
    text
}

// Behind so many lines, `word X rest` for the first letters X, a last line has this fault. Each row is a last line and the
// fault.
fn expect_behind(rt: &impl Abort, alloc: Global, word: &[u8], rest: &[u8], count: u8, rows: &str) {
    for row in rows.split('\n') {
        let last = with_feeds(rt, alloc, part(row, 0));
        let text = lines_and_last(rt, alloc, word, rest, count, last.as_slice());
        expect_fault(rt, alloc, fault_of(alloc, text.as_slice()), row);
    }
}

const SEVENTEENTH_RANGE: &str = "\
range z 1/|ranges 17
range z 0/|number 17
range A 0/|name twice 17 A";

const THIRTY_THIRD_TENSOR: &str = "\
tensor z[]/|tensors 33
tensor z[M]/|unknown 33 M
tensor A[M]/|name twice 33 A
/|text 34";

#[test]
fn limits_of_ranges_and_tensors(rt: HostRuntime) {
    let alloc = rt.alloc();
    expect_behind(&rt, alloc, b"range ", b" 1\n", 16, SEVENTEENTH_RANGE);
    expect_behind(&rt, alloc, b"tensor ", b"[]\n", 32, THIRTY_THIRD_TENSOR);
}

fn line_feeds(rt: &impl Abort, alloc: Global, count: u32) -> Vec<u8> {
    let mut text = Vec::new(alloc);
    for _ in 0..count {
        assert!(rt; text.push(b'\n').is_ok());
    }
    text
}

#[test]
fn long_texts(rt: HostRuntime) {
    let alloc = rt.alloc();
    let text = line_feeds(&rt, alloc, 65_536);
    expect_fault(&rt, alloc, fault_of(alloc, text.as_slice()), "|text 65537");
    let text = line_feeds(&rt, alloc, 65_537);
    expect_fault(&rt, alloc, fault_of(alloc, text.as_slice()), "|too long 0");
}

const BEHIND: &str = "\
|none
/  # note/\t|none
/range N 2/|text 8
C[] = 3/!/|text 7
#//!|text 9";

#[test]
fn only_skipped_lines_stand_behind_the_formula(rt: HostRuntime) {
    let alloc = rt.alloc();
    for row in BEHIND.split('\n') {
        let text = with_feeds(&rt, alloc, part(row, 0));
        expect_fault(&rt, alloc, fault_behind(alloc, 7, text.as_slice()), row);
    }
}
