//! Files of stored elements, opened and expanded.

use crate::given::{bar, check, file_of, must, shape_of};
use std::alloc::Global;
use std::process::Abort;
use tce_outside::{Disk, FaultyDisk, MemDisk, OutFault};
use tce_space::Shape;
use tce_sym::{SymFault, expand, expand_through, open_sym};

// A refusal in words.
fn told(rt: &impl Abort, alloc: Global, fault: SymFault) -> String {
    must(
        rt,
        match fault {
            SymFault::NoFile => format!(in alloc; "no file"),
            SymFault::BadLength(length) => format!(in alloc; "length {length}"),
            SymFault::BadHeader(place) => format!(in alloc; "head {place}"),
            SymFault::Disk => format!(in alloc; "disk"),
        },
    )
}

fn word_of(made: Result<(), OutFault>) -> &'static str {
    match made {
        Ok(()) => "done",
        Err(OutFault::Failed) => "disk",
        Err(OutFault::Memory) => "memory",
    }
}

// How opening A.sym and expanding it to A.tca ends, in words.
fn ended<D: Disk>(rt: &impl Abort, alloc: Global, disk: &mut D, shape: &Shape) -> String {
    match open_sym(disk, "A.sym", shape) {
        Ok(s) => {
            let made = expand(disk, shape, &s, "A.sym", "A.tca");
            must(rt, String::from_str(alloc, word_of(made)))
        }
        Err(fault) => told(rt, alloc, fault),
    }
}

// Whether A.sym is expanded to B.tca through one line, whose words held something else.
fn goes_through_a_line<D: Disk>(disk: &mut D, shape: &Shape) -> bool {
    let mut line = [7; 32];
    match open_sym(disk, "A.sym", shape) {
        Ok(s) => expand_through(disk, shape, &s, "A.sym", "B.tca", &mut line).is_ok(),
        Err(_) => false,
    }
}

fn check_file(rt: &impl Abort, disk: &MemDisk, name: &str, bytes: &[u8], row: &str) {
    check(rt, disk.file(name) == Some(bytes), row);
}

// A row is a shape, the numbers in A.sym behind its mark, and those in the array behind its own.
fn check_words(rt: &impl Abort, alloc: Global, row: &str) {
    let shape = shape_of(rt, alloc, bar(row, 0));
    let packed = file_of(rt, alloc, "TCSYMM01", bar(row, 1), &[]);
    let array = file_of(rt, alloc, "TCARRAY1", bar(row, 2), &[]);
    let mut disk = MemDisk::new(alloc);
    must(rt, disk.put_file("A.sym", &packed));
    let word = ended(rt, alloc, &mut disk, &shape);
    check(rt, word.as_str() == "done", row);
    check(rt, goes_through_a_line(&mut disk, &shape), row);
    check_file(rt, &disk, "A.sym", &packed, row);
    check_file(rt, &disk, "A.tca", &array, row);
    check_file(rt, &disk, "B.tca", &array, row);
}

// One stored element for each pair, and none on the diagonal with signs that turn.
const PAIRS: &str = "\
3/1 3/1|0 1 0 1 2 3 4 5 6|2 3 3 1 1 1 2 4 2 3 5 4 5 6
3/1 3/1|0 1 1 1 2 3|2 3 3 1 1 0 1 2 18446744073709551615 0 3 18446744073709551614 18446744073709551613 0";

#[test]
fn pairs_are_expanded(rt: HostRuntime) {
    for row in PAIRS.split('\n') {
        check_words(&rt, rt.alloc(), row);
    }
}

// Tiles that are padded in both dimensions, the last two of three dimensions, and the outer two.
const TILED: &str = "\
3/2 3/2|0 1 0 1 2 3 4 5 6|2 3 3 2 2 1 2 2 3 4 0 5 0 4 5 0 0 6 0 0 0
2/1 2/2 2/2|1 2 0 1 2 3 4 5 6|3 2 2 2 1 2 2 1 2 2 3 4 5 5 6
2/2 2/2 2/2|0 2 0 1 2 3 4 5 6|3 2 2 2 2 2 2 1 2 4 5 2 3 5 6";

#[test]
fn pairs_are_expanded_over_tiles(rt: HostRuntime) {
    for row in TILED.split('\n') {
        check_words(&rt, rt.alloc(), row);
    }
}

// More words than 32, of which a line holds some; the first two of three dimensions, of which rows are short; rows of 65 words.
const LONG: &str = "\
9/3 9/9|0 1 0 1 2 3 4 5 6 7 8 9 10 11 12 13 14 15 16 17 18 19 20 21 22 23 24 25 26 27 28 29 30 31 32 33 34 35 36 37 38 39 40 41 42 43 44 45|2 9 9 3 9 1 2 4 7 11 16 22 29 37 2 3 5 8 12 17 23 30 38 4 5 6 9 13 18 24 31 39 7 8 9 10 14 19 25 32 40 11 12 13 14 15 20 26 33 41 16 17 18 19 20 21 27 34 42 22 23 24 25 26 27 28 35 43 29 30 31 32 33 34 35 36 44 37 38 39 40 41 42 43 44 45
3/1 3/2 6/6|0 1 0 1 2 3 4 5 6 7 8 9 10 11 12 13 14 15 16 17 18 19 20 21 22 23 24 25 26 27 28 29 30 31 32 33 34 35 36|3 3 3 6 1 2 6 1 7 13 19 25 31 2 8 14 20 26 32 4 10 16 22 28 34 0 0 0 0 0 0 2 8 14 20 26 32 3 9 15 21 27 33 5 11 17 23 29 35 0 0 0 0 0 0 4 10 16 22 28 34 5 11 17 23 29 35 6 12 18 24 30 36 0 0 0 0 0 0
2/1 2/1 65/1|0 1 0 0 1 2 3 4 5 6 7 8 9 10 11 12 13 14 15 16 17 18 19 20 21 22 23 24 25 26 27 28 29 30 31 32 33 34 35 36 37 38 39 40 41 42 43 44 45 46 47 48 49 50 51 52 53 54 55 56 57 58 59 60 61 62 63 64 65 66 67 68 69 70 71 72 73 74 75 76 77 78 79 80 81 82 83 84 85 86 87 88 89 90 91 92 93 94 95 96 97 98 99 100 101 102 103 104 105 106 107 108 109 110 111 112 113 114 115 116 117 118 119 120 121 122 123 124 125 126 127 128 129 130 131 132 133 134 135 136 137 138 139 140 141 142 143 144 145 146 147 148 149 150 151 152 153 154 155 156 157 158 159 160 161 162 163 164 165 166 167 168 169 170 171 172 173 174 175 176 177 178 179 180 181 182 183 184 185 186 187 188 189 190 191 192 193 194|3 2 2 65 1 1 1 0 3 6 9 12 15 18 21 24 27 30 33 36 39 42 45 48 51 54 57 60 63 66 69 72 75 78 81 84 87 90 93 96 99 102 105 108 111 114 117 120 123 126 129 132 135 138 141 144 147 150 153 156 159 162 165 168 171 174 177 180 183 186 189 192 1 4 7 10 13 16 19 22 25 28 31 34 37 40 43 46 49 52 55 58 61 64 67 70 73 76 79 82 85 88 91 94 97 100 103 106 109 112 115 118 121 124 127 130 133 136 139 142 145 148 151 154 157 160 163 166 169 172 175 178 181 184 187 190 193 1 4 7 10 13 16 19 22 25 28 31 34 37 40 43 46 49 52 55 58 61 64 67 70 73 76 79 82 85 88 91 94 97 100 103 106 109 112 115 118 121 124 127 130 133 136 139 142 145 148 151 154 157 160 163 166 169 172 175 178 181 184 187 190 193 2 5 8 11 14 17 20 23 26 29 32 35 38 41 44 47 50 53 56 59 62 65 68 71 74 77 80 83 86 89 92 95 98 101 104 107 110 113 116 119 122 125 128 131 134 137 140 143 146 149 152 155 158 161 164 167 170 173 176 179 182 185 188 191 194";

#[test]
fn pairs_are_expanded_in_much_and_in_little_room(rt: HostRuntime) {
    for row in LONG.split('\n') {
        check_words(&rt, rt.alloc(), row);
    }
}

// A row is a shape, a mark, the numbers behind it, bytes behind those, and the refusal. The file of the array stays.
fn check_refused(rt: &impl Abort, alloc: Global, row: &str) {
    let shape = shape_of(rt, alloc, bar(row, 0));
    let packed = file_of(rt, alloc, bar(row, 1), bar(row, 2), bar(row, 3).as_bytes());
    let mut disk = MemDisk::new(alloc);
    must(rt, disk.put_file("A.tca", b"old"));
    let word = ended(rt, alloc, &mut disk, &shape);
    check(rt, word.as_str() == "no file", row);
    must(rt, disk.put_file("A.sym", &packed));
    let word = ended(rt, alloc, &mut disk, &shape);
    check(rt, word.as_str() == bar(row, 4), row);
    check_file(rt, &disk, "A.tca", b"old", row);
}

// A byte short, a word more, and no head; then the positions, which come before the sign, the sign, which comes before the length, and
// the mark.
const REFUSED: &str = "\
3/1 3/1|TCSYMM01|0 1 0 1 2 3 4 5|1234567|length 79
3/1 3/1|TCSYMM01|0 1 0 1 2 3 4 5 6 7||length 88
3/1 3/1|TCSYMM01|0 1|1234567|length 31
3/1 2/1|TCSYMM01|0 1 2 1 2 3||head 8
3/1 3/1|TCSYMM01|1 1 0 1 2 3||head 8
3/1 3/1|TCSYMM01|1 0 0 1 2 3||head 8
3/1 3/1|TCSYMM01|0 2 0 1 2 3||head 8
3/1|TCSYMM01|0 1 0 1 2 3||head 8
|TCSYMM01|0 1 0 1||head 8
3/1 3/1|TCSYMM01|0 1 2 1||head 24
3/1 3/1|TCSYMM02|0 1 0 1 2 3 4 5 6||head 7";

#[test]
fn files_are_refused(rt: HostRuntime) {
    for row in REFUSED.split('\n') {
        check_refused(&rt, rt.alloc(), row);
    }
}

// Whether A.sym is opened as one whose first two positions are a pair of which the sign turns.
fn is_turned<D: Disk>(disk: &mut D, shape: &Shape) -> bool {
    match open_sym(disk, "A.sym", shape) {
        Ok(s) => s.first == 0 && s.second == 1 && s.negated,
        Err(_) => false,
    }
}

#[test]
fn heads_are_read(rt: HostRuntime) {
    let shape = shape_of(&rt, rt.alloc(), "3/1 3/1");
    let packed = file_of(&rt, rt.alloc(), "TCSYMM01", "0 1 1 1 2 3", &[]);
    let mut disk = MemDisk::new(rt.alloc());
    must(&rt, disk.put_file("A.sym", &packed));
    check(&rt, is_turned(&mut disk, &shape), "the pair and the sign");
}

// The call with this number fails the disk, if there are so many, and nothing else is told or changed.
fn check_call(rt: &impl Abort, alloc: Global, shape: &Shape, packed: &[u8], call: u64) -> bool {
    let mut files = MemDisk::new(alloc);
    must(rt, files.put_file("A.sym", packed));
    must(rt, files.put_file("B.tca", b"old"));
    let mut disk = FaultyDisk::new(files, must(rt, vec![in alloc; call]));
    let word = ended(rt, alloc, &mut disk, shape);
    let wanted = if disk.faults() == 0 { "done" } else { "disk" };
    check(rt, word.as_str() == wanted, "only the disk fails");
    check(rt, disk.faults() < 2, "one call fails");
    check_file(rt, disk.inner(), "A.sym", packed, "the stored pairs stay");
    check_file(rt, disk.inner(), "B.tca", b"old", "another file stays");
    let faults = disk.faults();
    drop(disk);
    faults == 0
}

#[test]
fn each_call_of_the_disk_may_fail(rt: HostRuntime) {
    let shape = shape_of(&rt, rt.alloc(), "3/2 3/2");
    let packed = file_of(&rt, rt.alloc(), "TCSYMM01", "0 1 0 1 2 3 4 5 6", &[]);
    for call in 0..1000 {
        if check_call(&rt, rt.alloc(), &shape, packed.as_slice(), call) {
            check(&rt, call > 5, "both files are used");
            return;
        }
    }
    check(&rt, false, "so many calls are not made");
}
