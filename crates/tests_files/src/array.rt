//! Places of elements, and files that are created, opened and refused.
ghost use Rattle.std.specs.Prelude.{IsTrue};
ghost use Rattle.tce_space.specs.Box.{IsInside};

use crate::given::{expect_file, failing, file_of, put_file, repeated, shape_of};
use std::alloc::Global;
use std::process::Abort;
use tce_array::{ArrayFault, Form, address, create, form_len, open};
use tce_outside::{FaultyDisk, MemDisk, OutFault};
use tce_space::Shape;

// Whether coordinates are those of an element.
fn is_inside(extents: &[u64], coords: &[u64]) -> bool
    ensures { IsTrue result → IsInside extents.now coords.now }
{
    if extents.len() != coords.len() {
        return false;
    }
    for d in 0..extents.len() {
        if coords[d] >= extents[d] {
            return false;
        }
    }
    true
}

// A place with one coordinate more.
fn longer(rt: &impl Abort, place: &Vec<u64>, x: u64) -> Vec<u64> {
    match place.clone() {
        Ok(mut next) => {
            assert!(rt; next.push(x).is_ok());
            next
        }
        Err(_) => panic!(rt; "no memory"),
    }
}

// All places with one coordinate more, below the extent.
fn extended(rt: &impl Abort, alloc: Global, all: &[Vec<u64>], extent: u64) -> Vec<Vec<u64>> {
    let mut places = Vec::new(alloc);
    for place in all {
        for x in 0..extent {
            assert!(rt; places.push(longer(rt, place, x)).is_ok());
        }
    }
    places
}

// All places of a box, the last coordinate fastest.
fn places(rt: &impl Abort, alloc: Global, extents: &[u64]) -> Vec<Vec<u64>> {
    let mut all = Vec::new(alloc);
    assert!(rt; all.push(Vec::new(alloc)).is_ok());
    for extent in extents {
        all = extended(rt, alloc, all.as_slice(), *extent);
    }
    all
}

// The coordinates at a place of a tile.
fn joined(rt: &impl Abort, alloc: Global, edges: &[u64], tile: &[u64], inner: &[u64]) -> Vec<u64> {
    let mut coords = Vec::new(alloc);
    for ((edge, t), x) in edges.iter().zip(tile).zip(inner) {
        assert!(rt; coords.push(t.wrapping_mul(*edge).wrapping_add(*x)).is_ok());
    }
    coords
}

// The number of tiles in each dimension.
fn tile_counts(rt: &impl Abort, alloc: Global, shape: &Shape) -> Vec<u64> {
    let mut counts = Vec::new(alloc);
    for (extent, edge) in shape.extents().iter().zip(shape.edges()) {
        assert!(rt; 0 < *edge);
        assert!(rt; counts.push(extent.div_ceil(*edge)).is_ok());
    }
    counts
}

// The bytes of the head, and those of a word.
fn head_and_width(form: Form, rank: u64) -> (u64, u64) {
    let dimensions = rank.wrapping_mul(16);
    match form {
        Form::One => (dimensions.wrapping_add(16), 8),
        Form::Narrow => (dimensions.wrapping_add(24), 4),
        Form::Wide => (dimensions.wrapping_add(24), 8),
    }
}

// Whether an element stands at these coordinates, and then at this place.
fn is_element(rt: &impl Abort, form: Form, shape: &Shape, coords: &[u64], place: u64) -> bool {
    if !is_inside(shape.extents(), coords) {
        return false;
    }
    assert!(rt; address(form, shape, coords) == place);
    true
}

// Goes through the words of a file tile by tile, and compares the place of each element. Gives the number of
// elements and the length of the file.
fn compare_places(rt: &impl Abort, alloc: Global, form: Form, shape: &Shape) -> (u64, u64) {
    let (head, width) = head_and_width(form, shape.extents().len() as u64);
    let inners = places(rt, alloc, shape.edges());
    let mut place: u64 = head;
    let mut elements: u64 = 0;
    for tile in &places(rt, alloc, tile_counts(rt, alloc, shape).as_slice()) {
        for inner in &inners {
            let coords = joined(rt, alloc, shape.edges(), tile, inner);
            if is_element(rt, form, shape, coords.as_slice(), place) {
                elements = elements.wrapping_add(1);
            }
            place = place.wrapping_add(width);
        }
    }
    (elements, place)
}

// The elements stand tile by tile in the form: so many.
fn expect_form(rt: &impl Abort, alloc: Global, form: Form, shape: &Shape, elements: u64) {
    let (found, end) = compare_places(rt, alloc, form, shape);
    assert!(rt; found == elements);
    assert!(rt; end == form_len(form, shape));
}

// The elements of a shape stand tile by tile in the three forms: so many, and so many bytes in the first.
fn expect_places(rt: &impl Abort, alloc: Global, dimensions: &str, elements: u64, bytes: u64) {
    let shape = shape_of(rt, alloc, dimensions);
    assert!(rt; form_len(Form::One, &shape) == bytes);
    assert!(rt; shape.file_len() == bytes);
    expect_form(rt, alloc, Form::One, &shape, elements);
    expect_form(rt, alloc, Form::Narrow, &shape, elements);
    expect_form(rt, alloc, Form::Wide, &shape, elements);
}

#[test]
fn elements_stand_tile_by_tile(rt: HostRuntime) {
    let alloc = rt.alloc();
    expect_places(&rt, alloc, "", 1, 24);
    expect_places(&rt, alloc, "5/2", 5, 80);
    expect_places(&rt, alloc, "7/7", 7, 88);
    expect_places(&rt, alloc, "1/1 1/1 1/1", 1, 72);
    expect_places(&rt, alloc, "3/2 3/2", 9, 176);
    expect_places(&rt, alloc, "4/3 1/1 5/5 2/1", 40, 560);
    expect_places(&rt, alloc, "2/1 1/1 3/2 1/1 2/2 1/1 2/1 2/2", 48, 656);
}

// An array of zeros in tiles of 2 of an extent of 5 is created in this form: its first bytes, its words, and so many zeros.
fn expect_created(
    rt: &impl Abort,
    alloc: Global,
    form: Form,
    magic: &str,
    words: &str,
    zeros: usize,
) {
    let shape = shape_of(rt, alloc, "5/2");
    let rest = repeated(rt, alloc, 0, zeros);
    let expected = file_of(rt, alloc, magic, words, rest.as_slice());
    let mut disk = MemDisk::new(alloc);
    put_file(rt, &mut disk, "A.tca", &[7; 200]);
    put_file(rt, &mut disk, "B.tca", b"other");
    assert!(rt; create(&mut disk, "A.tca", form, &shape) == Ok(()));
    expect_file(rt, &disk, "A.tca", expected.as_slice());
    expect_file(rt, &disk, "B.tca", b"other");
    assert!(rt; open(&mut disk, "A.tca", &shape) == Ok(form));
}

#[test]
fn arrays_of_zeros_are_created(rt: HostRuntime) {
    let alloc = rt.alloc();
    expect_created(&rt, alloc, Form::One, "TCARRAY1", "1 5 2 0 0", 32);
    expect_created(&rt, alloc, Form::Narrow, "TCARRAY2", "1 4 5 2", 24);
    expect_created(&rt, alloc, Form::Wide, "TCARRAY2", "1 8 5 2", 48);
}

// What opening a file for two elements answers. It has these first bytes, words, and bytes behind them.
fn expect_open(
    rt: &impl Abort,
    alloc: Global,
    magic: &str,
    words: &str,
    rest: &[u8],
    answer: Result<Form, ArrayFault>,
) {
    let shape = shape_of(rt, alloc, "2/1");
    let mut disk = MemDisk::new(alloc);
    put_file(
        rt,
        &mut disk,
        "A.tca",
        file_of(rt, alloc, magic, words, rest).as_slice(),
    );
    assert!(rt;
        open(&mut disk, "A.tca", &shape) == answer,
        "{magic} {words}"
    );
    assert!(rt; open(&mut disk, "B.tca", &shape) == Err(ArrayFault::NoFile));
}

const NARROW: &[u8] = &[255, 255, 255, 255, 5, 0, 0, 0];

#[test]
fn files_are_opened(rt: HostRuntime) {
    let alloc = rt.alloc();
    expect_open(&rt, alloc, "TCARRAY1", "1 2 1 5 6", &[], Ok(Form::One));
    expect_open(&rt, alloc, "TCARRAY2", "1 4 2 1", NARROW, Ok(Form::Narrow));
    expect_open(&rt, alloc, "TCARRAY2", "1 8 2 1 5 6", &[], Ok(Form::Wide));
}

// A file of a length that no array of the shape has is refused.
fn expect_length(
    rt: &impl Abort,
    alloc: Global,
    magic: &str,
    words: &str,
    rest: &[u8],
    length: u64,
) {
    let fault = Err(ArrayFault::BadLength(length));
    expect_open(rt, alloc, magic, words, rest, fault);
}

#[test]
fn lengths_are_tested_first(rt: HostRuntime) {
    let alloc = rt.alloc();
    expect_length(&rt, alloc, "", "", &[], 0);
    expect_length(&rt, alloc, "TCARRAY2", "1", &[4, 0, 0, 0, 0, 0, 0], 23);
    expect_length(
        &rt,
        alloc,
        "TCARRAY1",
        "1 2 1 5",
        &[6, 0, 0, 0, 0, 0, 0],
        47,
    );
    expect_length(&rt, alloc, "TCARRAY1", "1 2 1 5 6", &[0], 49);
    expect_length(&rt, alloc, "TCARRAY2", "1 5 2 1", NARROW, 48);
}

// A file whose header differs first at this byte is refused.
fn expect_header(rt: &impl Abort, alloc: Global, magic: &str, words: &str, place: u64) {
    expect_open(
        rt,
        alloc,
        magic,
        words,
        &[],
        Err(ArrayFault::BadHeader(place)),
    );
}

#[test]
fn headers_are_refused_by_their_first_byte(rt: HostRuntime) {
    let alloc = rt.alloc();
    expect_header(&rt, alloc, "TCARRAY1", "18446744073709551615 2 1 5 6", 8);
    expect_header(&rt, alloc, "TCARRAY1", "257 2 1 5 6", 9);
    expect_header(&rt, alloc, "TCARRAY1", "1 18446744073709551615 1 5 6", 16);
    expect_header(&rt, alloc, "TCARRAY1", "1 2 2 5 6", 24);
    expect_header(&rt, alloc, "TCARRAY3", "1 2 1 5 6", 7);
    expect_header(&rt, alloc, "TCARRAY2", "1 5 2 1 5 6", 16);
}

// A disk with one array, where the call with this number fails.
fn one_array(rt: &impl Abort, alloc: Global, call: u64) -> FaultyDisk {
    let mut files = MemDisk::new(alloc);
    let bytes = file_of(rt, alloc, "TCARRAY1", "1 2 1 5 6", &[]);
    put_file(rt, &mut files, "A.tca", bytes.as_slice());
    failing(rt, alloc, files, call)
}

fn expect_kept(rt: &impl Abort, alloc: Global, disk: &FaultyDisk) {
    let bytes = file_of(rt, alloc, "TCARRAY1", "1 2 1 5 6", &[]);
    expect_file(rt, disk.inner(), "A.tca", bytes.as_slice());
}

// What opening answers where the call with this number fails.
fn expect_opened(rt: &impl Abort, alloc: Global, call: u64, opened: Result<Form, ArrayFault>) {
    let shape = shape_of(rt, alloc, "2/1");
    let mut disk = one_array(rt, alloc, call);
    assert!(rt;
        open(&mut disk, "A.tca", &shape) == opened,
        "at call {call}"
    );
    assert!(rt; disk.faults() == u64::from(opened.is_err()));
    expect_kept(rt, alloc, &disk);
    drop(disk);
}

// What creating answers where the call with this number fails.
fn expect_made(rt: &impl Abort, alloc: Global, call: u64, created: Result<(), OutFault>) {
    let shape = shape_of(rt, alloc, "2/1");
    let mut disk = one_array(rt, alloc, call);
    let made = create(&mut disk, "B.tca", Form::One, &shape);
    assert!(rt; made == created, "at call {call}");
    assert!(rt; disk.faults() == u64::from(created.is_err()));
    expect_kept(rt, alloc, &disk);
    drop(disk);
}

#[test]
fn failures_of_the_disk_are_passed_on(rt: HostRuntime) {
    let alloc = rt.alloc();
    expect_opened(&rt, alloc, 0, Err(ArrayFault::Disk));
    expect_opened(&rt, alloc, 1, Err(ArrayFault::Disk));
    expect_opened(&rt, alloc, 2, Err(ArrayFault::Disk));
    expect_opened(&rt, alloc, 3, Ok(Form::One));
}

#[test]
fn failures_of_creation_are_passed_on(rt: HostRuntime) {
    let alloc = rt.alloc();
    expect_made(&rt, alloc, 0, Err(OutFault::Failed));
    expect_made(&rt, alloc, 1, Err(OutFault::Failed));
    expect_made(&rt, alloc, 2, Ok(()));
    expect_made(&rt, alloc, 3, Ok(()));
}
