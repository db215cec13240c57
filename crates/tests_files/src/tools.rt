//! Flat files, arrays in other forms, and the arrays of the demonstration.
ghost use Rattle.std.specs.Prelude.{◌<◌, ◌≤◌};

mod refusals;

use crate::given::{expect_file, numbers_of, put, put_file, shape_of};
use std::alloc::Global;
use std::process::Abort;
use tce_array::{Form, open};
use tce_outside::{Disk, MemDisk, OutFault};
use tce_space::Shape;
use tce_tools::{Buffers, ToolFault, cell_sum, convert, demo_array, demo_spec, pack, unpack};

// The words from 1 on, eight bytes each.
fn counted(rt: &impl Abort, alloc: Global, count: u64) -> Vec<u8> {
    let mut bytes = Vec::new(alloc);
    for k in 0..count {
        put(rt, &mut bytes, &(k + 1).to_le_bytes());
    }
    bytes
}

fn put_numbers(rt: &impl Abort, bytes: &mut Vec<u8>, numbers: &[u64]) {
    for number in numbers {
        put(rt, bytes, &number.to_le_bytes());
    }
}

// An array file in the first form, by its shape and its words.
fn first_form(rt: &impl Abort, alloc: Global, shape: &Shape, words: &str) -> Vec<u8> {
    let mut bytes = Vec::new(alloc);
    put(rt, &mut bytes, b"TCARRAY1");
    put_numbers(rt, &mut bytes, &[shape.extents().len() as u64]);
    put_numbers(rt, &mut bytes, shape.extents());
    put_numbers(rt, &mut bytes, shape.edges());
    put_numbers(rt, &mut bytes, numbers_of(rt, alloc, words).as_slice());
    bytes
}

// Packs, where the names differ.
fn packed<D: Disk>(
    alloc: Global,
    disk: &mut D,
    shape: &Shape,
    flat: &str,
    array: &str,
) -> Option<Result<(), ToolFault>> {
    if flat == array {
        return None;
    }
    let Ok(mut buffers) = Buffers::new(alloc) else {
        return None;
    };
    Some(pack(disk, shape, flat, array, &mut buffers))
}

// Unpacks, where the names differ.
fn unpacked<D: Disk>(
    alloc: Global,
    disk: &mut D,
    shape: &Shape,
    array: &str,
    flat: &str,
) -> Option<Result<(), ToolFault>> {
    if array == flat {
        return None;
    }
    let Ok(mut buffers) = Buffers::new(alloc) else {
        return None;
    };
    Some(unpack(disk, shape, array, flat, &mut buffers))
}

// Converts, where the names differ.
fn converted<D: Disk>(
    alloc: Global,
    disk: &mut D,
    shape: &Shape,
    array: &str,
    form: Form,
    to: &str,
) -> Option<Result<(), ToolFault>> {
    if array == to {
        return None;
    }
    let Ok(mut buffers) = Buffers::new(alloc) else {
        return None;
    };
    Some(convert(disk, shape, array, form, to, &mut buffers))
}

// The form and the sum of an array.
fn form_and_sum<D: Disk>(
    alloc: Global,
    disk: &mut D,
    shape: &Shape,
    name: &str,
) -> Option<(Form, u64)> {
    let Ok(mut buffers) = Buffers::new(alloc) else {
        return None;
    };
    let Ok(form) = open(disk, name, shape) else {
        return None;
    };
    let Ok(sum) = cell_sum(disk, form, shape, name, &mut buffers) else {
        return None;
    };
    Some((form, sum))
}

// Draws from a number that the generator takes.
fn drawn<D: Disk>(
    alloc: Global,
    disk: &mut D,
    shape: &Shape,
    array: &str,
    x: u64,
) -> Option<Result<u64, OutFault>> {
    if x < 1 || x > 2147483646 {
        return None;
    }
    let Ok(mut buffers) = Buffers::new(alloc) else {
        return None;
    };
    Some(demo_array(disk, shape, array, x, &mut buffers))
}

fn expect_packed<D: Disk>(rt: &impl Abort, alloc: Global, disk: &mut D, shape: &Shape) {
    assert!(rt; packed(alloc, disk, shape, "a.flat", "A.tca") == Some(Ok(())));
}

fn expect_unpacked<D: Disk>(
    rt: &impl Abort,
    alloc: Global,
    disk: &mut D,
    shape: &Shape,
    array: &str,
) {
    assert!(rt; unpacked(alloc, disk, shape, array, "b.flat") == Some(Ok(())));
}

fn expect_converted<D: Disk>(
    rt: &impl Abort,
    alloc: Global,
    disk: &mut D,
    shape: &Shape,
    form: Form,
) {
    assert!(rt; converted(alloc, disk, shape, "A.tca", form, "B.tca") == Some(Ok(())));
}

// The array has this form and sum.
fn expect_sum<D: Disk>(
    rt: &impl Abort,
    alloc: Global,
    disk: &mut D,
    shape: &Shape,
    name: &str,
    due: (Form, u64),
) {
    assert!(rt; form_and_sum(alloc, disk, shape, name) == Some(due));
}

// The array A.tca is written in this form as B.tca, has this sum, and gives back its elements.
fn expect_form(
    rt: &impl Abort,
    alloc: Global,
    disk: &mut MemDisk,
    shape: &Shape,
    due: (Form, u64),
    flat: &[u8],
) {
    expect_converted(rt, alloc, disk, shape, due.0);
    expect_sum(rt, alloc, disk, shape, "B.tca", due);
    expect_unpacked(rt, alloc, disk, shape, "B.tca");
    expect_file(rt, disk, "b.flat", flat);
}

// A disk with this flat file.
fn disk_of(rt: &impl Abort, alloc: Global, flat: &[u8]) -> MemDisk {
    let mut disk = MemDisk::new(alloc);
    put_file(rt, &mut disk, "a.flat", flat);
    disk
}

// Elements 1, 2, 3 and so on of a shape: so many, with this sum, and the words of their array file.
fn expect_tiled(
    rt: &impl Abort,
    alloc: Global,
    dimensions: &str,
    elements: u64,
    sum: u64,
    words: &str,
) {
    let shape = shape_of(rt, alloc, dimensions);
    let flat = counted(rt, alloc, elements);
    let array = first_form(rt, alloc, &shape, words);
    let mut disk = disk_of(rt, alloc, flat.as_slice());
    expect_packed(rt, alloc, &mut disk, &shape);
    expect_file(rt, &disk, "A.tca", array.as_slice());
    expect_sum(rt, alloc, &mut disk, &shape, "A.tca", (Form::One, sum));
    expect_form(
        rt,
        alloc,
        &mut disk,
        &shape,
        (Form::Narrow, sum),
        flat.as_slice(),
    );
    expect_form(
        rt,
        alloc,
        &mut disk,
        &shape,
        (Form::Wide, sum),
        flat.as_slice(),
    );
    expect_form(
        rt,
        alloc,
        &mut disk,
        &shape,
        (Form::One, sum),
        flat.as_slice(),
    );
    expect_file(rt, &disk, "B.tca", array.as_slice());
    expect_file(rt, &disk, "A.tca", array.as_slice());
}

#[test]
fn elements_move_between_flat_files_and_arrays(rt: HostRuntime) {
    let alloc = rt.alloc();
    expect_tiled(&rt, alloc, "", 1, 1, "1");
    // a last tile that is padded
    expect_tiled(&rt, alloc, "5/2", 5, 15, "1 2 3 4 5 0");
    // one tile
    expect_tiled(&rt, alloc, "2/2 3/3", 6, 21, "1 2 3 4 5 6");
    // tiles of one element
    expect_tiled(&rt, alloc, "2/1 3/1", 6, 21, "1 2 3 4 5 6");
    // rows of one element
    expect_tiled(&rt, alloc, "2/2 2/1", 4, 10, "1 3 2 4");
}

#[test]
fn elements_move_where_tiles_are_padded(rt: HostRuntime) {
    let alloc = rt.alloc();
    // in both dimensions
    let words = "1 2 4 5 3 0 6 0 7 8 0 0 9 0 0 0";
    expect_tiled(&rt, alloc, "3/2 3/2", 9, 45, words);
    // three dimensions, of which the first is cut
    let words = "1 2 4 5 3 0 6 0 7 8 10 11 9 0 12 0";
    expect_tiled(&rt, alloc, "2/1 2/2 3/2", 12, 78, words);
}

// Elements 1, 2, 3 and so on go into an array and come back.
fn expect_long(rt: &impl Abort, alloc: Global, dimensions: &str, elements: u64) {
    let shape = shape_of(rt, alloc, dimensions);
    assert!(rt; shape.elements() == elements);
    assert!(rt; elements < 1 << 20);
    let flat = counted(rt, alloc, elements);
    let mut disk = disk_of(rt, alloc, flat.as_slice());
    expect_packed(rt, alloc, &mut disk, &shape);
    expect_sum(
        rt,
        alloc,
        &mut disk,
        &shape,
        "A.tca",
        (Form::One, elements * (elements + 1) / 2),
    );
    expect_unpacked(rt, alloc, &mut disk, &shape, "A.tca");
    expect_file(rt, &disk, "b.flat", flat.as_slice());
}

#[test]
fn long_arrays_move_in_pieces(rt: HostRuntime) {
    let alloc = rt.alloc();
    expect_long(&rt, alloc, "1/1 9000/1", 9000);
    expect_long(&rt, alloc, "2/2 5000/5000", 10000);
    expect_long(&rt, alloc, "41/7 101/9", 4141);
}

// The file of -1 and 5 in the narrow form.
const NARROW: &[u8] = &[
    0x54, 0x43, 0x41, 0x52, 0x52, 0x41, 0x59, 0x32, 1, 0, 0, 0, 0, 0, 0, 0, 4, 0, 0, 0, 0, 0, 0, 0,
    2, 0, 0, 0, 0, 0, 0, 0, 1, 0, 0, 0, 0, 0, 0, 0, 0xff, 0xff, 0xff, 0xff, 5, 0, 0, 0,
];

// A disk with the array of two words as A.tca, and the old file B.tca.
fn disk_of_two(rt: &impl Abort, alloc: Global, shape: &Shape, words: &str) -> MemDisk {
    let mut disk = MemDisk::new(alloc);
    put_file(
        rt,
        &mut disk,
        "A.tca",
        first_form(rt, alloc, shape, words).as_slice(),
    );
    put_file(rt, &mut disk, "B.tca", b"old");
    disk
}

#[test]
fn narrow_elements_are_signed(rt: HostRuntime) {
    let alloc = rt.alloc();
    let shape = shape_of(&rt, alloc, "2/1");
    let mut disk = disk_of_two(&rt, alloc, &shape, "18446744073709551615 5");
    expect_converted(&rt, alloc, &mut disk, &shape, Form::Narrow);
    expect_file(&rt, &disk, "B.tca", NARROW);
    expect_sum(&rt, alloc, &mut disk, &shape, "B.tca", (Form::Narrow, 4));
}

// Whether two words fit the narrow form, and the place of the first that does not.
fn expect_fit(rt: &impl Abort, alloc: Global, words: &str, answer: Result<(), ToolFault>) {
    let shape = shape_of(rt, alloc, "2/1");
    let mut disk = disk_of_two(rt, alloc, &shape, words);
    let done = converted(alloc, &mut disk, &shape, "A.tca", Form::Narrow, "B.tca");
    assert!(rt; done == Some(answer), "{words}");
    let kept = disk.file("B.tca") == Some(b"old".as_slice());
    assert!(rt; kept == answer.is_err(), "{words}");
    expect_converted(rt, alloc, &mut disk, &shape, Form::Wide);
}

#[test]
fn narrow_elements_have_their_limits(rt: HostRuntime) {
    let alloc = rt.alloc();
    expect_fit(&rt, alloc, "18446744071562067968 2147483647", Ok(()));
    // one less than the least
    let last = Err(ToolFault::DoesNotFit(1));
    expect_fit(&rt, alloc, "5 18446744071562067967", last);
    // one more than the largest
    let first = Err(ToolFault::DoesNotFit(0));
    expect_fit(&rt, alloc, "2147483648 2147483648", first);
}

const SMALLEST_SPEC: &str =
    "range V 1\nrange O 1\nindex V a b c d e f\nindex O i j k l\ntensor demoA[V,V,O,O]\ntensor demoB[V,V,V,O]\ntensor demoC[V,V,O,O]\ntensor demoD[V,V,V,O]\ntensor demoS[V,V,O,O]\ndemoS[a,b,i,j] = sum{c,k}(sum{d,f}(sum{e,l}(demoB[b,e,f,l] * demoD[c,d,e,l]) * demoC[d,f,j,k]) * demoA[a,c,i,k])\n";

fn spec_of(rt: &impl Abort, alloc: Global, v: u64, o: u64) -> Vec<u8>
    requires v { (0 < v) × (v ≤ 16) }
    requires o { (0 < o) × (o ≤ 16) }
{
    match demo_spec(alloc, v, o) {
        Ok(text) => text,
        Err(_) => panic!(rt; "no memory"),
    }
}

#[test]
fn the_demonstration_has_its_text(rt: HostRuntime) {
    let smallest = spec_of(&rt, rt.alloc(), 1, 1);
    assert!(rt; smallest.as_slice() == SMALLEST_SPEC.as_bytes());
    let larger = spec_of(&rt, rt.alloc(), 16, 8);
    assert!(rt; larger.starts_with(b"range V 16 tile 4\nrange O 8 tile 4\nindex V a"));
}

// From this number the generator goes on to that one, and the elements that are drawn on the way are these.
fn expect_drawn(
    rt: &impl Abort,
    alloc: Global,
    dimensions: &str,
    from: u64,
    to: u64,
    digits: &str,
) {
    let shape = shape_of(rt, alloc, dimensions);
    let array = first_form(rt, alloc, &shape, digits);
    let mut disk = MemDisk::new(alloc);
    assert!(rt; drawn(alloc, &mut disk, &shape, "A.tca", from) == Some(Ok(to)));
    expect_file(rt, &disk, "A.tca", array.as_slice());
}

#[test]
fn the_demonstration_draws_its_numbers(rt: HostRuntime) {
    let alloc = rt.alloc();
    expect_drawn(&rt, alloc, "1/1 1/1 1/1 1/1", 1, 48271, "1");
    expect_drawn(&rt, alloc, "1/1 1/1 1/1 1/1", 48271, 182605794, "4");
    expect_drawn(&rt, alloc, "1/1 1/1 1/1 1/1", 182605794, 1291394886, "6");
    expect_drawn(&rt, alloc, "1/1 1/1 1/1 1/1", 1291394886, 1914720637, "7");
    expect_drawn(&rt, alloc, "2/2 2/1", 1, 1914720637, "1 6 4 7");
}
