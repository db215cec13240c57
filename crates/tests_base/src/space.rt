use crate::given::{add_index, add_range, expect_index, expect_range, new_space};
use arrayvec::ArrayVec;
use std::alloc::Global;
use std::process::Abort;
use tce_space::*;

// A range `V` of 3000 in tiles of 10 with the indexes `a` and `b`, and a range `O` of 100 with the index `i`.
fn worked_space(rt: &impl Abort, alloc: Global) -> Space {
    let mut space = new_space(rt, alloc);
    expect_range(rt, &mut space, "V", (3000, 10), 0);
    expect_range(rt, &mut space, "O", (100, 1), 1);
    expect_index(rt, &mut space, "a", 0, 0);
    expect_index(rt, &mut space, "i", 1, 1);
    expect_index(rt, &mut space, "b", 0, 2);
    space
}

fn expect_set(rt: &impl Abort, set: IndexSet, bits: u32, count: u8) {
    assert!(rt; set.bits() == bits);
    assert!(rt; set.count() == count);
}

fn expect_within(rt: &impl Abort, inner: IndexSet, outer: IndexSet, is: bool) {
    assert!(rt; inner.within(outer) == is);
}

#[test]
fn sets_are_those_of_their_names(rt: HostRuntime) {
    let a = IndexSet::empty().with(0).with(3).with(23);
    let b = IndexSet::of_bits(24);
    expect_set(&rt, IndexSet::default(), 0, 0);
    expect_set(&rt, a, 8388617, 3);
    expect_set(&rt, a.union(b), 8388633, 4);
    expect_set(&rt, a.meet(b), 8, 1);
    expect_set(&rt, a.minus(b), 8388609, 2);
    expect_set(&rt, IndexSet::of_list(&[23, 0, 3, 0]), 8388617, 3);
    expect_within(&rt, a.meet(b), a, true);
    expect_within(&rt, a, a, true);
    expect_within(&rt, a, b, false);
    expect_within(&rt, a.union(b), a, false);
    assert!(rt; (a.has(22), a.has(23)) == (false, true));
}

fn expect_word(rt: &impl Abort, text: &str, is: bool) {
    assert!(rt; is_name(text.as_bytes()) == is, "at {text}");
}

#[test]
fn names_are_words_but_no_keywords(rt: HostRuntime) {
    for text in "N|a23456789_ABCDEF|Range|sums".split('|') {
        expect_word(&rt, text, true);
    }
    for text in "a23456789_ABCDEFG|sum|2A|_a|a b|".split('|') {
        expect_word(&rt, text, false);
    }
}

// A range or an index whose name is taken is refused.
fn expect_twice(rt: &impl Abort, space: &mut Space, range: &str, index: &str) {
    assert!(rt; add_range(rt, space, range, (5, 5)) == Err(SpaceFault::NameTwice));
    assert!(rt; add_index(rt, space, index, 0) == Err(SpaceFault::NameTwice));
}

fn expect_range_named(rt: &impl Abort, space: &Space, text: &str, number: Option<u8>) {
    assert!(rt; space.range_named(text) == number, "{text}");
}

fn expect_index_named(rt: &impl Abort, space: &Space, text: &str, number: Option<u8>) {
    assert!(rt; space.index_named(text) == number, "{text}");
}

fn expect_range_kept(rt: &impl Abort, space: &Space, range: u8, text: &str, size: (u64, u64)) {
    assert!(rt; range < space.range_count());
    assert!(rt; space.range_name(range).as_str() == text);
    assert!(rt;
        (space.range_extent(range), space.range_edge(range)) == size,
        "{text}"
    );
}

fn expect_index_kept(rt: &impl Abort, space: &Space, index: u8, text: &str, range: u8) {
    assert!(rt; index < space.index_count());
    assert!(rt; space.index_name(index).as_str() == text);
    assert!(rt; space.range_of(index) == range, "{text}");
}

fn expect_size_kept(rt: &impl Abort, space: &Space, index: u8, size: (u64, u64)) {
    assert!(rt; index < space.index_count());
    assert!(rt; (space.extent(index), space.edge(index)) == size);
}

fn expect_counts(rt: &impl Abort, space: &Space, ranges: u8, indexes: u8) {
    assert!(rt; space.range_count() == ranges);
    assert!(rt; space.index_count() == indexes);
}

#[test]
fn spaces_keep_what_was_declared(rt: HostRuntime) {
    let mut space = worked_space(&rt, rt.alloc());
    expect_twice(&rt, &mut space, "V", "i");
    expect_index(&rt, &mut space, "V", 1, 3);
    expect_counts(&rt, &space, 2, 4);
    expect_range_named(&rt, &space, "O", Some(1));
    expect_range_named(&rt, &space, "a", None);
    expect_index_named(&rt, &space, "V", Some(3));
    expect_index_named(&rt, &space, "a name that is too long", None);
    drop(space);
}

#[test]
fn spaces_keep_names_and_sizes(rt: HostRuntime) {
    let mut space = worked_space(&rt, rt.alloc());
    expect_index(&rt, &mut space, "V", 1, 3);
    expect_range_kept(&rt, &space, 0, "V", (3000, 10));
    expect_range_kept(&rt, &space, 1, "O", (100, 1));
    expect_index_kept(&rt, &space, 1, "i", 1);
    expect_index_kept(&rt, &space, 3, "V", 1);
    expect_size_kept(&rt, &space, 3, (100, 1));
    expect_size_kept(&rt, &space, 2, (3000, 10));
    drop(space);
}

const LETTERS: &str = "a b c d e f g h i j k l m n o p q r s t u v w x y";

// What the declaration with this number answers, where so many have room.
fn due(number: usize, most: u8) -> Result<u8, SpaceFault> {
    if number < most as usize {
        Ok(number as u8)
    } else {
        Err(SpaceFault::Full)
    }
}

fn fill_ranges(rt: &impl Abort, space: &mut Space) {
    for (k, letter) in LETTERS.split(' ').enumerate() {
        assert!(rt;
            add_range(rt, space, letter, (7, 2)) == due(k, 16),
            "at {k}"
        );
    }
}

fn fill_indexes(rt: &impl Abort, space: &mut Space) {
    for (k, letter) in LETTERS.split(' ').enumerate() {
        assert!(rt; add_index(rt, space, letter, 15) == due(k, 24), "at {k}");
    }
}

#[test]
fn lists_of_declarations_are_limited(rt: HostRuntime) {
    let mut space = new_space(&rt, rt.alloc());
    fill_ranges(&rt, &mut space);
    fill_indexes(&rt, &mut space);
    expect_twice(&rt, &mut space, "a", "x");
    drop(space);
}

// The volume of a set of the first four indexes.
fn volume_of(rt: &impl Abort, space: &Space, bits: u32) -> Option<u128> {
    assert!(rt; bits < 16);
    assert!(rt; space.index_count() == 4);
    space.volume(IndexSet::of_bits(bits))
}

fn expect_volume(rt: &impl Abort, space: &Space, bits: u32, volume: Option<u128>) {
    assert!(rt; volume_of(rt, space, bits) == volume, "at {bits}");
}

// The indexes a, b and c of extent 2 ^ 30, and i of extent 2.
fn vast_space(rt: &impl Abort, alloc: Global) -> Space {
    let mut space = new_space(rt, alloc);
    expect_range(rt, &mut space, "V", (1 << 30, 1), 0);
    expect_range(rt, &mut space, "O", (2, 1), 1);
    expect_index(rt, &mut space, "a", 0, 0);
    expect_index(rt, &mut space, "b", 0, 1);
    expect_index(rt, &mut space, "c", 0, 2);
    expect_index(rt, &mut space, "i", 1, 3);
    space
}

#[test]
fn volumes_end_at_their_limit(rt: HostRuntime) {
    let space = vast_space(&rt, rt.alloc());
    expect_volume(&rt, &space, 0, Some(1));
    expect_volume(&rt, &space, 8, Some(2));
    expect_volume(&rt, &space, 11, Some(2 << 60));
    expect_volume(&rt, &space, 7, Some(1 << 90));
    expect_volume(&rt, &space, 15, None);
    drop(space);
}

// The shape of two dimensions, each by its extent and edge.
fn shape_of_two(
    rt: &impl Abort,
    alloc: Global,
    first: (u64, u64),
    second: (u64, u64),
) -> Result<Shape, ShapeFault> {
    let mut space = new_space(rt, alloc);
    expect_range(rt, &mut space, "V", first, 0);
    expect_range(rt, &mut space, "O", second, 1);
    assert!(rt; space.range_count() == 2);
    let mut ranges = ArrayVec::new();
    ranges.push(0);
    ranges.push(1);
    let shape = space.shape(&ranges);
    drop(space);
    shape
}

// The words of a tile, the tiles, the words with the padding, the elements, and the bytes of a file.
fn numbers_of(shape: &Shape) -> [u64; 5] {
    [
        shape.tile_words(),
        shape.tiles(),
        shape.padded_words(),
        shape.elements(),
        shape.file_len(),
    ]
}

// The shape has these numbers, and a copy has its edges.
fn expect_shape(
    rt: &impl Abort,
    alloc: Global,
    first: (u64, u64),
    second: (u64, u64),
    numbers: [u64; 5],
) {
    match shape_of_two(rt, alloc, first, second) {
        Ok(shape) => {
            assert!(rt; numbers_of(&shape) == numbers);
            expect_dimensions(rt, &shape, &[first.0, second.0], &[first.1, second.1]);
        }
        Err(_) => panic!(rt; "no shape"),
    }
}

fn expect_dimensions(rt: &impl Abort, shape: &Shape, extents: &[u64], edges: &[u64]) {
    assert!(rt; shape.extents() == extents);
    match shape.clone() {
        Ok(clone) => assert!(rt; clone.edges() == edges),
        Err(_) => panic!(rt; "no memory"),
    }
}

fn expect_no_shape(
    rt: &impl Abort,
    alloc: Global,
    first: (u64, u64),
    second: (u64, u64),
    fault: ShapeFault,
) {
    match shape_of_two(rt, alloc, first, second) {
        Ok(_) => panic!(rt; "a shape"),
        Err(found) => assert!(rt; found == fault),
    }
}

const HALF: u64 = 1 << 24;

#[test]
fn shapes_have_the_numbers_of_their_files(rt: HostRuntime) {
    let alloc = rt.alloc();
    expect_shape(&rt, alloc, (5, 1), (7, 1), [1, 35, 35, 35, 328]);
    expect_shape(&rt, alloc, (5, 2), (4, 3), [6, 6, 36, 20, 336]);
    let numbers = [1 << 20, 1024, 1 << 30, 1 << 30, (8 << 30) + 48];
    expect_shape(&rt, alloc, (1 << 20, 1024), (1024, 1024), numbers);
    let numbers = [1, 1 << 48, 1 << 48, 1 << 48, (8 << 48) + 48];
    expect_shape(&rt, alloc, (HALF, 1), (HALF, 1), numbers);
}

#[test]
fn shapes_are_limited(rt: HostRuntime) {
    let alloc = rt.alloc();
    let (long, whole) = ((1 << 20, 1025), (1 << 31, 1 << 31));
    expect_no_shape(&rt, alloc, long, (1024, 1024), ShapeFault::TileWords);
    expect_no_shape(&rt, alloc, (HALF + 1, 1), (HALF, 1), ShapeFault::ArrayWords);
    expect_no_shape(&rt, alloc, (HALF, 3), (HALF, 1), ShapeFault::ArrayWords);
    expect_no_shape(&rt, alloc, whole, whole, ShapeFault::TileWords);
}

#[test]
fn a_scalar_has_one_element(rt: HostRuntime) {
    let scalar = Shape::default();
    assert!(rt; numbers_of(&scalar) == [1, 1, 1, 1, 24]);
}

#[test]
fn places_are_row_major(rt: HostRuntime) {
    assert!(rt; place(&[], &[]) == 0);
    assert!(rt; place(&[2, 3], &[1, 0]) == 3);
    assert!(rt; place(&[4, 3, 5], &[3, 1, 2]) == 52);
}
