//! Windows, worked by hand.
ghost use Rattle.std.specs.Prelude.{◌≡◌, IsTrue, replicate, slice_set};
ghost use Rattle.tce_space.specs.Box.{IsInside};

use crate::given::new_space;
use arrayvec::ArrayVec;
use std::alloc::Global;
use std::process::Abort;
use tce_exec::{
    Window, blocks_stay_in_tiles, changes_keep_cells, coordinates_of, slot_window,
    slots_show_nodes, slots_show_words, tile_window, tiles_show_nodes, tiles_show_words,
    touched_tiles_stay, turns_stay_in_one_tile, windows_are_apart,
};
use tce_layout::Slot;
use tce_space::{MAX_INDEXES, Name, Numbers, Shape, Space, is_name};

// These numbers for indexes 0 and 1, and 0 for the others.
fn two(first: u64, second: u64) -> Numbers
    ensures { result ≡ slice_set (slice_set (replicate 24 0) 0 first) 1 second }
{
    let mut all = [0; MAX_INDEXES];
    all[0] = first;
    all[1] = second;
    all
}

// Whether coordinates are those of an element.
fn is_inside(extents: &[u64], coordinates: &[u64]) -> bool
    ensures { IsTrue result → IsInside extents.now coordinates.now }
{
    if extents.len() != coordinates.len() {
        return false;
    }
    for d in 0..extents.len() {
        if coordinates[d] >= extents[d] {
            return false;
        }
    }
    true
}

fn declare(rt: &impl Abort, space: &mut Space, name: &str, extent: u64, edge: u64) {
    let Ok(name) = Name::from(name) else {
        panic!(rt; "one letter is short");
    };
    assert!(rt; is_name(name.as_str().as_bytes()));
    assert!(rt; 0 < edge);
    assert!(rt; edge <= extent);
    assert!(rt; extent < 1 << 32);
    assert!(rt; space.add_range(&name, extent, edge).is_ok());
}

// Three dimensions: 5 in tiles of 4, 3 in tiles of 2, and 5 in tiles of 4 again.
fn three_dimensions(rt: &impl Abort, alloc: Global) -> Shape {
    let mut space = new_space(rt, alloc);
    declare(rt, &mut space, "I", 5, 4);
    declare(rt, &mut space, "J", 3, 2);
    assert!(rt; space.range_count() == 2);
    let mut ranges = ArrayVec::new();
    ranges.push(0);
    ranges.push(1);
    ranges.push(0);
    let Ok(shape) = space.shape(&ranges) else {
        panic!(rt; "within the limits");
    };
    drop(space);
    shape
}

#[test]
fn laws_of_windows() {
    blocks_stay_in_tiles();
    turns_stay_in_one_tile();
    slots_show_words();
    tiles_show_words();
    slots_show_nodes();
    tiles_show_nodes();
    windows_are_apart();
    changes_keep_cells();
    touched_tiles_stay();
}

// The slot from word 100 on of a node with 6 numbers of index 1 behind those of index 0: 100 + 5 * 6 + 2.
#[test]
fn slots_go_by_their_steps(rt: HostRuntime) {
    let slot = Slot {
        offset: 100,
        size: 60,
        steps: two(6, 1),
    };
    let window = slot_window(&slot, &two(5, 2));
    assert!(rt; window.first == 132);
    assert!(rt; window.steps[0] == 6);
    assert!(rt; window.steps[1] == 1);
}

fn expect_window(rt: &impl Abort, window: &Window, first: u64, steps: [u64; 3]) {
    assert!(rt; window.first == first);
    assert!(rt; window.steps[0] == steps[0]);
    assert!(rt; window.steps[1] == steps[1]);
    assert!(rt; window.steps[2] == steps[2]);
}

// The tile of `A[i, j, i]` from word 100 on.
fn expect_tile(rt: &impl Abort, shape: &Shape, i: u64, j: u64, first: u64) {
    let numbers = two(i, j);
    let coordinates = coordinates_of(&[0, 1, 0], &numbers);
    assert!(rt; is_inside(shape.extents(), coordinates.as_slice()));
    assert!(rt; shape.tile_words() < 1000);
    let window = tile_window(shape, &[0, 1, 0], &numbers, 100);
    expect_window(rt, &window, first, [9, 4, 0]);
}

// Tiles of `A[i, j, i]` from word 100 on: the number of i counts 8 words in the first dimension and 1 in the last, that of
// j 4 words; behind the edges the next tile begins.
#[test]
fn tiles_go_by_the_edges_behind(rt: HostRuntime) {
    let shape = three_dimensions(&rt, rt.alloc());
    expect_tile(&rt, &shape, 3, 1, 131);
    expect_tile(&rt, &shape, 3, 2, 127);
    expect_tile(&rt, &shape, 4, 1, 104);
}

// The one element of an array without dimensions.
#[test]
fn single_elements_have_no_steps(rt: HostRuntime) {
    let shape = Shape::default();
    assert!(rt; shape.tile_words() < 1000);
    let window = tile_window(&shape, &[], &two(5, 2), 7);
    assert!(rt; window.first == 7);
    assert!(rt; window.steps[0] == 0);
}
