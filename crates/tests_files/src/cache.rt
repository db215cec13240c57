mod plain;
mod trial;
mod untold;

use plain::Plain;
use std::alloc::Global;
use std::test::Fail;
use trial::{NAMES, Trial, file_bytes};

// Whether the cache holds the tiles of the list.
fn holds_the_same(trial: &Trial, plain: &Plain) -> bool {
    for array in 0..3 {
        for tile in 0..12 {
            if trial.holds(array, tile) != plain.holds(array, tile) {
                return false;
            }
        }
    }
    true
}

// Touches a tile of the cache and of the list, and answers whether the cache did what the list says.
fn touch_both(trial: &mut Trial, plain: &mut Plain, array: u8, tile: u64, word: u64) -> bool {
    let write = 0 < word;
    if plain.touch(array, tile, write).is_err() {
        return false;
    }
    let Some(at) = trial.touch(array, tile, write) else {
        return false;
    };
    if !trial.shows(array, tile, at) {
        return false;
    }
    if write {
        trial.write(tile, at, word);
    }
    holds_the_same(trial, plain)
}

// Three arrays by their extents and edges, a number of frames, and touches, each with the word that is written first
// into the tile, or 0 where it is only read. A tile of any of the arrays is read in so many pieces and written in one, and all
// touches and a flush take so many calls of the disk.
#[derive(Drop)]
struct Row<'a> {
    sizes: &'a [(u64, u64); 3],
    frames: u64,
    frame_words: u64,
    pieces: u64,
    calls: u64,
    touches: &'a [(u8, u64, u64)],
}

const MIXED: [(u8, u64, u64); 19] = [
    (2, 0, 70),
    (0, 0, 0),
    (1, 0, 0),
    (2, 0, 0),
    (2, 1, 80),
    (0, 2, 0),
    (2, 0, 0),
    (2, 3, 90),
    (2, 3, 95),
    (1, 2, 0),
    (1, 3, 0),
    (2, 1, 0),
    (0, 0, 0),
    (2, 2, 0),
    (0, 1, 0),
    (1, 0, 0),
    (2, 3, 0),
    (2, 0, 40),
    (0, 2, 0),
];

const ROWS: [Row<'static>; 3] = [
    Row {
        sizes: &[(9, 3), (4, 1), (7, 2)],
        frames: 3,
        frame_words: 3,
        pieces: 1,
        calls: 20,
        touches: &MIXED,
    },
    // As many frames as tiles.
    Row {
        sizes: &[(9, 3), (4, 1), (7, 2)],
        frames: 11,
        frame_words: 4,
        pieces: 1,
        calls: 13,
        touches: &MIXED,
    },
    Row {
        sizes: &[(12600, 4200), (16400, 4100), (16800, 4300)],
        frames: 4,
        frame_words: 4300,
        pieces: 2,
        calls: 36,
        touches: &MIXED,
    },
];

fn trial_of(alloc: Global, row: &Row, failing: Vec<u64>) -> Option<Trial> {
    Trial::new(alloc, row.sizes, row.frames, row.frame_words, failing)
}

// Whether a cache did all that a list does, and how many calls of the disk it took.
fn calls_as_listed(alloc: Global, row: &Row) -> Option<u64> {
    let mut trial = trial_of(alloc, row, Vec::new(alloc))?;
    let mut plain = Plain::new(alloc, row.frames as usize);
    let calls = calls_alike(alloc, row, &mut trial, &mut plain);
    drop(plain);
    drop(trial);
    calls
}

// The same for this cache and this list.
fn calls_alike(alloc: Global, row: &Row, trial: &mut Trial, plain: &mut Plain) -> Option<u64> {
    for (array, tile, word) in row.touches {
        if !touch_both(trial, plain, *array, *tile, *word) {
            return None;
        }
    }
    if !trial.flush() || !holds_the_same(trial, plain) {
        return None;
    }
    plain.flush();
    if !trial.is_written(alloc) || !trial.others_are_same(alloc) {
        return None;
    }
    let [faults, reads, writes] = trial.disk.counts();
    let [tiles_read, tiles_written] = plain.counts();
    if faults != 0 || reads != tiles_read.wrapping_mul(row.pieces) || writes != tiles_written {
        return None;
    }
    Some(reads.wrapping_add(writes))
}

#[test]
fn a_cache_does_what_a_list_does(rt: HostRuntime) {
    for (number, row) in ROWS.iter().enumerate() {
        let calls = calls_as_listed(rt.alloc(), row);
        assert!(rt; calls == Some(row.calls), "row {number}");
    }
}

// The touches of a row, and then a flush. Answers whether all went well.
fn all_touches(trial: &mut Trial, touches: &[(u8, u64, u64)]) -> bool {
    for (array, tile, word) in touches {
        match trial.touch(*array, *tile, 0 < *word) {
            Some(at) => {
                if 0 < *word {
                    trial.write(*tile, at, *word);
                }
            }
            None => return false,
        }
    }
    trial.flush()
}

// Whether the call of the disk with this number fails a touch or the flush, and no file but that of the array that may
// be written is changed by then.
fn fails_at(alloc: Global, row: &Row, call: u64) -> Option<bool> {
    let Ok(failing) = vec![in alloc; call; 1] else {
        return None;
    };
    let mut trial = trial_of(alloc, row, failing)?;
    let failed = !all_touches(&mut trial, row.touches);
    let [faults, _reads, _writes] = trial.disk.counts();
    let is_told = faults == u64::from(failed) && trial.others_are_same(alloc);
    drop(trial);
    if is_told { Some(failed) } else { None }
}

#[test]
fn each_failure_of_the_disk_is_passed_on(rt: HostRuntime) {
    for (number, row) in ROWS.iter().enumerate() {
        let calls = row.calls;
        for call in 0..calls {
            assert!(rt;
                fails_at(rt.alloc(), row, call) == Some(true),
                "call {call} of row {number}"
            );
        }
        assert!(rt;
            fails_at(rt.alloc(), row, calls) == Some(false),
            "row {number}"
        );
    }
}

// How many calls write the tiles of an array of five, each of one word, after these touches and a flush. No tile is
// given up before.
fn writes_of(alloc: Global, frame_words: u64, touches: &[(u8, u64, u64)]) -> Option<u64> {
    let sizes = [(1, 1), (1, 1), (5, 1)];
    let mut trial = Trial::new(alloc, &sizes, 6, frame_words, Vec::new(alloc))?;
    let is_done = all_touches(&mut trial, touches);
    let is_written = is_done && trial.is_written(alloc) && trial.others_are_same(alloc);
    let [_faults, _reads, writes] = trial.disk.counts();
    drop(trial);
    if is_written { Some(writes) } else { None }
}

const IN_ORDER: [(u8, u64, u64); 5] = [(2, 0, 10), (2, 1, 20), (2, 2, 30), (2, 3, 40), (2, 4, 50)];

// The third one is only read.
const ONE_IS_READ: [(u8, u64, u64); 5] = [
    (2, 0, 10),
    (2, 1, 20),
    (2, 2, 0),
    (2, 3, 40),
    (2, 4, 50),
];

// The third one is another array's.
const ANOTHER_BETWEEN: [(u8, u64, u64); 5] = [
    (2, 0, 10),
    (2, 1, 20),
    (0, 0, 0),
    (2, 2, 40),
    (2, 3, 50),
];

const OUT_OF_ORDER: [(u8, u64, u64); 5] = [
    (2, 4, 10),
    (2, 1, 20),
    (2, 2, 30),
    (2, 3, 40),
    (2, 0, 50),
];

#[test]
fn tiles_that_follow_one_another_are_written_in_one_call(rt: HostRuntime) {
    assert!(rt; writes_of(rt.alloc(), 1, &IN_ORDER) == Some(1));
    assert!(rt; writes_of(rt.alloc(), 1, &ONE_IS_READ) == Some(2));
    assert!(rt; writes_of(rt.alloc(), 1, &ANOTHER_BETWEEN) == Some(2));
    assert!(rt; writes_of(rt.alloc(), 1, &OUT_OF_ORDER) == Some(3));
    // The tiles do not fill their frames.
    assert!(rt; writes_of(rt.alloc(), 2, &IN_ORDER) == Some(5));
}

// Touches tiles of the last array of a cache with four frames.
fn four_frames(alloc: Global, tiles: &[u64]) -> Option<Trial> {
    let sizes = [(1, 1), (1, 1), (5, 1)];
    let mut trial = Trial::new(alloc, &sizes, 4, 1, Vec::new(alloc))?;
    for tile in tiles {
        trial.touch(2, *tile, false)?;
    }
    Some(trial)
}

fn held_of_five(trial: &Trial) -> [bool; 5] {
    [
        trial.holds(2, 0),
        trial.holds(2, 1),
        trial.holds(2, 2),
        trial.holds(2, 3),
        trial.holds(2, 4),
    ]
}

#[test]
fn the_tile_touched_least_recently_is_given_up(rt: HostRuntime) {
    let Some(mut trial) = four_frames(rt.alloc(), &[0, 1, 2, 3, 0, 4]) else {
        panic!(rt; "memory was ample");
    };
    assert!(rt; trial.touches() == 6);
    assert!(rt; held_of_five(&trial) == [true, false, true, true, true]);
    // The list is 4, 0, 3, 2.
    for (array, held) in [
        (0, [true, false, false, true, true]),
        (1, [true, false, false, false, true]),
    ] {
        assert!(rt; trial.touch(array, 0, false).is_some());
        assert!(rt; held_of_five(&trial) == held);
    }
    drop(trial);
}
