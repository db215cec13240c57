ghost use Rattle.std.specs.Prelude.{◌≡◌, ◌<◌, length, Some, None};
ghost use Rattle.tce_cache.specs.Held.{Held, look_up};

use tce_cache::Table;

// Makes a tile the one used last, as a cache does, and answers its frame.
fn use_tile(table: &mut Table, array: u8, tile: u64, mark: bool) -> usize
    requires array { array < table.old.arrays }
    requires frames { 0 < table.old.frames }
    ensures { (table.new.frames ≡ table.old.frames) × (table.new.arrays ≡ table.old.arrays) }
{
    match table.find(array, tile) {
        Some(frame) => {
            table.touch(frame, mark);
            frame
        }
        None => {
            let frame = take_frame(table, array, tile);
            table.touch(frame, mark);
            frame
        }
    }
}

// Puts a tile that is not held into a free frame, or in the place of the tile used least recently.
fn take_frame(table: &mut Table, array: u8, tile: u64) -> usize
    requires array { array < table.old.arrays }
    requires frames { 0 < table.old.frames }
    requires absent { look_up table.old.held array tile ≡ None }
    ensures same { (table.new.frames ≡ table.old.frames) × (table.new.arrays ≡ table.old.arrays) }
    ensures front { (h : Held) × (look_up table.new.held h.array h.tile ≡ Some h) × (h.frame ≡ result) }
{
    if table.len() < table.frames() {
        table.hold(array, tile, false)
    } else {
        let oldest = table.oldest();
        let _last = table.frame(oldest);
        table.replace(oldest, array, tile, false);
        oldest
    }
}

// Puts a tile of the last array in the place of the one used least recently, and answers the array, the tile and the
// mark of that one.
fn give_up(table: &mut Table, tile: u64) -> Option<(u8, u64, bool)>
    requires { 2 < table.old.arrays }
    ensures { (table.new.frames ≡ table.old.frames) × (table.new.arrays ≡ table.old.arrays) }
{
    if table.len() == 0 {
        return None;
    }
    let oldest = table.oldest();
    let held = table.frame(oldest);
    match table.find(2, tile) {
        Some(_) => None,
        None => {
            table.replace(oldest, 2, tile, false);
            Some((held.array, held.tile, held.marked))
        }
    }
}

// Each use has an array, a tile and whether it marks; so has each tile that is held afterwards, the one used last first.
#[derive(Drop)]
struct Row<'a> {
    frames: usize,
    uses: &'a [(u8, u64, bool)],
    held: &'a [(u8, u64, bool)],
}

#[test]
fn tiles_are_held_in_the_order_of_their_last_use(rt: HostRuntime) {
    let rows = [
        // The fifth tile comes into the frame of the one used least recently.
        Row {
            frames: 4,
            uses: &[
                (0, 0, false),
                (0, 1, false),
                (0, 2, false),
                (0, 3, false),
                (0, 0, false),
                (0, 4, false),
            ],
            held: &[(0, 4, false), (0, 0, false), (0, 3, false), (0, 2, false)],
        },
        // Not all frames are in use.
        Row {
            frames: 5,
            uses: &[(0, 7, false), (1, 7, true), (0, 7, false)],
            held: &[(0, 7, false), (1, 7, true)],
        },
        // A mark stays, and goes with the tile that is given up.
        Row {
            frames: 3,
            uses: &[
                (1, 0, true),
                (1, 1, true),
                (1, 0, false),
                (0, 0, false),
                (0, 1, false),
                (1, 1, false),
            ],
            held: &[(1, 1, false), (0, 1, false), (0, 0, false)],
        },
        // Tiles of equal numbers of different arrays are different tiles.
        Row {
            frames: 2,
            uses: &[(0, 3, false), (1, 3, false), (0, 3, true), (1, 2, false)],
            held: &[(1, 2, false), (0, 3, true)],
        },
        // One frame.
        Row {
            frames: 1,
            uses: &[(0, 0, true), (0, 1, false), (0, 0, false)],
            held: &[(0, 0, false)],
        },
    ];
    for (number, row) in rows.iter().enumerate() {
        // A small number of tiles, and one that is larger than the number of buckets.
        for tiles in [[2, 2, 8], [1 << 40, 9, 1 << 50]] {
            let frames = row.frames;
            assert!(rt; 0 < frames);
            assert!(rt; frames < 10);
            let Ok(mut table) = Table::new(rt.alloc(), frames, &tiles) else {
                panic!(rt; "no memory at row {number}");
            };
            for (array, tile, mark) in row.uses {
                assert!(rt; *array < 3);
                let frame = use_tile(&mut table, *array, *tile, *mark);
                assert!(rt; table.find(*array, *tile) == Some(frame), "at row {number}");
            }
            assert!(rt; table.len() == row.held.len(), "at row {number}");
            // Other tiles take the place of the held ones, the one used last at last.
            for (place, tile) in row.held.iter().rev().enumerate() {
                assert!(rt;
                    give_up(&mut table, place as u64) == Some(*tile),
                    "at row {number}"
                );
            }
            drop(table);
        }
    }
}
