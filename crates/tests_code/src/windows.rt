//! Small blocks, with results by hand.
ghost use Rattle.std.specs.Prelude.{◌≡◌, ◌+◌, ◌<◌, length};
ghost use Rattle.tce_space.specs.Limits.{max_indexes};

use std::alloc::Global;
use std::process::Abort;
use tce_exec::{
    BlockLoops, LoopSequence, OperandWindows, Window, compute, grow, grow_by_products, loop_laws,
};
use tce_space::Arithmetic;
use tce_words::{HeapRoom, Room, Words};

// The loops of a product of matrices: rows, columns and what is between them.
const ROW: u8 = 4;

const COLUMN: u8 = 0;

const BETWEEN: u8 = 23;

// Matrices of 2 by 3 words and of 3 by 2, and their product.
const LEFT: Window = Window {
    first: 0,
    steps: [
        0, 0, 0, 0, 3, 0, 0, 0, 0, 0, 0, 0, 0, 0, 0, 0, 0, 0, 0, 0, 0, 0, 0, 1,
    ],
};

const RIGHT: Window = Window {
    first: 6,
    steps: [
        1, 0, 0, 0, 0, 0, 0, 0, 0, 0, 0, 0, 0, 0, 0, 0, 0, 0, 0, 0, 0, 0, 0, 2,
    ],
};

const PRODUCT: Window = Window {
    first: 12,
    steps: [
        1, 0, 0, 0, 2, 0, 0, 0, 0, 0, 0, 0, 0, 0, 0, 0, 0, 0, 0, 0, 0, 0, 0, 0,
    ],
};

// Sums of rows, and the last product in each row.
const SUMS: Window = Window {
    first: 16,
    steps: [
        0, 0, 0, 0, 1, 0, 0, 0, 0, 0, 0, 0, 0, 0, 0, 0, 0, 0, 0, 0, 0, 0, 0, 0,
    ],
};

const LAST: Window = Window {
    first: 18,
    steps: [
        0, 0, 0, 0, 1, 0, 0, 0, 0, 0, 0, 0, 0, 0, 0, 0, 0, 0, 0, 0, 0, 0, 0, 0,
    ],
};

// The differences of the rows of the first matrix.
const SECOND_ROW: Window = Window {
    first: 3,
    steps: [
        0, 0, 0, 0, 0, 0, 0, 0, 0, 0, 0, 0, 0, 0, 0, 0, 0, 0, 0, 0, 0, 0, 0, 1,
    ],
};

const DIFFERENCES: Window = Window {
    first: 20,
    steps: [
        0, 0, 0, 0, 0, 0, 0, 0, 0, 0, 0, 0, 0, 0, 0, 0, 0, 0, 0, 0, 0, 0, 0, 1,
    ],
};

// The words at the front of a block of 24.
fn block_of(rt: &impl Abort, alloc: Global, from: &[u64; 12]) -> Words
    ensures { length result ≡ max_indexes }
{
    let mut words = room_of_24(rt, alloc);
    for k in 0..12usize {
        words.put(k as u64, from[k]);
    }
    words
}

fn room_of_24(rt: &impl Abort, alloc: Global) -> Words
    ensures { length result ≡ max_indexes }
{
    match HeapRoom::new(alloc).take(24, 0) {
        Ok(words) => words,
        Err(_) => panic!(rt; "no memory"),
    }
}

fn expect_words(rt: &impl Abort, words: &Words, from: u64, expected: &[u64])
    requires length { length words.now ≡ max_indexes }
    requires within { from + length expected.now < 25 }
{
    for k in 0..expected.len() {
        assert!(rt; words.get(from + k as u64) == expected[k]);
    }
}

// Twice the product of the matrices, with its loops in two sequences.
fn multiply(words: &mut Words)
    requires { length words.old ≡ max_indexes }
    ensures { length words.new ≡ max_indexes }
{
    let mut sequence = LoopSequence::of(
        &[ROW, COLUMN, BETWEEN],
        &[1, 1, 9],
        &PRODUCT,
        &LEFT,
        &RIGHT,
    );
    let loops = BlockLoops {
        indexes: &[ROW, COLUMN, BETWEEN],
        lens: &[2, 2, 3],
    };
    let operands = OperandWindows {
        left: &LEFT,
        right: &RIGHT,
    };
    grow_by_products(words, &mut sequence, &loops, &PRODUCT, &operands);
    let mut other = LoopSequence::of(&[BETWEEN, ROW, COLUMN], &[3, 2, 2], &PRODUCT, &LEFT, &RIGHT);
    let turned = BlockLoops {
        indexes: &[BETWEEN, ROW, COLUMN],
        lens: &[3, 2, 2],
    };
    grow_by_products(words, &mut other, &turned, &PRODUCT, &operands);
}

// The sums of the rows of the first matrix, and its first word once more.
fn sum_rows(words: &mut Words)
    requires { length words.old ≡ max_indexes }
    ensures { length words.new ≡ max_indexes }
{
    let mut sequence = LoopSequence::of(&[BETWEEN, ROW], &[3, 2], &SUMS, &LEFT, &LEFT);
    let loops = BlockLoops {
        indexes: &[BETWEEN, ROW],
        lens: &[3, 2],
    };
    grow(words, &mut sequence, &loops, &SUMS, &LEFT);
    let mut none = LoopSequence::of(&[], &[], &SUMS, &LEFT, &LEFT);
    let no_loops = BlockLoops {
        indexes: &[],
        lens: &[],
    };
    grow(words, &mut none, &no_loops, &SUMS, &LEFT);
}

// The last products in the rows, and the differences of the rows.
fn put_results(words: &mut Words)
    requires { length words.old ≡ max_indexes }
    ensures { length words.new ≡ max_indexes }
{
    let mut sequence = LoopSequence::of(&[BETWEEN, ROW], &[3, 2], &LAST, &LEFT, &RIGHT);
    let loops = BlockLoops {
        indexes: &[BETWEEN, ROW],
        lens: &[3, 2],
    };
    let factors = OperandWindows {
        left: &LEFT,
        right: &RIGHT,
    };
    compute(
        words,
        Arithmetic::Multiply,
        &mut sequence,
        &loops,
        &LAST,
        &factors,
    );
    let mut alone = LoopSequence::of(&[BETWEEN], &[3], &DIFFERENCES, &SECOND_ROW, &LEFT);
    let along = BlockLoops {
        indexes: &[BETWEEN],
        lens: &[3],
    };
    let rows = OperandWindows {
        left: &SECOND_ROW,
        right: &LEFT,
    };
    compute(
        words,
        Arithmetic::Subtract,
        &mut alone,
        &along,
        &DIFFERENCES,
        &rows,
    );
}

#[test]
fn blocks_run(rt: HostRuntime) {
    let mut words = block_of(&rt, rt.alloc(), &[1, 2, 3, 4, 5, 6, 7, 8, 9, 10, 11, 12]);
    multiply(&mut words);
    expect_words(&rt, &words, 12, &[2 * 58, 2 * 64, 2 * 139, 2 * 154]);
    sum_rows(&mut words);
    expect_words(&rt, &words, 16, &[6 + 1, 15]);
    put_results(&mut words);
    expect_words(&rt, &words, 18, &[3 * 11, 6 * 11]);
    expect_words(&rt, &words, 20, &[3, 3, 3, 0]);
    expect_words(&rt, &words, 0, &[1, 2, 3, 4, 5, 6, 7, 8, 9, 10, 11, 12]);
}

#[test]
fn laws_of_windows() {
    loop_laws::coordinates_are_turns();
    loop_laws::turns_are_within();
    loop_laws::turns_are_apart();
    loop_laws::others_stay();
    loop_laws::turns_grow();
    loop_laws::turns_set();
    loop_laws::parts_are_within();
    loop_laws::parts_are_apart();
    loop_laws::grow_leaves();
    loop_laws::products_leave();
    loop_laws::compute_leaves();
}
