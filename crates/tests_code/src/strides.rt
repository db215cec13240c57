ghost use Rattle.std.specs.Prelude.{◌≡◌, ◌<◌, length};
ghost use Rattle.tce_space.specs.Limits.{max_indexes};

use std::alloc::Global;
use std::process::Abort;
use tce_block::{Loop, SumLoop, compute, grow, grow_by_products};
use tce_space::Arithmetic;
use tce_words::{HeapRoom, Room, Words};

// The words at the front of a block of 24.
fn block_of(rt: &impl Abort, alloc: Global, from: &[u64; 12]) -> Words
    ensures { length result ≡ max_indexes }
{
    let mut words = room_of_24(rt, alloc);
    for k in 0..12usize {
        words.put(k as u64, from[k]);
    }
    words
}

fn room_of_24(rt: &impl Abort, alloc: Global) -> Words
    ensures { length result ≡ max_indexes }
{
    match HeapRoom::new(alloc).take(24, 0) {
        Ok(words) => words,
        Err(_) => panic!(rt; "no memory"),
    }
}

fn expect_word(rt: &impl Abort, words: &Words, at: u64, word: u64)
    requires length { length words.now ≡ max_indexes }
    requires at { at < max_indexes }
{
    assert!(rt; words.get(at) == word);
}

// A product of the matrices of 2 by 3 words at 0 and of 3 by 2 at 6, to the words at 12.
fn multiply(words: &mut Words)
    requires { length words.old ≡ max_indexes }
    ensures { length words.new ≡ max_indexes }
{
    let row = Loop {
        len: 2,
        out: 2,
        left: 3,
        right: 0,
    };
    let column = Loop {
        len: 2,
        out: 1,
        left: 0,
        right: 1,
    };
    let between = Loop {
        len: 3,
        out: 0,
        left: 1,
        right: 2,
    };
    grow_by_products(words, &[row, column, between], 12, 0, 6);
    grow_by_products(words, &[between, row, column], 12, 0, 6);
}

#[test]
fn matrices_are_multiplied(rt: HostRuntime) {
    let mut words = block_of(&rt, rt.alloc(), &[1, 2, 3, 4, 5, 6, 7, 8, 9, 10, 11, 12]);
    multiply(&mut words);
    expect_word(&rt, &words, 12, 2 * 58);
    expect_word(&rt, &words, 13, 2 * 64);
    expect_word(&rt, &words, 14, 2 * 139);
    expect_word(&rt, &words, 15, 2 * 154);
    expect_word(&rt, &words, 16, 0);
}

// The sums of the rows of 3 words and of their diagonal.
fn sum_rows(words: &mut Words)
    requires { length words.old ≡ max_indexes }
    ensures { length words.new ≡ max_indexes }
{
    let row = SumLoop {
        len: 3,
        out: 1,
        operand: 3,
    };
    let column = SumLoop {
        len: 3,
        out: 0,
        operand: 1,
    };
    let diagonal = SumLoop {
        len: 3,
        out: 0,
        operand: 4,
    };
    grow(words, &[row, column], 12, 0);
    grow(words, &[column, row], 12, 0);
    grow(words, &[diagonal], 20, 0);
    grow(words, &[], 21, 1);
}

#[test]
fn rows_and_a_diagonal_are_summed(rt: HostRuntime) {
    let mut words = block_of(&rt, rt.alloc(), &[1, 2, 3, 4, 5, 6, 7, 8, 9, 10, 11, 12]);
    sum_rows(&mut words);
    expect_word(&rt, &words, 12, 2 * 6);
    expect_word(&rt, &words, 13, 2 * 15);
    expect_word(&rt, &words, 14, 2 * 24);
    expect_word(&rt, &words, 20, 15);
    expect_word(&rt, &words, 21, 2);
}

// The words at 3 less those at 0, both operations' other results, and the last product of both rows.
fn join_rows(words: &mut Words)
    requires { length words.old ≡ max_indexes }
    ensures { length words.new ≡ max_indexes }
{
    let along = Loop {
        len: 3,
        out: 1,
        left: 1,
        right: 1,
    };
    let still = Loop {
        len: 3,
        out: 0,
        left: 1,
        right: 1,
    };
    compute(words, Arithmetic::Subtract, &[along], 12, 3, 0);
    compute(words, Arithmetic::Add, &[along], 15, 3, 0);
    compute(words, Arithmetic::Multiply, &[along], 18, 3, 0);
    compute(words, Arithmetic::Multiply, &[still], 21, 3, 0);
    compute(words, Arithmetic::Subtract, &[], 22, 0, 1);
}

#[test]
fn rows_are_joined(rt: HostRuntime) {
    let mut words = block_of(&rt, rt.alloc(), &[1, 7, 4, 5, 2, 9, 0, 0, 0, 0, 0, 0]);
    join_rows(&mut words);
    expect_word(&rt, &words, 12, 4);
    expect_word(&rt, &words, 13, u64::MAX - 4);
    expect_word(&rt, &words, 14, 5);
    expect_word(&rt, &words, 15, 6);
    expect_word(&rt, &words, 16, 9);
    expect_word(&rt, &words, 17, 13);
    expect_word(&rt, &words, 18, 5);
    expect_word(&rt, &words, 19, 14);
    expect_word(&rt, &words, 20, 36);
    expect_word(&rt, &words, 21, 36);
    expect_word(&rt, &words, 22, u64::MAX - 5);
}

// Loops of eight turns: the ninth word's products with the first eight are added, the sum of their squares, and the last
// square is put.
fn run_along(words: &mut Words)
    requires { length words.old ≡ max_indexes }
    ensures { length words.new ≡ max_indexes }
{
    let along = Loop {
        len: 8,
        out: 1,
        left: 1,
        right: 0,
    };
    let still = Loop {
        len: 8,
        out: 0,
        left: 1,
        right: 1,
    };
    grow_by_products(words, &[along], 12, 0, 8);
    grow_by_products(words, &[still], 20, 0, 0);
    compute(words, Arithmetic::Multiply, &[still], 21, 0, 0);
}

#[test]
fn long_loops_run(rt: HostRuntime) {
    let mut words = block_of(&rt, rt.alloc(), &[1, 2, 3, 4, 5, 6, 7, 8, 9, 0, 0, 0]);
    run_along(&mut words);
    expect_word(&rt, &words, 12, 9);
    expect_word(&rt, &words, 19, 72);
    expect_word(&rt, &words, 20, 204);
    expect_word(&rt, &words, 21, 64);
}

// Five rows of eight words, each a word further than the one before, are added with one factor each: first those of the
// right operand, then those of the left one.
fn add_rows(words: &mut Words)
    requires { length words.old ≡ max_indexes }
    ensures { length words.new ≡ max_indexes }
{
    let row = Loop {
        len: 5,
        out: 0,
        left: 1,
        right: 1,
    };
    let along_right = Loop {
        len: 8,
        out: 1,
        left: 0,
        right: 1,
    };
    let along_left = Loop {
        len: 8,
        out: 1,
        left: 1,
        right: 0,
    };
    grow_by_products(words, &[row, along_right], 12, 0, 0);
    grow_by_products(words, &[row, along_left], 12, 0, 0);
}

#[test]
fn rows_are_added_with_their_factors(rt: HostRuntime) {
    let mut words = block_of(&rt, rt.alloc(), &[1, 2, 3, 4, 5, 6, 7, 8, 9, 10, 11, 12]);
    add_rows(&mut words);
    expect_word(&rt, &words, 12, 2 * 55);
    expect_word(&rt, &words, 13, 2 * 70);
    expect_word(&rt, &words, 16, 2 * 115);
    expect_word(&rt, &words, 19, 2 * 160);
    expect_word(&rt, &words, 20, 0);
}
