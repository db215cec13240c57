ghost use Rattle.std.specs.Prelude.{◌≡◌, ◌<◌, ◌≤◌, length, IfOk};

use std::alloc::{AllocError, Global};
use std::process::Abort;
use std::test::Fail;
use tce_words::{HeapRoom, RefusingRoom, Room, Strided, Words};

// The run out begins at 0, a at 200 and b at 400: each has at most 67 places, at most 3 apart.
const LEN: usize = 602;

// Words without a pattern.
fn noise(seed: u64) -> [u64; LEN] {
    let mut made = [0; LEN];
    let mut word = seed;
    for k in 0..LEN {
        word = word
            .wrapping_mul(6364136223846793005)
            .wrapping_add(1442695040888963407);
        made[k] = word;
    }
    made
}

fn block_of(room: &mut HeapRoom, from: &[u64; LEN]) -> Result<Words, AllocError>
    ensures { IfOk result (λ words. length words ≡ 602) }
{
    let mut words = room.take(602, 0)?;
    for k in 0..LEN {
        words.put(k as u64, from[k]);
    }
    Ok(words)
}

#[derive(Clone, Copy)]
enum Join {
    Mul,
    MulAdd,
    Plus,
    Minus,
}

impl Join {
    fn of(self, old: u64, a: u64, b: u64) -> u64 {
        match self {
            Join::Mul => a.wrapping_mul(b),
            Join::MulAdd => old.wrapping_add(a.wrapping_mul(b)),
            Join::Plus => a.wrapping_add(b),
            Join::Minus => a.wrapping_sub(b),
        }
    }

    #[tactic(auto, using(crate::proofs::TestPlaces::reach))]
    fn run(self, words: &mut Words, out_step: u64, a_step: u64, b_step: u64, n: u64)
        requires length { length words.old ≡ 602 }
        requires out { (0 < out_step) × (out_step ≤ 3) }
        requires a { a_step ≤ 3 }
        requires b { b_step ≤ 3 }
        requires n { n ≤ 67 }
        ensures { length words.new ≡ 602 }
    {
        match self {
            Join::Mul => words.mul_run(0, out_step, 200, a_step, 400, b_step, n),
            Join::MulAdd => words.mul_add_run(0, out_step, 200, a_step, 400, b_step, n),
            Join::Plus => words.plus_run(0, out_step, 200, a_step, 400, b_step, n),
            Join::Minus => words.minus_run(0, out_step, 200, a_step, 400, b_step, n),
        }
    }

    #[tactic(auto, using(crate::proofs::TestPlaces::reach))]
    fn run_plainly(
        self,
        words: &mut [u64; LEN],
        out_step: usize,
        a_step: usize,
        b_step: usize,
        n: usize,
    )
        requires out { out_step ≤ 3 }
        requires a { a_step ≤ 3 }
        requires b { b_step ≤ 3 }
        requires n { n ≤ 67 }
    {
        for t in 0..n {
            let (a, b) = (words[200 + t * a_step], words[400 + t * b_step]);
            words[t * out_step] = self.of(words[t * out_step], a, b);
        }
    }
}

fn expect_words<R: Abort>(rt: &R, words: &Words, plain: &[u64; LEN], at: &str)
    requires { length words.now ≡ 602 }
{
    for k in 0..LEN {
        assert!(rt; words.get(k as u64) == plain[k], "{at} {k}");
    }
}

// The steps of a case below 48.
fn steps_of(case: u64) -> (u64, u64, u64)
    ensures out { (0 < result.0) × (result.0 ≤ 3) }
    ensures a { result.1 ≤ 3 }
    ensures b { result.2 ≤ 3 }
{
    (1 + case % 3, case / 3 % 4, case / 12 % 4)
}

#[test]
fn joining_runs_equal_plain_loops(rt: HostRuntime) -> Result<(), Fail> {
    let mut room = HeapRoom::new(rt.alloc());
    let old = noise(1);
    for n in 0..68u64 {
        for case in 0..48 {
            let (out, a, b) = steps_of(case);
            for join in [Join::Mul, Join::MulAdd, Join::Plus, Join::Minus] {
                let mut words = block_of(&mut room, &old)?;
                join.run(&mut words, out, a, b, n);
                let mut plain = old;
                join.run_plainly(&mut plain, out as usize, a as usize, b as usize, n as usize);
                expect_words(&rt, &words, &plain, "join");
            }
        }
    }
    Ok(())
}

// The three runs that take no second run, over a of a block.
#[tactic(auto, using(crate::proofs::TestPlaces::reach))]
fn sum_into(words: &mut Words, out_step: u64, a_step: u64, b_step: u64, n: u64)
    requires length { length words.old ≡ 602 }
    requires out { (0 < out_step) × (out_step ≤ 3) }
    requires a { a_step ≤ 3 }
    requires b { b_step ≤ 3 }
    requires n { n ≤ 67 }
    ensures { length words.new ≡ 602 }
{
    words.add_run(0, out_step, 200, a_step, n);
    words.dot_run(600, 200, a_step, 400, b_step, n);
    words.sum_run(601, 400, b_step, n);
}

#[tactic(auto, using(crate::proofs::TestPlaces::reach))]
fn sum_plainly(words: &mut [u64; LEN], out_step: usize, a_step: usize, b_step: usize, n: usize)
    requires out { out_step ≤ 3 }
    requires a { a_step ≤ 3 }
    requires b { b_step ≤ 3 }
    requires n { n ≤ 67 }
{
    for t in 0..n {
        let (a, b) = (words[200 + t * a_step], words[400 + t * b_step]);
        words[t * out_step] = words[t * out_step].wrapping_add(a);
        words[600] = words[600].wrapping_add(a.wrapping_mul(b));
        words[601] = words[601].wrapping_add(b);
    }
}

#[test]
fn summing_runs_equal_plain_loops(rt: HostRuntime) -> Result<(), Fail> {
    let mut room = HeapRoom::new(rt.alloc());
    let old = noise(2);
    for n in 0..68u64 {
        for case in 0..48 {
            let (out, a, b) = steps_of(case);
            let mut words = block_of(&mut room, &old)?;
            sum_into(&mut words, out, a, b, n);
            let mut plain = old;
            sum_plainly(&mut plain, out as usize, a as usize, b as usize, n as usize);
            expect_words(&rt, &words, &plain, "sum");
        }
    }
    Ok(())
}

// What a number makes of the words at 200: products at 0, sums at 400, and both differences behind these.
#[tactic(auto, using(crate::proofs::TestPlaces::reach))]
fn with_number(words: &mut Words, number: u64, n: u64)
    requires length { length words.old ≡ 602 }
    requires n { n ≤ 67 }
    ensures { length words.new ≡ 602 }
{
    words.mul_number(0, number, 200, n);
    words.plus_number(400, number, 200, n);
    words.number_minus(467, number, 200, n);
    words.minus_number(534, 200, number, n);
}

fn with_number_plainly(words: &mut [u64; LEN], number: u64, n: usize)
    requires { n ≤ 67 }
{
    for t in 0..n {
        let word = words[200 + t];
        words[t] = number.wrapping_mul(word);
        words[400 + t] = number.wrapping_add(word);
        words[467 + t] = number.wrapping_sub(word);
        words[534 + t] = word.wrapping_sub(number);
    }
}

#[test]
fn a_number_and_a_run_equal_plain_loops(rt: HostRuntime) -> Result<(), Fail> {
    let mut room = HeapRoom::new(rt.alloc());
    let old = noise(4);
    for n in 0..68u64 {
        for number in [0, 1, 6364136223846793005, u64::MAX] {
            let mut words = block_of(&mut room, &old)?;
            with_number(&mut words, number, n);
            let mut plain = old;
            with_number_plainly(&mut plain, number, n as usize);
            expect_words(&rt, &words, &plain, "number");
        }
    }
    Ok(())
}

// Rows from 200 on, 70 apart, with factors from 500 on, 3 apart, go to the words at 0.
#[tactic(auto, using(crate::proofs::TestPlaces::rows_keep_length))]
fn add_rows(words: &mut Words, n: u64, count: u64)
    requires length { length words.old ≡ 602 }
    requires n { n ≤ 67 }
    requires count { count ≤ 4 }
    ensures { length words.new ≡ 602 }
{
    let factors = Strided {
        first: 500,
        step: 3,
    };
    let rows = Strided {
        first: 200,
        step: 70,
    };
    words.mul_add_rows(0, factors, rows, n, count);
}

// Rows from 200 on, 140 apart, go to the words at 270, which are between them.
#[tactic(auto, using(crate::proofs::TestPlaces::rows_keep_length))]
fn add_rows_around(words: &mut Words, n: u64, count: u64)
    requires length { length words.old ≡ 602 }
    requires n { n ≤ 67 }
    requires count { count ≤ 2 }
    ensures { length words.new ≡ 602 }
{
    let factors = Strided {
        first: 500,
        step: 3,
    };
    let rows = Strided {
        first: 200,
        step: 140,
    };
    words.mul_add_rows(270, factors, rows, n, count);
}

fn add_rows_plainly(words: &mut [u64; LEN], n: usize, count: usize)
    requires n { n ≤ 67 }
    requires count { count ≤ 4 }
{
    for row in 0..count {
        for t in 0..n {
            let product = words[500 + 3 * row].wrapping_mul(words[200 + 70 * row + t]);
            words[t] = words[t].wrapping_add(product);
        }
    }
}

fn add_rows_around_plainly(words: &mut [u64; LEN], n: usize, count: usize)
    requires n { n ≤ 67 }
    requires count { count ≤ 2 }
{
    for row in 0..count {
        for t in 0..n {
            let product = words[500 + 3 * row].wrapping_mul(words[200 + 140 * row + t]);
            words[270 + t] = words[270 + t].wrapping_add(product);
        }
    }
}

#[test]
fn rows_equal_plain_loops(rt: HostRuntime) -> Result<(), Fail> {
    let mut room = HeapRoom::new(rt.alloc());
    let old = noise(3);
    for n in 0..68u64 {
        for count in 0..5u64 {
            let mut words = block_of(&mut room, &old)?;
            add_rows(&mut words, n, count);
            let mut plain = old;
            add_rows_plainly(&mut plain, n as usize, count as usize);
            expect_words(&rt, &words, &plain, "rows");
        }
        for count in 0..3u64 {
            let mut words = block_of(&mut room, &old)?;
            add_rows_around(&mut words, n, count);
            let mut plain = old;
            add_rows_around_plainly(&mut plain, n as usize, count as usize);
            expect_words(&rt, &words, &plain, "around");
        }
    }
    Ok(())
}

// The words from the first on are these.
fn expect_six(rt: &impl Abort, words: &Words, due: [u64; 6])
    requires { length words.now ≡ 6 }
{
    for k in 0..6 {
        assert!(rt; words.get(k as u64) == due[k], "{k}");
    }
}

// Six words, the last of which is 7.
fn six_words(rt: &impl Abort, alloc: Global) -> Words
    ensures { length result ≡ 6 }
{
    let mut room = HeapRoom::new(alloc);
    match room.take(0, 6) {
        Ok(mut words) => {
            words.put(5, 7);
            words
        }
        Err(_) => panic!(rt; "no memory"),
    }
}

const BYTES: [u8; 16] = [
    0x01, 0x02, 0x03, 0x04, 0x05, 0x06, 0x07, 0x88, 0xff, 0xff, 0xff, 0x7f, 0x00, 0x00, 0x00, 0x80,
];

#[test]
fn bytes_are_little_endian(rt: HostRuntime) {
    let mut words = six_words(&rt, rt.alloc());
    words.load(1, &BYTES);
    let wide = [0, 0x8807_0605_0403_0201, 0x8000_0000_7fff_ffff, 0, 0, 7];
    expect_six(&rt, &words, wide);
    let mut back = [0; 16];
    words.store(1, &mut back);
    assert!(rt; back == BYTES);
}

#[test]
fn narrow_bytes_are_little_endian(rt: HostRuntime) {
    let mut words = six_words(&rt, rt.alloc());
    words.load_narrow(1, &BYTES);
    let (second, last) = (0xffff_ffff_8807_0605, 0xffff_ffff_8000_0000);
    expect_six(&rt, &words, [0, 0x0403_0201, second, 0x7fff_ffff, last, 7]);
    words.fill_zero(2, 3);
    expect_six(&rt, &words, [0, 0x0403_0201, 0, 0, 0, 7]);
}

// The words of a block that a room gives, or none where it refuses.
fn taken<R: Room>(room: &mut R, words: u64, more: u64) -> Option<u64>
    requires words { words ≤ 6 }
    requires more { more ≤ 6 }
{
    match room.take(words, more) {
        Ok(words) => Some(words.len()),
        Err(_) => None,
    }
}

#[test]
fn rooms_note_their_takings(rt: HostRuntime) {
    let mut room = HeapRoom::new(rt.alloc());
    assert!(rt; taken(&mut room, 2, 3) == Some(5));
    assert!(rt; taken(&mut room, 0, 0) == Some(0));
    assert!(rt; room.takings() == [(2, 3), (0, 0)].as_slice());
}

#[test]
fn refusals_are_not_noted(rt: HostRuntime) {
    let mut room = RefusingRoom::new(rt.alloc(), 1);
    assert!(rt; taken(&mut room, 1, 4) == Some(5));
    assert!(rt; taken(&mut room, 1, 1) == None);
    assert!(rt; room.takings() == [(1, 4)].as_slice());
    assert!(rt; taken(&mut room, 0, 2) == Some(2));
    assert!(rt; room.takings() == [(1, 4), (0, 2)].as_slice());
    drop(room);
}
