ghost use Rattle.std.specs.Prelude.{◌≤◌};

use std::process::Abort;
use tce_kernel::{
    add_vv, clear, dot, minus_sv, minus_vs, minus_vv, mul_add_rows, mul_add_sv, mul_add_vv, mul_sv,
    mul_vv, plus_sv, plus_vv, sum,
};

const MOST: usize = 68;

const S: u64 = 0xfedc_ba98_7654_3210;

// Words without a pattern.
fn noise<const N: usize>(seed: u64) -> [u64; N] {
    let mut made = [0; N];
    let mut word = seed;
    for place in 0..N {
        word = word
            .wrapping_mul(6364136223846793005)
            .wrapping_add(1442695040888963407);
        made[place] = word;
    }
    made
}

// The runs that a kernel is given, and what stood where it writes.
#[derive(Clone, Copy)]
struct Runs {
    a: [u64; MOST],
    b: [u64; MOST],
    old: [u64; MOST],
}

impl Runs {
    fn of(seed: u64) -> Runs {
        Runs {
            a: noise(seed),
            b: noise(seed.wrapping_add(1)),
            old: noise(seed.wrapping_add(2)),
        }
    }
}

#[derive(Clone, Copy)]
enum Join {
    Mul,
    MulAdd,
    Plus,
    Add,
    Minus,
    Clear,
}

impl Join {
    // What a place has afterwards.
    fn of(self, old: u64, a: u64, b: u64) -> u64 {
        match self {
            Join::Mul => a.wrapping_mul(b),
            Join::MulAdd => old.wrapping_add(a.wrapping_mul(b)),
            Join::Plus => a.wrapping_add(b),
            Join::Add => old.wrapping_add(a),
            Join::Minus => a.wrapping_sub(b),
            Join::Clear => 0,
        }
    }
}

// The n first places are joined, and those behind them are as they were.
fn expect(rt: &impl Abort, join: Join, n: usize, found: &[u64; MOST], runs: &Runs) {
    for t in 0..MOST {
        let old = runs.old[t];
        let due = if t < n {
            join.of(old, runs.a[t], runs.b[t])
        } else {
            old
        };
        assert!(rt; found[t] == due, "{n} {t}");
    }
}

fn expect_mul_vv(rt: &impl Abort, runs: &Runs) {
    for n in 0..MOST {
        let mut words = runs.old;
        mul_vv(&mut words[..n], &runs.a[..n], &runs.b[..n]);
        expect(rt, Join::Mul, n, &words, runs);
    }
}

fn expect_mul_sv(rt: &impl Abort, runs: &Runs) {
    for n in 0..MOST {
        let mut words = runs.old;
        mul_sv(&mut words[..n], S, &runs.b[..n]);
        expect(rt, Join::Mul, n, &words, runs);
    }
}

fn expect_mul_add_vv(rt: &impl Abort, runs: &Runs) {
    for n in 0..MOST {
        let mut words = runs.old;
        mul_add_vv(&mut words[..n], &runs.a[..n], &runs.b[..n]);
        expect(rt, Join::MulAdd, n, &words, runs);
    }
}

fn expect_mul_add_sv(rt: &impl Abort, runs: &Runs) {
    for n in 0..MOST {
        let mut words = runs.old;
        mul_add_sv(&mut words[..n], S, &runs.b[..n]);
        expect(rt, Join::MulAdd, n, &words, runs);
    }
}

fn expect_dot(rt: &impl Abort, runs: &Runs) {
    let mut total: u64 = 0;
    for n in 0..MOST {
        assert!(rt; dot(&runs.a[..n], &runs.b[..n]) == total, "{n}");
        total = total.wrapping_add(runs.a[n].wrapping_mul(runs.b[n]));
    }
}

#[test]
fn products_equal_plain_loops(rt: HostRuntime) {
    let mut runs = Runs::of(1);
    expect_mul_vv(&rt, &runs);
    expect_mul_add_vv(&rt, &runs);
    expect_dot(&rt, &runs);
    runs.a = [S; MOST];
    expect_mul_sv(&rt, &runs);
    expect_mul_add_sv(&rt, &runs);
}

fn expect_plus_vv(rt: &impl Abort, runs: &Runs) {
    for n in 0..MOST {
        let mut words = runs.old;
        plus_vv(&mut words[..n], &runs.a[..n], &runs.b[..n]);
        expect(rt, Join::Plus, n, &words, runs);
    }
}

fn expect_plus_sv(rt: &impl Abort, runs: &Runs) {
    for n in 0..MOST {
        let mut words = runs.old;
        plus_sv(&mut words[..n], S, &runs.b[..n]);
        expect(rt, Join::Plus, n, &words, runs);
    }
}

fn expect_add_vv(rt: &impl Abort, runs: &Runs) {
    for n in 0..MOST {
        let mut words = runs.old;
        add_vv(&mut words[..n], &runs.a[..n]);
        expect(rt, Join::Add, n, &words, runs);
    }
}

fn expect_clear(rt: &impl Abort, runs: &Runs) {
    for n in 0..MOST {
        let mut words = runs.old;
        clear(&mut words[..n]);
        expect(rt, Join::Clear, n, &words, runs);
    }
}

fn expect_sum(rt: &impl Abort, runs: &Runs) {
    let mut total: u64 = 0;
    for n in 0..MOST {
        assert!(rt; sum(&runs.a[..n]) == total, "{n}");
        total = total.wrapping_add(runs.a[n]);
    }
}

#[test]
fn sums_equal_plain_loops(rt: HostRuntime) {
    let mut runs = Runs::of(4);
    expect_plus_vv(&rt, &runs);
    expect_add_vv(&rt, &runs);
    expect_clear(&rt, &runs);
    expect_sum(&rt, &runs);
    runs.a = [S; MOST];
    expect_plus_sv(&rt, &runs);
}

fn expect_minus_vv(rt: &impl Abort, runs: &Runs) {
    for n in 0..MOST {
        let mut words = runs.old;
        minus_vv(&mut words[..n], &runs.a[..n], &runs.b[..n]);
        expect(rt, Join::Minus, n, &words, runs);
    }
}

fn expect_minus_sv(rt: &impl Abort, runs: &Runs) {
    for n in 0..MOST {
        let mut words = runs.old;
        minus_sv(&mut words[..n], S, &runs.b[..n]);
        expect(rt, Join::Minus, n, &words, runs);
    }
}

fn expect_minus_vs(rt: &impl Abort, runs: &Runs) {
    for n in 0..MOST {
        let mut words = runs.old;
        minus_vs(&mut words[..n], &runs.a[..n], S);
        expect(rt, Join::Minus, n, &words, runs);
    }
}

#[test]
fn differences_equal_plain_loops(rt: HostRuntime) {
    let runs = Runs::of(7);
    expect_minus_vv(&rt, &runs);
    let mut from_one = runs;
    from_one.a = [S; MOST];
    expect_minus_sv(&rt, &from_one);
    let mut by_one = runs;
    by_one.b = [S; MOST];
    expect_minus_vs(&rt, &by_one);
}

// What rows are added to, their factors, which are 3 apart, and the rows, which are 70 apart.
#[derive(Clone, Copy)]
struct Rows {
    old: [u64; MOST],
    factors: [u64; 13],
    words: [u64; 350],
}

// The n first places have grown by the products of so many factors and the words of their rows.
fn expect_rows(rt: &impl Abort, n: usize, count: usize, found: &[u64; MOST], rows: &Rows)
    requires { count ≤ 5 }
{
    for t in 0..MOST {
        let mut due = rows.old[t];
        for k in 0..count {
            if t < n {
                due = due.wrapping_add(rows.factors[3 * k].wrapping_mul(rows.words[70 * k + t]));
            }
        }
        assert!(rt; found[t] == due, "{count} {n} {t}");
    }
}

#[test]
fn rows_equal_plain_loops(rt: HostRuntime) {
    let rows = Rows {
        old: noise(11),
        factors: noise(12),
        words: noise(13),
    };
    for count in 0..6 {
        for n in 0..MOST {
            let mut words = rows.old;
            mul_add_rows(&mut words[..n], &rows.factors, 3, &rows.words, 70, count);
            expect_rows(&rt, n, count, &words, &rows);
        }
    }
}
