//! The candidates of `(sum{k}(A[i,k])) * (sum{l}(B[j,l]))` with i of extent 5, j of 7, k and l of 2, and of a product of six loops. The numbers of i, j, k and l are 0 to 3.
ghost use Rattle.std.specs.Prelude.{◌↔◌, All, IsTrue};
ghost use Rattle.tce_search.specs.Candidates.{HaveRoom, IsLimited, IsSmall, LeavesRoom};

use arrayvec::ArrayVec;
use std::alloc::Global;
use std::process::Abort;
use tce_nesting::{Choice, Nesting, Row, subsets};
use tce_search::{Ahead, Candidate, Limits, NodeLoops, candidates_of};
use tce_space::IndexSet;

fn set(rt: &impl Abort, bits: u32) -> IndexSet {
    assert!(rt; bits < 1 << 24);
    IndexSet::of_bits(bits)
}

// The candidate with at most one class, of these bits.
fn candidate(rt: &impl Abort, class: u32, cost: u128, bits: &[u32]) -> Candidate {
    let loops = set(rt, class);
    assert!(rt; loops.count() <= 10);
    let classes = Nesting::combine(&Nesting::none(), &Nesting::none(), loops);
    Candidate {
        row: Row {
            classes: classes.expect(rt, "no conflict"),
            cost,
        },
        sets: sets_of(rt, bits),
    }
}

fn sets_of(rt: &impl Abort, all: &[u32]) -> ArrayVec<IndexSet, 32> {
    let mut sets = ArrayVec::new();
    for bits in all {
        assert!(rt; sets.try_push(set(rt, *bits)).is_ok());
    }
    sets
}

fn are_limited(candidates: &[Candidate]) -> bool
    ensures { IsTrue result ↔ All IsLimited candidates.now }
{
    candidates
        .iter()
        .all(|candidate| candidate.row.cost < 1 << 96)
}

fn are_small(choices: &[Choice]) -> bool
    ensures { IsTrue result ↔ All IsSmall choices.now }
{
    choices.iter().all(|choice| choice.size < 1 << 96)
}

fn leaves_room(left: &Candidate, rights: &[Candidate]) -> bool
    ensures { IsTrue result ↔ All (LeavesRoom left.now) rights.now }
{
    rights
        .iter()
        .all(|right| left.sets.len() + right.sets.len() < 32)
}

fn have_room(lefts: &[Candidate], rights: &[Candidate]) -> bool
    ensures { IsTrue result ↔ HaveRoom lefts.now rights.now }
{
    lefts.iter().all(|left| leaves_room(left, rights))
}

// The loops of a node, and those that are outer above it, by their bits.
#[derive(Clone, Copy)]
struct Loops {
    all: u32,
    outer: u32,
    // What is ahead at least of a state that puts i above the other outer loops.
    ahead: u128,
}

// What is ahead of a node whose parent has just i of its dims.
fn ahead_of(rt: &impl Abort, alloc: Global, loops: Loops) -> Ahead {
    let mut costs = Vec::new(alloc);
    assert!(rt; costs.push(0).is_ok());
    assert!(rt; costs.push(loops.ahead).is_ok());
    Ahead::new(set(rt, loops.outer), set(rt, 0b01), costs, Vec::new(alloc))
}

// The candidates of a node that may cost 100 with what is ahead, for operands and choices that are tested.
fn found(
    rt: &impl Abort,
    alloc: Global,
    lefts: &[Candidate],
    rights: &[Candidate],
    choices: &[Choice],
    loops: Loops,
) -> Vec<Candidate> {
    let node = NodeLoops {
        own: set(rt, loops.all),
        outer: set(rt, loops.outer),
    };
    assert!(rt; node.own.count() <= 10);
    assert!(rt; are_limited(lefts));
    assert!(rt; are_limited(rights));
    assert!(rt; have_room(lefts, rights));
    assert!(rt; are_small(choices));
    let ahead = ahead_of(rt, alloc, loops);
    let limits = Limits {
        ahead: &ahead,
        target: 100,
        least: 0,
    };
    match candidates_of(alloc, lefts, rights, node, choices, &limits) {
        Ok(candidates) => candidates,
        Err(_) => panic!(rt; "no memory"),
    }
}

fn choice(rt: &impl Abort, bits: u32, size: u128) -> Choice {
    Choice {
        fused: set(rt, bits),
        size,
    }
}

// The candidates of a sum over leaves.
fn of_leaves(rt: &impl Abort, alloc: Global, choices: &[Choice], loops: Loops) -> Vec<Candidate> {
    let leaf = [Candidate::default()];
    found(rt, alloc, leaf.as_slice(), leaf.as_slice(), choices, loops)
}

// The first sum, with nothing fused or i, where so much is ahead of what puts i above j.
fn first_sum_with(rt: &impl Abort, alloc: Global, ahead: u128) -> Vec<Candidate> {
    let loops = Loops {
        all: 0b0101,
        outer: 0b11,
        ahead,
    };
    let choices = [choice(rt, 0, 5), choice(rt, 0b01, 1)];
    of_leaves(rt, alloc, choices.as_slice(), loops)
}

fn first_sum(rt: &impl Abort, alloc: Global) -> Vec<Candidate> {
    first_sum_with(rt, alloc, 0)
}

// The second sum, with nothing fused or j.
fn second_sum(rt: &impl Abort, alloc: Global) -> Vec<Candidate> {
    let loops = Loops {
        all: 0b1010,
        outer: 0b11,
        ahead: 0,
    };
    let choices = [choice(rt, 0, 7), choice(rt, 0b10, 1)];
    of_leaves(rt, alloc, choices.as_slice(), loops)
}

// The candidates are this one alone, or this one and another.
fn expect_one(rt: &impl Abort, found: &[Candidate], first: &Candidate) {
    assert!(rt; found.len() == 1);
    assert!(rt; found[0] == *first);
}

fn expect_two(rt: &impl Abort, found: &[Candidate], first: &Candidate, second: &Candidate) {
    assert!(rt; found.len() == 2);
    assert!(rt; found[0] == *first);
    assert!(rt; found[1] == *second);
}

#[test]
fn candidates_of_two_sums(rt: HostRuntime) {
    let (first, second) = (first_sum(&rt, rt.alloc()), second_sum(&rt, rt.alloc()));
    let fused = candidate(&rt, 0b01, 1, &[0b01]);
    expect_two(&rt, first.as_slice(), &candidate(&rt, 0, 5, &[0]), &fused);
    let fused = candidate(&rt, 0b10, 1, &[0b10]);
    expect_two(&rt, second.as_slice(), &candidate(&rt, 0, 7, &[0]), &fused);
}

// With 98 elements ahead the state that fuses i is of use at its one element; with 99 it is not, and what stands for it has no sets.
#[test]
fn states_of_no_use_are_bounded(rt: HostRuntime) {
    let (unfused, fused) = (candidate(&rt, 0, 5, &[0]), candidate(&rt, 0b01, 1, &[0b01]));
    let useful = first_sum_with(&rt, rt.alloc(), 98);
    expect_two(&rt, useful.as_slice(), &unfused, &fused);
    let bounded = first_sum_with(&rt, rt.alloc(), 99);
    expect_two(
        &rt,
        bounded.as_slice(),
        &unfused,
        &candidate(&rt, 0b01, 1, &[]),
    );
}

// i above j and j above i has no step; of the others the cheapest is as coarse as each
#[test]
fn candidates_of_a_product(rt: HostRuntime) {
    let (first, second) = (first_sum(&rt, rt.alloc()), second_sum(&rt, rt.alloc()));
    let loops = Loops {
        all: 0b11,
        outer: 0b11,
        ahead: 0,
    };
    let unfused = [choice(&rt, 0, 35)];
    let (lefts, rights) = (first.as_slice(), second.as_slice());
    let product = found(&rt, rt.alloc(), lefts, rights, unfused.as_slice(), loops);
    expect_one(
        &rt,
        product.as_slice(),
        &candidate(&rt, 0, 41, &[0, 0b10, 0]),
    );
}

// The sets of six loops of extent 2 that may be fused, with the elements that are left.
fn all_choices(rt: &impl Abort) -> ArrayVec<Choice, 64> {
    let loops = set(rt, 0b111111);
    assert!(rt; loops.count() <= 10);
    let mut choices = ArrayVec::new();
    for fused in subsets(loops).as_slice() {
        let left = loops.minus(*fused).count();
        assert!(rt; left <= 6);
        let choice = Choice {
            fused: *fused,
            size: 1 << left,
        };
        assert!(rt; choices.try_push(choice).is_ok());
    }
    choices
}

// The row with all loops in one class puts none above another and costs least.
#[test]
fn one_class_of_all_loops_covers_all(rt: HostRuntime) {
    let loops = Loops {
        all: 0b111111,
        outer: 0b111111,
        ahead: 0,
    };
    let product = of_leaves(&rt, rt.alloc(), all_choices(&rt).as_slice(), loops);
    expect_one(
        &rt,
        product.as_slice(),
        &candidate(&rt, 0b111111, 1, &[0b111111]),
    );
}
