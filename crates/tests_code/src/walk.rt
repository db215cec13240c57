//! Codes on a machine that writes down its calls.
ghost use Rattle.std.specs.Prelude.{◌≡◌, ◌<◌, ◌≤◌, ◌^◌, IsTrue};
ghost use Rattle.std.specs.declared.option.Option.TheVariants.{None};
ghost use Rattle.tce_space.specs.Name.{is_name};

use crate::given::{boxed, constant, leaf, new_space, product, sum, two_sums};
use arrayvec::ArrayVec;
use std::alloc::Global;
use std::process::Abort;
use std::test::Fail;
use tce_block::Block;
use tce_code::generate;
use tce_fusion::{is_legal, standard_orders};
use tce_outside::Failed;
use tce_space::{IndexSet, Name, Numbers, Space};
use tce_tree::{Expr, Fusion, Tree};
use tce_walk::{Body, Combination, Machine, Tail, run_program, touches_are_few};

// Writes down the calls of a run as bytes, and fails where there is no room for more. It tells nothing of its places,
// and its count of faults stands at its end.
struct Recorder<'a> {
    space: &'a Space,
    tree: &'a Tree,
    fusion: &'a Fusion,
    room: usize,
    calls: &'a mut ArrayVec<u8, 128>,
}

impl Recorder<'_> {
    fn write(&mut self, bytes: &[u8]) -> Result<(), Failed>
        ensures space { self.new.space.now ≡ self.old.space.now }
        ensures tree { self.new.tree.now ≡ self.old.tree.now }
        ensures fusion { self.new.fusion.now ≡ self.old.fusion.now }
        ensures calls { self.new.calls.ghost_name ≡ self.old.calls.ghost_name }
    {
        if bytes.len() > self.room {
            return Err(Failed);
        }
        self.room -= bytes.len();
        match self.calls.try_extend_from_slice(bytes) {
            Ok(()) => Ok(()),
            Err(_) => Err(Failed),
        }
    }
}

impl<'a> Machine for Recorder<'a> {
    ghost use Rattle.tce_space.specs.Space.{extent_at};

    ghost space = { λ m. m.space.now };

    ghost setting = { λ m. record {
      tree = m.tree.now;
      fusion = m.fusion.now.0.items;
      elements = record { extent = extent_at m.space.now; cell = λ tensor coordinates. 0 };
    } };

    ghost state = { λ m. None };

    ghost touches = { λ m. 0 };

    ghost faults = { λ m. 2 ^ 64 };

    ghost ready = { λ m. Unit {0} };

    ghost keeps = { λ x y. y.calls.ghost_name ≡ x.calls.ghost_name };

    fn frames(&self) -> usize {
        0
    }

    fn clear(&mut self, v: u8) {
        let _written = self.write(&[b'c', v]);
    }

    fn operate(&mut self, v: u8, numbers: &Numbers) -> Result<(), Failed> {
        self.write(&[b'o', v, (numbers[0] % 256) as u8, (numbers[1] % 256) as u8])
    }

    // The node, 100 and the sum's number where one is joined, the number of index 1, and the loops.
    fn run_tail(&mut self, tail: &Tail, numbers: &Numbers) -> Result<(), Failed> {
        let joined = match tail.sum {
            Some(v) => v % 100 + 100,
            None => 0,
        };
        self.write(&[b't', tail.node, joined, (numbers[1] % 256) as u8])?;
        self.write(tail.loops.0.as_slice())
    }

    // The number of operations, that of index 1, the loops, and the block's first numbers and lengths.
    fn run_body(
        &mut self,
        body: &Body<'_>,
        block: &Block,
        numbers: &Numbers,
    ) -> Result<(), Failed> {
        let ops = (body.ops.len() % 256) as u8;
        self.write(&[b'b', ops, (numbers[1] % 256) as u8])?;
        self.write(body.loops)?;
        self.write(bytes_of(block.from.as_slice()).as_slice())?;
        self.write(bytes_of(block.len.as_slice()).as_slice())
    }

    // The node, the number of terms, the first number of each dimension of the block, and the loops.
    fn run_terms(
        &mut self,
        sum: &Combination<'_>,
        block: &Block,
        _numbers: &Numbers,
    ) -> Result<(), Failed> {
        let terms = (sum.terms.len() % 256) as u8;
        self.write(&[b's', sum.node, terms])?;
        self.write(bytes_of(block.from.as_slice()).as_slice())?;
        self.write(sum.loops)
    }

    ghost use Rattle.std.proofs.Common.{rules};

    ghost keeps_own = { Prim.search rules };

    ghost keeps_on = { Prim.search rules };
}

// The last byte of each number.
fn bytes_of(numbers: &[u64]) -> ArrayVec<u8, 16> {
    let mut bytes = ArrayVec::new();
    for number in numbers {
        if !bytes.is_full() {
            bytes.push((*number % 256) as u8);
        }
    }
    bytes
}

// `sum{i}(A[i] * B[i])`
fn dot(rt: &impl Abort, alloc: Global) -> Box<Expr> {
    let pairs = product(
        rt,
        alloc,
        leaf(rt, alloc, 0, &[0]),
        leaf(rt, alloc, 1, &[0]),
    );
    sum(rt, alloc, &[0], pairs)
}

// `2 * A[i]`
fn doubled(rt: &impl Abort, alloc: Global) -> Box<Expr> {
    product(rt, alloc, constant(rt, alloc, 2), leaf(rt, alloc, 0, &[0]))
}

fn name_of(rt: &impl Abort, text: &str) -> Name
    ensures { IsTrue (is_name result.bytes) }
{
    let Ok(name) = Name::from(text) else {
        panic!(rt; "too long: {text}");
    };
    assert!(rt; tce_space::is_name(name.as_str().as_bytes()));
    name
}

fn declare(rt: &impl Abort, space: &mut Space, name: &str) {
    assert!(rt; 0 < space.range_count());
    assert!(rt; space.add_index(&name_of(rt, name), 0).is_ok());
}

// The indexes i, j, k and l of extent 3.
fn four_indexes(rt: &impl Abort, alloc: Global) -> Space {
    let mut space = new_space(rt, alloc);
    assert!(rt; space.add_range(&name_of(rt, "N"), 3, 2).is_ok());
    declare(rt, &mut space, "i");
    declare(rt, &mut space, "j");
    declare(rt, &mut space, "k");
    declare(rt, &mut space, "l");
    space
}

// Puts down the calls of a run of the code with the standard orders, and says whether it succeeds.
fn calls_of(
    alloc: Global,
    space: &Space,
    expr: &Expr,
    sets: &[IndexSet],
    room: usize,
    calls: &mut ArrayVec<u8, 128>,
) -> Result<bool, Fail> {
    if expr.operations() > 32 || !expr.is_declared(space) || !expr.sums_are_distinct() {
        return Err(Fail::new("no tree over the four indexes"));
    }
    let tree = Tree::build(alloc, space, expr)?;
    let mut fused = ArrayVec::new();
    fused.try_extend_from_slice(sets)?;
    let fusion = Fusion(fused);
    if !fusion.fits(&tree) || !is_legal(&tree, &fusion) {
        return Err(Fail::new("the fusion does not fit, or is not legal"));
    }
    let orders = standard_orders(&tree, &fusion);
    let _indexes = space.index_count();
    let _nodes = tree.count();
    touches_are_few();
    let code = generate(alloc, &tree, &fusion, &orders)?;
    let mut machine = Recorder {
        space,
        tree: &tree,
        fusion: &fusion,
        room,
        calls,
    };
    let answer = run_program(space, &tree, &fusion, code.ops(), &mut machine);
    let Recorder {
        space: _,
        tree: _,
        fusion: _,
        room: _,
        calls: _,
    } = machine;
    Ok(answer.is_ok())
}

// With so much room for its calls a run succeeds or not, and has these calls.
fn expect_calls(
    rt: &impl Abort,
    alloc: Global,
    expr: &Expr,
    sets: &[IndexSet],
    ends: (usize, bool),
    wanted: &[u8],
) {
    let space = four_indexes(rt, alloc);
    let mut calls = ArrayVec::new();
    match calls_of(alloc, &space, expr, sets, ends.0, &mut calls) {
        Ok(ran) => assert!(rt; ran == ends.1),
        Err(_) => panic!(rt; "no run"),
    }
    assert!(rt; calls.as_slice() == wanted);
    drop(space);
}

#[test]
fn tails_are_handed_over_whole(rt: HostRuntime) {
    let none = IndexSet::empty();
    let sets = [none, IndexSet::empty().with(1), none];
    let wanted = [
        b'c', 0, b't', 0, 0, 0, 0, 2, b'c', 1, b't', 1, 0, 0, 3, b't', 2, 0, 0, 0, b'c', 1, b't',
        1, 0, 1, 3, b't', 2, 0, 1, 0, b'c', 1, b't', 1, 0, 2, 3, b't', 2, 0, 2, 0,
    ];
    let expr = two_sums(&rt, rt.alloc());
    expect_calls(
        &rt,
        rt.alloc(),
        &expr,
        &sets,
        (128, true),
        wanted.as_slice(),
    );
}

#[test]
fn a_product_joins_its_sum(rt: HostRuntime) {
    let sets = [IndexSet::empty().with(0), IndexSet::empty()];
    let expr = dot(&rt, rt.alloc());
    expect_calls(
        &rt,
        rt.alloc(),
        &expr,
        &sets,
        (128, true),
        &[b't', 0, 101, 0, 0],
    );
}

#[test]
fn a_constant_goes_block_by_block(rt: HostRuntime) {
    let expr = doubled(&rt, rt.alloc());
    let sets = [IndexSet::empty()];
    expect_calls(
        &rt,
        rt.alloc(),
        &expr,
        &sets,
        (128, true),
        &[b'b', 1, 0, 0, 0, 2, b'b', 1, 0, 0, 2, 1],
    );
}

#[test]
fn a_failure_ends_the_run(rt: HostRuntime) {
    let expr = doubled(&rt, rt.alloc());
    let sets = [IndexSet::empty()];
    expect_calls(
        &rt,
        rt.alloc(),
        &expr,
        &sets,
        (8, false),
        &[b'b', 1, 0, 0, 0, 2],
    );
}

// The numbers of i and j block by block, for tiles with edges of 2.
const BY_BLOCKS: [(u8, u8); 9] = [
    (0, 0),
    (0, 1),
    (1, 0),
    (1, 1),
    (0, 2),
    (1, 2),
    (2, 0),
    (2, 1),
    (2, 2),
];

fn both() -> IndexSet {
    IndexSet::empty().with(0).with(1)
}

fn put(rt: &impl Abort, wanted: &mut ArrayVec<u8, 128>, bytes: &[u8]) {
    assert!(rt; wanted.try_extend_from_slice(bytes).is_ok());
}

// `A[i,j] * B[i,j] * C[i,j]`, the first product inside both loops of the second
#[test]
fn a_body_of_two_goes_block_by_block(rt: HostRuntime) {
    let wanted = [
        b'b', 2, 0, 0, 1, 0, 0, 2, 2, b'b', 2, 0, 0, 1, 0, 2, 2, 1, b'b', 2, 0, 0, 1, 2, 0, 1, 2,
        b'b', 2, 0, 0, 1, 2, 2, 1, 1,
    ];
    let pairs = product(
        &rt,
        rt.alloc(),
        leaf(&rt, rt.alloc(), 0, &[0, 1]),
        leaf(&rt, rt.alloc(), 1, &[0, 1]),
    );
    let expr = product(&rt, rt.alloc(), pairs, leaf(&rt, rt.alloc(), 2, &[0, 1]));
    let sets = [both(), IndexSet::empty()];
    expect_calls(
        &rt,
        rt.alloc(),
        &expr,
        &sets,
        (128, true),
        wanted.as_slice(),
    );
}

// `sum{k}(A[i,k] * B[k,j])`
fn summed(rt: &impl Abort, alloc: Global) -> Box<Expr> {
    let pairs = product(
        rt,
        alloc,
        leaf(rt, alloc, 0, &[0, 2]),
        leaf(rt, alloc, 1, &[2, 1]),
    );
    sum(rt, alloc, &[2], pairs)
}

// `sum{k}(A[i,k] * B[k,j]) * C[i,j]`, the sum cleared and summed up inside the loops over i and j
#[test]
fn a_band_holds_sums(rt: HostRuntime) {
    let mut wanted = ArrayVec::new();
    for n in 0..9 {
        let (i, j) = BY_BLOCKS[n];
        put(
            &rt,
            &mut wanted,
            &[b'c', 1, b't', 0, 101, j, 2, b'o', 2, i, j],
        );
    }
    let expr = product(
        &rt,
        rt.alloc(),
        summed(&rt, rt.alloc()),
        leaf(&rt, rt.alloc(), 2, &[0, 1]),
    );
    let sets = [both().with(2), both(), IndexSet::empty()];
    expect_calls(
        &rt,
        rt.alloc(),
        &expr,
        &sets,
        (128, true),
        wanted.as_slice(),
    );
}

// `sum{k}(A[i,k] * B[k,j])`, where the product keeps a row over k
#[test]
fn a_body_that_keeps_rows_goes_turn_by_turn(rt: HostRuntime) {
    let mut wanted = ArrayVec::new();
    for _ in 0..3 {
        for j in 0..3 {
            put(&rt, &mut wanted, &[b't', 0, 0, j, 2, b't', 1, 0, j, 2]);
        }
    }
    let expr = summed(&rt, rt.alloc());
    let sets = [both(), IndexSet::empty()];
    expect_calls(
        &rt,
        rt.alloc(),
        &expr,
        &sets,
        (128, true),
        wanted.as_slice(),
    );
}

fn difference(rt: &impl Abort, alloc: Global, left: Box<Expr>, right: Box<Expr>) -> Box<Expr> {
    boxed(rt, alloc, Expr::Sub(left, right))
}

// The indexes i, j and k of extent 4.
fn three_indexes(rt: &impl Abort, alloc: Global) -> Space {
    let mut space = new_space(rt, alloc);
    assert!(rt; space.add_range(&name_of(rt, "N"), 4, 2).is_ok());
    declare(rt, &mut space, "i");
    declare(rt, &mut space, "j");
    declare(rt, &mut space, "k");
    space
}

// Where the blocks of i and j begin.
const QUARTERS: [(u8, u8); 4] = [(0, 0), (0, 2), (2, 0), (2, 2)];

// `sum{k}(A[i,k] * B[k,j]) - sum{k}(A[i,k] * B[k,j])`, where the body runs once more at the last numbers
#[test]
fn terms_go_block_by_block(rt: HostRuntime) {
    let mut wanted = ArrayVec::new();
    for n in 0..4 {
        let (i, j) = QUARTERS[n];
        put(&rt, &mut wanted, &[b's', 4, 2, i, j, 0, 1]);
    }
    put(
        &rt,
        &mut wanted,
        &[
            b'c', 1, b't', 0, 101, 3, 2, b'c', 3, b't', 2, 103, 3, 2, b'o', 4, 3, 3,
        ],
    );
    let expr = difference(
        &rt,
        rt.alloc(),
        summed(&rt, rt.alloc()),
        summed(&rt, rt.alloc()),
    );
    let space = three_indexes(&rt, rt.alloc());
    let within = both().with(2);
    let sets = [within, both(), within, both(), IndexSet::empty()];
    let mut calls = ArrayVec::new();
    match calls_of(rt.alloc(), &space, &expr, &sets, 128, &mut calls) {
        Ok(ran) => assert!(&rt; ran),
        Err(_) => panic!(&rt; "no run"),
    }
    assert!(&rt; calls.as_slice() == wanted.as_slice());
    drop(space);
}

// Blocks of fewer than four elements in the mean go element by element.
#[test]
fn small_blocks_go_element_by_element(rt: HostRuntime) {
    let mut wanted = ArrayVec::new();
    for n in 0..9 {
        let (i, j) = BY_BLOCKS[n];
        put(
            &rt,
            &mut wanted,
            &[b'c', 1, b't', 0, 101, j, 2, b'o', 2, i, j],
        );
    }
    let expr = difference(
        &rt,
        rt.alloc(),
        summed(&rt, rt.alloc()),
        leaf(&rt, rt.alloc(), 2, &[0, 1]),
    );
    let sets = [both().with(2), both(), IndexSet::empty()];
    expect_calls(
        &rt,
        rt.alloc(),
        &expr,
        &sets,
        (128, true),
        wanted.as_slice(),
    );
}

// `(A[i,j] - A[j,i]) * B[i,j]`: a block and its transpose stand in two rows and two columns
#[test]
fn transposes_go_in_groups_of_two_rows(rt: HostRuntime) {
    let wanted = [
        b'b', 2, 0, 0, 1, 0, 0, 2, 2, b'b', 2, 0, 0, 1, 2, 0, 2, 2, b'b', 2, 0, 0, 1, 0, 2, 2, 2,
        b'b', 2, 0, 0, 1, 2, 2, 2, 2,
    ];
    let differences = difference(
        &rt,
        rt.alloc(),
        leaf(&rt, rt.alloc(), 0, &[0, 1]),
        leaf(&rt, rt.alloc(), 0, &[1, 0]),
    );
    let expr = product(
        &rt,
        rt.alloc(),
        differences,
        leaf(&rt, rt.alloc(), 1, &[0, 1]),
    );
    let space = three_indexes(&rt, rt.alloc());
    let sets = [both(), IndexSet::empty()];
    let mut calls = ArrayVec::new();
    match calls_of(rt.alloc(), &space, &expr, &sets, 128, &mut calls) {
        Ok(ran) => assert!(&rt; ran),
        Err(_) => panic!(&rt; "no run"),
    }
    assert!(&rt; calls.as_slice() == wanted.as_slice());
    drop(space);
}
