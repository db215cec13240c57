//! Steps of states that were worked by hand, and the choices and the plan of `(sum{k}(A[i,k])) * (sum{l}(B[j,l]))` with i of extent 5, j of 7, k and l of 2.
ghost use Rattle.std.specs.Prelude.{◌≡◌, ◌↔◌, ℕ, IsTrue, false};
ghost use Rattle.tce_space.specs.IndexSet.{has};
ghost use Rattle.tce_tree.specs.Measure.{IsMeasured};

use crate::given::{fusion, orders, set, short_space, tree_over, two_sums};
use arrayvec::ArrayVec;
use std::alloc::Global;
use std::process::Abort;
use tce_nesting::{
    Nesting, Plan, Row, Tables, choices, coarser_is_preorder, joins_tell_steps,
    nestings_are_their_relations, restrictions_cut, subsets,
};
use tce_space::{IndexSet, Space};
use tce_tree::Tree;

// Whether the set has no member.
fn is_empty(set: IndexSet) -> bool
    ensures { IsTrue result ↔ ((i : ℕ) → has set i ≡ false) }
{
    set.bits() == 0
}

// The nesting with one more class, tested.
fn with_class(rt: &impl Abort, nesting: Nesting, class: IndexSet) -> Nesting {
    assert!(rt; nesting.classes().len() < 10);
    assert!(rt; !is_empty(class));
    assert!(rt; is_empty(class.meet(nesting.members())));
    nesting.with_class(class)
}

// The nesting of the classes with these bits, bit `i` for index `i`.
fn nesting(rt: &impl Abort, classes: &[u32]) -> Nesting {
    let mut all = Nesting::none();
    for bits in classes {
        assert!(rt; *bits < 1 << 24);
        all = with_class(rt, all, IndexSet::of_bits(*bits));
    }
    all
}

fn combined(rt: &impl Abort, a: &Nesting, b: &Nesting, loops: IndexSet) -> Option<Nesting> {
    assert!(rt; loops.count() <= 10);
    Nesting::combine(a, b, loops)
}

// The join of the nestings of these classes is the one wanted.
fn expect_join(rt: &impl Abort, a: &[u32], b: &[u32], loops: &[u8], wanted: &[u32]) {
    match combined(rt, &nesting(rt, a), &nesting(rt, b), set(loops)) {
        Some(joined) => assert!(rt; joined == nesting(rt, wanted)),
        None => panic!(rt; "a conflict"),
    }
}

fn expect_conflict(rt: &impl Abort, a: &[u32], b: &[u32], loops: &[u8]) {
    assert!(rt; combined(rt, &nesting(rt, a), &nesting(rt, b), set(loops)).is_none());
}

// b, c, d and e are 0 to 3, and i and j are 0 and 1.
#[test]
fn joins_are_the_worked_ones(rt: HostRuntime) {
    // a loop without a class
    let wanted = [0b0011, 0b0100, 0b1000].as_slice();
    expect_join(&rt, &[0b0011, 0b0100], &[], &[0, 1, 2, 3], wanted);
    // the first class is divided
    let wanted = [0b001, 0b010, 0b100].as_slice();
    expect_join(&rt, &[0b001], &[0b011], &[0, 1, 2], wanted);
    // two leaves, with loops and without
    expect_join(&rt, &[], &[], &[0, 1, 2], &[0b111]);
    expect_join(&rt, &[], &[], &[], &[]);
}

#[test]
fn conflicts_are_the_worked_ones(rt: HostRuntime) {
    // i above j and j above i
    expect_conflict(&rt, &[0b01], &[0b10], &[0, 1]);
    // a conflict of inner loops
    let (one, other) = ([0b001, 0b010, 0b100], [0b001, 0b100, 0b010]);
    expect_conflict(&rt, one.as_slice(), other.as_slice(), &[0, 1, 2]);
    // a conflict with a loop that has no class
    expect_conflict(&rt, &[0b01, 0b10], &[0b10], &[0, 1, 2]);
}

#[test]
fn ten_loops_are_joined(rt: HostRuntime) {
    let loops = [0, 1, 2, 3, 4, 5, 6, 7, 8, 9].as_slice();
    let wanted = [0x200, 0x100, 0x080, 0x07f].as_slice();
    expect_join(&rt, &[0x200, 0x100], &[0x300, 0x080], loops, wanted);
}

// Whether b, c, d and e, in the classes of the states, may be fused like this, and the classes that are left.
fn expect_allowed(rt: &impl Abort, fused: &[u8], allowed: bool, rest: &[u32]) {
    let worked = nesting(rt, &[0b0011, 0b0100, 0b1000]);
    assert!(rt; worked.allowed(set(fused)) == allowed);
    assert!(rt; worked.restrict(set(fused)) == nesting(rt, rest));
}

#[test]
fn sets_are_allowed_as_worked(rt: HostRuntime) {
    // the first class
    expect_allowed(&rt, &[0, 1], true, &[0b0011]);
    // c is left out and above d
    expect_allowed(&rt, &[0, 2], false, &[0b0001, 0b0100]);
    // two classes
    expect_allowed(&rt, &[0, 1, 2], true, &[0b0011, 0b0100]);
    // no index
    expect_allowed(&rt, &[], true, &[]);
    // an index without a class
    expect_allowed(&rt, &[0, 1, 2, 4], false, &[0b0011, 0b0100]);
}

fn expect_members(rt: &impl Abort, nesting: &Nesting, members: IndexSet) {
    assert!(rt; nesting.members() == members);
    match nesting.clone() {
        Ok(clone) => assert!(rt; clone == *nesting),
        Err(_) => panic!(rt; "no memory"),
    }
}

#[test]
fn members_of_a_nesting(rt: HostRuntime) {
    let worked = nesting(&rt, &[0b0011, 0b0100, 0b1000]);
    expect_members(&rt, &worked, set(&[0, 1, 2, 3]));
    assert!(rt; Nesting::default() == Nesting::none());
}

// Whether the first nesting is coarser than the second on the loops.
fn expect_coarser(rt: &impl Abort, a: &[u32], b: &[u32], loops: &[u8], wanted: bool) {
    assert!(rt; nesting(rt, a).coarser(&nesting(rt, b), set(loops)) == wanted);
}

#[test]
fn comparisons_are_the_worked_ones(rt: HostRuntime) {
    // no classes
    expect_coarser(&rt, &[], &[0b01], &[0, 1], true);
    // a pair more
    expect_coarser(&rt, &[0b01], &[], &[0, 1], false);
    // one class of all loops
    expect_coarser(&rt, &[0b11], &[], &[0, 1], true);
    // a pair in the first alone
    expect_coarser(&rt, &[0b001], &[0b011], &[0, 1, 2], false);
    // a pair that is no loop
    expect_coarser(&rt, &[0b01, 0b10], &[0b01], &[0, 2], true);
}

fn expect_above(rt: &impl Abort, nesting: &Nesting, i: u8, j: u8, wanted: bool) {
    assert!(rt; nesting.above(i, j) == wanted, "{i} above {j}");
}

#[test]
fn loops_above_others(rt: HostRuntime) {
    let worked = nesting(&rt, &[0b011, 0b100]);
    expect_above(&rt, &worked, 0, 1, false);
    expect_above(&rt, &worked, 0, 2, true);
    expect_above(&rt, &worked, 2, 0, false);
    expect_above(&rt, &worked, 2, 3, true);
    expect_above(&rt, &worked, 3, 2, false);
    expect_above(&rt, &worked, 2, 255, true);
    expect_above(&rt, &worked, 255, 2, false);
}

#[test]
fn laws_of_nestings() {
    nestings_are_their_relations();
    restrictions_cut();
    joins_tell_steps();
    coarser_is_preorder();
}

// A sum over leaves, of these indexes, of which these are fused.
fn restricted(rt: &impl Abort, indexes: &[u8], fused: &[u8]) -> Nesting {
    let leaf = Nesting::none();
    let all = combined(rt, &leaf, &leaf, set(indexes)).expect(rt, "no conflict");
    assert!(rt; all.allowed(set(fused)));
    all.restrict(set(fused))
}

// i, j, k and l are 0 to 3. The first sum is over k, the second over l. Whether the sums join where these of their
// indexes are fused.
fn expect_joining(rt: &impl Abort, i: &[u8], j: &[u8], joins: bool) {
    let (left, right) = (restricted(rt, &[0, 2], i), restricted(rt, &[1, 3], j));
    assert!(rt; combined(rt, &left, &right, set(&[0, 1])).is_some() == joins);
}

#[test]
fn states_of_two_sums(rt: HostRuntime) {
    expect_joining(&rt, &[], &[], true);
    expect_joining(&rt, &[0], &[], true);
    expect_joining(&rt, &[], &[1], true);
    expect_joining(&rt, &[0], &[1], false);
}

// A row of one class.
fn row(rt: &impl Abort, class: &[u8], cost: u128) -> Row {
    Row {
        classes: nesting(rt, &[set(class).bits()]),
        cost,
    }
}

fn put(rt: &impl Abort, tables: &mut Tables, v: u8, row: Row) {
    assert!(rt; v < tables.lists());
    assert!(rt; tables.push(v, row).is_ok());
}

// As many lists, with the row of a leaf in the list 1.
fn tables(rt: &impl Abort, alloc: Global, lists: u8) -> Tables {
    assert!(rt; lists <= 31);
    match Tables::new(alloc, lists) {
        Ok(mut tables) => {
            put(rt, &mut tables, 1, Row::default());
            tables
        }
        Err(_) => panic!(rt; "no memory"),
    }
}

fn expect_row_count(rt: &impl Abort, tables: &Tables, v: u8, count: usize) {
    assert!(rt; v < tables.lists());
    assert!(rt; tables.rows(v).len() == count);
}

// The row of this number in the list.
fn expect_row(rt: &impl Abort, tables: &Tables, v: u8, number: usize, row: &Row) {
    assert!(rt; v < tables.lists());
    match tables.rows(v).get(number) {
        Some(found) => assert!(rt; *found == *row),
        None => panic!(rt; "no row"),
    }
}

#[test]
fn rows_stand_in_their_lists(rt: HostRuntime) {
    let mut tables = tables(&rt, rt.alloc(), 31);
    put(&rt, &mut tables, 30, row(&rt, &[0], 7));
    put(&rt, &mut tables, 30, row(&rt, &[1], 6));
    assert!(rt; tables.lists() == 31);
    expect_row_count(&rt, &tables, 0, 0);
    expect_row_count(&rt, &tables, 1, 1);
    expect_row(&rt, &tables, 1, 0, &Row::default());
    expect_row_count(&rt, &tables, 30, 2);
    expect_row(&rt, &tables, 30, 0, &row(&rt, &[0], 7));
    expect_row(&rt, &tables, 30, 1, &row(&rt, &[1], 6));
    drop(tables);
}

// The subsets of the indexes are these, given by their bits, in this order.
fn expect_subsets(rt: &impl Abort, indexes: &[u8], wanted: &[u32]) {
    let all = set(indexes);
    assert!(rt; all.count() <= 10);
    let found = subsets(all);
    assert!(rt; found.len() == wanted.len());
    for (subset, bits) in found.as_slice().iter().zip(wanted) {
        assert!(rt; subset.bits() == *bits);
    }
}

fn expect_subset_count(rt: &impl Abort, indexes: &[u8], count: usize) {
    let all = set(indexes);
    assert!(rt; all.count() <= 10);
    assert!(rt; subsets(all).len() == count);
}

#[test]
fn subsets_stand_in_order(rt: HostRuntime) {
    expect_subsets(&rt, &[], &[0]);
    expect_subsets(&rt, &[0], &[0, 1]);
    expect_subsets(&rt, &[0, 2, 5], &[0, 1, 4, 5, 32, 33, 36, 37]);
    expect_subsets(&rt, &[22, 23], &[0, 1 << 22, 1 << 23, 3 << 22]);
    expect_subset_count(&rt, &[0, 1, 2, 3, 4, 5, 6, 7, 8, 9], 1024);
}

// The choices of the node are these sets, given by their bits, with these sizes.
fn expect_choices(rt: &impl Abort, space: &Space, tree: &Tree, v: u8, wanted: &[(u32, u128)])
    requires { IsMeasured space.now tree.now }
{
    assert!(rt; v < tree.count());
    let found = choices(space, tree, v);
    assert!(rt; found.len() == wanted.len());
    for (choice, (bits, size)) in found.as_slice().iter().zip(wanted) {
        assert!(rt; (choice.fused.bits(), choice.size) == (*bits, *size));
    }
}

#[test]
fn choices_leave_the_worked_sizes(rt: HostRuntime) {
    let space = short_space(&rt, rt.alloc());
    let tree = tree_over(&rt, rt.alloc(), &space, &*two_sums(&rt, rt.alloc()));
    expect_choices(&rt, &space, &tree, 0, &[(0, 5), (0b01, 1)]);
    expect_choices(&rt, &space, &tree, 1, &[(0, 7), (0b10, 1)]);
    let wanted = [(0, 35), (0b01, 7), (0b10, 5), (0b11, 1)];
    expect_choices(&rt, &space, &tree, 2, wanted.as_slice());
    drop(tree);
    drop(space);
}

// A plan that fuses a set on the second edge and has a row of one class in each list.
#[derive(Clone, Copy)]
struct Stated<'a> {
    fused: &'a [u8],
    last_order: &'a [u8],
    sizes: &'a [u128],
    memory: u128,
    class: &'a [u8],
    cost: u128,
    lists: u8,
}

fn plan_of(rt: &impl Abort, alloc: Global, stated: &Stated) -> Plan {
    let mut sizes = ArrayVec::new();
    assert!(rt; sizes.try_extend_from_slice(stated.sizes).is_ok());
    let mut tables = tables(rt, alloc, stated.lists);
    put(rt, &mut tables, 1, row(rt, stated.class, stated.cost));
    Plan {
        fusion: fusion(rt, &[&[], stated.fused, &[]]),
        orders: orders(rt, &[&[0, 2], &[1, 3], stated.last_order]),
        sizes,
        memory: stated.memory,
        tables,
    }
}

const LARGEST: u128 = (1 << 96) - 1;

const WORKED: Stated = Stated {
    fused: &[1],
    last_order: &[1, 0],
    sizes: &[5, 1],
    memory: 6,
    class: &[1],
    cost: 1,
    lists: 2,
};

// Whether the plan that is stated fits the tree.
fn expect_fit(rt: &impl Abort, alloc: Global, tree: &Tree, stated: &Stated, fits: bool) {
    assert!(rt; plan_of(rt, alloc, stated).fits(tree) == fits);
}

// Whether the worked plan with other sizes fits.
fn expect_sizes(rt: &impl Abort, alloc: Global, tree: &Tree, sizes: &[u128], fits: bool) {
    expect_fit(rt, alloc, tree, &Stated { sizes, ..WORKED }, fits);
}

// Whether the worked plan fits with a number as its memory, and as the cost of a row.
fn expect_number(rt: &impl Abort, alloc: Global, tree: &Tree, number: u128, fits: bool) {
    let stated = Stated {
        memory: number,
        ..WORKED
    };
    expect_fit(rt, alloc, tree, &stated, fits);
    let stated = Stated {
        cost: number,
        ..WORKED
    };
    expect_fit(rt, alloc, tree, &stated, fits);
}

fn tree_of_two_sums(rt: &impl Abort, alloc: Global) -> Tree {
    let space = short_space(rt, alloc);
    let tree = tree_over(rt, alloc, &space, &*two_sums(rt, alloc));
    drop(space);
    tree
}

#[test]
fn plans_fit_by_their_sizes(rt: HostRuntime) {
    let alloc = rt.alloc();
    let tree = tree_of_two_sums(&rt, alloc);
    expect_sizes(&rt, alloc, &tree, &[5, 1], true);
    expect_sizes(&rt, alloc, &tree, &[5], false);
    expect_sizes(&rt, alloc, &tree, &[5, 1, 0], false);
    expect_sizes(&rt, alloc, &tree, &[5, LARGEST], true);
    expect_sizes(&rt, alloc, &tree, &[5, LARGEST + 1], false);
    drop(tree);
}

#[test]
fn plans_fit_by_their_numbers(rt: HostRuntime) {
    let tree = tree_of_two_sums(&rt, rt.alloc());
    expect_number(&rt, rt.alloc(), &tree, LARGEST, true);
    expect_number(&rt, rt.alloc(), &tree, LARGEST + 1, false);
    drop(tree);
}

#[test]
fn plans_fit_by_their_sets(rt: HostRuntime) {
    let (alloc, tree) = (rt.alloc(), tree_of_two_sums(&rt, rt.alloc()));
    // a set beyond the dims
    let mut stated = WORKED;
    stated.fused = &[3];
    expect_fit(&rt, alloc, &tree, &stated, false);
    // an order without a loop
    stated = WORKED;
    stated.last_order = &[1];
    expect_fit(&rt, alloc, &tree, &stated, false);
    // a class beyond the dims
    stated = WORKED;
    stated.class = &[1, 3];
    expect_fit(&rt, alloc, &tree, &stated, false);
    // a list too many
    stated = WORKED;
    stated.lists = 3;
    expect_fit(&rt, alloc, &tree, &stated, false);
}
