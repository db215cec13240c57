//! What tests are given: specifications and plans by their texts.

use arrayvec::ArrayVec;
use std::alloc::Global;
use std::process::Abort;
use tce_nesting::{Nesting, Plan, Row, Tables};
use tce_space::{IndexSet, LoopOrder};
use tce_spec::{Spec, read_spec};
use tce_tree::{Fusion, Orders};

// i of extent 5, j of extent 7, k and l of extent 2.
pub(crate) const TWO_SUMS: &str =
    "range I 5\nrange J 7\nrange K 2\nindex I i\nindex J j\nindex K k l\ntensor A[I,K]\ntensor B[J,K]\ntensor C[I,J]\nC[i,j] = sum{k}(A[i,k]) * sum{l}(B[j,l])\n";

pub(crate) fn spec_of(rt: &impl Abort, alloc: Global, text: &str) -> Spec {
    match read_spec(alloc, text.as_bytes()) {
        Ok(spec) => spec,
        Err(_) => panic!(rt; "refused: {text}"),
    }
}

// The part of a text with this number, where such bytes part it; nothing where there is none.
pub(crate) fn part<'a>(text: &'a str, between: char, number: usize) -> &'a str {
    text.split(between).nth(number).unwrap_or("")
}

// The indexes whose digits stand in a word, in their order.
pub(crate) fn order(rt: &impl Abort, word: &str) -> LoopOrder {
    let mut list = ArrayVec::new();
    for digit in word.as_bytes() {
        if b'0' <= *digit && *digit <= b'9' {
            assert!(rt; list.try_push(*digit - b'0').is_ok());
        }
    }
    LoopOrder(list)
}

pub(crate) fn set(word: &str) -> IndexSet {
    let mut all = IndexSet::empty();
    for digit in word.as_bytes() {
        if b'0' <= *digit && *digit <= b'9' {
            all = all.with(*digit - b'0');
        }
    }
    all
}

// The nesting of one class of these indexes, and of none where there are none.
pub(crate) fn nesting(rt: &impl Abort, word: &str) -> Nesting {
    let loops = set(word);
    assert!(rt; loops.count() <= 10);
    let classes = Nesting::combine(&Nesting::none(), &Nesting::none(), loops);
    classes.expect(rt, "no conflict")
}

pub(crate) fn number(rt: &impl Abort, word: &str) -> u128 {
    match word.parse::<u128>() {
        Ok(number) => number,
        Err(_) => panic!(rt; "no number: {word}"),
    }
}

fn fusion_of(rt: &impl Abort, text: &str) -> Fusion {
    let mut sets = ArrayVec::new();
    for word in text.split(' ') {
        assert!(rt; sets.try_push(set(word)).is_ok());
    }
    Fusion(sets)
}

fn orders_of(rt: &impl Abort, text: &str) -> Orders {
    let mut orders = ArrayVec::new();
    for word in text.split(' ') {
        assert!(rt; orders.try_push(order(rt, word)).is_ok());
    }
    Orders(orders)
}

fn sizes_of(rt: &impl Abort, text: &str) -> ArrayVec<u128, 32> {
    let mut sizes = ArrayVec::new();
    for word in text.split(' ') {
        if !word.is_empty() {
            assert!(rt; sizes.try_push(number(rt, word)).is_ok());
        }
    }
    sizes
}

// A row of the node with one class of these indexes, or none.
pub(crate) fn put_row(rt: &impl Abort, tables: &mut Tables, v: u8, class: &str, cost: u128) {
    let row = Row {
        classes: nesting(rt, class),
        cost,
    };
    assert!(rt; v < tables.lists());
    assert!(rt; tables.push(v, row).is_ok());
}

// The rows of the node, each with its cost and one class or none.
fn put_all(rt: &impl Abort, tables: &mut Tables, v: u8, text: &str) {
    for word in text.split(' ') {
        if !word.is_empty() {
            put_row(
                rt,
                tables,
                v,
                part(word, ':', 1),
                number(rt, part(word, ':', 0)),
            );
        }
    }
}

// The rows of the first two nodes.
fn tables_of(rt: &impl Abort, alloc: Global, lists: usize, text: &str) -> Tables {
    assert!(rt; lists <= 31);
    match Tables::new(alloc, lists as u8) {
        Ok(mut tables) => {
            put_all(rt, &mut tables, 0, part(text, ';', 4));
            put_all(rt, &mut tables, 1, part(text, ';', 5));
            tables
        }
        Err(_) => panic!(rt; "no memory"),
    }
}

// The plan of a text: the fused sets and the orders by the digits of their indexes, the sizes, the memory, and the rows
// of the first two nodes.
pub(crate) fn plan_of(rt: &impl Abort, alloc: Global, text: &str) -> Plan {
    let sizes = sizes_of(rt, part(text, ';', 2));
    let tables = tables_of(rt, alloc, sizes.len(), text);
    Plan {
        fusion: fusion_of(rt, part(text, ';', 0)),
        orders: orders_of(rt, part(text, ';', 1)),
        sizes,
        memory: number(rt, part(text, ';', 3)),
        tables,
    }
}
