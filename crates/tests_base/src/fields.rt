//! Texts that were read by hand.
use crate::given::{expect_index, expect_range, new_space};
use arrayvec::ArrayVec;
use std::alloc::Global;
use std::process::Abort;
use tce_fields::{indexes_named, members_of, read_names, read_number, set_named, split_parts};
use tce_space::{IndexSet, MAX_INDEXES, Space};

#[test]
fn numbers_are_read(rt: HostRuntime) {
    let most = 79228162514264337593543950335;
    assert!(rt; read_number(b"0") == Some(0));
    assert!(rt; read_number(b"79228162514264337593543950335") == Some(most));
    for text in "|00|+1|-1|1 |x|79228162514264337593543950336".split('|') {
        assert!(rt; read_number(text.as_bytes()) == None, "{text}");
    }
}

fn count_of(parts: &Option<ArrayVec<&[u8], 3>>) -> usize {
    match parts {
        Some(parts) => parts.len(),
        None => 4,
    }
}

fn expect_parts(rt: &impl Abort, text: &str, count: usize) {
    assert!(rt;
        count_of(&split_parts(text.as_bytes(), b' ')) == count,
        "{text}"
    );
}

fn expect_names(rt: &impl Abort, text: &str, count: usize) {
    assert!(rt; count_of(&read_names(text.as_bytes())) == count, "{text}");
}

#[test]
fn texts_are_cut(rt: HostRuntime) {
    expect_parts(&rt, "", 1);
    expect_parts(&rt, "a", 1);
    expect_parts(&rt, "a b", 2);
    expect_parts(&rt, " a ", 3);
    expect_parts(&rt, "a b c d", 4);
}

#[test]
fn lists_of_names_are_read(rt: HostRuntime) {
    expect_names(&rt, "-", 0);
    expect_names(&rt, "i,j1,k_", 3);
    for text in "|i,|i,-|i,sum|i,j,k,l".split('|') {
        expect_names(&rt, text, 4);
    }
}

// A space with the indexes `k`, `i` and `j`.
fn space_of_three(rt: &impl Abort, alloc: Global) -> Space {
    let mut space = new_space(rt, alloc);
    expect_range(rt, &mut space, "k", (2, 1), 0);
    expect_index(rt, &mut space, "k", 0, 0);
    expect_index(rt, &mut space, "i", 0, 1);
    expect_index(rt, &mut space, "j", 0, 2);
    space
}

fn set_listed(space: &Space, list: &str) -> Option<IndexSet> {
    let Some(names) = read_names::<MAX_INDEXES>(list.as_bytes()) else {
        return None;
    };
    set_named(space, names.as_slice())
}

// The bits of the set that a list names, or 99.
fn bits_named(space: &Space, list: &str) -> u32 {
    match set_listed(space, list) {
        Some(set) => set.bits(),
        None => 99,
    }
}

fn expect_bits(rt: &impl Abort, space: &Space, list: &str, bits: u32) {
    assert!(rt; bits_named(space, list) == bits, "{list}");
}

// The indexes of a list stand in its order.
fn expect_order(rt: &impl Abort, space: &Space) {
    let Some(names) = read_names::<10>(b"j,k") else {
        panic!(rt; "no names");
    };
    match indexes_named::<10>(space, names.as_slice()) {
        Some(indexes) => assert!(rt; indexes.as_slice() == [2, 0].as_slice()),
        None => panic!(rt; "no indexes"),
    }
}

fn expect_members(rt: &impl Abort, space: &Space) {
    match set_listed(space, "k") {
        Some(set) => assert!(rt; members_of(set).as_slice() == [0].as_slice()),
        None => panic!(rt; "no set"),
    }
}

#[test]
fn indexes_are_named(rt: HostRuntime) {
    let space = space_of_three(&rt, rt.alloc());
    expect_bits(&rt, &space, "-", 0);
    expect_bits(&rt, &space, "k,j", 5);
    expect_bits(&rt, &space, "j,k", 99);
    expect_bits(&rt, &space, "k,k", 99);
    expect_bits(&rt, &space, "k,z", 99);
    expect_order(&rt, &space);
    expect_members(&rt, &space);
    drop(space);
}
