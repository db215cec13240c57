//! Chains of operations over operands and constants, run as the other drawn formulas are.
use crate::job::draws::Draws;
use crate::job::formulas::{check_term, drawn_given, drawn_indexes, drawn_join};
use crate::job::given::must;
use crate::job::terms::{Term, leaves, push_term, summed};
use std::alloc::{AllocError, Global};
use std::process::Abort;

// Puts the join of the last formula with one of the first ones behind the others.
fn push_link(
    alloc: Global,
    draws: &mut Draws,
    terms: &mut Vec<Term>,
    firsts: u64,
) -> Result<(), AllocError> {
    let Some(other) = terms.get(draws.below(firsts) as usize) else {
        return Ok(());
    };
    let Some(term) = terms.last() else {
        return Ok(());
    };
    let join = drawn_join(alloc, draws, term, other)?;
    push_term(terms, join)
}

// Puts a sum over some indexes of the last formula behind the others.
fn push_sum(alloc: Global, draws: &mut Draws, terms: &mut Vec<Term>) -> Result<(), AllocError> {
    let Some(term) = terms.last() else {
        return Ok(());
    };
    let indexes = drawn_indexes(term, draws);
    if indexes == [false; 4] {
        return Ok(());
    }
    let sum = summed(alloc, indexes, term)?;
    push_term(terms, sum)
}

// Operands and constants, and behind them chains of one to six links, each the beginning of the next one. The last one may be
// summed.
fn drawn_chains(
    alloc: Global,
    draws: &mut Draws,
    operands: &[Vec<u64>],
) -> Result<Vec<Term>, AllocError> {
    let mut terms = leaves(alloc, operands)?;
    let firsts = terms.len() as u64;
    for _ in 0..draws.below(6).wrapping_add(1) {
        push_link(alloc, draws, &mut terms, firsts)?;
    }
    if draws.below(2) == 0 {
        push_sum(alloc, draws, &mut terms)?;
    }
    Ok(terms)
}

// Runs a chain that is drawn.
fn check_chain(rt: &impl Abort, alloc: Global, draws: &mut Draws) {
    let given = must(rt, drawn_given(alloc, draws));
    let terms = must(rt, drawn_chains(alloc, draws, given.operands.as_slice()));
    let Some(term) = terms.last() else {
        panic!(rt; "no chain is drawn");
    };
    check_term(rt, alloc, draws, term, &given);
}

#[test]
fn drawn_chains_have_their_values(rt: HostRuntime) {
    let mut draws = Draws(2);
    for _ in 0..50 {
        check_chain(&rt, rt.alloc(), &mut draws);
    }
}
