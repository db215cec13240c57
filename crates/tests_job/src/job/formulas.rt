//! Formulas that are drawn, run over tiles of drawn edges with drawn budgets, by a least fusion and by a drawn one, and compared with their values at each assignment.
use crate::job::draws::Draws;
use crate::job::fusions::{drawn_fusion, is_run_by};
use crate::job::given::{must, spec_of};
use crate::job::terms::{
    ASSIGNMENTS, DECLARED, INDEXES, Join, OPERANDS, RANGES, Term, joined, leaves, number_at,
    push_name, push_term, summed,
};
use crate::job::tiled::{Range, elements, tiled_bytes};
use std::alloc::{AllocError, Global};
use std::process::Abort;
use std::test::Fail;
use tce_job::run_job;
use tce_outside::MemDisk;
use tce_spec::Spec;
use tce_tree::Fusion;
use tce_words::HeapRoom;

// The most operations of a formula.
const MOST_OPERATIONS: u64 = 9;

/// The ranges, cut into tiles, and the elements of each operand in row-major order.
#[derive(Drop)]
pub struct Given {
    pub ranges: Vec<Range>,
    pub operands: Vec<Vec<u64>>,
}

// The ranges, each with a drawn edge.
fn drawn_ranges(alloc: Global, draws: &mut Draws) -> Result<Vec<Range>, AllocError> {
    let mut ranges = Vec::new(alloc);
    for (_, extent) in RANGES {
        let edge = draws.below(extent).wrapping_add(1);
        ranges.push(Range::cut(extent, edge))?;
    }
    Ok(ranges)
}

// The ranges of these numbers.
fn ranges_at(alloc: Global, ranges: &[Range], numbers: &[usize]) -> Result<Vec<Range>, AllocError> {
    let mut found = Vec::new(alloc);
    for number in numbers {
        if let Some(range) = ranges.get(*number) {
            found.push(*range)?;
        }
    }
    Ok(found)
}

fn drawn_words(alloc: Global, draws: &mut Draws, count: u64) -> Result<Vec<u64>, AllocError> {
    let mut words = Vec::new(alloc);
    for _ in 0..count {
        words.push(draws.word())?;
    }
    Ok(words)
}

// The elements of each operand, drawn.
fn drawn_operands(
    alloc: Global,
    draws: &mut Draws,
    ranges: &[Range],
) -> Result<Vec<Vec<u64>>, AllocError> {
    let mut operands = Vec::new(alloc);
    for (_, numbers) in OPERANDS {
        let own = ranges_at(alloc, ranges, numbers)?;
        operands.push(drawn_words(alloc, draws, elements(own.as_slice()))?)?;
    }
    Ok(operands)
}

/// Ranges with drawn edges, and operands with drawn elements.
pub fn drawn_given(alloc: Global, draws: &mut Draws) -> Result<Given, AllocError> {
    let ranges = drawn_ranges(alloc, draws)?;
    let operands = drawn_operands(alloc, draws, ranges.as_slice())?;
    Ok(Given { ranges, operands })
}

/// Some of the indexes that a formula has.
pub fn drawn_indexes(term: &Term, draws: &mut Draws) -> [bool; 4] {
    let mut indexes = term.dims;
    for at in 0..4 {
        indexes[at] = term.dims[at] && draws.below(2) == 0;
    }
    indexes
}

/// Two formulas that are joined in a drawn way, on drawn sides.
pub fn drawn_join(
    alloc: Global,
    draws: &mut Draws,
    one: &Term,
    other: &Term,
) -> Result<Term, AllocError> {
    let join = match draws.below(4) {
        0 => Join::Plus,
        1 => Join::Minus,
        _ => Join::Times,
    };
    if draws.below(2) == 0 {
        joined(alloc, join, one, other)
    } else {
        joined(alloc, join, other, one)
    }
}

// Puts a sum over the newest formula behind the others, or its join with one of them where that has not too many operations.
fn push_grown(
    alloc: Global,
    draws: &mut Draws,
    terms: &mut Vec<Term>,
    newest: usize,
) -> Result<(), AllocError> {
    let Some(term) = terms.get(newest) else {
        return Ok(());
    };
    let indexes = drawn_indexes(term, draws);
    if draws.below(5) < 2 && indexes != [false; 4] {
        let sum = summed(alloc, indexes, term)?;
        return push_term(terms, sum);
    }
    let Some(other) = terms.get(draws.below(terms.len() as u64) as usize) else {
        return Ok(());
    };
    if MOST_OPERATIONS <= term.operations.wrapping_add(other.operations) {
        return Ok(());
    }
    let join = drawn_join(alloc, draws, term, other)?;
    push_term(terms, join)
}

// Formulas over operands with these elements, each behind those that it is made of.
fn drawn_terms(
    alloc: Global,
    draws: &mut Draws,
    operands: &[Vec<u64>],
) -> Result<Vec<Term>, AllocError> {
    let mut terms = leaves(alloc, operands)?;
    let leaves = terms.len();
    let mut newest = draws.below(leaves as u64) as usize;
    for _ in 0..8 {
        push_grown(alloc, draws, &mut terms, newest)?;
        if leaves < terms.len() {
            newest = terms.len() - 1;
        }
    }
    Ok(terms)
}

// The places of the indexes of a formula among the four, upwards or downwards.
fn drawn_order(alloc: Global, draws: &mut Draws, term: &Term) -> Result<Vec<usize>, AllocError> {
    let mut order = Vec::new(alloc);
    let downwards = draws.below(2) == 0;
    for step in 0..4 {
        let at = if downwards { 3 - step } else { step };
        if term.dims[at] {
            order.push(at)?;
        }
    }
    Ok(order)
}

// The names of the ranges of indexes, in this order.
fn range_names(alloc: Global, order: &[usize]) -> Result<String, AllocError> {
    let mut names = String::new(alloc);
    for at in order {
        if let Some(index) = INDEXES.get(*at) {
            push_name(&mut names, index.range_name)?;
        }
    }
    Ok(names)
}

// The names of indexes, in this order.
fn index_names(alloc: Global, order: &[usize]) -> Result<String, AllocError> {
    let mut names = String::new(alloc);
    for at in order {
        if let Some(index) = INDEXES.get(*at) {
            push_name(&mut names, index.name)?;
        }
    }
    Ok(names)
}

// The declarations of the ranges.
fn range_lines(alloc: Global, ranges: &[Range]) -> Result<String, AllocError> {
    let mut lines = String::new(alloc);
    for ((name, _), range) in RANGES.iter().zip(ranges) {
        let (extent, edge) = (range.extent, range.edge);
        let line = format!(in alloc; "range {name} {extent} tile {edge}\n")?;
        lines.push_str(line.as_str())?;
    }
    Ok(lines)
}

// The whole specification of a formula whose result has its indexes in this order.
fn text_of(
    alloc: Global,
    ranges: &[Range],
    formula: &str,
    order: &[usize],
) -> Result<String, AllocError> {
    let lines = range_lines(alloc, ranges)?;
    let own = range_names(alloc, order)?;
    let names = index_names(alloc, order)?;
    format!(in alloc; "{lines}{DECLARED}tensor R[{own}]\nR[{names}] = {formula}\n")
}

// Whether the indexes that are not listed have the number 0 at an assignment.
fn is_listed(order: &[usize], assignment: u64) -> bool {
    for (at, index) in INDEXES.iter().enumerate() {
        if number_at(assignment, index) != 0 && !order.contains(&at) {
            return false;
        }
    }
    true
}

// The row-major place of the result's element at an assignment.
fn place_in(order: &[usize], assignment: u64) -> u64 {
    let mut place = 0u64;
    for at in order {
        if let Some(index) = INDEXES.get(*at) {
            place = place
                .wrapping_mul(index.extent)
                .wrapping_add(number_at(assignment, index));
        }
    }
    place
}

// The numbers of the ranges of indexes, in this order.
fn range_numbers(alloc: Global, order: &[usize]) -> Result<Vec<usize>, AllocError> {
    let mut numbers = Vec::new(alloc);
    for at in order {
        if let Some(index) = INDEXES.get(*at) {
            numbers.push(index.range)?;
        }
    }
    Ok(numbers)
}

// The elements of the result, in row-major order.
fn result_elements(alloc: Global, term: &Term, order: &[usize]) -> Result<Vec<u64>, AllocError> {
    let mut cells = vec![in alloc; 0u64; ASSIGNMENTS as usize]?;
    for assignment in 0..ASSIGNMENTS {
        let place = place_in(order, assignment) as usize;
        if is_listed(order, assignment) && place < cells.len() {
            cells[place] = term.value(assignment);
        }
    }
    Ok(cells)
}

// The bytes of the result's file.
fn result_bytes(
    alloc: Global,
    ranges: &[Range],
    term: &Term,
    order: &[usize],
) -> Result<Vec<u8>, AllocError> {
    let numbers = range_numbers(alloc, order)?;
    let own = ranges_at(alloc, ranges, numbers.as_slice())?;
    let cells = result_elements(alloc, term, order)?;
    tiled_bytes(alloc, own.as_slice(), cells.as_slice())
}

fn put_operand(
    alloc: Global,
    disk: &mut MemDisk,
    name: &str,
    ranges: &[Range],
    words: &[u64],
) -> Result<(), AllocError> {
    let bytes = tiled_bytes(alloc, ranges, words)?;
    disk.put_file(name, &bytes)
}

// A disk with the files of the operands.
fn disk_of(alloc: Global, given: &Given) -> Result<MemDisk, AllocError> {
    let mut disk = MemDisk::new(alloc);
    for ((name, numbers), words) in OPERANDS.iter().zip(given.operands.iter()) {
        let own = ranges_at(alloc, given.ranges.as_slice(), numbers)?;
        put_operand(alloc, &mut disk, name, own.as_slice(), words.as_slice())?;
    }
    Ok(disk)
}

// Whether a run over a disk with the operands makes a file of these bytes.
fn makes(
    alloc: Global,
    spec: &Spec,
    budget: u64,
    given: &Given,
    wanted: &[u8],
) -> Result<bool, AllocError> {
    let mut disk = disk_of(alloc, given)?;
    let mut room = HeapRoom::new(alloc);
    let made = run_job(alloc, spec, budget.min(1 << 40), &mut disk, &mut room).is_ok();
    Ok(made && disk.file("R.tca") == Some(wanted))
}

// Whether a run by this fusion does so.
fn makes_by(
    alloc: Global,
    spec: &Spec,
    budget: u64,
    fusion: Fusion,
    given: &Given,
    wanted: &[u8],
) -> Result<bool, Fail> {
    let mut disk = disk_of(alloc, given)?;
    let made = is_run_by(alloc, spec, budget, fusion, &mut disk)?;
    Ok(made && disk.file("R.tca") == Some(wanted))
}

// How the results of a specification that is run with a drawn budget, by a least fusion and by a drawn one, differ, or nothing.
fn difference(
    rt: &impl Abort,
    alloc: Global,
    draws: &mut Draws,
    spec: &Spec,
    given: &Given,
    wanted: &[u8],
) -> &'static str {
    let tiles = draws.below(18).wrapping_add(3);
    let budget = spec.largest_tile().saturating_mul(tiles);
    if !must(rt, makes(alloc, spec, budget, given, wanted)) {
        return "by a least fusion";
    }
    let fusion = drawn_fusion(draws, spec.tree());
    if must(rt, makes_by(alloc, spec, budget, fusion, given, wanted)) {
        ""
    } else {
        "by a drawn fusion"
    }
}

fn check_text(
    rt: &impl Abort,
    alloc: Global,
    draws: &mut Draws,
    text: &str,
    given: &Given,
    wanted: &[u8],
) {
    let spec = must(rt, spec_of(alloc, text.as_bytes()));
    let different = difference(rt, alloc, draws, &spec, given, wanted);
    assert!(rt; different.is_empty(), "{different}: {text}");
}

/// Runs a formula whose result has its indexes in a drawn order.
pub fn check_term(rt: &impl Abort, alloc: Global, draws: &mut Draws, term: &Term, given: &Given) {
    let ranges = given.ranges.as_slice();
    let order = must(rt, drawn_order(alloc, draws, term));
    let text = must(
        rt,
        text_of(alloc, ranges, term.text.as_str(), order.as_slice()),
    );
    let wanted = must(rt, result_bytes(alloc, ranges, term, order.as_slice()));
    check_text(rt, alloc, draws, text.as_str(), given, wanted.as_slice());
}

// Runs a formula that is drawn.
fn check_drawn(rt: &impl Abort, alloc: Global, draws: &mut Draws) {
    let given = must(rt, drawn_given(alloc, draws));
    let terms = must(rt, drawn_terms(alloc, draws, given.operands.as_slice()));
    let Some(term) = terms.last() else {
        panic!(rt; "no formula is drawn");
    };
    check_term(rt, alloc, draws, term, &given);
}

#[test]
fn drawn_formulas_have_their_values(rt: HostRuntime) {
    let mut draws = Draws(1);
    for _ in 0..50 {
        check_drawn(&rt, rt.alloc(), &mut draws);
    }
}
