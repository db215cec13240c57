//! Formulas over four indexes, each with its value at every assignment of numbers to all four.
//!
//! An assignment is a number below 72, the row-major place of the numbers of i, j, k and l.
use std::alloc::{AllocError, Global};

/// How many assignments there are.
pub const ASSIGNMENTS: u64 = 72;

/// The declarations of the indexes and the operands.
pub const DECLARED: &str =
    "index N i j\nindex M k\nindex K l\ntensor A[N,M]\ntensor B[N,K]\ntensor D[K]\ntensor E[N,N]\n";

/// The ranges: their names and extents.
pub const RANGES: [(&str, u64); 3] = [("N", 3), ("M", 2), ("K", 4)];

/// An index: its name, its range's number and name, its extent, and how far apart two assignments are that differ by one in it.
#[derive(Clone, Copy)]
pub struct Index {
    pub name: &'static str,
    pub range: usize,
    pub range_name: &'static str,
    pub extent: u64,
    pub step: u64,
}

/// The four indexes.
pub const INDEXES: [Index; 4] = [
    Index {
        name: "i",
        range: 0,
        range_name: "N",
        extent: 3,
        step: 24,
    },
    Index {
        name: "j",
        range: 0,
        range_name: "N",
        extent: 3,
        step: 8,
    },
    Index {
        name: "k",
        range: 1,
        range_name: "M",
        extent: 2,
        step: 4,
    },
    Index {
        name: "l",
        range: 2,
        range_name: "K",
        extent: 4,
        step: 1,
    },
];

/// The operands: the names of their files, and the numbers of their ranges.
pub const OPERANDS: &[(&str, &[usize])] = &[
    ("A.tca", &[0, 1]),
    ("B.tca", &[0, 2]),
    ("D.tca", &[2]),
    ("E.tca", &[0, 0]),
];

// The references to the operands: the text, the operand's number, and which of the four indexes stand in it, in order.
const REFERENCES: &[(&str, usize, &[usize])] = &[
    ("A[i,k]", 0, &[0, 2]),
    ("A[j,k]", 0, &[1, 2]),
    ("B[i,l]", 1, &[0, 3]),
    ("B[j,l]", 1, &[1, 3]),
    ("D[l]", 2, &[3]),
    ("E[i,j]", 3, &[0, 1]),
    ("E[j,i]", 3, &[1, 0]),
    ("E[i,i]", 3, &[0, 0]),
];

// The constants.
const CONSTANTS: &[(&str, u64)] = &[("3", 3), ("18446744073709551615", u64::MAX)];

/// A formula: its text, which of the four indexes it has, how many operations, and its value at each assignment.
#[derive(Drop)]
pub struct Term {
    pub text: String,
    pub dims: [bool; 4],
    pub operations: u64,
    pub values: Vec<u64>,
}

impl Term {
    /// The value at an assignment.
    pub fn value(&self, assignment: u64) -> u64 {
        self.values.get(assignment as usize).copied().unwrap_or(0)
    }
}

/// The number of an index at an assignment.
pub fn number_at(assignment: u64, index: &Index) -> u64 {
    if index.step == 0 || index.extent == 0 {
        return 0;
    }
    assignment / index.step % index.extent
}

// The assignment with this number of an index in place of its own.
fn with_number(assignment: u64, index: &Index, number: u64) -> u64 {
    let own = number_at(assignment, index);
    assignment
        .wrapping_sub(own.wrapping_mul(index.step))
        .wrapping_add(number.wrapping_mul(index.step))
}

// The row-major place of the element that the indexes name at an assignment.
fn element_named(indexes: &[usize], assignment: u64) -> u64 {
    let mut element = 0u64;
    for at in indexes {
        if let Some(index) = INDEXES.get(*at) {
            element = element
                .wrapping_mul(index.extent)
                .wrapping_add(number_at(assignment, index));
        }
    }
    element
}

// Whether each of the four indexes is in a list.
fn dims_of(indexes: &[usize]) -> [bool; 4] {
    let mut dims = [false; 4];
    for at in indexes {
        if *at < 4 {
            dims[*at] = true;
        }
    }
    dims
}

fn values_named(
    alloc: Global,
    indexes: &[usize],
    elements: &[u64],
) -> Result<Vec<u64>, AllocError> {
    let mut values = Vec::new(alloc);
    for assignment in 0..ASSIGNMENTS {
        let element = element_named(indexes, assignment);
        values.push(elements.get(element as usize).copied().unwrap_or(0))?;
    }
    Ok(values)
}

// A reference to an operand with these elements.
fn reference(
    alloc: Global,
    text: &str,
    indexes: &[usize],
    elements: &[u64],
) -> Result<Term, AllocError> {
    let values = values_named(alloc, indexes, elements)?;
    let text = String::from_str(alloc, text)?;
    Ok(Term {
        text,
        dims: dims_of(indexes),
        operations: 0,
        values,
    })
}

fn constant(alloc: Global, text: &str, number: u64) -> Result<Term, AllocError> {
    let values = vec![in alloc; number; ASSIGNMENTS as usize]?;
    let text = String::from_str(alloc, text)?;
    Ok(Term {
        text,
        dims: [false; 4],
        operations: 0,
        values,
    })
}

/// Puts a formula behind others.
pub fn push_term(terms: &mut Vec<Term>, term: Term) -> Result<(), AllocError> {
    terms.push(term)?;
    Ok(())
}

fn push_references(
    alloc: Global,
    terms: &mut Vec<Term>,
    operands: &[Vec<u64>],
) -> Result<(), AllocError> {
    for (text, operand, indexes) in REFERENCES {
        let elements = match operands.get(*operand) {
            Some(elements) => elements.as_slice(),
            None => &[],
        };
        push_term(terms, reference(alloc, text, indexes, elements)?)?;
    }
    Ok(())
}

fn push_constants(alloc: Global, terms: &mut Vec<Term>) -> Result<(), AllocError> {
    for (text, number) in CONSTANTS {
        push_term(terms, constant(alloc, text, *number)?)?;
    }
    Ok(())
}

/// All references to the operands with these elements, and the constants.
pub fn leaves(alloc: Global, operands: &[Vec<u64>]) -> Result<Vec<Term>, AllocError> {
    let mut terms = Vec::new(alloc);
    push_references(alloc, &mut terms, operands)?;
    push_constants(alloc, &mut terms)?;
    Ok(terms)
}

/// What joins two formulas.
#[derive(Clone, Copy)]
pub enum Join {
    Times,
    Plus,
    Minus,
}

impl Join {
    fn symbol(self) -> &'static str {
        match self {
            Join::Times => "*",
            Join::Plus => "+",
            Join::Minus => "-",
        }
    }

    fn of(self, left: u64, right: u64) -> u64 {
        match self {
            Join::Times => left.wrapping_mul(right),
            Join::Plus => left.wrapping_add(right),
            Join::Minus => left.wrapping_sub(right),
        }
    }
}

// The values of two formulas, joined.
fn joined_values(
    alloc: Global,
    join: Join,
    left: &Term,
    right: &Term,
) -> Result<Vec<u64>, AllocError> {
    let mut values = Vec::new(alloc);
    for assignment in 0..ASSIGNMENTS {
        values.push(join.of(left.value(assignment), right.value(assignment)))?;
    }
    Ok(values)
}

// The indexes that one of two formulas has.
fn dims_of_both(left: &Term, right: &Term) -> [bool; 4] {
    let mut dims = left.dims;
    for at in 0..4 {
        dims[at] = left.dims[at] || right.dims[at];
    }
    dims
}

/// Two formulas, joined.
pub fn joined(alloc: Global, join: Join, left: &Term, right: &Term) -> Result<Term, AllocError> {
    let symbol = join.symbol();
    let (first, second) = (left.text.as_str(), right.text.as_str());
    let values = joined_values(alloc, join, left, right)?;
    let text = format!(in alloc; "({first} {symbol} {second})")?;
    Ok(Term {
        text,
        dims: dims_of_both(left, right),
        operations: left
            .operations
            .wrapping_add(right.operations)
            .wrapping_add(1),
        values,
    })
}

// The sum of the values where one index has each of its numbers in place of its own.
fn sum_over(values: &[u64], index: &Index, assignment: u64) -> u64 {
    let mut sum = 0u64;
    for number in 0..index.extent {
        let other = with_number(assignment, index, number);
        sum = sum.wrapping_add(values.get(other as usize).copied().unwrap_or(0));
    }
    sum
}

// The values of a sum over one index.
fn summed_values(alloc: Global, values: &[u64], index: &Index) -> Result<Vec<u64>, AllocError> {
    let mut sums = Vec::new(alloc);
    for assignment in 0..ASSIGNMENTS {
        sums.push(sum_over(values, index, assignment))?;
    }
    Ok(sums)
}

// The values of a sum over these indexes.
fn summed_over(alloc: Global, summed: [bool; 4], values: &[u64]) -> Result<Vec<u64>, AllocError> {
    let mut values = values.to_vec(alloc)?;
    for at in 0..4 {
        if summed[at] {
            values = summed_values(alloc, values.as_slice(), &INDEXES[at])?;
        }
    }
    Ok(values)
}

// The names of these indexes.
fn names_of(alloc: Global, indexes: [bool; 4]) -> Result<String, AllocError> {
    let mut names = String::new(alloc);
    for at in 0..4 {
        if indexes[at] {
            push_name(&mut names, INDEXES[at].name)?;
        }
    }
    Ok(names)
}

// The indexes of a formula without those of a sum.
fn dims_without(term: &Term, summed: [bool; 4]) -> [bool; 4] {
    let mut dims = term.dims;
    for at in 0..4 {
        dims[at] = term.dims[at] && !summed[at];
    }
    dims
}

// The text of a sum over these indexes.
fn sum_text(alloc: Global, summed: [bool; 4], text: &str) -> Result<String, AllocError> {
    let names = names_of(alloc, summed)?;
    format!(in alloc; "sum{{{names}}}({text})")
}

/// The sum of a formula over these indexes, which it has.
pub fn summed(alloc: Global, summed: [bool; 4], term: &Term) -> Result<Term, AllocError> {
    let values = summed_over(alloc, summed, term.values.as_slice())?;
    let text = sum_text(alloc, summed, term.text.as_str())?;
    Ok(Term {
        text,
        dims: dims_without(term, summed),
        operations: term.operations.wrapping_add(1),
        values,
    })
}

/// Puts a name behind a list of names.
pub fn push_name(list: &mut String, name: &str) -> Result<(), AllocError> {
    if !list.is_empty() {
        list.push_str(",")?;
    }
    list.push_str(name)
}
