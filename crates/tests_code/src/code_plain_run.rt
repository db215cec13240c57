// A plain run of code over small tensors, for the tests: each loop of the list turn by turn, each place of a node a word of a list.
ghost use Rattle.std.specs.Prelude.{◌<◌, ◌≤◌};

use arrayvec::ArrayVec;
use std::alloc::Global;
use std::process::Abort;
use tce_code::Op;
use tce_space::{IndexSet, MAX_INDEXES};
use tce_tree::{Fusion, Operand, Tree};

// No worked code runs for so many operations.
const LIMIT: u64 = 100_000;

// A loop that is open: its index, and the position behind its `Open`.
#[derive(Clone, Copy)]
struct OpenLoop {
    index: u8,
    body: usize,
}

// The words of the tensors and of the nodes' places, in row-major order, and the numbers of the loops.
#[derive(Drop)]
pub(crate) struct Run {
    extents: [u64; 10],
    tensors: Vec<Vec<u64>>,
    places: Vec<Vec<u64>>,
    numbers: [u64; 10],
}

impl Run {
    // The root's places are 0, and all others hold 7.
    pub(crate) fn new(
        rt: &impl Abort,
        alloc: Global,
        tree: &Tree,
        fusion: &Fusion,
        extents: [u64; 10],
        tensors: &[&[u64]],
    ) -> Run {
        Run {
            extents,
            tensors: copies_of(rt, alloc, tensors),
            places: first_places(rt, alloc, tree, fusion, &extents),
            numbers: [0; 10],
        }
    }

    pub(crate) fn root_words(&self, rt: &impl Abort, tree: &Tree) -> &[u64] {
        match self.places.get(tree.count() as usize - 1) {
            Some(words) => words.as_slice(),
            None => panic!(rt; "the root has no places"),
        }
    }

    fn word_at(&self, words: &[u64], indexes: &[u8]) -> u64 {
        let at = place(&self.extents, &self.numbers, indexes);
        match words.get(at as usize) {
            Some(word) => *word,
            None => 0,
        }
    }

    fn word_of(&self, tree: &Tree, fusion: &Fusion, v: u8) -> u64 {
        match self.places.get(v as usize) {
            Some(words) => self.word_at(words.as_slice(), kept(tree, fusion, v).as_slice()),
            None => 0,
        }
    }

    fn operand_word(&self, tree: &Tree, fusion: &Fusion, operand: &Operand) -> u64 {
        match operand {
            Operand::Leaf(leaf) => match self.tensors.get(leaf.tensor as usize) {
                Some(words) => self.word_at(words.as_slice(), leaf.indexes.as_slice()),
                None => 0,
            },
            Operand::Constant(number) => *number,
            Operand::Node(u) => self.word_of(tree, fusion, *u),
        }
    }

    fn left_word(&self, tree: &Tree, fusion: &Fusion, v: u8) -> u64 {
        if v >= tree.count() {
            return 0;
        }
        self.operand_word(tree, fusion, tree.left(v))
    }

    fn right_word(&self, tree: &Tree, fusion: &Fusion, v: u8) -> u64 {
        if v >= tree.count() {
            return 0;
        }
        match tree.right(v) {
            Some(right) => self.operand_word(tree, fusion, right),
            None => 0,
        }
    }

    fn set_word(&mut self, tree: &Tree, fusion: &Fusion, v: u8, word: u64) {
        let at = place(
            &self.extents,
            &self.numbers,
            kept(tree, fusion, v).as_slice(),
        );
        if let Some(words) = self.places.get_mut(v as usize) {
            if let Some(place) = words.get_mut(at as usize) {
                *place = word;
            }
        }
    }

    fn clear(&mut self, v: u8) {
        if let Some(words) = self.places.get_mut(v as usize) {
            for word in words.iter_mut() {
                *word = 0;
            }
        }
    }

    // What an operation puts into the places of a node.
    fn result_of(&self, tree: &Tree, fusion: &Fusion, v: u8, op: Op) -> u64 {
        let left = self.left_word(tree, fusion, v);
        let right = self.right_word(tree, fusion, v);
        match op {
            Op::Mul(_) => left.wrapping_mul(right),
            Op::Add(_) => left.wrapping_add(right),
            Op::Sub(_) => left.wrapping_sub(right),
            _ => self.word_of(tree, fusion, v).wrapping_add(left),
        }
    }

    fn put_result(&mut self, tree: &Tree, fusion: &Fusion, v: u8, op: Op) {
        let word = self.result_of(tree, fusion, v, op);
        self.set_word(tree, fusion, v, word);
    }

    fn apply(&mut self, tree: &Tree, fusion: &Fusion, op: Op) {
        match op {
            Op::Open(_) => {}
            Op::Close => {}
            Op::Clear(v) => self.clear(v),
            Op::Mul(v) => self.put_result(tree, fusion, v, op),
            Op::Add(v) => self.put_result(tree, fusion, v, op),
            Op::Sub(v) => self.put_result(tree, fusion, v, op),
            Op::Acc(v) => self.put_result(tree, fusion, v, op),
        }
    }

    // Begins the next turn of a loop, where there is one, and says where the run goes on.
    fn turn(&mut self, open: OpenLoop) -> Option<usize> {
        if open.index >= 10 {
            return None;
        }
        let next = self.numbers[open.index as usize].wrapping_add(1);
        if next >= self.extents[open.index as usize] {
            return None;
        }
        self.numbers[open.index as usize] = next;
        Some(open.body)
    }

    // Begins a loop, whose body stands at this position.
    fn open(&mut self, rt: &impl Abort, opened: &mut Vec<OpenLoop>, index: u8, body: usize) {
        if index < 10 {
            self.numbers[index as usize] = 0;
        }
        assert!(rt; opened.push(OpenLoop { index, body }).is_ok());
    }

    // Ends a turn of the innermost loop, and says where the run goes on.
    fn close(&mut self, rt: &impl Abort, opened: &mut Vec<OpenLoop>, behind: usize) -> usize {
        let Some(open) = opened.pop() else {
            panic!(rt; "a loop is closed that is not open");
        };
        match self.turn(open) {
            Some(body) => {
                assert!(rt; opened.push(open).is_ok());
                body
            }
            None => behind,
        }
    }

    pub(crate) fn run(
        &mut self,
        rt: &impl Abort,
        alloc: Global,
        tree: &Tree,
        fusion: &Fusion,
        ops: &[Op],
    ) {
        let mut opened = Vec::new(alloc);
        let mut at = 0;
        for _ in 0..LIMIT {
            if at >= ops.len() {
                return;
            }
            let op = ops[at];
            at += 1;
            match op {
                Op::Open(index) => self.open(rt, &mut opened, index, at),
                Op::Close => at = self.close(rt, &mut opened, at),
                _ => self.apply(tree, fusion, op),
            }
        }
        panic!(rt; "the run does not end")
    }
}

fn copies_of(rt: &impl Abort, alloc: Global, tensors: &[&[u64]]) -> Vec<Vec<u64>> {
    let mut copies = Vec::new(alloc);
    for words in tensors {
        match Vec::from_slice(alloc, *words) {
            Ok(copy) => assert!(rt; copies.push(copy).is_ok()),
            Err(_) => panic!(rt; "no memory"),
        }
    }
    copies
}

fn first_places(
    rt: &impl Abort,
    alloc: Global,
    tree: &Tree,
    fusion: &Fusion,
    extents: &[u64; 10],
) -> Vec<Vec<u64>> {
    let mut places = Vec::new(alloc);
    let count = tree.count();
    for v in 0..count {
        let size = volume(extents, kept(tree, fusion, v).as_slice());
        let word = if v + 1 == count { 0 } else { 7 };
        assert!(rt; places.push(repeated(rt, alloc, word, size)).is_ok());
    }
    places
}

fn repeated(rt: &impl Abort, alloc: Global, word: u64, size: u64) -> Vec<u64> {
    let mut words = Vec::new(alloc);
    for _ in 0..size.min(LIMIT) {
        assert!(rt; words.push(word).is_ok());
    }
    words
}

fn number(numbers: &[u64; 10], i: u8) -> u64 {
    if i < 10 { numbers[i as usize] } else { 0 }
}

// How many places a box over the indexes has.
fn volume(extents: &[u64; 10], indexes: &[u8]) -> u64 {
    let mut product: u64 = 1;
    for i in indexes {
        product = product.wrapping_mul(number(extents, *i));
    }
    product
}

// The row-major place at the numbers of the indexes.
fn place(extents: &[u64; 10], numbers: &[u64; 10], indexes: &[u8]) -> u64 {
    let mut place: u64 = 0;
    for i in indexes {
        place = place
            .wrapping_mul(number(extents, *i))
            .wrapping_add(number(numbers, *i));
    }
    place
}

// The indexes of a node's places, ascending.
fn kept(tree: &Tree, fusion: &Fusion, v: u8) -> ArrayVec<u8, MAX_INDEXES> {
    let mut list = ArrayVec::new();
    if v >= tree.count() {
        return list;
    }
    let Some(fused) = fusion.0.get(v as usize) else {
        return list;
    };
    let dims = tree.dims(v).minus(*fused);
    for i in 0..24 {
        if dims.has(i) {
            let _pushed = list.try_push(i);
        }
    }
    list
}
