//! The entries that a path works on, as trees whose nodes stand in one list.

ghost use Rattle.std.specs.Prelude.{◌≡◌, ◌≢◌, ◌∷◌, ◌++◌, [], ℕ, ◌+◌, ◌<◌, ◌≤◌, map, nat_lt, if◌then◌else◌, slice_index_or, remove, All, OnOk, IfOk, IsTrue, length};
ghost use Rattle.std.specs.List.{list_any};
ghost use Rattle.tce_space.specs.IndexSet.{has};
ghost use Rattle.tce_tree.specs.ContractionTree.{leaf, binary, multiply};
ghost use Rattle.tce_einsum.specs.Code as code;
ghost use Rattle.tce_einsum.specs.Path.{Fits, Leave, left_by};
ghost use Rattle.tce_einsum.specs.Entries as list;
ghost use Rattle.tce_einsum.specs.Numbered as model;
ghost use Rattle.tce_fields.specs.Reading.{texts};
ghost use Rattle.tce_einsum.specs.EntriesCode.{tree_in, trees_in, IsEntry, AreEntries, Keeps, AreKept};

use crate::input::Input;
use crate::label_set::LabelSet;
use crate::numbering::numbers_of;
use crate::path::Item;
use crate::size::Size;
use crate::text::Einsum;
use std::alloc::{AllocError, Global};

/// A part of a tree. It names other nodes by their places in the list of nodes.
#[derive(Drop)]
pub(crate) enum Node {
    /// An operand by its number, with its labels.
    Operand(u64, Vec<u8>),
    Product(usize, usize),
    /// A sum over labels.
    Sum(Vec<u8>, usize),
}

/// An entry: the place of its node, and the labels that are not summed in it.
#[derive(Clone, Copy)]
pub(crate) struct Entry {
    pub(crate) node: usize,
    free: LabelSet,
}

/// The list of entries, and the nodes of their trees.
#[derive(Drop)]
pub(crate) struct Entries {
    pub(crate) nodes: Vec<Node>,
    pub(crate) entries: Vec<Entry>,
}

/// How many labels there are, and which of them stand in the output.
#[derive(Clone, Copy)]
pub(crate) struct KeptLabels {
    count: u8,
    output: LabelSet,
}

/// Which of these labels are free in one of these entries. The last entries are looked at first, since an item puts its
/// entry there, and no more of them than it takes to find all the labels.
fn found_in(entries: &[Entry], labels: LabelSet) -> LabelSet
    ensures { (i : ℕ) → IsTrue (has labels.bits i) → has result.bits i ≡ list_any (λ e. has e.free.bits i) entries.now }
{
    let mut found = LabelSet::empty();
    let mut rest = entries;
    while let Some((entry, before)) = rest.split_last() {
        if labels.is_within(found) {
            return found;
        }
        found = found.union(entry.free);
        rest = before;
    }
    found
}

/// Puts a node behind the others, and gives its place.
fn push_node(nodes: &mut Vec<Node>, node: Node) -> Result<usize, AllocError>
    ensures place { IfOk result (λ place. place ≡ length nodes.old.items) }
    ensures nodes { OnOk result (nodes.new.items ≡ nodes.old.items ++ node ∷ []) }
{
    let place = nodes.len();
    nodes.push(node)?;
    Ok(place)
}

/// A product of two entries.
fn product(nodes: &mut Vec<Node>, left: Entry, right: Entry) -> Result<Entry, AllocError>
    requires left { IsEntry nodes.old.items left }
    requires right { IsEntry nodes.old.items right }
    ensures tree { IfOk result (λ entry. tree_in nodes.new.items entry ≡ binary multiply (tree_in nodes.old.items left) (tree_in nodes.old.items right)) }
    ensures entry { IfOk result (λ entry. IsEntry nodes.new.items entry) }
    ensures kept { OnOk result (Keeps nodes.old.items nodes.new.items) }
{
    let free = left.free.union(right.free);
    let node = push_node(nodes, Node::Product(left.node, right.node))?;
    Ok(Entry { node, free })
}

/// An entry in a sum over these labels; where there are none, the entry itself.
fn summed(nodes: &mut Vec<Node>, made: Entry, labels: Vec<u8>) -> Result<Entry, AllocError>
    requires labels { All (λ i. i < 32) labels.items }
    requires made { IsEntry nodes.old.items made }
    ensures tree { IfOk result (λ entry. tree_in nodes.new.items entry ≡ list.summed labels.items (tree_in nodes.old.items made)) }
    ensures entry { IfOk result (λ entry. IsEntry nodes.new.items entry) }
    ensures kept { OnOk result (Keeps nodes.old.items nodes.new.items) }
{
    if labels.is_empty() {
        return Ok(made);
    }
    let free = made.free.minus(LabelSet::of_list(labels.as_slice()));
    let node = push_node(nodes, Node::Sum(labels, made.node))?;
    Ok(Entry { node, free })
}

/// Takes two entries out of a list.
fn take_two(entries: &mut Vec<Entry>, p: usize, q: usize) -> (Entry, Entry)
    requires first { p < length entries.old.items }
    requires second { q < length entries.old.items }
    requires apart { p ≢ q }
    ensures left { result.0 ≡ slice_index_or entries.old.items p result.0 }
    ensures right { result.1 ≡ slice_index_or entries.old.items q result.1 }
    ensures left_over { length entries.new.items + 2 ≡ length entries.old.items }
    ensures others { entries.new.items ≡ (if nat_lt p q then remove (remove entries.old.items q) p else remove (remove entries.old.items p) q) }
{
    let left = entries[p];
    let right = entries[q];
    if p < q {
        entries.remove(q);
        entries.remove(p);
    } else {
        entries.remove(p);
        entries.remove(q);
    }
    (left, right)
}

impl Entries {
    /// Takes out what an item names, and gives what it makes of it: the entry itself, or the product of two.
    fn take(&mut self, step: Item) -> Result<Entry, AllocError>
        requires fits { Fits (length self.old.entries.items) (code.item step) }
        requires entries { AreEntries self.old }
        ensures made { IfOk result (λ entry. tree_in self.new.nodes.items entry ≡ list.made (trees_in self.old) (code.item step)) }
        ensures entry { IfOk result (λ entry. IsEntry self.new.nodes.items entry) }
        ensures others { OnOk result (trees_in self.new ≡ list.others (trees_in self.old) (code.item step)) }
        ensures entries { OnOk result (AreEntries self.new) }
        ensures left { OnOk result (length self.new.entries.items + 1 ≡ left_by (length self.old.entries.items) (code.item step)) }
    {
        match step {
            Item::One(p) => Ok(self.entries.remove(p as usize)),
            Item::Two(p, q) => {
                let (left, right) = take_two(&mut self.entries, p as usize, q as usize);
                let entry = product(&mut self.nodes, left, right)?;
                Ok(entry)
            }
        }
    }

    /// Appends an entry, in a sum over its labels that stand neither in the output nor in another entry.
    fn add(&mut self, alloc: Global, made: Entry, kept: KeptLabels) -> Result<(), AllocError>
        requires few { kept.count ≤ 32 }
        requires made { IsEntry self.old.nodes.items made }
        requires entries { AreEntries self.old }
        ensures added { OnOk result ((ls : list.Labels) → AreKept kept ls
            → trees_in self.new ≡ list.with_entry ls (trees_in self.old) (tree_in self.old.nodes.items made)) }
        ensures entries { OnOk result (AreEntries self.new) }
        ensures longer { OnOk result (length self.new.entries.items ≡ length self.old.entries.items + 1) }
    {
        let inner = made.free.minus(kept.output);
        let elsewhere = found_in(self.entries.as_slice(), inner);
        let labels = inner.minus(elsewhere).members(alloc, kept.count)?;
        let entry = summed(&mut self.nodes, made, labels)?;
        self.entries.push(entry)?;
        Ok(())
    }

    /// What an item makes of the list.
    fn contract(&mut self, alloc: Global, step: Item, kept: KeptLabels) -> Result<(), AllocError>
        requires few { kept.count ≤ 32 }
        requires fits { Fits (length self.old.entries.items) (code.item step) }
        requires entries { AreEntries self.old }
        ensures contracted { OnOk result ((ls : list.Labels) → AreKept kept ls
            → trees_in self.new ≡ list.contracted ls (trees_in self.old) (code.item step)) }
        ensures entries { OnOk result (AreEntries self.new) }
        ensures left { OnOk result (length self.new.entries.items ≡ left_by (length self.old.entries.items) (code.item step)) }
    {
        let made = self.take(step)?;
        self.add(alloc, made, kept)
    }
    /// What the items of a path make of the list.
    pub(crate) fn contract_all(
        &mut self,
        alloc: Global,
        steps: &[Item],
        kept: KeptLabels,
    ) -> Result<(), AllocError>
        requires few { kept.count ≤ 32 }
        requires leave { Leave (length self.old.entries.items) (code.items steps.now) 1 }
        requires entries { AreEntries self.old }
        ensures contracted { OnOk result ((ls : list.Labels) → AreKept kept ls
            → trees_in self.new ≡ list.entries_after ls (trees_in self.old) (code.items steps.now)) }
        ensures entries { OnOk result (AreEntries self.new) }
    {
        let mut rest = steps;
        while let [step, behind @ ..] = rest {
            self.contract(alloc, *step, kept)?;
            rest = behind;
        }
        Ok(())
    }

    /// Appends an operand.
    fn push_operand(&mut self, number: u64, labels: Vec<u8>) -> Result<(), AllocError>
        requires labels { All (λ i. i < 32) labels.items }
        requires entries { AreEntries self.old }
        ensures leaf { OnOk result (trees_in self.new ≡ trees_in self.old ++ leaf number labels.items ∷ []) }
        ensures entries { OnOk result (AreEntries self.new) }
        ensures longer { OnOk result (length self.new.entries.items ≡ length self.old.entries.items + 1) }
    {
        let free = LabelSet::of_list(labels.as_slice());
        let node = push_node(&mut self.nodes, Node::Operand(number, labels))?;
        self.entries.push(Entry { node, free })?;
        Ok(())
    }

    /// The operands with the numbers of their labels.
    pub(crate) fn of_operands(
        alloc: Global,
        sizes: &[Size],
        operands: &[&[u8]],
    ) -> Result<Entries, AllocError>
        requires { length sizes.now ≤ 26 }
        ensures leaves { IfOk result (λ es. trees_in es ≡ list.leaves (map (model.numbers_of (code.sizes sizes.now)) (texts operands.now))) }
        ensures entries { IfOk result AreEntries }
        ensures count { IfOk result (λ es. length es.entries.items ≡ length operands.now) }
    {
        let mut all = Entries {
            nodes: Vec::new(alloc),
            entries: Vec::new(alloc),
        };
        let mut number: u64 = 0;
        let mut rest = operands;
        while let [labels, behind @ ..] = rest {
            all.push_operand(number, numbers_of(alloc, sizes, *labels)?)?;
            number += 1;
            rest = behind;
        }
        Ok(all)
    }
}

/// How many labels there are, and those of the output.
fn kept_labels(alloc: Global, whole: &Einsum) -> Result<KeptLabels, AllocError>
    requires { length whole.now.sizes.items ≤ 26 }
    ensures few { IfOk result (λ kept. kept.count ≤ 32) }
    ensures labels { IfOk result (λ kept. AreKept kept (model.numbered_labels (code.einsum whole.now))) }
{
    let sizes = whole.sizes.as_slice();
    let numbers = numbers_of(alloc, sizes, whole.output)?;
    Ok(KeptLabels {
        count: sizes.len() as u8,
        output: LabelSet::of_list(numbers.as_slice()),
    })
}

/// The one entry that the path leaves of the operands.
pub(crate) fn contraction_of(alloc: Global, input: &Input) -> Result<Entries, AllocError>
    requires few { length input.now.einsum.sizes.items ≤ 26 }
    requires leave { Leave (length input.now.einsum.operands.items) (code.items input.now.items.items) 1 }
    ensures tree { IfOk result (λ es. trees_in es ≡ model.contraction_of (code.einsum input.now.einsum) (code.items input.now.items.items) ∷ []) }
    ensures entries { IfOk result AreEntries }
{
    let whole = &input.einsum;
    let kept = kept_labels(alloc, whole)?;
    let mut all = Entries::of_operands(alloc, whole.sizes.as_slice(), whole.operands.as_slice())?;
    all.contract_all(alloc, input.items.as_slice(), kept)?;
    Ok(all)
}
