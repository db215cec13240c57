// Places of candidates in groups, so that few of them need be compared with a state.
ghost use Rattle.std.specs.Prelude.{◌≡◌, ◌<◌, ◌≤◌, ◌+◌, ◌*◌, ◌%◌, ℕ, map, replicate, slice_index_or, [], length, IfOk, OnOk, OnErr, Contains};
ghost use Rattle.tce_search.specs.Groups.{key_of, group_of, AreByCost, ArePut};
ghost use Rattle.tce_search.specs.declared.groups.Entry.{Entry};

use std::alloc::{AllocError, Global};
use std::marker::Model;
use tce_space::IndexSet;

/// The place of a candidate in its list, its cost, and the marks of its upper parts.
#[derive(Clone, Copy)]
pub(crate) struct Entry {
    pub(crate) cost: u128,
    pub(crate) place: usize,
    pub(crate) marks: IndexSet,
}

/// Lists of entries by cost, one for each remainder of a key, with a cost for each that none of its entries is below.
#[derive(Drop)]
pub(crate) struct Groups {
    lists: Vec<Vec<Entry>>,
    // A word each, so that more of them stay in the processor's cache. The greatest word is kept for costs that are more.
    leasts: Vec<u64>,
}

impl Model for Groups {
    ghost use Rattle.std.specs.Prelude.{List, map};
    ghost use Rattle.tce_search.specs.declared.groups.Entry as kept;
    ghost use Rattle.tce_search.specs.Groups.{HaveLeasts};

    ghost Value = { List (List kept.Entry) };

    ghost view = { λ g. map (λ list. list.items) g.lists.items };

    ghost invariant = { λ g. HaveLeasts (map (λ list. list.items) g.lists.items) g.leasts.items };
}

/// The key of three sets of loops. Its factor is a prime, which keeps sets apart that differ in few loops.
pub(crate) fn key_of(part: IndexSet, under: IndexSet, third: IndexSet) -> usize
    ensures { result ≡ key_of part under third }
{
    (part.bits() as usize * 1021 + under.bits() as usize) * 1021 + third.bits() as usize
}

// The group of a key, where there are so many.
fn number_of(key: usize, count: usize) -> usize
    requires { 0 < count }
    ensures value { result ≡ key % count }
    ensures inside { result < count }
{
    key % count
}

// Lowers one of the costs to another, where that is less.
fn lower(leasts: &mut Vec<u64>, number: usize, cost: u128)
    requires { number < length leasts.old.items }
    ensures count { length leasts.new.items ≡ length leasts.old.items }
    ensures none_raised { (k : ℕ) → slice_index_or leasts.new.items k 0 ≤ slice_index_or
        leasts.old.items k 0 }
    ensures at { slice_index_or leasts.new.items number 0 ≤ cost }
{
    if cost < u128::from(leasts[number]) {
        leasts[number] = cost as u64;
    }
}

// Where an entry of this cost goes among entries by cost: behind those that cost less.
fn place_for(entries: &[Entry], cost: u128) -> usize
    requires { AreByCost entries.now }
    ensures inside { result ≤ length entries.now }
    ensures before { (k : ℕ) (e : Entry) → k < result
        → (slice_index_or entries.now k e).cost ≤ cost }
    ensures behind { (k : ℕ) (e : Entry) → result ≤ k → k < length entries.now
        → cost ≤ (slice_index_or entries.now k e).cost }
{
    let mut place = entries.len();
    while 0 < place {
        if entries[place - 1].cost < cost {
            return place;
        }
        place -= 1;
    }
    0
}

// Puts an entry among entries by cost.
fn put(entries: &mut Vec<Entry>, entry: Entry) -> Result<(), AllocError>
    requires { AreByCost entries.old.items }
    ensures put { OnOk result (ArePut entries.old.items entry entries.new.items) }
    ensures unchanged { OnErr result (entries.new.items ≡ entries.old.items) }
{
    let place = place_for(entries.as_slice(), entry.cost);
    entries.insert(place, entry)?;
    Ok(())
}

// So many lists without entries.
fn no_entries(alloc: Global, count: usize) -> Result<Vec<Vec<Entry>>, AllocError>
    ensures empty { IfOk result (λ lists. map (λ list. list.items) lists.items ≡ replicate count []) }
    ensures count { IfOk result (λ lists. length lists.items ≡ count) }
{
    let mut lists = Vec::with_capacity(alloc, count)?;
    for _ in 0..count {
        lists.push(Vec::new(alloc))?;
    }
    Ok(lists)
}

impl Groups {
    /// So many groups without entries.
    pub(crate) fn new(alloc: Global, count: usize) -> Result<Groups, AllocError>
        requires { 0 < count }
        ensures { IfOk result (λ groups. groups ≡ replicate count []) }
    {
        let lists = no_entries(alloc, count)?;
        let leasts = vec![in alloc; u64::MAX; count]?;
        Ok(Groups { lists, leasts })
    }

    /// The entries of the group of a key, by cost.
    pub(crate) fn of(&self, key: usize) -> &[Entry]
        ensures value { result.now ≡ group_of self.now key }
        ensures order { AreByCost result.now }
    {
        self.lists[number_of(key, self.lists.len())].as_slice()
    }

    /// A cost that no entry of the group of a key is below.
    pub(crate) fn least_of(&self, key: usize) -> u128
        ensures { (e : Entry) → Contains (group_of self.now key) e → result ≤ e.cost }
    {
        let number = number_of(key, self.lists.len());
        u128::from(self.leasts[number])
    }

    /// Puts an entry into the group of a key.
    pub(crate) fn push(&mut self, key: usize, entry: Entry) -> Result<(), AllocError>
        ensures added { OnOk result (Contains (group_of self.new key) entry) }
        ensures kept { (k : ℕ) (e : Entry) → Contains (group_of self.old k) e
            → Contains (group_of self.new k) e }
    {
        let number = number_of(key, self.lists.len());
        lower(&mut self.leasts, number, entry.cost);
        put(&mut self.lists[number], entry)?;
        Ok(())
    }
}
