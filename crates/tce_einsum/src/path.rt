//! The path of an einsum.

ghost use Rattle.std.specs.Prelude.{◌≡◌, ◌<◌, ℕ, MatchOption};
ghost use Rattle.std.specs.Fmt.{decimal};
ghost use Rattle.tce_fields.specs.Reading.{texts};
ghost use Rattle.tce_einsum.specs.Code.{item, items, AnswersItems};
ghost use Rattle.tce_einsum.specs.Path as model;
ghost use Rattle.tce_einsum.specs.Path.{item_text, item_texts, Fits, left_by};

use crate::fault::EinsumFault;
use crate::parts::{cut, split};
use std::alloc::Global;
use tce_fields::read_number;

/// The positions of the entries that are taken out of the list, from 0. The first one named is written on the left.
#[derive(Clone, Copy)]
pub enum Item {
    One(u64),
    Two(u64, u64),
}

/// A position in a list of so many entries.
fn read_position(text: &[u8], count: u64) -> Option<u64>
    ensures { MatchOption result
        ((p : ℕ) → text.now ≡ decimal p → p < count → ⊥)
        (λ p. (text.now ≡ decimal p) × (p < count)) }
{
    match read_number(text) {
        Some(position) if position < count as u128 => Some(position as u64),
        _ => None,
    }
}

/// Two different positions.
fn read_two(first: &[u8], second: &[u8], count: u64) -> Option<Item>
    ensures { MatchOption result
        ((p q : ℕ) → first.now ≡ decimal p → second.now ≡ decimal q → Fits count (model.two p q) → ⊥)
        (λ i. (p : ℕ) × (q : ℕ) × (item i ≡ model.two p q) × (first.now ≡ decimal p) × (second.now ≡ decimal q) × Fits count (model.two p q)) }
{
    let Some(p) = read_position(first, count) else {
        return None;
    };
    let Some(q) = read_position(second, count) else {
        return None;
    };
    if p == q {
        return None;
    }
    Some(Item::Two(p, q))
}

/// An item that fits a list of so many entries.
fn read_item(text: &[u8], count: u64) -> Option<Item>
    ensures { MatchOption result
        ((i : model.Item) → text.now ≡ item_text i → Fits count i → ⊥)
        (λ i. (text.now ≡ item_text (item i)) × Fits count (item i)) }
{
    match cut(text, b',') {
        Some((first, second)) => read_two(first, second, count),
        None => match read_position(text, count) {
            Some(position) => Some(Item::One(position)),
            None => None,
        },
    }
}

/// How many entries an item leaves.
fn left_by(count: u64, read: Item) -> u64
    requires { Fits count (item read) }
    ensures { result ≡ left_by count (item read) }
{
    match read {
        Item::One(_) => count,
        Item::Two(_, _) => count - 1,
    }
}

fn read_items(alloc: Global, parts: &[&[u8]], count: u64) -> Result<Vec<Item>, EinsumFault>
    ensures { AnswersItems (λ v. items v.items) count (texts parts.now) result }
{
    let mut found = Vec::new(alloc);
    let mut left = count;
    for (number, part) in parts.iter().enumerate() {
        let Some(read) = read_item(*part, left) else {
            return Err(EinsumFault::BadPath(number as u64));
        };
        found.push(read)?;
        left = left_by(left, read);
    }
    if left == 1 {
        Ok(found)
    } else {
        Err(EinsumFault::BadPath(parts.len() as u64))
    }
}

/// Reads a path over a list of so many entries: items with `;` between them, each one position or two with `,` between
/// them, as `0,1;0,1`.
pub(crate) fn read_path(alloc: Global, path: &[u8], count: u64) -> Result<Vec<Item>, EinsumFault>
    ensures { AnswersItems (λ v. items v.items) count (item_texts path.now) result }
{
    let parts = split(alloc, path, b';')?;
    read_items(alloc, parts.as_slice(), count)
}
