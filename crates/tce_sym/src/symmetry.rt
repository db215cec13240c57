// Which elements are stored, and where.
ghost use Rattle.std.specs.Prelude.{◌≡◌, ◌+◌, ◌^◌, ◌<◌, ◌≤◌, ◌++◌, length};
ghost use Rattle.tce_space.specs.Limits.{max_array_words};
ghost use Rattle.arrayvec.specs.ArrayVec.{array_vec_len};
ghost use Rattle.tce_space.specs.Box.{IsInside};
ghost use Rattle.tce_space.specs.Tiling.{elements};
ghost use Rattle.tce_sym.specs.Storage.{AreRight, IsPair, at_first, at_second, at_others, pairs, stored_place, stored_count, turned};

use arrayvec::ArrayVec;
use tce_space::{MAX_RANK, Shape, place};

/// Which two coordinates of a tensor may be exchanged, and whether its elements then turn their sign.
#[derive(Clone, Copy)]
pub struct Symmetry {
    /// The position of the first of the two dimensions, counted from 0.
    pub first: u8,
    /// The position of the second, which comes behind the first and has the same extent.
    pub second: u8,
    /// Whether the tensor is antisymmetric: an element of exchanged coordinates is 0 less the element.
    pub negated: bool,
}

/// What a list has at the other positions.
pub(crate) fn at_others(s: &Symmetry, numbers: &[u64]) -> ArrayVec<u64, MAX_RANK>
    requires ordered { s.now.first < s.now.second }
    requires inside { s.now.second < length numbers.now }
    requires short { length numbers.now ≤ 8 }
    ensures { result.items ≡ at_others s.now numbers.now }
{
    let first = s.first as usize;
    let second = s.second as usize;
    let mut others = ArrayVec::new();
    push_all(&mut others, &numbers[..first]);
    push_all(&mut others, &numbers[first + 1..second]);
    push_all(&mut others, &numbers[second + 1..]);
    others
}

/// Appends numbers.
pub(crate) fn push_all(list: &mut ArrayVec<u64, MAX_RANK>, numbers: &[u64])
    requires { array_vec_len list.old + length numbers.now ≤ 8 }
    ensures items { list.new.items ≡ list.old.items ++ numbers.now }
    ensures len { array_vec_len list.new ≡ array_vec_len list.old + length numbers.now }
{
    let Ok(()) = list.try_extend_from_slice(numbers) else {
        unreachable!()
    };
}

/// How many pairs there are whose coordinates are below a number.
pub(crate) fn pairs(negated: bool, n: u64) -> u64
    requires { n < 2 ^ 32 }
    ensures { result ≡ pairs negated n }
{
    if negated {
        n * n.saturating_sub(1) / 2
    } else {
        n * (n + 1) / 2
    }
}

/// How many elements are stored. They are no more than the elements of the shape.
pub(crate) fn stored_count(shape: &Shape, s: &Symmetry) -> u64
    requires { AreRight shape.now.extents s.now }
    ensures count { result ≡ stored_count shape.now.extents s.now }
    ensures few { result ≤ elements shape.now }
    ensures small { result ≤ max_array_words }
    ensures rank { length shape.now.extents ≤ 8 }
{
    let extent = shape.extents()[s.first as usize];
    shape.elements() / (extent * extent) * pairs(s.negated, extent)
}

/// The place of a stored element among the stored words, in words. Different stored elements have different places, and
/// every place below their number is one, as [`stored_places_are_theirs`](crate::stored_places_are_theirs) says.
pub fn stored_place(shape: &Shape, s: &Symmetry, coords: &[u64]) -> u64
    requires right { AreRight shape.now.extents s.now }
    requires inside { IsInside shape.now.extents coords.now }
    requires pair { IsPair s.now.negated (at_first s.now coords.now) (at_second s.now coords.now) }
    ensures place { result ≡ stored_place shape.now.extents s.now coords.now }
    ensures within { result < stored_count shape.now.extents s.now }
{
    let extents = shape.extents();
    let lengths = at_others(s, extents);
    let others = at_others(s, coords);
    let outer = place(lengths.as_slice(), others.as_slice());
    let first = coords[s.first as usize];
    let second = coords[s.second as usize];
    let pair = pairs(s.negated, second) + first;
    outer * pairs(s.negated, extents[s.first as usize]) + pair
}

/// A word with its sign turned, if it is to be.
#[tactic(auto, unfolding(tce_base::specs::Word::wrapping_sub))]
pub(crate) fn signed(negated: bool, word: u64) -> u64
    ensures { result ≡ turned negated word }
{
    if negated {
        0u64.wrapping_sub(word)
    } else {
        word
    }
}
