//! Numbers from their digits.

ghost use Rattle.std.specs.Prelude.{◌≡◌, ◌≤◌, ◌^◌, false, true, MatchOption};
ghost use Rattle.tce_grammar.specs.Code.{text_if_some};
ghost use Rattle.tce_spec.specs.Numbers.{value_of, leads_with_zero, is_range_size, edge_of, GivesRangeNumber};

const MAX_EXTENT: u64 = 4_294_967_295;

/// The number of some digits. `None` where it is 2^64 or more.
#[tactic(auto, using(crate::proofs::Values::value_at))]
pub fn value_of(digits: &[u8]) -> Option<u64>
    ensures { MatchOption result (2 ^ 64 ≤ value_of digits.now) (λ n. n ≡ value_of digits.now) }
{
    let mut number: u64 = 0;
    for digit in digits {
        let Some(tens) = number.checked_mul(10) else {
            return None;
        };
        let Some(sum) = tens.checked_add(u64::from(digit.saturating_sub(b'0'))) else {
            return None;
        };
        number = sum;
    }
    Some(number)
}

/// Whether a zero stands in front of other digits.
pub fn leads_with_zero(digits: &[u8]) -> bool
    ensures { result ≡ leads_with_zero digits.now }
{
    match digits {
        [first, rest @ ..] => *first == b'0' && rest.len() > 0,
        [] => false,
    }
}

/// An extent or an edge.
fn range_number(digits: &[u8]) -> Option<u64>
    ensures { GivesRangeNumber digits.now result }
{
    if leads_with_zero(digits) {
        return None;
    }
    let Some(number) = value_of(digits) else {
        return None;
    };
    if number == 0 || number > MAX_EXTENT {
        return None;
    }
    Some(number)
}

/// The extent and the edge of a range, in elements. The edge is 1 where none is given.
pub(crate) fn range_size(extent: &[u8], edge: Option<&[u8]>) -> Option<(u64, u64)>
    ensures { MatchOption result (is_range_size extent.now (text_if_some edge.entry) ≡ false)
        (λ size. (is_range_size extent.now (text_if_some edge.entry) ≡ true)
        × (size.0 ≡ value_of extent.now) × (size.1 ≡ edge_of (text_if_some edge.entry))) }
{
    let Some(extent_value) = range_number(extent) else {
        return None;
    };
    let Some(digits) = edge else {
        return Some((extent_value, 1));
    };
    let Some(edge_value) = range_number(digits) else {
        return None;
    };
    if edge_value <= extent_value {
        Some((extent_value, edge_value))
    } else {
        None
    }
}
