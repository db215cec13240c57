// Products of extents and of edges.
ghost use Rattle.std.specs.Prelude.{◌≡◌, ◌<◌, ◌≤◌, ◌^◌, SomeIff};
ghost use Rattle.tce_space.specs.Box.{product};
ghost use Rattle.tce_space.specs.Tiling.{ArePositive};

// The product of positive numbers.
pub(crate) fn product_of(numbers: &[u64]) -> u64
    requires positive { ArePositive numbers.now }
    requires fits { product numbers.now < 2 ^ 64 }
    ensures { result ≡ product numbers.now }
{
    let mut all = 1;
    for number in numbers {
        all *= *number;
    }
    all
}

// The product of positive numbers, where it is within a limit.
pub(crate) fn product_within(numbers: &[u64], limit: u64) -> Option<u64>
    requires positive { ArePositive numbers.now }
    requires some { 0 < limit }
    ensures { SomeIff result (product numbers.now ≤ limit) (product numbers.now) }
{
    let mut all: u64 = 1;
    for number in numbers {
        let Some(next) = all.checked_mul(*number) else {
            return None;
        };
        if next > limit {
            return None;
        }
        all = next;
    }
    Some(all)
}
