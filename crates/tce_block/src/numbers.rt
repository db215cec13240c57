// The numbers of a block, one for each dimension.
ghost use Rattle.std.specs.Prelude.{◌≡◌, ℕ, ◌+◌, ◌<◌, length, true, false};
ghost use Rattle.tce_space.specs.Box.{IsInside, place, product};
ghost use Rattle.tce_block.specs.Steps.{IsStep};

/// Goes on to the next numbers in row-major order, each below its count, and after the last ones to the first.
/// Tells whether it went to the first.
pub fn advance(numbers: &mut [u64], counts: &[u64]) -> bool
    requires { IsInside counts.now numbers.old }
    ensures { IsStep counts.now numbers.old numbers.new result }
{
    for d in (0..numbers.len()).rev() {
        if numbers[d] + 1 < counts[d] {
            numbers[d] += 1;
            return false;
        }
        numbers[d] = 0;
    }
    true
}
