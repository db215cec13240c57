// How many numbers and blocks loops have.
ghost use Rattle.std.specs.Prelude.{◌≡◌, ◌<◌, ◌≤◌, length, map, All, IfSome};
ghost use Rattle.tce_space.specs.Box.{product};
ghost use Rattle.tce_space.specs.Limits.{max_volume};
ghost use Rattle.tce_space.specs.Space.{extent_at};
ghost use Rattle.tce_walk.specs.Touches.{block_count};

use tce_space::{MAX_VOLUME, Space};

// The product of the extents of loops, where it is at most 2^90.
pub(crate) fn volume_of(space: &Space, loops: &[u8]) -> Option<u128>
    requires { All (λ i. i < length space.now.indexes) loops.now }
    ensures { IfSome result (λ n. (n ≡ product (map (extent_at space.now) loops.now)) × (n ≤ max_volume)) }
{
    match loops {
        [] => Some(1),
        [first, rest @ ..] => {
            let inner = volume_of(space, rest)?;
            let all = inner * u128::from(space.extent(*first));
            if all > MAX_VOLUME {
                return None;
            }
            Some(all)
        }
    }
}

// How many blocks the edges cut loops into, where they are at most 2^90.
pub(crate) fn blocks_of(space: &Space, loops: &[u8]) -> Option<u128>
    requires { All (λ i. i < length space.now.indexes) loops.now }
    ensures { IfSome result (λ n. (n ≡ block_count space.now loops.now) × (n ≤ max_volume)) }
{
    match loops {
        [] => Some(1),
        [first, rest @ ..] => {
            let inner = blocks_of(space, rest)?;
            let count = space.extent(*first).div_ceil(space.edge(*first));
            let all = inner * u128::from(count);
            if all > MAX_VOLUME {
                return None;
            }
            Some(all)
        }
    }
}
