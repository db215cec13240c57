//! Tiles and frames of a specification.

ghost use Rattle.std.specs.Prelude.{◌≡◌, ◌+◌, ◌*◌, ◌<◌, ◌≤◌, length};
ghost use Rattle.tce_space.specs.Limits.{max_array_words, max_tile_words};
ghost use Rattle.tce_space.specs.Tiling.{tiles};
ghost use Rattle.tce_spec.specs.Operands.{largest_tile, shape_of};
ghost use Rattle.tce_job.specs.Takings.{least_budget, tile_count, frame_count, tile_take};

use tce_spec::Spec;

/// The words of the largest tile of the operands and the result.
fn frame_words(spec: &Spec) -> u64
    ensures words { result ≡ largest_tile spec.now }
    ensures some { 0 < result }
    ensures limit { result ≤ max_tile_words }
{
    // A specification keeps its rules.
    let _result = spec.result();
    spec.largest_tile()
}

/// The tiles of one tensor.
fn tiles_of(spec: &Spec, t: u8) -> u64
    requires { t < length spec.now.declarations.tensors }
    ensures tiles { result ≡ tiles (shape_of spec.now t) }
    ensures limit { result ≤ max_array_words }
{
    spec.tensor(t).shape.tiles()
}

/// The least budget of a run, in words: three of the largest tiles of the operands and the result.
pub fn least_budget(spec: &Spec) -> u64
    ensures words { result ≡ least_budget spec.now }
    ensures limit { result ≤ 3 * max_tile_words }
{
    3 * frame_words(spec)
}

/// How many tiles the operands and the result have together. A tensor that is used twice counts once, and one that is
/// not used not at all.
pub fn tile_count(spec: &Spec) -> u64
    ensures { result ≡ tile_count spec.now }
{
    let operands = spec.operands();
    let mut count = tiles_of(spec, spec.result().tensor);
    for t in operands.as_slice() {
        count += tiles_of(spec, *t);
    }
    count
}

/// How many frames a run has under this budget, in words: as many as it has room for, and no more than there are tiles,
/// or three.
pub fn frame_count(spec: &Spec, budget: u64) -> u64
    requires { least_budget spec.now ≤ budget }
    ensures frames { result ≡ frame_count spec.now budget }
    ensures enough { 3 ≤ result }
{
    let room = budget / frame_words(spec);
    room.min(tile_count(spec).max(3))
}

/// The words that a run takes for tiles under this budget: those of all its frames.
pub fn tile_take(spec: &Spec, budget: u64) -> u64
    requires { least_budget spec.now ≤ budget }
    ensures words { result ≡ tile_take spec.now budget }
    ensures within { result ≤ budget }
{
    frame_words(spec) * frame_count(spec, budget)
}
