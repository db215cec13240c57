// Elements of arrays whose tiles a cache holds.
ghost use Rattle.std.specs.Prelude.{◌≡◌, ◌+◌, ◌<◌, ◌^◌, length, slice_index, All, IfOk, OnOk, IsErr, IsTrue};
ghost use Rattle.std.specs.Option.{ForSome};
ghost use Rattle.tce_space.specs.Limits.{max_indexes};
ghost use Rattle.tce_space.specs.Box.{IsInside};
ghost use Rattle.tce_cache.specs.Cache.{IsCache, IsReady, IsWritable, HasRoom, IsSameOutsideFrames, OnlyWritableDiffers};
ghost use Rattle.tce_cache.specs.Transfer.{HasFile};
ghost use Rattle.tce_cache.specs.Touch.{KeepsArrays, with_held};
ghost use Rattle.tce_exec.specs.NodeStates.{current_cell};
ghost use Rattle.tce_exec.specs.Elements.{coordinates_at, InArray, IsElementAt, IsElementTouched};
ghost use Rattle.tce_exec.specs.Storages.{IsSame, ReportsFaults};

use crate::element::{ElementPlace, coordinates_of, place_of_element};
use crate::storage::Storage;
use tce_cache::Cache;
use tce_outside::{Disk, Failed};
use tce_space::Numbers;
use tce_tree::Leaf;

// The tile in which the element of a tensor at these numbers lies, and its place there.
fn find_element(cache: &Cache, leaf: &Leaf, numbers: &Numbers) -> ElementPlace
    requires known { All (λ i. i < max_indexes) leaf.now.indexes.items }
    requires inside { InArray cache.now leaf.now (λ a.
        IsInside a.shape.extents (coordinates_at leaf.now numbers.now)) }
    ensures { InArray cache.now leaf.now (λ a.
        IsElementAt a.shape (coordinates_at leaf.now numbers.now) result.tile result.place) }
{
    let coordinates = coordinates_of(leaf.indexes.as_slice(), numbers);
    place_of_element(&cache.array(leaf.tensor).shape, coordinates.as_slice())
}

// Touches the tile in which the element of a tensor at these numbers lies, and answers the place of its word.
//
// With `write` the tile is touched for writing.
pub(crate) fn touch_element<D: Disk>(
    store: &mut Storage<'_, D>,
    leaf: &Leaf,
    numbers: &Numbers,
    write: bool,
) -> Result<u64, Failed>
    requires known { All (λ i. i < max_indexes) leaf.now.indexes.items }
    requires inside { InArray store.old.cache.now leaf.now (λ a.
        IsInside a.shape.extents (coordinates_at leaf.now numbers.now)) }
    requires writable { IsTrue write → IsWritable store.old.cache.now leaf.now.tensor }
    requires room { HasRoom store.old.cache.now store.old.words.now }
    requires count { store.old.cache.now.touches < 2 ^ 100 }
    requires ready { ForSome (D.files store.old.disk.now) (λ fs.
        IsReady store.old.cache.now fs store.old.words.now × InArray store.old.cache.now leaf.now (λ a. HasFile a fs)) }
    ensures touched { IfOk result (λ at. InArray store.old.cache.now leaf.now (λ a.
        IsElementTouched store.old.cache.now store.new.cache.now leaf.now.tensor a.shape (coordinates_at leaf.now numbers.now) write at)) }
    ensures word { IfOk result (λ at. InArray store.old.cache.now leaf.now (λ a.
        ForSome (D.files store.old.disk.now) (λ fs. slice_index store.new.words.now at
        ≡ current_cell store.old.cache.now fs store.old.words.now leaf.now.tensor a.shape (coordinates_at leaf.now numbers.now)))) }
    ensures within { IfOk result (λ at. at < length store.new.words.now) }
    ensures arrays { OnOk result (KeepsArrays store.old.cache.now store.new.cache.now
        (D.files store.old.disk.now) (D.files store.new.disk.now) store.old.words.now store.new.words.now) }
    ensures kept { store.new.cache.now
        ≡ with_held store.old.cache.now store.new.cache.now.held (store.old.cache.now.touches + 1) }
    ensures cache { IsCache store.new.cache.now }
    ensures outside { IsSameOutsideFrames store.old.cache.now
        store.old.words.now store.new.words.now }
    ensures others { OnlyWritableDiffers store.old.cache.now
        (D.files store.old.disk.now) (D.files store.new.disk.now) }
    ensures same { IsSame store.old store.new }
    ensures fault_reported { ReportsFaults D.faults store.old store.new (IsErr result) }
{
    // The length of the block bounds all places.
    let _len = store.words.len();
    let at = find_element(store.cache, leaf, numbers);
    let first = store
        .cache
        .touch(store.disk, store.words, leaf.tensor, at.tile, write)?;
    Ok(first + at.place)
}
