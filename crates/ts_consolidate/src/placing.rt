//! Versions in order: by their places, each key and cell once.
ghost use Rattle.std.specs.Prelude.{◌≡◌, ◌<◌, [], true, length, All, IfOk, IsTrue};
ghost use Rattle.std.specs.BTreeMap.{values};
ghost use Rattle.std.specs.List.{AllAdjacentBelow};
ghost use Rattle.std.specs.List.Sorted.{IsStrictlySortedBy};
ghost use Rattle.std.specs.declared.cmp.Ordering.TheVariants.{Less};
ghost use Rattle.ts_base.specs.declared.heads.Version.{Version as AnyVersion};
ghost use Rattle.ts_domain.specs.Domains.{is_in_domain};
ghost use Rattle.ts_piece.specs.Spots.{IsSpot, spotted, version_in};
ghost use Rattle.ts_model.specs.Merging.{in_version_order};
ghost use Rattle.ts_consolidate.specs.Placing.{by_version, place_of, placed_behind};

use crate::ranks::sorted;
use std::alloc::{AllocError, Global};
use std::cmp::Ordering;
use std::collections::BTreeMap;
use ts_base::OutOfMemory;
use ts_batch::Batch;
use ts_model::{VersionPlace, place_of};
use ts_piece::{Spot, cell_at};
use ts_schema::Frame;

/// Versions in global order, those of one cell by their keys. Where two have one key and one cell the
/// first is kept.
///
/// Those that ascend as they stand are taken so. Others are sorted by numbers that are cheap to
/// compare. Where they do not ascend then either, since two have one place, or since the cells of a
/// tile are too many to be counted, they are put in order by a tree.
pub(crate) fn in_version_order(
    alloc: Global,
    frame: &Frame,
    batches: &[Batch],
    spots: Vec<Spot>,
) -> Result<Vec<Spot>, OutOfMemory>
    requires there { All (IsSpot batches.now) spots.items }
    requires inside { All (λ (version : AnyVersion). IsTrue (is_in_domain frame.now.domain version.coords)) (spotted batches.now spots.items) }
    ensures there { IfOk result (λ ordered. All (IsSpot batches.now) ordered.items) }
    ensures order { IfOk result (λ ordered. spotted batches.now ordered.items ≡ in_version_order frame.now (spotted batches.now spots.items)) }
{
    if ascend(frame, batches, spots.as_slice()) {
        return Ok(spots);
    }
    let ranked = sorted(alloc, frame, batches, spots.as_slice())?;
    if ascend(frame, batches, ranked.as_slice()) {
        return Ok(ranked);
    }
    let placed = placed(alloc, frame, batches, spots)?;
    Ok(by_place(alloc, placed)?)
}

// Whether versions ascend by their places.
fn ascend(frame: &Frame, batches: &[Batch], spots: &[Spot]) -> bool
    requires there { All (IsSpot batches.now) spots.now }
    requires inside { All (λ (version : AnyVersion). IsTrue (is_in_domain frame.now.domain version.coords)) (spotted batches.now spots.now) }
    ensures { result ≡ true → IsStrictlySortedBy (by_version frame.now) (spotted batches.now spots.now) }
{
    do_neighbours_ascend(frame, batches, spots)
}

// Whether each version comes before the next.
fn do_neighbours_ascend(frame: &Frame, batches: &[Batch], spots: &[Spot]) -> bool
    requires there { All (IsSpot batches.now) spots.now }
    requires inside { All (λ (version : AnyVersion). IsTrue (is_in_domain frame.now.domain version.coords)) (spotted batches.now spots.now) }
    ensures { result ≡ true → AllAdjacentBelow (λ (v w : AnyVersion). by_version frame.now v w ≡ Less) (spotted batches.now spots.now) (length spots.now) }
{
    if spots.is_empty() {
        return true;
    }
    let mut last = place_at(frame, batches, spots[0]);
    for next in 1..spots.len() {
        let place = place_at(frame, batches, spots[next]);
        let Ordering::Less = last.cmp(&place) else {
            return false;
        };
        last = place;
    }
    true
}

// The versions by their places. Where two have one place the first is kept.
fn placed(
    alloc: Global,
    frame: &Frame,
    batches: &[Batch],
    spots: Vec<Spot>,
) -> Result<BTreeMap<VersionPlace, Spot>, OutOfMemory>
    requires there { All (IsSpot batches.now) spots.items }
    requires inside { All (λ (version : AnyVersion). IsTrue (is_in_domain frame.now.domain version.coords)) (spotted batches.now spots.items) }
    ensures { IfOk result (λ placed. placed.entries ≡ placed_behind frame.now batches.now spots.items []) }
{
    let mut spots = spots;
    let mut placed = BTreeMap::new(alloc);
    while let Some(spot) = spots.pop() {
        let place = place_at(frame, batches, spot);
        placed.insert(place, spot)?;
    }
    Ok(placed)
}

// The place of a version.
fn place_at(frame: &Frame, batches: &[Batch], spot: Spot) -> VersionPlace
    requires there { IsSpot batches.now spot }
    requires inside { IsTrue (is_in_domain frame.now.domain (version_in batches.now spot).coords) }
    ensures { result ≡ place_of frame.now (version_in batches.now spot) }
{
    let cell = cell_at(batches, spot);
    VersionPlace {
        place: place_of(frame, &cell.coords()),
        key: cell.key(),
    }
}

// All versions, in the order of their places.
fn by_place(alloc: Global, placed: BTreeMap<VersionPlace, Spot>) -> Result<Vec<Spot>, AllocError>
    ensures { IfOk result (λ spots. spots.items ≡ values placed) }
{
    placed.into_values().collect(alloc)
}
