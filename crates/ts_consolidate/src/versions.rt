//! The versions of a merged piece: where those that are kept of what was got of its sources stand, in
//! order.
ghost use Rattle.std.specs.Prelude.{◌≡◌, ◌<◌, ◌+◌, drop, length, slice_index_or, All, IfOk, IsTrue};
ghost use Rattle.ts_base.specs.declared.heads.Version.{Version as AnyVersion};
ghost use Rattle.ts_base.specs.Coords.{coords_eq};
ghost use Rattle.ts_domain.specs.Domains.{is_in_domain};
ghost use Rattle.ts_batch.specs.Batches.{versions_of};
ghost use Rattle.ts_piece.specs.Spots.{IsSpot, spotted, version_in};
ghost use Rattle.ts_table.specs.Tables.{version_or};
ghost use Rattle.ts_model.specs.Merging.{all_got, merged_versions};
ghost use Rattle.ts_consolidate.specs.Placing.{is_last, last_alone};

use crate::placing::in_version_order;
use std::alloc::Global;
use ts_base::OutOfMemory;
use ts_batch::{Batch, BatchesList};
use ts_piece::{Spot, all_spots, cell_at};
use ts_schema::Frame;

/// Where those versions of batches stand that a consolidation keeps: all of them, or of each cell the
/// newest one alone; in global order, those of one cell by their keys.
///
/// `OutOfMemory` also where there are more than 2^32 batches, or 2^32 versions or more in one of them.
pub(crate) fn merged_spots(
    alloc: Global,
    frame: &Frame,
    last: bool,
    batches: &[Batch],
) -> Result<Vec<Spot>, OutOfMemory>
    requires { All (λ (version : AnyVersion). IsTrue (is_in_domain frame.now.domain version.coords)) (versions_of batches.now) }
    ensures there { IfOk result (λ spots. All (IsSpot batches.now) spots.items) }
    ensures kept { IfOk result (λ spots. spotted batches.now spots.items ≡ merged_versions frame.now last (versions_of batches.now)) }
{
    let all = all_spots(alloc, batches)?;
    let ordered = in_version_order(alloc, frame, batches, all)?;
    if last {
        last_alone(alloc, batches, ordered.as_slice())
    } else {
        Ok(ordered)
    }
}

// The last version of each cell, where those of one cell are neighbours.
fn last_alone(alloc: Global, batches: &[Batch], spots: &[Spot]) -> Result<Vec<Spot>, OutOfMemory>
    requires { All (IsSpot batches.now) spots.now }
    ensures there { IfOk result (λ list. All (IsSpot batches.now) list.items) }
    ensures last { IfOk result (λ list. spotted batches.now list.items ≡ last_alone (spotted batches.now spots.now)) }
{
    let mut list = Vec::with_capacity(alloc, spots.len())?;
    for place in 0..spots.len() {
        if is_last(batches, spots, place) {
            list.push(spots[place])?;
        }
    }
    Ok(list)
}

// Whether the next version, if there is one, stands at another cell.
fn is_last(batches: &[Batch], spots: &[Spot], place: usize) -> bool
    requires there { All (IsSpot batches.now) spots.now }
    requires within { place < length spots.now }
    ensures { result ≡ is_last (version_or (spotted batches.now spots.now) place) (drop (place + 1) (spotted batches.now spots.now)) }
{
    if place + 1 < spots.len() {
        !is_one_cell(batches, spots[place], spots[place + 1])
    } else {
        true
    }
}

// Whether two versions stand at one cell.
fn is_one_cell(batches: &[Batch], spot: Spot, other: Spot) -> bool
    requires first { IsSpot batches.now spot }
    requires second { IsSpot batches.now other }
    ensures { result ≡ coords_eq (version_in batches.now spot).coords (version_in batches.now other).coords }
{
    cell_at(batches, spot).coords() == cell_at(batches, other).coords()
}

/// The batches of several lists, one list behind another.
pub(crate) fn joined(alloc: Global, lists: BatchesList) -> Result<Vec<Batch>, OutOfMemory>
    ensures { IfOk result (λ batches. versions_of batches.items ≡ all_got lists) }
{
    let mut all = Vec::new(alloc);
    for list in lists.into_vec() {
        let mut batches = list.into_vec();
        all.append(&mut batches)?;
    }
    Ok(all)
}
