//! The strips of the versions of boxes.
ghost use Rattle.std.specs.Prelude.{◌≡◌, ◌<◌, ◌^◌, ◌-◌, ◌++◌, [], length, map, slice_index_or, All, IfOk, IfSome, IsTrue};
ghost use Rattle.std.specs.List.{flat_map};
ghost use Rattle.std.specs.List.Sorted.{IsPermutation};
ghost use Rattle.ts_base.specs.declared.heads.Version.{Version as AnyVersion};
ghost use Rattle.ts_batch.specs.Batches.{versions_of};
ghost use Rattle.ts_domain.specs.Boxes.{IsBox, cells_of, coords_of_box};
ghost use Rattle.ts_strip.specs.Strips.{strip_versions, IsStrip, Climb};

use std::alloc::Global;
use ts_base::OutOfMemory;
use ts_batch::Batch;
use ts_domain::{Order, SubBox};
use ts_gather::{does_cover, run_in, run_starts};

/// Some cells that stand one after another in a box, in row order. Their versions stand one after
/// another in a batch. All is counted from 0.
#[derive(Clone, Copy, Debug, PartialEq, Eq)]
pub struct Strip {
    /// The place of the first cell in the box.
    pub start: u64,
    /// The number of cells.
    pub count: u64,
    /// The place of the batch.
    pub batch: u64,
    /// The place of the first version in its batch.
    pub place: u64,
}

/// The strips of the versions of batches in a box, one batch after the other.
///
/// Each is as long as a row of its batch, and there are none where a batch is not of a box in row order
/// that lies in this one. No clause says either. Where there are none a caller goes version by version.
pub fn strips_of(
    alloc: Global,
    sub: &SubBox,
    batches: &[Batch],
) -> Result<Option<Vec<Strip>>, OutOfMemory>
    requires valid { IsBox sub.now }
    requires few { cells_of sub.now < 2 ^ 64 - 1 }
    ensures each { IfOk result (λ found. IfSome found (λ strips. All (IsStrip batches.now (coords_of_box sub.now)) strips.items)) }
    ensures all { IfOk result (λ found. IfSome found (λ strips. flat_map (strip_versions batches.now) strips.items ≡ versions_of batches.now)) }
{
    let mut strips = Vec::new(alloc);
    for batch in 0..batches.len() {
        if !add_strips(alloc, &mut strips, sub, batches, batch)? {
            return Ok(None);
        }
    }
    Ok(Some(strips))
}

/// Strips in the order of their cells in a box, which has so many.
///
/// None where two of them share a cell, or one ends behind the last cell; no clause says so.
pub fn in_order(
    alloc: Global,
    strips: &[Strip],
    cells: u64,
) -> Result<Option<Vec<Strip>>, OutOfMemory>
    ensures same { IfOk result (λ found. IfSome found (λ sorted. IsPermutation strips.now sorted.items)) }
    ensures climb { IfOk result (λ found. IfSome found (λ sorted. Climb 0 sorted.items cells)) }
{
    let mut sorted = Vec::with_capacity(alloc, strips.len())?;
    sorted.extend_from_slice(strips)?;
    sorted.sort_by(|strip, other| strip.start.cmp(&other.start))?;
    if do_climb(sorted.as_slice(), cells) {
        Ok(Some(sorted))
    } else {
        Ok(None)
    }
}

// Whether each strip begins behind the end of the one before, and all end within so many cells.
fn do_climb(strips: &[Strip], cells: u64) -> bool
    ensures { IsTrue result → Climb 0 strips.now cells }
{
    let mut at = 0;
    for strip in strips {
        if strip.start < at {
            return false;
        }
        match strip.start.checked_add(strip.count) {
            Some(end) => at = end,
            None => return false,
        }
    }
    at <= cells
}

// The strips of one batch more, or false where it is not of a box in row order that lies in this one.
fn add_strips(
    alloc: Global,
    strips: &mut Vec<Strip>,
    sub: &SubBox,
    batches: &[Batch],
    batch: usize,
) -> Result<bool, OutOfMemory>
    requires few { cells_of sub.now < 2 ^ 64 - 1 }
    requires within { batch < length batches.now }
    requires each { All (IsStrip batches.now (coords_of_box sub.now)) strips.old.items }
    ensures each { All (IsStrip batches.now (coords_of_box sub.now)) strips.new.items }
    ensures more { IfOk result (λ done. IsTrue done → flat_map (strip_versions batches.now) strips.new.items ≡ flat_map (strip_versions batches.now) strips.old.items ++ slice_index_or batches.now batch []) }
{
    let Some(table) = batches[batch].as_box() else {
        return Ok(false);
    };
    let parts = table.parts();
    match parts.order {
        Order::Row => add_rows(alloc, strips, sub, batches, batch, parts.sub),
        Order::Col => Ok(false),
    }
}

// The strips of one batch more, whose versions are of the cells of a box in row order.
fn add_rows(
    alloc: Global,
    strips: &mut Vec<Strip>,
    sub: &SubBox,
    batches: &[Batch],
    batch: usize,
    inner: &SubBox,
) -> Result<bool, OutOfMemory>
    requires valid { IsBox inner.now }
    requires few_inner { cells_of inner.now < 2 ^ 64 - 1 }
    requires few { cells_of sub.now < 2 ^ 64 - 1 }
    requires within { batch < length batches.now }
    requires each { All (IsStrip batches.now (coords_of_box sub.now)) strips.old.items }
    requires cells { map (λ (v : AnyVersion). v.coords) (slice_index_or batches.now batch []) ≡ coords_of_box inner.now }
    ensures each { All (IsStrip batches.now (coords_of_box sub.now)) strips.new.items }
    ensures more { IfOk result (λ done. IsTrue done → flat_map (strip_versions batches.now) strips.new.items ≡ flat_map (strip_versions batches.now) strips.old.items ++ slice_index_or batches.now batch []) }
{
    if !does_cover(sub, inner) {
        return Ok(false);
    }
    let count = run_in(inner, Order::Row);
    let starts = run_starts(alloc, sub, inner, Order::Row)?;
    let mut place = 0;
    for start in starts.as_slice() {
        strips.push(Strip {
            start: *start,
            count,
            batch: batch as u64,
            place,
        })?;
        place += count;
    }
    Ok(true)
}
