//! Where versions stand in batches.
ghost use Rattle.std.specs.Prelude.{◌≡◌, ◌<◌, ◌++◌, [], map, length, slice_index_or, All, IfOk, OnOk};
ghost use Rattle.ts_batch.specs.Batches.{versions_of};
ghost use Rattle.ts_piece.specs.Spots.{version_in, spotted, in_first, IsSpot};

use std::alloc::Global;
use ts_base::OutOfMemory;
use ts_batch::{Batch, BatchCell, BatchCellList};

/// Where a version stands in batches: in which of them, and at which place there, both counted from 0.
#[derive(Clone, Copy, Debug, PartialEq, Eq)]
pub struct Spot {
    /// The place of the batch.
    pub batch: u32,
    /// The place of the version in its batch.
    pub place: u32,
}

/// The version at a spot.
pub fn cell_at(batches: &[Batch], spot: Spot) -> BatchCell<'_>
    requires { IsSpot batches.now spot }
    ensures { result ≡ version_in batches.now spot }
{
    BatchCell::of(&batches[spot.batch as usize], spot.place as u64)
}

/// The versions at some spots. None is copied.
pub(crate) fn cells_at<'a>(
    alloc: Global,
    batches: &'a [Batch],
    spots: &[Spot],
) -> Result<BatchCellList<'a>, OutOfMemory>
    requires { All (IsSpot batches.now) spots.now }
    ensures { IfOk result (λ list. list ≡ spotted batches.now spots.now) }
{
    let mut list = BatchCellList::from_vec(Vec::with_capacity(alloc, spots.len())?);
    for spot in spots {
        list.push(cell_at(batches, *spot))?;
    }
    Ok(list)
}

/// The spots of all versions of batches, in their order.
///
/// `OutOfMemory` also where there are more than 2^32 batches, or 2^32 versions or more in one of them.
pub fn all_spots(alloc: Global, batches: &[Batch]) -> Result<Vec<Spot>, OutOfMemory>
    ensures there { IfOk result (λ spots. All (IsSpot batches.now) spots.items) }
    ensures all { IfOk result (λ spots. spotted batches.now spots.items ≡ versions_of batches.now) }
{
    let mut spots = Vec::new(alloc);
    for batch in 0..batches.len() {
        add_spots(&mut spots, batches, batch)?;
    }
    Ok(spots)
}

// The spots of one batch more.
fn add_spots(spots: &mut Vec<Spot>, batches: &[Batch], batch: usize) -> Result<(), OutOfMemory>
    requires within { batch < length batches.now }
    requires there { All (IsSpot batches.now) spots.old.items }
    ensures there { OnOk result (All (IsSpot batches.now) spots.new.items) }
    ensures more { OnOk result (spotted batches.now spots.new.items ≡ spotted batches.now spots.old.items ++ slice_index_or batches.now batch []) }
{
    let Ok(first) = u32::try_from(batch) else {
        return Err(OutOfMemory);
    };
    let Ok(count) = u32::try_from(batches[batch].len()) else {
        return Err(OutOfMemory);
    };
    for place in 0..count {
        spots.push(Spot {
            batch: first,
            place,
        })?;
    }
    Ok(())
}

/// The spots at some places of the first batch.
pub(crate) fn first_spots(alloc: Global, places: &[u32]) -> Result<Vec<Spot>, OutOfMemory>
    ensures { IfOk result (λ spots. spots.items ≡ map in_first places.now) }
{
    let mut spots = Vec::with_capacity(alloc, places.len())?;
    for place in places {
        spots.push(Spot {
            batch: 0,
            place: *place,
        })?;
    }
    Ok(spots)
}
