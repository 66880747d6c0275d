//! The coordinates along a dimension at spots, by the columns of batches.
ghost use Rattle.std.specs.Prelude.{◌≡◌, ◌<◌, pos, length, get_or, slice_get, IfOk};
ghost use Rattle.ts_piece.specs.Spots.{version_in, IsSpot};
ghost use Rattle.ts_table.specs.Widths.{numbers_seen};
ghost use Rattle.ts_sparse.specs.Seen.{coord_of, IsSlice, AreSlices};

use std::alloc::Global;
use ts_base::OutOfMemory;
use ts_batch::{Batch, BatchCell};
use ts_piece::{Spot, cell_at};
use ts_table::Integers;

/// The coordinates of each batch along a dimension as a slice, where it has them so.
#[tactic(auto, using(crate::proofs::SeenLaws::eaches))]
pub(crate) fn slices_of(
    alloc: Global,
    batches: &[Batch],
    dim: u8,
) -> Result<Vec<Option<Integers<'_>>>, OutOfMemory>
    ensures { IfOk result (λ slices. AreSlices dim batches.now slices.items) }
{
    let mut slices = Vec::with_capacity(alloc, batches.len())?;
    for batch in batches {
        slices.push(slice_of(batch, dim))?;
    }
    Ok(slices)
}

// The coordinates of a batch along a dimension as a slice, if it has them so.
fn slice_of(batch: &Batch, dim: u8) -> Option<Integers<'_>>
    ensures { IsSlice dim batch.now result }
{
    match batch.column(dim) {
        Some(column) => column.as_slice(),
        None => None,
    }
}

/// The coordinate along a dimension at a spot, or 0 where there is no such dimension.
#[tactic(auto, using(crate::proofs::SeenLaws::batch_there, crate::proofs::SeenLaws::slices_many))]
pub(crate) fn coord_at(
    batches: &[Batch],
    slices: &[Option<Integers<'_>>],
    dim: u8,
    spot: Spot,
) -> i128
    requires there { IsSpot batches.now spot }
    requires slices { AreSlices dim batches.now slices.now }
    ensures { result ≡ coord_of dim (version_in batches.now spot) }
{
    match slices[spot.batch as usize] {
        Some(all) => number_in(all, spot.place),
        None => coord_of(&cell_at(batches, spot), dim),
    }
}

// The coordinate of a cell along a dimension, or 0 where there is no such dimension.
#[tactic(auto, using(crate::proofs::SeenValues::coord_there))]
fn coord_of(version: &BatchCell<'_>, dim: u8) -> i128
    ensures { result ≡ coord_of dim version.now }
{
    match version.coord(dim) {
        Some(x) => x,
        None => 0,
    }
}

/// The integer at a place.
pub(crate) fn number_in(all: Integers<'_>, place: u32) -> i128
    requires { place < length (numbers_seen all) }
    ensures { result ≡ get_or (numbers_seen all.entry) place (pos 0) }
{
    match all {
        Integers::Short(short) => short[place as usize] as i128,
        Integers::Long(long) => long[place as usize] as i128,
    }
}
