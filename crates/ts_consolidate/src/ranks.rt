//! Sorting versions by numbers that are cheap to compare.
ghost use Rattle.std.specs.Prelude.{◌≡◌, ◌≤◌, ◌<◌, map, All, IfOk};
ghost use Rattle.std.specs.List.Sorted.{IsPermutation};
ghost use Rattle.ts_piece.specs.Spots.{IsSpot};
ghost use Rattle.ts_consolidate.specs.Placing.{spot_of};

use std::alloc::Global;
use ts_base::OutOfMemory;
use ts_batch::{Batch, BatchCell};
use ts_domain::{Dim, Domain, Order};
use ts_piece::{Spot, cell_at};
use ts_schema::Frame;

/// A version as it is sorted: by its space tile, by its cell in that, and by its write.
#[derive(Clone, Copy, Debug, PartialEq, Eq, PartialOrd, Ord)]
pub(crate) struct Ranked {
    // The number of the space tile, counted over the domain.
    tile: u64,
    // The number of the cell, counted over its space tile.
    cell: u64,
    // The timestamp of the write.
    t: u64,
    // Where the version stands.
    batch: u32,
    place: u32,
}

/// How the coordinates of a dimension are counted.
#[derive(Clone, Copy, Debug)]
struct Line {
    // The place of the dimension.
    dim: u8,
    // The least coordinate.
    low: i128,
    // The number of coordinates in a space tile.
    extent: u64,
    // The number of space tiles.
    tiles: u64,
    ghost some: { 1 ≤ extent },
}

/// The spots of versions, sorted by numbers of their space tiles, of their cells there and of their
/// writes.
///
/// That is the order of their places where these numbers are below 2^64, and writes of one timestamp
/// stand in the order of their keys. No clause says so: who asks has to look.
pub(crate) fn sorted(
    alloc: Global,
    frame: &Frame,
    batches: &[Batch],
    spots: &[Spot],
) -> Result<Vec<Spot>, OutOfMemory>
    requires { All (IsSpot batches.now) spots.now }
    ensures { IfOk result (λ sorted. IsPermutation spots.now sorted.items) }
{
    let mut ranks = ranks_of(alloc, frame, batches, spots)?;
    ranks.sort_unstable();
    spots_of(alloc, ranks.as_slice())
}

// The ranks of versions, as they stand.
fn ranks_of(
    alloc: Global,
    frame: &Frame,
    batches: &[Batch],
    spots: &[Spot],
) -> Result<Vec<Ranked>, OutOfMemory>
    requires { All (IsSpot batches.now) spots.now }
    ensures { IfOk result (λ ranks. map spot_of ranks.items ≡ spots.now) }
{
    let tiles = lines_of(alloc, &frame.domain, frame.tile)?;
    let cells = lines_of(alloc, &frame.domain, frame.cell)?;
    let mut ranks = Vec::with_capacity(alloc, spots.len())?;
    for spot in spots {
        let cell = cell_at(batches, *spot);
        ranks.push(Ranked {
            tile: tile_number(tiles.as_slice(), &cell),
            cell: cell_number(cells.as_slice(), &cell),
            t: cell.key().t,
            batch: spot.batch,
            place: spot.place,
        })?;
    }
    Ok(ranks)
}

// The spots of ranks.
fn spots_of(alloc: Global, ranks: &[Ranked]) -> Result<Vec<Spot>, OutOfMemory>
    ensures { IfOk result (λ spots. spots.items ≡ map spot_of ranks.now) }
{
    let mut spots = Vec::with_capacity(alloc, ranks.len())?;
    for ranked in ranks {
        spots.push(Spot {
            batch: ranked.batch,
            place: ranked.place,
        })?;
    }
    Ok(spots)
}

// How the dimensions are counted, those in front that are compared first.
fn lines_of(alloc: Global, domain: &Domain, order: Order) -> Result<Vec<Line>, OutOfMemory> {
    let mut lines = Vec::with_capacity(alloc, domain.count() as usize)?;
    for rank in 0..domain.count() {
        let dim = match order {
            Order::Row => rank,
            Order::Col => domain.count() - 1 - rank,
        };
        lines.push(line_of(dim, domain.dim(dim)))?;
    }
    Ok(lines)
}

// How a dimension is counted.
fn line_of(place: u8, dim: &Dim) -> Line {
    let extent = within_64_bits(dim.extent.unsigned_abs()).max(1);
    let length = within_64_bits(dim.high.abs_diff(dim.low));
    Line {
        dim: place,
        low: dim.low,
        extent,
        tiles: (length / extent).saturating_add(1),
    }
}

// The number of the space tile of a cell.
fn tile_number(lines: &[Line], cell: &BatchCell<'_>) -> u64 {
    let mut number: u64 = 0;
    for line in lines {
        number = number
            .wrapping_mul(line.tiles)
            .wrapping_add(steps(line, cell) / line.extent);
    }
    number
}

// The number of a cell in its space tile.
fn cell_number(lines: &[Line], cell: &BatchCell<'_>) -> u64 {
    let mut number: u64 = 0;
    for line in lines {
        number = number
            .wrapping_mul(line.extent)
            .wrapping_add(steps(line, cell) % line.extent);
    }
    number
}

// How far a cell is from the least coordinate of a dimension.
fn steps(line: &Line, cell: &BatchCell<'_>) -> u64 {
    match cell.coord(line.dim) {
        Some(at) => within_64_bits(at.abs_diff(line.low)),
        None => 0,
    }
}

// The number, or 2^64 - 1 where it is above that.
fn within_64_bits(number: u128) -> u64 {
    if number < u64::MAX as u128 {
        number as u64
    } else {
        u64::MAX
    }
}
