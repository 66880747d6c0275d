//! Which version stands in each slot of a piece.
ghost use Rattle.std.specs.Prelude.{◌≡◌, ◌-◌, ◌<◌, ◌^◌, ◌++◌, List, ℤ, map, drop, slice_get, All, IfOk};
ghost use Rattle.std.specs.List.{flat_map};
ghost use Rattle.ts_domain.specs.Boxes.{IsBox, cells_of};
ghost use Rattle.ts_order.specs.Orders.{coords_in_order};
ghost use Rattle.ts_piece.specs.Spots.{spotted, IsSpot};
ghost use Rattle.ts_plain.specs.Writes.{hulled_for, NamesWrites};
ghost use Rattle.ts_dense.specs.Dense.{FitsDense};
ghost use Rattle.ts_dense.specs.Slots.{tiles_over};
ghost use Rattle.ts_dense.specs.Laying.{held_in, taken_at, versions_at, hull_of_head, IsSlots};

use std::alloc::Global;
use ts_base::{Coords, CountList, KeyList, OutOfMemory};
use ts_batch::{Batch, BatchCell};
use ts_domain::{BoxList, Order, SubBox};
use ts_order::{coords_at, tiles_of};
use ts_piece::{BatchPiece, PieceParts, Spot, cell_at};
use ts_schema::{Frame, Schema};

/// Which version each slot has.
#[derive(Drop)]
pub(crate) enum SlotCells<'p> {
    /// The next one of the piece, which has all cells of its hull.
    Full,
    /// This one, or none where the piece does not have the cell.
    Holed(Vec<Option<BatchCell<'p>>>),
}

/// The slots of a piece, space tile by space tile.
#[derive(Drop)]
pub(crate) struct Slots<'p> {
    /// The keys of the writes that the versions are of.
    pub origins: &'p KeyList,
    /// How many slots each space tile has.
    pub counts: CountList,
    /// The piece.
    pub piece: &'p BatchPiece,
    /// The version of each slot.
    pub cells: SlotCells<'p>,
}

/// The slots of a piece. Where it has all cells of its hull, no list of them is made.
pub(crate) fn slots_of<'p>(
    alloc: Global,
    frame: &Frame,
    schema: &Schema,
    piece: &'p BatchPiece,
) -> Result<Slots<'p>, OutOfMemory>
    requires names { NamesWrites piece.now }
    requires fits { FitsDense frame.now schema.now.attrs piece.now.head.frag (hulled_for piece.now) }
    ensures { IfOk result (λ slots. IsSlots frame.now piece.entry.now slots) }
{
    let tiles = tiles_over(alloc, frame, schema, piece)?;
    let counts = counts_of(alloc, tiles.as_slice())?;
    let cells = cells_of(alloc, frame, schema, tiles.as_slice(), piece)?;
    Ok(Slots {
        origins: &piece.head().origins,
        counts,
        piece,
        cells,
    })
}

// The space tiles that meet the hull, each cut to it.
fn tiles_over(
    alloc: Global,
    frame: &Frame,
    schema: &Schema,
    piece: &BatchPiece,
) -> Result<BoxList, OutOfMemory>
    requires names { NamesWrites piece.now }
    requires fits { FitsDense frame.now schema.now.attrs piece.now.head.frag (hulled_for piece.now) }
    ensures tiles { IfOk result (λ tiles. tiles ≡ tiles_over frame.now (hull_of_head piece.now.head)) }
    ensures valid { IfOk result (λ tiles. All IsBox tiles) }
{
    let head = piece.head();
    let hull = SubBox {
        low: head.low,
        high: head.high,
    };
    let _cells = count(&hull)?;
    tiles_of(alloc, &frame.domain, frame.tile, &hull)
}

// The number of cells of a box. No more than 2^64 - 2 slots have room in memory.
fn count(sub: &SubBox) -> Result<u64, OutOfMemory>
    requires { IsBox sub.now }
    ensures cells { IfOk result (λ cells. cells ≡ cells_of sub.now) }
    ensures few { IfOk result (λ cells. cells < 2 ^ 64 - 1) }
{
    let cells = sub.cells();
    if cells == u64::MAX {
        return Err(OutOfMemory);
    }
    Ok(cells)
}

// The number of cells of each box.
fn counts_of(alloc: Global, tiles: &[SubBox]) -> Result<CountList, OutOfMemory>
    requires { All IsBox tiles.now }
    ensures { IfOk result (λ counts. counts ≡ map cells_of tiles.now) }
{
    let mut counts = CountList::new(alloc);
    for tile in tiles {
        counts.push(count(tile)?)?;
    }
    Ok(counts)
}

// The version of each slot.
fn cells_of<'p>(
    alloc: Global,
    frame: &Frame,
    schema: &Schema,
    tiles: &[SubBox],
    piece: &'p BatchPiece,
) -> Result<SlotCells<'p>, OutOfMemory>
    requires fits { FitsDense frame.now schema.now.attrs piece.now.head.frag (hulled_for piece.now) }
    requires tiles { tiles.now ≡ tiles_over frame.now (hull_of_head piece.now.head) }
    requires valid { All IsBox tiles.now }
    ensures { IfOk result (λ cells. held_in piece.entry.now cells ≡ versions_at (flat_map (coords_in_order frame.now.cell) tiles.now) piece.entry.now.versions) }
{
    if piece.len() == piece.head().cells {
        return Ok(SlotCells::Full);
    }
    Ok(SlotCells::Holed(holed(alloc, frame.cell, tiles, piece)?))
}

// The version of each slot, or none where the piece does not have the cell.
//
// The versions stand in the same order as the slots. So the next version is that of a slot, or of a
// slot behind it.
fn holed<'p>(
    alloc: Global,
    order: Order,
    tiles: &[SubBox],
    piece: &'p BatchPiece,
) -> Result<Vec<Option<BatchCell<'p>>>, OutOfMemory>
    requires valid { All IsBox tiles.now }
    ensures { IfOk result (λ slots. slots.items ≡ versions_at (flat_map (coords_in_order order) tiles.now) piece.entry.now.versions) }
{
    let PieceParts { batches, spots } = piece.parts();
    let mut slots = Vec::new(alloc);
    let mut next = 0;
    for tile in tiles {
        next = fill(&mut slots, order, tile, batches, spots, next)?;
    }
    Ok(slots)
}

// Fills the slots of a tile with the versions from a place on, and says from which place on the next tile
// is filled.
fn fill<'p>(
    slots: &mut Vec<Option<BatchCell<'p>>>,
    order: Order,
    tile: &SubBox,
    batches: &'p [Batch],
    spots: &[Spot],
    first: usize,
) -> Result<usize, OutOfMemory>
    requires valid { IsBox tile.now }
    requires there { All (IsSpot batches.now) spots.now }
    ensures { IfOk result (λ next. (more : List (List ℤ)) → slots.old.items ++ versions_at (coords_in_order order tile.now ++ more) (drop first (spotted batches.entry.now spots.now)) ≡ slots.new.items ++ versions_at more (drop next (spotted batches.entry.now spots.now))) }
{
    let mut next = first;
    let cells = count(tile)?;
    for place in 0..cells {
        let at = coords_at(tile, order, place);
        let slot = version_at(batches, spots, next, &at);
        let taken = slot.is_some();
        slots.push(slot)?;
        if taken {
            next += 1;
        }
    }
    Ok(next)
}

// The version at the spot at a place, if it has these coordinates.
fn version_at<'p>(
    batches: &'p [Batch],
    spots: &[Spot],
    place: usize,
    at: &Coords,
) -> Option<BatchCell<'p>>
    requires { All (IsSpot batches.now) spots.now }
    ensures { result ≡ taken_at at.now (slice_get (spotted batches.entry.now spots.now) place) }
{
    if place >= spots.len() {
        return None;
    }
    let version = cell_at(batches, spots[place]);
    if version.coords() == *at {
        Some(version)
    } else {
        None
    }
}
