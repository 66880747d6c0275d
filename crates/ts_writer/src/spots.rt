//! The spots of the cells of a box in global order.
ghost use Rattle.std.specs.Prelude.{◌≡◌, ◌<◌, ◌^◌, ◌++◌, IfOk, IsTrue, OnOk};
ghost use Rattle.ts_domain.specs.Boxes.{IsBox, cells_of, is_in_box, Covers};
ghost use Rattle.ts_domain.specs.Domains.{LiesInDomain};
ghost use Rattle.ts_writer.specs.Spots.{spot_in, spots_in, spots_over};

use crate::runs::add_runs;
use std::alloc::Global;
use ts_base::{Coords, OutOfMemory};
use ts_domain::{Order, SubBox};
use ts_order::{coords_at, position_of, tiles_of};
use ts_piece::Spot;
use ts_schema::Frame;

/// The spots of all cells of a box, in global order. Their versions are the first batch, in the order of
/// a layout.
pub(crate) fn spots_of(
    alloc: Global,
    frame: &Frame,
    layout: Order,
    sub: &SubBox,
) -> Result<Vec<Spot>, OutOfMemory>
    requires valid { IsBox sub.now }
    requires inside { LiesInDomain frame.now.domain sub.now }
    requires few { cells_of sub.now < 2 ^ 32 }
    ensures { IfOk result (λ spots. spots.items ≡ spots_over frame.now layout sub.now) }
{
    let tiles = tiles_of(alloc, &frame.domain, frame.tile, sub)?;
    let mut spots = Vec::with_capacity(alloc, sub.cells() as usize)?;
    for tile in tiles.as_slice() {
        add_tile(alloc, &mut spots, layout, sub, frame.cell, tile)?;
    }
    Ok(spots)
}

// Appends the spots of the cells of a space tile, in their order. Where the cell order is the layout
// whole runs are appended.
fn add_tile(
    alloc: Global,
    spots: &mut Vec<Spot>,
    layout: Order,
    sub: &SubBox,
    cell: Order,
    tile: &SubBox,
) -> Result<(), OutOfMemory>
    requires valid { IsBox tile.now }
    requires within { Covers sub.now tile.now }
    requires few { cells_of sub.now < 2 ^ 32 }
    ensures { OnOk result (spots.new.items ≡ spots.old.items ++ spots_in layout sub.now cell tile.now) }
{
    if cell == layout {
        add_runs(alloc, spots, layout, sub, tile)
    } else {
        add_cells(spots, layout, sub, cell, tile)
    }
}

// Appends the spots of the cells of a space tile, cell after cell.
fn add_cells(
    spots: &mut Vec<Spot>,
    layout: Order,
    sub: &SubBox,
    cell: Order,
    tile: &SubBox,
) -> Result<(), OutOfMemory>
    requires valid { IsBox tile.now }
    requires within { Covers sub.now tile.now }
    requires few { cells_of sub.now < 2 ^ 32 }
    ensures { OnOk result (spots.new.items ≡ spots.old.items ++ spots_in layout sub.now cell tile.now) }
{
    for place in 0..tile.cells() {
        let at = coords_at(tile, cell, place);
        spots.push(spot_of(layout, sub, &at))?;
    }
    Ok(())
}

// The spot of a cell.
fn spot_of(layout: Order, sub: &SubBox, at: &Coords) -> Spot
    requires few { cells_of sub.now < 2 ^ 32 }
    requires inside { IsTrue (is_in_box sub.now at.now) }
    ensures { result ≡ spot_in layout sub.now at.now }
{
    Spot {
        batch: 0,
        place: position_of(sub, layout, at) as u32,
    }
}
