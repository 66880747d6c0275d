//! The space tiles that a fetch reads.
ghost use Rattle.std.specs.Prelude.{◌≡◌, ◌<◌, ◌-◌, ◌^◌, ℤ, List, length, map, All, IfOk, IsTrue};
ghost use Rattle.ts_domain.specs.Boxes.{IsBox, is_in_box, cells_of, do_boxes_meet};
ghost use Rattle.ts_domain.specs.Domains.{LiesInDomain};
ghost use Rattle.ts_order.specs.Orders.{coords_in_order};
ghost use Rattle.ts_order.specs.Tiles.{tile_box};
ghost use Rattle.ts_dense_read.specs.SpaceTakes.{HasRoom, tiles_met};
ghost use Rattle.ts_dense_read.specs.TileRanges.{range_of, tile_of};

use crate::before::cells_before;
use crate::parts::part_of;
use crate::ranges::{numbers_of, range_of};
use crate::spans::spans_of;
use std::alloc::Global;
use ts_base::{Coords, OutOfMemory};
use ts_domain::SubBox;
use ts_order::{coords_at, position_of};
use ts_schema::Frame;
use ts_sparse_read::{UsedColumn, WantedTile, WantedTiles, is_box_in};

/// The most cells of a hull whose tiles are read. A write has no more than 2^20 cells, and a consolidation
/// none of a box with more than 2^24. Metadata of a hundred bytes may claim far more.
const MOST_CELLS: u64 = 1 << 24;

/// The space tiles of a hull that meet the box, where it is one of the array, with their spans in these
/// objects, which are as long as the cells of the hull ask.
#[tactic(auto, using(ts_sparse_read::proofs::TileLaws::box_valid, crate::proofs::MeetTiles::meeting_steps))]
pub(crate) fn tiles_met(
    alloc: Global,
    frame: &Frame,
    hull: &SubBox,
    used: &[UsedColumn],
    sub: &SubBox,
) -> Result<WantedTiles, OutOfMemory>
    requires valid { IsBox hull.now }
    requires inside { LiesInDomain frame.now.domain hull.now }
    requires few { cells_of (tile_box frame.now.domain hull.now) < 2 ^ 32 }
    requires room { All (HasRoom (cells_of hull.now)) used.now }
    ensures { IfOk result (λ tiles. tiles ≡ tiles_met frame.now hull.now used.now sub.now) }
{
    if !is_box_in(frame, sub) {
        return Ok(WantedTiles::new(alloc));
    }
    let _dims = frame.domain.as_slice();
    if hull.cells() > MOST_CELLS {
        return Err(OutOfMemory);
    }
    if !hull.meets(sub) {
        return Ok(WantedTiles::new(alloc));
    }
    lay_tiles(alloc, frame, hull, used, sub)
}

// The space tiles of a hull from the first that meets a box to the last, along each dimension.
fn lay_tiles(
    alloc: Global,
    frame: &Frame,
    hull: &SubBox,
    used: &[UsedColumn],
    sub: &SubBox,
) -> Result<WantedTiles, OutOfMemory>
    requires valid { IsBox hull.now }
    requires inside { LiesInDomain frame.now.domain hull.now }
    requires few { cells_of hull.now < 2 ^ 64 - 1 }
    requires many { cells_of (tile_box frame.now.domain hull.now) < 2 ^ 32 }
    requires room { All (HasRoom (cells_of hull.now)) used.now }
    requires other { IsBox sub.now }
    requires dims { length sub.now.low ≡ length hull.now.low }
    requires meet { IsTrue (do_boxes_meet hull.now sub.now) }
    ensures { IfOk result (λ tiles. tiles ≡ map (tile_of frame.now hull.now used.now) (coords_in_order frame.now.tile (range_of frame.now.domain hull.now sub.now))) }
{
    let dims = frame.domain.as_slice();
    let numbers = numbers_of(dims, hull);
    let range = range_of(dims, hull, sub);
    lay_range(alloc, frame, hull, &numbers, &range, used)
}

// The space tiles of a hull with the numbers in a range, in tile order.
fn lay_range(
    alloc: Global,
    frame: &Frame,
    hull: &SubBox,
    numbers: &SubBox,
    range: &SubBox,
    used: &[UsedColumn],
) -> Result<WantedTiles, OutOfMemory>
    requires valid { IsBox hull.now }
    requires inside { LiesInDomain frame.now.domain hull.now }
    requires few { cells_of hull.now < 2 ^ 64 - 1 }
    requires numbers { numbers.now ≡ tile_box frame.now.domain hull.now }
    requires many { cells_of numbers.now < 2 ^ 32 }
    requires room { All (HasRoom (cells_of hull.now)) used.now }
    requires range { IsBox range.now }
    requires fewer { cells_of range.now < 2 ^ 32 }
    requires among { (n : List ℤ) → IsTrue (is_in_box range.now n) → IsTrue (is_in_box numbers.now n) }
    ensures { IfOk result (λ tiles. tiles ≡ map (tile_of frame.now hull.now used.now) (coords_in_order frame.now.tile range.now)) }
{
    let mut tiles = WantedTiles::new(alloc);
    for place in 0..range.cells() {
        let number = coords_at(range, frame.tile, place);
        let tile = tile_of(alloc, frame, hull, numbers, &number, used)?;
        tiles.push(tile)?;
    }
    Ok(tiles)
}

// The space tile of a hull with this number along each dimension.
fn tile_of(
    alloc: Global,
    frame: &Frame,
    hull: &SubBox,
    numbers: &SubBox,
    number: &Coords,
    used: &[UsedColumn],
) -> Result<WantedTile, OutOfMemory>
    requires valid { IsBox hull.now }
    requires inside { LiesInDomain frame.now.domain hull.now }
    requires few { cells_of hull.now < 2 ^ 64 - 1 }
    requires numbers { numbers.now ≡ tile_box frame.now.domain hull.now }
    requires many { cells_of numbers.now < 2 ^ 32 }
    requires room { All (HasRoom (cells_of hull.now)) used.now }
    requires reached { IsTrue (is_in_box numbers.now number.now) }
    ensures { IfOk result (λ tile. tile ≡ tile_of frame.now hull.now used.now number.now) }
{
    let dims = frame.domain.as_slice();
    let leaf = part_of(dims, hull, number);
    let cells = leaf.cells();
    let before = cells_before(hull, &leaf, frame.tile);
    let place = position_of(numbers, frame.tile, number) as u32;
    let spans = spans_of(alloc, before, cells, place, used)?;
    Ok(WantedTile { cells, leaf, spans })
}
