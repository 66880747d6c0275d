//! The tiles that a fetch reads.
ghost use Rattle.std.specs.Prelude.{◌≡◌, ◌*◌, ◌<◌, ◌≤◌, ℕ, length, map, max, All, IfOk};
ghost use Rattle.ts_footer.specs.Columns.{tiles_for};
ghost use Rattle.ts_sparse_read.specs.Fits.{HasCells, FitsLeaf, tile_over, tiles_over};

use crate::bounds::is_box_in;
use crate::opened::{UsedColumn, WantedTile, WantedTiles};
use crate::spans::{cells_at, spans_of};
use std::alloc::Global;
use ts_base::OutOfMemory;
use ts_domain::SubBox;
use ts_footer::leaves_of;
use ts_rtree::Tree;
use ts_schema::Frame;

/// The tiles whose boxes meet the box, where it is one of the array, with their spans in these objects.
/// The tree is that over so many tiles.
#[tactic(auto, using(crate::proofs::TileLaws::rects, crate::proofs::TileLaws::likes, crate::proofs::TileLaws::places_in, crate::proofs::TileLaws::places_before, crate::proofs::TileLaws::box_dims, crate::proofs::TileLaws::box_valid, crate::proofs::TileLaws::tiles_met, crate::proofs::TileLaws::tiles_none))]
pub(crate) fn tiles_over(
    alloc: Global,
    frame: &Frame,
    cells: u64,
    count: u32,
    tree: Tree,
    used: &[UsedColumn],
    sub: &SubBox,
) -> Result<WantedTiles, OutOfMemory>
    requires many { length tree.leaves ≡ count }
    requires as_asked { count ≡ tiles_for frame.now.capacity cells }
    requires leaves { All (FitsLeaf frame.now.domain) tree.leaves }
    requires fits { All (HasCells cells) used.now }
    ensures { IfOk result (λ tiles. tiles ≡ tiles_over frame.now.domain (max frame.now.capacity 1) cells tree.leaves used.now sub.now) }
{
    if !is_box_in(frame, sub) {
        return Ok(WantedTiles::new(alloc));
    }
    let mut tree = tree;
    let leaves = leaves_of(alloc, sub, count, &tree)?;
    let places = tree.search(alloc, sub)?;
    let tile = u64::from(frame.capacity.max(1));
    lay_tiles(
        alloc,
        tile,
        cells,
        leaves.as_slice(),
        places.as_slice(),
        used,
    )
}

// The tiles at these places.
fn lay_tiles(
    alloc: Global,
    tile: u64,
    cells: u64,
    leaves: &[SubBox],
    places: &[u32],
    used: &[UsedColumn],
) -> Result<WantedTiles, OutOfMemory>
    requires within { All (λ (i : ℕ). i < length leaves.now) places.now }
    requires before { All (λ (i : ℕ). i * tile ≤ cells) places.now }
    requires fits { All (HasCells cells) used.now }
    ensures { IfOk result (λ tiles. tiles ≡ map (tile_over tile cells leaves.now used.now) places.now) }
{
    let mut tiles = WantedTiles::new(alloc);
    for place in places {
        let next = lay_tile(alloc, tile, cells, leaves, *place, used)?;
        tiles.push(next)?;
    }
    Ok(tiles)
}

// The tile at a place.
fn lay_tile(
    alloc: Global,
    tile: u64,
    cells: u64,
    leaves: &[SubBox],
    place: u32,
    used: &[UsedColumn],
) -> Result<WantedTile, OutOfMemory>
    requires within { place < length leaves.now }
    requires before { place * tile ≤ cells }
    requires fits { All (HasCells cells) used.now }
    ensures { IfOk result (λ next. next ≡ tile_over tile cells leaves.now used.now place) }
{
    let spans = spans_of(alloc, tile, cells, place, used)?;
    Ok(WantedTile {
        cells: cells_at(tile, cells, place),
        leaf: leaves[place as usize],
        spans,
    })
}
