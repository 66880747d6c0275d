//! How the cells of a fragment lie in tiles, and what its metadata says for that.
ghost use Rattle.std.specs.Prelude.{◌≡◌, ◌-◌, ◌≤◌, ◌^◌, nat_eq, min, IfOk};
ghost use Rattle.ts_domain.specs.Boxes.{IsBox, cells_of};
ghost use Rattle.ts_domain.specs.Domains.{LiesInDomain};
ghost use Rattle.ts_wire.specs.Reading.{Reads, ReadsOr};
ghost use Rattle.ts_order.specs.Tiles.{tile_box};
ghost use Rattle.ts_plain.specs.Insides.{IsHull};
ghost use Rattle.ts_plain.specs.Plain.{head_by};
ghost use Rattle.ts_plain.specs.Writes.{box_of};
ghost use Rattle.ts_footer.specs.Columns.{tiles_for, tile_count_at};
ghost use Rattle.ts_footer.specs.Tilings.{tiling_of, full_in, forms_in, tile_total, tree_in};

use crate::columns::{FormList, column_forms};
use crate::trees::read_tree;
use std::alloc::Global;
use ts_base::{FragKey, OutOfMemory};
use ts_domain::{Domain, SubBox};
use ts_order::tile_numbers;
use ts_plain::{StoredHead, read_fields, read_full_fields};
use ts_rtree::Tree;
use ts_schema::{Attr, Frame};
use ts_wire::{Cursor, Damaged, ReadFault, kept};

/// How the cells of a fragment lie in tiles.
#[derive(Clone, Copy, Debug, PartialEq, Eq)]
pub enum Tiling {
    /// In tiles of so many cells each, as in sparse arrays. The coordinates of the cells are stored.
    Sparse,
    /// In space tiles, as in dense arrays. A fragment has each cell of its hull, and no coordinates are
    /// stored.
    Dense,
}

/// How the fragments of an array lie in tiles, by its kind.
pub(crate) fn tiling_of(frame: &Frame) -> Tiling
    ensures { result ≡ tiling_of frame.now }
{
    if frame.dense {
        Tiling::Dense
    } else {
        Tiling::Sparse
    }
}

/// The fields that all objects of fragments begin with.
pub(crate) fn read_laid_fields(
    alloc: Global,
    tiling: Tiling,
    frame: &Frame,
    frag: FragKey,
    cursor: &mut Cursor,
) -> Result<StoredHead, ReadFault>
    ensures reads { ReadsOr (λ head. head) (head_by (full_in tiling frame.now.dense) frame.now frag) cursor.old cursor.new result }
    ensures inside { IfOk result (λ head. IsHull frame.now.domain head.hull) }
{
    match tiling {
        Tiling::Sparse => read_fields(alloc, frame, frag, cursor),
        Tiling::Dense => read_full_fields(alloc, frame, frag, cursor),
    }
}

/// The forms of the objects of a fragment, in their order.
pub(crate) fn forms_in(
    alloc: Global,
    tiling: Tiling,
    frame: &Frame,
    attrs: &[Attr],
    consolidated: bool,
) -> Result<FormList, OutOfMemory>
    ensures { IfOk result (λ forms. forms ≡ forms_in tiling frame.now attrs.now consolidated) }
{
    match tiling {
        Tiling::Sparse => column_forms(alloc, frame.domain.as_slice(), attrs, consolidated),
        Tiling::Dense => column_forms(alloc, &[], attrs, consolidated),
    }
}

// How many tiles so many cells fill, with at most `capacity` cells each.
fn tiles_for(capacity: u32, cells: u64) -> u64
    ensures { result ≡ tiles_for capacity cells }
{
    cells.div_ceil(u64::from(capacity).max(1))
}

// How many space tiles meet the hull, or 2^64 - 1 where there are more.
fn space_tiles(domain: &Domain, hull: &SubBox) -> u64
    requires valid { IsBox hull.now }
    requires inside { LiesInDomain domain.now hull.now }
    ensures { result ≡ min (cells_of (tile_box domain.now hull.now)) (2 ^ 64 - 1) }
{
    let dims = domain.as_slice();
    let numbers = SubBox {
        low: tile_numbers(dims, &hull.low),
        high: tile_numbers(dims, &hull.high),
    };
    numbers.cells()
}

// Whether there are so many tiles.
fn is_total(tiling: Tiling, frame: &Frame, head: &StoredHead, hull: &SubBox, tiles: u32) -> bool
    requires corners { hull.now ≡ box_of head.now.hull }
    requires valid { IsBox hull.now }
    requires inside { LiesInDomain frame.now.domain hull.now }
    ensures { result ≡ nat_eq tiles (tile_total tiling frame.now head.now) }
{
    let total = match tiling {
        Tiling::Sparse => tiles_for(frame.capacity, head.cells),
        Tiling::Dense => space_tiles(&frame.domain, hull),
    };
    u64::from(tiles) == total
}

/// The number of tiles of a fragment with this head.
#[tactic(auto, unfolding(crate::specs::Columns::tile_count_at))]
pub(crate) fn read_tile_count(
    tiling: Tiling,
    frame: &Frame,
    head: &StoredHead,
    hull: &SubBox,
    cursor: &mut Cursor,
) -> Result<u32, Damaged>
    requires corners { hull.now ≡ box_of head.now.hull }
    requires valid { IsBox hull.now }
    requires inside { LiesInDomain frame.now.domain hull.now }
    requires hull { IsHull frame.now.domain head.now.hull }
    requires some { 1 ≤ head.now.cells }
    ensures reads { Reads (λ tiles. tiles) (tile_count_at (tile_total tiling frame.now head.now)) cursor.old cursor.new result }
    ensures some { IfOk result (λ tiles. 1 ≤ tiles) }
{
    let _dims = frame.domain.as_slice();
    let at = cursor.at();
    let tiles = cursor.u32()?;
    kept(at, tiles, is_total(tiling, frame, head, hull, tiles))
}

/// The tree over the tiles, where coordinates are stored.
pub(crate) fn read_tree_in(
    alloc: Global,
    tiling: Tiling,
    hull: &SubBox,
    tiles: u32,
    cursor: &mut Cursor,
) -> Result<Option<Tree>, ReadFault>
    requires hull { IsBox hull.now }
    requires some { 1 ≤ tiles }
    ensures { ReadsOr (λ tree. tree) (tree_in tiling hull.now tiles) cursor.old cursor.new result }
{
    match tiling {
        Tiling::Sparse => {
            let tree = read_tree(alloc, hull, tiles, cursor)?;
            Ok(Some(tree))
        }
        Tiling::Dense => Ok(None),
    }
}
