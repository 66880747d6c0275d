//! Reading a tile.
ghost use Rattle.std.specs.Prelude.{◌≡◌, ◌≤◌, [], Ok, length, IfOk, IfSome, IsTrue};
ghost use Rattle.std.specs.Option.{option_copied};
ghost use Rattle.ts_domain.specs.Domains.{LiesInDomain};
ghost use Rattle.ts_gather.specs.Rows.{AreRows};
ghost use Rattle.ts_sparse_read.specs.Judges.{ranged};
ghost use Rattle.ts_sparse_read.specs.TileReads.{vals_of_tile};
ghost use Rattle.ts_sparse_read.specs.Reads.{DecodesFault};
ghost use Rattle.ts_sparse_read.specs.Sifts.{IsSpotInside, cells_in, AreSound, picked, sift_cells, sift_tile, sift_part};
ghost use Rattle.ts_sparse_read.specs.Picks.{LieInLeaf};

use crate::cells::move_to_last;
use crate::columns::{Columns, read_columns};
use crate::faults::CellFault;
use crate::opened::{Opened, WantedTile};
use crate::ordering::check_order;
use crate::ranges::Ranges;
use crate::sifted::{Sifted, Spot};
use crate::versions::{add_rows, wanted_places};
use std::alloc::Global;
use ts_column::ColumnList;
use ts_domain::SubBox;
use ts_schema::Frame;
use ts_store::SharedBytes;

/// Takes what is wanted of the cells of a tile, behind those of the tiles before it, from the bytes that
/// were got of its spans. Its values may be decoded already.
///
/// What is broken first among its coordinates, its values, its origins and then its order is told.
pub(crate) fn sift_tile(
    alloc: Global,
    opened: &Opened,
    tile: &WantedTile,
    got: &[SharedBytes],
    decoded: Option<ColumnList>,
    sifted: &mut Sifted,
) -> Result<(), CellFault>
    requires few { length opened.now.attrs ≤ 64 }
    requires decoded { IfSome decoded (λ vals. vals_of_tile opened.now.want.attrs tile.now.cells (ranged tile.now.spans got.now) 0 opened.now.attrs ≡ Ok vals) }
    ensures { DecodesFault (λ _. sifted.new) (sift_tile opened.now sifted.old tile.now got.now) result }
{
    // The boxes of a fragment's tiles lie in the domain, and so do its cells.
    let frame = &opened.frame;
    if !lies_in(frame, &tile.leaf) || !is_inside(frame, sifted.last.as_ref()) {
        return Err(CellFault::OutOfMemory);
    }
    // A fragment has fewer origins than 2^32.
    match u32::try_from(opened.head.origins.len()) {
        Ok(entries) => {
            let ranges = Ranges::new(tile.spans.as_slice(), got);
            let (leaf, count) = (&tile.leaf, tile.cells);
            sift_part(
                alloc, opened, entries, leaf, count, &ranges, decoded, sifted,
            )
        }
        Err(_many) => Err(CellFault::OutOfMemory),
    }
}

// Takes what is wanted of the cells of a tile in the domain, from the bytes that were got of each part.
fn sift_part(
    alloc: Global,
    opened: &Opened,
    entries: u32,
    leaf: &SubBox,
    count: u64,
    ranges: &Ranges,
    decoded: Option<ColumnList>,
    sifted: &mut Sifted,
) -> Result<(), CellFault>
    requires few { length opened.now.attrs ≤ 64 }
    requires decoded { IfSome decoded (λ vals. vals_of_tile opened.now.want.attrs count ranges.now 0 opened.now.attrs ≡ Ok vals) }
    requires entries { entries ≡ length opened.now.head.origins }
    requires leaf { LiesInDomain opened.now.frame.domain leaf.now }
    requires last { IfSome sifted.old.last (IsSpotInside opened.now.frame) }
    ensures { DecodesFault (λ _. sifted.new) (sift_part opened.now sifted.old leaf.now count ranges.now) result }
{
    let columns = read_columns(alloc, opened, entries, leaf, count, ranges, decoded)?;
    sift_cells(alloc, opened, ranges, leaf, columns, sifted)
}

// Takes what is wanted of the cells that columns hold, which lie in a leaf.
fn sift_cells(
    alloc: Global,
    opened: &Opened,
    ranges: &Ranges,
    leaf: &SubBox,
    columns: Columns,
    sifted: &mut Sifted,
) -> Result<(), CellFault>
    requires sound { AreSound opened.now.frame columns }
    requires leaf { LiesInDomain opened.now.frame.domain leaf.now }
    requires within { LieInLeaf leaf.now columns }
    requires last { IfSome sifted.old.last (IsSpotInside opened.now.frame) }
    ensures { DecodesFault (λ _. sifted.new) (sift_cells opened.now ranges.now 0 sifted.old (cells_in columns)) result }
{
    let places = pick_cells(alloc, opened, ranges, leaf, &columns, &mut sifted.last)?;
    add_rows(alloc, opened, columns, places.as_slice(), &mut sifted.found)?;
    Ok(())
}

// The places of the cells that are wanted. The last cell is then that of these columns.
fn pick_cells(
    alloc: Global,
    opened: &Opened,
    ranges: &Ranges,
    leaf: &SubBox,
    columns: &Columns,
    last: &mut Option<Spot>,
) -> Result<Vec<u32>, CellFault>
    requires sound { AreSound opened.now.frame columns.now }
    requires leaf { LiesInDomain opened.now.frame.domain leaf.now }
    requires within { LieInLeaf leaf.now columns.now }
    requires inside { IfSome last.old (IsSpotInside opened.now.frame) }
    ensures picks { DecodesFault (λ places. picked opened.now columns.now places.items last.new) (sift_cells opened.now ranges.now 0 (picked opened.now columns.now [] last.old) (cells_in columns.now)) result }
    ensures rows { IfOk result (λ places. AreRows columns.now.count places.items) }
{
    let (frame, consolidated) = (&opened.frame, opened.head.consolidated);
    check_order(frame, consolidated, ranges, leaf, columns, last.as_ref())?;
    let places = wanted_places(alloc, opened, leaf, columns)?;
    move_to_last(columns, last);
    Ok(places)
}

// Whether the box has as many dimensions as the domain, and lies in it.
fn lies_in(frame: &Frame, leaf: &SubBox) -> bool
    ensures { IsTrue result → LiesInDomain frame.now.domain leaf.now }
{
    let count = frame.domain.count();
    leaf.low.len() == count && leaf.high.len() == count && frame.domain.check_box(leaf).is_ok()
}

// Whether the cell has as many coordinates as the domain, and lies in it.
fn is_inside(frame: &Frame, before: Option<&Spot>) -> bool
    ensures { IsTrue result → IfSome (option_copied before.entry) (IsSpotInside frame.now) }
{
    match before {
        None => true,
        Some(before) => {
            let at = &before.coords;
            at.len() == frame.domain.count() && frame.domain.check(at).is_ok()
        }
    }
}
