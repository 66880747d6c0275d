//! Reading a space tile.
ghost use Rattle.std.specs.Prelude.{◌≡◌, ◌≤◌, Ok, length, IfOk, IfSome, IsTrue};
ghost use Rattle.ts_sparse_read.specs.Judges.{ranged};
ghost use Rattle.ts_sparse_read.specs.TileReads.{vals_of_tile};
ghost use Rattle.ts_sparse_read.specs.Reads.{DecodesFault};
ghost use Rattle.ts_dense_read.specs.SpaceTakes.{IsCounted, AreWhole, read_of_tile, behind, part_taken, tile_taken};

use crate::opened::Opened;
use crate::origins::read_origins;
use crate::slots::TileSlots;
use crate::versions::take_slots;
use std::alloc::Global;
use ts_batch::Batches;
use ts_column::ColumnList;
use ts_domain::SubBox;
use ts_sparse_read::{CellFault, Ranges, WantedTile, are_bounds, vals_or_read};
use ts_store::SharedBytes;

/// Takes what is wanted of the slots of a space tile, behind those of the tiles before it, from the bytes
/// that were got of its spans. Its values may be decoded already.
///
/// What is broken first among its values, and then among its origins, is told.
pub(crate) fn take_tile(
    alloc: Global,
    opened: &Opened,
    tile: &WantedTile,
    got: &[SharedBytes],
    decoded: Option<ColumnList>,
    found: &mut Batches,
) -> Result<(), CellFault>
    requires few { length opened.now.attrs ≤ 64 }
    requires decoded { IfSome decoded (λ vals. vals_of_tile opened.now.want.attrs tile.now.cells (ranged tile.now.spans got.now) 0 opened.now.attrs ≡ Ok vals) }
    ensures { DecodesFault (λ _. found.new) (behind found.old (tile_taken opened.now tile.now got.now)) result }
{
    // A space tile has as many slots as its box has cells.
    if !has_cells(&tile.leaf, tile.cells) {
        return Err(CellFault::OutOfMemory);
    }
    // A fragment has fewer origins than 2^32.
    match u32::try_from(opened.head.origins.len()) {
        Ok(entries) => {
            let ranges = Ranges::new(tile.spans.as_slice(), got);
            let (leaf, count) = (&tile.leaf, tile.cells);
            take_part(alloc, opened, entries, leaf, count, &ranges, decoded, found)
        }
        Err(_many) => Err(CellFault::OutOfMemory),
    }
}

// Whether the bounds are those of a box of so many cells, which memory has room to count.
fn has_cells(leaf: &SubBox, cells: u64) -> bool
    ensures { IsTrue result → IsCounted leaf.now cells }
{
    if !are_bounds(leaf.low.as_slice(), leaf.high.as_slice()) {
        return false;
    }
    cells < u64::MAX && leaf.cells() == cells
}

// Takes what is wanted of the slots of a tile, from the bytes that were got of each part.
fn take_part(
    alloc: Global,
    opened: &Opened,
    entries: u32,
    leaf: &SubBox,
    count: u64,
    ranges: &Ranges,
    decoded: Option<ColumnList>,
    found: &mut Batches,
) -> Result<(), CellFault>
    requires few { length opened.now.attrs ≤ 64 }
    requires decoded { IfSome decoded (λ vals. vals_of_tile opened.now.want.attrs count ranges.now 0 opened.now.attrs ≡ Ok vals) }
    requires entries { entries ≡ length opened.now.head.origins }
    requires counted { IsCounted leaf.now count }
    ensures { DecodesFault (λ _. found.new) (behind found.old (part_taken opened.now leaf.now count ranges.now)) result }
{
    let slots = read_slots(alloc, opened, entries, count, ranges, decoded)?;
    take_slots(alloc, opened, leaf, slots, found)?;
    Ok(())
}

// What is read of a tile of so many slots.
fn read_slots(
    alloc: Global,
    opened: &Opened,
    entries: u32,
    count: u64,
    ranges: &Ranges,
    decoded: Option<ColumnList>,
) -> Result<TileSlots, CellFault>
    requires few { length opened.now.attrs ≤ 64 }
    requires decoded { IfSome decoded (λ vals. vals_of_tile opened.now.want.attrs count ranges.now 0 opened.now.attrs ≡ Ok vals) }
    requires entries { entries ≡ length opened.now.head.origins }
    ensures decodes { DecodesFault (λ slots. slots) (read_of_tile opened.now count ranges.now) result }
    ensures whole { IfOk result AreWhole }
    ensures count { IfOk result (λ slots. slots.count ≡ count) }
{
    let places = opened.want.attrs.as_slice();
    let attrs = opened.attrs.as_slice();
    let vals = vals_or_read(alloc, decoded, places, attrs, count, ranges)?;
    let origins = read_origins(alloc, opened, entries, vals.as_slice(), count, ranges)?;
    Ok(TileSlots {
        count,
        origins,
        vals,
    })
}
