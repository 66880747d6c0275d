//! Which write each slot of a space tile is of.
ghost use Rattle.std.specs.Prelude.{◌≡◌, ◌≤◌, ◌<◌, List, length, All, IfOk};
ghost use Rattle.ts_base.specs.declared.values.Val.{Val as AnyVal};
ghost use Rattle.ts_wire.specs.Place.{each_at};
ghost use Rattle.ts_wire.specs.Reading.{Reads, ReadsOr, DecodesOr};
ghost use Rattle.ts_sparse_read.specs.TileReads.{rows_in};
ghost use Rattle.ts_sparse_read.specs.Reads.{DecodesFault};
ghost use Rattle.ts_dense_read.specs.SlotReads.{slot_origin_at, slot_origins_in, slot_origins_if};
ghost use Rattle.ts_dense_read.specs.SpaceTakes.{row_there};

use crate::holes::may_be_slot;
use crate::opened::Opened;
use crate::slots::SlotOrigins;
use std::alloc::Global;
use ts_base::{IndexList, Part};
use ts_sparse_read::{CellFault, Ranges};
use ts_table::Column;
use ts_wire::{Cursor, Damaged, ReadFault};

/// Which write each of so many slots with these values is of, by its place among the origins: of an
/// ordinary fragment the first, and the only one. The first field that is broken is told.
pub(crate) fn read_origins(
    alloc: Global,
    opened: &Opened,
    entries: u32,
    vals: &[Column],
    count: u64,
    ranges: &Ranges,
) -> Result<SlotOrigins, CellFault>
    requires few { length opened.now.attrs ≤ 64 }
    requires vals { All (λ (column : List AnyVal). length column ≡ count) vals.now }
    ensures decodes { DecodesFault (λ origins. origins) (slot_origins_if opened.now.head.consolidated entries opened.now.want.attrs opened.now.attrs count (rows_in count vals.now) ranges.now) result }
    ensures many { IfOk result (λ origins. length origins ≡ count) }
{
    if !opened.head.consolidated {
        return Ok(SlotOrigins::one(0, count));
    }
    match decode_origins(
        alloc,
        opened,
        entries,
        vals,
        count,
        ranges.bytes_of(Part::Origin),
    ) {
        Ok(origins) => Ok(SlotOrigins::of(origins)),
        Err(ReadFault::Damaged(damaged)) => Err(ranges.fault_in(Part::Origin, damaged.at)),
        Err(ReadFault::OutOfMemory) => Err(CellFault::OutOfMemory),
    }
}

// The origins of so many slots with these values.
#[tactic(auto, unfolding(crate::specs::SlotReads::slot_origins_in))]
fn decode_origins(
    alloc: Global,
    opened: &Opened,
    entries: u32,
    vals: &[Column],
    count: u64,
    bytes: &[u8],
) -> Result<IndexList, ReadFault>
    requires few { length opened.now.attrs ≤ 64 }
    requires vals { All (λ (column : List AnyVal). length column ≡ count) vals.now }
    ensures decodes { DecodesOr (λ origins. origins) (slot_origins_in entries opened.now.want.attrs opened.now.attrs (rows_in count vals.now) bytes.now) result }
    ensures many { IfOk result (λ origins. length origins ≡ count) }
{
    let mut cursor = Cursor::new(bytes, 0);
    let origins = read_each(alloc, opened, entries, vals, count, &mut cursor)?;
    cursor.end()?;
    Ok(origins)
}

#[tactic(auto, using(crate::proofs::OriginSteps::reading_steps))]
fn read_each(
    alloc: Global,
    opened: &Opened,
    entries: u32,
    vals: &[Column],
    count: u64,
    cursor: &mut Cursor,
) -> Result<IndexList, ReadFault>
    requires few { length opened.now.attrs ≤ 64 }
    requires vals { All (λ (column : List AnyVal). length column ≡ count) vals.now }
    ensures reads { ReadsOr (λ origins. origins) (each_at (slot_origin_at entries opened.now.want.attrs opened.now.attrs) (rows_in count vals.now)) cursor.old cursor.new result }
    ensures many { IfOk result (λ origins. length origins ≡ count) }
{
    let mut origins = IndexList::new(alloc);
    for place in 0..count {
        let origin = read_origin(opened, entries, vals, place, cursor)?;
        origins.push(origin)?;
    }
    Ok(origins)
}

#[tactic(auto, unfolding(crate::specs::SlotReads::slot_origin_at))]
fn read_origin(
    opened: &Opened,
    entries: u32,
    vals: &[Column],
    place: u64,
    cursor: &mut Cursor,
) -> Result<u32, Damaged>
    requires few { length opened.now.attrs ≤ 64 }
    requires within { All (λ (column : List AnyVal). place < length column) vals.now }
    ensures { Reads (λ origin. origin) (slot_origin_at entries opened.now.want.attrs opened.now.attrs (row_there vals.now place)) cursor.old cursor.new result }
{
    let at = cursor.at();
    let origin = cursor.u32()?;
    if may_be_slot(opened, entries, vals, place, origin) {
        Ok(origin)
    } else {
        Err(Damaged { at })
    }
}
