//! The versions that are wanted of slots.
ghost use Rattle.std.specs.Prelude.{◌≡◌, ◌++◌, List, length, replicate, All, IfOk, OnOk};
ghost use Rattle.ts_base.specs.declared.values.Val.{Val as AnyVal};
ghost use Rattle.ts_dense_read.specs.SpaceTakes.{IsCounted, AreWhole, slots_of, slots_in, write_of, taken_of};

use crate::opened::Opened;
use crate::rows::{is_origin_wanted, wanted_rows};
use crate::slots::TileSlots;
use std::alloc::Global;
use ts_base::{IndexList, OutOfMemory};
use ts_batch::{Batch, Batches};
use ts_column::ColumnList;
use ts_domain::SubBox;
use ts_gather::{box_of, coords_columns, shared_part, table_of};
use ts_sparse_read::origin_key;
use ts_table::{Origin, Table};

/// Appends the versions of the slots of a space tile that have a cell which is wanted.
pub(crate) fn take_slots(
    alloc: Global,
    opened: &Opened,
    leaf: &SubBox,
    slots: TileSlots,
    found: &mut Batches,
) -> Result<(), OutOfMemory>
    requires counted { IsCounted leaf.now slots.count }
    requires whole { AreWhole slots }
    ensures { OnOk result (found.new ≡ found.old ++ taken_of opened.now (slots_in opened.now leaf.now slots)) }
{
    let TileSlots {
        count,
        origins,
        vals,
    } = slots;
    match origins.into_each() {
        Ok(origins) => take_rows(alloc, opened, leaf, count, &origins, vals, found),
        Err(origin) => take_box(alloc, opened, leaf, count, origin, vals, found),
    }
}

// Appends the versions of slots, all with this origin, that have a cell which is wanted: those of all
// cells of a box, if there are any. Columns are moved where every slot is wanted and the wanted attributes
// ascend.
fn take_box(
    alloc: Global,
    opened: &Opened,
    leaf: &SubBox,
    count: u64,
    origin: u32,
    vals: ColumnList,
    found: &mut Batches,
) -> Result<(), OutOfMemory>
    requires counted { IsCounted leaf.now count }
    requires vals { All (λ (column : List AnyVal). length column ≡ count) vals }
    ensures { OnOk result (found.new ≡ found.old ++ taken_of opened.now (slots_in opened.now leaf.now (slots_of count (replicate count origin) vals))) }
{
    if !is_origin_wanted(opened, origin) {
        return Ok(());
    }
    let Some(part) = shared_part(leaf, &opened.want.sub) else {
        return Ok(());
    };
    let attrs = opened.want.attrs.as_slice();
    let write = write_of(opened, origin);
    let order = opened.frame.cell;
    let table = box_of(alloc, write, attrs, vals.into_vec(), leaf, part, order)?;
    found.push(Batch::of_box(table))
}

// The write at a place among the origins.
fn write_of(opened: &Opened, origin: u32) -> Origin
    ensures { result ≡ write_of opened.now origin }
{
    Origin {
        key: origin_key(&opened.head.origins, origin),
        schema: opened.head.schema,
    }
}

// Appends the versions of slots with these origins that have a cell which is wanted. Columns are moved
// where every slot is wanted and the wanted attributes ascend.
fn take_rows(
    alloc: Global,
    opened: &Opened,
    leaf: &SubBox,
    count: u64,
    origins: &IndexList,
    vals: ColumnList,
    found: &mut Batches,
) -> Result<(), OutOfMemory>
    requires counted { IsCounted leaf.now count }
    requires whole { AreWhole (slots_of count origins.now vals) }
    ensures { OnOk result (found.new ≡ found.old ++ taken_of opened.now (slots_in opened.now leaf.now (slots_of count origins.now vals))) }
{
    let table = wanted_table(alloc, opened, leaf, count, origins, vals)?;
    found.push(Batch::of_table(table))
}

// The table of these versions.
fn wanted_table(
    alloc: Global,
    opened: &Opened,
    leaf: &SubBox,
    count: u64,
    origins: &IndexList,
    vals: ColumnList,
) -> Result<Table, OutOfMemory>
    requires counted { IsCounted leaf.now count }
    requires whole { AreWhole (slots_of count origins.now vals) }
    ensures { IfOk result (λ table. table ≡ taken_of opened.now (slots_in opened.now leaf.now (slots_of count origins.now vals))) }
{
    // Coordinates are of 1 to 8 dimensions.
    let _dims = leaf.low.len();
    let coords = coords_columns(alloc, leaf, opened.frame.cell)?;
    let rows = wanted_rows(alloc, opened, leaf, origins, coords.as_slice())?;
    table_of(
        alloc,
        opened.head.origins.as_slice(),
        opened.head.schema,
        opened.want.attrs.as_slice(),
        count,
        coords,
        origins,
        vals.into_vec(),
        rows.as_slice(),
    )
}
