//! The cells that a read shows, in columns: of each cell of its box the newest version, unless it is
//! erased, as it shows through the schema that holds; and in a dense array the fill where none is left.
ghost use Rattle.std.specs.Prelude.{◌≡◌, true, List, length, map, All, IfOk};
ghost use Rattle.ts_base.specs.declared.values.Val.{Val as AnyVal};
ghost use Rattle.ts_domain.specs.Boxes.{cells_of, coords_of_box};
ghost use Rattle.ts_actor.specs.PieceLaws.{AreInBox};
ghost use Rattle.ts_actor.specs.Known.{AreRising};
ghost use Rattle.ts_model.specs.States.{cells_filled, cells_left, cells_shown};
ghost use Rattle.ts_reader.specs.Deletes.{bindings_of};
ghost use Rattle.ts_reader.specs.Reading.{IsReading};
ghost use Rattle.ts_reader.specs.Shown.{AreShown, cells_across, cells_over, pair_of, slot_vals, vals_filled};
ghost use Rattle.ts_reader.specs.Left.{slot_left};

use crate::bindings::{Bindings, bindings_of};
use crate::laid::laid_vals;
use crate::left::{slots_left, versions_left};
use crate::newest::newest_in_order;
use crate::sides::coords_of;
use crate::slots::{SlotList, slots_of, strip_slots};
use crate::vals::{slot_vals_of, vals_of};
use std::alloc::Global;
use ts_base::{Key, OutOfMemory};
use ts_batch::{Batch, BatchCellList, Batches};
use ts_domain::Order;
use ts_model::Reading;
use ts_schema::SchemaList;
use ts_strip::{in_order, strips_of};
use ts_table::{BoxTable, Column, Numbers, Origin, Table};

/// The cells of a read that got these versions: of a dense array each cell of the box, and of a
/// sparse one those that are left. Which write laid them is not told.
pub(crate) fn cells_shown(
    alloc: Global,
    reading: &Reading,
    schemas: &SchemaList,
    got: Batches,
) -> Result<Batch, OutOfMemory>
    requires reading { IsReading reading.now }
    requires rise { AreRising schemas.now }
    requires inside { AreInBox reading.now.ready.sub got }
    ensures { IfOk result (λ cells. map pair_of cells ≡ cells_shown reading.now schemas.now got) }
{
    let bindings = bindings_of(alloc, reading, schemas)?;
    if reading.frame.dense {
        cells_filled(alloc, reading, schemas, &bindings, &got)
    } else {
        cells_left(alloc, reading, schemas, &bindings, got.cells(alloc)?)
    }
}

// The cells of the newest versions, but of those that are erased, in row order.
fn cells_left(
    alloc: Global,
    reading: &Reading,
    schemas: &SchemaList,
    bindings: &Bindings,
    got: BatchCellList,
) -> Result<Batch, OutOfMemory>
    requires reading { IsReading reading.now }
    requires rise { AreRising schemas.now }
    requires are { bindings.now ≡ bindings_of reading.now schemas.now }
    requires inside { AreInBox reading.now.ready.sub got }
    ensures { IfOk result (λ cells. map pair_of cells ≡ cells_left reading.now schemas.now got.entry) }
{
    let newest = newest_in_order(alloc, got)?;
    let left = versions_left(alloc, reading, schemas, bindings, newest)?;
    let versions = left.as_slice();
    let dims = coords_of(alloc, reading.frame.domain.count(), versions)?;
    let vals = vals_of(alloc, reading, schemas, bindings, versions)?;
    let cells = left.len();
    // What is shown needs the memory of the list.
    drop(left);
    batch_of(alloc, reading.current.key, dims, vals, cells)
}

// The cells of the box of a dense array, in row order: each with what is left of its newest version,
// or else with the fill of each attribute.
fn cells_filled(
    alloc: Global,
    reading: &Reading,
    schemas: &SchemaList,
    bindings: &Bindings,
    got: &Batches,
) -> Result<Batch, OutOfMemory>
    requires reading { IsReading reading.now }
    requires dense { reading.now.frame.dense ≡ true }
    requires rise { AreRising schemas.now }
    requires are { bindings.now ≡ bindings_of reading.now schemas.now }
    requires inside { AreInBox reading.now.ready.sub got.now }
    ensures { IfOk result (λ cells. map pair_of cells ≡ cells_filled reading.now schemas.now got.now) }
{
    let vals = vals_filled(alloc, reading, schemas, bindings, got)?;
    Ok(box_of(reading, vals))
}

// The values of these cells, one column for each attribute.
//
// Where the batches are boxes in row order their versions stand in strips. Where no cell has two versions
// and there are no deletes, values are copied strip by strip. Else the newest are found slot by slot.
fn vals_filled(
    alloc: Global,
    reading: &Reading,
    schemas: &SchemaList,
    bindings: &Bindings,
    got: &Batches,
) -> Result<Vec<Column>, OutOfMemory>
    requires reading { IsReading reading.now }
    requires dense { reading.now.frame.dense ≡ true }
    requires rise { AreRising schemas.now }
    requires are { bindings.now ≡ bindings_of reading.now schemas.now }
    requires inside { AreInBox reading.now.ready.sub got.now }
    ensures { IfOk result (λ vals. vals.items ≡ vals_filled reading.now schemas.now got.now) }
{
    let sub = &reading.ready.sub;
    let batches = got.as_slice();
    let Some(strips) = strips_of(alloc, sub, batches)? else {
        let versions = got.cells(alloc)?;
        let slots = slots_of(alloc, sub, versions.as_slice())?;
        return left_vals(alloc, reading, schemas, bindings, slots);
    };
    let strips = strips.as_slice();
    let cells = sub.cells();
    if reading.deletions.is_empty() {
        if let Some(sorted) = in_order(alloc, strips, cells)? {
            let sorted = sorted.as_slice();
            return laid_vals(alloc, reading, schemas, bindings, batches, sorted, cells);
        }
    }
    let slots = strip_slots(alloc, sub, batches, strips)?;
    left_vals(alloc, reading, schemas, bindings, slots)
}

// The values of what is left in slots, one column for each attribute.
fn left_vals(
    alloc: Global,
    reading: &Reading,
    schemas: &SchemaList,
    bindings: &Bindings,
    slots: SlotList,
) -> Result<Vec<Column>, OutOfMemory>
    requires rise { AreRising schemas.now }
    requires are { bindings.now ≡ bindings_of reading.now schemas.now }
    ensures { IfOk result (λ vals. vals.items ≡ map (slot_vals reading.now schemas.now (map (slot_left reading.now schemas.now) slots.entry)) reading.now.current.attrs) }
{
    let left = slots_left(alloc, reading, schemas, bindings, slots)?;
    slot_vals_of(alloc, reading, schemas, bindings, left.as_slice())
}

// The cells of the box of a read, with these values. Which write laid them is not told: the key of a
// schema stands for it.
fn box_of(reading: &Reading, vals: Vec<Column>) -> Batch
    requires reading { IsReading reading.now }
    requires dense { reading.now.frame.dense ≡ true }
    requires long { All (λ (column : List AnyVal). length column ≡ cells_of reading.now.ready.sub) vals.items }
    ensures { map pair_of result ≡ cells_over (coords_of_box reading.now.ready.sub) vals.items }
{
    let key = reading.current.key;
    let origin = Origin { key, schema: key };
    Batch::of_box(BoxTable::of(reading.ready.sub, Order::Row, origin, vals))
}

// The cells of columns. Which write laid them is not told: the key of a schema stands for it.
fn batch_of(
    alloc: Global,
    key: Key,
    dims: Vec<Numbers>,
    vals: Vec<Column>,
    count: u64,
) -> Result<Batch, OutOfMemory>
    requires { AreShown count dims.items vals.items }
    ensures { IfOk result (λ cells. map pair_of cells ≡ cells_across dims.items vals.items count) }
{
    let origins = vec![in alloc; Origin { key, schema: key }]?;
    let cells = vec![in alloc; 0u32; count as usize]?;
    Ok(Batch::of_table(Table::of(origins, dims, vals, cells)))
}
