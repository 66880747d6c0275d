//! Versions in strips, laid into the slots of a box: their values, copied strip by strip.
ghost use Rattle.std.specs.Prelude.{◌≡◌, ◌+◌, ◌<◌, ◌≤◌, ◌++◌, [], drop, length, map, slice_index_or, take, All, IfOk, IfSome, OnOk};
ghost use Rattle.ts_actor.specs.Known.{AreRising};
ghost use Rattle.ts_strip.specs.Strips.{strip_versions, Climb, IsStrip};
ghost use Rattle.ts_reader.specs.Deletes.{bindings_of};
ghost use Rattle.ts_reader.specs.Laid.{laid, IsThere};
ghost use Rattle.ts_reader.specs.Shown.{slot_vals, version_vals};
ghost use Rattle.ts_reader.specs.Sources.{source_of};

use crate::bindings::Bindings;
use crate::sources::{Source, place_at, source_of};
use crate::vals::push_version;
use std::alloc::Global;
use ts_base::OutOfMemory;
use ts_batch::{Batch, BatchCell};
use ts_model::Reading;
use ts_schema::{Attr, SchemaList};
use ts_strip::Strip;
use ts_table::Column;

/// The values of versions in strips as they show through the schema that holds, and the fills between
/// them, for so many cells: of each of its attributes one column.
pub(crate) fn laid_vals(
    alloc: Global,
    reading: &Reading,
    schemas: &SchemaList,
    bindings: &Bindings,
    batches: &[Batch],
    strips: &[Strip],
    cells: u64,
) -> Result<Vec<Column>, OutOfMemory>
    requires rise { AreRising schemas.now }
    requires are { bindings.now ≡ bindings_of reading.now schemas.now }
    requires there { All (IsThere batches.now) strips.now }
    requires climb { Climb 0 strips.now cells }
    ensures { IfOk result (λ columns. columns.items ≡ map (slot_vals reading.now schemas.now (laid batches.now 0 strips.now cells)) reading.now.current.attrs) }
{
    let mut columns = Vec::new(alloc);
    for attr in reading.current.attrs.as_slice() {
        let source = source_of(alloc, bindings, attr)?;
        let column = laid_column(
            alloc, reading, schemas, &source, attr, batches, strips, cells,
        )?;
        columns.push(column)?;
    }
    Ok(columns)
}

// The values of an attribute.
fn laid_column(
    alloc: Global,
    reading: &Reading,
    schemas: &SchemaList,
    source: &Source,
    attr: &Attr,
    batches: &[Batch],
    strips: &[Strip],
    cells: u64,
) -> Result<Column, OutOfMemory>
    requires rise { AreRising schemas.now }
    requires are { source.now ≡ source_of (bindings_of reading.now schemas.now) attr.now }
    requires there { All (IsThere batches.now) strips.now }
    requires climb { Climb 0 strips.now cells }
    ensures { IfOk result (λ column. column ≡ slot_vals reading.now schemas.now (laid batches.now 0 strips.now cells) attr.now) }
{
    let mut column = begun_column(
        alloc, reading, schemas, source, attr, batches, strips, cells,
    )?;
    let mut at = 0;
    for strip in strips {
        column.push_times(&attr.fill, strip.start - at)?;
        push_strip(&mut column, reading, schemas, source, attr, batches, *strip)?;
        at = strip.start + strip.count;
    }
    column.push_times(&attr.fill, cells - at)?;
    Ok(column)
}

// A column of no values, with room for those of so many cells where the first strip has a column of them.
fn begun_column(
    alloc: Global,
    reading: &Reading,
    schemas: &SchemaList,
    source: &Source,
    attr: &Attr,
    batches: &[Batch],
    strips: &[Strip],
    cells: u64,
) -> Result<Column, OutOfMemory>
    requires rise { AreRising schemas.now }
    requires are { source.now ≡ source_of (bindings_of reading.now schemas.now) attr.now }
    requires there { All (IsThere batches.now) strips.now }
    ensures { IfOk result (λ column. column ≡ []) }
{
    if let Some(strip) = strips.first() {
        let batch = &batches[strip.batch as usize];
        if let Some(vals) = vals_shown(reading, schemas, source, attr, batch) {
            return Column::with_room_for(alloc, vals, cells);
        }
    }
    Ok(Column::new(alloc))
}

// The values of one strip more.
fn push_strip(
    column: &mut Column,
    reading: &Reading,
    schemas: &SchemaList,
    source: &Source,
    attr: &Attr,
    batches: &[Batch],
    strip: Strip,
) -> Result<(), OutOfMemory>
    requires rise { AreRising schemas.now }
    requires are { source.now ≡ source_of (bindings_of reading.now schemas.now) attr.now }
    requires there { IsThere batches.now strip }
    ensures { OnOk result (column.new ≡ column.old ++ version_vals reading.now schemas.now (strip_versions batches.now strip) attr.now) }
{
    let batch = &batches[strip.batch as usize];
    match vals_shown(reading, schemas, source, attr, batch) {
        Some(vals) => column.append_part(vals, strip.place, strip.count),
        None => {
            let (from, count) = (strip.place, strip.count);
            push_part(column, reading, schemas, source, attr, batch, from, count)
        }
    }
}

// The column that has what all versions of a batch show of an attribute, if there is one.
fn vals_shown<'a>(
    reading: &Reading,
    schemas: &SchemaList,
    source: &Source,
    attr: &Attr,
    batch: &'a Batch,
) -> Option<&'a Column>
    requires rise { AreRising schemas.now }
    requires are { source.now ≡ source_of (bindings_of reading.now schemas.now) attr.now }
    ensures { IfSome result (λ column. column.now ≡ version_vals reading.now schemas.now batch.now attr.now) }
{
    let table = batch.as_box()?;
    let key = table.parts().origin.schema;
    let place = place_at(reading, schemas, source, attr, key)?;
    table.vals(place)
}

// The values of the versions of a batch from a place on, so many of them.
fn push_part(
    column: &mut Column,
    reading: &Reading,
    schemas: &SchemaList,
    source: &Source,
    attr: &Attr,
    batch: &Batch,
    from: u64,
    count: u64,
) -> Result<(), OutOfMemory>
    requires rise { AreRising schemas.now }
    requires are { source.now ≡ source_of (bindings_of reading.now schemas.now) attr.now }
    requires within { from + count ≤ length batch.now }
    ensures { OnOk result (column.new ≡ column.old ++ version_vals reading.now schemas.now (take count (drop from batch.now)) attr.now) }
{
    let _long = batch.len(); // so the places fit 64 bits
    for step in 0..count {
        let version = BatchCell::of(batch, from + step);
        push_version(column, reading, schemas, source, attr, &version)?;
    }
    Ok(())
}
