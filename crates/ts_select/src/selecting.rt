//! The rows that a query selects.
ghost use Rattle.std.specs.Prelude.{◌≡◌, ◌<◌, length, map, IfOk, IsTrue, All};
ghost use Rattle.ts_base.specs.declared.heads.Version.{Version as AnyVersion};
ghost use Rattle.ts_domain.specs.Domains.{is_in_domain};
ghost use Rattle.ts_schema.specs.FrameTexts.{IsFrame};
ghost use Rattle.ts_schema.specs.SchemaTexts.{AreAttrs};
ghost use Rattle.ts_model.specs.Queries.{selected, items_at};
ghost use Rattle.ts_select.specs.Cells.{fields_at};

use crate::columns::columns_of;
use crate::layout::is_in_layout;
use crate::places::places_of;
use crate::whole::whole_rows;
use std::alloc::Global;
use ts_base::OutOfMemory;
use ts_batch::{Batch, RowBatch};
use ts_model::Ready;
use ts_schema::{Frame, Schema};

/// The rows that a query selects of these cells: those that its filter matches, in its layout, each
/// cut to the fields that are shown. The rows of the cells follow the attributes of the schema.
///
/// Each field is gathered into a column of its own. Cells that ascend in the layout as they stand are
/// taken as they stand, and others are sorted. Where all of them are taken so, columns of values are
/// moved. More than 2^32 - 1 cells count as want of memory.
pub fn rows_of(
    alloc: Global,
    frame: &Frame,
    schema: &Schema,
    ready: &Ready,
    cells: Batch,
) -> Result<RowBatch, OutOfMemory>
    requires frame { IsFrame frame.now }
    requires attrs { AreAttrs schema.now.attrs }
    requires inside { All (λ (v : AnyVersion). IsTrue (is_in_domain frame.now.domain v.coords)) cells }
    requires wide { All (λ (v : AnyVersion). length v.row ≡ length schema.now.attrs) cells }
    ensures { IfOk result (λ rows. rows ≡ selected frame.now schema.now.attrs ready.now (map (λ (v : AnyVersion). (v.coords, v.row)) cells)) }
{
    if cells.len() > u32::MAX as u64 {
        return Err(OutOfMemory);
    }
    let stands = is_in_layout(frame, ready.layout, &cells);
    let dims = frame.domain.count();
    let attrs = schema.attrs.len();
    let fields = ready.fields.as_slice();
    if stands && ready.filter.is_none() && cells.len() > 0 {
        return whole_rows(alloc, dims, attrs, fields, cells);
    }
    let places = places_of(alloc, frame, schema, ready, stands, &cells)?;
    rows_at(alloc, dims, attrs, fields, &cells, places.as_slice())
}

// The rows of the cells at these places, each cut to the fields that are shown.
fn rows_at(
    alloc: Global,
    dims: u8,
    attrs: u64,
    fields: &[u32],
    cells: &Batch,
    places: &[u32],
) -> Result<RowBatch, OutOfMemory>
    requires dims { All (λ (v : AnyVersion). length v.coords ≡ dims) cells.now }
    requires attrs { All (λ (v : AnyVersion). length v.row ≡ attrs) cells.now }
    requires places { All (λ place. place < length cells.now) places.now }
    ensures { IfOk result (λ rows. rows ≡ map (λ place. items_at fields.now (fields_at cells.now place)) places.now) }
{
    let columns = columns_of(alloc, dims, attrs, fields, cells, places)?;
    Ok(RowBatch::of_columns(columns, places.len() as u64))
}
