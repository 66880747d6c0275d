//! Fields of cells of a batch, as columns.
ghost use Rattle.std.specs.Prelude.{◌≡◌, ◌+◌, ◌<◌, ◌≤◌, length, nat_lt, option_map, slice_get, slice_index_or, IfOk, IfSome, All};
ghost use Rattle.ts_base.specs.declared.heads.Version.{Version as AnyVersion};
ghost use Rattle.ts_base.specs.declared.values.Val.TheVariants as val;
ghost use Rattle.ts_table.specs.Columns.{val_seen};
ghost use Rattle.ts_table.specs.Tables.{version_or};
ghost use Rattle.ts_select.specs.Cells.{fields_at};
ghost use Rattle.ts_select.specs.Columns.{column_at, columns_at, or_null, HasField};

use crate::sites::column_along;
use std::alloc::Global;
use ts_base::OutOfMemory;
use ts_batch::Batch;
use ts_table::{Column, Seen};

/// The columns of fields, at these places: of the coordinates where a field's place is below the
/// number of dimensions, of the values where it is below that of all fields, and none where it is not.
pub(crate) fn columns_of(
    alloc: Global,
    dims: u8,
    attrs: u64,
    fields: &[u32],
    cells: &Batch,
    places: &[u32],
) -> Result<Vec<Column>, OutOfMemory>
    requires dims { All (λ (v : AnyVersion). length v.coords ≡ dims) cells.now }
    requires places { All (λ place. place < length cells.now) places.now }
    ensures { IfOk result (λ columns. columns.items ≡ columns_at cells.now places.now (dims + attrs) fields.now) }
{
    let mut columns = Vec::new(alloc);
    for field in fields {
        if is_field(*field, dims, attrs) {
            columns.push(column_of(alloc, dims, *field, cells, places)?)?;
        }
    }
    Ok(columns)
}

// Whether a place is that of a field: the dimensions count first, and then the attributes.
fn is_field(field: u32, dims: u8, attrs: u64) -> bool
    ensures { result ≡ nat_lt field (dims + attrs) }
{
    let count = dims as u32;
    field < count || ((field - count) as u64) < attrs
}

// The column of a field, at these places.
fn column_of(
    alloc: Global,
    dims: u8,
    field: u32,
    cells: &Batch,
    places: &[u32],
) -> Result<Column, OutOfMemory>
    requires dims { All (λ (v : AnyVersion). length v.coords ≡ dims) cells.now }
    requires places { All (λ place. place < length cells.now) places.now }
    ensures { IfOk result (λ column. column ≡ column_at cells.now places.now field) }
{
    if field < dims as u32 {
        coords_column(alloc, dims, field as u8, cells, places)
    } else {
        vals_column(alloc, dims, field, cells, places)
    }
}

// The column of the coordinates along a dimension, at these places.
fn coords_column(
    alloc: Global,
    dims: u8,
    dim: u8,
    cells: &Batch,
    places: &[u32],
) -> Result<Column, OutOfMemory>
    requires dims { All (λ (v : AnyVersion). length v.coords ≡ dims) cells.now }
    requires places { All (λ place. place < length cells.now) places.now }
    requires below { dim < dims }
    ensures { IfOk result (λ column. column ≡ column_at cells.now places.now dim) }
{
    let numbers = column_along(alloc, dim, cells, places)?;
    Column::of_integers(alloc, numbers)
}

// The column of the values of an attribute, at these places.
fn vals_column(
    alloc: Global,
    dims: u8,
    field: u32,
    cells: &Batch,
    places: &[u32],
) -> Result<Column, OutOfMemory>
    requires dims { All (λ (v : AnyVersion). length v.coords ≡ dims) cells.now }
    requires places { All (λ place. place < length cells.now) places.now }
    requires past { dims ≤ field }
    ensures { IfOk result (λ column. column ≡ column_at cells.now places.now field) }
{
    match vals_of(cells, dims, field) {
        Some(vals) => vals.gathered(alloc, places),
        None => seen_column(alloc, dims, field, cells, places),
    }
}

// The column of the values of an attribute of all cells, if there is one.
#[tactic(auto, using(crate::proofs::Fields::columns))]
fn vals_of(cells: &Batch, dims: u8, field: u32) -> Option<&Column>
    requires dims { All (λ (v : AnyVersion). length v.coords ≡ dims) cells.now }
    requires past { dims ≤ field }
    ensures { IfSome result (λ column. HasField cells.now field column.now) }
{
    cells.vals((field - dims as u32) as u64)
}

// The column of the values of an attribute, at these places, value by value.
fn seen_column(
    alloc: Global,
    dims: u8,
    field: u32,
    cells: &Batch,
    places: &[u32],
) -> Result<Column, OutOfMemory>
    requires dims { All (λ (v : AnyVersion). length v.coords ≡ dims) cells.now }
    requires places { All (λ place. place < length cells.now) places.now }
    requires past { dims ≤ field }
    ensures { IfOk result (λ column. column ≡ column_at cells.now places.now field) }
{
    let mut column = Column::new(alloc);
    for place in places {
        column.push_seen(val_at(cells, *place as u64, dims, field))?;
    }
    Ok(column)
}

// The value of an attribute of the cell at a place, null where there is no such attribute.
#[tactic(auto, using(crate::proofs::Fields::nulls))]
fn val_at(cells: &Batch, place: u64, dims: u8, field: u32) -> Seen<'_>
    requires dims { All (λ (v : AnyVersion). length v.coords ≡ dims) cells.now }
    requires place { place < length cells.now }
    requires past { dims ≤ field }
    ensures { val_seen result ≡ slice_index_or (fields_at cells.now place) field val.Null }
{
    seen_or_null(found_at(cells, place, dims, field))
}

// The value of an attribute of the cell at a place, if there is one.
#[tactic(auto, using(crate::proofs::Fields::founds))]
fn found_at(cells: &Batch, place: u64, dims: u8, field: u32) -> Option<Seen<'_>>
    requires dims { All (λ (v : AnyVersion). length v.coords ≡ dims) cells.now }
    requires place { place < length cells.now }
    requires past { dims ≤ field }
    ensures { option_map val_seen result ≡ slice_get (fields_at cells.now place) field }
{
    cells.val(place, (field - dims as u32) as u64)
}

// The value, or null where there is none.
fn seen_or_null(found: Option<Seen>) -> Seen
    ensures { val_seen result ≡ or_null (option_map val_seen found.entry) }
{
    match found {
        Some(seen) => seen,
        None => Seen::Null,
    }
}
