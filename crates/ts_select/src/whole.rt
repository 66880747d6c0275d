//! The rows of all cells of a batch, as they stand.
ghost use Rattle.std.specs.Prelude.{◌≡◌, ◌+◌, ◌<◌, ◌≤◌, ◌^◌, length, map, false, IfOk, All};
ghost use Rattle.std.specs.List.{range_with_len};
ghost use Rattle.ts_base.specs.declared.heads.Version.{Version as AnyVersion};
ghost use Rattle.ts_model.specs.Queries.{items_at};
ghost use Rattle.ts_select.specs.Cells.{fields_at};
ghost use Rattle.ts_select.specs.Columns.{columns_at, HaveFields};

use crate::columns::columns_of;
use crate::coordinates::coordinates_of;
use crate::places::all_places;
use crate::taking::taken_columns;
use std::alloc::Global;
use ts_base::OutOfMemory;
use ts_batch::{Batch, RowBatch};
use ts_table::Column;

/// The rows of all cells, each cut to the fields that are shown. Columns of values are moved.
pub(crate) fn whole_rows(
    alloc: Global,
    dims: u8,
    attrs: u64,
    fields: &[u32],
    cells: Batch,
) -> Result<RowBatch, OutOfMemory>
    requires some { 0 < length cells }
    requires few { length cells < 2 ^ 32 }
    requires dims { All (λ (v : AnyVersion). length v.coords ≡ dims) cells }
    requires attrs { All (λ (v : AnyVersion). length v.row ≡ attrs) cells }
    ensures { IfOk result (λ rows. rows ≡ map (λ place. items_at fields.now (fields_at cells place)) (range_with_len 0 (length cells))) }
{
    let count = cells.len();
    let columns = whole_columns(alloc, dims, attrs, fields, cells)?;
    Ok(RowBatch::of_columns(columns, count))
}

// The columns of the fields that are shown.
fn whole_columns(
    alloc: Global,
    dims: u8,
    attrs: u64,
    fields: &[u32],
    cells: Batch,
) -> Result<Vec<Column>, OutOfMemory>
    requires some { 0 < length cells }
    requires few { length cells < 2 ^ 32 }
    requires dims { All (λ (v : AnyVersion). length v.coords ≡ dims) cells }
    requires attrs { All (λ (v : AnyVersion). length v.row ≡ attrs) cells }
    ensures { IfOk result (λ columns. columns.items ≡ columns_at cells (range_with_len 0 (length cells)) (dims + attrs) fields.now) }
{
    let mut all = dims_columns(alloc, dims, fields, &cells)?;
    match cells.into_attrs() {
        Ok(mut vals) => {
            all.append(&mut vals)?;
            taken_columns(alloc, fields, all.as_mut_slice())
        }
        Err(rows) => {
            let places = all_places(alloc, rows.len())?;
            columns_of(alloc, dims, attrs, fields, &rows, places.as_slice())
        }
    }
}

// The columns of the dimensions, which are empty where no dimension is shown.
#[tactic(auto, using(crate::proofs::AllCells::dimensions))]
fn dims_columns(
    alloc: Global,
    dims: u8,
    fields: &[u32],
    cells: &Batch,
) -> Result<Vec<Column>, OutOfMemory>
    requires some { 0 < length cells.now }
    requires long { All (λ (v : AnyVersion). length v.coords ≡ dims) cells.now }
    ensures { IfOk result (λ columns. HaveFields cells.now dims fields.now columns.items) }
{
    if is_shown(dims, fields) {
        coordinates_of(alloc, dims, cells)
    } else {
        no_columns(alloc, dims)
    }
}

// Whether a dimension is among the fields that are shown.
fn is_shown(dims: u8, fields: &[u32]) -> bool
    ensures { result ≡ false → All (λ field. dims ≤ field) fields.now }
{
    for field in fields {
        if *field < dims as u32 {
            return true;
        }
    }
    false
}

// So many columns of no values.
fn no_columns(alloc: Global, count: u8) -> Result<Vec<Column>, OutOfMemory>
    ensures { IfOk result (λ columns. length columns.items ≡ count) }
{
    let mut columns = Vec::new(alloc);
    for place in 0..count {
        columns.push(Column::new(alloc))?;
    }
    Ok(columns)
}
