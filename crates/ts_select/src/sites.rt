//! The coordinates of some cells of a batch, as a table of their own.
ghost use Rattle.std.specs.Prelude.{◌≡◌, ◌≤◌, ◌<◌, length, map, IfOk, All};
ghost use Rattle.std.specs.List.{range_with_len};
ghost use Rattle.ts_base.specs.declared.heads.Version.{Version as AnyVersion};
ghost use Rattle.ts_table.specs.Tables.{version_or};
ghost use Rattle.ts_select.specs.Sites.{numbers_at};

use crate::layout::number_at;
use std::alloc::Global;
use ts_base::{Key, OutOfMemory};
use ts_batch::Batch;
use ts_table::{Numbers, Origin, Table};

/// The cells at these places, each with its coordinates and with no value. Which write laid them is
/// not told.
pub(crate) fn sites_of(
    alloc: Global,
    dims: u8,
    cells: &Batch,
    places: &[u32],
) -> Result<Table, OutOfMemory>
    requires some { 1 ≤ dims }
    requires few { dims ≤ 8 }
    requires long { All (λ (v : AnyVersion). length v.coords ≡ dims) cells.now }
    requires within { All (λ place. place < length cells.now) places.now }
    ensures { IfOk result (λ sites. map (λ (v : AnyVersion). v.coords) sites ≡ map (λ place. (version_or cells.now place).coords) places.now) }
{
    let columns = columns_of(alloc, dims, cells, places)?;
    let key = Key { t: 0, id: 0 };
    let origins = vec![in alloc; Origin { key, schema: key }]?;
    let named = vec![in alloc; 0u32; places.len()]?;
    Ok(Table::of(origins, columns, Vec::new(alloc), named))
}

// The coordinates of the cells at these places along the first dimensions.
fn columns_of(
    alloc: Global,
    dims: u8,
    cells: &Batch,
    places: &[u32],
) -> Result<Vec<Numbers>, OutOfMemory>
    requires { All (λ place. place < length cells.now) places.now }
    ensures { IfOk result (λ columns. columns.items ≡ map (numbers_at cells.now places.now) (range_with_len 0 dims)) }
{
    let mut columns = Vec::new(alloc);
    for dim in 0..dims {
        columns.push(column_along(alloc, dim, cells, places)?)?;
    }
    Ok(columns)
}

/// The coordinates of the cells at these places along a dimension, 0 where a cell has none.
#[tactic(auto, using(crate::proofs::Fields::alongs))]
pub(crate) fn column_along(
    alloc: Global,
    dim: u8,
    cells: &Batch,
    places: &[u32],
) -> Result<Numbers, OutOfMemory>
    requires { All (λ place. place < length cells.now) places.now }
    ensures { IfOk result (λ column. column ≡ numbers_at cells.now places.now dim) }
{
    match cells.column(dim) {
        Some(column) => column.gathered(alloc, places),
        None => read_along(alloc, dim, cells, places),
    }
}

// The coordinates of the cells at these places along a dimension, read one by one.
fn read_along(alloc: Global, dim: u8, cells: &Batch, places: &[u32]) -> Result<Numbers, OutOfMemory>
    requires { All (λ place. place < length cells.now) places.now }
    ensures { IfOk result (λ column. column ≡ numbers_at cells.now places.now dim) }
{
    let mut column = Numbers::new(alloc);
    for place in places {
        column.push(number_at(cells, *place as u64, dim))?;
    }
    Ok(column)
}
