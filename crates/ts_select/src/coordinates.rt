//! The coordinates of all cells of a batch, one column for each dimension.
ghost use Rattle.std.specs.Prelude.{◌≡◌, ◌<◌, length, map, IfOk, All};
ghost use Rattle.std.specs.List.{range_with_len};
ghost use Rattle.ts_base.specs.declared.heads.Version.{Version as AnyVersion};
ghost use Rattle.ts_base.specs.declared.values.Val.TheVariants as val;
ghost use Rattle.ts_table.specs.Tables.{column_of};

use crate::layout::number_at;
use std::alloc::Global;
use ts_base::OutOfMemory;
use ts_batch::Batch;
use ts_gather::coords_columns;
use ts_table::{BoxTable, Column, Numbers};

/// The coordinates of all cells, one column for each dimension.
pub(crate) fn coordinates_of(
    alloc: Global,
    dims: u8,
    cells: &Batch,
) -> Result<Vec<Column>, OutOfMemory>
    requires some { 0 < length cells.now }
    requires long { All (λ (v : AnyVersion). length v.coords ≡ dims) cells.now }
    ensures { IfOk result (λ columns. columns.items ≡ map (λ dim. map val.Int (column_of cells.now dim)) (range_with_len 0 dims)) }
{
    let numbers = numbers_of(alloc, dims, cells)?;
    columns_of(alloc, numbers)
}

// The coordinates of all cells, as lists of integers.
fn numbers_of(alloc: Global, dims: u8, cells: &Batch) -> Result<Vec<Numbers>, OutOfMemory>
    requires some { 0 < length cells.now }
    requires long { All (λ (v : AnyVersion). length v.coords ≡ dims) cells.now }
    ensures { IfOk result (λ numbers. numbers.items ≡ map (column_of cells.now) (range_with_len 0 dims)) }
{
    match cells.as_box() {
        Some(table) => box_numbers(alloc, dims, table),
        None => cell_numbers(alloc, dims, cells),
    }
}

// The coordinates of all cells of a box.
#[tactic(auto, using(crate::proofs::Boxes::numbers))]
fn box_numbers(alloc: Global, dims: u8, table: &BoxTable) -> Result<Vec<Numbers>, OutOfMemory>
    requires some { 0 < length table.now }
    requires long { All (λ (v : AnyVersion). length v.coords ≡ dims) table.now }
    ensures { IfOk result (λ numbers. numbers.items ≡ map (column_of table.now) (range_with_len 0 dims)) }
{
    let parts = table.parts();
    coords_columns(alloc, parts.sub, parts.order)
}

// The coordinates of cells, one after the other.
fn cell_numbers(alloc: Global, dims: u8, cells: &Batch) -> Result<Vec<Numbers>, OutOfMemory>
    ensures { IfOk result (λ numbers. numbers.items ≡ map (column_of cells.now) (range_with_len 0 dims)) }
{
    let mut numbers = Vec::new(alloc);
    for dim in 0..dims {
        numbers.push(numbers_along(alloc, dim, cells)?)?;
    }
    Ok(numbers)
}

// The coordinates of cells along a dimension, 0 where a cell has none.
#[tactic(auto, using(crate::proofs::AllCells::alongs))]
fn numbers_along(alloc: Global, dim: u8, cells: &Batch) -> Result<Numbers, OutOfMemory>
    ensures { IfOk result (λ numbers. numbers ≡ column_of cells.now dim) }
{
    let mut numbers = Numbers::new(alloc);
    for place in 0..cells.len() {
        numbers.push(number_at(cells, place, dim))?;
    }
    Ok(numbers)
}

// A column for each list of integers.
fn columns_of(alloc: Global, numbers: Vec<Numbers>) -> Result<Vec<Column>, OutOfMemory>
    ensures { IfOk result (λ columns. columns.items ≡ map (map val.Int) numbers.items) }
{
    let mut columns = Vec::new(alloc);
    for list in numbers {
        columns.push(Column::of_integers(alloc, list)?)?;
    }
    Ok(columns)
}
