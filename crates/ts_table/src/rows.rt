//! Coordinates and rows of one place of columns.
ghost use Rattle.std.specs.Prelude.{◌≡◌, ◌<◌, ◌≤◌, ℤ, List, length, All, IfOk};
ghost use Rattle.ts_base.specs.declared.values.Val.{Val as AnyVal};
ghost use Rattle.ts_table.specs.Tables.{across};

use crate::column::Column;
use crate::numbers::Numbers;
use std::alloc::Global;
use ts_base::{Coords, OutOfMemory, Row};

// The coordinates at a place.
pub(crate) fn coords_across(dims: &[Numbers], place: u64) -> Coords
    requires some { 1 ≤ length dims.now }
    requires room { length dims.now ≤ 8 }
    requires long { All (λ (column : List ℤ). place < length column) dims.now }
    ensures { result ≡ across place dims.now }
{
    let mut numbers = [0; 8];
    for dim in 0..dims.len() {
        numbers[dim] = dims[dim].at(place);
    }
    Coords::new(&numbers[..dims.len()])
}

// The row at a place.
pub(crate) fn row_across(alloc: Global, attrs: &[Column], place: u64) -> Result<Row, OutOfMemory>
    requires { All (λ (column : List AnyVal). place < length column) attrs.now }
    ensures { IfOk result (λ row. row ≡ across place attrs.now) }
{
    let mut row = Row::new(alloc);
    for column in attrs {
        row.push(column.at(place).to_val(alloc)?)?;
    }
    Ok(row)
}
