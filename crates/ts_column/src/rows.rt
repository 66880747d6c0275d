//! Tiles of rows of values.
ghost use Rattle.std.specs.Prelude.{◌≡◌, ◌<◌, ◌++◌, ◌∷◌, List, [], Ok, length, map, slice_index_or, slice_get, IfOk, OnOk, IsTrue};
ghost use Rattle.std.specs.List.{All};
ghost use Rattle.ts_base.specs.declared.values.Val.{Val as AnyVal};
ghost use Rattle.ts_base.specs.declared.values.Val.TheVariants as val;
ghost use Rattle.ts_value.specs.Fits.{Fits};
ghost use Rattle.ts_column.specs.Spelled.{IsSpelled, value_column, tile_of};
ghost use Rattle.ts_column.specs.Tiles.{DecodesTile, tile_vals};

use crate::decoding::decode_column;
use crate::encoding::encode_column;
use crate::tiles::{Tile, TileFault};
use std::alloc::Global;
use ts_base::{OutOfMemory, Row, ValType};
use ts_table::Column;

/// The tile of the values of rows in a column, counted from 0. Each row has the column, and its value
/// there fits the type.
#[tactic(auto, using(crate::proofs::Written::rows_back))]
pub fn encode_tile(
    alloc: Global,
    ty: ValType,
    nullable: bool,
    rows: &[Row],
    column: u32,
) -> Result<Tile, OutOfMemory>
    requires long { All (λ (row : List AnyVal). column < length row) rows.now }
    requires fits { All (Fits ty nullable) (value_column column rows.now) }
    ensures spells { IfOk result (λ tile. tile ≡ tile_of ty nullable (value_column column rows.now)) }
    ensures back { IfOk result (λ tile. tile_vals ty nullable (length rows.now) tile ≡ Ok (value_column column rows.now)) }
{
    let values = column_of(alloc, rows, column)?;
    encode_column(alloc, ty, nullable, &values)
}

// The values of rows in a column.
#[tactic(auto, using(crate::proofs::Written::values))]
fn column_of(alloc: Global, rows: &[Row], column: u32) -> Result<Column, OutOfMemory>
    requires { All (λ (row : List AnyVal). column < length row) rows.now }
    ensures { IfOk result (λ values. values ≡ value_column column rows.now) }
{
    let mut values = Column::new(alloc);
    for row in rows {
        values.push(row.at(column as u64))?;
    }
    Ok(values)
}

/// The values that a tile holds of so many cells, as [`decode_column`] gives them.
pub fn decode_tile(
    alloc: Global,
    ty: ValType,
    nullable: bool,
    count: u64,
    tile: &Tile,
) -> Result<Row, TileFault>
    ensures decodes { DecodesTile (λ row. row) (tile_vals ty nullable count tile.now) result }
    ensures spelled { IfOk result (IsSpelled ty nullable count tile.now) }
{
    let column = decode_column(alloc, ty, nullable, count, &tile.view())?;
    match row_of(alloc, &column) {
        Ok(row) => Ok(row),
        Err(OutOfMemory) => Err(TileFault::OutOfMemory),
    }
}

// The values of a column.
#[tactic(auto, using(crate::proofs::Written::rows))]
fn row_of(alloc: Global, column: &Column) -> Result<Row, OutOfMemory>
    ensures { IfOk result (λ row. row ≡ column.now) }
{
    let mut row = Row::new(alloc);
    for place in 0..column.len() {
        push_val(alloc, &mut row, column, place)?;
    }
    Ok(row)
}

// Appends the value at a place.
#[tactic(auto, using(crate::proofs::Written::get_there))]
fn push_val(alloc: Global, row: &mut Row, column: &Column, place: u64) -> Result<(), OutOfMemory>
    requires { place < length column.now }
    ensures { OnOk result (row.new ≡ row.old ++ slice_index_or column.now place val.Null ∷ []) }
{
    row.push(column.at(place).to_val(alloc)?)
}
