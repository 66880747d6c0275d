//! Encoding tiles.
ghost use Rattle.std.specs.Prelude.{◌≡◌, Ok, length, map, IfOk, IsTrue};
ghost use Rattle.std.specs.List.{flat_map, All};
ghost use Rattle.ts_base.specs.Values.{is_integer, width_of};
ghost use Rattle.ts_value.specs.Fits.{Fits};
ghost use Rattle.ts_wire.specs.Numbers.{int_bytes};
ghost use Rattle.ts_column.specs.Spelled.{number_of, validity_bytes, tile_of};
ghost use Rattle.ts_column.specs.Tiles.{tile_vals, is_signed};

use crate::bytes::has_bytes;
use crate::tiles::Tile;
use crate::words;
use std::alloc::Global;
use ts_base::{ByteList, OutOfMemory, ValType};
use ts_table::Column;

/// The tile of the values of a column, which fit the type.
///
/// It is the one tile that [`decode_column`](crate::decode_column) reads as these values.
#[tactic(auto, using(crate::proofs::TileLaws::encoded_back))]
pub fn encode_column(
    alloc: Global,
    ty: ValType,
    nullable: bool,
    column: &Column,
) -> Result<Tile, OutOfMemory>
    requires fits { All (Fits ty nullable) column.now }
    ensures spells { IfOk result (λ tile. tile ≡ tile_of ty nullable column.now) }
    ensures back { IfOk result (λ tile. tile_vals ty nullable (length column.now) tile ≡ Ok column.now) }
{
    let tile = encode_parts(alloc, ty, nullable, column)?;
    has_bytes(&tile.view());
    Ok(tile)
}

// The tile of the values.
#[tactic(auto, unfolding(crate::specs::Spelled::tile_of))]
fn encode_parts(
    alloc: Global,
    ty: ValType,
    nullable: bool,
    column: &Column,
) -> Result<Tile, OutOfMemory>
    requires fits { All (Fits ty nullable) column.now }
    ensures { IfOk result (λ tile. tile ≡ tile_of ty nullable column.now) }
{
    if ty.is_integer() {
        return Ok(Tile {
            fixed: write_numbers(alloc, ty, column)?,
            var: ByteList::new(alloc),
            validity: write_marks(alloc, nullable, column)?,
        });
    }
    let (fixed, var) = words::write_texts(alloc, column)?;
    Ok(Tile {
        fixed,
        var,
        validity: write_marks(alloc, nullable, column)?,
    })
}

/// Whether the integers of the type may be negative. It takes no memory.
pub fn is_signed(ty: ValType) -> bool
    ensures { result ≡ is_signed ty }
{
    matches!(ty, ValType::I8 | ValType::I16 | ValType::I32 | ValType::I64)
}

// The integers of the values, those of nulls as 0.
fn write_numbers(alloc: Global, ty: ValType, column: &Column) -> Result<ByteList, OutOfMemory>
    requires { IsTrue (is_integer ty) }
    ensures { IfOk result (λ bytes. bytes ≡ flat_map (int_bytes (width_of ty)) (map number_of column.now)) }
{
    match ty {
        ValType::I8 | ValType::U8 => words::write_1(alloc, column),
        ValType::I16 | ValType::U16 => words::write_2(alloc, column),
        ValType::I32 | ValType::U32 => words::write_4(alloc, column),
        ValType::I64 | ValType::U64 => words::write_8(alloc, column),
        ValType::Text | ValType::Blob => unreachable!(),
    }
}

// For each value whether it is there, where there may be nulls.
fn write_marks(alloc: Global, nullable: bool, column: &Column) -> Result<ByteList, OutOfMemory>
    ensures { IfOk result (λ bytes. bytes ≡ validity_bytes nullable column.now) }
{
    if nullable {
        words::write_marks(alloc, column)
    } else {
        Ok(ByteList::new(alloc))
    }
}
