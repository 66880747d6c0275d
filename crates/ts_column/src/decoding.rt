//! Decoding tiles.
ghost use Rattle.std.specs.Prelude.{◌≡◌, true, false, IfOk, IsTrue};
ghost use Rattle.ts_base.specs.Values.{is_integer};
ghost use Rattle.ts_column.specs.Spelled.{IsSpelled};
ghost use Rattle.ts_column.specs.Stored.{stored_vals};
ghost use Rattle.ts_column.specs.Tiles.{numbers_in, byte_lists_in, stored_in, tile_vals, DecodesTile};

use crate::bytes::has_bytes;
use crate::numbers::read_numbers;
use crate::stored::{Stored, read_kinds};
use crate::texts::{check_texts, read_starts};
use crate::tiles::{TileFault, TileView};
use std::alloc::Global;
use ts_base::ValType;
use ts_table::{Column, Texts};
use ts_wire::{Damaged, ReadFault};

/// The values that a tile holds of so many cells.
///
/// A tile that holds other bytes than those of some values is broken in the first of its parts that
/// is, at the first broken field: the fixed part, then that of bytes, then that of marks. The
/// offset is counted from the beginning of the part.
#[tactic(auto, using(crate::proofs::TileLaws::decoded_spelled))]
pub fn decode_column(
    alloc: Global,
    ty: ValType,
    nullable: bool,
    count: u64,
    tile: &TileView<'_>,
) -> Result<Column, TileFault>
    ensures decodes { DecodesTile (λ column. column) (tile_vals ty nullable count tile.now) result }
    ensures spelled { IfOk result (IsSpelled ty nullable count tile.now) }
{
    has_bytes(tile);
    decode_parts(alloc, ty, nullable, count, tile)
}

// The values that the parts of a tile hold.
#[tactic(auto, unfolding(crate::specs::Tiles::tile_vals))]
fn decode_parts(
    alloc: Global,
    ty: ValType,
    nullable: bool,
    count: u64,
    tile: &TileView<'_>,
) -> Result<Column, TileFault>
    ensures { DecodesTile (λ column. column) (tile_vals ty nullable count tile.now) result }
{
    let stored = read_stored(alloc, ty, count, tile)?;
    match read_kinds(alloc, nullable, &stored, tile.validity) {
        Ok(kinds) => Ok(stored.into_column(alloc, kinds)),
        Err(ReadFault::Damaged(damaged)) => Err(TileFault::Validity(damaged)),
        Err(ReadFault::OutOfMemory) => Err(TileFault::OutOfMemory),
    }
}

// The stored values.
fn read_stored(
    alloc: Global,
    ty: ValType,
    count: u64,
    tile: &TileView<'_>,
) -> Result<Stored, TileFault>
    ensures { DecodesTile stored_vals (stored_in (is_integer ty) ty count tile.now) result }
{
    if ty.is_integer() {
        stored_numbers(alloc, ty, count, tile)
    } else {
        stored_texts(alloc, ty, count, tile)
    }
}

// The stored integers.
#[tactic(auto, unfolding(crate::specs::Tiles::numbers_in))]
fn stored_numbers(
    alloc: Global,
    ty: ValType,
    count: u64,
    tile: &TileView<'_>,
) -> Result<Stored, TileFault>
    requires { IsTrue (is_integer ty) }
    ensures { DecodesTile stored_vals (numbers_in ty count tile.now) result }
{
    let numbers = match read_numbers(alloc, ty, count, tile.fixed) {
        Ok(numbers) => numbers,
        Err(ReadFault::Damaged(damaged)) => return Err(TileFault::Fixed(damaged)),
        Err(ReadFault::OutOfMemory) => return Err(TileFault::OutOfMemory),
    };
    if tile.var.is_empty() {
        Ok(Stored::Numbers(numbers))
    } else {
        Err(TileFault::Var(Damaged { at: 0 }))
    }
}

// The stored texts or blobs.
#[tactic(auto, unfolding(crate::specs::Tiles::byte_lists_in))]
fn stored_texts(
    alloc: Global,
    ty: ValType,
    count: u64,
    tile: &TileView<'_>,
) -> Result<Stored, TileFault>
    requires { is_integer ty ≡ false }
    ensures { DecodesTile stored_vals (byte_lists_in ty count tile.now) result }
{
    let bytes = tile.var;
    let starts = match read_starts(alloc, bytes.len() as u64, count, tile.fixed) {
        Ok(starts) => starts,
        Err(ReadFault::Damaged(damaged)) => return Err(TileFault::Fixed(damaged)),
        Err(ReadFault::OutOfMemory) => return Err(TileFault::OutOfMemory),
    };
    if let Err(damaged) = check_texts(ty, starts.as_slice(), bytes) {
        return Err(TileFault::Var(damaged));
    }
    match Vec::from_slice(alloc, bytes) {
        Ok(bytes) => Ok(Stored::Texts(Texts::of(starts.into_vec(), bytes))),
        Err(_) => Err(TileFault::OutOfMemory),
    }
}
