//! Decoding many tiles in parallel.
ghost use Rattle.std.specs.Prelude.{◌≡◌, ◌<◌, ◌++◌, ◌∷◌, [], length, slice_index_or, OnOk, IfErr};
ghost use Rattle.ts_column.specs.Tiles.{DecodesTile, GatherTo, tile_vals, tiles_vals};
ghost use Rattle.ts_column.specs.declared.tiles.Tile.{Tile as AnyTile};
ghost use Rattle.ts_column.specs.declared.tiles.TileFault.TheVariants as fault;

use crate::decoding::decode_column;
use crate::tiles::{TileFault, TileView};
use rayon::prelude::*;
use std::alloc::Global;
use std::thread::Threads;
use ts_base::{OutOfMemory, Sequence, ValType};
use ts_table::Column;

/// A list of columns.
pub type ColumnList = Sequence<Column>;

/// So many cells are worth a thread of their own.
const LEAST_CELLS: u64 = 65536;

/// The columns of many tiles, decoded in several threads: those that [`decode_column`] gives for one
/// tile after the other, or the fault of the first that has one. No clause says how many threads.
///
/// There is a count of cells for each tile. A column of many tiles is decoded in up to two parts for each
/// processor. A part has at least the tiles that fit into 65,536 cells, by the count of the first tile.
pub fn decode_all<R: Threads + Sync>(
    rt: &R,
    alloc: Global,
    ty: ValType,
    nullable: bool,
    counts: &[u64],
    tiles: &[TileView<'_>],
) -> Result<ColumnList, TileFault>
    requires { length tiles.now ≡ length counts.now }
    ensures { DecodesTile (λ columns. columns) (tiles_vals ty nullable counts.now tiles.now) result }
{
    let decoded = (0..tiles.len())
        .into_par_iter()
        .with_min_len(least_tiles(counts))
        .map(
            |i: usize| -> Result<Column, TileFault>
                requires { (i < length tiles.now) × (i < length counts.now) }
                ensures { (d : AnyTile) → DecodesTile (λ column. column) (tile_vals ty nullable (slice_index_or counts.entry.now i 0) (slice_index_or tiles.entry.now i d)) result }
            { decode_column(alloc, ty, nullable, counts[i], &tiles[i]) },
        )
        .collect::<Vec<Result<Column, TileFault>>>(rt, alloc);
    match decoded {
        Ok(decoded) => gathered(alloc, decoded),
        Err(_) => Err(TileFault::OutOfMemory),
    }
}

// How many tiles a part has at least.
fn least_tiles(counts: &[u64]) -> usize {
    match counts.first() {
        Some(count) if *count > 0 => (LEAST_CELLS / *count).max(1) as usize,
        _ => 1,
    }
}

// All columns, or the first fault.
fn gathered(alloc: Global, decoded: Vec<Result<Column, TileFault>>) -> Result<ColumnList, TileFault>
    ensures { GatherTo decoded.items result }
{
    let mut columns = ColumnList::new(alloc);
    for one in decoded {
        match one {
            Ok(column) => push_column(&mut columns, column)?,
            Err(fault) => return Err(fault),
        }
    }
    Ok(columns)
}

// Appends a column.
fn push_column(columns: &mut ColumnList, column: Column) -> Result<(), TileFault>
    ensures ok { OnOk result (columns.new ≡ columns.old ++ column ∷ []) }
    ensures err { IfErr result (λ e. e ≡ fault.OutOfMemory) }
{
    match columns.push(column) {
        Ok(()) => Ok(()),
        Err(OutOfMemory) => Err(TileFault::OutOfMemory),
    }
}
