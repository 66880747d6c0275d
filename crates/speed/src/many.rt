//! Times the decoding of all tiles of a column at once, on as many processors as there are.
use crate::tiles::made;
use std::alloc::Global;
use std::io;
use std::rt::Clock;
use std::thread::Threads;
use std::time::Instant;
use ts_base::{OutOfMemory, ValType};
use ts_column::{Tile, TileView, decode_all};

/// How many tiles the column has.
const TILES: u64 = 64;

/// How many values each tile has.
const CELLS: u64 = 65536;

/// How often the column is decoded.
const ROUNDS: u64 = 10;

/// Times columns of three kinds, and prints how long they took for each value by the machine's clock.
pub(crate) fn time_many<R: Clock + Print + AllocGlobal + Threads + Sync>(rt: &R) -> io::Result<()> {
    time_column(rt, "int32", ValType::I32, false)?;
    time_column(rt, "nullable int16", ValType::I16, true)?;
    time_column(rt, "text", ValType::Text, false)
}

// Times the decoding of one column. That its memory is taken back is not timed.
fn time_column<R: Clock + Print + AllocGlobal + Threads + Sync>(
    rt: &R,
    name: &str,
    ty: ValType,
    nullable: bool,
) -> io::Result<()> {
    let alloc = rt.alloc();
    let Ok(tiles) = tiles_of(alloc, ty, nullable) else {
        return Ok(());
    };
    let Ok(counts) = vec![in alloc; CELLS; TILES as usize] else {
        return Ok(());
    };
    let Ok(views) = views_of(alloc, tiles.as_slice()) else {
        return Ok(());
    };
    if views.len() != counts.len() {
        return Ok(());
    }
    let mut sum = 0u64;
    let mut nanoseconds = 0u128;
    for _ in 0..ROUNDS {
        let start = Instant::now(rt)?;
        let decoded = decode_all(rt, alloc, ty, nullable, counts.as_slice(), views.as_slice());
        nanoseconds = nanoseconds.saturating_add(start.elapsed(rt)?.as_nanos());
        // What was decoded is let go behind that.
        if let Ok(columns) = decoded {
            sum = sum.wrapping_add(columns.len());
        }
    }
    let each = nanoseconds.saturating_mul(1000) / u128::from(ROUNDS * TILES * CELLS);
    println!(rt; "decode {name} in {TILES} tiles at once\t{each} ps\t{sum}")
}

// The tiles of a column.
fn tiles_of(alloc: Global, ty: ValType, nullable: bool) -> Result<Vec<Tile>, OutOfMemory> {
    let mut tiles = Vec::new(alloc);
    for nth in 0..TILES {
        tiles.push(made(alloc, ty, nullable, nth.wrapping_mul(CELLS), CELLS)?)?;
    }
    Ok(tiles)
}

// The tiles with their parts borrowed.
fn views_of(alloc: Global, tiles: &[Tile]) -> Result<Vec<TileView<'_>>, OutOfMemory> {
    let mut views = Vec::with_capacity(alloc, tiles.len())?;
    for tile in tiles {
        views.push(tile.view())?;
    }
    Ok(views)
}
