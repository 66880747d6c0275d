//! Times the decoding of tiles that hold a million values, and the encoding of what was decoded.
use crate::table::{letters, text_of};
use std::alloc::Global;
use std::io;
use std::rt::Clock;
use std::time::Instant;
use ts_base::{ByteList, OutOfMemory, ValType};
use ts_column::{Tile, decode_column, encode_column};
use ts_wire::Scribe;

/// How many values are decoded and encoded.
const CELLS: u64 = 1_000_000;

// How many nanoseconds the tiles took so far, and how many bytes they have.
#[derive(Drop)]
struct Took {
    decoding: u128,
    encoding: u128,
    bytes: u64,
}

/// Times tiles of two sizes, and prints how long they took for each cell.
pub(crate) fn time_tiles<R: Clock + Print + AllocGlobal>(rt: &R) -> io::Result<()> {
    time_kinds(rt, 10_000)?;
    time_kinds(rt, CELLS)
}

// Times tiles of so many cells, of three kinds.
fn time_kinds<R: Clock + Print + AllocGlobal>(rt: &R, count: u64) -> io::Result<()> {
    time_kind(rt, "int32", ValType::I32, false, count)?;
    time_kind(rt, "nullable int16", ValType::I16, true, count)?;
    time_kind(rt, "text", ValType::Text, false, count)
}

// Times the tiles of a million values, one after the other.
fn time_kind<R: Clock + Print + AllocGlobal>(
    rt: &R,
    name: &str,
    ty: ValType,
    nullable: bool,
    count: u64,
) -> io::Result<()> {
    let mut took = Took {
        decoding: 0,
        encoding: 0,
        bytes: 0,
    };
    for nth in 0..CELLS / count.max(1) {
        let first = nth.wrapping_mul(count);
        if let Ok(tile) = made(rt.alloc(), ty, nullable, first, count) {
            time_tile(rt, &mut took, ty, nullable, count, &tile)?;
        }
    }
    tell(rt, "decode", name, count, took.decoding, took.bytes)?;
    tell(rt, "encode", name, count, took.encoding, took.bytes)
}

// Prints how long one of these steps took for each cell.
fn tell<R: Print>(
    rt: &R,
    step: &str,
    name: &str,
    count: u64,
    nanoseconds: u128,
    bytes: u64,
) -> io::Result<()> {
    let each = nanoseconds.saturating_mul(1000) / u128::from(CELLS);
    println!(rt; "{step} {name} in tiles of {count}\t{each} ps\t{bytes}")
}

// Times the decoding of a tile, and the encoding of its column.
#[tactic(auto, using(crate::proofs::Fitting::decoded_fits))]
fn time_tile<R: Clock + AllocGlobal>(
    rt: &R,
    took: &mut Took,
    ty: ValType,
    nullable: bool,
    count: u64,
    tile: &Tile,
) -> io::Result<()> {
    let alloc = rt.alloc();
    let start = Instant::now(rt)?;
    let Ok(column) = decode_column(alloc, ty, nullable, count, &tile.view()) else {
        return Ok(());
    };
    let decoding = start.elapsed(rt)?.as_nanos();
    let start = Instant::now(rt)?;
    let Ok(again) = encode_column(alloc, ty, nullable, &column) else {
        return Ok(());
    };
    let encoding = start.elapsed(rt)?.as_nanos();
    took.decoding = took.decoding.saturating_add(decoding);
    took.encoding = took.encoding.saturating_add(encoding);
    took.bytes = took.bytes.saturating_add(bytes_of(&again));
    Ok(())
}

// How many bytes a tile has.
fn bytes_of(tile: &Tile) -> u64 {
    let fixed = tile.fixed.len();
    fixed
        .saturating_add(tile.var.len())
        .saturating_add(tile.validity.len())
}

/// The tile of so many cells from the first.
pub(crate) fn made(
    alloc: Global,
    ty: ValType,
    nullable: bool,
    first: u64,
    count: u64,
) -> Result<Tile, OutOfMemory> {
    if ty == ValType::Text {
        return texts(alloc, first, count);
    }
    if nullable {
        return marked(alloc, first, count);
    }
    numbers(alloc, first, count)
}

// The tile of so many integers of 4 bytes.
fn numbers(alloc: Global, first: u64, count: u64) -> Result<Tile, OutOfMemory> {
    let mut fixed = Scribe::new(alloc);
    for place in 0..count {
        fixed.u32((first.wrapping_add(place) % 4_294_967_296) as u32)?;
    }
    Ok(Tile {
        fixed: fixed.take(),
        var: ByteList::new(alloc),
        validity: ByteList::new(alloc),
    })
}

// The tile of so many integers of 2 bytes, some of which are null.
fn marked(alloc: Global, first: u64, count: u64) -> Result<Tile, OutOfMemory> {
    let mut fixed = Scribe::new(alloc);
    let mut validity = Scribe::new(alloc);
    for place in 0..count {
        let number = (first.wrapping_add(place) % 65_536) as u16;
        let there = number % 7 != 0;
        fixed.u16(if there { number } else { 0 })?;
        validity.bool(there)?;
    }
    Ok(Tile {
        fixed: fixed.take(),
        var: ByteList::new(alloc),
        validity: validity.take(),
    })
}

// The tile of so many texts.
fn texts(alloc: Global, first: u64, count: u64) -> Result<Tile, OutOfMemory> {
    let mut fixed = Scribe::new(alloc);
    let mut var = ByteList::new(alloc);
    let letters = letters(alloc)?;
    for place in 0..count {
        fixed.u64(var.len())?;
        var.append(text_of(letters.as_slice(), first.wrapping_add(place)))?;
    }
    Ok(Tile {
        fixed: fixed.take(),
        var,
        validity: ByteList::new(alloc),
    })
}
