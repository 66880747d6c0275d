//! Times the fields of objects, the orders of cells, the work of tables and that of tiles, one by one
//! and all of a column at once: `speed fields`, `speed orders`, `speed table`, `speed tiles` or `speed
//! many`.
//!
//! It prints picoseconds for each call, and a number that depends on all results, so that no call is
//! left out. Without a word it does nothing.
#![tactic(auto)]

ghost use Rattle.std.specs.Prelude.{◌≡◌, ◌<◌, length};
ghost use Rattle.ts_domain.specs.Dims.{IsDim};

mod many;
mod table;
mod tiles;

use crate::many::time_many;
use crate::table::time_table;
use crate::tiles::time_tiles;
use std::alloc::Global;
use std::cmp::Ordering;
use std::rt::{Clock, Env};
use std::time::Instant;
use std::{env, io};
use ts_base::{ByteList, Coords, Label, ValType};
use ts_domain::{Dim, Domain, SubBox};
use ts_order::{Order, cmp_global, coords_at};
use ts_wire::{Cursor, Scribe};

/// How many fields of 8 bytes stand in a megabyte.
const FIELDS: u64 = 131072;

/// How often a megabyte of fields is written and read.
const ROUNDS: u64 = 20;

/// How many cells the box has.
const CELLS: u64 = 1 << 20;

fn main(rt: HostRuntime) -> io::Result<()> {
    let word = env::args(&rt)?.nth(1);
    match word {
        Some(word) if word.as_str() == "fields" => time_fields(&rt),
        Some(word) if word.as_str() == "orders" => time_orders(&rt),
        Some(word) if word.as_str() == "table" => time_table(&rt),
        Some(word) if word.as_str() == "tiles" => time_tiles(&rt),
        Some(word) if word.as_str() == "many" => time_many(&rt),
        _ => Ok(()),
    }
}

// Prints how long one of these calls took.
fn report<R: Clock + Print>(
    rt: &R,
    name: &str,
    start: Instant,
    calls: u64,
    sum: u64,
) -> io::Result<()> {
    let nanoseconds = start.elapsed(rt)?.as_nanos();
    let each = nanoseconds.saturating_mul(1000) / u128::from(calls.max(1));
    println!(rt; "{name}\t{each} ps\t{sum}")
}

// A megabyte of fields, written and read.
fn time_fields<R: Clock + Print + AllocGlobal>(rt: &R) -> io::Result<()> {
    let alloc = rt.alloc();
    let start = Instant::now(rt)?;
    let mut bytes = ByteList::new(alloc);
    for round in 0..ROUNDS {
        bytes = written(alloc, round).unwrap_or(ByteList::new(alloc));
    }
    report(rt, "field written", start, FIELDS * ROUNDS, bytes.len())?;
    let start = Instant::now(rt)?;
    let mut sum = 0u64;
    for _ in 0..ROUNDS {
        sum = sum.wrapping_add(sum_of(bytes.as_slice()));
    }
    report(rt, "field read", start, FIELDS * ROUNDS, sum)
}

// A megabyte of fields.
fn written(alloc: Global, first: u64) -> Option<ByteList> {
    let mut scribe = Scribe::new(alloc);
    for n in 0..FIELDS {
        if scribe.u64(first.wrapping_add(n)).is_err() {
            return None;
        }
    }
    Some(scribe.take())
}

// The sum of the fields.
fn sum_of(bytes: &[u8]) -> u64 {
    let mut cursor = Cursor::new(bytes, 0);
    let mut sum = 0u64;
    for _ in 0..FIELDS {
        let Ok(n) = cursor.u64() else {
            break;
        };
        sum = sum.wrapping_add(n);
    }
    sum
}

// The cells of a box of three dimensions, by their places, and each compared with another in global
// order.
fn time_orders<R: Clock + Print>(rt: &R) -> io::Result<()> {
    let start = Instant::now(rt)?;
    let mut sum = 0u64;
    for place in 0..CELLS {
        sum = sum.wrapping_add(number(&cell(place), 2));
    }
    report(rt, "cell at a place", start, CELLS, sum)?;
    let Some(domain) = domain() else {
        return Ok(());
    };
    let mut below = 0u64;
    let start = Instant::now(rt)?;
    for place in 0..CELLS {
        if is_below(&domain, &cell(place), &cell(shuffled(place))) {
            below = below.saturating_add(1);
        }
    }
    report(
        rt,
        "two cells at places, tested and compared in global order",
        start,
        CELLS,
        below,
    )
}

// Another place of the box, far from this one.
fn shuffled(place: u64) -> u64
    ensures { result < 1048576 }
{
    place.wrapping_mul(482711) % CELLS
}

// Whether a cell comes before another in global order.
fn is_below(domain: &Domain, a: &Coords, b: &Coords) -> bool {
    let count = domain.count();
    if a.len() != count || b.len() != count {
        return false;
    }
    if domain.check(a).is_err() || domain.check(b).is_err() {
        return false;
    }
    cmp_global(domain, Order::Row, Order::Col, a, b) == Ordering::Less
}

// The domain of the box, in space tiles of 16 by 8 by 16 cells.
fn domain() -> Option<Domain> {
    let x = Label::new("x")?;
    let y = Label::new("y")?;
    let z = Label::new("z")?;
    Domain::new(&[side(x, 127, 16), side(y, 63, 8), side(z, 127, 16)]).ok()
}

// A side of the box, from 0 on.
fn side(name: Label, high: u8, extent: u8) -> Dim
    ensures { IsDim result }
{
    Dim {
        name,
        ty: ValType::U8,
        low: 0,
        high: i128::from(high),
        extent: i128::from(extent),
    }
}

// A coordinate as a number, 0 where it is below it.
fn number(at: &Coords, dim: u8) -> u64
    requires { dim < length at.now }
{
    u64::try_from(at.at(dim)).unwrap_or(0)
}

// The cell at a place of the box, in row order.
fn cell(place: u64) -> Coords
    requires { place < 1048576 }
    ensures { length result ≡ 3 }
{
    let sub = SubBox {
        low: Coords::new(&[0, 0, 0]),
        high: Coords::new(&[127, 63, 127]),
    };
    coords_at(&sub, Order::Row, place)
}
