//! Times the work of a table of a million scattered cells, of two dimensions and three attributes.
ghost use Rattle.std.specs.Prelude.{◌<◌, ◌↔◌, IsTrue, All};
ghost use Rattle.ts_domain.specs.Dims.{IsDim};

use crate::report;
use std::alloc::Global;
use std::cmp::Ordering;
use std::io;
use std::rt::Clock;
use std::time::Instant;
use ts_base::{IndexList, Key, Label, OutOfMemory, ValType};
use ts_domain::{Dim, Domain, Order};
use ts_table::{
    CellOrder, Column, Numbers, Origin, Seen, Table, is_inside, is_table, ordered_places,
};

/// How many cells the table has.
const CELLS: u64 = 1_000_000;

/// How many coordinates each dimension has.
const SIDE: u64 = 1000;

/// How far a cell lies from the next, in row order.
const STRIDE: u64 = 611_953;

// The columns of a table.
#[derive(Drop)]
struct Columns {
    dims: Vec<Numbers>,
    attrs: Vec<Column>,
}

// The columns, each by its name.
#[derive(Drop)]
struct Fields {
    x: Numbers,
    y: Numbers,
    height: Column,
    kind: Column,
    name: Column,
}

/// Times all work, and prints how long it took for each cell.
pub(crate) fn time_table<R: Clock + Print + AllocGlobal>(rt: &R) -> io::Result<()> {
    let alloc = rt.alloc();
    let Ok(letters) = letters(alloc) else {
        return Ok(());
    };
    let start = Instant::now(rt)?;
    let Ok(columns) = made(alloc, letters.as_slice()) else {
        return Ok(());
    };
    report(rt, "make", start, CELLS, columns.dims.len() as u64)?;
    let Ok(Some(table)) = table_of(alloc, letters.as_slice()) else {
        return Ok(());
    };
    let start = Instant::now(rt)?;
    let sum = sum_of(&table);
    report(rt, "read", start, CELLS, sum)?;
    let start = Instant::now(rt)?;
    let sum = climbs(&table);
    report(rt, "compare neighbours", start, CELLS, sum)?;
    time_order(rt, &columns, &table)
}

// Times the ordering of the table, and the gathering of the columns in that order.
fn time_order<R: Clock + Print + AllocGlobal>(
    rt: &R,
    columns: &Columns,
    table: &Table,
) -> io::Result<()> {
    let alloc = rt.alloc();
    let Some(domain) = domain() else {
        return Ok(());
    };
    if table.len() > 4_294_967_295 || !is_inside(&domain, table) {
        return Ok(());
    }
    let order = CellOrder::Global {
        tile: Order::Row,
        cell: Order::Row,
    };
    let start = Instant::now(rt)?;
    let Ok(places) = ordered_places(alloc, &domain, order, table) else {
        return Ok(());
    };
    report(rt, "order", start, CELLS, places.len())?;
    let start = Instant::now(rt)?;
    let Ok(gathered) = gathered(alloc, columns, &places) else {
        return Ok(());
    };
    report(rt, "gather", start, CELLS, gathered.attrs.len() as u64)
}

// The columns of the cells, with texts of these letters.
fn made(alloc: Global, letters: &[u8]) -> Result<Columns, OutOfMemory> {
    let mut fields = Fields {
        x: Numbers::new(alloc),
        y: Numbers::new(alloc),
        height: Column::new(alloc),
        kind: Column::new(alloc),
        name: Column::new(alloc),
    };
    for cell in 0..CELLS {
        push_cell(&mut fields, letters, cell)?;
    }
    let Fields {
        x,
        y,
        height,
        kind,
        name,
    } = fields;
    let dims = dims_of(alloc, x, y)?;
    let attrs = attrs_of(alloc, height, kind, name)?;
    Ok(Columns { dims, attrs })
}

// Appends the fields of a cell.
fn push_cell(fields: &mut Fields, letters: &[u8], cell: u64) -> Result<(), OutOfMemory> {
    let place = cell.wrapping_mul(STRIDE) % CELLS;
    fields.x.push(i128::from(place / SIDE))?;
    fields.y.push(i128::from(place % SIDE))?;
    fields.height.push_number(i128::from(cell))?;
    fields.kind.push_number(i128::from(cell % 256))?;
    fields.name.push_text(text_of(letters, cell))
}

fn dims_of(alloc: Global, x: Numbers, y: Numbers) -> Result<Vec<Numbers>, OutOfMemory> {
    let mut dims = Vec::new(alloc);
    dims.push(x)?;
    dims.push(y)?;
    Ok(dims)
}

fn attrs_of(
    alloc: Global,
    height: Column,
    kind: Column,
    name: Column,
) -> Result<Vec<Column>, OutOfMemory> {
    let mut attrs = Vec::new(alloc);
    attrs.push(height)?;
    attrs.push(kind)?;
    attrs.push(name)?;
    Ok(attrs)
}

/// Letters, more than the text of a cell has.
pub(crate) fn letters(alloc: Global) -> Result<Vec<u8>, OutOfMemory> {
    let mut letters = Vec::new(alloc);
    for letter in b'a'..b'p' {
        letters.push(letter)?;
    }
    Ok(letters)
}

/// The text of a cell: from 5 to 14 letters of these, or all where they are fewer.
pub(crate) fn text_of(letters: &[u8], cell: u64) -> &[u8] {
    let count = 5 + (cell % 10) as usize;
    if count <= letters.len() {
        &letters[..count]
    } else {
        letters
    }
}

// The table of all cells, if the columns make one.
fn table_of(alloc: Global, letters: &[u8]) -> Result<Option<Table>, OutOfMemory> {
    let Columns { dims, attrs } = made(alloc, letters)?;
    let key = Key { t: 1, id: 1 };
    let mut origins = Vec::new(alloc);
    origins.push(Origin { key, schema: key })?;
    let mut cells = Vec::new(alloc);
    for _ in 0..CELLS {
        cells.push(0u32)?;
    }
    if is_table(
        origins.as_slice(),
        dims.as_slice(),
        attrs.as_slice(),
        cells.as_slice(),
    ) {
        return Ok(Some(Table::of(origins, dims, attrs, cells)));
    }
    Ok(None)
}

// A number that depends on all fields of all cells.
fn sum_of(table: &Table) -> u64 {
    let mut sum = 0u64;
    for place in 0..table.len() {
        sum = sum
            .wrapping_add(number(table.coord(place, 0)))
            .wrapping_add(number(table.coord(place, 1)))
            .wrapping_add(seen(table.val(place, 0)))
            .wrapping_add(seen(table.val(place, 1)))
            .wrapping_add(seen(table.val(place, 2)));
    }
    sum
}

fn number(coord: Option<i128>) -> u64 {
    match coord {
        Some(number) => u64::try_from(number).unwrap_or(0),
        None => 0,
    }
}

fn seen(val: Option<Seen>) -> u64 {
    match val {
        Some(Seen::Int(number)) => u64::try_from(number).unwrap_or(0),
        Some(Seen::Bytes(bytes)) => bytes.len() as u64,
        _ => 0,
    }
}

// How many cells come behind the one before them in row order.
fn climbs(table: &Table) -> u64 {
    let mut count = 0u64;
    for place in 1..table.len() {
        if table.compare(place - 1, place) == Ordering::Less {
            count = count.saturating_add(1);
        }
    }
    count
}

// The domain of the cells, in space tiles of 100 by 100 cells.
fn domain() -> Option<Domain> {
    let x = Label::new("x")?;
    let y = Label::new("y")?;
    Domain::new(&[wide(x), wide(y)]).ok()
}

// A side of the domain.
fn wide(name: Label) -> Dim
    ensures { IsDim result }
{
    Dim {
        name,
        ty: ValType::U16,
        low: 0,
        high: 999,
        extent: 100,
    }
}

// The columns with their items in another order.
fn gathered(alloc: Global, columns: &Columns, places: &IndexList) -> Result<Columns, OutOfMemory> {
    let mut dims = Vec::new(alloc);
    for column in columns.dims.as_slice() {
        if are_below(places.as_slice(), column.len()) {
            dims.push(column.gathered(alloc, places.as_slice())?)?;
        }
    }
    let mut attrs = Vec::new(alloc);
    for column in columns.attrs.as_slice() {
        if are_below(places.as_slice(), column.len()) {
            attrs.push(column.gathered(alloc, places.as_slice())?)?;
        }
    }
    Ok(Columns { dims, attrs })
}

// Whether all places are below a number.
fn are_below(places: &[u32], count: u64) -> bool
    ensures { IsTrue result ↔ All (λ place. place < count) places.now }
{
    for place in places {
        if *place as u64 >= count {
            return false;
        }
    }
    true
}
