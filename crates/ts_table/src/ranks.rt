//! The places of the versions of a table in an order of their cells, found by counting cells.
ghost use Rattle.std.specs.Prelude.{◌≡◌, ◌<◌, ◌≤◌, ◌+◌, ◌-◌, ◌^◌, ◌≤ℤ◌, ◌-ℤ◌, min, map, length, All, IfOk};
ghost use Rattle.std.specs.List.Sorted.{IsPermutation, IsSorted};
ghost use Rattle.ts_domain.specs.Bounds.{natural_of, count_between};
ghost use Rattle.ts_domain.specs.Boxes.{cells_of};
ghost use Rattle.ts_domain.specs.Dims.{IsSoundDim};
ghost use Rattle.ts_domain.specs.Domains.{whole_domain};
ghost use Rattle.ts_order.specs.Orders.{dim_at};
ghost use Rattle.ts_table.specs.Orders.{cells_cmp, LiesInside};
ghost use Rattle.ts_table.specs.Ordered.{AreOrdered};
ghost use Rattle.ts_table.specs.Ranks.{IsCountable, IsLine, steps_on, CanCount, counted_on, ArePlaces, place_in, front_place, tile_place, cell_place, ranks_of, rank_cmp};

use crate::numbers::{Integers, Numbers};
use crate::order::CellOrder;
use crate::table::Table;
use std::alloc::Global;
use ts_base::{IndexList, OutOfMemory, Sequence};
use ts_domain::{Dim, Domain, Order};

/// A version as it is compared: where its cell stands, and its place in a table.
#[derive(Clone, Copy, Debug, PartialEq, Eq, PartialOrd, Ord)]
pub(crate) struct Ranked {
    // The place of the space tile among those of the domain. In row order and in column order it
    // is 0.
    tile: u64,
    // The place of the cell in the domain.
    cell: u64,
    // The place of the version in its table.
    place: u32,
}

// A list of ranks.
type RankedList = Sequence<Ranked>;

/// What is counted.
#[derive(Clone, Copy, Debug, PartialEq, Eq)]
pub(crate) enum Counted {
    /// The cells of the domain.
    Cells,
    /// Its space tiles.
    Tiles,
}

/// How the cells or the space tiles along a dimension are counted.
#[derive(Clone, Copy, Debug)]
pub(crate) struct Line {
    // The least coordinate.
    low: i128,
    // The number of coordinates that count as one.
    extent: u64,
    // How many there are.
    count: u64,
}

// The number of cells of the domain of these dimensions, or 2^64 - 1 where there are more.
pub(crate) fn cells_in(dims: &[Dim]) -> u64
    requires { All IsSoundDim dims.now }
    ensures { result ≡ min (cells_of (whole_domain dims.now)) (2 ^ 64 - 1) }
{
    let mut cells: u64 = 1;
    for dim in 0..dims.len() {
        cells = cells.saturating_mul(side_of(&dims[dim]));
    }
    cells
}

// How many coordinates a dimension has, or 2^64 - 1 where there are more.
fn side_of(dim: &Dim) -> u64
    requires { IsSoundDim dim.now }
    ensures { result ≡ min (count_between dim.now.low dim.now.high) (2 ^ 64 - 1) }
{
    let distance = dim.high.abs_diff(dim.low);
    if distance < u64::MAX as u128 {
        distance as u64 + 1
    } else {
        u64::MAX
    }
}

// The places of the versions of a table in an order, those of one cell as they stand.
pub(crate) fn places_by_rank(
    alloc: Global,
    domain: &Domain,
    order: CellOrder,
    table: &Table,
) -> Result<IndexList, OutOfMemory>
    requires few { length table.now < 4294967296 }
    requires inside { All (LiesInside domain.now) table.now }
    requires sound { All IsSoundDim domain.now }
    requires countable { IsCountable domain.now }
    ensures { IfOk result (AreOrdered (cells_cmp domain.now order) table.now) }
{
    let ranks = ranks_of(alloc, domain, order, table)?;
    let ranks = sorted(ranks);
    places_of(alloc, ranks.as_slice())
}

// The ranks of all versions, as they stand.
fn ranks_of(
    alloc: Global,
    domain: &Domain,
    order: CellOrder,
    table: &Table,
) -> Result<RankedList, OutOfMemory>
    requires few { length table.now < 4294967296 }
    requires inside { All (LiesInside domain.now) table.now }
    requires sound { All IsSoundDim domain.now }
    requires countable { IsCountable domain.now }
    ensures { IfOk result (λ ranks. ranks ≡ ranks_of domain.now order table.now) }
{
    let tiles = tile_places(alloc, domain, order, table)?;
    let cells = cell_places(alloc, domain, order, table)?;
    let mut ranks = RankedList::from_vec(Vec::with_capacity(alloc, cells.len())?);
    for place in 0..cells.len() {
        ranks.push(Ranked {
            tile: tiles[place],
            cell: cells[place],
            place: place as u32,
        })?;
    }
    Ok(ranks)
}

// For each version the place of its space tile.
fn tile_places(
    alloc: Global,
    domain: &Domain,
    order: CellOrder,
    table: &Table,
) -> Result<Vec<u64>, OutOfMemory>
    requires inside { All (LiesInside domain.now) table.now }
    requires sound { All IsSoundDim domain.now }
    requires countable { IsCountable domain.now }
    ensures { IfOk result (λ places. ArePlaces (tile_place domain.now order) table.now places.items) }
{
    match order {
        CellOrder::Plain(_) => Ok(vec![in alloc; 0u64; table.len() as usize]?),
        CellOrder::Global { tile, .. } => places_in(alloc, domain, Counted::Tiles, tile, table),
    }
}

// For each version the place of its cell.
fn cell_places(
    alloc: Global,
    domain: &Domain,
    order: CellOrder,
    table: &Table,
) -> Result<Vec<u64>, OutOfMemory>
    requires inside { All (LiesInside domain.now) table.now }
    requires sound { All IsSoundDim domain.now }
    requires countable { IsCountable domain.now }
    ensures { IfOk result (λ places. ArePlaces (cell_place domain.now order) table.now places.items) }
{
    match order {
        CellOrder::Plain(order) => places_in(alloc, domain, Counted::Cells, order, table),
        CellOrder::Global { cell, .. } => places_in(alloc, domain, Counted::Cells, cell, table),
    }
}

// For each version the place of its cell or of its space tile, counted in row or column order.
fn places_in(
    alloc: Global,
    domain: &Domain,
    counted: Counted,
    order: Order,
    table: &Table,
) -> Result<Vec<u64>, OutOfMemory>
    requires inside { All (LiesInside domain.now) table.now }
    requires sound { All IsSoundDim domain.now }
    requires countable { IsCountable domain.now }
    ensures { IfOk result (λ places. ArePlaces (place_in counted domain.now order) table.now places.items) }
{
    let mut places = vec![in alloc; 0u64; table.len() as usize]?;
    for rank in 0..domain.count() {
        count_on(domain, counted, order, rank, table, &mut places);
    }
    Ok(places)
}

// Counts places on by the dimension that is compared after `rank` others.
fn count_on(
    domain: &Domain,
    counted: Counted,
    order: Order,
    rank: u8,
    table: &Table,
    places: &mut [u64],
)
    requires inside { All (LiesInside domain.now) table.now }
    requires sound { All IsSoundDim domain.now }
    requires countable { IsCountable domain.now }
    requires within { rank < length domain.now }
    requires so_far { ArePlaces (front_place counted domain.now order rank) table.now places.old }
    ensures { ArePlaces (front_place counted domain.now order (rank + 1)) table.now places.new }
{
    let dim = dim_at(order, domain.count(), rank);
    let line = line_of(counted, domain.dim(dim));
    if let Some(column) = table.column(dim) {
        count_along(&line, column, places);
    }
}

// Counts places on along a line, by these coordinates.
fn count_along(line: &Line, column: &Numbers, places: &mut [u64])
    requires { CanCount line.now column.now places.old }
    ensures { places.new ≡ counted_on line.now column.now places.old }
{
    match column.as_slice() {
        Some(Integers::Short(short)) => count_short(line, short, places),
        Some(Integers::Long(long)) => count_long(line, long, places),
        None => count_wide(line, column, places),
    }
}

// Counts places on along a line, by coordinates of 32 bits.
fn count_short(line: &Line, column: &[i32], places: &mut [u64])
    requires { CanCount line.now column.now places.old }
    ensures { places.new ≡ counted_on line.now column.now places.old }
{
    for place in 0..places.len() {
        let steps = steps_on(line, column[place] as i128);
        places[place] = places[place] * line.count + steps;
    }
}

// Counts places on along a line, by coordinates of 64 bits.
fn count_long(line: &Line, column: &[i64], places: &mut [u64])
    requires { CanCount line.now column.now places.old }
    ensures { places.new ≡ counted_on line.now column.now places.old }
{
    for place in 0..places.len() {
        let steps = steps_on(line, column[place] as i128);
        places[place] = places[place] * line.count + steps;
    }
}

// Counts places on along a line, by these coordinates.
fn count_wide(line: &Line, column: &Numbers, places: &mut [u64])
    requires { CanCount line.now column.now places.old }
    ensures { places.new ≡ counted_on line.now column.now places.old }
{
    for place in 0..places.len() {
        let steps = steps_on(line, column.at_or_zero(place as u64));
        places[place] = places[place] * line.count + steps;
    }
}

// The dimension that is compared after `rank` others.
fn dim_at(order: Order, count: u8, rank: u8) -> u8
    requires { rank < count }
    ensures value { result ≡ dim_at order count rank }
    ensures below { result < count }
{
    match order {
        Order::Row => rank,
        Order::Col => count - 1 - rank,
    }
}

// How the cells or the space tiles along a dimension are counted.
fn line_of(counted: Counted, dim: &Dim) -> Line
    requires sound { IsSoundDim dim.now }
    requires few { count_between dim.now.low dim.now.high < 2 ^ 64 }
    ensures { IsLine counted dim.now result }
{
    let last = dim.high.abs_diff(dim.low) as u64;
    let extent = match counted {
        Counted::Cells => 1,
        Counted::Tiles => dim.extent as u64,
    };
    Line {
        low: dim.low,
        extent,
        count: last / extent + 1,
    }
}

// How many cells or space tiles lie before that of a coordinate.
fn steps_on(line: &Line, number: i128) -> u64
    requires some { 1 ≤ line.now.extent }
    requires above { line.now.low ≤ℤ number }
    requires few { natural_of (number -ℤ line.now.low) < 2 ^ 64 }
    ensures { result ≡ steps_on line.now number }
{
    let steps = number.abs_diff(line.low) as u64;
    if line.extent == 1 {
        steps
    } else {
        steps / line.extent
    }
}

// The ranks in their order. No two are the same, since each has a place of its own.
fn sorted(ranks: RankedList) -> RankedList
    ensures each { IsPermutation ranks result }
    ensures sorted { IsSorted rank_cmp result }
{
    let mut ranks = ranks.into_vec();
    ranks.sort_unstable();
    RankedList::from_vec(ranks)
}

// The places of ranks.
fn places_of(alloc: Global, ranks: &[Ranked]) -> Result<IndexList, OutOfMemory>
    ensures { IfOk result (λ places. places ≡ map (λ ranked. ranked.place) ranks.now) }
{
    let mut places = IndexList::from_vec(Vec::with_capacity(alloc, ranks.len())?);
    for ranked in ranks {
        places.push(ranked.place)?;
    }
    Ok(places)
}
