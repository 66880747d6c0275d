//! The places of the versions of a table in an order of their cells, found by comparing them.
ghost use Rattle.std.specs.Prelude.{◌≡◌, ◌<◌, reverse, map, length, IsTrue, All, IfOk};
ghost use Rattle.std.specs.List.Sorted.{IsPermutation, IsSorted};
ghost use Rattle.ts_domain.specs.Domains.{is_in_domain};
ghost use Rattle.ts_order.specs.Orders.{turned};
ghost use Rattle.ts_table.specs.Orders.{cells_cmp, LiesInside};
ghost use Rattle.ts_table.specs.Ordered.{AreOrdered};
ghost use Rattle.ts_table.specs.Spots.{spot_of, spot_at, spots_of, spot_cmp};

use crate::order::CellOrder;
use crate::table::Table;
use std::alloc::Global;
use ts_base::{Coords, IndexList, OutOfMemory, Sequence};
use ts_domain::{Domain, Order};
use ts_order::tile_numbers;

/// A cell as it is compared, and its place in a table.
#[derive(Clone, Copy, Debug, PartialEq, Eq, PartialOrd, Ord)]
pub(crate) struct Spot {
    // The numbers of the space tile, those in front that are compared first. In row order and in
    // column order all cells count as cells of one tile.
    tile: Coords,
    // The coordinates, those in front that are compared first.
    cell: Coords,
    // The place.
    place: u32,
}

// A list of spots.
type SpotList = Sequence<Spot>;

// The places of the versions of a table in an order, those of one cell as they stand.
pub(crate) fn places_by_spot(
    alloc: Global,
    domain: &Domain,
    order: CellOrder,
    table: &Table,
) -> Result<IndexList, OutOfMemory>
    requires few { length table.now < 4294967296 }
    requires inside { All (LiesInside domain.now) table.now }
    ensures { IfOk result (AreOrdered (cells_cmp domain.now order) table.now) }
{
    let spots = spots_of(alloc, domain, order, table)?;
    let spots = sorted(spots)?;
    places_of(alloc, spots.as_slice())
}

// The spots of all versions, as they stand.
#[tactic(auto, using(crate::proofs::SpotOrders::steps))]
fn spots_of(
    alloc: Global,
    domain: &Domain,
    order: CellOrder,
    table: &Table,
) -> Result<SpotList, OutOfMemory>
    requires few { length table.now < 4294967296 }
    requires inside { All (LiesInside domain.now) table.now }
    ensures { IfOk result (λ spots. spots ≡ spots_of domain.now order table.now) }
{
    let mut spots = SpotList::new(alloc);
    for place in 0..table.len() {
        spots.push(spot_at(domain, order, table, place))?;
    }
    Ok(spots)
}

// The spot of the version at a place.
fn spot_at(domain: &Domain, order: CellOrder, table: &Table, place: u64) -> Spot
    requires few { length table.now < 4294967296 }
    requires within { place < length table.now }
    requires inside { All (LiesInside domain.now) table.now }
    ensures { result ≡ spot_at domain.now order table.now place }
{
    spot_of(domain, order, &table.coords(place), place as u32)
}

// The spot of coordinates.
fn spot_of(domain: &Domain, order: CellOrder, at: &Coords, place: u32) -> Spot
    requires { IsTrue (is_in_domain domain.now at.now) }
    ensures { result ≡ spot_of domain.now order at.now place }
{
    match order {
        CellOrder::Plain(order) => Spot {
            tile: Coords::new(&[0]),
            cell: turned(order, at),
            place,
        },
        CellOrder::Global { tile, cell } => Spot {
            tile: turned(tile, &tile_numbers(domain.as_slice(), at)),
            cell: turned(cell, at),
            place,
        },
    }
}

// The numbers, that of the dimension that is compared first in front.
pub(crate) fn turned(order: Order, at: &Coords) -> Coords
    ensures { result ≡ turned order at.now }
{
    match order {
        Order::Row => *at,
        Order::Col => reversed(at),
    }
}

fn reversed(at: &Coords) -> Coords
    ensures { result ≡ reverse at.now }
{
    let count = at.len() as usize;
    let mut numbers = [0; 8];
    numbers[..count].copy_from_slice(at.as_slice());
    numbers[..count].reverse();
    Coords::new(&numbers[..count])
}

// The spots in their order.
fn sorted(spots: SpotList) -> Result<SpotList, OutOfMemory>
    ensures each { IfOk result (IsPermutation spots) }
    ensures sorted { IfOk result (IsSorted spot_cmp) }
{
    let mut spots = spots.into_vec();
    spots.sort()?;
    Ok(SpotList::from_vec(spots))
}

// The places of spots.
fn places_of(alloc: Global, spots: &[Spot]) -> Result<IndexList, OutOfMemory>
    ensures { IfOk result (λ places. places ≡ map (λ spot. spot.place) spots.now) }
{
    let mut places = IndexList::new(alloc);
    for spot in spots {
        places.push(spot.place)?;
    }
    Ok(places)
}
