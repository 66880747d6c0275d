//! The places of cells in global order, and in the other layouts.
ghost use Rattle.std.specs.Prelude.{◌≡◌, reverse, IsTrue};
ghost use Rattle.ts_domain.specs.Domains.{is_in_domain};
ghost use Rattle.ts_order.specs.Orders.{turned};
ghost use Rattle.ts_model.specs.Places.{place_of, plain_place, place_in};

use ts_base::Coords;
use ts_domain::{Layout, Order};
use ts_order::tile_numbers;
use ts_schema::Frame;

/// The place of a cell in global order: the numbers of its space tile and its coordinates, those in
/// front that are compared first.
///
/// In row order and in column order all cells count as cells of one tile.
#[derive(Clone, Copy, Debug, PartialEq, Eq, PartialOrd, Ord)]
pub struct GlobalPlace {
    /// The numbers of the space tile, turned by the tile order.
    tile: Coords,
    /// The coordinates, turned by the cell order.
    cell: Coords,
}

/// The place of a cell in global order. It takes no memory.
pub fn place_of(frame: &Frame, at: &Coords) -> GlobalPlace
    requires { IsTrue (is_in_domain frame.now.domain at.now) }
    ensures { result ≡ place_of frame.now at.now }
{
    let numbers = tile_numbers(frame.domain.as_slice(), at);
    GlobalPlace {
        tile: turned(frame.tile, &numbers),
        cell: turned(frame.cell, at),
    }
}

/// The place of a cell in a layout. It takes no memory.
pub fn place_in(frame: &Frame, layout: Layout, at: &Coords) -> GlobalPlace
    requires { IsTrue (is_in_domain frame.now.domain at.now) }
    ensures { result ≡ place_in frame.now layout at.now }
{
    match layout {
        Layout::Row => plain_place(Order::Row, at),
        Layout::Col => plain_place(Order::Col, at),
        Layout::Global => place_of(frame, at),
    }
}

// The place of a cell in row or column order.
fn plain_place(order: Order, at: &Coords) -> GlobalPlace
    ensures { result ≡ plain_place order at.now }
{
    GlobalPlace {
        tile: Coords::new(&[0]),
        cell: turned(order, at),
    }
}

fn turned(order: Order, at: &Coords) -> Coords
    ensures { result ≡ turned order at.now }
{
    match order {
        Order::Row => *at,
        Order::Col => reversed(at),
    }
}

fn reversed(at: &Coords) -> Coords
    ensures { result ≡ reverse at.now }
{
    let count = at.len() as usize;
    let mut numbers = [0; 8];
    numbers[..count].copy_from_slice(at.as_slice());
    numbers[..count].reverse();
    Coords::new(&numbers[..count])
}
