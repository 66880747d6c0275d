//! The space tiles that meet a box.
ghost use Rattle.std.specs.Prelude.{◌≡◌, ◌<◌, ◌-◌, ◌^◌, ◌≤ℤ◌, ℤ, pos, length, slice_index_or, IfOk, IsTrue};
ghost use Rattle.std.specs.List.{All};
ghost use Rattle.ts_domain.specs.Boxes.{IsBox, cells_of};
ghost use Rattle.ts_domain.specs.Dims.{IsSoundDim, tile_number, tile_start, tile_end};
ghost use Rattle.ts_domain.specs.Domains.{is_in_domain, LiesInDomain};
ghost use Rattle.ts_order.specs.Orders.{tile_numbers};
ghost use Rattle.ts_order.specs.Tiles.{cut_low, cut_high, cut_box, tile_box, tiles_in, MeetsTile, AreTiles};

use crate::places::coords_at;
use std::alloc::Global;
use ts_base::{Coords, OutOfMemory};
use ts_domain::{BoxList, Dim, Domain, Order, SubBox};

/// The space tiles that meet a box, each cut to the box, in tile order.
pub fn tiles_of(
    alloc: Global,
    domain: &Domain,
    tile: Order,
    sub: &SubBox,
) -> Result<BoxList, OutOfMemory>
    requires valid { IsBox sub.now }
    requires inside { LiesInDomain domain.now sub.now }
    requires few { cells_of sub.now < 2 ^ 64 - 1 }
    ensures value { IfOk result (λ tiles. tiles ≡ tiles_in domain.now tile sub.now) }
    ensures tiles { IfOk result (AreTiles domain.now tile sub.now) }
{
    let dims = domain.as_slice();
    let numbers = tile_box(dims, sub);
    let mut tiles = BoxList::new(alloc);
    for place in 0..numbers.cells() {
        let number = coords_at(&numbers, tile, place);
        tiles.push(cut_box(dims, sub, &number))?;
    }
    Ok(tiles)
}

fn tile_box(dims: &[Dim], sub: &SubBox) -> SubBox
    requires sound { All IsSoundDim dims.now }
    requires inside { LiesInDomain dims.now sub.now }
    ensures { result ≡ tile_box dims.now sub.now }
{
    SubBox {
        low: tile_numbers(dims, &sub.low),
        high: tile_numbers(dims, &sub.high),
    }
}

fn cut_box(dims: &[Dim], sub: &SubBox, tile: &Coords) -> SubBox
    requires { MeetsTile dims.now sub.now tile.now }
    ensures { result ≡ cut_box dims.now sub.now tile.now }
{
    SubBox {
        low: cut_low(dims, sub, tile),
        high: cut_high(dims, sub, tile),
    }
}

/// The numbers of the space tile that has a cell, one for each dimension. A dimension's first tile
/// has the number 0.
pub fn tile_numbers(dims: &[Dim], at: &Coords) -> Coords
    requires sound { All IsSoundDim dims.now }
    requires inside { IsTrue (is_in_domain dims.now at.now) }
    ensures { result ≡ tile_numbers dims.now at.now }
{
    let count = at.len() as usize;
    let mut numbers = [0; 8];
    for dim in 0..count {
        numbers[dim] = tile_number_at(dims, at.as_slice(), dim);
    }
    Coords::new(&numbers[..count])
}

fn cut_low(dims: &[Dim], sub: &SubBox, tile: &Coords) -> Coords
    requires { MeetsTile dims.now sub.now tile.now }
    ensures { result ≡ cut_low dims.now tile.now sub.now.low }
{
    let count = sub.low.len() as usize;
    let mut numbers = [0; 8];
    for dim in 0..count {
        numbers[dim] = cut_low_at(dims, sub, tile, dim);
    }
    Coords::new(&numbers[..count])
}

fn cut_high(dims: &[Dim], sub: &SubBox, tile: &Coords) -> Coords
    requires { MeetsTile dims.now sub.now tile.now }
    ensures { result ≡ cut_high dims.now tile.now sub.now.high }
{
    let count = sub.high.len() as usize;
    let mut numbers = [0; 8];
    for dim in 0..count {
        numbers[dim] = cut_high_at(dims, sub, tile, dim);
    }
    Coords::new(&numbers[..count])
}

fn tile_number_at(dims: &[Dim], at: &[i128], dim: usize) -> i128
    requires sound { All IsSoundDim dims.now }
    requires inside { IsTrue (is_in_domain dims.now at.now) }
    requires within { dim < length dims.now }
    ensures { result ≡ slice_index_or (tile_numbers dims.now at.now) dim (pos 0) }
{
    tile_number(&dims[dim], at[dim])
}

fn cut_low_at(dims: &[Dim], sub: &SubBox, tile: &Coords, dim: usize) -> i128
    requires meets { MeetsTile dims.now sub.now tile.now }
    requires within { dim < length dims.now }
    ensures { result ≡ slice_index_or (cut_low dims.now tile.now sub.now.low) dim (pos 0) }
{
    let (low, number) = (sub.low.as_slice(), tile.as_slice());
    low[dim].max(tile_start(&dims[dim], number[dim]))
}

fn cut_high_at(dims: &[Dim], sub: &SubBox, tile: &Coords, dim: usize) -> i128
    requires meets { MeetsTile dims.now sub.now tile.now }
    requires within { dim < length dims.now }
    ensures { result ≡ slice_index_or (cut_high dims.now tile.now sub.now.high) dim (pos 0) }
{
    let (high, number) = (sub.high.as_slice(), tile.as_slice());
    high[dim].min(tile_end(&dims[dim], number[dim]))
}

fn tile_number(dim: &Dim, x: i128) -> i128
    requires sound { IsSoundDim dim.now }
    requires above { dim.now.low ≤ℤ x }
    requires below { x ≤ℤ dim.now.high }
    ensures { result ≡ tile_number dim.now x }
{
    (x - dim.low).div_euclid(dim.extent)
}

fn tile_start(dim: &Dim, tile: i128) -> i128
    requires sound { IsSoundDim dim.now }
    requires positive { pos 0 ≤ℤ tile }
    requires reached { tile_start dim.now tile ≤ℤ dim.now.high }
    ensures { result ≡ tile_start dim.now tile }
{
    dim.low + tile * dim.extent
}

fn tile_end(dim: &Dim, tile: i128) -> i128
    requires sound { IsSoundDim dim.now }
    requires positive { pos 0 ≤ℤ tile }
    requires reached { tile_start dim.now tile ≤ℤ dim.now.high }
    ensures { result ≡ tile_end dim.now tile }
{
    tile_start(dim, tile) + (dim.extent - 1)
}
