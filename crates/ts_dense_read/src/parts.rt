//! The part of a box that lies in a space tile.
ghost use Rattle.std.specs.Prelude.{◌≡◌, ◌<◌, ◌≤ℤ◌, pos, length, slice_index_or};
ghost use Rattle.ts_domain.specs.Dims.{IsSoundDim, tile_start, tile_end};
ghost use Rattle.ts_order.specs.Tiles.{cut_low, cut_high, cut_box, MeetsTile};

use ts_base::Coords;
use ts_domain::{Dim, SubBox};

/// The part of a box that lies in the space tile of these numbers.
pub(crate) fn part_of(dims: &[Dim], sub: &SubBox, tile: &Coords) -> SubBox
    requires { MeetsTile dims.now sub.now tile.now }
    ensures { result ≡ cut_box dims.now sub.now tile.now }
{
    SubBox {
        low: cut_low(dims, sub, tile),
        high: cut_high(dims, sub, tile),
    }
}

fn cut_low(dims: &[Dim], sub: &SubBox, tile: &Coords) -> Coords
    requires { MeetsTile dims.now sub.now tile.now }
    ensures { result ≡ cut_low dims.now tile.now sub.now.low }
{
    let count = sub.low.len() as usize;
    let mut numbers = [0; 8];
    for dim in 0..count {
        numbers[dim] = cut_low_at(dims, sub, tile, dim);
    }
    Coords::new(&numbers[..count])
}

fn cut_high(dims: &[Dim], sub: &SubBox, tile: &Coords) -> Coords
    requires { MeetsTile dims.now sub.now tile.now }
    ensures { result ≡ cut_high dims.now tile.now sub.now.high }
{
    let count = sub.high.len() as usize;
    let mut numbers = [0; 8];
    for dim in 0..count {
        numbers[dim] = cut_high_at(dims, sub, tile, dim);
    }
    Coords::new(&numbers[..count])
}

fn cut_low_at(dims: &[Dim], sub: &SubBox, tile: &Coords, dim: usize) -> i128
    requires meets { MeetsTile dims.now sub.now tile.now }
    requires within { dim < length dims.now }
    ensures { result ≡ slice_index_or (cut_low dims.now tile.now sub.now.low) dim (pos 0) }
{
    let (low, number) = (sub.low.as_slice(), tile.as_slice());
    low[dim].max(tile_start(&dims[dim], number[dim]))
}

fn cut_high_at(dims: &[Dim], sub: &SubBox, tile: &Coords, dim: usize) -> i128
    requires meets { MeetsTile dims.now sub.now tile.now }
    requires within { dim < length dims.now }
    ensures { result ≡ slice_index_or (cut_high dims.now tile.now sub.now.high) dim (pos 0) }
{
    let (high, number) = (sub.high.as_slice(), tile.as_slice());
    high[dim].min(tile_end(&dims[dim], number[dim]))
}

fn tile_start(dim: &Dim, tile: i128) -> i128
    requires sound { IsSoundDim dim.now }
    requires positive { pos 0 ≤ℤ tile }
    requires reached { tile_start dim.now tile ≤ℤ dim.now.high }
    ensures { result ≡ tile_start dim.now tile }
{
    dim.low + tile * dim.extent
}

fn tile_end(dim: &Dim, tile: i128) -> i128
    requires sound { IsSoundDim dim.now }
    requires positive { pos 0 ≤ℤ tile }
    requires reached { tile_start dim.now tile ≤ℤ dim.now.high }
    ensures { result ≡ tile_end dim.now tile }
{
    tile_start(dim, tile) + (dim.extent - 1)
}
