//! Comparisons of cells by their coordinates.
ghost use Rattle.std.specs.Prelude.{◌≡◌, ◌<◌, ◌-◌, ◌↔◌, pos, length, slice_index_or, IsTrue};
ghost use Rattle.std.specs.Cmp.{IsTotalOrder};
ghost use Rattle.std.specs.List.{All};
ghost use Rattle.std.specs.Ordering.{int_cmp};
ghost use Rattle.std.specs.declared.cmp.Ordering.TheVariants.{Equal};
ghost use Rattle.ts_domain.specs.Dims.{IsSoundDim};
ghost use Rattle.ts_domain.specs.Domains.{is_in_domain};
ghost use Rattle.ts_order.specs.Orders.{dim_at, order_cmp, tile_numbers, global_cmp};

use crate::tile_order::cmp_tile;
use std::cmp::Ordering;
use ts_base::Coords;
use ts_domain::{Dim, Domain, Order};

/// Compares two cells in row or column order. It takes no memory.
pub fn cmp_plain(order: Order, a: &Coords, b: &Coords) -> Ordering
    requires { length b.now ≡ length a.now }
    ensures value { result ≡ order_cmp order a.now b.now }
    ensures same { (result ≡ Equal) ↔ (a.now ≡ b.now) }
    ensures total { IsTotalOrder (order_cmp order) }
{
    cmp_by_rank(order, a.as_slice(), b.as_slice())
}

/// Compares two cells of a domain in global order: by the space tiles in the tile order, and
/// within a tile in the cell order. It takes no memory.
pub fn cmp_global(domain: &Domain, tile: Order, cell: Order, a: &Coords, b: &Coords) -> Ordering
    requires first { IsTrue (is_in_domain domain.now a.now) }
    requires second { IsTrue (is_in_domain domain.now b.now) }
    ensures value { result ≡ global_cmp domain.now tile cell a.now b.now }
    ensures same { (result ≡ Equal) ↔ (a.now ≡ b.now) }
    ensures total { IsTotalOrder (global_cmp domain.now tile cell) }
{
    cmp_by_tiles(domain.as_slice(), tile, cell, a.as_slice(), b.as_slice())
}

fn cmp_by_tiles(dims: &[Dim], tile: Order, cell: Order, a: &[i128], b: &[i128]) -> Ordering
    requires sound { All IsSoundDim dims.now }
    requires first { IsTrue (is_in_domain dims.now a.now) }
    requires second { IsTrue (is_in_domain dims.now b.now) }
    ensures { result ≡ global_cmp dims.now tile cell a.now b.now }
{
    match cmp_tiles(dims, tile, a, b) {
        Ordering::Equal => cmp_by_rank(cell, a, b),
        apart => apart,
    }
}

fn cmp_tiles(dims: &[Dim], tile: Order, a: &[i128], b: &[i128]) -> Ordering
    requires sound { All IsSoundDim dims.now }
    requires first { IsTrue (is_in_domain dims.now a.now) }
    requires second { IsTrue (is_in_domain dims.now b.now) }
    ensures { result ≡ order_cmp tile (tile_numbers dims.now a.now) (tile_numbers dims.now b.now) }
{
    let count = dims.len();
    for rank in 0..count {
        match cmp_tile_at(dims, a, b, dim_at(tile, count, rank)) {
            Ordering::Equal => {}
            apart => return apart,
        }
    }
    Ordering::Equal
}

fn cmp_tile_at(dims: &[Dim], a: &[i128], b: &[i128], dim: usize) -> Ordering
    requires sound { All IsSoundDim dims.now }
    requires first { IsTrue (is_in_domain dims.now a.now) }
    requires second { IsTrue (is_in_domain dims.now b.now) }
    requires below { dim < length dims.now }
    ensures { result ≡ int_cmp (slice_index_or (tile_numbers dims.now a.now) dim (pos 0)) (slice_index_or (tile_numbers dims.now b.now) dim (pos 0)) }
{
    cmp_tile(&dims[dim], a[dim], b[dim])
}

fn cmp_by_rank(order: Order, a: &[i128], b: &[i128]) -> Ordering
    requires { length b.now ≡ length a.now }
    ensures { result ≡ order_cmp order a.now b.now }
{
    let count = a.len();
    for rank in 0..count {
        match cmp_at(a, b, dim_at(order, count, rank)) {
            Ordering::Equal => {}
            apart => return apart,
        }
    }
    Ordering::Equal
}

// The dimension that is compared after `rank` others.
pub(crate) fn dim_at(order: Order, count: usize, rank: usize) -> usize
    requires { rank < count }
    ensures value { result ≡ dim_at order count rank }
    ensures below { result < count }
{
    match order {
        Order::Row => rank,
        Order::Col => count - 1 - rank,
    }
}

fn cmp_at(a: &[i128], b: &[i128], dim: usize) -> Ordering
    requires first { dim < length a.now }
    requires second { dim < length b.now }
    ensures { result ≡ int_cmp (slice_index_or a.now dim (pos 0)) (slice_index_or b.now dim (pos 0)) }
{
    a[dim].cmp(&b[dim])
}
