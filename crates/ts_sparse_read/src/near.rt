//! The cells of a tile, looked at column by column.
ghost use Rattle.std.specs.Prelude.{◌≡◌, ◌<◌, ◌&&◌, [], pos, int_le, get_or, slice_index_or, length, IsTrue};
ghost use Rattle.std.specs.Ordering.{int_cmp};
ghost use Rattle.ts_domain.specs.Bounds.{is_between};
ghost use Rattle.ts_domain.specs.Boxes.{is_in_box};
ghost use Rattle.ts_domain.specs.Domains.{LiesInDomain};
ghost use Rattle.ts_order.specs.Orders.{dim_at, order_cmp};
ghost use Rattle.ts_sparse_read.specs.Picks.{coords_there, IsOneTile, MayStandBehind};
ghost use Rattle.ts_sparse_read.specs.Sifts.{cell_in};

use crate::columns::{Columns, NumberLists};
use std::cmp::Ordering;
use ts_domain::{Order, SubBox};
use ts_order::tile_numbers;
use ts_schema::Frame;
use ts_table::Numbers;

/// Whether all cells of a box in the domain lie in one space tile.
pub(crate) fn is_one_tile(frame: &Frame, leaf: &SubBox) -> bool
    requires { LiesInDomain frame.now.domain leaf.now }
    ensures { IsTrue result → IsOneTile frame.now leaf.now }
{
    let dims = frame.domain.as_slice();
    tile_numbers(dims, &leaf.low) == tile_numbers(dims, &leaf.high)
}

/// Whether all cells are known to share a space tile (`shared`), and the one at the second place may then
/// stand behind the one at the first. Where it says no, it may all the same. It makes no coordinates.
pub(crate) fn may_follow(
    frame: &Frame,
    columns: &Columns,
    shared: bool,
    first: u64,
    second: u64,
) -> bool
    requires first { first < length columns.now.origins }
    requires second { second < length columns.now.origins }
    ensures { IsTrue result → IsTrue shared × MayStandBehind frame.now (cell_in columns.now first) (cell_in columns.now second) }
{
    shared && follows(frame, columns, first, second)
}

// Whether the cell at the second place may stand behind the one at the first, where they share a space tile.
fn follows(frame: &Frame, columns: &Columns, first: u64, second: u64) -> bool
    requires first { first < length columns.now.origins }
    requires second { second < length columns.now.origins }
    ensures { IsTrue result → MayStandBehind frame.now (cell_in columns.now first) (cell_in columns.now second) }
{
    match cmp_cells(frame.cell, &columns.coords, first, second) {
        Ordering::Less => true,
        Ordering::Equal => !frame.dense && is_later(columns, first, second),
        Ordering::Greater => false,
    }
}

// Whether the write of the cell at the second place is later than that of the one at the first.
fn is_later(columns: &Columns, first: u64, second: u64) -> bool
    requires first { first < length columns.now.origins }
    requires second { second < length columns.now.origins }
    ensures { IsTrue result → slice_index_or columns.now.origins first 0 < slice_index_or columns.now.origins second 0 }
{
    columns.origins.at(first) < columns.origins.at(second)
}

// Compares the cells at two places by their coordinates, in row or column order.
fn cmp_cells(order: Order, coords: &NumberLists, first: u64, second: u64) -> Ordering
    ensures { result ≡ order_cmp order (coords_there coords.now first) (coords_there coords.now second) }
{
    let columns = coords.as_slice();
    let count = columns.len();
    for rank in 0..count {
        match cmp_at(&columns[dim_at(order, count, rank)], first, second) {
            Ordering::Equal => {}
            apart => return apart,
        }
    }
    Ordering::Equal
}

// The dimension that is compared after `rank` others.
fn dim_at(order: Order, count: usize, rank: usize) -> usize
    requires { rank < count }
    ensures value { result ≡ dim_at order count rank }
    ensures below { result < count }
{
    match order {
        Order::Row => rank,
        Order::Col => count - 1 - rank,
    }
}

// Compares the numbers at two places of a column.
fn cmp_at(column: &Numbers, first: u64, second: u64) -> Ordering
    ensures { result ≡ int_cmp (slice_index_or column.now first (pos 0)) (slice_index_or column.now second (pos 0)) }
{
    column.at_or_zero(first).cmp(&column.at_or_zero(second))
}

/// Whether the cell lies in a box whose coordinates stand at this place of columns, one for each dimension. A
/// column that ends before has 0 there. It makes no coordinates.
#[tactic(auto, using(crate::proofs::NearLaws::along_steps))]
pub fn is_cell_in(sub: &SubBox, columns: &[Numbers], place: u64) -> bool
    ensures { result ≡ is_in_box sub.now (coords_there columns.now place) }
{
    is_between(sub.low.as_slice(), sub.high.as_slice(), columns, place)
}

// Whether the numbers at a place of columns lie between bounds, and there are as many of all three.
#[tactic(auto, using(crate::proofs::NearLaws::along_steps))]
fn is_between(low: &[i128], high: &[i128], columns: &[Numbers], place: u64) -> bool
    ensures { result ≡ is_between low.now high.now (coords_there columns.now place) }
{
    if high.len() != low.len() {
        return false;
    }
    if columns.len() != low.len() {
        return false;
    }
    for dim in 0..low.len() {
        if !is_along(low, high, columns, dim, place) {
            return false;
        }
    }
    true
}

// Whether the number at a place of a column lies between the bounds of its dimension.
#[tactic(auto, using(std::proofs::lemmas::Option::get_or_from_slice_get))]
fn is_along(low: &[i128], high: &[i128], columns: &[Numbers], dim: usize, place: u64) -> bool
    requires lows { dim < length low.now }
    requires highs { dim < length high.now }
    requires columns { dim < length columns.now }
    ensures { let x = get_or (get_or columns.now dim []) place (pos 0) in result ≡ (int_le (slice_index_or low.now dim (pos 0)) x && int_le x (slice_index_or high.now dim (pos 0))) }
{
    let at = columns[dim].at_or_zero(place);
    low[dim] <= at && at <= high[dim]
}
