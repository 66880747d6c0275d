//! The coordinates of the cells of a box, one column for each dimension.
ghost use Rattle.std.specs.Prelude.{◌≡◌, ◌+◌, ◌*◌, ◌-◌, ◌^◌, ◌<◌, ◌≤◌, ℕ, ℤ, pos, ◌+ℤ◌, ◌++◌, length, map, slice_index_or, replicate, IfOk, OnOk, IsTrue};
ghost use Rattle.std.specs.List.{range_with_len};
ghost use Rattle.ts_domain.specs.Bounds.{are_bounds, count_between, cells_between, numbers_from};
ghost use Rattle.ts_domain.specs.Boxes.{IsBox, cells_of};
ghost use Rattle.ts_order.specs.Orders.{turned, dim_at};
ghost use Rattle.ts_gather.specs.Sides.{AreCoords, along, stretched, repeated};

use std::alloc::Global;
use ts_base::OutOfMemory;
use ts_domain::{Order, SubBox};
use ts_table::Numbers;

/// The coordinates of the cells of a box in row or column order, one column for each dimension.
#[tactic(auto, using(crate::proofs::SideLaws::sides_are))]
pub fn coords_columns(
    alloc: Global,
    sub: &SubBox,
    order: Order,
) -> Result<Vec<Numbers>, OutOfMemory>
    requires valid { IsBox sub.now }
    requires few { cells_of sub.now < 2 ^ 64 - 1 }
    ensures { IfOk result (λ columns. AreCoords order sub.now columns.items) }
{
    let (low, high) = (sub.low.as_slice(), sub.high.as_slice());
    let ranked = ranked_columns(alloc, low, high, order, sub.cells())?;
    Ok(by_dimension(order, ranked))
}

// The columns in the order of the dimensions, from those in the order of their ranks.
fn by_dimension(order: Order, columns: Vec<Numbers>) -> Vec<Numbers>
    ensures { result.items ≡ turned order columns.items }
{
    let mut columns = columns;
    match order {
        Order::Row => {}
        Order::Col => columns.reverse(),
    }
    columns
}

// The coordinates between two corners, first those along the dimension that changes slowest.
#[tactic(auto, using(crate::proofs::SideLaws::ranking_all))]
fn ranked_columns(
    alloc: Global,
    low: &[i128],
    high: &[i128],
    order: Order,
    cells: u64,
) -> Result<Vec<Numbers>, OutOfMemory>
    requires valid { IsTrue (are_bounds low.now high.now) }
    requires count { cells ≡ cells_between low.now high.now }
    ensures { IfOk result (λ columns. columns.items ≡ map (along (turned order low.now) (turned order high.now)) (range_with_len 0 (length low.now))) }
{
    let count = low.len();
    let mut columns = Vec::new(alloc);
    let mut rest = cells;
    let mut times = 1;
    for rank in 0..count {
        let dim = rank_dim(order, count, rank);
        let side = side_at(low, high, dim);
        rest /= side;
        columns.push(column_along(alloc, low, high, dim, rest, times)?)?;
        times *= side;
    }
    Ok(columns)
}

/// The dimension of a rank, of so many: of rank 0 is the one that changes slowest.
pub(crate) fn rank_dim(order: Order, count: usize, rank: usize) -> usize
    requires { rank < count }
    ensures value { result ≡ dim_at order count rank }
    ensures within { result < count }
{
    match order {
        Order::Row => rank,
        Order::Col => count - 1 - rank,
    }
}

/// How many numbers lie between two corners along a dimension.
pub(crate) fn side_at(low: &[i128], high: &[i128], dim: usize) -> u64
    requires valid { IsTrue (are_bounds low.now high.now) }
    requires few { cells_between low.now high.now < 2 ^ 64 }
    requires within { dim < length low.now }
    ensures value { result ≡ count_between (slice_index_or low.now dim (pos 0)) (slice_index_or high.now dim (pos 0)) }
    ensures some { 0 < result }
{
    high[dim].abs_diff(low[dim]) as u64 + 1
}

// The numbers between two corners along a dimension, each so many times, and all of that so many times.
fn column_along(
    alloc: Global,
    low: &[i128],
    high: &[i128],
    dim: usize,
    each: u64,
    times: u64,
) -> Result<Numbers, OutOfMemory>
    requires valid { IsTrue (are_bounds low.now high.now) }
    requires few { cells_between low.now high.now < 2 ^ 64 }
    requires within { dim < length low.now }
    ensures { let side = numbers_from (slice_index_or low.now dim (pos 0)) (count_between (slice_index_or low.now dim (pos 0)) (slice_index_or high.now dim (pos 0))) in IfOk result (λ column. column ≡ repeated times (stretched each side)) }
{
    let mut column = Numbers::new(alloc);
    for time in 0..times {
        push_side(&mut column, low, high, dim, each)?;
    }
    Ok(column)
}

// Appends the numbers between two corners along a dimension, each so many times.
fn push_side(
    column: &mut Numbers,
    low: &[i128],
    high: &[i128],
    dim: usize,
    each: u64,
) -> Result<(), OutOfMemory>
    requires valid { IsTrue (are_bounds low.now high.now) }
    requires few { cells_between low.now high.now < 2 ^ 64 }
    requires within { dim < length low.now }
    ensures { let side = numbers_from (slice_index_or low.now dim (pos 0)) (count_between (slice_index_or low.now dim (pos 0)) (slice_index_or high.now dim (pos 0))) in OnOk result (column.new ≡ column.old ++ stretched each side) }
{
    let side = side_at(low, high, dim);
    for steps in 0..side {
        let number = number_at(low, high, dim, steps);
        push_times(column, number, each)?;
    }
    Ok(())
}

// The number that lies some steps above the low bound along a dimension.
fn number_at(low: &[i128], high: &[i128], dim: usize, steps: u64) -> i128
    requires valid { IsTrue (are_bounds low.now high.now) }
    requires within { dim < length low.now }
    requires below { steps < count_between (slice_index_or low.now dim (pos 0)) (slice_index_or high.now dim (pos 0)) }
    ensures { result ≡ slice_index_or low.now dim (pos 0) +ℤ pos steps }
{
    let _high = high[dim]; // it fits, and so do the numbers below it
    low[dim] + steps as i128
}

// Appends a number so many times.
fn push_times(column: &mut Numbers, number: i128, times: u64) -> Result<(), OutOfMemory>
    ensures { OnOk result (column.new ≡ column.old ++ replicate times number) }
{
    for time in 0..times {
        column.push(number)?;
    }
    Ok(())
}
