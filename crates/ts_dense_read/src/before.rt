//! How many cells of a box stand before its part in a space tile.
ghost use Rattle.std.specs.Prelude.{◌≡◌, ◌<◌, ◌^◌, ◌-ℤ◌, pos, length, slice_index_or, IsTrue};
ghost use Rattle.ts_domain.specs.Bounds.{are_bounds, is_between, natural_of, count_between, cells_between};
ghost use Rattle.ts_domain.specs.Boxes.{IsBox, is_in_box, cells_of};
ghost use Rattle.ts_order.specs.Orders.{turned, dim_at};
ghost use Rattle.ts_dense_read.specs.TileRanges.{cells_before};

use ts_domain::{Order, SubBox};

/// How many cells of a box stand before its part in a space tile, the space tiles in row or column order.
pub(crate) fn cells_before(hull: &SubBox, part: &SubBox, order: Order) -> u64
    requires few { cells_of hull.now < 2 ^ 64 }
    requires valid { IsBox part.now }
    requires low { IsTrue (is_in_box hull.now part.now.low) }
    requires high { IsTrue (is_in_box hull.now part.now.high) }
    ensures { result ≡ cells_before (turned order hull.now.low) (turned order hull.now.high) (turned order part.now.low) (turned order part.now.high) }
{
    before_between(
        hull.low.as_slice(),
        hull.high.as_slice(),
        part.low.as_slice(),
        part.high.as_slice(),
        order,
    )
}

// Counts from the dimension that changes fastest to the one that changes slowest.
fn before_between(low: &[i128], high: &[i128], from: &[i128], to: &[i128], order: Order) -> u64
    requires few { cells_between low.now high.now < 2 ^ 64 }
    requires valid { IsTrue (are_bounds from.now to.now) }
    requires from { IsTrue (is_between low.now high.now from.now) }
    requires to { IsTrue (is_between low.now high.now to.now) }
    ensures { result ≡ cells_before (turned order low.now) (turned order high.now) (turned order from.now) (turned order to.now) }
{
    let count = low.len();
    let mut before = 0;
    let mut rest = 1;
    for done in 0..count {
        let dim = rank_dim(order, count, count - 1 - done);
        let steps = steps_at(low, high, from, dim);
        before = steps * rest + side_at(from, to, dim) * before;
        rest *= side_at(low, high, dim);
    }
    before
}

// The dimension of a rank, of so many: of rank 0 is the one that changes slowest.
fn rank_dim(order: Order, count: usize, rank: usize) -> usize
    requires { rank < count }
    ensures value { result ≡ dim_at order count rank }
    ensures within { result < count }
{
    match order {
        Order::Row => rank,
        Order::Col => count - 1 - rank,
    }
}

// How many numbers lie between two corners along a dimension.
fn side_at(low: &[i128], high: &[i128], dim: usize) -> u64
    requires valid { IsTrue (are_bounds low.now high.now) }
    requires few { cells_between low.now high.now < 2 ^ 64 }
    requires within { dim < length low.now }
    ensures { result ≡ count_between (slice_index_or low.now dim (pos 0)) (slice_index_or high.now dim (pos 0)) }
{
    high[dim].abs_diff(low[dim]) as u64 + 1
}

// How many steps a coordinate lies above the low bound along a dimension.
fn steps_at(low: &[i128], high: &[i128], at: &[i128], dim: usize) -> u64
    requires inside { IsTrue (is_between low.now high.now at.now) }
    requires few { cells_between low.now high.now < 2 ^ 64 }
    requires within { dim < length low.now }
    ensures { result ≡ natural_of (slice_index_or at.now dim (pos 0) -ℤ slice_index_or low.now dim (pos 0)) }
{
    at[dim].abs_diff(low[dim]) as u64
}
