//! The cell at a place of a box, and the place of a cell.
ghost use Rattle.std.specs.Prelude.{◌≡◌, ◌+◌, ◌-◌, ◌*◌, ◌^◌, ◌<◌, ℕ, ℤ, pos, ◌+ℤ◌, ◌-ℤ◌, Some, length, slice_get, slice_index_or, IsTrue};
ghost use Rattle.ts_domain.specs.Bounds.{are_bounds, is_between, natural_of, count_between, cells_between};
ghost use Rattle.ts_domain.specs.Boxes.{IsBox, is_in_box, cells_of};
ghost use Rattle.ts_order.specs.Orders.{turned, order_cmp, coords_in_order, Ascends};
ghost use Rattle.ts_order.specs.Places.{coords_of_place, place_of};

use crate::compare::dim_at;
use ts_base::Coords;
use ts_domain::{Order, SubBox};

/// The cell at a place of a box, the cells counted from 0 in row or column order. It takes no
/// memory.
pub fn coords_at(sub: &SubBox, order: Order, position: u64) -> Coords
    requires valid { IsBox sub.now }
    requires few { cells_of sub.now < 2 ^ 64 - 1 }
    requires below { position < cells_of sub.now }
    ensures place { slice_get (coords_in_order order sub.now) position ≡ Some result }
    ensures inside { IsTrue (is_in_box sub.now result) }
    ensures ascending { Ascends (order_cmp order) (coords_in_order order sub.now) }
{
    numbers_at(&sub.low, &sub.high, order, position)
}

/// The place of a cell in a box, the cells counted from 0 in row or column order. It takes no
/// memory.
pub fn position_of(sub: &SubBox, order: Order, at: &Coords) -> u64
    requires few { cells_of sub.now < 2 ^ 64 - 1 }
    requires inside { IsTrue (is_in_box sub.now at.now) }
    ensures place { slice_get (coords_in_order order sub.now) result ≡ Some at.now }
    ensures only { (place : ℕ) → slice_get (coords_in_order order sub.now) place ≡ Some at.now → place ≡ result }
    ensures below { result < cells_of sub.now }
{
    place_in(
        sub.low.as_slice(),
        sub.high.as_slice(),
        order,
        at.as_slice(),
    )
}

// Finds the coordinates from the dimension that changes fastest to the one that changes slowest.
fn numbers_at(low: &Coords, high: &Coords, order: Order, position: u64) -> Coords
    requires valid { IsTrue (are_bounds low.now high.now) }
    requires few { cells_between low.now high.now < 2 ^ 64 }
    requires below { position < cells_between low.now high.now }
    ensures { turned order result ≡ coords_of_place (turned order low.now) (turned order high.now) position }
{
    let count = low.len() as usize;
    let (low, high) = (low.as_slice(), high.as_slice());
    let mut numbers = [0; 8];
    let mut rest = position;
    for done in 0..count {
        let dim = dim_at(order, count, count - 1 - done);
        let side = side_at(low, high, dim);
        numbers[dim] = number_at(low, high, dim, rest % side);
        rest /= side;
    }
    Coords::new(&numbers[..count])
}

// Counts the places from the dimension that changes slowest to the one that changes fastest.
fn place_in(low: &[i128], high: &[i128], order: Order, at: &[i128]) -> u64
    requires few { cells_between low.now high.now < 2 ^ 64 }
    requires inside { IsTrue (is_between low.now high.now at.now) }
    ensures { result ≡ place_of (turned order low.now) (turned order high.now) (turned order at.now) }
{
    let count = low.len();
    let mut place = 0;
    for rank in 0..count {
        let dim = dim_at(order, count, rank);
        place = place * side_at(low, high, dim) + steps_at(low, high, at, dim);
    }
    place
}

// How many numbers the box has along a dimension.
fn side_at(low: &[i128], high: &[i128], dim: usize) -> u64
    requires valid { IsTrue (are_bounds low.now high.now) }
    requires few { cells_between low.now high.now < 2 ^ 64 }
    requires within { dim < length low.now }
    ensures value { result ≡ count_between (slice_index_or low.now dim (pos 0)) (slice_index_or high.now dim (pos 0)) }
    ensures some { 0 < result }
{
    high[dim].abs_diff(low[dim]) as u64 + 1
}

// The number that lies some steps above the low bound along a dimension.
fn number_at(low: &[i128], high: &[i128], dim: usize, steps: u64) -> i128
    requires valid { IsTrue (are_bounds low.now high.now) }
    requires within { dim < length low.now }
    requires below { steps < count_between (slice_index_or low.now dim (pos 0)) (slice_index_or high.now dim (pos 0)) }
    ensures { result ≡ slice_index_or low.now dim (pos 0) +ℤ pos steps }
{
    let _high = high[dim]; // it fits, and so do the numbers below it
    low[dim] + steps as i128
}

// How many steps a coordinate lies above the low bound along a dimension.
fn steps_at(low: &[i128], high: &[i128], at: &[i128], dim: usize) -> u64
    requires inside { IsTrue (is_between low.now high.now at.now) }
    requires few { cells_between low.now high.now < 2 ^ 64 }
    requires within { dim < length low.now }
    ensures { result ≡ natural_of (slice_index_or at.now dim (pos 0) -ℤ slice_index_or low.now dim (pos 0)) }
{
    at[dim].abs_diff(low[dim]) as u64
}
