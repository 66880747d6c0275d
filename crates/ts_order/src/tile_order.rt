//! Which of two coordinates lies in the earlier space tile.
ghost use Rattle.std.specs.Prelude.{◌≡◌, ◌≤ℤ◌, ◌<ℤ◌, pos, int_rem};
ghost use Rattle.std.specs.Ordering.{int_cmp};
ghost use Rattle.std.specs.Bool.{MatchBool};
ghost use Rattle.ts_domain.specs.Dims.{IsSoundDim, tile_number};

use std::cmp::Ordering;
use ts_domain::Dim;

// Compares the numbers of the space tiles that have two coordinates of a dimension.
//
// It divides only where the coordinates lie closer together than a tile is wide.
pub(crate) fn cmp_tile(dim: &Dim, a: i128, b: i128) -> Ordering
    requires sound { IsSoundDim dim.now }
    requires a_above { dim.now.low ≤ℤ a }
    requires a_below { a ≤ℤ dim.now.high }
    requires b_above { dim.now.low ≤ℤ b }
    requires b_below { b ≤ℤ dim.now.high }
    ensures { result ≡ int_cmp (tile_number dim.now a) (tile_number dim.now b) }
{
    match a.cmp(&b) {
        Ordering::Less if !share_tile(dim, a, b) => Ordering::Less,
        Ordering::Greater if !share_tile(dim, b, a) => Ordering::Greater,
        _ => Ordering::Equal,
    }
}

// Whether two coordinates, the lesser one first, lie in one space tile.
fn share_tile(dim: &Dim, first: i128, second: i128) -> bool
    requires sound { IsSoundDim dim.now }
    requires above { dim.now.low ≤ℤ first }
    requires ascending { first ≤ℤ second }
    requires below { second ≤ℤ dim.now.high }
    ensures { MatchBool result (tile_number dim.now first ≡ tile_number dim.now second) (tile_number dim.now first <ℤ tile_number dim.now second) }
{
    let apart = second - first;
    apart < dim.extent && rest(first - dim.low, dim.extent) < dim.extent - apart
}

// The rest of a division. Small numbers are divided as such, since 128 bits take longer.
fn rest(number: i128, divisor: i128) -> i128
    requires number { pos 0 ≤ℤ number }
    requires divisor { pos 1 ≤ℤ divisor }
    ensures value { result ≡ int_rem number divisor }
    ensures positive { pos 0 ≤ℤ result }
    ensures below { result <ℤ divisor }
{
    if number <= u64::MAX as i128 && divisor <= u64::MAX as i128 {
        (number as u64 % divisor as u64) as i128
    } else {
        number % divisor
    }
}
