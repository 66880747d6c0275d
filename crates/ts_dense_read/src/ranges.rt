//! The space tiles of a box that meet another.
ghost use Rattle.std.specs.Prelude.{◌≡◌, ◌<◌, pos, length, slice_index_or, IsTrue};
ghost use Rattle.std.specs.List.{All};
ghost use Rattle.ts_domain.specs.Boxes.{IsBox, do_boxes_meet};
ghost use Rattle.ts_domain.specs.Dims.{IsSoundDim};
ghost use Rattle.ts_domain.specs.Domains.{LiesInDomain};
ghost use Rattle.ts_order.specs.Tiles.{tile_box};
ghost use Rattle.ts_dense_read.specs.TileRanges.{nearest, range_of};

use ts_base::Coords;
use ts_domain::{Dim, SubBox};
use ts_order::tile_numbers;

/// The numbers of the space tiles of a box that meet another, as a box of its own.
pub(crate) fn range_of(dims: &[Dim], hull: &SubBox, sub: &SubBox) -> SubBox
    requires sound { All IsSoundDim dims.now }
    requires valid { IsBox hull.now }
    requires inside { LiesInDomain dims.now hull.now }
    requires other { IsBox sub.now }
    requires dims { length sub.now.low ≡ length hull.now.low }
    requires meet { IsTrue (do_boxes_meet hull.now sub.now) }
    ensures { result ≡ range_of dims.now hull.now sub.now }
{
    SubBox {
        low: tile_numbers(dims, &nearest(hull, &sub.low)),
        high: tile_numbers(dims, &nearest(hull, &sub.high)),
    }
}

/// The numbers of the space tiles of a box, as a box of its own.
pub(crate) fn numbers_of(dims: &[Dim], hull: &SubBox) -> SubBox
    requires sound { All IsSoundDim dims.now }
    requires inside { LiesInDomain dims.now hull.now }
    ensures { result ≡ tile_box dims.now hull.now }
{
    SubBox {
        low: tile_numbers(dims, &hull.low),
        high: tile_numbers(dims, &hull.high),
    }
}

// The coordinates of a box that are nearest to these.
fn nearest(hull: &SubBox, at: &Coords) -> Coords
    requires lows { length hull.now.low ≡ length at.now }
    requires highs { length hull.now.high ≡ length at.now }
    ensures { result ≡ nearest hull.now.low hull.now.high at.now }
{
    let count = at.len() as usize;
    let (low, high) = (hull.low.as_slice(), hull.high.as_slice());
    let mut numbers = [0; 8];
    for dim in 0..count {
        numbers[dim] = nearest_at(low, high, at.as_slice(), dim);
    }
    Coords::new(&numbers[..count])
}

fn nearest_at(low: &[i128], high: &[i128], at: &[i128], dim: usize) -> i128
    requires lows { length low.now ≡ length at.now }
    requires highs { length high.now ≡ length at.now }
    requires within { dim < length at.now }
    ensures { result ≡ slice_index_or (nearest low.now high.now at.now) dim (pos 0) }
{
    low[dim].max(high[dim].min(at[dim]))
}
