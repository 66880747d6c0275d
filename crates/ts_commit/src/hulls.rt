//! The common hull of fragments.
//!
//! Heads are read from objects that nobody vouches for. So nothing is asked of their corners: two heads
//! may differ in the number of dimensions, and a low corner may be above the high one.
ghost use Rattle.std.specs.Prelude.{◌≡◌, ◌++◌, ◌∷◌, [], ◌-◌, ◌^◌, List, min};
ghost use Rattle.ts_base.specs.declared.heads.Head.{Head as AnyHead};
ghost use Rattle.ts_domain.specs.Bounds.{least_corner, greatest_corner, cells_between, count_between};
ghost use Rattle.ts_commit.specs.Passes.{hull_of_all};

use ts_base::{Coords, Head};

/// The least box that has the boxes of fragments.
#[derive(Clone, Copy)]
pub(crate) struct Hull {
    /// Whether the first of the fragments is dense.
    pub(crate) dense: bool,
    /// The least coordinate, along each dimension.
    low: Coords,
    /// The greatest coordinate, along each dimension.
    high: Coords,
}

impl Hull {
    /// The number of cells, or 2^64 - 1 where there are more.
    pub(crate) fn cells(&self) -> u64
        ensures { result ≡ min (cells_between self.now.low self.now.high) (2 ^ 64 - 1) }
    {
        cells_between(&self.low, &self.high)
    }
}

/// The hull of fragments, with one fragment more.
pub(crate) fn widened(hull: &Option<Hull>, head: &Head) -> Hull
    ensures { (heads : List AnyHead) → hull.now ≡ hull_of_all heads → Some result ≡ hull_of_all (heads ++ head.now ∷ []) }
{
    match hull {
        None => Hull {
            dense: head.dense,
            low: head.low,
            high: head.high,
        },
        Some(hull) => Hull {
            dense: hull.dense,
            low: least_corner(&hull.low, &head.low),
            high: greatest_corner(&hull.high, &head.high),
        },
    }
}

// The lesser of two coordinates along each dimension that both have.
fn least_corner(a: &Coords, b: &Coords) -> Coords
    ensures { result ≡ least_corner a.now b.now }
{
    let count = a.len().min(b.len()) as usize;
    let (a, b) = (a.as_slice(), b.as_slice());
    let mut numbers = [0; 8];
    for dim in 0..count {
        numbers[dim] = a[dim].min(b[dim]);
    }
    Coords::new(&numbers[..count])
}

// The greater of two coordinates along each dimension that both have.
fn greatest_corner(a: &Coords, b: &Coords) -> Coords
    ensures { result ≡ greatest_corner a.now b.now }
{
    let count = a.len().min(b.len()) as usize;
    let (a, b) = (a.as_slice(), b.as_slice());
    let mut numbers = [0; 8];
    for dim in 0..count {
        numbers[dim] = a[dim].max(b[dim]);
    }
    Coords::new(&numbers[..count])
}

// The number of cells between two corners, or 2^64 - 1 where there are more.
fn cells_between(low: &Coords, high: &Coords) -> u64
    ensures { result ≡ min (cells_between low.now high.now) (2 ^ 64 - 1) }
{
    let count = low.len().min(high.len()) as usize;
    let (low, high) = (low.as_slice(), high.as_slice());
    let mut cells: u64 = 1;
    for dim in 0..count {
        cells = cells.saturating_mul(side(low[dim], high[dim]));
    }
    cells
}

// How many numbers lie from `low` to `high`, or 2^64 - 1 where there are more.
fn side(low: i128, high: i128) -> u64
    ensures { result ≡ min (count_between low high) (2 ^ 64 - 1) }
{
    if high < low {
        return 0;
    }
    let distance = high.abs_diff(low);
    if distance < u64::MAX as u128 {
        distance as u64 + 1
    } else {
        u64::MAX
    }
}
