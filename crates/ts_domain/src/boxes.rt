//! Boxes of cells: the cells between two corners.
ghost use Rattle.std.specs.Prelude.{◌≡◌, ◌≤◌, ◌-◌, ◌^◌, ◌↔◌, ◌≤ℤ◌, min, length, IsTrue};
ghost use Rattle.ts_domain.specs.Bounds.{is_between, count_between, least_corner, greatest_corner, do_meet};
ghost use Rattle.ts_domain.specs.Boxes.{IsBox, is_in_box, cells_of, coords_of_box, do_boxes_meet, ShareCell, hull_of, IsHullOf};

use ts_base::{Coords, Sequence};

/// A box of cells: those whose coordinates lie between two corners, which count as inside.
#[derive(Clone, Copy, Debug, PartialEq, Eq)]
pub struct SubBox {
    /// The least coordinate along each dimension.
    pub low: Coords,
    /// The greatest coordinate along each dimension.
    pub high: Coords,
}

/// A list of boxes.
pub type BoxList = Sequence<SubBox>;

impl SubBox {
    /// The number of cells, or 2^64 - 1 where there are more.
    #[tactic(auto, using(crate::proofs::BoundsLemmas::bounds_lemmas))]
    pub fn cells(&self) -> u64
        requires { IsBox self.now }
        ensures capped { result ≡ min (cells_of self.now) (2 ^ 64 - 1) }
        ensures counted { cells_of self.now ≡ length (coords_of_box self.now) }
    {
        let (low, high) = (self.low.as_slice(), self.high.as_slice());
        let mut cells: u64 = 1;
        for dim in 0..low.len() {
            cells = cells.saturating_mul(side(low[dim], high[dim]));
        }
        cells
    }

    /// Whether coordinates lie in the box. A corner counts as inside.
    pub fn contains(&self, at: &Coords) -> bool
        ensures { result ≡ is_in_box self.now at.now }
    {
        is_between(self.low.as_slice(), self.high.as_slice(), at.as_slice())
    }

    /// Whether some cell lies in both boxes. An edge that both have counts.
    #[tactic(auto, using(crate::proofs::BoundsLemmas::bounds_lemmas))]
    pub fn meets(&self, other: &SubBox) -> bool
        requires this { IsBox self.now }
        requires that { IsBox other.now }
        requires dims { length other.now.low ≡ length self.now.low }
        ensures tested { result ≡ do_boxes_meet self.now other.now }
        ensures shared { IsTrue result ↔ ShareCell self.now other.now }
    {
        do_meet(
            self.low.as_slice(),
            self.high.as_slice(),
            other.low.as_slice(),
            other.high.as_slice(),
        )
    }

    /// The least box that has all cells of both boxes.
    pub fn hull(&self, other: &SubBox) -> SubBox
        requires this { IsBox self.now }
        requires that { IsBox other.now }
        requires dims { length other.now.low ≡ length self.now.low }
        ensures corners { result ≡ hull_of self.now other.now }
        ensures valid { IsBox result }
        ensures least { IsHullOf result self.now other.now }
    {
        SubBox {
            low: least_corner(&self.low, &other.low),
            high: greatest_corner(&self.high, &other.high),
        }
    }
}

// How many numbers lie from `low` to `high`, or 2^64 - 1 where there are more.
fn side(low: i128, high: i128) -> u64
    requires { low ≤ℤ high }
    ensures { result ≡ min (count_between low high) (2 ^ 64 - 1) }
{
    let distance = high.abs_diff(low);
    if distance < u64::MAX as u128 {
        distance as u64 + 1
    } else {
        u64::MAX
    }
}

// Whether each coordinate lies between its bounds, and there are as many of all three.
#[tactic(auto, using(crate::proofs::Between::uneven_bounds))]
fn is_between(low: &[i128], high: &[i128], coords: &[i128]) -> bool
    ensures { result ≡ is_between low.now high.now coords.now }
{
    if high.len() != low.len() || coords.len() != low.len() {
        return false;
    }
    for dim in 0..low.len() {
        if coords[dim] < low[dim] || high[dim] < coords[dim] {
            return false;
        }
    }
    true
}

fn do_meet(low: &[i128], high: &[i128], other_low: &[i128], other_high: &[i128]) -> bool
    requires highs { length high.now ≡ length low.now }
    requires other_lows { length other_low.now ≡ length low.now }
    requires other_highs { length other_high.now ≡ length low.now }
    ensures { result ≡ do_meet low.now high.now other_low.now other_high.now }
{
    for dim in 0..low.len() {
        if low[dim] > other_high[dim] || other_low[dim] > high[dim] {
            return false;
        }
    }
    true
}

fn least_corner(a: &Coords, b: &Coords) -> Coords
    requires { length b.now ≡ length a.now }
    ensures { result ≡ least_corner a.now b.now }
{
    let count = a.len() as usize;
    let (a, b) = (a.as_slice(), b.as_slice());
    let mut numbers = [0; 8];
    for dim in 0..count {
        numbers[dim] = a[dim].min(b[dim]);
    }
    Coords::new(&numbers[..count])
}

fn greatest_corner(a: &Coords, b: &Coords) -> Coords
    requires { length b.now ≡ length a.now }
    ensures { result ≡ greatest_corner a.now b.now }
{
    let count = a.len() as usize;
    let (a, b) = (a.as_slice(), b.as_slice());
    let mut numbers = [0; 8];
    for dim in 0..count {
        numbers[dim] = a[dim].max(b[dim]);
    }
    Coords::new(&numbers[..count])
}
