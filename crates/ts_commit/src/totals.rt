//! What fragments come to that are merged together, and the bounds on it.
ghost use Rattle.std.specs.Prelude.{◌≡◌, ◌++◌, ◌∷◌, [], ◌<◌, ◌-◌, ◌^◌, List, min};
ghost use Rattle.ts_base.specs.declared.heads.Head.{Head as AnyHead};
ghost use Rattle.ts_commit.specs.Plans.{cells_of_all, is_in_bounds};
ghost use Rattle.ts_commit.specs.Passes.{total_of};

use crate::hulls::{Hull, widened};
use crate::vacs::Limits;
use ts_base::Head;

// The greatest weight of fragments that are merged together.
const GREATEST_WEIGHT: u128 = 1 << 24;

// So many origins are too many: 32 bits tell which one a cell has, and the last number tells none.
const TOO_MANY_ORIGINS: u64 = 1 << 32;

/// What fragments come to.
#[derive(Clone, Copy)]
pub(crate) struct Total {
    /// The number of fragments.
    count: u64,
    /// The number of their origins, added up.
    origins: u64,
    /// The number of their cells, added up, or 2^64 - 1 where there are more.
    cells: u64,
    /// The common hull, where there are any.
    hull: Option<Hull>,
}

impl Total {
    /// What no fragments come to.
    pub(crate) fn new() -> Total
        ensures { result ≡ total_of [] }
    {
        Total {
            count: 0,
            origins: 0,
            cells: 0,
            hull: None,
        }
    }

    /// What they come to with one fragment more.
    pub(crate) fn with(&self, head: &Head) -> Total
        requires few { self.now.count < 2 ^ 32 }
        requires origins { self.now.origins < 2 ^ 32 }
        ensures { (heads : List AnyHead) → self.now ≡ total_of heads → result ≡ total_of (heads ++ head.now ∷ []) }
    {
        Total {
            count: self.count + 1,
            origins: self.origins + head.origins.as_slice().len() as u64,
            cells: self.cells.saturating_add(head.cells),
            hull: Some(widened(&self.hull, head)),
        }
    }

    /// Whether the fragments, of a schema with so many attributes, keep the bounds.
    pub(crate) fn is_in_bounds(&self, attributes: u64, limits: Limits) -> bool
        ensures { (heads : List AnyHead) → self.now ≡ total_of heads → result ≡ is_in_bounds attributes limits heads }
    {
        let weight = self.all_cells() as u128 * (attributes as u128 + 1);
        self.count <= limits.max as u64
            && weight <= GREATEST_WEIGHT
            && self.origins < TOO_MANY_ORIGINS
    }

    // The cells of all fragments where these are sparse, or of the common hull of dense ones, or 2^64 - 1
    // where there are more.
    fn all_cells(&self) -> u64
        ensures { (heads : List AnyHead) → self.now ≡ total_of heads → result ≡ min (cells_of_all heads) (2 ^ 64 - 1) }
    {
        match &self.hull {
            Some(hull) if hull.dense => hull.cells(),
            _ => self.cells,
        }
    }
}
