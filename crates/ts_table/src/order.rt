//! Orders of cells.
ghost use Rattle.std.specs.Prelude.{◌≡◌, ◌<◌, ◌≤◌, ℤ, List, length, All};
ghost use Rattle.std.specs.Cmp.Lexicographic.{slice_cmp};
ghost use Rattle.std.specs.Ordering.{int_cmp};
ghost use Rattle.ts_table.specs.Tables.{across};

use crate::numbers::Numbers;
use std::cmp::Ordering;
use ts_domain::Order;

/// An order of the cells of a domain.
#[derive(Clone, Copy, Debug, PartialEq, Eq)]
pub enum CellOrder {
    /// Row order or column order.
    Plain(Order),
    /// Global order: by the space tiles in the tile order, and within a tile by the cells in the
    /// cell order.
    Global { tile: Order, cell: Order },
}

// How the cells at two places stand in row order. The calls nest once for each dimension.
#[tactic(auto, using(crate::proofs::Tables::compares))]
pub(crate) fn compare_at(dims: &[Numbers], a: u64, b: u64) -> Ordering
    requires few { length dims.now ≤ 8 }
    requires first { All (λ (column : List ℤ). a < length column) dims.now }
    requires second { All (λ (column : List ℤ). b < length column) dims.now }
    ensures { result ≡ slice_cmp int_cmp (across a dims.now) (across b dims.now) }
{
    match dims {
        [] => Ordering::Equal,
        [column, others @ ..] => match column.at(a).cmp(&column.at(b)) {
            Ordering::Equal => compare_at(others, a, b),
            other => other,
        },
    }
}

// How a cell and one of other columns stand in row order. The calls nest once for each dimension.
#[tactic(auto, using(crate::proofs::Tables::compares))]
pub(crate) fn compare_between(dims: &[Numbers], a: u64, others: &[Numbers], b: u64) -> Ordering
    requires few { length dims.now ≤ 8 }
    requires first { All (λ (column : List ℤ). a < length column) dims.now }
    requires second { All (λ (column : List ℤ). b < length column) others.now }
    ensures { result ≡ slice_cmp int_cmp (across a dims.now) (across b others.now) }
{
    match dims {
        [] => match others {
            [] => Ordering::Equal,
            [other, ..] => {
                let _there = other.at(b);
                Ordering::Less
            }
        },
        [column, rest @ ..] => match others {
            [] => {
                let _there = column.at(a);
                Ordering::Greater
            }
            [other, more @ ..] => match column.at(a).cmp(&other.at(b)) {
                Ordering::Equal => compare_between(rest, a, more, b),
                order => order,
            },
        },
    }
}
