//! Tables in an order of their cells.
ghost use Rattle.std.specs.Prelude.{◌≡◌, ◌<◌, ◌↔◌, length, IsTrue, All, IfOk};
ghost use Rattle.std.specs.List.{AllAdjacentBelow};
ghost use Rattle.std.specs.declared.cmp.Ordering.TheVariants.{Less};
ghost use Rattle.ts_base.specs.declared.heads.Version.{Version as AnyVersion};
ghost use Rattle.ts_domain.specs.Domains.{is_in_domain};
ghost use Rattle.ts_table.specs.Merges.{Climbs, version_cmp, VersionsAscend};
ghost use Rattle.ts_table.specs.Orders.{cells_cmp, LiesInside};
ghost use Rattle.ts_table.specs.Ordered.{AreOrdered};
ghost use Rattle.ts_table.specs.Tables.{version_or};

use crate::cell::Cell;
use crate::order::CellOrder;
use crate::ranks::{cells_in, places_by_rank};
use crate::spots::places_by_spot;
use crate::table::Table;
use std::alloc::Global;
use std::cmp::Ordering;
use ts_base::{Coords, IndexList, OutOfMemory};
use ts_domain::Domain;

/// Whether all cells of a table lie in a domain.
pub fn is_inside(domain: &Domain, table: &Table) -> bool
    ensures { IsTrue result ↔ All (LiesInside domain.now) table.now }
{
    for place in 0..table.len() {
        if !lies_inside(domain, &table.coords(place)) {
            return false;
        }
    }
    true
}

// Whether coordinates, of any number, lie in a domain.
fn lies_inside(domain: &Domain, at: &Coords) -> bool
    ensures { result ≡ is_in_domain domain.now at.now }
{
    at.len() == domain.count() && domain.check(at).is_ok()
}

/// Whether the versions of a table ascend in an order, each cell once.
pub fn is_in_order(domain: &Domain, order: CellOrder, table: &Table) -> bool
    requires { All (LiesInside domain.now) table.now }
    ensures { IsTrue result ↔ Climbs (cells_cmp domain.now order) table.now }
{
    do_cells_ascend(domain, order, table)
}

// Whether each version comes before the next.
fn do_cells_ascend(domain: &Domain, order: CellOrder, table: &Table) -> bool
    requires { All (LiesInside domain.now) table.now }
    ensures { IsTrue result ↔ AllAdjacentBelow (λ (v w : AnyVersion). cells_cmp domain.now order v.coords w.coords ≡ Less) table.now (length table.now) }
{
    for place in 1..table.len() {
        if compare_at(domain, order, table, place - 1, place) != Ordering::Less {
            return false;
        }
    }
    true
}

/// Whether the versions of a table ascend in an order, those of one cell by ascending key.
pub fn are_versions_in_order(domain: &Domain, order: CellOrder, table: &Table) -> bool
    requires { All (LiesInside domain.now) table.now }
    ensures { IsTrue result ↔ VersionsAscend (cells_cmp domain.now order) table.now }
{
    do_versions_ascend(domain, order, table)
}

// Whether each version comes before the next, or stands at one cell with a lesser key.
fn do_versions_ascend(domain: &Domain, order: CellOrder, table: &Table) -> bool
    requires { All (LiesInside domain.now) table.now }
    ensures { IsTrue result ↔ AllAdjacentBelow (λ v w. version_cmp (cells_cmp domain.now order) v w ≡ Less) table.now (length table.now) }
{
    for place in 1..table.len() {
        if compare_versions(domain, order, table, place - 1, place) != Ordering::Less {
            return false;
        }
    }
    true
}

// How the versions at two places of a table stand: by their cells, and those of one cell by their
// keys.
fn compare_versions(domain: &Domain, order: CellOrder, table: &Table, a: u64, b: u64) -> Ordering
    requires inside { All (LiesInside domain.now) table.now }
    requires first { a < length table.now }
    requires second { b < length table.now }
    ensures { result ≡ version_cmp (cells_cmp domain.now order) (version_or table.now a) (version_or table.now b) }
{
    match compare_at(domain, order, table, a, b) {
        Ordering::Equal => table.key(a).cmp(&table.key(b)),
        apart => apart,
    }
}

/// The places of the versions of a table in an order, those of one cell as they stand.
///
/// It sorts the cells by their places in the domain, where the cells of the domain can be counted in
/// 64 bits. Else it compares their coordinates. No row is moved.
pub fn ordered_places(
    alloc: Global,
    domain: &Domain,
    order: CellOrder,
    table: &Table,
) -> Result<IndexList, OutOfMemory>
    requires few { length table.now < 4294967296 }
    requires inside { All (LiesInside domain.now) table.now }
    ensures { IfOk result (AreOrdered (cells_cmp domain.now order) table.now) }
{
    if cells_in(domain.as_slice()) < u64::MAX {
        return places_by_rank(alloc, domain, order, table);
    }
    places_by_spot(alloc, domain, order, table)
}

// How the cells at two places of a table stand.
#[tactic(auto, using(crate::proofs::Picks::founds))]
fn compare_at(domain: &Domain, order: CellOrder, table: &Table, a: u64, b: u64) -> Ordering
    requires inside { All (LiesInside domain.now) table.now }
    requires first { a < length table.now }
    requires second { b < length table.now }
    ensures { result ≡ cells_cmp domain.now order (version_or table.now a).coords (version_or table.now b).coords }
{
    let (first, second) = (Cell::of(table, a), Cell::of(table, b));
    first.compare(domain, order, &second)
}
