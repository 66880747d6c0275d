//! The versions of a write in global order, and which cell comes twice.
ghost use Rattle.std.specs.Prelude.{◌≡◌, ◌<◌, ◌↔◌, [], Some, true, false, length, IsTrue, IfOk, IfSome, IfNone, All};
ghost use Rattle.ts_domain.specs.Domains.{is_in_domain};
ghost use Rattle.ts_base.specs.declared.heads.Version.{Version as AnyVersion};
ghost use Rattle.ts_table.specs.Tables.{version_or};
ghost use Rattle.ts_model.specs.Commands.{again_in};
ghost use Rattle.ts_writer.specs.Tables.{AreApart, AreGlobal, HasNeighbours, HasTwins, cells_in};

use std::alloc::Global;
use std::cmp::Ordering;
use std::collections::BTreeSet;
use ts_base::{IndexList, OutOfMemory};
use ts_model::Refusal;
use ts_schema::Frame;
use ts_table::{CellOrder, Table, ordered_places};

/// The places of the versions of a table in global order, or None where two of them stand at one cell.
pub(crate) fn global_places(
    alloc: Global,
    frame: &Frame,
    table: &Table,
) -> Result<Option<IndexList>, OutOfMemory>
    requires few { length table.now < 4294967296 }
    requires inside { All (λ (v : AnyVersion). IsTrue (is_in_domain frame.now.domain v.coords)) table.now }
    ensures some { IfOk result (λ found. IfSome found (AreGlobal frame.now table.now)) }
    ensures none { IfOk result (λ found. IfNone found (HasTwins table.now)) }
{
    let order = CellOrder::Global {
        tile: frame.tile,
        cell: frame.cell,
    };
    let places = ordered_places(alloc, &frame.domain, order, table)?;
    if have_twins(table, places.as_slice()) {
        return Ok(None);
    }
    Ok(Some(places))
}

// Whether a version and the next one stand at one cell.
fn have_twins(table: &Table, places: &[u32]) -> bool
    requires { All (λ place. place < length table.now) places.now }
    ensures apart { result ≡ false → AreApart table.now places.now (length places.now) }
    ensures twins { result ≡ true → HasNeighbours table.now places.now }
{
    for next in 1..places.len() {
        let (place, other) = (places[next - 1] as u64, places[next] as u64);
        if share_cell(table, place, other) {
            return true;
        }
    }
    false
}

// Whether the versions at two places stand at one cell.
fn share_cell(table: &Table, place: u64, other: u64) -> bool
    requires first { place < length table.now }
    requires second { other < length table.now }
    ensures { IsTrue result ↔ ((version_or table.now place).coords ≡ (version_or table.now other).coords) }
{
    match table.compare(place, other) {
        Ordering::Equal => true,
        _ => false,
    }
}

/// The refusal of the first version that stands at the cell of an earlier one, where there are such.
pub(crate) fn again(alloc: Global, table: &Table) -> Result<Refusal, OutOfMemory>
    requires { HasTwins table.now }
    ensures { IfOk result (λ refusal. again_in [] 0 (cells_in table.now) ≡ Some refusal) }
{
    let mut seen = BTreeSet::new(alloc);
    for place in 0..table.len() {
        if !seen.insert(table.coords(place))? {
            return Ok(Refusal::DuplicateCell { index: place });
        }
    }
    unreachable!()
}
