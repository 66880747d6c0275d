//! The versions that a write makes, field by field, and what can be wrong with their cells.
ghost use Rattle.std.specs.Prelude.{◌≡◌, ◌≤◌, ℤ, List, length, map, option_map, IfOk, All};
ghost use Rattle.ts_base.specs.declared.values.Val.{Val as AnyVal};
ghost use Rattle.ts_base.specs.declared.heads.Version.{Version as AnyVersion};
ghost use Rattle.ts_domain.specs.Domains.{first_outside};
ghost use Rattle.ts_model.specs.declared.answers.Refusal.TheVariants as refusal;
ghost use Rattle.ts_model.specs.Commands.{cells_from, outside_in, version_in};
ghost use Rattle.ts_writer.specs.Tables.{cells_in};

use crate::columns::{ColumnList, NumberLists};
use std::alloc::Global;
use ts_base::{Coords, OutOfMemory};
use ts_domain::Domain;
use ts_model::Refusal;
use ts_table::{Origin, Table};

/// The versions of the cells of columns, which are all of one origin.
#[tactic(auto, using(crate::proofs::LaidTables::laid))]
pub(crate) fn table_of(
    alloc: Global,
    origin: Origin,
    coords: NumberLists,
    rows: ColumnList,
    count: u64,
) -> Result<Table, OutOfMemory>
    requires some { 1 ≤ length coords }
    requires room { length coords ≤ 8 }
    requires coords_long { All (λ (numbers : List ℤ). length numbers ≡ count) coords }
    requires rows_long { All (λ (vals : List AnyVal). length vals ≡ count) rows }
    ensures { IfOk result (λ table. table ≡ map (version_in origin.key origin.schema) (cells_from coords rows 0 count)) }
{
    let cells = vec![in alloc; 0u32; count as usize]?;
    let origins = vec![in alloc; origin]?;
    Ok(Table::of(origins, coords.into_vec(), rows.into_vec(), cells))
}

/// The first coordinate outside the domain, cell by cell.
#[tactic(auto, using(crate::proofs::LaidTables::outsides))]
pub(crate) fn outside_in(domain: &Domain, table: &Table) -> Option<Refusal>
    requires { All (λ (v : AnyVersion). length v.coords ≡ length domain.now) table.now }
    ensures { result ≡ outside_in domain.now (cells_in table.now) }
{
    for place in 0..table.len() {
        if let Some(refusal) = outside_at(domain, &table.coords(place)) {
            return Some(refusal);
        }
    }
    None
}

// The first coordinate of a cell outside the domain.
fn outside_at(domain: &Domain, at: &Coords) -> Option<Refusal>
    requires { length at.now ≡ length domain.now }
    ensures { result ≡ option_map (λ o. refusal.Domain o.dim o.value) (first_outside domain.now at.now) }
{
    match domain.check(at) {
        Ok(()) => None,
        Err(outside) => Some(Refusal::Domain {
            dim: outside.dim,
            value: outside.value,
        }),
    }
}
