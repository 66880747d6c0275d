//! Tables of some rows of columns.
ghost use Rattle.std.specs.Prelude.{◌≡◌, ◌<◌, pos, ℤ, [], List, length, map, get_or, IfOk};
ghost use Rattle.std.specs.List.{All};
ghost use Rattle.ts_gather.specs.Rows.{AreColumns, AreRows, at_rows, version_there};

use crate::chosen::chosen_columns;
use crate::runs::runs_of;
use std::alloc::Global;
use ts_base::{IndexList, Key, OutOfMemory};
use ts_table::{Column, Numbers, Table};

/// The versions in these rows of columns: coordinates, one column for each dimension; which write laid
/// each, by its place among the keys; and values. Of the values they have those of the columns at the
/// places `attrs`, null where there is none.
///
/// Where all rows are wanted, columns are moved, and else gathered.
pub fn table_of(
    alloc: Global,
    keys: &[Key],
    schema: Key,
    attrs: &[u32],
    count: u64,
    coords: Vec<Numbers>,
    origins: &IndexList,
    vals: Vec<Column>,
    rows: &[u32],
) -> Result<Table, OutOfMemory>
    requires columns { AreColumns count coords.items origins.now vals.items }
    requires rows { AreRows count rows.now }
    ensures { IfOk result (λ table. table ≡ map (version_there keys.now schema attrs.now coords.items origins.now vals.items) rows.now) }
{
    let dims = coords_at(alloc, coords, count, rows)?;
    let columns = chosen_columns(alloc, attrs, vals, count, rows)?;
    let runs = runs_of(alloc, keys, schema, origins.as_slice(), rows)?;
    Ok(Table::of(runs.origins, dims, columns, runs.cells))
}

// The coordinates at these rows.
#[tactic(auto, using(crate::proofs::RowLaws::coords_whole))]
fn coords_at(
    alloc: Global,
    coords: Vec<Numbers>,
    count: u64,
    rows: &[u32],
) -> Result<Vec<Numbers>, OutOfMemory>
    requires long { All (λ (column : List ℤ). length column ≡ count) coords.items }
    requires rows { AreRows count rows.now }
    ensures { IfOk result (λ dims. dims.items ≡ map (at_rows (pos 0) rows.now) coords.items) }
{
    if rows.len() as u64 == count {
        Ok(coords)
    } else {
        gathered_coords(alloc, coords.as_slice(), count, rows)
    }
}

// The coordinates at these rows, gathered.
fn gathered_coords(
    alloc: Global,
    coords: &[Numbers],
    count: u64,
    rows: &[u32],
) -> Result<Vec<Numbers>, OutOfMemory>
    requires long { All (λ (column : List ℤ). length column ≡ count) coords.now }
    requires rows { AreRows count rows.now }
    ensures { IfOk result (λ dims. dims.items ≡ map (at_rows (pos 0) rows.now) coords.now) }
{
    let mut dims = Vec::new(alloc);
    for dim in 0..coords.len() {
        dims.push(gathered_along(alloc, coords, dim, count, rows)?)?;
    }
    Ok(dims)
}

// The coordinates along a dimension at these rows.
fn gathered_along(
    alloc: Global,
    coords: &[Numbers],
    dim: usize,
    count: u64,
    rows: &[u32],
) -> Result<Numbers, OutOfMemory>
    requires long { All (λ (column : List ℤ). length column ≡ count) coords.now }
    requires rows { AreRows count rows.now }
    requires within { dim < length coords.now }
    ensures { IfOk result (λ column. column ≡ at_rows (pos 0) rows.now (get_or coords.now dim [])) }
{
    coords[dim].gathered(alloc, rows)
}
