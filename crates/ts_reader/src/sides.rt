//! The coordinates of what a read shows, one column for each dimension.
ghost use Rattle.std.specs.Prelude.{◌≡◌, ◌≤◌, ◌<◌, ◌∷◌, [], ◌++◌, pos, All, length, map, slice_index_or, IfOk, OnOk};
ghost use Rattle.std.specs.List.{range_with_len};
ghost use Rattle.ts_base.specs.declared.heads.Version.{Version as AnyVersion};
ghost use Rattle.ts_table.specs.Tables.{column_of};
ghost use Rattle.ts_reader.specs.Shown.{HaveCoords};

use std::alloc::Global;
use ts_base::OutOfMemory;
use ts_batch::BatchCell;
use ts_table::Numbers;

/// The coordinates of versions, each of which has so many.
pub(crate) fn coords_of(
    alloc: Global,
    count: u8,
    versions: &[BatchCell],
) -> Result<Vec<Numbers>, OutOfMemory>
    requires some { 1 ≤ count }
    requires few { count ≤ 8 }
    requires wide { All (λ (v : AnyVersion). length v.coords ≡ count) versions.now }
    ensures { IfOk result (λ dims. HaveCoords (map (λ (v : AnyVersion). v.coords) versions.now) dims.items) }
{
    columns_of(alloc, count, versions)
}

// The coordinates of versions along the first dimensions.
fn columns_of(alloc: Global, count: u8, versions: &[BatchCell]) -> Result<Vec<Numbers>, OutOfMemory>
    ensures { IfOk result (λ dims. dims.items ≡ map (column_of versions.now) (range_with_len 0 count)) }
{
    let mut dims = Vec::new(alloc);
    for dim in 0..count {
        dims.push(column_along(alloc, versions, dim)?)?;
    }
    Ok(dims)
}

// The coordinates of versions along a dimension, 0 where a version has none.
fn column_along(alloc: Global, versions: &[BatchCell], dim: u8) -> Result<Numbers, OutOfMemory>
    ensures { IfOk result (λ column. column ≡ column_of versions.now dim) }
{
    let room = Vec::with_capacity(alloc, versions.len())?;
    let mut column = Numbers::from_short(room);
    for version in versions {
        push_coord(&mut column, version, dim)?;
    }
    Ok(column)
}

// The coordinate of one version more.
fn push_coord(column: &mut Numbers, version: &BatchCell, dim: u8) -> Result<(), OutOfMemory>
    ensures { OnOk result (column.new ≡ column.old ++ slice_index_or version.now.coords dim (pos 0) ∷ []) }
{
    match version.coord(dim) {
        Some(number) => column.push(number),
        None => column.push(0),
    }
}
