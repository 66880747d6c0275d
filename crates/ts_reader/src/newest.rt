//! The newest version of each cell, in row order.
ghost use Rattle.std.specs.Prelude.{◌≡◌, ◌∷◌, [], ◌++◌, List, IfOk, OnOk};
ghost use Rattle.std.specs.Cmp.Lexicographic.{slice_cmp};
ghost use Rattle.std.specs.FinMap as finite;
ghost use Rattle.std.specs.List.Sorted.{IsSortedBy};
ghost use Rattle.std.specs.Ordering.{int_cmp, is_lt};
ghost use Rattle.ts_base.specs.declared.heads.Version.{Version as AnyVersion};
ghost use Rattle.ts_model.specs.Pieces.{newest_of};
ghost use Rattle.ts_table.specs.Merges.{newer};
ghost use Rattle.ts_reader.specs.Newest.{AreNewest, ComesBehind, newest_of_two};

use crate::row_order::{ascend, compare};
use std::alloc::Global;
use std::cmp::Ordering;
use ts_base::OutOfMemory;
use ts_batch::{BatchCell, BatchCellList};

/// The newest of these versions of each cell, in row order.
///
/// Those that ascend as they stand are taken so. Others are sorted, and taken so where no cell has two.
/// Else each is compared with the next: no tree is made of them, and no version is copied.
pub(crate) fn newest_in_order<'a>(
    alloc: Global,
    got: BatchCellList<'a>,
) -> Result<BatchCellList<'a>, OutOfMemory>
    ensures { IfOk result (λ newest. newest ≡ finite.values (newest_of got.entry)) }
{
    if ascend(got.as_slice()) {
        return Ok(got);
    }
    newest_of_sorted(alloc, sorted(got)?)
}

// Of versions in row order the newest one of each cell: all of them, where no cell has two.
fn newest_of_sorted<'a>(
    alloc: Global,
    versions: BatchCellList<'a>,
) -> Result<BatchCellList<'a>, OutOfMemory>
    requires { IsSortedBy (λ (a b : AnyVersion). is_lt (slice_cmp int_cmp a.coords b.coords)) versions }
    ensures { IfOk result (λ newest. newest ≡ finite.values (newest_of versions.entry)) }
{
    if ascend(versions.as_slice()) {
        return Ok(versions);
    }
    newest_alone(alloc, versions.as_slice())
}

// The versions in row order, those of one cell in their own order.
fn sorted(versions: BatchCellList<'_>) -> Result<BatchCellList<'_>, OutOfMemory>
    ensures same { IfOk result (λ sorted. newest_of sorted ≡ newest_of versions.entry) }
    ensures order { IfOk result (IsSortedBy (λ (a b : AnyVersion). is_lt (slice_cmp int_cmp a.coords b.coords))) }
{
    let mut versions = versions.into_vec();
    versions.sort_by(|version, other| compare(version, other))?;
    Ok(BatchCellList::from_vec(versions))
}

// Of versions in row order the newest one of each cell.
fn newest_alone<'a>(
    alloc: Global,
    versions: &[BatchCell<'a>],
) -> Result<BatchCellList<'a>, OutOfMemory>
    requires { IsSortedBy (λ (a b : AnyVersion). is_lt (slice_cmp int_cmp a.coords b.coords)) versions.now }
    ensures { IfOk result (λ newest. newest ≡ finite.values (newest_of versions.now)) }
{
    let mut newest = BatchCellList::new(alloc);
    for version in versions {
        add(&mut newest, version)?;
    }
    Ok(newest)
}

// One version more, which does not come before the others.
fn add<'a>(newest: &mut BatchCellList<'a>, version: &BatchCell<'a>) -> Result<(), OutOfMemory>
    ensures { OnOk result ((versions : List AnyVersion) → AreNewest versions newest.old → ComesBehind versions version.now → AreNewest (versions ++ version.now ∷ []) newest.new) }
{
    match newest.pop() {
        None => newest.push(version.again()),
        Some(last) => add_behind(newest, &last, version),
    }
}

// Two versions more: of one cell the newer one, the first where their keys tie.
fn add_behind<'a>(
    newest: &mut BatchCellList<'a>,
    last: &BatchCell<'a>,
    version: &BatchCell<'a>,
) -> Result<(), OutOfMemory>
    ensures { OnOk result (newest.new ≡ newest.old ++ newest_of_two last.now version.now) }
{
    match compare(last, version) {
        Ordering::Equal => newest.push(newer(last, version)),
        _ => {
            newest.push(last.again())?;
            newest.push(version.again())
        }
    }
}

// Of two versions the one with the greater key, the first where they tie.
fn newer<'a>(last: &BatchCell<'a>, version: &BatchCell<'a>) -> BatchCell<'a>
    ensures { result ≡ newer last.now version.now }
{
    if last.key() < version.key() {
        version.again()
    } else {
        last.again()
    }
}
