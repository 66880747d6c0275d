//! Which slots of a space tile have a cell that is wanted.
ghost use Rattle.std.specs.Prelude.{◌≡◌, ◌<◌, ◌&&◌, [], ◌∷◌, ◌++◌, cond, length, get_or, All, IfOk, OnOk, IsTrue};
ghost use Rattle.ts_domain.specs.Boxes.{IsBox, is_in_box, cells_of, Covers};
ghost use Rattle.ts_order.specs.Orders.{coords_in_order};
ghost use Rattle.ts_gather.specs.Sides.{AreCoords};
ghost use Rattle.ts_dense_read.specs.SpaceTakes.{IsCounted, is_origin_wanted, is_slot_wanted, rows_wanted};

use crate::opened::Opened;
use crate::slots::NO_ORIGIN;
use std::alloc::Global;
use ts_base::{IndexList, OutOfMemory};
use ts_domain::SubBox;
use ts_gather::does_cover;
use ts_sparse_read::{is_cell_in, origin_key};
use ts_table::Numbers;

/// The places of the slots of a space tile that have a cell which is wanted, ascending. The slots have
/// these origins, and these coordinates, one column for each dimension.
///
/// `OutOfMemory` comes too where there are 2^32 slots or more.
pub(crate) fn wanted_rows(
    alloc: Global,
    opened: &Opened,
    leaf: &SubBox,
    origins: &IndexList,
    coords: &[Numbers],
) -> Result<IndexList, OutOfMemory>
    requires counted { IsCounted leaf.now (length origins.now) }
    requires coords { AreCoords opened.now.frame.cell leaf.now coords.now }
    ensures { IfOk result (λ rows. rows ≡ rows_wanted opened.now leaf.now origins.now) }
{
    match u32::try_from(origins.len()) {
        Ok(count) => rows_below(alloc, opened, leaf, origins, coords, count),
        Err(_many) => Err(OutOfMemory),
    }
}

// The places of the slots, of so many, that have a cell which is wanted.
fn rows_below(
    alloc: Global,
    opened: &Opened,
    leaf: &SubBox,
    origins: &IndexList,
    coords: &[Numbers],
    count: u32,
) -> Result<IndexList, OutOfMemory>
    requires many { count ≡ length origins.now }
    requires counted { IsCounted leaf.now (length origins.now) }
    requires coords { AreCoords opened.now.frame.cell leaf.now coords.now }
    ensures { IfOk result (λ rows. rows ≡ rows_wanted opened.now leaf.now origins.now) }
{
    let covered = does_cover(&opened.want.sub, leaf);
    let mut rows = IndexList::new(alloc);
    for row in 0..count {
        push_row(opened, leaf, origins, coords, covered, row, &mut rows)?;
    }
    Ok(rows)
}

// Appends the place of a slot, if it has a cell which is wanted.
fn push_row(
    opened: &Opened,
    leaf: &SubBox,
    origins: &IndexList,
    coords: &[Numbers],
    covered: bool,
    row: u32,
    rows: &mut IndexList,
) -> Result<(), OutOfMemory>
    requires counted { IsCounted leaf.now (length origins.now) }
    requires coords { AreCoords opened.now.frame.cell leaf.now coords.now }
    requires covered { IsTrue covered → Covers opened.now.want.sub leaf.now }
    requires within { row < length origins.now }
    ensures { OnOk result (rows.new ≡ rows.old ++ cond (is_slot_wanted opened.now leaf.now origins.now row) (row ∷ []) []) }
{
    if !is_slot_wanted(opened, leaf, origins, coords, covered, u64::from(row)) {
        return Ok(());
    }
    rows.push(row)
}

// Whether the slot at a place has a cell that is wanted. All cells of the tile may lie in the box.
#[tactic(auto, using(std::proofs::lemmas::Option::get_or_from_slice_get))]
fn is_slot_wanted(
    opened: &Opened,
    leaf: &SubBox,
    origins: &IndexList,
    coords: &[Numbers],
    covered: bool,
    place: u64,
) -> bool
    requires counted { IsCounted leaf.now (length origins.now) }
    requires coords { AreCoords opened.now.frame.cell leaf.now coords.now }
    requires covered { IsTrue covered → Covers opened.now.want.sub leaf.now }
    requires within { place < length origins.now }
    ensures { result ≡ is_slot_wanted opened.now leaf.now origins.now place }
{
    is_origin_wanted(opened, *origins.at(place)) && is_inside(opened, leaf, coords, covered, place)
}

/// Whether a slot with this origin has a cell of a write that is stamped in the interval.
pub(crate) fn is_origin_wanted(opened: &Opened, origin: u32) -> bool
    ensures { result ≡ is_origin_wanted opened.now origin }
{
    let want = &opened.want;
    origin != NO_ORIGIN && origin_key(&opened.head.origins, origin).is_within(want.a, want.b)
}

// Whether the slot at a place lies in the box that is wanted.
#[tactic(auto, using(crate::proofs::InsideLaws::insides))]
fn is_inside(opened: &Opened, leaf: &SubBox, coords: &[Numbers], covered: bool, place: u64) -> bool
    requires valid { IsBox leaf.now }
    requires coords { AreCoords opened.now.frame.cell leaf.now coords.now }
    requires covered { IsTrue covered → Covers opened.now.want.sub leaf.now }
    requires within { place < cells_of leaf.now }
    ensures { result ≡ is_in_box opened.now.want.sub (get_or (coords_in_order opened.now.frame.cell leaf.now) place []) }
{
    covered || is_cell_in(&opened.want.sub, coords, place)
}
