//! The places of the cells that a query selects.
ghost use Rattle.std.specs.Prelude.{◌≡◌, ◌<◌, ◌^◌, false, get_or, filter, length, map, IfOk, OnOk, IsTrue, All};
ghost use Rattle.std.specs.List.{range_with_len};
ghost use Rattle.std.specs.List.Sorted.{IsStrictlySortedBy};
ghost use Rattle.ts_base.specs.declared.heads.Version.{Version as AnyVersion};
ghost use Rattle.ts_domain.specs.Domains.{is_in_domain};
ghost use Rattle.ts_schema.specs.SchemaTexts.{AreAttrs};
ghost use Rattle.ts_model.specs.Queries.{in_layout, layout_cmp, passes};
ghost use Rattle.ts_model.specs.Selections.{picks_in, passes_by};
ghost use Rattle.ts_select.specs.Cells.{cell_at};
ghost use Rattle.ts_select.specs.Places.{passes_at, placed_behind, with_place};

use crate::sorted::sorted_places;
use std::alloc::Global;
use std::collections::BTreeMap;
use ts_base::{IndexList, OutOfMemory};
use ts_batch::{Batch, BatchCell};
use ts_cond::{Cond, PickList};
use ts_match::{matches_all, matches_cell};
use ts_model::{GlobalPlace, Ready, attr_fields, place_in};
use ts_schema::{Frame, Schema};

/// The places of the cells that a query's filter matches, in its layout.
///
/// Cells that ascend in the layout stay as they stand, which `stands` tells, and others are sorted.
/// Only where two of them have one place in the layout, those that match are put in a tree, which keeps
/// the first.
pub(crate) fn places_of(
    alloc: Global,
    frame: &Frame,
    schema: &Schema,
    ready: &Ready,
    stands: bool,
    cells: &Batch,
) -> Result<IndexList, OutOfMemory>
    requires few { length cells.now < 2 ^ 32 }
    requires attrs { AreAttrs schema.now.attrs }
    requires stands { IsTrue stands → IsStrictlySortedBy (λ (a b : AnyVersion). layout_cmp frame.now ready.now.layout a.coords b.coords) cells.now }
    requires inside { All (λ (v : AnyVersion). IsTrue (is_in_domain frame.now.domain v.coords)) cells.now }
    ensures within { IfOk result (All (λ place. place < length cells.now)) }
    ensures cells { IfOk result (λ places. map (cell_at cells.now) places ≡ in_layout frame.now ready.now.layout (filter (λ e. passes ready.now.filter schema.now.attrs e.0 e.1) (map (λ (v : AnyVersion). (v.coords, v.row)) cells.now))) }
{
    let picks = picks_in(alloc, schema, &ready.filter)?;
    let passing = passing(alloc, ready, &picks, cells)?;
    if stands {
        return Ok(passing);
    }
    if let Some(places) = sorted_places(alloc, frame, ready.layout, cells, passing.as_slice())? {
        return Ok(places);
    }
    let placed = placed(alloc, frame, ready, &picks, cells)?;
    in_order(alloc, &placed)
}

// Where a filter finds its values in rows of the schema's attributes.
fn picks_in(alloc: Global, schema: &Schema, filter: &Option<Cond>) -> Result<PickList, OutOfMemory>
    requires attrs { AreAttrs schema.now.attrs }
    ensures { IfOk result (λ picks. picks ≡ picks_in schema.now.attrs filter.now) }
{
    match filter {
        None => Ok(PickList::new(alloc)),
        Some(condition) => condition.bind(alloc, &attr_fields(alloc, &schema.attrs)?),
    }
}

// The places of the cells that pass the filter, in the order of the cells.
#[tactic(auto, using(crate::proofs::Ranges::passings))]
fn passing(
    alloc: Global,
    ready: &Ready,
    picks: &PickList,
    cells: &Batch,
) -> Result<IndexList, OutOfMemory>
    requires { length cells.now < 2 ^ 32 }
    ensures { IfOk result (λ places. places ≡ filter (passes_at picks.now ready.now.filter cells.now) (range_with_len 0 (length cells.now))) }
{
    match &ready.filter {
        None => all_places(alloc, cells.len()),
        Some(condition) => {
            let found = matches_all(alloc, condition, picks, cells)?;
            found_places(alloc, found.as_slice())
        }
    }
}

/// All places below a number.
#[tactic(auto, using(crate::proofs::Ranges::ranges))]
pub(crate) fn all_places(alloc: Global, count: u64) -> Result<IndexList, OutOfMemory>
    requires { count < 2 ^ 32 }
    ensures { IfOk result (λ places. places ≡ range_with_len 0 count) }
{
    let mut places = IndexList::from_vec(Vec::with_capacity(alloc, count as usize)?);
    for place in 0..count {
        places.push(place as u32)?;
    }
    Ok(places)
}

// The places that are found.
#[tactic(auto, using(crate::proofs::Ranges::steps))]
fn found_places(alloc: Global, found: &[bool]) -> Result<IndexList, OutOfMemory>
    requires { length found.now < 2 ^ 32 }
    ensures { IfOk result (λ places. places ≡ filter (λ place. get_or found.now place false) (range_with_len 0 (length found.now))) }
{
    let count = found_count(found);
    if count == 0 {
        return Ok(IndexList::new(alloc));
    }
    let mut places = IndexList::from_vec(Vec::with_capacity(alloc, count as usize)?);
    for place in 0..found.len() {
        if found[place] {
            places.push(place as u32)?;
        }
    }
    Ok(places)
}

// How many places are found.
#[tactic(auto, using(crate::proofs::Ranges::steps))]
fn found_count(found: &[bool]) -> u64
    requires { length found.now < 2 ^ 32 }
    ensures { result ≡ length (filter (λ place. get_or found.now place false) (range_with_len 0 (length found.now))) }
{
    let mut count = 0;
    for place in 0..found.len() {
        let is_found = found[place];
        if is_found {
            count += 1;
        }
    }
    count
}

// Whether the cell at a place passes the filter, whose values are found so.
fn passes_at(picks: &PickList, filter: &Option<Cond>, cells: &Batch, place: u64) -> bool
    requires { place < length cells.now }
    ensures { result ≡ passes_at picks.now filter.now cells.now place }
{
    match filter {
        None => true,
        Some(condition) => matches_cell(condition, picks, &BatchCell::of(cells, place)),
    }
}

// The places of the cells that pass the filter, by those in the layout. Where two have one place in
// the layout the first is kept.
fn placed(
    alloc: Global,
    frame: &Frame,
    ready: &Ready,
    picks: &PickList,
    cells: &Batch,
) -> Result<BTreeMap<GlobalPlace, u32>, OutOfMemory>
    requires few { length cells.now < 2 ^ 32 }
    requires inside { All (λ (v : AnyVersion). IsTrue (is_in_domain frame.now.domain v.coords)) cells.now }
    ensures { IfOk result (λ placed. placed.entries ≡ placed_behind frame.now ready.now picks.now cells.now (range_with_len 0 (length cells.now))) }
{
    let mut left = cells.len();
    let mut placed = BTreeMap::new(alloc);
    while left > 0 {
        left -= 1;
        place(&mut placed, frame, ready, picks, cells, left)?;
    }
    Ok(placed)
}

// One cell takes its place, where it passes the filter.
fn place(
    placed: &mut BTreeMap<GlobalPlace, u32>,
    frame: &Frame,
    ready: &Ready,
    picks: &PickList,
    cells: &Batch,
    place: u64,
) -> Result<(), OutOfMemory>
    requires few { length cells.now < 2 ^ 32 }
    requires inside { All (λ (v : AnyVersion). IsTrue (is_in_domain frame.now.domain v.coords)) cells.now }
    requires place { place < length cells.now }
    ensures { OnOk result (placed.new.entries ≡ with_place frame.now ready.now picks.now cells.now place placed.old.entries) }
{
    if passes_at(picks, &ready.filter, cells, place) {
        let at = place_in(frame, ready.layout, &cells.coords(place));
        placed.insert(at, place as u32)?;
    }
    Ok(())
}

// The places of cells, in the order of those in the layout.
fn in_order(alloc: Global, placed: &BTreeMap<GlobalPlace, u32>) -> Result<IndexList, OutOfMemory>
    ensures { IfOk result (λ places. places ≡ map (λ e. e.1) placed.now.entries) }
{
    let mut places = IndexList::new(alloc);
    for (_at, place) in placed.iter() {
        places.push(*place)?;
    }
    Ok(places)
}
