//! The order of the cells of a tile.
ghost use Rattle.std.specs.Prelude.{◌≡◌, ◌<◌, ◌*◌, Some, IfSome, IsTrue};
ghost use Rattle.std.specs.Option.{option_copied};
ghost use Rattle.ts_domain.specs.Domains.{is_in_domain, LiesInDomain};
ghost use Rattle.ts_plain.specs.Rules.{coords_rise, origin_rises};
ghost use Rattle.ts_sparse_read.specs.Faults.{fault_in};
ghost use Rattle.ts_sparse_read.specs.TileReads.{first_width, coords_fault, origin_fault, place_fault, order_fault};
ghost use Rattle.ts_sparse_read.specs.Reads.{IsCellFault, TellsFault};
ghost use Rattle.ts_sparse_read.specs.Sifts.{bare, bare_if, IsSpotInside, cells_in, cell_in, AreSound};
ghost use Rattle.ts_sparse_read.specs.Picks.{LieInLeaf, cell_behind, ShareTile};

use crate::cells::spot_at;
use crate::columns::Columns;
use crate::faults::CellFault;
use crate::near::{is_one_tile, may_follow};
use crate::ranges::Ranges;
use crate::sifted::Spot;
use ts_base::{Coords, Part};
use ts_domain::SubBox;
use ts_order::cmp_global;
use ts_schema::Frame;

/// Nothing, where each of the cells that columns hold may stand behind the one before it, the first
/// behind the last one before the tile; else what is broken first.
#[tactic(auto, using(crate::proofs::PickStepLaws::order_done))]
pub(crate) fn check_order(
    frame: &Frame,
    consolidated: bool,
    ranges: &Ranges,
    leaf: &SubBox,
    columns: &Columns,
    last: Option<&Spot>,
) -> Result<(), CellFault>
    requires sound { AreSound frame.now columns.now }
    requires leaf { LiesInDomain frame.now.domain leaf.now }
    requires within { LieInLeaf leaf.now columns.now }
    requires last { IfSome (option_copied last) (IsSpotInside frame.now) }
    ensures { TellsFault (order_fault frame.now consolidated ranges.now 0 (bare_if (option_copied last.entry)) (cells_in columns.now)) result }
{
    let shared = is_one_tile(frame, leaf);
    for place in 0..columns.count {
        check_next(frame, consolidated, ranges, columns, shared, last, place)?;
    }
    Ok(())
}

// Nothing, where the cell at a place may stand behind the one before it; else what is broken there.
//
// Where all cells share a space tile, most are compared in their columns.
fn check_next(
    frame: &Frame,
    consolidated: bool,
    ranges: &Ranges,
    columns: &Columns,
    shared: bool,
    last: Option<&Spot>,
    place: u64,
) -> Result<(), CellFault>
    requires sound { AreSound frame.now columns.now }
    requires shared { IsTrue shared → ShareTile frame.now columns.now }
    requires last { IfSome (option_copied last) (IsSpotInside frame.now) }
    requires within { place < columns.now.count }
    ensures { TellsFault (place_fault frame.now consolidated ranges.now place (cell_behind (bare_if (option_copied last.entry)) columns.now place) (cell_in columns.now place)) result }
{
    match place.checked_sub(1) {
        None => check_place(
            frame,
            consolidated,
            ranges,
            place,
            last,
            &spot_at(columns, place),
        ),
        Some(before) => check_near(frame, consolidated, ranges, columns, shared, before, place),
    }
}

// So at a place of the tile behind another one.
fn check_near(
    frame: &Frame,
    consolidated: bool,
    ranges: &Ranges,
    columns: &Columns,
    shared: bool,
    before: u64,
    place: u64,
) -> Result<(), CellFault>
    requires sound { AreSound frame.now columns.now }
    requires shared { IsTrue shared → ShareTile frame.now columns.now }
    requires before { before < columns.now.count }
    requires within { place < columns.now.count }
    ensures { TellsFault (place_fault frame.now consolidated ranges.now place (Some (cell_in columns.now before)) (cell_in columns.now place)) result }
{
    if may_follow(frame, columns, shared, before, place) {
        return Ok(());
    }
    let (first, second) = (spot_at(columns, before), spot_at(columns, place));
    check_place(frame, consolidated, ranges, place, Some(&first), &second)
}

// Nothing, where the cell at a place may stand behind the one before it, each told by its spot; else
// what is broken there.
fn check_place(
    frame: &Frame,
    consolidated: bool,
    ranges: &Ranges,
    place: u64,
    before: Option<&Spot>,
    spot: &Spot,
) -> Result<(), CellFault>
    requires before { IfSome (option_copied before) (IsSpotInside frame.now) }
    requires inside { IsSpotInside frame.now spot.now }
    ensures { TellsFault (place_fault frame.now consolidated ranges.now place (bare_if (option_copied before.entry)) (bare spot.now)) result }
{
    if !coords_rise(frame, before, &spot.coords) {
        return Err(coords_fault(frame, ranges, place));
    }
    if !origin_rises(frame.dense, before, &spot.coords, spot.origin) {
        return Err(origin_fault(frame, consolidated, ranges, place));
    }
    Ok(())
}

// Whether a cell of these coordinates may stand behind the one before, in global order.
fn coords_rise(frame: &Frame, before: Option<&Spot>, coords: &Coords) -> bool
    requires before { IfSome (option_copied before) (IsSpotInside frame.now) }
    requires inside { IsTrue (is_in_domain frame.now.domain coords.now) }
    ensures { result ≡ coords_rise frame.now (bare_if (option_copied before.entry)) coords.now }
{
    match before {
        None => true,
        Some(before) => {
            let order = cmp_global(
                &frame.domain,
                frame.tile,
                frame.cell,
                &before.coords,
                coords,
            );
            !order.is_gt()
        }
    }
}

// Whether a cell of this origin may stand behind one of the same coordinates.
fn origin_rises(dense: bool, before: Option<&Spot>, coords: &Coords, origin: u32) -> bool
    ensures { result ≡ origin_rises dense (bare_if (option_copied before.entry)) coords.now origin }
{
    match before {
        None => true,
        Some(before) => before.coords != *coords || (!dense && before.origin < origin),
    }
}

// The coordinates of the cell at a place come too early: its first coordinate is broken.
fn coords_fault(frame: &Frame, ranges: &Ranges, place: u64) -> CellFault
    ensures { IsCellFault (coords_fault frame.now ranges.now place) result }
{
    fault_at(ranges, Part::Dim(0), place, first_width(frame))
}

// The write of the cell at a place comes too early.
fn origin_fault(frame: &Frame, consolidated: bool, ranges: &Ranges, place: u64) -> CellFault
    ensures { IsCellFault (origin_fault frame.now consolidated ranges.now place) result }
{
    if consolidated {
        fault_at(ranges, Part::Origin, place, 4)
    } else {
        coords_fault(frame, ranges, place)
    }
}

// The field of the cell at a place is broken, where each has so many bytes.
fn fault_at(ranges: &Ranges, part: Part, place: u64, width: u8) -> CellFault
    ensures { IsCellFault (fault_in ranges.now part (place * width)) result }
{
    match place.checked_mul(u64::from(width)) {
        Some(at) => ranges.fault_in(part, at),
        // No object has so many bytes.
        None => CellFault::OutOfMemory,
    }
}

// The width of the first dimension.
fn first_width(frame: &Frame) -> u8
    ensures { result ≡ first_width frame.now.domain }
{
    match frame.domain.as_slice().first() {
        Some(dim) => dim.ty.width(),
        None => 0,
    }
}
