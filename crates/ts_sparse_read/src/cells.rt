//! Cells from the columns of a tile.
ghost use Rattle.std.specs.Prelude.{◌≡◌, ◌≤◌, ◌<◌, pos, length, map, get_or};
ghost use Rattle.ts_gather.specs.Rows.{AreColumns};
ghost use Rattle.ts_sparse_read.specs.Sifts.{spot_of, last_spot, cells_in, cell_in};

use crate::columns::{Columns, NumberLists};
use crate::sifted::Spot;
use arrayvec::ArrayVec;
use ts_base::Coords;

/// Where the cell at a place stands.
pub(crate) fn spot_at(columns: &Columns, place: u64) -> Spot
    requires some { 1 ≤ length columns.now.coords }
    requires few { length columns.now.coords ≤ 8 }
    requires within { place < length columns.now.origins }
    ensures { result ≡ spot_of (cell_in columns.now place) }
{
    Spot {
        coords: coords_at(&columns.coords, place),
        origin: *columns.origins.at(place),
    }
}

/// Moves to where the last of the cells stands that columns hold. Where they hold none, nothing changes.
#[tactic(auto, using(crate::proofs::PickStepLaws::last_steps))]
pub(crate) fn move_to_last(columns: &Columns, last: &mut Option<Spot>)
    requires { AreColumns columns.now.count columns.now.coords columns.now.origins columns.now.vals }
    ensures { last.new ≡ last_spot last.old (cells_in columns.now) }
{
    if let Some(end) = columns.count.checked_sub(1) {
        *last = Some(spot_at(columns, end));
    }
}

// The coordinates of the cell at a place.
fn coords_at(coords: &NumberLists, place: u64) -> Coords
    requires some { 1 ≤ length coords.now }
    requires few { length coords.now ≤ 8 }
    ensures { result ≡ map (λ column. get_or column place (pos 0)) coords.now }
{
    let mut numbers: ArrayVec<i128, 8> = ArrayVec::new();
    for column in coords.as_slice() {
        numbers.push(column.at_or_zero(place));
    }
    Coords::new(numbers.as_slice())
}
