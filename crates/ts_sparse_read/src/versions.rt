//! The versions that are wanted of the cells of a tile.
ghost use Rattle.std.specs.Prelude.{◌≡◌, ◌<◌, [], ◌∷◌, ◌++◌, length, IfOk, IsTrue, OnOk};
ghost use Rattle.std.specs.List.{All};
ghost use Rattle.ts_base.specs.Keys.{is_within};
ghost use Rattle.ts_plain.specs.Pieces.{origin_key};
ghost use Rattle.ts_gather.specs.Rows.{AreRows};
ghost use Rattle.ts_sparse_read.specs.Sifts.{spot_of, cells_in, cell_in, AreSound, is_spot_wanted, place_if, versions_at, wanted_of};
ghost use Rattle.ts_sparse_read.specs.Picks.{LieInLeaf, AreAllWanted};

use crate::columns::Columns;
use crate::near::is_cell_in;
use crate::opened::Opened;
use std::alloc::Global;
use ts_base::{Key, KeyList, OutOfMemory};
use ts_batch::{Batch, Batches};
use ts_domain::SubBox;
use ts_gather::{does_cover, table_of};
use ts_table::Table;

// What stands for the key of an origin that is not there.
const NO_KEY: Key = Key { t: 0, id: 0 };

/// The places of the cells that are wanted of a tile, which all lie in its leaf.
#[tactic(auto, using(crate::proofs::PickLaws::pick_steps))]
pub(crate) fn wanted_places(
    alloc: Global,
    opened: &Opened,
    leaf: &SubBox,
    columns: &Columns,
) -> Result<Vec<u32>, OutOfMemory>
    requires sound { AreSound opened.now.frame columns.now }
    requires within { LieInLeaf leaf.now columns.now }
    ensures versions { IfOk result (λ places. versions_at opened.now columns.now places.items ≡ wanted_of opened.now.want opened.now.head (cells_in columns.now)) }
    ensures rows { IfOk result (λ places. AreRows columns.now.count places.items) }
{
    let all = are_all_wanted(opened, leaf, columns);
    let mut places = Vec::new(alloc);
    for place in 0..columns.count {
        push_wanted(opened, columns, all, place, &mut places)?;
    }
    Ok(places)
}

// Appends a place, if its cell is wanted. `all` says that all cells of the tile are.
fn push_wanted(
    opened: &Opened,
    columns: &Columns,
    all: bool,
    place: u64,
    places: &mut Vec<u32>,
) -> Result<(), OutOfMemory>
    requires all { IsTrue all → AreAllWanted opened.now columns.now }
    requires within { place < columns.now.count }
    requires origins { length columns.now.origins ≡ columns.now.count }
    ensures { OnOk result (places.new.items ≡ places.old.items ++ place_if (is_spot_wanted opened.now.want opened.now.head (spot_of (cell_in columns.now place))) place) }
{
    if all || is_cell_wanted(opened, columns, place) {
        return push_place(places, place);
    }
    Ok(())
}

// Whether the cell at a place is wanted.
fn is_cell_wanted(opened: &Opened, columns: &Columns, place: u64) -> bool
    requires { place < length columns.now.origins }
    ensures { result ≡ is_spot_wanted opened.now.want opened.now.head (spot_of (cell_in columns.now place)) }
{
    let origin = *columns.origins.at(place);
    is_origin_wanted(opened, origin)
        && is_cell_in(&opened.want.sub, columns.coords.as_slice(), place)
}

// Whether the write at a place among the origins is stamped in the interval that is wanted.
fn is_origin_wanted(opened: &Opened, origin: u32) -> bool
    ensures { result ≡ is_within opened.now.want.a opened.now.want.b (origin_key opened.now.head.origins origin) }
{
    origin_key(&opened.head.origins, origin).is_within(opened.want.a, opened.want.b)
}

// Whether the box that is wanted has the leaf of a tile, and the interval all its writes.
fn are_all_wanted(opened: &Opened, leaf: &SubBox, columns: &Columns) -> bool
    requires sound { AreSound opened.now.frame columns.now }
    requires within { LieInLeaf leaf.now columns.now }
    ensures { IsTrue result → AreAllWanted opened.now columns.now }
{
    does_cover(&opened.want.sub, leaf) && are_origins_wanted(opened, columns.origins.as_slice())
}

// Whether the writes at these places among the origins are all stamped in the interval that is wanted.
fn are_origins_wanted(opened: &Opened, origins: &[u32]) -> bool
    ensures { IsTrue result → All (λ o. IsTrue (is_within opened.now.want.a opened.now.want.b (origin_key opened.now.head.origins o))) origins.now }
{
    origins
        .iter()
        .all(|origin| is_origin_wanted(opened, *origin))
}

// Appends a place.
fn push_place(places: &mut Vec<u32>, place: u64) -> Result<(), OutOfMemory>
    ensures { OnOk result (places.new.items ≡ places.old.items ++ place ∷ []) }
{
    match u32::try_from(place) {
        Ok(place) => {
            places.push(place)?;
            Ok(())
        }
        Err(_many) => Err(OutOfMemory),
    }
}

/// Puts the versions at these places of a tile behind the others. Where no cell of the tile is left
/// out, its columns are moved.
pub(crate) fn add_rows(
    alloc: Global,
    opened: &Opened,
    columns: Columns,
    places: &[u32],
    found: &mut Batches,
) -> Result<(), OutOfMemory>
    requires sound { AreSound opened.now.frame columns }
    requires rows { AreRows columns.count places.now }
    ensures { OnOk result (found.new ≡ found.old ++ versions_at opened.now columns places.now) }
{
    if places.is_empty() {
        return Ok(());
    }
    let table = table_at(alloc, opened, columns, places)?;
    found.push(Batch::of_table(table))
}

// The versions at these places of a tile.
fn table_at(
    alloc: Global,
    opened: &Opened,
    columns: Columns,
    places: &[u32],
) -> Result<Table, OutOfMemory>
    requires sound { AreSound opened.now.frame columns }
    requires rows { AreRows columns.count places.now }
    ensures { IfOk result (λ table. table ≡ versions_at opened.now columns places.now) }
{
    let Columns {
        count,
        coords,
        origins,
        vals,
    } = columns;
    let (coords, vals) = (coords.into_vec(), vals.into_vec());
    let keys = opened.head.origins.as_slice();
    let schema = opened.head.schema;
    let attrs = opened.want.attrs.as_slice();
    table_of(
        alloc, keys, schema, attrs, count, coords, &origins, vals, places,
    )
}

/// The key at a place among the origins, or that of no write where there is none.
pub fn origin_key(origins: &KeyList, place: u32) -> Key
    ensures { result ≡ origin_key origins.now place }
{
    match origins.as_slice().get(place as usize) {
        Some(key) => *key,
        None => NO_KEY,
    }
}
