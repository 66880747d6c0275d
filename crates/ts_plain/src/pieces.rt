//! The piece that a plain object holds, from what it stores.
ghost use Rattle.std.specs.Prelude.{◌≡◌, ◌≤◌, length, map, IfOk};
ghost use Rattle.ts_plain.specs.Pieces.{origin_key, version_in, head_of, piece_of};
ghost use Rattle.ts_plain.specs.Insides.{IsHull};

use crate::rules::counted;
use crate::stored::{Side, StoredCell, StoredCellList, StoredHead, StoredPiece};
use arrayvec::ArrayVec;
use std::alloc::Global;
use ts_base::{Coords, FragKey, Head, Key, KeyList, OutOfMemory, Piece, Version, VersionList};
use ts_schema::Frame;

// What stands for the key of an origin that is not there.
const NO_KEY: Key = Key { t: 0, id: 0 };

fn origin_key(origins: &KeyList, place: u32) -> Key
    ensures { result ≡ origin_key origins.now place }
{
    match origins.as_slice().get(place as usize) {
        Some(key) => *key,
        None => NO_KEY,
    }
}

fn version_in(head: &StoredHead, cell: StoredCell) -> Version
    ensures { result ≡ version_in head.now cell }
{
    let StoredCell {
        coords,
        origin,
        row,
    } = cell;
    Version {
        key: origin_key(&head.origins, origin),
        schema: head.schema,
        coords,
        row,
    }
}

fn versions_in(
    alloc: Global,
    head: &StoredHead,
    cells: StoredCellList,
) -> Result<VersionList, OutOfMemory>
    ensures { IfOk result (λ versions. versions ≡ map (version_in head.now) cells) }
{
    let cells = cells.into_vec();
    let mut versions = Vec::with_capacity(alloc, cells.len())?;
    for cell in cells {
        versions.push(version_in(head, cell))?;
    }
    Ok(VersionList::from_vec(versions))
}

/// The least coordinate of a hull along each dimension.
pub fn lows(hull: &[Side]) -> Coords
    requires some { 1 ≤ length hull.now }
    requires few { length hull.now ≤ 8 }
    ensures { result ≡ map (λ side. side.low) hull.now }
{
    let mut numbers: ArrayVec<i128, 8> = ArrayVec::new();
    for side in hull {
        numbers.push(side.low);
    }
    Coords::new(numbers.as_slice())
}

/// The greatest coordinate of a hull along each dimension.
pub fn highs(hull: &[Side]) -> Coords
    requires some { 1 ≤ length hull.now }
    requires few { length hull.now ≤ 8 }
    ensures { result ≡ map (λ side. side.high) hull.now }
{
    let mut numbers: ArrayVec<i128, 8> = ArrayVec::new();
    for side in hull {
        numbers.push(side.high);
    }
    Coords::new(numbers.as_slice())
}

/// The head of the fragment of this name, from what its object stores before the cells. That of a dense
/// fragment counts the cells of its hull, up to 2^64 - 1.
#[tactic(auto, using(crate::proofs::Insides::hull_length), unfolding(crate::specs::Pieces::head_of))]
pub fn head_of(frame: &Frame, frag: FragKey, head: StoredHead) -> Head
    requires { IsHull frame.now.domain head.hull }
    ensures { result ≡ head_of frag head }
{
    let _count = frame.domain.count();
    let StoredHead {
        schema,
        dense,
        consolidated,
        hull,
        cells,
        origins,
    } = head;
    Head {
        frag,
        schema,
        dense,
        consolidated,
        low: lows(hull.as_slice()),
        high: highs(hull.as_slice()),
        cells: counted(dense, hull.as_slice(), cells),
        origins,
    }
}

/// The piece that what is stored holds, under the name of its fragment.
#[tactic(auto, unfolding(crate::specs::Pieces::piece_of))]
pub fn piece_of(
    alloc: Global,
    frame: &Frame,
    frag: FragKey,
    stored: StoredPiece,
) -> Result<Piece, OutOfMemory>
    requires { IsHull frame.now.domain stored.head.hull }
    ensures { IfOk result (λ piece. piece ≡ piece_of frag stored) }
{
    let StoredPiece { head, cells } = stored;
    let versions = versions_in(alloc, &head, cells)?;
    Ok(Piece {
        head: head_of(frame, frag, head),
        versions,
    })
}
