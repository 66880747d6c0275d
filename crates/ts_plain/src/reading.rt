//! Reading plain objects.
ghost use Rattle.std.specs.Prelude.{◌≡◌, ◌≤◌, ◌<◌, true, List, [], length, IfOk, IsTrue};
ghost use Rattle.std.specs.List.{All};
ghost use Rattle.ts_base.specs.declared.heads.Piece.{Piece as AnyPiece};
ghost use Rattle.ts_schema.specs.declared.attrs.Attr.{Attr as AnyAttr};
ghost use Rattle.ts_domain.specs.Dims.{IsSoundDim};
ghost use Rattle.ts_domain.specs.Domains.{is_in_domain};
ghost use Rattle.ts_wire.specs.Reading.{Reads, ReadsOr, DecodesOr, IsRead};
ghost use Rattle.ts_wire.specs.Place.{items_at, each_at, whole};
ghost use Rattle.ts_plain.specs.Rules.{full_by, last_of};
ghost use Rattle.ts_plain.specs.Plain.{dense_at, consolidated_at, coord_at, side_at, hull_at, cells_at, origin_count_at, origin_at, origins_at, head_by, head_at, coords_at, index_at, row_at, cell_at, plain_at, plain_stored, head_stored};
ghost use Rattle.ts_plain.specs.Pieces.{plain_piece, plain_head, IsPlainObject, BreaksSo};
ghost use Rattle.ts_plain.specs.Writes.{NamesWrites};
ghost use Rattle.ts_plain.specs.Merges.{IsOrdered};
ghost use Rattle.ts_plain.specs.Insides.{IsSide, IsHull, IsInside};

use crate::pieces::{head_of, piece_of};
use crate::rules::{
    coords_rise, is_full, is_on_side, may_be_origin, may_count, may_hold, may_span, origin_rises,
};
use crate::stored::{Side, SideList, StoredCell, StoredCellList, StoredHead, StoredPiece};
use arrayvec::ArrayVec;
use std::alloc::Global;
use ts_base::{Coords, FragKey, Head, Key, KeyList, OutOfMemory, Piece, Row};
use ts_domain::Dim;
use ts_schema::{Attr, Frame, Schema, read_value};
use ts_wire::{Cursor, Damaged, Kind, ReadFault, kept, unwrap_body};

// The fewest bytes that a cell takes: those of a coordinate and of the place of its origin.
const LEAST_CELL: u64 = 20;

#[tactic(auto, unfolding(crate::specs::Plain::dense_at))]
fn read_dense(dense: bool, cursor: &mut Cursor) -> Result<bool, Damaged>
    ensures { Reads (λ stored. stored) (dense_at dense) cursor.old cursor.new result }
{
    let at = cursor.at();
    let stored = cursor.bool()?;
    kept(at, stored, dense == stored)
}

#[tactic(auto, unfolding(crate::specs::Plain::consolidated_at))]
fn read_consolidated(frag: FragKey, cursor: &mut Cursor) -> Result<bool, Damaged>
    ensures { Reads (λ consolidated. consolidated) (consolidated_at frag) cursor.old cursor.new result }
{
    let at = cursor.at();
    let consolidated = cursor.bool()?;
    kept(at, consolidated, may_span(frag, consolidated))
}

#[tactic(auto, unfolding(crate::specs::Plain::coord_at))]
fn read_coord(side: &Side, cursor: &mut Cursor) -> Result<i128, Damaged>
    ensures { Reads (λ x. x) (coord_at side.now) cursor.old cursor.new result }
{
    let at = cursor.at();
    let x = cursor.int(16, true)?;
    kept(at, x, is_on_side(*side, x))
}

#[tactic(auto, unfolding(crate::specs::Plain::side_at))]
fn read_side(dim: &Dim, cursor: &mut Cursor) -> Result<Side, Damaged>
    ensures { Reads (λ side. side) (side_at dim.now) cursor.old cursor.new result }
{
    let whole = Side {
        low: dim.low,
        high: dim.high,
    };
    let low = read_coord(&whole, cursor)?;
    let rest = Side {
        low,
        high: dim.high,
    };
    let high = read_coord(&rest, cursor)?;
    Ok(Side { low, high })
}

#[tactic(auto, using(ts_wire::proofs::Loop::each_loop), unfolding(crate::specs::Plain::hull_at))]
fn read_sides(alloc: Global, dims: &[Dim], cursor: &mut Cursor) -> Result<SideList, ReadFault>
    ensures { ReadsOr (λ hull. hull) (hull_at dims.now) cursor.old cursor.new result }
{
    let mut hull = SideList::new(alloc);
    for dim in dims {
        let side = read_side(dim, cursor)?;
        hull.push(side)?;
    }
    Ok(hull)
}

#[tactic(auto, using(crate::proofs::Insides::hull_in))]
fn read_hull(alloc: Global, dims: &[Dim], cursor: &mut Cursor) -> Result<SideList, ReadFault>
    requires { All IsSoundDim dims.now }
    ensures reads { ReadsOr (λ hull. hull) (hull_at dims.now) cursor.old cursor.new result }
    ensures inside { IfOk result (IsHull dims.now) }
{
    let hull = read_sides(alloc, dims, cursor)?;
    Ok(hull)
}

#[tactic(auto, unfolding(crate::specs::Plain::cells_at))]
fn read_cell_count(full: bool, hull: &[Side], cursor: &mut Cursor) -> Result<u64, Damaged>
    requires { All IsSide hull.now }
    ensures { Reads (λ cells. cells) (cells_at full hull.now) cursor.old cursor.new result }
{
    let at = cursor.at();
    let cells = cursor.u64()?;
    kept(at, cells, may_hold(full, hull, cells))
}

#[tactic(auto, unfolding(crate::specs::Plain::origin_count_at))]
fn read_origin_count(consolidated: bool, cursor: &mut Cursor) -> Result<u32, Damaged>
    ensures { Reads (λ count. count) (origin_count_at consolidated) cursor.old cursor.new result }
{
    let at = cursor.at();
    let count = cursor.u32()?;
    kept(at, count, may_count(consolidated, count))
}

#[tactic(auto, unfolding(crate::specs::Plain::origin_at))]
fn read_origin(
    frag: FragKey,
    consolidated: bool,
    count: u32,
    front: &KeyList,
    cursor: &mut Cursor,
) -> Result<Key, Damaged>
    requires { length front.now < count }
    ensures { Reads (λ key. key) (origin_at frag consolidated count front.now) cursor.old cursor.new result }
{
    let at = cursor.at();
    let key = cursor.key()?;
    kept(
        at,
        key,
        may_be_origin(frag, consolidated, count, front, key),
    )
}

#[tactic(auto, using(ts_wire::proofs::Loop::items_loop))]
fn read_counted_origins(
    alloc: Global,
    frag: FragKey,
    consolidated: bool,
    count: u32,
    cursor: &mut Cursor,
) -> Result<KeyList, ReadFault>
    ensures { ReadsOr (λ origins. origins) (items_at (origin_at frag consolidated count) count []) cursor.old cursor.new result }
{
    let mut origins = KeyList::new(alloc);
    for place in 0..count {
        let origin = read_origin(frag, consolidated, count, &origins, cursor)?;
        origins.push(origin)?;
    }
    Ok(origins)
}

#[tactic(auto, unfolding(crate::specs::Plain::origins_at))]
fn read_origins(
    alloc: Global,
    frag: FragKey,
    consolidated: bool,
    cursor: &mut Cursor,
) -> Result<KeyList, ReadFault>
    ensures { ReadsOr (λ origins. origins) (origins_at frag consolidated) cursor.old cursor.new result }
{
    let count = read_origin_count(consolidated, cursor)?;
    read_counted_origins(alloc, frag, consolidated, count, cursor)
}

/// What stands before the cells, at a place in the plain object of this fragment: the fields that all
/// objects of fragments begin with. The hull lies in the domain.
///
/// A fragment of a dense array that is not consolidated has as many cells as its hull.
pub fn read_fields(
    alloc: Global,
    frame: &Frame,
    frag: FragKey,
    cursor: &mut Cursor,
) -> Result<StoredHead, ReadFault>
    ensures reads { ReadsOr (λ head. head) (head_at frame.now frag) cursor.old cursor.new result }
    ensures inside { IfOk result (λ head. IsHull frame.now.domain head.hull) }
{
    read_fields_by(alloc, frame, frag, false, cursor)
}

/// What [`read_fields`] reads, of a fragment that has as many cells as its hull, consolidated or not.
pub fn read_full_fields(
    alloc: Global,
    frame: &Frame,
    frag: FragKey,
    cursor: &mut Cursor,
) -> Result<StoredHead, ReadFault>
    ensures reads { ReadsOr (λ head. head) (head_by (λ _. true) frame.now frag) cursor.old cursor.new result }
    ensures inside { IfOk result (λ head. IsHull frame.now.domain head.hull) }
{
    read_fields_by(alloc, frame, frag, true, cursor)
}

// What stands before the cells. Any fragment has as many cells as its hull, or only an ordinary one of
// a dense array.
#[tactic(auto, using(crate::proofs::Insides::hull_sides), unfolding(crate::specs::Plain::head_by))]
fn read_fields_by(
    alloc: Global,
    frame: &Frame,
    frag: FragKey,
    any: bool,
    cursor: &mut Cursor,
) -> Result<StoredHead, ReadFault>
    ensures reads { ReadsOr (λ head. head) (head_by (full_by any frame.now.dense) frame.now frag) cursor.old cursor.new result }
    ensures inside { IfOk result (λ head. IsHull frame.now.domain head.hull) }
{
    let schema = cursor.key()?;
    let dense = read_dense(frame.dense, cursor)?;
    let consolidated = read_consolidated(frag, cursor)?;
    let hull = read_hull(alloc, frame.domain.as_slice(), cursor)?;
    let full = any || is_full(frame.dense, consolidated);
    let cells = read_cell_count(full, hull.as_slice(), cursor)?;
    let origins = read_origins(alloc, frag, consolidated, cursor)?;
    Ok(StoredHead {
        schema,
        dense,
        consolidated,
        hull,
        cells,
        origins,
    })
}

#[tactic(auto, using(ts_wire::proofs::Loop::each_number_loop))]
fn read_each_coord(hull: &[Side], cursor: &mut Cursor) -> Result<Coords, Damaged>
    requires some { 1 ≤ length hull.now }
    requires few { length hull.now ≤ 8 }
    ensures { Reads (λ coords. coords) (each_at coord_at hull.now) cursor.old cursor.new result }
{
    let mut numbers: ArrayVec<i128, 8> = ArrayVec::new();
    for side in hull {
        let x = read_coord(side, cursor)?;
        numbers.push(x);
    }
    Ok(Coords::new(numbers.as_slice()))
}

#[tactic(auto, using(crate::proofs::Insides::coords_in, crate::proofs::Insides::hull_length), unfolding(crate::specs::Plain::coords_at))]
fn read_coords(
    frame: &Frame,
    hull: &SideList,
    front: &StoredCellList,
    cursor: &mut Cursor,
) -> Result<Coords, Damaged>
    requires hull { IsHull frame.now.domain hull.now }
    requires inside { All (IsInside frame.now) front.now }
    ensures reads { Reads (λ coords. coords) (coords_at frame.now hull.now (last_of front.now)) cursor.old cursor.new result }
    ensures inside { IfOk result (λ coords. IsTrue (is_in_domain frame.now.domain coords)) }
{
    let at = cursor.at();
    let _count = frame.domain.count();
    let coords = read_each_coord(hull.as_slice(), cursor)?;
    kept(at, coords, coords_rise(frame, front, &coords))
}

#[tactic(auto, unfolding(crate::specs::Plain::index_at))]
fn read_origin_index(
    dense: bool,
    count: u64,
    front: &StoredCellList,
    coords: &Coords,
    cursor: &mut Cursor,
) -> Result<u32, Damaged>
    ensures { Reads (λ origin. origin) (index_at dense count (last_of front.now) coords.now) cursor.old cursor.new result }
{
    let at = cursor.at();
    let origin = cursor.u32()?;
    let rises = (origin as u64) < count && origin_rises(dense, front, coords, origin);
    kept(at, origin, rises)
}

#[tactic(auto, using(ts_wire::proofs::Loop::each_loop), unfolding(crate::specs::Plain::row_at, crate::specs::Plain::value_at))]
fn read_row(alloc: Global, attrs: &[Attr], cursor: &mut Cursor) -> Result<Row, ReadFault>
    ensures { ReadsOr (λ row. row) (row_at attrs.now) cursor.old cursor.new result }
{
    let mut row = Row::from_vec(Vec::with_capacity(alloc, attrs.len())?);
    for attr in attrs {
        let val = read_value(alloc, attr.ty, attr.nullable, cursor)?;
        row.push(val)?;
    }
    Ok(row)
}

#[tactic(auto, unfolding(crate::specs::Plain::cell_at))]
fn read_cell(
    alloc: Global,
    frame: &Frame,
    attrs: &[Attr],
    head: &StoredHead,
    front: &StoredCellList,
    cursor: &mut Cursor,
) -> Result<StoredCell, ReadFault>
    requires hull { IsHull frame.now.domain head.now.hull }
    requires inside { All (IsInside frame.now) front.now }
    ensures reads { ReadsOr (λ cell. cell) (cell_at frame.now attrs.now head.now front.now) cursor.old cursor.new result }
    ensures inside { IfOk result (IsInside frame.now) }
{
    let coords = read_coords(frame, &head.hull, front, cursor)?;
    let origin = read_origin_index(frame.dense, head.origins.len(), front, &coords, cursor)?;
    let row = read_row(alloc, attrs, cursor)?;
    Ok(StoredCell {
        coords,
        origin,
        row,
    })
}

// A list of no cells, with room for so many, or for as many as the bytes that are left can hold.
fn room_for(alloc: Global, count: u64, cursor: &Cursor) -> Result<StoredCellList, OutOfMemory>
    ensures { IfOk result (λ cells. cells ≡ []) }
{
    let most = cursor.rest().len() as u64 / LEAST_CELL;
    let cells = Vec::with_capacity(alloc, count.min(most) as usize)?;
    Ok(StoredCellList::from_vec(cells))
}

#[tactic(auto, using(ts_wire::proofs::Loop::items_loop))]
fn read_cells(
    alloc: Global,
    frame: &Frame,
    attrs: &[Attr],
    head: &StoredHead,
    cursor: &mut Cursor,
) -> Result<StoredCellList, ReadFault>
    requires hull { IsHull frame.now.domain head.now.hull }
    ensures { ReadsOr (λ cells. cells) (items_at (cell_at frame.now attrs.now head.now) head.now.cells []) cursor.old cursor.new result }
{
    let count = head.cells;
    let mut cells = room_for(alloc, count, cursor)?;
    for place in 0..count {
        let cell = read_cell(alloc, frame, attrs, head, &cells, cursor)?;
        cells.push(cell)?;
    }
    Ok(cells)
}

#[tactic(auto, unfolding(crate::specs::Plain::plain_at))]
fn read_body(
    alloc: Global,
    frame: &Frame,
    attrs: &[Attr],
    frag: FragKey,
    cursor: &mut Cursor,
) -> Result<StoredPiece, ReadFault>
    ensures reads { ReadsOr (λ stored. stored) (plain_at frame.now attrs.now frag) cursor.old cursor.new result }
    ensures inside { IfOk result (λ stored. IsHull frame.now.domain stored.head.hull) }
{
    let head = read_fields(alloc, frame, frag, cursor)?;
    let cells = read_cells(alloc, frame, attrs, &head, cursor)?;
    Ok(StoredPiece { head, cells })
}

// The piece that the rest of an object spells, with nothing behind it.
#[tactic(auto, unfolding(ts_wire::specs::Place::whole))]
fn read_whole(
    alloc: Global,
    frame: &Frame,
    attrs: &[Attr],
    frag: FragKey,
    cursor: &mut Cursor,
) -> Result<StoredPiece, ReadFault>
    ensures reads { DecodesOr (λ stored. stored) (whole (plain_at frame.now attrs.now frag) cursor.old) result }
    ensures inside { IfOk result (λ stored. IsHull frame.now.domain stored.head.hull) }
{
    let stored = read_body(alloc, frame, attrs, frag, cursor)?;
    cursor.end()?;
    Ok(stored)
}

#[tactic(auto, unfolding(crate::specs::Plain::plain_stored, ts_wire::specs::Envelope::object_at))]
fn read_stored(
    alloc: Global,
    frame: &Frame,
    attrs: &[Attr],
    frag: FragKey,
    object: &[u8],
) -> Result<StoredPiece, ReadFault>
    ensures reads { DecodesOr (λ stored. stored) (plain_stored frame.now attrs.now frag object.now) result }
    ensures inside { IfOk result (λ stored. IsHull frame.now.domain stored.head.hull) }
{
    let body = unwrap_body(Kind::Plain, object)?;
    let mut cursor = Cursor::new(body, 14);
    read_whole(alloc, frame, attrs, frag, &mut cursor)
}

#[tactic(auto, unfolding(crate::specs::Plain::head_stored))]
fn read_stored_head(
    alloc: Global,
    frame: &Frame,
    frag: FragKey,
    object: &[u8],
) -> Result<StoredHead, ReadFault>
    ensures reads { DecodesOr (λ head. head) (head_stored frame.now frag object.now) result }
    ensures inside { IfOk result (λ head. IsHull frame.now.domain head.hull) }
{
    let body = unwrap_body(Kind::Plain, object)?;
    let mut cursor = Cursor::new(body, 14);
    read_fields(alloc, frame, frag, &mut cursor)
}

#[tactic(auto, unfolding(crate::specs::Pieces::plain_piece))]
fn read_piece(
    alloc: Global,
    frame: &Frame,
    attrs: &[Attr],
    frag: FragKey,
    object: &[u8],
) -> Result<Piece, ReadFault>
    ensures { DecodesOr (λ piece. piece) (plain_piece frame.now attrs.now frag object.now) result }
{
    let stored = read_stored(alloc, frame, attrs, frag, object)?;
    let piece = piece_of(alloc, frame, frag, stored)?;
    Ok(piece)
}

#[tactic(auto, unfolding(crate::specs::Pieces::plain_head))]
fn read_piece_head(
    alloc: Global,
    frame: &Frame,
    frag: FragKey,
    object: &[u8],
) -> Result<Head, ReadFault>
    ensures { DecodesOr (λ head. head) (plain_head frame.now frag object.now) result }
{
    let stored = read_stored_head(alloc, frame, frag, object)?;
    Ok(head_of(frame, frag, stored))
}

/// The piece that a plain object holds, under the name of its fragment, in an array of this frame.
/// The cells are in this schema.
///
/// The layout is that of the file FORMATS.md, "The plain fragment". The answer is a piece exactly
/// where the object is one that spells a piece of this fragment. Else the offset in bytes, from the
/// object's start, is that of the first field in the order of the layout that the object ends within
/// or that breaks its rule. A body that goes on after its layout is broken at the first byte too
/// many; an object that is cut behind its first 14 bytes is broken at 6, where its length stands.
/// The versions of a piece stand in global order, those of one cell by ascending key. So an object
/// spells one piece at most (`only`), and a piece that was read can be written (`names`).
pub fn read_plain(
    alloc: Global,
    frame: &Frame,
    schema: &Schema,
    frag: FragKey,
    object: &[u8],
) -> Result<Piece, ReadFault>
    ensures exact { DecodesOr (λ piece. piece) (plain_piece frame.now schema.now.attrs frag object.now) result }
    ensures found { IfOk result (λ piece. IsPlainObject frame.now schema.now.attrs piece object.now × (piece.head.frag ≡ frag)) }
    ensures only { (piece : AnyPiece) → piece.head.frag ≡ frag → IsPlainObject frame.now schema.now.attrs piece object.now → IsRead (λ found. found) piece result }
    ensures names { IfOk result NamesWrites }
    ensures ordered { IfOk result (λ piece. IsOrdered frame.now piece.versions) }
{
    read_piece(alloc, frame, schema.attrs.as_slice(), frag, object)
}

/// The head of the piece that a plain object holds, under the name of its fragment, in an array of
/// this frame. No schema is needed, and the cells are not read.
///
/// Where the object spells a piece, whatever its schema is, the answer is that piece's head. Where
/// the answer is an offset, the object is broken there first, as [`read_plain`] says; what comes
/// behind the origins is not looked at.
pub fn read_head(
    alloc: Global,
    frame: &Frame,
    frag: FragKey,
    object: &[u8],
) -> Result<Head, ReadFault>
    ensures exact { DecodesOr (λ head. head) (plain_head frame.now frag object.now) result }
    ensures only { (attrs : List AnyAttr) (piece : AnyPiece) → piece.head.frag ≡ frag → IsPlainObject frame.now attrs piece object.now → IsRead (λ found. found) piece.head result }
    ensures broken { (attrs : List AnyAttr) → BreaksSo (plain_piece frame.now attrs frag object.now) result }
{
    read_piece_head(alloc, frame, frag, object)
}
