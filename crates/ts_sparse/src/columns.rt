//! The objects of columns.
ghost use Rattle.std.specs.Prelude.{◌≡◌, ◌<◌, ◌^◌, [], pos, true, length, map, get_or, All, IfOk};
ghost use Rattle.std.specs.List.{flat_map};
ghost use Rattle.std.specs.List.Sorted.{IsStrictlySortedBy};
ghost use Rattle.ts_base.specs.Keys.{key_cmp};
ghost use Rattle.ts_base.specs.Values.{width_of, is_integer};
ghost use Rattle.ts_base.specs.declared.heads.Version.{Version as AnyVersion};
ghost use Rattle.ts_base.specs.declared.values.Val.TheVariants as val;
ghost use Rattle.ts_wire.specs.declared.kinds.Kind.TheVariants as kind;
ghost use Rattle.ts_wire.specs.Envelope.{wrapped};
ghost use Rattle.ts_wire.specs.Fields.{bool_bytes};
ghost use Rattle.ts_wire.specs.Numbers.{FitsInt, number_bytes, int_bytes};
ghost use Rattle.ts_table.specs.Columns.{val_seen};
ghost use Rattle.ts_column.specs.Spelled.{number_of, text_of};
ghost use Rattle.ts_column.specs.Tiles.{is_signed, is_there};
ghost use Rattle.ts_piece.specs.Spots.{version_in, IsSpot};
ghost use Rattle.ts_plain.specs.Writes.{place_of, HasPlace};
ghost use Rattle.ts_sparse.specs.Seen.{AreSources};
ghost use Rattle.ts_sparse.specs.Laying.{coords_along, values_along};

use crate::coords::{coord_at, slices_of};
use crate::values::{Source, sources_of, value_at, value_of};
use std::alloc::Global;
use ts_base::{ByteList, KeyList, OutOfMemory, ValType};
use ts_batch::{Batch, BatchCell};
use ts_column::is_signed;
use ts_piece::{BatchPiece, PieceParts, Spot, cell_at};
use ts_plain::place_of;
use ts_table::{Seen, Texts};
use ts_wire::{Kind, Scribe};

/// A scribe with room for so many bytes for each cell.
pub(crate) fn room_for(alloc: Global, piece: &BatchPiece, width: u8) -> Result<Scribe, OutOfMemory>
    ensures { IfOk result (λ scribe. scribe ≡ []) }
{
    let mut scribe = Scribe::new(alloc);
    scribe.reserve(piece.len().saturating_mul(u64::from(width)))?;
    Ok(scribe)
}

/// The object of the coordinates along a dimension, of which each takes the width of the type.
#[tactic(auto, using(crate::proofs::Widths::width_is))]
pub(crate) fn coords_object(
    alloc: Global,
    ty: ValType,
    dim: u8,
    piece: &BatchPiece,
) -> Result<ByteList, OutOfMemory>
    requires integer { is_integer ty ≡ true }
    requires fits { All (λ (v : AnyVersion). FitsInt (width_of ty) (is_signed ty) (get_or v.coords dim (pos 0))) piece.now.versions }
    ensures { IfOk result (λ bytes. bytes ≡ wrapped kind.Column (flat_map (int_bytes (width_of ty)) (coords_along dim piece.now.versions))) }
{
    let mut scribe = room_for(alloc, piece, ty.width())?;
    let PieceParts { batches, spots } = piece.parts();
    let slices = slices_of(alloc, batches, dim)?;
    for spot in spots {
        let number = coord_at(batches, slices.as_slice(), dim, *spot);
        scribe.int(ty.width(), is_signed(ty), number)?;
    }
    scribe.into_object(Kind::Column)
}

// The integer that is stored for a value: 0 for a null.
fn number_in(value: Seen<'_>) -> i128
    ensures { result ≡ number_of (val_seen value.entry) }
{
    match value {
        Seen::Int(number) => number,
        Seen::Null | Seen::Bytes(_) => 0,
    }
}

/// The integer that is stored for the value of an attribute: 0 for a null.
pub fn number_of(version: &BatchCell<'_>, attr: u8) -> i128
    ensures { result ≡ number_of (get_or version.now.row attr val.Null) }
{
    number_in(value_of(version, attr))
}

// The integer that is stored for the value of an attribute at a spot: 0 for a null.
fn number_at(batches: &[Batch], sources: &[Source<'_>], attr: u8, spot: Spot) -> i128
    requires there { IsSpot batches.now spot }
    requires sources { AreSources attr batches.now sources.now }
    ensures { result ≡ number_of (get_or (version_in batches.now spot).row attr val.Null) }
{
    number_in(value_at(batches, sources, attr, spot))
}

/// The object of the values of an attribute that are integers, of which each takes the width of the type.
#[tactic(auto, using(crate::proofs::Widths::width_is))]
pub fn numbers_object(
    alloc: Global,
    ty: ValType,
    attr: u8,
    piece: &BatchPiece,
) -> Result<ByteList, OutOfMemory>
    requires integer { is_integer ty ≡ true }
    requires fits { All (λ (v : AnyVersion). FitsInt (width_of ty) (is_signed ty) (number_of (get_or v.row attr val.Null))) piece.now.versions }
    ensures { IfOk result (λ bytes. bytes ≡ wrapped kind.Column (flat_map (int_bytes (width_of ty)) (map number_of (values_along attr piece.now.versions)))) }
{
    let mut scribe = room_for(alloc, piece, ty.width())?;
    let PieceParts { batches, spots } = piece.parts();
    let sources = sources_of(alloc, batches, attr)?;
    for spot in spots {
        let number = number_at(batches, sources.as_slice(), attr, *spot);
        scribe.int(ty.width(), is_signed(ty), number)?;
    }
    scribe.into_object(Kind::Column)
}

// Whether a value is no null.
fn is_value(value: Seen<'_>) -> bool
    ensures { result ≡ is_there (val_seen value.entry) }
{
    match value {
        Seen::Int(_) | Seen::Bytes(_) => true,
        Seen::Null => false,
    }
}

/// Whether the value of an attribute is no null.
pub fn is_there(version: &BatchCell<'_>, attr: u8) -> bool
    ensures { result ≡ is_there (get_or version.now.row attr val.Null) }
{
    is_value(value_of(version, attr))
}

// Whether the value of an attribute at a spot is no null.
fn is_there_at(batches: &[Batch], sources: &[Source<'_>], attr: u8, spot: Spot) -> bool
    requires there { IsSpot batches.now spot }
    requires sources { AreSources attr batches.now sources.now }
    ensures { result ≡ is_there (get_or (version_in batches.now spot).row attr val.Null) }
{
    is_value(value_at(batches, sources, attr, spot))
}

/// The object that tells of each cell whether its value of an attribute is there: one byte each.
pub fn validity_object(alloc: Global, attr: u8, piece: &BatchPiece) -> Result<ByteList, OutOfMemory>
    ensures { IfOk result (λ bytes. bytes ≡ wrapped kind.Column (flat_map bool_bytes (map is_there (values_along attr piece.now.versions)))) }
{
    let mut scribe = room_for(alloc, piece, 1)?;
    let PieceParts { batches, spots } = piece.parts();
    let sources = sources_of(alloc, batches, attr)?;
    for spot in spots {
        scribe.bool(is_there_at(batches, sources.as_slice(), attr, *spot))?;
    }
    scribe.into_object(Kind::Column)
}

// The bytes that are stored for a value: none for a null.
fn bytes_in(value: Seen<'_>) -> &[u8]
    ensures { result.now ≡ text_of (val_seen value.entry) }
{
    match value {
        Seen::Bytes(bytes) => bytes,
        Seen::Null | Seen::Int(_) => &[],
    }
}

/// The bytes that are stored for the value of an attribute: none for a null.
pub fn text_of<'a>(version: &BatchCell<'a>, attr: u8) -> &'a [u8]
    ensures { result.now ≡ text_of (get_or version.now.row attr val.Null) }
{
    bytes_in(value_of(version, attr))
}

/// The bytes that are stored for the value of an attribute at a spot: none for a null.
pub(crate) fn text_at<'a>(
    batches: &'a [Batch],
    sources: &[Source<'a>],
    attr: u8,
    spot: Spot,
) -> &'a [u8]
    requires there { IsSpot batches.now spot }
    requires sources { AreSources attr batches.now sources.now }
    ensures { result.now ≡ text_of (get_or (version_in batches.now spot).row attr val.Null) }
{
    bytes_in(value_at(batches, sources, attr, spot))
}

/// The values of an attribute that are byte lists, a null as the empty one.
pub fn texts_of(alloc: Global, attr: u8, piece: &BatchPiece) -> Result<Texts, OutOfMemory>
    ensures { IfOk result (λ texts. texts ≡ map text_of (values_along attr piece.now.versions)) }
{
    let mut texts = Texts::new(alloc);
    let PieceParts { batches, spots } = piece.parts();
    let sources = sources_of(alloc, batches, attr)?;
    for spot in spots {
        texts.push(text_at(batches, sources.as_slice(), attr, *spot))?;
    }
    Ok(texts)
}

/// The object that tells of each cell which write laid it: its place among the origins in four bytes.
pub fn origins_object(
    alloc: Global,
    origins: &KeyList,
    piece: &BatchPiece,
) -> Result<ByteList, OutOfMemory>
    requires few { length origins.now < 2 ^ 32 }
    requires ascend { IsStrictlySortedBy key_cmp origins.now }
    requires known { All (λ (v : AnyVersion). HasPlace origins.now v.key) piece.now.versions }
    ensures { IfOk result (λ bytes. bytes ≡ wrapped kind.Column (flat_map (number_bytes 4) (map (λ (v : AnyVersion). place_of origins.now v.key) piece.now.versions))) }
{
    let mut scribe = room_for(alloc, piece, 4)?;
    let PieceParts { batches, spots } = piece.parts();
    for spot in spots {
        scribe.u32(place_of(origins, cell_at(batches, *spot).key()))?;
    }
    scribe.into_object(Kind::Column)
}
