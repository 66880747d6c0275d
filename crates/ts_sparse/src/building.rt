//! Building the parts of a sparse fragment.
ghost use Rattle.std.specs.Prelude.{◌≡◌, ◌≤◌, ◌<◌, ◌^◌, ◌∷◌, [], true, length, get_or, All, IfOk, OnOk};
ghost use Rattle.ts_base.specs.Values.{is_integer};
ghost use Rattle.ts_base.specs.declared.heads.Version.{Version as AnyVersion};
ghost use Rattle.ts_base.specs.declared.values.Val.TheVariants as val;
ghost use Rattle.ts_domain.specs.declared.dims.Dim.{Dim as AnyDim};
ghost use Rattle.ts_schema.specs.Parts.{look_in};
ghost use Rattle.ts_plain.specs.Plain.{FitsValue};
ghost use Rattle.ts_plain.specs.Writes.{stored_for, CountsCells, NamesWrites};
ghost use Rattle.ts_sparse.specs.Sparse.{value_column, dim_objects, numbers_object, starts_object, bytes_object, fixed_objects, validity_objects, attr_objects, origin_objects, objects_of, parts_of, FitsSparse, IsSparse};
ghost use Rattle.ts_sparse.specs.Laying.{with_objects, none_laid, cells_of, CoordsFit, ValuesFit};

use crate::columns::{coords_object, numbers_object, origins_object, validity_object};
use crate::laying::Laid;
use crate::metadata::meta_object;
use crate::text_objects::text_objects;
use std::alloc::Global;
use ts_base::{LengthList, OutOfMemory, Part, PartBytes, PartList};
use ts_domain::Dim;
use ts_piece::BatchPiece;
use ts_schema::{Attr, Frame, Schema};

/// The parts of a sparse fragment, in the order in which they are put and in the layout of FORMATS.md,
/// "The sparse fragment in tiles". See the TileDB format specification, "Fragment".
///
/// First come the coordinates of each dimension. Then come of each attribute its values, and where they
/// may be null which of them are there, and then the writes of a consolidated fragment's cells. The
/// metadata is last.
///
/// The versions have to name their writes, as [`ts_plain::write_plain`] asks too, and the piece has to be
/// one that a sparse fragment of the array can store. A tile has as many cells as the capacity of the
/// frame, the last one the rest. There is no error but want of memory.
///
/// The metadata counts the versions. So the parts spell the piece where its head counts its cells as the
/// heads of pieces do, and its versions are all in the schema of its head (`spelled`).
#[tactic(auto, using(crate::proofs::BuildLaws::all_parts_built, crate::proofs::BuildLaws::built_spells))]
pub fn build(
    alloc: Global,
    frame: &Frame,
    schema: &Schema,
    piece: &BatchPiece,
) -> Result<PartList, OutOfMemory>
    requires names { NamesWrites piece.now }
    requires fits { FitsSparse frame.now schema.now.attrs piece.now.head.frag (stored_for piece.now) }
    ensures parts { IfOk result (λ parts. parts ≡ parts_of frame.now schema.now.attrs (stored_for piece.now)) }
    ensures spelled { CountsCells piece.now → All (λ (v : AnyVersion). v.schema ≡ piece.now.head.schema) piece.now.versions → IfOk result (λ parts. IsSparse frame.now schema.now piece.now (look_in parts)) }
{
    let laid = lay_columns(alloc, frame, schema, piece)?;
    let Laid { mut parts, sizes } = laid;
    are_lengths(sizes.as_slice());
    let bytes = meta_object(alloc, frame, schema, piece, sizes.as_slice())?;
    // No object has 2^64 bytes.
    let _size = bytes.len();
    parts.push(PartBytes {
        part: Part::Meta,
        bytes,
    })?;
    Ok(parts)
}

// Each length has 64 bits. The call itself does nothing.
fn are_lengths(sizes: &[u64])
    ensures { All (λ size. size < 2 ^ 64) sizes.now }
{}

// Lays the objects of all columns.
fn lay_columns(
    alloc: Global,
    frame: &Frame,
    schema: &Schema,
    piece: &BatchPiece,
) -> Result<Laid, OutOfMemory>
    requires names { NamesWrites piece.now }
    requires fits { FitsSparse frame.now schema.now.attrs piece.now.head.frag (stored_for piece.now) }
    ensures { IfOk result (λ laid. laid ≡ with_objects none_laid (objects_of frame.now schema.now.attrs (stored_for piece.now))) }
{
    let mut laid = Laid {
        parts: PartList::new(alloc),
        sizes: LengthList::new(alloc),
    };
    // A domain has 8 dimensions at most.
    let _count = frame.domain.count();
    lay_dims(alloc, &mut laid, frame.domain.as_slice(), piece)?;
    lay_attrs(
        alloc,
        &mut laid,
        frame.capacity,
        schema.attrs.as_slice(),
        piece,
    )?;
    lay_origins(alloc, &mut laid, piece)?;
    Ok(laid)
}

// Lays the coordinates along each dimension.
#[tactic(auto, using(crate::proofs::LayLaws::dims_more, crate::proofs::LayLaws::dims_all, crate::proofs::FitLaws::coords_at, crate::proofs::FitLaws::integer_at))]
fn lay_dims(
    alloc: Global,
    laid: &mut Laid,
    dims: &[Dim],
    piece: &BatchPiece,
) -> Result<(), OutOfMemory>
    requires few { length dims.now ≤ 8 }
    requires integers { All (λ (d : AnyDim). is_integer d.ty ≡ true) dims.now }
    requires fits { CoordsFit dims.now piece.now.versions }
    ensures { OnOk result (laid.new ≡ with_objects laid.old (dim_objects 0 dims.now (cells_of piece.now))) }
{
    for dim in 0..dims.len() {
        let place = dim as u8;
        let bytes = coords_object(alloc, dims[dim].ty, place, piece)?;
        let part = Part::Dim(place);
        laid.lay(PartBytes { part, bytes }, &[])?;
    }
    Ok(())
}

// Lays the values of each attribute, and which of them are there.
#[tactic(auto, using(crate::proofs::LayLaws::attrs_more, crate::proofs::LayLaws::attrs_all))]
fn lay_attrs(
    alloc: Global,
    laid: &mut Laid,
    tile: u32,
    attrs: &[Attr],
    piece: &BatchPiece,
) -> Result<(), OutOfMemory>
    requires tile { 1 ≤ tile }
    requires few { length attrs.now ≤ 64 }
    requires fits { ValuesFit attrs.now piece.now.versions }
    ensures { OnOk result (laid.new ≡ with_objects laid.old (attr_objects tile 0 attrs.now (cells_of piece.now))) }
{
    for place in 0..attrs.len() {
        lay_attr(alloc, laid, tile, place as u8, &attrs[place], piece)?;
    }
    Ok(())
}

// Lays the values of an attribute, and which of them are there.
fn lay_attr(
    alloc: Global,
    laid: &mut Laid,
    tile: u32,
    place: u8,
    attr: &Attr,
    piece: &BatchPiece,
) -> Result<(), OutOfMemory>
    requires tile { 1 ≤ tile }
    requires fits { All (λ (v : AnyVersion). FitsValue attr.now (get_or v.row place val.Null)) piece.now.versions }
    ensures { OnOk result (laid.new ≡ with_objects (with_objects laid.old (fixed_objects (is_integer attr.now.ty) tile place attr.now.ty (value_column place (cells_of piece.now)))) (validity_objects attr.now.nullable place (value_column place (cells_of piece.now)))) }
{
    if attr.ty.is_integer() {
        lay_numbers(alloc, laid, place, attr, piece)?;
    } else {
        lay_texts(alloc, laid, tile, place, piece)?;
    }
    lay_validity(alloc, laid, place, attr.nullable, piece)
}

// Lays the values of an attribute that are integers.
#[tactic(auto, using(crate::proofs::LayLaws::numbers_laid, crate::proofs::FitLaws::numbers_at))]
fn lay_numbers(
    alloc: Global,
    laid: &mut Laid,
    place: u8,
    attr: &Attr,
    piece: &BatchPiece,
) -> Result<(), OutOfMemory>
    requires integer { is_integer attr.now.ty ≡ true }
    requires fits { All (λ (v : AnyVersion). FitsValue attr.now (get_or v.row place val.Null)) piece.now.versions }
    ensures { OnOk result (laid.new ≡ with_objects laid.old (numbers_object place attr.now.ty (value_column place (cells_of piece.now)) ∷ [])) }
{
    let bytes = numbers_object(alloc, attr.ty, place, piece)?;
    let part = Part::Attr(place);
    laid.lay(PartBytes { part, bytes }, &[])
}

// Lays the values of an attribute that are byte lists: where each starts, and then all bytes.
#[tactic(auto, using(crate::proofs::LayLaws::texts_laid))]
fn lay_texts(
    alloc: Global,
    laid: &mut Laid,
    tile: u32,
    place: u8,
    piece: &BatchPiece,
) -> Result<(), OutOfMemory>
    requires tile { 1 ≤ tile }
    ensures { OnOk result (laid.new ≡ with_objects laid.old (starts_object tile place (value_column place (cells_of piece.now)) ∷ bytes_object tile place (value_column place (cells_of piece.now)) ∷ [])) }
{
    let objects = text_objects(alloc, tile, place, piece)?;
    let part = Part::Attr(place);
    let bytes = objects.starts;
    laid.lay(PartBytes { part, bytes }, &[])?;
    let part = Part::Var(place);
    let bytes = objects.bytes;
    laid.lay(PartBytes { part, bytes }, objects.tiles.as_slice())
}

// Lays which values of an attribute are there, where there may be nulls.
#[tactic(auto, using(crate::proofs::LayLaws::validity_laid))]
fn lay_validity(
    alloc: Global,
    laid: &mut Laid,
    place: u8,
    nullable: bool,
    piece: &BatchPiece,
) -> Result<(), OutOfMemory>
    ensures { OnOk result (laid.new ≡ with_objects laid.old (validity_objects nullable place (value_column place (cells_of piece.now)))) }
{
    if !nullable {
        return Ok(());
    }
    let bytes = validity_object(alloc, place, piece)?;
    let part = Part::Validity(place);
    laid.lay(PartBytes { part, bytes }, &[])
}

// Lays which write each cell is of, where the fragment is a consolidated one.
#[tactic(auto, using(crate::proofs::LayLaws::origins_laid))]
fn lay_origins(alloc: Global, laid: &mut Laid, piece: &BatchPiece) -> Result<(), OutOfMemory>
    requires { NamesWrites piece.now }
    ensures { OnOk result (laid.new ≡ with_objects laid.old (origin_objects piece.now.head.consolidated (cells_of piece.now))) }
{
    if !piece.head().consolidated {
        return Ok(());
    }
    let bytes = origins_object(alloc, &piece.head().origins, piece)?;
    let part = Part::Origin;
    laid.lay(PartBytes { part, bytes }, &[])
}
