//! Building the parts of a dense fragment.
ghost use Rattle.std.specs.Prelude.{◌≡◌, ◌≤◌, ◌<◌, ◌^◌, ◌∷◌, [], true, length, All, IfOk, OnOk};
ghost use Rattle.std.specs.List.Sorted.{IsStrictlySortedBy};
ghost use Rattle.ts_base.specs.Keys.{key_cmp};
ghost use Rattle.ts_base.specs.Values.{is_integer};
ghost use Rattle.ts_base.specs.declared.heads.Version.{Version as AnyVersion};
ghost use Rattle.ts_schema.specs.Parts.{look_in};
ghost use Rattle.ts_plain.specs.Writes.{hulled_for, NamesWrites};
ghost use Rattle.ts_sparse.specs.Laying.{with_objects, none_laid};
ghost use Rattle.ts_sparse.specs.Sparse.{value_column, numbers_object, validity_objects, origin_objects};
ghost use Rattle.ts_dense.specs.Dense.{starts_object, bytes_object, fixed_objects, attr_objects, parts_of, FitsDense, IsDense};
ghost use Rattle.ts_dense.specs.Laying.{held, slot_cells, slot_objects, NamedIn, ValuesFit, ValuesFitOne};

use crate::columns::{numbers_object, origins_object, texts_of, validity_object};
use crate::metadata::meta_object;
use crate::slots::{Slots, slots_of};
use crate::starts::{starts_object, tile_starts};
use std::alloc::Global;
use ts_base::{LengthList, OutOfMemory, Part, PartBytes, PartList};
use ts_piece::BatchPiece;
use ts_schema::{Attr, Frame, Schema};
use ts_sparse::Laid;
use ts_wire::{Kind, wrap};

/// The parts of a dense fragment, in the order in which they are put and in the layout of FORMATS.md,
/// "The dense fragment in tiles". See the TileDB format specification, "Fragment".
///
/// First come of each attribute its values, and where they may be null which of them are there, and then
/// the writes of a consolidated fragment's cells. The metadata is last. Coordinates are not stored.
///
/// The tiles are the space tiles that meet the hull, each cut to it, in tile order. The cells of each
/// stand in cell order. A consolidated fragment may lack cells of its hull. Such a cell is spelled as 0,
/// as no bytes and as null, and 2^32 - 1 stands for its origin.
///
/// The versions have to name their writes, as [`ts_plain::write_plain`] asks too, and the piece has to be
/// one that a dense fragment of the array can store. There is no error but want of memory.
///
/// The parts spell the piece where its versions are all in the schema of its head (`spelled`).
#[tactic(auto, using(crate::proofs::PartLaws::all_parts_built, crate::proofs::PartLaws::built_spells))]
pub fn build(
    alloc: Global,
    frame: &Frame,
    schema: &Schema,
    piece: &BatchPiece,
) -> Result<PartList, OutOfMemory>
    requires names { NamesWrites piece.now }
    requires fits { FitsDense frame.now schema.now.attrs piece.now.head.frag (hulled_for piece.now) }
    ensures parts { IfOk result (λ parts. parts ≡ parts_of frame.now schema.now.attrs (hulled_for piece.now)) }
    ensures spelled { All (λ (v : AnyVersion). v.schema ≡ piece.now.head.schema) piece.now.versions → IfOk result (λ parts. IsDense frame.now schema.now piece.now (look_in parts)) }
{
    let head = piece.head();
    let slots = slots_of(alloc, frame, schema, piece)?;
    let tiles = slots.counts.len() as u32;
    let laid = lay_columns(alloc, schema, head.consolidated, &slots)?;
    let Laid { mut parts, sizes } = laid;
    let bytes = meta_object(alloc, head, tiles, sizes.as_slice())?;
    // No object has 2^64 bytes.
    let _size = bytes.len();
    parts.push(PartBytes {
        part: Part::Meta,
        bytes,
    })?;
    Ok(parts)
}

// Lays the objects of all columns.
fn lay_columns(
    alloc: Global,
    schema: &Schema,
    consolidated: bool,
    slots: &Slots<'_>,
) -> Result<Laid, OutOfMemory>
    requires few_attrs { length schema.now.attrs ≤ 64 }
    requires fits { ValuesFit schema.now.attrs (held slots.now) }
    requires few { length slots.now.origins.now < 2 ^ 32 }
    requires ascend { IsStrictlySortedBy key_cmp slots.now.origins.now }
    requires known { NamedIn slots.now.origins.now (held slots.now) }
    ensures { IfOk result (λ laid. laid ≡ with_objects none_laid (slot_objects schema.now.attrs consolidated slots.now)) }
{
    let mut laid = Laid {
        parts: PartList::new(alloc),
        sizes: LengthList::new(alloc),
    };
    lay_attrs(alloc, &mut laid, schema.attrs.as_slice(), slots)?;
    lay_origins(alloc, &mut laid, consolidated, slots)?;
    Ok(laid)
}

// Lays the values of each attribute, and which of them are there.
fn lay_attrs(
    alloc: Global,
    laid: &mut Laid,
    attrs: &[Attr],
    slots: &Slots<'_>,
) -> Result<(), OutOfMemory>
    requires few { length attrs.now ≤ 64 }
    requires fits { ValuesFit attrs.now (held slots.now) }
    ensures { OnOk result (laid.new ≡ with_objects laid.old (attr_objects slots.now.counts 0 attrs.now (slot_cells slots.now))) }
{
    for place in 0..attrs.len() {
        lay_attr(alloc, laid, place as u8, &attrs[place], slots)?;
    }
    Ok(())
}

// Lays the values of an attribute, and which of them are there.
fn lay_attr(
    alloc: Global,
    laid: &mut Laid,
    place: u8,
    attr: &Attr,
    slots: &Slots<'_>,
) -> Result<(), OutOfMemory>
    requires { ValuesFitOne attr.now place (held slots.now) }
    ensures { OnOk result (laid.new ≡ with_objects (with_objects laid.old (fixed_objects (is_integer attr.now.ty) slots.now.counts place attr.now.ty (value_column place (slot_cells slots.now)))) (validity_objects attr.now.nullable place (value_column place (slot_cells slots.now)))) }
{
    if attr.ty.is_integer() {
        lay_numbers(alloc, laid, place, attr, slots)?;
    } else {
        lay_texts(alloc, laid, place, slots)?;
    }
    lay_validity(alloc, laid, place, attr.nullable, slots)
}

// Lays the values of an attribute that are integers.
#[tactic(auto, using(crate::proofs::SlotFits::numbers_fit))]
fn lay_numbers(
    alloc: Global,
    laid: &mut Laid,
    place: u8,
    attr: &Attr,
    slots: &Slots<'_>,
) -> Result<(), OutOfMemory>
    requires integer { is_integer attr.now.ty ≡ true }
    requires fits { ValuesFitOne attr.now place (held slots.now) }
    ensures { OnOk result (laid.new ≡ with_objects laid.old (numbers_object place attr.now.ty (value_column place (slot_cells slots.now)) ∷ [])) }
{
    let bytes = numbers_object(alloc, attr.ty, place, slots)?;
    let part = Part::Attr(place);
    laid.lay(PartBytes { part, bytes }, &[])
}

// Lays the values of an attribute that are byte lists: where each starts, and then all bytes.
#[tactic(auto, using(crate::proofs::TileStarts::texts_room))]
fn lay_texts(
    alloc: Global,
    laid: &mut Laid,
    place: u8,
    slots: &Slots<'_>,
) -> Result<(), OutOfMemory>
    ensures { OnOk result (laid.new ≡ with_objects laid.old (starts_object slots.now.counts place (value_column place (slot_cells slots.now)) ∷ bytes_object slots.now.counts place (value_column place (slot_cells slots.now)) ∷ [])) }
{
    let counts = slots.counts.as_slice();
    let texts = texts_of(alloc, place, slots)?;
    let bytes = starts_object(alloc, counts, &texts)?;
    let part = Part::Attr(place);
    laid.lay(PartBytes { part, bytes }, &[])?;
    let bytes = wrap(alloc, Kind::Column, texts.bytes())?;
    // No object has 2^64 bytes, so where its tiles start has room in eight.
    let _size = bytes.len();
    let starts = tile_starts(alloc, counts, &texts)?;
    let part = Part::Var(place);
    laid.lay(PartBytes { part, bytes }, starts.as_slice())
}

// Lays which values of an attribute are there, where there may be nulls.
fn lay_validity(
    alloc: Global,
    laid: &mut Laid,
    place: u8,
    nullable: bool,
    slots: &Slots<'_>,
) -> Result<(), OutOfMemory>
    ensures { OnOk result (laid.new ≡ with_objects laid.old (validity_objects nullable place (value_column place (slot_cells slots.now)))) }
{
    if !nullable {
        return Ok(());
    }
    let bytes = validity_object(alloc, place, slots)?;
    let part = Part::Validity(place);
    laid.lay(PartBytes { part, bytes }, &[])
}

// Lays which write each cell is of, where the fragment is a consolidated one.
fn lay_origins(
    alloc: Global,
    laid: &mut Laid,
    consolidated: bool,
    slots: &Slots<'_>,
) -> Result<(), OutOfMemory>
    requires few { length slots.now.origins.now < 2 ^ 32 }
    requires ascend { IsStrictlySortedBy key_cmp slots.now.origins.now }
    requires known { NamedIn slots.now.origins.now (held slots.now) }
    ensures { OnOk result (laid.new ≡ with_objects laid.old (origin_objects consolidated (slot_cells slots.now))) }
{
    if !consolidated {
        return Ok(());
    }
    let bytes = origins_object(alloc, slots)?;
    let part = Part::Origin;
    laid.lay(PartBytes { part, bytes }, &[])
}
