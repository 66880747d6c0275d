//! The values that a read shows, one column for each attribute of the schema that holds.
ghost use Rattle.std.specs.Prelude.{◌≡◌, ◌∷◌, [], ◌++◌, map, IfOk, OnOk};
ghost use Rattle.ts_actor.specs.Known.{AreRising};
ghost use Rattle.ts_reader.specs.Deletes.{bindings_of};
ghost use Rattle.ts_reader.specs.Shown.{slot_val, slot_vals, version_val, version_vals};
ghost use Rattle.ts_reader.specs.Sources.{source_of, val_there};

use crate::bindings::Bindings;
use crate::sources::{Source, place_at, source_of};
use std::alloc::Global;
use ts_base::{OutOfMemory, ValType};
use ts_batch::BatchCell;
use ts_model::Reading;
use ts_schema::{Attr, SchemaList};
use ts_table::{Column, Kinds, Numbers, Seen, Texts};

/// The values of versions as they show through the schema that holds: of each of its attributes one
/// column.
pub(crate) fn vals_of(
    alloc: Global,
    reading: &Reading,
    schemas: &SchemaList,
    bindings: &Bindings,
    versions: &[BatchCell],
) -> Result<Vec<Column>, OutOfMemory>
    requires rise { AreRising schemas.now }
    requires are { bindings.now ≡ bindings_of reading.now schemas.now }
    ensures { IfOk result (λ columns. columns.items ≡ map (version_vals reading.now schemas.now versions.now) reading.now.current.attrs) }
{
    let mut columns = Vec::new(alloc);
    for attr in reading.current.attrs.as_slice() {
        let source = source_of(alloc, bindings, attr)?;
        columns.push(column_of(alloc, reading, schemas, &source, attr, versions)?)?;
    }
    Ok(columns)
}

// The values of an attribute.
fn column_of(
    alloc: Global,
    reading: &Reading,
    schemas: &SchemaList,
    source: &Source,
    attr: &Attr,
    versions: &[BatchCell],
) -> Result<Column, OutOfMemory>
    requires rise { AreRising schemas.now }
    requires are { source.now ≡ source_of (bindings_of reading.now schemas.now) attr.now }
    ensures { IfOk result (λ column. column ≡ version_vals reading.now schemas.now versions.now attr.now) }
{
    let bytes = bytes_of(reading, schemas, source, attr, versions);
    let mut column = with_room(alloc, attr.ty, versions.len(), bytes)?;
    for version in versions {
        push_version(&mut column, reading, schemas, source, attr, version)?;
    }
    Ok(column)
}

// How many bytes the values of an attribute of byte lists have together, but for fills. No clause says so:
// it is for room alone.
fn bytes_of(
    reading: &Reading,
    schemas: &SchemaList,
    source: &Source,
    attr: &Attr,
    versions: &[BatchCell],
) -> usize
    requires rise { AreRising schemas.now }
    requires are { source.now ≡ source_of (bindings_of reading.now schemas.now) attr.now }
{
    if attr.ty.is_integer() {
        return 0;
    }
    let mut bytes = 0usize;
    for version in versions {
        let place = place_at(reading, schemas, source, attr, version.schema());
        bytes = bytes.saturating_add(size_there(version, place));
    }
    bytes
}

// How many bytes the value at a place of a version's row has, 0 where it is no byte list.
fn size_there(version: &BatchCell, place: Option<u64>) -> usize {
    let Some(place) = place else {
        return 0;
    };
    match version.val(place) {
        Some(Seen::Bytes(bytes)) => bytes.len(),
        _ => 0,
    }
}

// The column of no values, with room for so many of a type, an integer in 4 bytes, and for so many bytes of
// byte lists. No clause says how much room there is.
fn with_room(alloc: Global, ty: ValType, count: usize, bytes: usize) -> Result<Column, OutOfMemory>
    ensures { IfOk result (λ column. column ≡ []) }
{
    let kinds = Kinds::new(alloc);
    if ty.is_integer() {
        let numbers = Numbers::from_short(Vec::with_capacity(alloc, count)?);
        return Ok(Column::of(kinds, numbers, Texts::new(alloc)));
    }
    let starts = Vec::with_capacity(alloc, count)?;
    let texts = Texts::of(starts, Vec::with_capacity(alloc, bytes)?);
    Ok(Column::of(kinds, Numbers::new(alloc), texts))
}

/// The values of versions in slots as they show through the schema that holds, and the fills where none
/// is: of each of its attributes one column.
pub(crate) fn slot_vals_of(
    alloc: Global,
    reading: &Reading,
    schemas: &SchemaList,
    bindings: &Bindings,
    slots: &[Option<BatchCell>],
) -> Result<Vec<Column>, OutOfMemory>
    requires rise { AreRising schemas.now }
    requires are { bindings.now ≡ bindings_of reading.now schemas.now }
    ensures { IfOk result (λ columns. columns.items ≡ map (slot_vals reading.now schemas.now slots.now) reading.now.current.attrs) }
{
    let mut columns = Vec::new(alloc);
    for attr in reading.current.attrs.as_slice() {
        let source = source_of(alloc, bindings, attr)?;
        columns.push(slot_column_of(alloc, reading, schemas, &source, attr, slots)?)?;
    }
    Ok(columns)
}

// The values of an attribute, and its fill where no version is.
fn slot_column_of(
    alloc: Global,
    reading: &Reading,
    schemas: &SchemaList,
    source: &Source,
    attr: &Attr,
    slots: &[Option<BatchCell>],
) -> Result<Column, OutOfMemory>
    requires rise { AreRising schemas.now }
    requires are { source.now ≡ source_of (bindings_of reading.now schemas.now) attr.now }
    ensures { IfOk result (λ column. column ≡ slot_vals reading.now schemas.now slots.now attr.now) }
{
    let mut column = Column::new(alloc);
    for slot in slots {
        push_slot(&mut column, reading, schemas, source, attr, slot)?;
    }
    Ok(column)
}

// The value of one slot more.
fn push_slot(
    column: &mut Column,
    reading: &Reading,
    schemas: &SchemaList,
    source: &Source,
    attr: &Attr,
    slot: &Option<BatchCell>,
) -> Result<(), OutOfMemory>
    requires rise { AreRising schemas.now }
    requires are { source.now ≡ source_of (bindings_of reading.now schemas.now) attr.now }
    ensures { OnOk result (column.new ≡ column.old ++ slot_val reading.now schemas.now attr.now slot.now ∷ []) }
{
    match slot {
        None => column.push(&attr.fill),
        Some(version) => push_version(column, reading, schemas, source, attr, version),
    }
}

/// The value of one version more.
pub(crate) fn push_version(
    column: &mut Column,
    reading: &Reading,
    schemas: &SchemaList,
    source: &Source,
    attr: &Attr,
    version: &BatchCell,
) -> Result<(), OutOfMemory>
    requires rise { AreRising schemas.now }
    requires are { source.now ≡ source_of (bindings_of reading.now schemas.now) attr.now }
    ensures { OnOk result (column.new ≡ column.old ++ version_val reading.now schemas.now attr.now version.now ∷ []) }
{
    let place = place_at(reading, schemas, source, attr, version.schema());
    push_there(column, version, place, attr)
}

// The value at a place of a version's row, or the attribute's fill where there is none.
fn push_there(
    column: &mut Column,
    version: &BatchCell,
    place: Option<u64>,
    attr: &Attr,
) -> Result<(), OutOfMemory>
    ensures { OnOk result (column.new ≡ column.old ++ val_there place version.now.row attr.now ∷ []) }
{
    let Some(place) = place else {
        return column.push(&attr.fill);
    };
    match version.val(place) {
        Some(seen) => column.push_seen(seen),
        None => column.push(&attr.fill),
    }
}
