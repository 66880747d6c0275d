//! What is left of versions once the deletes are over them.
ghost use Rattle.std.specs.Prelude.{◌≡◌, ◌∷◌, [], ◌++◌, cond, map, IfOk, OnOk};
ghost use Rattle.ts_model.specs.States.{is_erased_by};
ghost use Rattle.ts_reader.specs.Deletes.{bindings_of};
ghost use Rattle.ts_reader.specs.Left.{slot_left, versions_left};
ghost use Rattle.ts_actor.specs.Known.{AreRising};

use crate::bindings::{Bindings, binding_at, is_erased};
use crate::slots::SlotList;
use std::alloc::Global;
use ts_base::OutOfMemory;
use ts_batch::{BatchCell, BatchCellList};
use ts_model::Reading;
use ts_schema::SchemaList;

/// The versions that no delete erases.
pub(crate) fn versions_left<'a>(
    alloc: Global,
    reading: &Reading,
    schemas: &SchemaList,
    bindings: &Bindings,
    versions: BatchCellList<'a>,
) -> Result<BatchCellList<'a>, OutOfMemory>
    requires rise { AreRising schemas.now }
    requires are { bindings.now ≡ bindings_of reading.now schemas.now }
    ensures { IfOk result (λ left. left ≡ versions_left reading.now schemas.now versions.entry) }
{
    if reading.deletions.is_empty() {
        return Ok(versions);
    }
    unerased(alloc, reading, schemas, bindings, versions.as_slice())
}

// The versions that are not erased.
fn unerased<'a>(
    alloc: Global,
    reading: &Reading,
    schemas: &SchemaList,
    bindings: &Bindings,
    versions: &[BatchCell<'a>],
) -> Result<BatchCellList<'a>, OutOfMemory>
    requires rise { AreRising schemas.now }
    requires are { bindings.now ≡ bindings_of reading.now schemas.now }
    ensures { IfOk result (λ left. left ≡ versions_left reading.now schemas.now versions.now) }
{
    let mut left = BatchCellList::new(alloc);
    for version in versions {
        let erased = is_erased_by(reading, schemas, bindings, version);
        push_left(&mut left, version, erased)?;
    }
    Ok(left)
}

// One version more, unless it is erased.
fn push_left<'a>(
    left: &mut BatchCellList<'a>,
    version: &BatchCell<'a>,
    erased: bool,
) -> Result<(), OutOfMemory>
    ensures { OnOk result (left.new ≡ left.old ++ cond erased [] (version.now ∷ [])) }
{
    if erased {
        return Ok(());
    }
    left.push(version.again())
}

/// The versions in slots that no delete erases.
pub(crate) fn slots_left<'a>(
    alloc: Global,
    reading: &Reading,
    schemas: &SchemaList,
    bindings: &Bindings,
    slots: SlotList<'a>,
) -> Result<SlotList<'a>, OutOfMemory>
    requires rise { AreRising schemas.now }
    requires are { bindings.now ≡ bindings_of reading.now schemas.now }
    ensures { IfOk result (λ left. left ≡ map (slot_left reading.now schemas.now) slots.entry) }
{
    if reading.deletions.is_empty() {
        return Ok(slots);
    }
    unerased_slots(alloc, reading, schemas, bindings, slots.as_slice())
}

// The versions in slots that are not erased.
fn unerased_slots<'a>(
    alloc: Global,
    reading: &Reading,
    schemas: &SchemaList,
    bindings: &Bindings,
    slots: &[Option<BatchCell<'a>>],
) -> Result<SlotList<'a>, OutOfMemory>
    requires rise { AreRising schemas.now }
    requires are { bindings.now ≡ bindings_of reading.now schemas.now }
    ensures { IfOk result (λ left. left ≡ map (slot_left reading.now schemas.now) slots.now) }
{
    let mut left = SlotList::new(alloc);
    for slot in slots {
        left.push(slot_left(reading, schemas, bindings, slot))?;
    }
    Ok(left)
}

// The version in a slot, unless it is erased.
fn slot_left<'a>(
    reading: &Reading,
    schemas: &SchemaList,
    bindings: &Bindings,
    slot: &Option<BatchCell<'a>>,
) -> Option<BatchCell<'a>>
    requires rise { AreRising schemas.now }
    requires are { bindings.now ≡ bindings_of reading.now schemas.now }
    ensures { result ≡ slot_left reading.now schemas.now slot.now }
{
    match slot {
        None => None,
        Some(version) => {
            if is_erased_by(reading, schemas, bindings, version) {
                None
            } else {
                Some(version.again())
            }
        }
    }
}

// Whether a delete erases a version.
fn is_erased_by(
    reading: &Reading,
    schemas: &SchemaList,
    bindings: &Bindings,
    version: &BatchCell,
) -> bool
    requires rise { AreRising schemas.now }
    requires are { bindings.now ≡ bindings_of reading.now schemas.now }
    ensures { result ≡ is_erased_by reading.now schemas.now version.now }
{
    let binding = binding_at(reading, schemas, bindings, version.schema());
    is_erased(&reading.deletions, binding, version)
}
