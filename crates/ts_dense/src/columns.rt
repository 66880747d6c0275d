//! The objects of columns, over slots.
ghost use Rattle.std.specs.Prelude.{◌≡◌, ◌<◌, ◌^◌, [], true, length, map, IfOk};
ghost use Rattle.std.specs.List.{flat_map};
ghost use Rattle.std.specs.List.Sorted.{IsStrictlySortedBy};
ghost use Rattle.std.specs.Option.{IfSome};
ghost use Rattle.ts_base.specs.Keys.{key_cmp};
ghost use Rattle.ts_base.specs.Values.{width_of, is_integer};
ghost use Rattle.ts_base.specs.declared.heads.Version.{Version as AnyVersion};
ghost use Rattle.ts_wire.specs.declared.kinds.Kind.TheVariants as kind;
ghost use Rattle.ts_wire.specs.Envelope.{wrapped};
ghost use Rattle.ts_wire.specs.Fields.{bool_bytes};
ghost use Rattle.ts_wire.specs.Numbers.{number_bytes, int_bytes};
ghost use Rattle.ts_column.specs.Spelled.{number_of, text_of};
ghost use Rattle.ts_column.specs.Tiles.{is_there};
ghost use Rattle.ts_plain.specs.Writes.{HasPlace};
ghost use Rattle.ts_dense.specs.Laying.{held, value_in, values_along, origin_in, origins_along, NamedIn, NumbersFit};

use crate::slots::{SlotCells, Slots};
use std::alloc::Global;
use ts_base::{ByteList, KeyList, OutOfMemory, ValType};
use ts_batch::BatchCell;
use ts_column::is_signed;
use ts_plain::place_of;
use ts_table::Texts;
use ts_wire::{Kind, Scribe};

// What stands for the origin of a slot without a cell.
const NO_ORIGIN: u32 = 4_294_967_295;

// A scribe with room for so many bytes for each slot.
fn room_for(
    alloc: Global,
    slots: &[Option<BatchCell<'_>>],
    width: u8,
) -> Result<Scribe, OutOfMemory>
    ensures { IfOk result (λ scribe. scribe ≡ []) }
{
    let mut scribe = Scribe::new(alloc);
    let count = slots.len() as u64;
    scribe.reserve(count.saturating_mul(u64::from(width)))?;
    Ok(scribe)
}

// The integer that is stored for the value of an attribute: 0 for a null and in a hole.
fn number_in(slot: &Option<BatchCell<'_>>, attr: u8) -> i128
    ensures { result ≡ number_of (value_in attr slot.now) }
{
    match slot {
        Some(version) => ts_sparse::number_of(version, attr),
        None => 0,
    }
}

/// The object of the values of an attribute that are integers, of which each takes the width of the type.
pub(crate) fn numbers_object(
    alloc: Global,
    ty: ValType,
    attr: u8,
    slots: &Slots<'_>,
) -> Result<ByteList, OutOfMemory>
    requires integer { is_integer ty ≡ true }
    requires fits { NumbersFit ty attr (held slots.now) }
    ensures { IfOk result (λ bytes. bytes ≡ wrapped kind.Column (flat_map (int_bytes (width_of ty)) (map number_of (values_along attr (held slots.now))))) }
{
    match &slots.cells {
        SlotCells::Full => ts_sparse::numbers_object(alloc, ty, attr, slots.piece),
        SlotCells::Holed(cells) => holed_numbers(alloc, ty, attr, cells.as_slice()),
    }
}

// The object of integers of slots, some of which may be holes.
#[tactic(auto, using(ts_sparse::proofs::Widths::width_is))]
fn holed_numbers(
    alloc: Global,
    ty: ValType,
    attr: u8,
    slots: &[Option<BatchCell<'_>>],
) -> Result<ByteList, OutOfMemory>
    requires integer { is_integer ty ≡ true }
    requires fits { NumbersFit ty attr slots.now }
    ensures { IfOk result (λ bytes. bytes ≡ wrapped kind.Column (flat_map (int_bytes (width_of ty)) (map number_of (values_along attr slots.now)))) }
{
    let mut scribe = room_for(alloc, slots, ty.width())?;
    for slot in slots {
        scribe.int(ty.width(), is_signed(ty), number_in(slot, attr))?;
    }
    scribe.into_object(Kind::Column)
}

// Whether a slot has a value of an attribute that is no null.
fn is_there(slot: &Option<BatchCell<'_>>, attr: u8) -> bool
    ensures { result ≡ is_there (value_in attr slot.now) }
{
    match slot {
        Some(version) => ts_sparse::is_there(version, attr),
        None => false,
    }
}

/// The object that tells of each slot whether its value of an attribute is there: one byte each.
pub(crate) fn validity_object(
    alloc: Global,
    attr: u8,
    slots: &Slots<'_>,
) -> Result<ByteList, OutOfMemory>
    ensures { IfOk result (λ bytes. bytes ≡ wrapped kind.Column (flat_map bool_bytes (map is_there (values_along attr (held slots.now))))) }
{
    match &slots.cells {
        SlotCells::Full => ts_sparse::validity_object(alloc, attr, slots.piece),
        SlotCells::Holed(cells) => holed_validity(alloc, attr, cells.as_slice()),
    }
}

// The object of marks of slots, some of which may be holes.
fn holed_validity(
    alloc: Global,
    attr: u8,
    slots: &[Option<BatchCell<'_>>],
) -> Result<ByteList, OutOfMemory>
    ensures { IfOk result (λ bytes. bytes ≡ wrapped kind.Column (flat_map bool_bytes (map is_there (values_along attr slots.now)))) }
{
    let mut scribe = room_for(alloc, slots, 1)?;
    for slot in slots {
        scribe.bool(is_there(slot, attr))?;
    }
    scribe.into_object(Kind::Column)
}

// The bytes that are stored for the value of an attribute: none for a null and in a hole.
fn text_in<'a>(slot: &Option<BatchCell<'a>>, attr: u8) -> &'a [u8]
    ensures { result.now ≡ text_of (value_in attr slot.now) }
{
    match slot {
        Some(version) => ts_sparse::text_of(version, attr),
        None => &[],
    }
}

/// The values of an attribute that are byte lists, a null and a hole as the empty one.
pub(crate) fn texts_of(alloc: Global, attr: u8, slots: &Slots<'_>) -> Result<Texts, OutOfMemory>
    ensures { IfOk result (λ texts. texts ≡ map text_of (values_along attr (held slots.now))) }
{
    match &slots.cells {
        SlotCells::Full => ts_sparse::texts_of(alloc, attr, slots.piece),
        SlotCells::Holed(cells) => holed_texts(alloc, attr, cells.as_slice()),
    }
}

// The byte lists of slots, some of which may be holes.
fn holed_texts(
    alloc: Global,
    attr: u8,
    slots: &[Option<BatchCell<'_>>],
) -> Result<Texts, OutOfMemory>
    ensures { IfOk result (λ texts. texts ≡ map text_of (values_along attr slots.now)) }
{
    let mut texts = Texts::new(alloc);
    for slot in slots {
        texts.push(text_in(slot, attr))?;
    }
    Ok(texts)
}

// Which write the cell of a slot is of: its place among the origins.
fn origin_in(origins: &KeyList, slot: &Option<BatchCell<'_>>) -> u32
    requires few { length origins.now < 2 ^ 32 }
    requires ascend { IsStrictlySortedBy key_cmp origins.now }
    requires known { IfSome slot.now (λ (v : AnyVersion). HasPlace origins.now v.key) }
    ensures { result ≡ origin_in origins.now slot.now }
{
    match slot {
        Some(version) => place_of(origins, version.key()),
        None => NO_ORIGIN,
    }
}

/// The object that tells of each slot which write laid its cell, in four bytes.
pub(crate) fn origins_object(alloc: Global, slots: &Slots<'_>) -> Result<ByteList, OutOfMemory>
    requires few { length slots.now.origins.now < 2 ^ 32 }
    requires ascend { IsStrictlySortedBy key_cmp slots.now.origins.now }
    requires known { NamedIn slots.now.origins.now (held slots.now) }
    ensures { IfOk result (λ bytes. bytes ≡ wrapped kind.Column (flat_map (number_bytes 4) (origins_along slots.now.origins.now (held slots.now)))) }
{
    match &slots.cells {
        SlotCells::Full => ts_sparse::origins_object(alloc, slots.origins, slots.piece),
        SlotCells::Holed(cells) => holed_origins(alloc, slots.origins, cells.as_slice()),
    }
}

// The object of origins of slots, some of which may be holes.
fn holed_origins(
    alloc: Global,
    origins: &KeyList,
    slots: &[Option<BatchCell<'_>>],
) -> Result<ByteList, OutOfMemory>
    requires few { length origins.now < 2 ^ 32 }
    requires ascend { IsStrictlySortedBy key_cmp origins.now }
    requires known { NamedIn origins.now slots.now }
    ensures { IfOk result (λ bytes. bytes ≡ wrapped kind.Column (flat_map (number_bytes 4) (origins_along origins.now slots.now))) }
{
    let mut scribe = room_for(alloc, slots, 4)?;
    for slot in slots {
        scribe.u32(origin_in(origins, slot))?;
    }
    scribe.into_object(Kind::Column)
}
