//! Writing plain objects.
ghost use Rattle.std.specs.Prelude.{◌≡◌, ◌^◌, ◌<◌, ◌++◌, List, length, map, All, IfOk, OnOk};
ghost use Rattle.std.specs.List.{flat_map};
ghost use Rattle.std.specs.List.Sorted.{IsStrictlySortedBy};
ghost use Rattle.ts_base.specs.Keys.{key_cmp};
ghost use Rattle.ts_base.specs.declared.heads.Version.{Version as AnyVersion};
ghost use Rattle.ts_wire.specs.declared.kinds.Kind.TheVariants as kind;
ghost use Rattle.ts_wire.specs.Envelope.{wrapped};
ghost use Rattle.ts_wire.specs.Numbers.{int_bytes};
ghost use Rattle.ts_wire.specs.Fields.{val_bytes};
ghost use Rattle.ts_schema.specs.declared.attrs.Attr.{Attr as AnyAttr};
ghost use Rattle.ts_schema.specs.declared.frames.Frame.{Frame as AnyFrame};
ghost use Rattle.ts_plain.specs.Plain.{origins_bytes, hull_bytes, head_bytes, cell_bytes, plain_bytes};
ghost use Rattle.ts_plain.specs.Pieces.{IsPlainObject};
ghost use Rattle.ts_plain.specs.Writes.{HasPlain, place_of, HasPlace, sides_of, counting_head, stored_head, plain_head_for, stored_cell, stored_for, NamesWrites};

use std::alloc::Global;
use ts_base::{
    ByteList, Coords, Head, Key, KeyList, OutOfMemory, Piece, Row, Version, VersionList,
};
use ts_wire::{Kind, Scribe};

// How many bytes a coordinate takes, the place of an origin, and a value that is an integer.
const INT_BYTES: u64 = 16;

const PLACE_BYTES: u64 = 4;

const VAL_BYTES: u64 = 17;

/// The place of a key among origins, which ascend. It takes no memory.
pub fn place_of(origins: &KeyList, key: Key) -> u32
    requires few { length origins.now < 2 ^ 32 }
    requires ascend { IsStrictlySortedBy key_cmp origins.now }
    requires known { HasPlace origins.now key }
    ensures { result ≡ place_of origins.now key }
{
    match origins.as_slice().binary_search(&key) {
        Ok(place) => place as u32,
        Err(_) => unreachable!(),
    }
}

fn write_side(scribe: &mut Scribe, low: i128, high: i128) -> Result<(), OutOfMemory>
    ensures { OnOk result (scribe.new ≡ scribe.old ++ (int_bytes 16 low ++ int_bytes 16 high)) }
{
    scribe.int(16, true, low)?;
    scribe.int(16, true, high)
}

#[tactic(auto, using(crate::proofs::Corners::hull_loop))]
fn write_hull(scribe: &mut Scribe, low: &[i128], high: &[i128]) -> Result<(), OutOfMemory>
    requires { length high.now ≡ length low.now }
    ensures { OnOk result (scribe.new ≡ scribe.old ++ hull_bytes (sides_of low.now high.now)) }
{
    for dim in 0..low.len() {
        write_side(scribe, low[dim], high[dim])?;
    }
    Ok(())
}

#[tactic(auto, unfolding(crate::specs::Plain::origins_bytes))]
fn write_origins(scribe: &mut Scribe, origins: &KeyList) -> Result<(), OutOfMemory>
    requires { length origins.now < 2 ^ 32 }
    ensures { OnOk result (scribe.new ≡ scribe.old ++ origins_bytes origins.now) }
{
    scribe.u32(origins.len() as u32)?;
    for origin in origins.as_slice() {
        scribe.key(*origin)?;
    }
    Ok(())
}

// Writes what stands before the cells, where so many are told of.
#[tactic(auto, unfolding(crate::specs::Plain::head_bytes))]
fn write_counting_head(scribe: &mut Scribe, head: &Head, many: u64) -> Result<(), OutOfMemory>
    requires corners { length head.now.high ≡ length head.now.low }
    requires few { length head.now.origins < 2 ^ 32 }
    ensures { OnOk result (scribe.new ≡ scribe.old ++ head_bytes (counting_head head.now many)) }
{
    scribe.key(head.schema)?;
    scribe.bool(head.dense)?;
    scribe.bool(head.consolidated)?;
    write_hull(scribe, head.low.as_slice(), head.high.as_slice())?;
    scribe.u64(many)?;
    write_origins(scribe, &head.origins)
}

/// Writes what stands before the cells: the fields that all objects of fragments begin with. The number
/// of cells is the one that the head tells.
pub fn write_head(scribe: &mut Scribe, head: &Head) -> Result<(), OutOfMemory>
    requires corners { length head.now.high ≡ length head.now.low }
    requires few { length head.now.origins < 2 ^ 32 }
    ensures { OnOk result (scribe.new ≡ scribe.old ++ head_bytes (stored_head head.now)) }
{
    write_counting_head(scribe, head, head.cells)
}

/// Writes what stands before the cells of a piece, where the number of cells is that of the versions.
pub fn write_plain_head(scribe: &mut Scribe, piece: &Piece) -> Result<(), OutOfMemory>
    requires corners { length piece.now.head.high ≡ length piece.now.head.low }
    requires few { length piece.now.head.origins < 2 ^ 32 }
    ensures { OnOk result (scribe.new ≡ scribe.old ++ head_bytes (plain_head_for piece.now)) }
{
    write_counting_head(scribe, &piece.head, piece.versions.len())
}

fn write_coords(scribe: &mut Scribe, coords: &Coords) -> Result<(), OutOfMemory>
    ensures { OnOk result (scribe.new ≡ scribe.old ++ flat_map (int_bytes 16) coords.now) }
{
    for x in coords.as_slice() {
        scribe.int(16, true, *x)?;
    }
    Ok(())
}

fn write_row(scribe: &mut Scribe, row: &Row) -> Result<(), OutOfMemory>
    ensures { OnOk result (scribe.new ≡ scribe.old ++ flat_map val_bytes row.now) }
{
    for val in row.as_slice() {
        scribe.val(val)?;
    }
    Ok(())
}

#[tactic(auto, unfolding(crate::specs::Plain::cell_bytes))]
fn write_version(
    scribe: &mut Scribe,
    origins: &KeyList,
    version: &Version,
) -> Result<(), OutOfMemory>
    requires few { length origins.now < 2 ^ 32 }
    requires ascend { IsStrictlySortedBy key_cmp origins.now }
    requires known { HasPlace origins.now version.now.key }
    ensures { OnOk result (scribe.new ≡ scribe.old ++ cell_bytes (stored_cell origins.now version.now)) }
{
    write_coords(scribe, &version.coords)?;
    scribe.u32(place_of(origins, version.key))?;
    write_row(scribe, &version.row)
}

// Makes room for so many cells, as if each value were an integer. Where texts take more, it grows.
fn make_room(scribe: &mut Scribe, versions: &[Version]) -> Result<(), OutOfMemory>
    ensures { scribe.new ≡ scribe.old }
{
    let Some(first) = versions.first() else {
        return Ok(());
    };
    let coords = INT_BYTES * first.coords.len() as u64;
    let vals = first.row.len().saturating_mul(VAL_BYTES);
    let cell = vals.saturating_add(coords + PLACE_BYTES);
    let count = versions.len() as u64;
    scribe.reserve(count.saturating_mul(cell))
}

fn write_versions(
    scribe: &mut Scribe,
    origins: &KeyList,
    versions: &VersionList,
) -> Result<(), OutOfMemory>
    requires few { length origins.now < 2 ^ 32 }
    requires ascend { IsStrictlySortedBy key_cmp origins.now }
    requires known { All (λ (version : AnyVersion). HasPlace origins.now version.key) versions.now }
    ensures { OnOk result (scribe.new ≡ scribe.old ++ flat_map cell_bytes (map (stored_cell origins.now) versions.now)) }
{
    make_room(scribe, versions.as_slice())?;
    for version in versions.as_slice() {
        write_version(scribe, origins, version)?;
    }
    Ok(())
}

#[tactic(auto, unfolding(crate::specs::Plain::plain_bytes))]
fn write_piece(alloc: Global, piece: &Piece) -> Result<ByteList, OutOfMemory>
    requires { NamesWrites piece.now }
    ensures { IfOk result (λ bytes. bytes ≡ wrapped kind.Plain (plain_bytes (stored_for piece.now))) }
{
    let mut scribe = Scribe::new(alloc);
    write_plain_head(&mut scribe, piece)?;
    write_versions(&mut scribe, &piece.head.origins, &piece.versions)?;
    scribe.into_object(Kind::Plain)
}

/// The plain object of a piece, in the layout of FORMATS.md, "The plain fragment". The number of cells
/// in it is that of the versions, whatever the head of the piece tells.
///
/// The origins of the piece have to ascend and to be fewer than 2^32, each version's write to be among
/// them, and the corners of its box to have as many coordinates as one another. In each array and
/// schema where some plain object spells the piece, this is the one that does; of another piece the
/// bytes may be no object.
pub fn write_plain(alloc: Global, piece: &Piece) -> Result<ByteList, OutOfMemory>
    requires { NamesWrites piece.now }
    ensures stored { IfOk result (λ bytes. bytes ≡ wrapped kind.Plain (plain_bytes (stored_for piece.now))) }
    ensures spelled { (frame : AnyFrame) (attrs : List AnyAttr) → HasPlain frame attrs piece.now → IfOk result (IsPlainObject frame attrs piece.now) }
{
    write_piece(alloc, piece)
}
