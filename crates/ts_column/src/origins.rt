//! The origins of the cells of a consolidated fragment.
ghost use Rattle.std.specs.Prelude.{◌≡◌, ◌<◌, [], Ok, length, All, IfOk};
ghost use Rattle.std.specs.List.{flat_map};
ghost use Rattle.ts_wire.specs.Numbers.{number_bytes};
ghost use Rattle.ts_wire.specs.Place.{items_at};
ghost use Rattle.ts_wire.specs.Reading.{Reads, ReadsOr, DecodesOr};
ghost use Rattle.ts_column.specs.Origins.{origin_at, origins_in, AreOrigins};

use crate::bytes::are_bytes;
use std::alloc::Global;
use ts_base::{ByteList, IndexList, OutOfMemory};
use ts_wire::{Cursor, Damaged, ReadFault, Scribe};

/// The origins of so many cells of a sparse fragment: the places of their writes in a table of
/// origins with so many entries, each in four bytes.
///
/// An index that is none of the table is broken.
pub fn decode_origins(
    alloc: Global,
    entries: u32,
    count: u64,
    bytes: &[u8],
) -> Result<IndexList, ReadFault>
    ensures decodes { DecodesOr (λ origins. origins) (origins_in entries count bytes.now) result }
    ensures spelled { IfOk result (AreOrigins entries count bytes.now) }
{
    are_bytes(bytes);
    read_origins(alloc, entries, count, bytes)
}

#[tactic(auto, unfolding(crate::specs::Origins::origins_in))]
fn read_origins(
    alloc: Global,
    entries: u32,
    count: u64,
    bytes: &[u8],
) -> Result<IndexList, ReadFault>
    ensures { DecodesOr (λ origins. origins) (origins_in entries count bytes.now) result }
{
    let mut cursor = Cursor::new(bytes, 0);
    let origins = read_each_origin(alloc, entries, count, &mut cursor)?;
    cursor.end()?;
    Ok(origins)
}

#[tactic(auto, using(ts_wire::proofs::Loop::items_loop))]
fn read_each_origin(
    alloc: Global,
    entries: u32,
    count: u64,
    cursor: &mut Cursor,
) -> Result<IndexList, ReadFault>
    ensures { ReadsOr (λ origins. origins) (items_at (λ _. origin_at entries) count []) cursor.old cursor.new result }
{
    let mut origins = IndexList::new(alloc);
    for place in 0..count {
        let origin = read_origin(entries, cursor)?;
        origins.push(origin)?;
    }
    Ok(origins)
}

#[tactic(auto, unfolding(crate::specs::Origins::origin_at))]
fn read_origin(entries: u32, cursor: &mut Cursor) -> Result<u32, Damaged>
    ensures { Reads (λ origin. origin) (origin_at entries) cursor.old cursor.new result }
{
    let at = cursor.at();
    let origin = cursor.u32()?;
    if origin < entries {
        Ok(origin)
    } else {
        Err(Damaged { at })
    }
}

/// The bytes of origins, as [`decode_origins`] reads them.
pub fn encode_origins(alloc: Global, entries: u32, origins: &[u32]) -> Result<ByteList, OutOfMemory>
    requires { All (λ origin. origin < entries) origins.now }
    ensures spells { IfOk result (λ bytes. bytes ≡ flat_map (number_bytes 4) origins.now) }
    ensures back { IfOk result (λ bytes. origins_in entries (length origins.now) bytes ≡ Ok origins.now) }
{
    write_origins(alloc, origins)
}

fn write_origins(alloc: Global, origins: &[u32]) -> Result<ByteList, OutOfMemory>
    ensures { IfOk result (λ bytes. bytes ≡ flat_map (number_bytes 4) origins.now) }
{
    let mut scribe = Scribe::new(alloc);
    for origin in origins {
        scribe.u32(*origin)?;
    }
    Ok(scribe.take())
}
