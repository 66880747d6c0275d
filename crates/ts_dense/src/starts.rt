//! Where byte lists start in their tiles, and where the tiles start.
ghost use Rattle.std.specs.Prelude.{◌≡◌, ◌≤◌, ◌<◌, ◌+◌, ◌-◌, ◌^◌, ◌++◌, min, length, take, drop, IfOk, OnOk};
ghost use Rattle.std.specs.List.{flat_map};
ghost use Rattle.ts_table.specs.Texts.{joined, starts_from};
ghost use Rattle.ts_wire.specs.declared.kinds.Kind.TheVariants as kind;
ghost use Rattle.ts_wire.specs.Envelope.{wrapped};
ghost use Rattle.ts_wire.specs.Numbers.{number_bytes};
ghost use Rattle.ts_sparse.specs.Tilings.{tile_starts, starts_in};
ghost use Rattle.ts_dense.specs.Slots.{tiles_by};

use std::alloc::Global;
use ts_base::{ByteList, LengthList, OutOfMemory};
use ts_table::Texts;
use ts_wire::{Kind, Scribe};

/// The object that tells of each byte list where it starts in the bytes of its tile, in eight bytes each.
/// The tiles have so many byte lists.
pub(crate) fn starts_object(
    alloc: Global,
    counts: &[u64],
    texts: &Texts,
) -> Result<ByteList, OutOfMemory>
    ensures { IfOk result (λ bytes. bytes ≡ wrapped kind.Column (flat_map (number_bytes 8) (starts_in (tiles_by counts.now texts.now)))) }
{
    // All byte lists together have less than 2^64 bytes.
    let _room = texts.bytes().len();
    let mut scribe = Scribe::new(alloc);
    scribe.reserve(texts.len().saturating_mul(8))?;
    write_starts(&mut scribe, counts, texts)?;
    scribe.into_object(Kind::Column)
}

fn write_starts(scribe: &mut Scribe, counts: &[u64], texts: &Texts) -> Result<(), OutOfMemory>
    requires { length (joined texts.now) < 2 ^ 64 }
    ensures { OnOk result (scribe.new ≡ scribe.old ++ flat_map (number_bytes 8) (starts_in (tiles_by counts.now texts.now))) }
{
    let mut first = 0u64;
    for count in counts {
        let end = end_of(texts, first, *count);
        write_tile(scribe, texts, first, end)?;
        first = end;
    }
    Ok(())
}

// Where a tile of so many byte lists ends.
fn end_of(texts: &Texts, first: u64, count: u64) -> u64
    requires { first ≤ length texts.now }
    ensures { result ≡ first + min count (length texts.now - first) }
{
    first + count.min(texts.len() - first)
}

// Writes where each byte list of a tile starts.
fn write_tile(scribe: &mut Scribe, texts: &Texts, first: u64, end: u64) -> Result<(), OutOfMemory>
    requires rises { first ≤ end }
    requires within { end ≤ length texts.now }
    requires few { length (joined texts.now) < 2 ^ 64 }
    ensures { OnOk result (scribe.new ≡ scribe.old ++ flat_map (number_bytes 8) (starts_from 0 (take (end - first) (drop first texts.now)))) }
{
    let mut at = 0u64;
    for place in first..end {
        scribe.u64(at)?;
        at += texts.at(place).len() as u64;
    }
    Ok(())
}

/// Where the bytes of each tile of byte lists start in the object that has them all, behind the 14 bytes
/// of its envelope. The tiles have so many byte lists.
pub(crate) fn tile_starts(
    alloc: Global,
    counts: &[u64],
    texts: &Texts,
) -> Result<LengthList, OutOfMemory>
    requires few { 14 + length (joined texts.now) < 2 ^ 64 }
    ensures { IfOk result (λ starts. starts ≡ tile_starts 14 (tiles_by counts.now texts.now)) }
{
    let mut starts = LengthList::new(alloc);
    let mut first = 0u64;
    let mut at = 14u64;
    for count in counts {
        let end = end_of(texts, first, *count);
        starts.push(at)?;
        at += tile_size(texts, first, end);
        first = end;
    }
    Ok(starts)
}

// How many bytes the byte lists of a tile have.
fn tile_size(texts: &Texts, first: u64, end: u64) -> u64
    requires rises { first ≤ end }
    requires within { end ≤ length texts.now }
    requires few { length (joined texts.now) < 2 ^ 64 }
    ensures { result ≡ length (joined (take (end - first) (drop first texts.now))) }
{
    let mut size = 0u64;
    for place in first..end {
        size += texts.at(place).len() as u64;
    }
    size
}
