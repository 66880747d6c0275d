//! The texts and blobs of a tile.
ghost use Rattle.std.specs.Prelude.{◌≡◌, ℕ, ◌≤◌, ◌-◌, ◌&&◌, nat_le, nat_lt, true, [], Ok, map, length, take, drop, slice_index_or, false, ◌<◌, IsTrue, IfOk, IfSome};
ghost use Rattle.std.specs.List.{list_all};
ghost use Rattle.ts_base.specs.Values.{is_integer};
ghost use Rattle.ts_base.specs.declared.values.Val.TheVariants as val;
ghost use Rattle.ts_value.specs.Fits.{fits_of};
ghost use Rattle.ts_wire.specs.Place.{items_at};
ghost use Rattle.ts_wire.specs.Reading.{Reads, ReadsOr, Decodes, DecodesOr};
ghost use Rattle.ts_table.specs.Texts.{end_at, first_or, texts_in, RisesTo, IsTexts};
ghost use Rattle.ts_column.specs.Faults.{text_fault};
ghost use Rattle.ts_column.specs.Tiles.{last_of, may_follow, start_at, starts_in, texts_of};
ghost use Rattle.ts_column.specs.Starts.{AreStarts};

use crate::bulk;
use std::alloc::Global;
use ts_base::{CountList, OutOfMemory, ValType};
use ts_value::is_text;
use ts_wire::{Cursor, Damaged, ReadFault};

/// Where each of so many byte lists starts, of those that end here.
pub(crate) fn read_starts(
    alloc: Global,
    end: u64,
    count: u64,
    bytes: &[u8],
) -> Result<CountList, ReadFault>
    ensures reads { DecodesOr (λ starts. starts) (starts_in end count bytes.now) result }
    ensures rise { IfOk result (λ starts. AreStarts starts end count) }
{
    match read_sound_starts(alloc, end, count, bytes)? {
        Some(starts) => Ok(starts),
        None => read_each_start(alloc, end, count, bytes),
    }
}

// The starts, read all at once, or None if something about them is broken.
#[tactic(auto, using(crate::proofs::BulkStarts::bulk_starts))]
fn read_sound_starts(
    alloc: Global,
    end: u64,
    count: u64,
    bytes: &[u8],
) -> Result<Option<CountList>, OutOfMemory>
    ensures reads { IfOk result (λ sound. IfSome sound (λ starts. starts_in end count bytes.now ≡ Ok starts)) }
    ensures rise { IfOk result (λ sound. IfSome sound (λ starts. AreStarts starts end count)) }
{
    let length = bytes.len() as u64;
    if length % 8 != 0 || length / 8 != count {
        return Ok(None);
    }
    let starts = bulk::read_u64s(alloc, bytes)?;
    if is_first_zero(&starts) && do_rise(end, &starts) {
        Ok(Some(CountList::from_vec(starts)))
    } else {
        Ok(None)
    }
}

// Whether the first start is 0, if there is one.
fn is_first_zero(starts: &[u64]) -> bool
    ensures { IsTrue result → first_or starts.now 0 ≡ 0 }
{
    starts.is_empty() || starts[0] == 0
}

// Whether no start is above the next, nor the last above the end. It goes on behind one that is, so that
// several are tried in one step.
#[tactic(auto, using(crate::proofs::BulkStarts::rising))]
fn do_rise(end: u64, starts: &[u64]) -> bool
    ensures { IsTrue result → RisesTo starts.now end }
{
    let mut all = true;
    let mut before = 0;
    for start in starts {
        all &= before <= *start;
        before = *start;
    }
    all && before <= end
}

// The starts, read one by one.
#[tactic(auto, unfolding(crate::specs::Tiles::starts_in))]
fn read_each_start(
    alloc: Global,
    end: u64,
    count: u64,
    bytes: &[u8],
) -> Result<CountList, ReadFault>
    ensures reads { DecodesOr (λ starts. starts) (starts_in end count bytes.now) result }
    ensures rise { IfOk result (λ starts. AreStarts starts end count) }
{
    let mut cursor = Cursor::new(bytes, 0);
    let starts = read_all_starts(alloc, end, count, &mut cursor)?;
    cursor.end()?;
    Ok(starts)
}

#[tactic(auto, using(ts_wire::proofs::Loop::items_loop))]
fn read_all_starts(
    alloc: Global,
    end: u64,
    count: u64,
    cursor: &mut Cursor,
) -> Result<CountList, ReadFault>
    ensures reads { ReadsOr (λ starts. starts) (items_at (start_at end) count []) cursor.old cursor.new result }
    ensures rise { IfOk result (λ starts. AreStarts starts end count) }
{
    let mut starts = room_for(alloc, count, cursor.rest())?;
    for place in 0..count {
        let start = read_start(end, starts.as_slice(), cursor)?;
        starts.push(start)?;
    }
    Ok(starts)
}

// The list of no starts, with room for so many, but for no more than the bytes can hold. No clause says
// how much room there is.
fn room_for(alloc: Global, count: u64, bytes: &[u8]) -> Result<CountList, OutOfMemory>
    ensures { IfOk result (λ starts. starts ≡ []) }
{
    let most = bytes.len() as u64 / 8;
    let starts = Vec::with_capacity(alloc, count.min(most) as usize)?;
    Ok(CountList::from_vec(starts))
}

#[tactic(auto, unfolding(ts_wire::specs::Numbers::number_at))]
fn read_start(end: u64, front: &[u64], cursor: &mut Cursor) -> Result<u64, Damaged>
    ensures reads { Reads (λ start. start) (start_at end front.now) cursor.old cursor.new result }
    ensures follows { IfOk result (λ start. IsTrue (may_follow (last_of front.now) start && nat_le start end)) }
{
    let at = cursor.at();
    let start = cursor.u64()?;
    if may_follow(front, start) && start <= end {
        Ok(start)
    } else {
        Err(Damaged { at })
    }
}

#[tactic(auto, using(crate::proofs::Starts::lasts))]
fn may_follow(front: &[u64], start: u64) -> bool
    ensures { result ≡ may_follow (last_of front.now) start }
{
    let count = front.len();
    if count == 0 {
        start == 0
    } else {
        front[count - 1] <= start
    }
}

/// Whether the bytes hold the texts or blobs with these starts, and nothing else.
#[tactic(auto, using(crate::proofs::TextFaults::checks))]
pub(crate) fn check_texts(ty: ValType, starts: &[u64], bytes: &[u8]) -> Result<(), Damaged>
    requires kind { is_integer ty ≡ false }
    requires first { first_or starts.now 0 ≡ 0 }
    requires rise { RisesTo starts.now (length bytes.now) }
    ensures checks { Decodes (λ _. map val.Bytes (texts_in starts.now bytes.now)) (texts_of ty starts.now bytes.now) result }
    ensures whole { IfOk result (λ _. IsTexts starts.now bytes.now) }
{
    if starts.is_empty() && !bytes.is_empty() {
        return Err(Damaged { at: 0 });
    }
    match first_fault(ty, starts, bytes) {
        Some(at) => Err(Damaged { at }),
        None => Ok(()),
    }
}

// Where the first byte list begins that the type does not allow.
#[tactic(auto, using(crate::proofs::TextFaults::allowed))]
fn first_fault(ty: ValType, starts: &[u64], bytes: &[u8]) -> Option<u64>
    requires kind { is_integer ty ≡ false }
    requires rise { RisesTo starts.now (length bytes.now) }
    ensures { result ≡ text_fault ty starts.now bytes.now }
{
    if allows_every_part(ty, bytes) {
        None
    } else {
        sought_fault(ty, starts, bytes)
    }
}

// Whether each part of the bytes may stand under the type. Where it says no, each may all the same.
#[tactic(auto, using(crate::proofs::TextFaults::ascii_parts))]
fn allows_every_part(ty: ValType, bytes: &[u8]) -> bool
    ensures { IsTrue result → (start count : ℕ) → IsTrue (fits_of ty false (val.Bytes (take count (drop start bytes.now)))) }
{
    match ty {
        ValType::Text => are_ascii(bytes),
        ValType::Blob => true,
        _ => false,
    }
}

// Whether all bytes are ASCII. It goes on behind one that is not, so that several are tried in one step.
fn are_ascii(bytes: &[u8]) -> bool
    ensures { result ≡ list_all (λ b. nat_lt b 128) bytes.now }
{
    let mut all = true;
    for byte in bytes {
        all &= *byte < 128;
    }
    all
}

// Where the first byte list begins that the type does not allow, sought one by one.
#[tactic(auto, using(crate::proofs::TextFaults::faults))]
fn sought_fault(ty: ValType, starts: &[u64], bytes: &[u8]) -> Option<u64>
    requires kind { is_integer ty ≡ false }
    requires rise { RisesTo starts.now (length bytes.now) }
    ensures { result ≡ text_fault ty starts.now bytes.now }
{
    for place in 0..starts.len() {
        if !is_allowed(ty, starts, bytes, place) {
            return Some(starts[place]);
        }
    }
    None
}

// Whether the byte list at a place may stand under the type.
#[tactic(auto, using(crate::proofs::TextFaults::spans))]
fn is_allowed(ty: ValType, starts: &[u64], bytes: &[u8], place: usize) -> bool
    requires kind { is_integer ty ≡ false }
    requires rise { RisesTo starts.now (length bytes.now) }
    requires within { place < length starts.now }
    ensures { result ≡ fits_of ty false (val.Bytes (take (end_at starts.now place (length bytes.now) - slice_index_or starts.now place 0) (drop (slice_index_or starts.now place 0) bytes.now))) }
{
    let start = starts[place];
    let end = end_of(starts, place, bytes.len() as u64);
    let text = &bytes[start as usize..end as usize];
    match ty {
        ValType::Text => is_text(text),
        ValType::Blob => true,
        _ => unreachable!(),
    }
}

// Where the byte list at a place ends.
#[tactic(auto, using(ts_table::proofs::Spans::ends))]
fn end_of(starts: &[u64], place: usize, end: u64) -> u64
    requires { place < length starts.now }
    ensures { result ≡ end_at starts.now place end }
{
    let next = place + 1;
    if next < starts.len() {
        starts[next]
    } else {
        end
    }
}
