//! The values of a column as bytes, all at once.
ghost use Rattle.std.specs.Prelude.{◌≡◌, ◌<◌, ◌∷◌, [], length, map, slice_index_or, IfOk};
ghost use Rattle.std.specs.List.{flat_map};
ghost use Rattle.ts_base.specs.declared.values.Val.TheVariants as val;
ghost use Rattle.ts_wire.specs.Fields.{bool_bytes};
ghost use Rattle.ts_wire.specs.Numbers.{number_bytes, int_bytes};
ghost use Rattle.ts_table.specs.Texts.{joined, starts_from};
ghost use Rattle.ts_column.specs.Spelled.{number_of, text_of};
ghost use Rattle.ts_column.specs.Tiles.{is_there};

use byteorder::{ByteOrder, LittleEndian};
use std::alloc::Global;
use ts_base::{ByteList, OutOfMemory};
use ts_table::{Column, Seen};

/// The integers of the values in one byte each, those of nulls as 0.
#[tactic(auto, using(crate::proofs::Written::numbers))]
pub(crate) fn write_1(alloc: Global, column: &Column) -> Result<ByteList, OutOfMemory>
    ensures { IfOk result (λ bytes. bytes ≡ flat_map (int_bytes 1) (map number_of column.now)) }
{
    let mut bytes = Vec::with_capacity(alloc, column.len().saturating_mul(1) as usize)?;
    for place in 0..column.len() {
        bytes.extend_from_slice(&word_1(number_at(column, place)))?;
    }
    Ok(ByteList::from_vec(bytes))
}

/// The integers of the values in 2 bytes each, those of nulls as 0.
#[tactic(auto, using(crate::proofs::Written::numbers))]
pub(crate) fn write_2(alloc: Global, column: &Column) -> Result<ByteList, OutOfMemory>
    ensures { IfOk result (λ bytes. bytes ≡ flat_map (int_bytes 2) (map number_of column.now)) }
{
    let mut bytes = Vec::with_capacity(alloc, column.len().saturating_mul(2) as usize)?;
    for place in 0..column.len() {
        bytes.extend_from_slice(&word_2(number_at(column, place)))?;
    }
    Ok(ByteList::from_vec(bytes))
}

/// The integers of the values in 4 bytes each, those of nulls as 0.
#[tactic(auto, using(crate::proofs::Written::numbers))]
pub(crate) fn write_4(alloc: Global, column: &Column) -> Result<ByteList, OutOfMemory>
    ensures { IfOk result (λ bytes. bytes ≡ flat_map (int_bytes 4) (map number_of column.now)) }
{
    let mut bytes = Vec::with_capacity(alloc, column.len().saturating_mul(4) as usize)?;
    for place in 0..column.len() {
        bytes.extend_from_slice(&word_4(number_at(column, place)))?;
    }
    Ok(ByteList::from_vec(bytes))
}

/// The integers of the values in 8 bytes each, those of nulls as 0.
#[tactic(auto, using(crate::proofs::Written::numbers))]
pub(crate) fn write_8(alloc: Global, column: &Column) -> Result<ByteList, OutOfMemory>
    ensures { IfOk result (λ bytes. bytes ≡ flat_map (int_bytes 8) (map number_of column.now)) }
{
    let mut bytes = Vec::with_capacity(alloc, column.len().saturating_mul(8) as usize)?;
    for place in 0..column.len() {
        bytes.extend_from_slice(&word_8(number_at(column, place)))?;
    }
    Ok(ByteList::from_vec(bytes))
}

// The integer of the value at a place, 0 where it has none.
#[tactic(auto, using(crate::proofs::Written::get_there))]
fn number_at(column: &Column, place: u64) -> i128
    requires { place < length column.now }
    ensures { result ≡ number_of (slice_index_or column.now place val.Null) }
{
    match column.at(place) {
        Seen::Int(number) => number,
        Seen::Null | Seen::Bytes(_) => 0,
    }
}

// The lowest byte of an integer.
#[tactic(auto, unfolding(ts_wire::specs::Numbers::int_bytes, ts_wire::specs::Numbers::number_bytes))]
fn word_1(n: i128) -> [u8; 1]
    ensures { result ≡ int_bytes 1 n }
{
    [(n.cast_unsigned() % (1 << 8)) as u8]
}

// The lowest 2 bytes of an integer, the lowest first.
#[tactic(auto, unfolding(ts_wire::specs::Numbers::int_bytes, ts_wire::specs::Numbers::number_bytes))]
fn word_2(n: i128) -> [u8; 2]
    ensures { result ≡ int_bytes 2 n }
{
    let mut word = [0; 2];
    LittleEndian::write_u16(&mut word, (n.cast_unsigned() % (1 << 16)) as u16);
    word
}

// The lowest 4 bytes of an integer, the lowest first.
#[tactic(auto, unfolding(ts_wire::specs::Numbers::int_bytes, ts_wire::specs::Numbers::number_bytes))]
fn word_4(n: i128) -> [u8; 4]
    ensures { result ≡ int_bytes 4 n }
{
    let mut word = [0; 4];
    LittleEndian::write_u32(&mut word, (n.cast_unsigned() % (1 << 32)) as u32);
    word
}

// The lowest 8 bytes of an integer, the lowest first.
#[tactic(auto, unfolding(ts_wire::specs::Numbers::int_bytes, ts_wire::specs::Numbers::number_bytes))]
fn word_8(n: i128) -> [u8; 8]
    ensures { result ≡ int_bytes 8 n }
{
    let mut word = [0; 8];
    LittleEndian::write_u64(&mut word, (n.cast_unsigned() % (1 << 64)) as u64);
    word
}

/// Where the bytes of each value start, in eight bytes each, and the bytes of all values. Nulls have
/// none.
#[tactic(auto, using(crate::proofs::Written::texts))]
pub(crate) fn write_texts(
    alloc: Global,
    column: &Column,
) -> Result<(ByteList, ByteList), OutOfMemory>
    ensures starts { IfOk result (λ parts. parts.0 ≡ flat_map (number_bytes 8) (starts_from 0 (map text_of column.now))) }
    ensures bytes { IfOk result (λ parts. parts.1 ≡ joined (map text_of column.now)) }
{
    let mut starts = Vec::with_capacity(alloc, column.len().saturating_mul(8) as usize)?;
    let mut bytes = ByteList::new(alloc);
    for place in 0..column.len() {
        starts.extend_from_slice(&start_word(bytes.len()))?;
        bytes.append(text_at(column, place))?;
    }
    Ok((ByteList::from_vec(starts), bytes))
}

// The bytes of the value at a place, none where it is no text.
#[tactic(auto, using(crate::proofs::Written::get_there))]
fn text_at(column: &Column, place: u64) -> &[u8]
    requires { place < length column.now }
    ensures { result.now ≡ text_of (slice_index_or column.now place val.Null) }
{
    match column.at(place) {
        Seen::Bytes(bytes) => bytes,
        Seen::Null | Seen::Int(_) => &[],
    }
}

// A start in eight bytes, the lowest first.
#[tactic(auto, unfolding(ts_wire::specs::Numbers::number_bytes))]
fn start_word(start: u64) -> [u8; 8]
    ensures { result ≡ number_bytes 8 start }
{
    let mut word = [0; 8];
    LittleEndian::write_u64(&mut word, start);
    word
}

/// For each value whether it is there.
#[tactic(auto, using(crate::proofs::Written::marks))]
pub(crate) fn write_marks(alloc: Global, column: &Column) -> Result<ByteList, OutOfMemory>
    ensures { IfOk result (λ bytes. bytes ≡ flat_map bool_bytes (map is_there column.now)) }
{
    let mut marks = Vec::with_capacity(alloc, column.len() as usize)?;
    for place in 0..column.len() {
        marks.push(mark_at(column, place))?;
    }
    Ok(ByteList::from_vec(marks))
}

// The mark of the value at a place: 0 where it is null, else 1.
#[tactic(auto, using(crate::proofs::Written::get_there), unfolding(ts_wire::specs::Fields::bool_bytes, ts_wire::specs::Numbers::number_bytes))]
fn mark_at(column: &Column, place: u64) -> u8
    requires { place < length column.now }
    ensures { bool_bytes (is_there (slice_index_or column.now place val.Null)) ≡ result ∷ [] }
{
    match column.at(place) {
        Seen::Null => 0,
        Seen::Int(_) | Seen::Bytes(_) => 1,
    }
}
