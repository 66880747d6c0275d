//! The integers of a tile.
ghost use Rattle.std.specs.Prelude.{◌≡◌, ◌/◌, ◌++◌, ◌∷◌, [], false, true, int_le, pos, map, length, IsTrue, IfOk, OnOk};
ghost use Rattle.std.specs.List.{list_all};
ghost use Rattle.std.specs.Simd.{first_chunks};
ghost use Rattle.byteorder.specs.Endian.{little_number};
ghost use Rattle.ts_base.specs.Values.{is_integer, width_of};
ghost use Rattle.ts_wire.specs.Numbers.{int_of};
ghost use Rattle.ts_wire.specs.Reading.{DecodesOr};
ghost use Rattle.ts_column.specs.Tiles.{ints_in, is_signed};

use crate::bulk;
use byteorder::{ByteOrder, LittleEndian};
use std::alloc::Global;
use ts_base::{OutOfMemory, ValType};
use ts_table::{Integers, Numbers};
use ts_wire::{Damaged, ReadFault};

/// The integers of a type that bytes hold, all at once.
#[tactic(auto, using(crate::proofs::BulkLaws::ints_laws))]
pub(crate) fn read_numbers(
    alloc: Global,
    ty: ValType,
    count: u64,
    bytes: &[u8],
) -> Result<Numbers, ReadFault>
    requires { IsTrue (is_integer ty) }
    ensures { DecodesOr (λ numbers. numbers) (ints_in (width_of ty) (is_signed ty) count bytes.now) result }
{
    let width = u64::from(ty.width());
    let whole = bytes.len() as u64 / width;
    if whole < count {
        return Err(ReadFault::Damaged(Damaged { at: whole * width }));
    }
    if bytes.len() as u64 > count * width {
        return Err(ReadFault::Damaged(Damaged { at: count * width }));
    }
    match read_all(alloc, ty, bytes) {
        Ok(numbers) => Ok(numbers),
        Err(_) => Err(ReadFault::OutOfMemory),
    }
}

// The integers of a type that stand in the bytes.
fn read_all(alloc: Global, ty: ValType, bytes: &[u8]) -> Result<Numbers, OutOfMemory>
    requires { IsTrue (is_integer ty) }
    ensures { IfOk result (λ numbers. numbers ≡ map (int_of (width_of ty) (is_signed ty)) (first_chunks (width_of ty) (length bytes.now / width_of ty) bytes.now)) }
{
    match ty {
        ValType::I8 => Ok(Numbers::from_short(bulk::read_i8s(alloc, bytes)?)),
        ValType::I16 => Ok(Numbers::from_short(bulk::read_i16s(alloc, bytes)?)),
        ValType::I32 => Ok(Numbers::from_short(bulk::read_i32s(alloc, bytes)?)),
        ValType::I64 => read_i64s(alloc, bytes),
        ValType::U8 => Ok(Numbers::from_short(bulk::read_u8s(alloc, bytes)?)),
        ValType::U16 => Ok(Numbers::from_short(bulk::read_u16s(alloc, bytes)?)),
        ValType::U32 => read_u32s(alloc, bytes),
        ValType::U64 => read_u64s(alloc, bytes),
        ValType::Text | ValType::Blob => unreachable!(),
    }
}

// The signed integers of 8 bytes that stand in the bytes one after the other. They take 4 each where all
// fit 32 bits.
fn read_i64s(alloc: Global, bytes: &[u8]) -> Result<Numbers, OutOfMemory>
    ensures { IfOk result (λ numbers. numbers ≡ map (int_of 8 true) (first_chunks 8 (length bytes.now / 8) bytes.now)) }
{
    match bulk::read_short_i64s(alloc, bytes)? {
        Some(short) => Ok(Numbers::from_short(short)),
        None => Ok(Numbers::from_long(alloc, bulk::read_i64s(alloc, bytes)?)),
    }
}

// The unsigned integers of 4 bytes that stand in the bytes one after the other. They take 4 each where all
// are below 2^31, and otherwise 8.
fn read_u32s(alloc: Global, bytes: &[u8]) -> Result<Numbers, OutOfMemory>
    ensures { IfOk result (λ numbers. numbers ≡ map (int_of 4 false) (first_chunks 4 (length bytes.now / 4) bytes.now)) }
{
    match bulk::read_short_u32s(alloc, bytes)? {
        Some(short) => Ok(Numbers::from_short(short)),
        None => Ok(Numbers::from_long(alloc, bulk::read_u32s(alloc, bytes)?)),
    }
}

// The unsigned integers of 8 bytes that stand in the bytes one after the other. Where the highest
// bit of each is 0 they are the signed ones.
#[tactic(auto, using(crate::proofs::BulkLaws::same_unsigned))]
fn read_u64s(alloc: Global, bytes: &[u8]) -> Result<Numbers, OutOfMemory>
    ensures { IfOk result (λ numbers. numbers ≡ map (int_of 8 false) (first_chunks 8 (length bytes.now / 8) bytes.now)) }
{
    let signed = read_i64s(alloc, bytes)?;
    if has_no_negative(&signed) {
        return Ok(signed);
    }
    let (chunks, _) = bytes.as_chunks::<8>();
    read_wide(alloc, chunks)
}

// Whether no integer is negative. Where it says no, there may be none all the same.
fn has_no_negative(numbers: &Numbers) -> bool
    ensures { IsTrue result → IsTrue (list_all (λ x. int_le (pos 0) x) numbers.now) }
{
    match numbers.as_slice() {
        Some(Integers::Short(short)) => has_no_short_negative(short),
        Some(Integers::Long(long)) => has_no_long_negative(long),
        None => false,
    }
}

fn has_no_short_negative(numbers: &[i32]) -> bool
    ensures { result ≡ list_all (λ x. int_le (pos 0) x) numbers.now }
{
    numbers.iter().all(|x| *x >= 0)
}

fn has_no_long_negative(numbers: &[i64]) -> bool
    ensures { result ≡ list_all (λ x. int_le (pos 0) x) numbers.now }
{
    numbers.iter().all(|x| *x >= 0)
}

// The unsigned integers with these bytes.
fn read_wide(alloc: Global, chunks: &[[u8; 8]]) -> Result<Numbers, OutOfMemory>
    ensures { IfOk result (λ numbers. numbers ≡ map (int_of 8 false) chunks.now) }
{
    let mut numbers = Numbers::new(alloc);
    for chunk in chunks {
        push_wide(&mut numbers, chunk)?;
    }
    Ok(numbers)
}

// Appends the unsigned integer with these bytes.
fn push_wide(numbers: &mut Numbers, bytes: &[u8; 8]) -> Result<(), OutOfMemory>
    ensures { OnOk result (numbers.new ≡ numbers.old ++ int_of 8 false bytes.now ∷ []) }
{
    numbers.push(i128::from(LittleEndian::read_u64(bytes)))
}
