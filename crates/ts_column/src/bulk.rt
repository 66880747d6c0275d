//! Many integers at once.
ghost use Rattle.std.specs.Prelude.{◌≡◌, ◌/◌, ◌≤◌, ℤ, ◌≤ℤ◌, ◌↔◌, FitsSigned, pos, map, length, true, false, IfOk, IfSome, IsTrue, All};
ghost use Rattle.std.specs.Int.{w32};
ghost use Rattle.std.specs.Simd.{first_chunks};
ghost use Rattle.byteorder.specs.Endian.{little_number};
ghost use Rattle.ts_base.specs.Values.{is_integer, width_of};
ghost use Rattle.ts_column.specs.Tiles.{is_signed};
ghost use Rattle.ts_wire.specs.Numbers.{int_of};

use byteorder::{ByteOrder, LittleEndian};
use std::alloc::{AllocError, Global};

/// The signed integers of one byte that stand in the bytes one after the other.
pub(crate) fn read_i8s(alloc: Global, bytes: &[u8]) -> Result<Vec<i32>, AllocError>
    ensures { IfOk result (λ v. v.items ≡ map (int_of 1 true) (first_chunks 1 (length bytes.now / 1) bytes.now)) }
{
    let (chunks, _) = bytes.as_chunks::<1>();
    chunks.iter().map(i8_of).collect(alloc)
}

#[tactic(auto, using(crate::proofs::BulkLaws::signed_1))]
fn i8_of(bytes: &[u8; 1]) -> i32
    ensures { result ≡ int_of 1 true bytes.now }
{
    bytes[0].cast_signed() as i32
}

/// The signed integers of 2 bytes that stand in the bytes one after the other.
pub(crate) fn read_i16s(alloc: Global, bytes: &[u8]) -> Result<Vec<i32>, AllocError>
    ensures { IfOk result (λ v. v.items ≡ map (int_of 2 true) (first_chunks 2 (length bytes.now / 2) bytes.now)) }
{
    let (chunks, _) = bytes.as_chunks::<2>();
    chunks.iter().map(i16_of).collect(alloc)
}

#[tactic(auto, using(crate::proofs::BulkLaws::signed_2))]
fn i16_of(bytes: &[u8; 2]) -> i32
    ensures { result ≡ int_of 2 true bytes.now }
{
    LittleEndian::read_i16(bytes) as i32
}

/// The signed integers of 4 bytes that stand in the bytes one after the other.
pub(crate) fn read_i32s(alloc: Global, bytes: &[u8]) -> Result<Vec<i32>, AllocError>
    ensures { IfOk result (λ v. v.items ≡ map (int_of 4 true) (first_chunks 4 (length bytes.now / 4) bytes.now)) }
{
    let (chunks, _) = bytes.as_chunks::<4>();
    chunks.iter().map(i32_of).collect(alloc)
}

#[tactic(auto, using(crate::proofs::BulkLaws::signed_4))]
fn i32_of(bytes: &[u8; 4]) -> i32
    ensures { result ≡ int_of 4 true bytes.now }
{
    LittleEndian::read_i32(bytes)
}

/// The signed integers of 8 bytes that stand in the bytes one after the other.
pub(crate) fn read_i64s(alloc: Global, bytes: &[u8]) -> Result<Vec<i64>, AllocError>
    ensures { IfOk result (λ v. v.items ≡ map (int_of 8 true) (first_chunks 8 (length bytes.now / 8) bytes.now)) }
{
    let (chunks, _) = bytes.as_chunks::<8>();
    chunks.iter().map(i64_of).collect(alloc)
}

/// The signed integers of 8 bytes that stand in the bytes one after the other, or `None` if one does not
/// fit 32 bits.
pub(crate) fn read_short_i64s(alloc: Global, bytes: &[u8]) -> Result<Option<Vec<i32>>, AllocError>
    ensures { IfOk result (λ short. IfSome short (λ v. v.items ≡ map (int_of 8 true) (first_chunks 8 (length bytes.now / 8) bytes.now))) }
{
    let (chunks, _) = bytes.as_chunks::<8>();
    if !are_i64s_short(chunks) {
        return Ok(None);
    }
    Ok(Some(short_i64s(alloc, chunks)?))
}

// Whether each fits 32 bits. It goes on behind one that does not, so that several are tried in one step.
fn are_i64s_short(chunks: &[[u8; 8]]) -> bool
    ensures { IsTrue result → All (λ b. FitsSigned w32 (int_of 8 true b)) chunks.now }
{
    let mut all = true;
    for chunk in chunks {
        all &= is_i64_short(chunk);
    }
    all
}

fn is_i64_short(bytes: &[u8; 8]) -> bool
    ensures { IsTrue result ↔ FitsSigned w32 (int_of 8 true bytes.now) }
{
    i32::try_from(i64_of(bytes)).is_ok()
}

// The integers with these bytes, each of which fits 32 bits.
fn short_i64s(alloc: Global, chunks: &[[u8; 8]]) -> Result<Vec<i32>, AllocError>
    requires { All (λ b. FitsSigned w32 (int_of 8 true b)) chunks.now }
    ensures { IfOk result (λ v. v.items ≡ map (int_of 8 true) chunks.now) }
{
    chunks.iter().map(|chunk| short_i64(chunk)).collect(alloc)
}

fn short_i64(bytes: &[u8; 8]) -> i32
    requires { FitsSigned w32 (int_of 8 true bytes.now) }
    ensures { result ≡ int_of 8 true bytes.now }
{
    i64_of(bytes) as i32
}

#[tactic(auto, using(crate::proofs::BulkLaws::signed_8))]
fn i64_of(bytes: &[u8; 8]) -> i64
    ensures { result ≡ int_of 8 true bytes.now }
{
    LittleEndian::read_i64(bytes)
}

/// The unsigned integers of 8 bytes that stand in the bytes one after the other.
pub(crate) fn read_u64s(alloc: Global, bytes: &[u8]) -> Result<Vec<u64>, AllocError>
    ensures { IfOk result (λ v. v.items ≡ map (little_number 8) (first_chunks 8 (length bytes.now / 8) bytes.now)) }
{
    let (chunks, _) = bytes.as_chunks::<8>();
    chunks.iter().map(u64_of).collect(alloc)
}

fn u64_of(bytes: &[u8; 8]) -> u64
    ensures { result ≡ little_number 8 bytes.now }
{
    LittleEndian::read_u64(bytes)
}

/// The unsigned integers of one byte that stand in the bytes one after the other.
pub(crate) fn read_u8s(alloc: Global, bytes: &[u8]) -> Result<Vec<i32>, AllocError>
    ensures { IfOk result (λ v. v.items ≡ map (int_of 1 false) (first_chunks 1 (length bytes.now / 1) bytes.now)) }
{
    let (chunks, _) = bytes.as_chunks::<1>();
    chunks.iter().map(u8_of).collect(alloc)
}

fn u8_of(bytes: &[u8; 1]) -> i32
    ensures { result ≡ int_of 1 false bytes.now }
{
    bytes[0] as i32
}

/// The unsigned integers of 2 bytes that stand in the bytes one after the other.
pub(crate) fn read_u16s(alloc: Global, bytes: &[u8]) -> Result<Vec<i32>, AllocError>
    ensures { IfOk result (λ v. v.items ≡ map (int_of 2 false) (first_chunks 2 (length bytes.now / 2) bytes.now)) }
{
    let (chunks, _) = bytes.as_chunks::<2>();
    chunks.iter().map(u16_of).collect(alloc)
}

fn u16_of(bytes: &[u8; 2]) -> i32
    ensures { result ≡ int_of 2 false bytes.now }
{
    LittleEndian::read_u16(bytes) as i32
}

/// The unsigned integers of 4 bytes that stand in the bytes one after the other.
pub(crate) fn read_u32s(alloc: Global, bytes: &[u8]) -> Result<Vec<i64>, AllocError>
    ensures { IfOk result (λ v. v.items ≡ map (int_of 4 false) (first_chunks 4 (length bytes.now / 4) bytes.now)) }
{
    let (chunks, _) = bytes.as_chunks::<4>();
    chunks.iter().map(u32_of).collect(alloc)
}

/// The unsigned integers of 4 bytes that stand in the bytes one after the other, or `None` if one is not
/// below 2^31.
pub(crate) fn read_short_u32s(alloc: Global, bytes: &[u8]) -> Result<Option<Vec<i32>>, AllocError>
    ensures { IfOk result (λ short. IfSome short (λ v. v.items ≡ map (int_of 4 false) (first_chunks 4 (length bytes.now / 4) bytes.now))) }
{
    let (chunks, _) = bytes.as_chunks::<4>();
    if !are_u32s_short(chunks) {
        return Ok(None);
    }
    Ok(Some(short_u32s(alloc, chunks)?))
}

// Whether each is below 2^31. It goes on behind one that is not, so that several are tried in one step.
fn are_u32s_short(chunks: &[[u8; 4]]) -> bool
    ensures { IsTrue result → All (λ b. FitsSigned w32 (int_of 4 false b)) chunks.now }
{
    let mut all = true;
    for chunk in chunks {
        all &= is_u32_short(chunk);
    }
    all
}

fn is_u32_short(bytes: &[u8; 4]) -> bool
    ensures { IsTrue result ↔ FitsSigned w32 (int_of 4 false bytes.now) }
{
    i32::try_from(u32_of(bytes)).is_ok()
}

// The integers with these bytes, each of which is below 2^31.
fn short_u32s(alloc: Global, chunks: &[[u8; 4]]) -> Result<Vec<i32>, AllocError>
    requires { All (λ b. FitsSigned w32 (int_of 4 false b)) chunks.now }
    ensures { IfOk result (λ v. v.items ≡ map (int_of 4 false) chunks.now) }
{
    chunks.iter().map(|chunk| short_u32(chunk)).collect(alloc)
}

fn short_u32(bytes: &[u8; 4]) -> i32
    requires { FitsSigned w32 (int_of 4 false bytes.now) }
    ensures { result ≡ int_of 4 false bytes.now }
{
    u32_of(bytes) as i32
}

fn u32_of(bytes: &[u8; 4]) -> i64
    ensures { result ≡ int_of 4 false bytes.now }
{
    LittleEndian::read_u32(bytes) as i64
}
