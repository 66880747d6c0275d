//! Numbers as bytes, the lowest first.
ghost use Rattle.std.specs.Prelude.{◌≡◌, pos, true, false, length, IsTrue};
ghost use Rattle.ts_wire.specs.Numbers.{number_bytes, int_bytes, int_of, is_width};

use byteorder::{ByteOrder, LittleEndian};

/// The byte of an unsigned number of one byte.
#[tactic(auto, using(crate::proofs::Numbers::one_byte), unfolding(crate::specs::Numbers::number_bytes))]
pub fn u8_bytes(n: u8) -> [u8; 1]
    ensures { result ≡ number_bytes 1 n }
{
    [n]
}

/// The bytes of an unsigned number of two bytes.
#[tactic(auto, unfolding(crate::specs::Numbers::number_bytes))]
pub fn u16_bytes(n: u16) -> [u8; 2]
    ensures { result ≡ number_bytes 2 n }
{
    let mut bytes = [0; 2];
    LittleEndian::write_u16(&mut bytes, n);
    bytes
}

/// The bytes of an unsigned number of four bytes.
#[tactic(auto, unfolding(crate::specs::Numbers::number_bytes))]
pub fn u32_bytes(n: u32) -> [u8; 4]
    ensures { result ≡ number_bytes 4 n }
{
    let mut bytes = [0; 4];
    LittleEndian::write_u32(&mut bytes, n);
    bytes
}

/// The bytes of an unsigned number of eight bytes.
#[tactic(auto, unfolding(crate::specs::Numbers::number_bytes))]
pub fn u64_bytes(n: u64) -> [u8; 8]
    ensures { result ≡ number_bytes 8 n }
{
    let mut bytes = [0; 8];
    LittleEndian::write_u64(&mut bytes, n);
    bytes
}

/// The bytes of an unsigned number of sixteen bytes.
#[tactic(auto, unfolding(crate::specs::Numbers::number_bytes))]
pub fn u128_bytes(n: u128) -> [u8; 16]
    ensures { result ≡ number_bytes 16 n }
{
    let mut bytes = [0; 16];
    LittleEndian::write_u128(&mut bytes, n);
    bytes
}

/// The bytes of a signed number of sixteen bytes, a negative one by two's complement.
#[tactic(auto, using(crate::proofs::Widths::whole_low), unfolding(crate::specs::Numbers::int_bytes))]
pub fn i128_bytes(n: i128) -> [u8; 16]
    ensures { result ≡ int_bytes 16 n }
{
    u128_bytes(n.cast_unsigned())
}

/// The number that 1, 2, 4 or 8 bytes stand for.
#[tactic(auto, using(crate::proofs::Widths::widths))]
pub fn unsigned_of(bytes: &[u8], width: u8) -> u64
    requires width { IsTrue (is_width width false) }
    requires count { length bytes.now ≡ width }
    ensures { pos result ≡ int_of width false bytes.now }
{
    match width {
        1 => u64::from(bytes[0]),
        2 => u64::from(LittleEndian::read_u16(bytes)),
        4 => u64::from(LittleEndian::read_u32(bytes)),
        _ => LittleEndian::read_u64(bytes),
    }
}

/// The number that 1, 2, 4, 8 or 16 bytes stand for by two's complement.
#[tactic(auto, using(crate::proofs::Widths::signs, crate::proofs::Widths::widths))]
pub fn signed_of(bytes: &[u8], width: u8) -> i128
    requires width { IsTrue (is_width width true) }
    requires count { length bytes.now ≡ width }
    ensures { result ≡ int_of width true bytes.now }
{
    match width {
        1 => i128::from(bytes[0].cast_signed()),
        2 => i128::from(LittleEndian::read_i16(bytes)),
        4 => i128::from(LittleEndian::read_i32(bytes)),
        8 => i128::from(LittleEndian::read_i64(bytes)),
        _ => LittleEndian::read_i128(bytes),
    }
}
