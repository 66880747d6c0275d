//! Objects: an envelope and a body.
ghost use Rattle.std.specs.Prelude.{◌≡◌, ℕ, ◌^◌, ◌<◌, List, length, IfOk, IsOkAnd, IsErrAnd};
ghost use Rattle.ts_wire.specs.Numbers.{constant_at};
ghost use Rattle.ts_wire.specs.Envelope.{kind_code, magic, envelope_bytes, wrapped, length_at, front_at, unwrapped, IsCut};
ghost use Rattle.ts_wire.specs.Reading.{Reads, Decodes};

use crate::cursor::Cursor;
use crate::faults::{Damaged, kept};
use crate::kinds::Kind;
use byteorder::{ByteOrder, LittleEndian};
use std::alloc::Global;
use ts_base::{ByteList, OutOfMemory};

// The text TDBU, as a number of four bytes, the lowest first.
const MAGIC: u32 = 0x5542_4454;

const VERSION: u8 = 1;

/// The object of this kind with this body: its envelope, and then the body.
///
/// The envelope has 14 bytes: the text `TDBU`, the kind in one byte, the version 1 in one byte, and
/// the length of the body in eight bytes, the lowest first.
#[tactic(auto, unfolding(crate::specs::Envelope::wrapped))]
pub fn wrap(alloc: Global, kind: Kind, body: &[u8]) -> Result<ByteList, OutOfMemory>
    ensures { IfOk result (λ object. object ≡ wrapped kind body.now) }
{
    let mut object = Vec::with_capacity(alloc, 14 + body.len())?;
    object.extend_from_slice(&envelope_of(kind, body.len() as u64))?;
    object.extend_from_slice(body)?;
    Ok(ByteList::from_vec(object))
}

// The envelope of a body of so many bytes.
#[tactic(auto, unfolding(crate::specs::Envelope::envelope_bytes, crate::specs::Numbers::number_bytes))]
pub(crate) fn envelope_of(kind: Kind, count: u64) -> [u8; 14]
    ensures { result ≡ envelope_bytes kind count }
{
    let mut envelope = *b"TDBU\0\0\0\0\0\0\0\0\0\0";
    envelope[4] = kind.code();
    envelope[5] = VERSION;
    LittleEndian::write_u64(&mut envelope[6..], count);
    envelope
}

/// The body of an object of this kind.
///
/// The object is damaged at 0 where the text is another, at 4 where the kind is, at 5 where the
/// version is, and at 6 where the length is not that of the bytes that follow it; and at the first
/// of these that the object ends within.
pub fn unwrap_body(kind: Kind, object: &[u8]) -> Result<&[u8], Damaged>
    ensures exact { Decodes (λ body. body.now) (unwrapped kind object.now) result }
    ensures found { IfOk result (λ body. object.now ≡ wrapped kind body.now) }
    ensures only { (body : List ℕ) → length body < 2 ^ 64 → object.now ≡ wrapped kind body → IsOkAnd result (λ found. found.now ≡ body) }
    ensures cut { (body : List ℕ) → length body < 2 ^ 64 → IsCut 14 (wrapped kind body) object.now → IsErrAnd result (λ damaged. damaged.at ≡ 6) }
{
    body_of(kind, object)
}

#[tactic(auto, unfolding(crate::specs::Envelope::unwrapped))]
fn body_of(kind: Kind, object: &[u8]) -> Result<&[u8], Damaged>
    ensures { Decodes (λ body. body.now) (unwrapped kind object.now) result }
{
    let mut cursor = Cursor::new(object, 0);
    read_front(kind, &mut cursor)?;
    read_length(&mut cursor)?;
    Ok(cursor.rest())
}

fn read_front(kind: Kind, cursor: &mut Cursor) -> Result<(), Damaged>
    ensures { Reads (λ _. (magic, (kind_code kind, 1))) (front_at kind) cursor.old cursor.new result }
{
    expect_magic(cursor)?;
    expect_byte(cursor, kind.code())?;
    expect_byte(cursor, VERSION)?;
    Ok(())
}

fn expect_magic(cursor: &mut Cursor) -> Result<(), Damaged>
    ensures { Reads (λ _. magic) (constant_at 4 magic) cursor.old cursor.new result }
{
    let at = cursor.at();
    let text = cursor.u32()?;
    kept(at, (), text == MAGIC)
}

fn expect_byte(cursor: &mut Cursor, byte: u8) -> Result<(), Damaged>
    ensures { Reads (λ _. byte) (constant_at 1 byte) cursor.old cursor.new result }
{
    let at = cursor.at();
    let found = cursor.u8()?;
    kept(at, (), found == byte)
}

fn read_length(cursor: &mut Cursor) -> Result<u64, Damaged>
    ensures { Reads (λ count. count) length_at cursor.old cursor.new result }
{
    let at = cursor.at();
    let count = cursor.u64()?;
    kept(at, count, count == cursor.rest().len() as u64)
}
