//! Writing fields one after another.
ghost use Rattle.std.specs.Prelude.{◌≡◌, ◌+◌, ◌≤◌, ◌⊎◌, [], ◌++◌, length, drop, IsTrue, IfOk, OnOk, OnErr, vec_len, vec_capacity};
ghost use Rattle.ts_wire.specs.Numbers.{number_bytes, int_bytes, is_width, FitsInt};
ghost use Rattle.ts_wire.specs.Fields.{bool_bytes, label_bytes, key_bytes, val_bytes};
ghost use Rattle.ts_wire.specs.Envelope.{wrapped};

use crate::envelopes::envelope_of;
use crate::kinds::Kind;
use crate::spelling::{i128_bytes, u8_bytes, u16_bytes, u32_bytes, u64_bytes, u128_bytes};
use std::alloc::Global;
use std::marker::Model;
use ts_base::{ByteList, Key, Label, OutOfMemory, Val};

/// Bytes that are being written, field by field.
///
/// Each call appends the spelling of one field. Where there is no memory for it, the bytes are as
/// they were. Contracts see the bytes so far.
///
/// Behind the first field stands room for an envelope in front, so that the bytes are written where
/// an object will have them.
#[derive(Debug, Drop)]
pub struct Scribe {
    bytes: Vec<u8>,
}

impl Model for Scribe {
    ghost use Rattle.std.specs.Prelude.{List, ℕ, ◌≡◌, ◌≤◌, ◌⊎◌, [], length, drop};

    ghost Value = { List ℕ };

    ghost view = { λ scribe. drop 14 scribe.bytes.items };

    ghost invariant = { λ scribe. (scribe.bytes.items ≡ []) ⊎ (14 ≤ length scribe.bytes.items) };
}

impl Scribe {
    /// A scribe that has written nothing. It takes no memory.
    pub fn new(alloc: Global) -> Scribe
        ensures { result ≡ [] }
    {
        Scribe {
            bytes: Vec::new(alloc),
        }
    }

    /// Makes room for so many bytes more, so that these are written without a move of those before
    /// them.
    pub fn reserve(&mut self, count: u64) -> Result<(), OutOfMemory>
        ensures { self.new ≡ self.old }
    {
        make_front(&mut self.bytes)?;
        self.bytes.reserve(count as usize)?;
        Ok(())
    }

    /// What was written. It takes no memory.
    pub fn take(self) -> ByteList
        ensures { result ≡ self }
    {
        let Scribe { mut bytes } = self;
        without_front(&mut bytes);
        ByteList::from_vec(bytes)
    }

    /// The object of this kind whose body was written: its envelope, and then the body.
    ///
    /// It is what [`wrap`](crate::wrap) gives of the body, without another copy of it.
    #[tactic(auto, unfolding(crate::specs::Envelope::wrapped))]
    pub fn into_object(self, kind: Kind) -> Result<ByteList, OutOfMemory>
        ensures { IfOk result (λ object. object ≡ wrapped kind self) }
    {
        let Scribe { bytes: mut object } = self;
        make_front(&mut object)?;
        let count = object.len() as u64 - 14;
        put_front(object.as_mut_slice(), &envelope_of(kind, count));
        Ok(ByteList::from_vec(object))
    }

    /// Appends bytes as they are.
    #[tactic(auto, using(crate::proofs::Bodies::body_grows))]
    pub fn bytes(&mut self, bytes: &[u8]) -> Result<(), OutOfMemory>
        ensures ok { OnOk result (self.new ≡ self.old ++ bytes.now) }
        ensures err { OnErr result (self.new ≡ self.old) }
    {
        make_front(&mut self.bytes)?;
        self.bytes.extend_from_slice(bytes)?;
        Ok(())
    }

    // Appends three texts, one behind the other, or none of them.
    #[tactic(auto, using(crate::proofs::Bodies::body_grows))]
    fn texts(&mut self, first: &[u8], second: &[u8], third: &[u8]) -> Result<(), OutOfMemory>
        requires { length first.now + length second.now ≤ 32 }
        ensures ok { OnOk result (self.new ≡ self.old ++ (first.now ++ second.now ++ third.now)) }
        ensures err { OnErr result (self.new ≡ self.old) }
    {
        make_front(&mut self.bytes)?;
        self.bytes
            .reserve(first.len() + second.len() + third.len())?;
        put(&mut self.bytes, first);
        put(&mut self.bytes, second);
        put(&mut self.bytes, third);
        Ok(())
    }

    /// Appends an unsigned number of one byte.
    pub fn u8(&mut self, n: u8) -> Result<(), OutOfMemory>
        ensures ok { OnOk result (self.new ≡ self.old ++ number_bytes 1 n) }
        ensures err { OnErr result (self.new ≡ self.old) }
    {
        self.bytes(&u8_bytes(n))
    }

    /// Appends an unsigned number of two bytes, the lowest first.
    pub fn u16(&mut self, n: u16) -> Result<(), OutOfMemory>
        ensures ok { OnOk result (self.new ≡ self.old ++ number_bytes 2 n) }
        ensures err { OnErr result (self.new ≡ self.old) }
    {
        self.bytes(&u16_bytes(n))
    }

    /// Appends an unsigned number of four bytes, the lowest first.
    pub fn u32(&mut self, n: u32) -> Result<(), OutOfMemory>
        ensures ok { OnOk result (self.new ≡ self.old ++ number_bytes 4 n) }
        ensures err { OnErr result (self.new ≡ self.old) }
    {
        self.bytes(&u32_bytes(n))
    }

    /// Appends an unsigned number of eight bytes, the lowest first.
    pub fn u64(&mut self, n: u64) -> Result<(), OutOfMemory>
        ensures ok { OnOk result (self.new ≡ self.old ++ number_bytes 8 n) }
        ensures err { OnErr result (self.new ≡ self.old) }
    {
        self.bytes(&u64_bytes(n))
    }

    /// Appends a bool: one byte, 1 where it is true and 0 where it is false.
    #[tactic(auto, unfolding(crate::specs::Fields::bool_bytes))]
    pub fn bool(&mut self, value: bool) -> Result<(), OutOfMemory>
        ensures ok { OnOk result (self.new ≡ self.old ++ bool_bytes value) }
        ensures err { OnErr result (self.new ≡ self.old) }
    {
        self.u8(if value { 1 } else { 0 })
    }

    /// Appends a number of so many bytes, the lowest first, a negative one by two's complement.
    ///
    /// The width is 1, 2, 4, 8 or 16 bytes, and has room for the number: only a signed number has
    /// 16 bytes.
    #[tactic(auto, using(crate::proofs::Widths::widths), unfolding(crate::specs::Numbers::int_bytes))]
    pub fn int(&mut self, width: u8, signed: bool, n: i128) -> Result<(), OutOfMemory>
        requires width { IsTrue (is_width width signed) }
        requires fits { FitsInt width signed n }
        ensures ok { OnOk result (self.new ≡ self.old ++ int_bytes width n) }
        ensures err { OnErr result (self.new ≡ self.old) }
    {
        let bits = n.cast_unsigned();
        match width {
            1 => self.u8((bits % (1 << 8)) as u8),
            2 => self.u16((bits % (1 << 16)) as u16),
            4 => self.u32((bits % (1 << 32)) as u32),
            8 => self.u64((bits % (1 << 64)) as u64),
            _ => self.bytes(&i128_bytes(n)),
        }
    }

    /// Appends a label: one byte of length, and then its bytes.
    #[tactic(auto, using(crate::proofs::FieldLaws::label_short), unfolding(crate::specs::Fields::label_bytes, crate::specs::Fields::sized_bytes))]
    pub fn label(&mut self, label: &Label) -> Result<(), OutOfMemory>
        ensures ok { OnOk result (self.new ≡ self.old ++ label_bytes label.now) }
        ensures err { OnErr result (self.new ≡ self.old) }
    {
        let text = label.as_bytes();
        let count = text.len() as u8;
        self.texts(&[], &u8_bytes(count), text)
    }

    /// Appends a key: its timestamp in eight bytes, and its identifier in sixteen.
    #[tactic(auto, unfolding(crate::specs::Fields::key_bytes))]
    pub fn key(&mut self, key: Key) -> Result<(), OutOfMemory>
        ensures ok { OnOk result (self.new ≡ self.old ++ key_bytes key) }
        ensures err { OnErr result (self.new ≡ self.old) }
    {
        self.texts(&[], &u64_bytes(key.t), &u128_bytes(key.id))
    }

    /// Appends a value: its tag in one byte, and then an integer in sixteen bytes, or bytes behind
    /// their length in eight.
    #[tactic(auto, unfolding(crate::specs::Fields::val_bytes, crate::specs::Fields::sized_bytes))]
    pub fn val(&mut self, val: &Val) -> Result<(), OutOfMemory>
        ensures ok { OnOk result (self.new ≡ self.old ++ val_bytes val.now) }
        ensures err { OnErr result (self.new ≡ self.old) }
    {
        match val {
            Val::Null => self.u8(0),
            Val::Int(number) => { self.texts(&[], &u8_bytes(1), &i128_bytes(*number)) }
            Val::Bytes(list) => {
                let bytes = list.as_slice();
                self.texts(&u8_bytes(2), &u64_bytes(bytes.len() as u64), bytes)
            }
        }
    }
}

// Appends bytes for which there is room.
fn put(out: &mut Vec<u8>, piece: &[u8])
    requires { vec_len out.old + length piece.now ≤ vec_capacity out.old }
    ensures items { out.new.items ≡ out.old.items ++ piece.now }
    ensures len { vec_len out.new ≡ vec_len out.old + length piece.now }
    ensures capacity { vec_capacity out.old ≤ vec_capacity out.new }
{
    let _ = out.extend_from_slice(piece);
}

// Makes room for an envelope in front of bytes that have none.
fn make_front(bytes: &mut Vec<u8>) -> Result<(), OutOfMemory>
    requires { (bytes.old.items ≡ []) ⊎ (14 ≤ length bytes.old.items) }
    ensures room { OnOk result (14 ≤ length bytes.new.items) }
    ensures behind { OnOk result (drop 14 bytes.new.items ≡ drop 14 bytes.old.items) }
    ensures err { OnErr result (bytes.new.items ≡ bytes.old.items) }
{
    if bytes.is_empty() {
        bytes.extend_from_slice(&[0; 14])?;
    }
    Ok(())
}

// Takes the room for an envelope away.
fn without_front(bytes: &mut Vec<u8>)
    requires { (bytes.old.items ≡ []) ⊎ (14 ≤ length bytes.old.items) }
    ensures { bytes.new.items ≡ drop 14 bytes.old.items }
{
    if !bytes.is_empty() {
        bytes.as_mut_slice().rotate_left(14);
        bytes.truncate(bytes.len() - 14);
    }
}

// Writes a text over the front of another.
fn put_front(text: &mut [u8], front: &[u8])
    requires { length front.now ≤ length text.old }
    ensures { text.new ≡ front.now ++ drop (length front.now) text.old }
{
    text[..front.len()].copy_from_slice(front);
}
