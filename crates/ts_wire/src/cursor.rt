//! Reading fields one after another.
ghost use Rattle.std.specs.Prelude.{◌≡◌, ℕ, ◌+◌, ◌^◌, ◌<◌, length, IfOk, IfSome, OnOk, OnSome, IsTrue};
ghost use Rattle.ts_wire.specs.Place.{place, bytes_at};
ghost use Rattle.ts_wire.specs.Numbers.{number_at, int_at, is_width};
ghost use Rattle.ts_wire.specs.Laws.{AreFields};
ghost use Rattle.ts_wire.specs.Fields.{bool_at, label_at, key_at, val_at, untagged_at};
ghost use Rattle.ts_wire.specs.Reading.{Gives, GivesOr, GivesSome, ReadsSome, IsEnd};

use crate::faults::{Damaged, ReadFault};
use crate::spelling::{signed_of, unsigned_of};
use byteorder::{ByteOrder, LittleEndian};
use std::alloc::Global;
use std::marker::Model;
use ts_base::{ByteList, Key, Label, OutOfMemory, Val};

/// A place in an object that is being read: the bytes from there on, and the offset of the first
/// of them from the object's start.
///
/// Each call reads one field and moves behind it. A field that is broken or cut gives [`Damaged`]
/// with the field's offset, and the cursor stays at the field's start. So it does where there is
/// no memory for the value.
#[derive(Debug, Drop)]
pub struct Cursor<'a> {
    rest: &'a [u8],
    at: u64,
}

impl<'a> Model for Cursor<'a> {
    ghost use Rattle.std.specs.Prelude.{◌+◌, ◌^◌, ◌<◌, length};
    ghost use Rattle.ts_wire.specs.Place.{Place, place};

    ghost Value = { Place };

    ghost view = { λ cursor. place cursor.rest.now cursor.at };

    ghost invariant = { λ cursor. cursor.at + length cursor.rest.now < 2 ^ 64 };
}

impl<'a> Cursor<'a> {
    /// A cursor before these bytes, whose first byte has this offset in the object.
    ///
    /// The clause `fields` says of each kind of field that it is read exactly as it is written.
    #[tactic(auto, using(crate::proofs::First::are_fields))]
    pub fn new(bytes: &'a [u8], base: u64) -> Cursor<'a>
        requires { base + length bytes.now < 2 ^ 64 }
        ensures is { result ≡ place bytes.now base }
        ensures fields { AreFields }
    {
        Cursor {
            rest: bytes,
            at: base,
        }
    }

    /// The offset, from the object's start, of the next byte.
    pub fn at(&self) -> u64
        ensures offset { result ≡ self.now.at }
        ensures bound { self.now.at + length self.now.rest < 2 ^ 64 }
    {
        self.at
    }

    /// The bytes from here on. The cursor stays.
    pub fn rest(&self) -> &'a [u8]
        ensures { result.now ≡ self.now.rest }
    {
        self.rest
    }

    /// The next bytes, so many as are asked for.
    pub fn bytes(&mut self, n: u64) -> Result<&'a [u8], Damaged>
        ensures reads { Gives (λ bytes. bytes.now) (bytes_at n) self.old self.new result }
        ensures moves { OnOk result (self.new.at ≡ self.old.at + n) }
    {
        if self.rest.len() as u64 >= n {
            let (bytes, rest) = self.rest.split_at(n as usize);
            self.rest = rest;
            self.at += n;
            Ok(bytes)
        } else {
            Err(self.damaged())
        }
    }

    // The fault of a field that begins here.
    fn damaged(&self) -> Damaged
        ensures { result.at ≡ self.now.at }
    {
        Damaged { at: self.at }
    }

    // Puts the cursor back to a field's start, and gives the field's fault.
    fn back_to(&mut self, start: &'a [u8], at: u64) -> Damaged
        requires { at + length start.now < 2 ^ 64 }
        ensures stands { self.new ≡ place start.now at }
        ensures fault { result.at ≡ at }
    {
        self.rest = start;
        self.at = at;
        self.damaged()
    }

    /// An unsigned number of one byte.
    #[tactic(auto, unfolding(crate::specs::Numbers::number_at))]
    pub fn u8(&mut self) -> Result<u8, Damaged>
        ensures reads { Gives (λ n. n) (number_at 1) self.old self.new result }
        ensures moves { OnOk result (self.new.at ≡ self.old.at + 1) }
    {
        let bytes = self.bytes(1)?;
        Ok(bytes[0])
    }

    /// An unsigned number of two bytes, the lowest first.
    #[tactic(auto, unfolding(crate::specs::Numbers::number_at))]
    pub fn u16(&mut self) -> Result<u16, Damaged>
        ensures reads { Gives (λ n. n) (number_at 2) self.old self.new result }
        ensures moves { OnOk result (self.new.at ≡ self.old.at + 2) }
    {
        let bytes = self.bytes(2)?;
        Ok(LittleEndian::read_u16(bytes))
    }

    /// An unsigned number of four bytes, the lowest first.
    #[tactic(auto, unfolding(crate::specs::Numbers::number_at))]
    pub fn u32(&mut self) -> Result<u32, Damaged>
        ensures reads { Gives (λ n. n) (number_at 4) self.old self.new result }
        ensures moves { OnOk result (self.new.at ≡ self.old.at + 4) }
    {
        let bytes = self.bytes(4)?;
        Ok(LittleEndian::read_u32(bytes))
    }

    /// An unsigned number of eight bytes, the lowest first.
    #[tactic(auto, unfolding(crate::specs::Numbers::number_at))]
    pub fn u64(&mut self) -> Result<u64, Damaged>
        ensures reads { Gives (λ n. n) (number_at 8) self.old self.new result }
        ensures moves { OnOk result (self.new.at ≡ self.old.at + 8) }
    {
        let bytes = self.bytes(8)?;
        Ok(LittleEndian::read_u64(bytes))
    }

    /// An unsigned number of sixteen bytes, the lowest first.
    #[tactic(auto, unfolding(crate::specs::Numbers::number_at))]
    fn u128(&mut self) -> Result<u128, Damaged>
        ensures reads { Gives (λ n. n) (number_at 16) self.old self.new result }
        ensures moves { OnOk result (self.new.at ≡ self.old.at + 16) }
    {
        let bytes = self.bytes(16)?;
        Ok(LittleEndian::read_u128(bytes))
    }

    /// A number of so many bytes, the lowest first, in two's complement where it is signed.
    ///
    /// The width is 1, 2, 4, 8 or 16 bytes, and only a signed number has 16.
    #[tactic(auto, using(crate::proofs::Numbers::width_bounds), unfolding(crate::specs::Numbers::int_at))]
    pub fn int(&mut self, width: u8, signed: bool) -> Result<i128, Damaged>
        requires { IsTrue (is_width width signed) }
        ensures reads { Gives (λ z. z) (int_at width signed) self.old self.new result }
        ensures moves { OnOk result (self.new.at ≡ self.old.at + width) }
    {
        let bytes = self.bytes(width as u64)?;
        if signed {
            Ok(signed_of(bytes, width))
        } else {
            Ok(unsigned_of(bytes, width) as i128)
        }
    }

    /// A bool: one byte that is 0 or 1.
    #[tactic(auto, unfolding(crate::specs::Fields::bool_at))]
    pub fn bool(&mut self) -> Result<bool, Damaged>
        ensures reads { Gives (λ b. b) bool_at self.old self.new result }
        ensures moves { OnOk result (self.new.at ≡ self.old.at + 1) }
    {
        let (start, at) = (self.rest, self.at);
        let byte = self.u8()?;
        if byte <= 1 {
            Ok(byte == 1)
        } else {
            Err(self.back_to(start, at))
        }
    }

    /// A label: one byte of length, and then its bytes.
    #[tactic(auto, unfolding(crate::specs::Fields::label_at))]
    pub fn label(&mut self) -> Result<Label, Damaged>
        ensures reads { Gives (λ label. label) label_at self.old self.new result }
        ensures moves { IfOk result (λ label. self.new.at ≡ self.old.at + (length label + 1)) }
    {
        let (start, at) = (self.rest, self.at);
        match self.label_parts() {
            Some(label) => Ok(label),
            None => Err(self.back_to(start, at)),
        }
    }

    #[tactic(auto, unfolding(crate::specs::Fields::label_at, crate::specs::Fields::sized_at))]
    fn label_parts(&mut self) -> Option<Label>
        ensures reads { GivesSome (λ label. label) label_at self.old self.new result }
        ensures moves { IfSome result (λ label. self.new.at ≡ self.old.at + (length label + 1)) }
    {
        let count = self.u8().ok()?;
        let text = self.bytes(count as u64).ok()?;
        Label::from_bytes(text)
    }

    /// A key: a timestamp in eight bytes, and an identifier in sixteen.
    #[tactic(auto, unfolding(crate::specs::Fields::key_at))]
    pub fn key(&mut self) -> Result<Key, Damaged>
        ensures reads { Gives (λ key. key) key_at self.old self.new result }
        ensures moves { OnOk result (self.new.at ≡ self.old.at + 24) }
    {
        let (start, at) = (self.rest, self.at);
        match self.key_parts() {
            Some(key) => Ok(key),
            None => Err(self.back_to(start, at)),
        }
    }

    #[tactic(auto, unfolding(crate::specs::Fields::key_at))]
    fn key_parts(&mut self) -> Option<Key>
        ensures reads { GivesSome (λ key. key) key_at self.old self.new result }
        ensures moves { OnSome result (self.new.at ≡ self.old.at + 24) }
    {
        let t = self.u64().ok()?;
        let id = self.u128().ok()?;
        Some(Key { t, id })
    }

    /// A value: null, an integer, or the bytes of a text or a blob.
    #[tactic(auto, unfolding(crate::specs::Fields::val_at))]
    pub fn val(&mut self, alloc: Global) -> Result<Val, ReadFault>
        ensures reads { GivesOr (λ val. val) val_at self.old self.new result }
        ensures moves { OnOk result (self.old.at < self.new.at) }
    {
        let (start, at) = (self.rest, self.at);
        match self.val_parts(alloc) {
            Ok(Some(val)) => Ok(val),
            Ok(None) => Err(ReadFault::Damaged(self.back_to(start, at))),
            Err(_) => {
                self.back_to(start, at);
                Err(ReadFault::OutOfMemory)
            }
        }
    }

    #[tactic(auto, unfolding(crate::specs::Fields::val_at))]
    fn val_parts(&mut self, alloc: Global) -> Result<Option<Val>, OutOfMemory>
        ensures reads { IfOk result (GivesSome (λ val. val) val_at self.old self.new) }
        ensures moves { IfOk result (λ found. OnSome found (self.old.at < self.new.at)) }
    {
        match self.u8() {
            Ok(0) => Ok(Some(Val::Null)),
            Ok(1) => Ok(self.int_val()),
            Ok(2) => self.bytes_val(alloc),
            _ => Ok(None),
        }
    }

    #[tactic(auto, unfolding(crate::specs::Numbers::int_at))]
    fn int_val(&mut self) -> Option<Val>
        ensures reads { ReadsSome (λ val. val) (untagged_at 1) self.old self.new result }
        ensures moves { OnSome result (self.old.at < self.new.at) }
    {
        let number = self.int(16, true).ok()?;
        Some(Val::Int(number))
    }

    #[tactic(auto, unfolding(crate::specs::Fields::sized_at))]
    fn bytes_val(&mut self, alloc: Global) -> Result<Option<Val>, OutOfMemory>
        ensures reads { IfOk result (ReadsSome (λ val. val) (untagged_at 2) self.old self.new) }
        ensures moves { IfOk result (λ found. OnSome found (self.old.at < self.new.at)) }
    {
        let Ok(count) = self.u64() else {
            return Ok(None);
        };
        let Ok(bytes) = self.bytes(count) else {
            return Ok(None);
        };
        let list = ByteList::of_bytes(alloc, bytes)?;
        Ok(Some(Val::Bytes(list)))
    }

    /// The end of what is to be read: nothing is left. The cursor stays.
    pub fn end(&mut self) -> Result<(), Damaged>
        ensures stays { self.new ≡ self.old }
        ensures ends { IsEnd self.old result }
    {
        if self.rest.is_empty() {
            Ok(())
        } else {
            Err(self.damaged())
        }
    }
}
