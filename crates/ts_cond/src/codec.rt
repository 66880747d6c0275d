//! Conditions as objects.
ghost use Rattle.std.specs.Prelude.{◌≡◌, ◌<◌, ◌^◌, Ok, length, IfOk};
ghost use Rattle.ts_wire.specs.Envelope.{IsCut};
ghost use Rattle.ts_wire.specs.Reading.{DecodesOr, IsRead, IsDamagedAt};
ghost use Rattle.ts_cond.specs.CondTexts.{cond_bytes, cond_object, cond_of, IsCond};
ghost use Rattle.ts_cond.specs.Tests.{Condition};

use crate::bytes::has_length;
use crate::cond::Cond;
use crate::cond_reading::read_cond;
use crate::cond_writing::write_cond;
use std::alloc::Global;
use ts_base::{ByteList, OutOfMemory};
use ts_wire::ReadFault;

impl Cond {
    /// The object that spells the condition.
    ///
    /// It is read back where the condition is one that an object may have: from 1 to 72 fields with
    /// labels that differ, each named by the tree, in the order of their first names; values of the
    /// kinds of their fields; lists of two nodes or more; and the limits of height and size.
    pub fn encode(&self, alloc: Global) -> Result<ByteList, OutOfMemory>
        ensures spelled { IfOk result (λ object. object ≡ cond_object self.now) }
        ensures again { IfOk result (λ object. IsCond self.now → cond_of object ≡ Ok self.now) }
    {
        let object = write_cond(alloc, self)?;
        has_length(&object);
        Ok(object)
    }

    /// The condition that an object spells.
    ///
    /// The layout is that of the file FORMATS.md, "The delete condition". The answer is a condition
    /// exactly where the object is one that spells it. Else the offset is that of the first broken
    /// field. A tree that leaves a field unnamed is broken at its last index. A tree that is too
    /// high, or has too many nodes and values, is broken at the tag of the first node, or at the
    /// first value, that is too much.
    pub fn decode(alloc: Global, object: &[u8]) -> Result<Cond, ReadFault>
        ensures exact { DecodesOr (λ cond. cond) (cond_of object.now) result }
        ensures found { IfOk result (λ cond. IsCond cond × (object.now ≡ cond_object cond)) }
        ensures only { (c : Condition) → IsCond c → object.now ≡ cond_object c → IsRead (λ cond. cond) c result }
        ensures cut { (c : Condition) → length (cond_bytes c) < 2 ^ 64 → IsCut 14 (cond_object c) object.now → IsDamagedAt 6 result }
    {
        read_cond(alloc, object)
    }
}
