//! Schemas: the attributes of an array.
ghost use Rattle.std.specs.Prelude.{◌≡◌, ◌<◌, ◌^◌, ◌≤◌, List, length, IfOk};
ghost use Rattle.ts_wire.specs.Envelope.{IsCut};
ghost use Rattle.ts_wire.specs.Reading.{DecodesOr, IsRead, IsDamagedAt};
ghost use Rattle.std.specs.Result.{result_err};
ghost use Rattle.ts_schema.specs.declared.attrs.Attr.{Attr};
ghost use Rattle.ts_schema.specs.BrokenSchemas.{BreaksThere};
ghost use Rattle.ts_schema.specs.Evolutions.{evolved_attrs, evolution_fault, FailsAs};
ghost use Rattle.ts_schema.specs.Faults.{schema_fault};
ghost use Rattle.ts_schema.specs.SchemaTexts.{attrs_bytes, schema_object, schema_of, AreAttrs};

use crate::attrs::AttrList;
use crate::checking::schema_fault;
use crate::evolution::{Evolution, evolved_attrs, less_fault};
use crate::faults::SchemaFault;
use crate::frames::Frame;
use crate::schema_reading::read_schema;
use crate::schema_writing::write_schema;
use std::alloc::Global;
use ts_base::{ByteList, Duplicate, Key, OutOfMemory, Sequence};
use ts_wire::ReadFault;

/// A schema: the attributes that an array has from a timestamp on. See the TileDB format
/// specification, "Array Schema".
#[derive(Clone, Debug, Drop, PartialEq, Eq)]
pub struct Schema {
    /// The key, whose timestamp is the one from which on the schema holds.
    pub key: Key,
    /// The attributes, in the order in which rows have their values.
    pub attrs: AttrList,
}

/// A list of schemas.
pub type SchemaList = Sequence<Schema>;

impl Duplicate for Schema {
    fn copy(&self, _alloc: Global) -> Result<Schema, OutOfMemory> {
        Ok(self.clone()?)
    }
}

impl Schema {
    /// The schema of these attributes, under this key, of an array of this frame.
    ///
    /// It gives the first fault, if there is one: attribute by attribute `DuplicateAttr` and then
    /// `BadFill`, then `NoAttrLeft`, then `TooManyAttrs`. See [`schema_fault`] for its memory.
    pub fn new(
        alloc: Global,
        frame: &Frame,
        key: Key,
        attrs: AttrList,
    ) -> Result<Schema, SchemaFault>
        ensures ok { IfOk result (λ schema. schema ≡ record { key = key; attrs = attrs }) }
        ensures fault { result_err result ≡ schema_fault frame.now.domain attrs }
        ensures count { IfOk result (λ schema. (1 ≤ length schema.attrs) × (length schema.attrs ≤ 64)) }
    {
        match schema_fault(alloc, &frame.domain, attrs.as_slice()) {
            Some(fault) => Err(fault),
            None => Ok(Schema { key, attrs }),
        }
    }

    /// The schema after a change, under this key, of an array of this frame: without the attributes
    /// to be taken away, and with those to be added behind the others.
    ///
    /// `UnknownAttr` comes first, for the first name to be taken away that no attribute has, or that
    /// was named before. Then come the faults of [`Schema::new`] for the attributes after the change.
    /// `OutOfMemory` may come in their place.
    pub fn evolved(
        &self,
        alloc: Global,
        frame: &Frame,
        key: Key,
        change: &Evolution,
    ) -> Result<Schema, SchemaFault>
        ensures ok { IfOk result (λ schema. schema ≡ record { key = key; attrs = evolved_attrs self.now.attrs change.now }) }
        ensures fault { FailsAs (evolution_fault frame.now.domain self.now.attrs change.now) result }
        ensures count { IfOk result (λ schema. (1 ≤ length schema.attrs) × (length schema.attrs ≤ 64)) }
    {
        if let Some(fault) = less_fault(alloc, &self.attrs, &change.less)? {
            return Err(fault);
        }
        let attrs = evolved_attrs(alloc, &self.attrs, change)?;
        Schema::new(alloc, frame, key, attrs)
    }

    /// The object that spells the schema. Its key is not in the object but in its name.
    pub fn encode(&self, alloc: Global) -> Result<ByteList, OutOfMemory>
        ensures spelled { IfOk result (λ object. object ≡ schema_object self.now.attrs) }
    {
        write_schema(alloc, &self.attrs)
    }

    /// The schema under this key that an object spells.
    ///
    /// The layout is that of the file FORMATS.md, "The schema". The answer is a schema exactly where
    /// the object is one that spells attributes. Else the offset is that of the first broken field.
    pub fn decode(alloc: Global, key: Key, object: &[u8]) -> Result<Schema, ReadFault>
        ensures exact { DecodesOr (λ schema. schema.attrs) (schema_of object.now) result }
        ensures key { IfOk result (λ schema. schema.key ≡ key) }
        ensures found { IfOk result (λ schema. AreAttrs schema.attrs × (object.now ≡ schema_object schema.attrs)) }
        ensures only { (attrs : List Attr) → AreAttrs attrs → object.now ≡ schema_object attrs → IsRead (λ schema. schema.attrs) attrs result }
        ensures first { BreaksThere object.now result }
        ensures cut { (attrs : List Attr) → length (attrs_bytes attrs) < 2 ^ 64 → IsCut 14 (schema_object attrs) object.now → IsDamagedAt 6 result }
    {
        schema_under(alloc, key, object)
    }
}

fn schema_under(alloc: Global, key: Key, object: &[u8]) -> Result<Schema, ReadFault>
    ensures exact { DecodesOr (λ schema. schema.attrs) (schema_of object.now) result }
    ensures key { IfOk result (λ schema. schema.key ≡ key) }
{
    let attrs = read_schema(alloc, object)?;
    Ok(Schema { key, attrs })
}
