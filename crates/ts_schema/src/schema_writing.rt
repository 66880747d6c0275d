//! Writing the object of a schema.
ghost use Rattle.std.specs.Prelude.{◌≡◌, ◌++◌, IfOk, OnOk};
ghost use Rattle.ts_wire.specs.Numbers.{number_bytes};
ghost use Rattle.ts_schema.specs.SchemaTexts.{attr_bytes, attrs_bytes, schema_object};

use crate::attrs::{Attr, AttrList};
use crate::types::write_type;
use std::alloc::Global;
use ts_base::{ByteList, OutOfMemory};
use ts_wire::{Kind, Scribe};

#[tactic(auto, unfolding(crate::specs::SchemaTexts::attr_bytes))]
fn write_attr(scribe: &mut Scribe, attr: &Attr) -> Result<(), OutOfMemory>
    ensures { OnOk result (scribe.new ≡ scribe.old ++ attr_bytes attr.now) }
{
    scribe.label(&attr.name)?;
    write_type(scribe, attr.ty)?;
    scribe.bool(attr.nullable)?;
    scribe.val(&attr.fill)
}

// The number of attributes in one byte. A schema has 64 at most; of a greater number the byte is the
// lowest one.
#[tactic(auto, using(crate::proofs::Counts::lowest_byte))]
fn write_count(scribe: &mut Scribe, count: u64) -> Result<(), OutOfMemory>
    ensures { OnOk result (scribe.new ≡ scribe.old ++ number_bytes 1 count) }
{
    scribe.u8((count % 256) as u8)
}

#[tactic(auto, unfolding(crate::specs::SchemaTexts::attrs_bytes))]
fn write_attrs(scribe: &mut Scribe, attrs: &AttrList) -> Result<(), OutOfMemory>
    ensures { OnOk result (scribe.new ≡ scribe.old ++ attrs_bytes attrs.now) }
{
    write_count(scribe, attrs.len())?;
    for attr in attrs.as_slice() {
        write_attr(scribe, attr)?;
    }
    Ok(())
}

/// The object that spells a schema of these attributes.
#[tactic(auto, unfolding(crate::specs::SchemaTexts::schema_object))]
pub fn write_schema(alloc: Global, attrs: &AttrList) -> Result<ByteList, OutOfMemory>
    ensures { IfOk result (λ object. object ≡ schema_object attrs.now) }
{
    let mut scribe = Scribe::new(alloc);
    write_attrs(&mut scribe, attrs)?;
    scribe.into_object(Kind::Schema)
}
