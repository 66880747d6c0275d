//! Reading the object of a schema.
ghost use Rattle.std.specs.Prelude.{[]};
ghost use Rattle.ts_wire.specs.Place.{items_at};
ghost use Rattle.ts_wire.specs.Reading.{Reads, ReadsOr, DecodesOr};
ghost use Rattle.ts_schema.specs.Attrs.{has_attr};
ghost use Rattle.ts_schema.specs.SchemaTexts.{name_at, fill_at, attr_at, attr_count_at, attrs_at, schema_of};

use crate::attrs::{Attr, AttrList, has_attr};
use crate::types::read_type;
use std::alloc::Global;
use ts_base::{Label, Val, ValType};
use ts_value::fits;
use ts_wire::{Cursor, Damaged, Kind, ReadFault, kept, unwrap_body};

#[tactic(auto, unfolding(crate::specs::SchemaTexts::name_at))]
fn read_name(front: &AttrList, cursor: &mut Cursor) -> Result<Label, Damaged>
    ensures { Reads (λ name. name) (name_at front.now) cursor.old cursor.new result }
{
    let at = cursor.at();
    let name = cursor.label()?;
    kept(at, name, !has_attr(front.as_slice(), &name))
}

/// Reads a value, which has to fit a type and whether it may be null.
#[tactic(auto, unfolding(crate::specs::SchemaTexts::fill_at))]
pub fn read_value(
    alloc: Global,
    ty: ValType,
    nullable: bool,
    cursor: &mut Cursor,
) -> Result<Val, ReadFault>
    ensures { ReadsOr (λ val. val) (fill_at ty nullable) cursor.old cursor.new result }
{
    let at = cursor.at();
    let val = cursor.val(alloc)?;
    let fitting = fits(ty, nullable, &val);
    Ok(kept(at, val, fitting)?)
}

#[tactic(auto, unfolding(crate::specs::SchemaTexts::attr_at))]
fn read_attr(alloc: Global, front: &AttrList, cursor: &mut Cursor) -> Result<Attr, ReadFault>
    ensures { ReadsOr (λ attr. attr) (attr_at front.now) cursor.old cursor.new result }
{
    let name = read_name(front, cursor)?;
    let ty = read_type(cursor)?;
    let nullable = cursor.bool()?;
    let fill = read_value(alloc, ty, nullable, cursor)?;
    Ok(Attr {
        name,
        ty,
        nullable,
        fill,
    })
}

#[tactic(auto, unfolding(crate::specs::SchemaTexts::attr_count_at))]
fn read_attr_count(cursor: &mut Cursor) -> Result<u8, Damaged>
    ensures { Reads (λ count. count) attr_count_at cursor.old cursor.new result }
{
    let at = cursor.at();
    let count = cursor.u8()?;
    kept(at, count, 1 <= count && count <= 64)
}

#[tactic(auto, using(ts_wire::proofs::Loop::items_loop))]
fn read_counted_attrs(alloc: Global, count: u8, cursor: &mut Cursor) -> Result<AttrList, ReadFault>
    ensures { ReadsOr (λ attrs. attrs) (items_at attr_at count []) cursor.old cursor.new result }
{
    let mut attrs = AttrList::new(alloc);
    for place in 0..count {
        let attr = read_attr(alloc, &attrs, cursor)?;
        attrs.push(attr)?;
    }
    Ok(attrs)
}

#[tactic(auto, unfolding(crate::specs::SchemaTexts::attrs_at))]
fn read_attrs(alloc: Global, cursor: &mut Cursor) -> Result<AttrList, ReadFault>
    ensures { ReadsOr (λ attrs. attrs) attrs_at cursor.old cursor.new result }
{
    let count = read_attr_count(cursor)?;
    read_counted_attrs(alloc, count, cursor)
}

/// The attributes that the object of a schema spells.
#[tactic(auto, unfolding(crate::specs::SchemaTexts::schema_of, ts_wire::specs::Envelope::object_at))]
pub fn read_schema(alloc: Global, object: &[u8]) -> Result<AttrList, ReadFault>
    ensures { DecodesOr (λ attrs. attrs) (schema_of object.now) result }
{
    let body = unwrap_body(Kind::Schema, object)?;
    let mut cursor = Cursor::new(body, 14);
    let attrs = read_attrs(alloc, &mut cursor)?;
    cursor.end()?;
    Ok(attrs)
}
