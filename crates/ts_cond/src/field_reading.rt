//! Reading the fields of a condition's object.
ghost use Rattle.std.specs.Prelude.{◌≡◌, []};
ghost use Rattle.ts_wire.specs.Place.{items_at};
ghost use Rattle.ts_wire.specs.Reading.{Reads, ReadsOr};
ghost use Rattle.std.specs.Ordering.{is_eq};
ghost use Rattle.ts_value.specs.Fill.{fill_of};
ghost use Rattle.ts_value.specs.Order.{val_cmp};
ghost use Rattle.ts_cond.specs.CondTexts.{dim_at, has_field, may_be_of, may_be_null, may_fill, field_name_at, field_type_at, field_null_at, field_fill_at, field_at, field_count_at, fields_at};

use crate::fields::{CondField, CondFieldList};
use std::alloc::Global;
use std::cmp::Ordering;
use ts_base::{Label, Val, ValType};
use ts_schema::read_type;
use ts_value::{compare, default_fill, fits};
use ts_wire::{Cursor, Damaged, ReadFault, kept};

/// Reads the number of fields, and then the fields.
#[tactic(auto, unfolding(crate::specs::CondTexts::fields_at))]
pub fn read_fields(alloc: Global, cursor: &mut Cursor) -> Result<CondFieldList, ReadFault>
    ensures { ReadsOr (λ fields. fields) fields_at cursor.old cursor.new result }
{
    let count = read_field_count(cursor)?;
    read_counted_fields(alloc, count, cursor)
}

#[tactic(auto, unfolding(crate::specs::CondTexts::field_count_at))]
fn read_field_count(cursor: &mut Cursor) -> Result<u8, Damaged>
    ensures { Reads (λ count. count) field_count_at cursor.old cursor.new result }
{
    let at = cursor.at();
    let count = cursor.u8()?;
    kept(at, count, 1 <= count && count <= 72)
}

#[tactic(auto, using(ts_wire::proofs::Loop::items_loop))]
fn read_counted_fields(
    alloc: Global,
    count: u8,
    cursor: &mut Cursor,
) -> Result<CondFieldList, ReadFault>
    ensures { ReadsOr (λ fields. fields) (items_at field_at count []) cursor.old cursor.new result }
{
    let mut fields = CondFieldList::new(alloc);
    for place in 0..count {
        let field = read_field(alloc, &fields, cursor)?;
        fields.push(field)?;
    }
    Ok(fields)
}

#[tactic(auto, unfolding(crate::specs::CondTexts::field_at))]
fn read_field(
    alloc: Global,
    front: &CondFieldList,
    cursor: &mut Cursor,
) -> Result<CondField, ReadFault>
    ensures { ReadsOr (λ field. field) (field_at front.now) cursor.old cursor.new result }
{
    let name = read_name(front, cursor)?;
    let dim = read_dim(cursor)?;
    let ty = read_field_type(dim, cursor)?;
    let nullable = read_nullable(dim, cursor)?;
    let fill = read_fill(alloc, dim, ty, nullable, cursor)?;
    Ok(CondField {
        name,
        dim,
        ty,
        nullable,
        fill,
    })
}

#[tactic(auto, unfolding(crate::specs::CondTexts::field_name_at))]
fn read_name(front: &CondFieldList, cursor: &mut Cursor) -> Result<Label, Damaged>
    ensures { Reads (λ name. name) (field_name_at front.now) cursor.old cursor.new result }
{
    let at = cursor.at();
    let name = cursor.label()?;
    kept(at, name, !has_field(front.as_slice(), &name))
}

// Whether one of the fields has the name.
fn has_field(fields: &[CondField], name: &Label) -> bool
    ensures { result ≡ has_field fields.now name.now }
{
    fields.iter().any(|field| field.name == *name)
}

#[tactic(auto, unfolding(crate::specs::CondTexts::dim_at))]
fn read_dim(cursor: &mut Cursor) -> Result<Option<u8>, Damaged>
    ensures { Reads (λ dim. dim) dim_at cursor.old cursor.new result }
{
    let at = cursor.at();
    let code = cursor.u8()?;
    if code == 255 {
        Ok(None)
    } else if code <= 7 {
        Ok(Some(code))
    } else {
        Err(Damaged { at })
    }
}

#[tactic(auto, unfolding(crate::specs::CondTexts::field_type_at))]
fn read_field_type(dim: Option<u8>, cursor: &mut Cursor) -> Result<ValType, Damaged>
    ensures { Reads (λ ty. ty) (field_type_at dim) cursor.old cursor.new result }
{
    let at = cursor.at();
    let ty = read_type(cursor)?;
    kept(at, ty, may_be_of(dim, ty))
}

fn may_be_of(dim: Option<u8>, ty: ValType) -> bool
    ensures { result ≡ may_be_of dim ty }
{
    match dim {
        None => true,
        Some(_) => ty.is_integer(),
    }
}

#[tactic(auto, unfolding(crate::specs::CondTexts::field_null_at))]
fn read_nullable(dim: Option<u8>, cursor: &mut Cursor) -> Result<bool, Damaged>
    ensures { Reads (λ nullable. nullable) (field_null_at dim) cursor.old cursor.new result }
{
    let at = cursor.at();
    let nullable = cursor.bool()?;
    kept(at, nullable, may_be_null(dim, nullable))
}

fn may_be_null(dim: Option<u8>, nullable: bool) -> bool
    ensures { result ≡ may_be_null dim nullable }
{
    match dim {
        None => true,
        Some(_) => !nullable,
    }
}

#[tactic(auto, unfolding(crate::specs::CondTexts::field_fill_at))]
fn read_fill(
    alloc: Global,
    dim: Option<u8>,
    ty: ValType,
    nullable: bool,
    cursor: &mut Cursor,
) -> Result<Val, ReadFault>
    ensures { ReadsOr (λ fill. fill) (field_fill_at dim ty nullable) cursor.old cursor.new result }
{
    let at = cursor.at();
    let fill = cursor.val(alloc)?;
    let fitting = may_fill(alloc, dim, ty, nullable, &fill);
    Ok(kept(at, fill, fitting)?)
}

fn may_fill(alloc: Global, dim: Option<u8>, ty: ValType, nullable: bool, fill: &Val) -> bool
    ensures { result ≡ may_fill dim ty nullable fill.now }
{
    match dim {
        None => fits(ty, nullable, fill),
        Some(_) => is_default(alloc, ty, nullable, fill),
    }
}

// Whether the value is the default fill of the type.
fn is_default(alloc: Global, ty: ValType, nullable: bool, fill: &Val) -> bool
    ensures { result ≡ is_eq (val_cmp fill.now (fill_of ty nullable)) }
{
    let default = default_fill(alloc, ty, nullable);
    compare(fill, &default) == Ordering::Equal
}
