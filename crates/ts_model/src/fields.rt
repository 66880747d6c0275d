//! The fields of an array, as conditions record them.
ghost use Rattle.std.specs.Prelude.{◌≡◌, ◌≤◌, length, IfOk};
ghost use Rattle.ts_schema.specs.SchemaTexts.{AreAttrs};
ghost use Rattle.ts_model.specs.Queries.{attr_field, attr_fields, dim_field, fields_in};

use std::alloc::Global;
use ts_base::{Duplicate, OutOfMemory};
use ts_cond::{CondField, CondFieldList};
use ts_domain::Dim;
use ts_schema::{Attr, AttrList, Frame, Schema};
use ts_value::default_fill;

/// The attributes of a schema, as conditions record them: [`ts_cond::Cond::bind`] takes them.
pub fn attr_fields(alloc: Global, attrs: &AttrList) -> Result<CondFieldList, OutOfMemory>
    ensures { IfOk result (λ fields. fields ≡ attr_fields attrs.now) }
{
    let mut fields = CondFieldList::new(alloc);
    for attr in attrs.as_slice() {
        fields.push(attr_field(alloc, attr)?)?;
    }
    Ok(fields)
}

fn attr_field(alloc: Global, attr: &Attr) -> Result<CondField, OutOfMemory>
    ensures { IfOk result (λ field. field ≡ attr_field attr.now) }
{
    Ok(CondField {
        name: attr.name,
        dim: None,
        ty: attr.ty,
        nullable: attr.nullable,
        fill: attr.fill.copy(alloc)?,
    })
}

/// The fields of an array through a schema, as conditions record them: the dimensions, and then the
/// attributes. [`ts_cond::Cond::parse`] takes them. There are at most 72.
pub fn fields_in(
    alloc: Global,
    frame: &Frame,
    schema: &Schema,
) -> Result<CondFieldList, OutOfMemory>
    requires { AreAttrs schema.now.attrs }
    ensures fields { IfOk result (λ fields. fields ≡ fields_in frame.now.domain schema.now.attrs) }
    ensures few { IfOk result (λ fields. length fields ≤ 72) }
{
    let mut fields = CondFieldList::new(alloc);
    for (place, dim) in frame.domain.as_slice().iter().enumerate() {
        fields.push(dim_field(alloc, place as u8, dim))?;
    }
    for attr in schema.attrs.as_slice() {
        fields.push(attr_field(alloc, attr)?)?;
    }
    Ok(fields)
}

fn dim_field(alloc: Global, place: u8, dim: &Dim) -> CondField
    ensures { result ≡ dim_field place dim.now }
{
    CondField {
        name: dim.name,
        dim: Some(place),
        ty: dim.ty,
        nullable: false,
        fill: default_fill(alloc, dim.ty, false),
    }
}
