//! Where a condition finds the values of its fields.
ghost use Rattle.std.specs.Prelude.{◌≡◌, ◌<◌, ◌^◌, length, IfOk};
ghost use Rattle.ts_cond.specs.Picks.{is_same_field, place_or_fill, place_from, pick_of, picks_of};

use crate::cond::Cond;
use crate::fields::{CondField, CondFieldList, Pick, PickList};
use std::alloc::Global;
use ts_base::{Duplicate, OutOfMemory};

impl Cond {
    /// Where each field of the condition has its value in cells whose rows have these attributes:
    /// a dimension in the coordinates, an attribute at the place of the first attribute that agrees
    /// in name, type and nullability. Where there is none the recorded fill stands for it.
    pub fn bind(&self, alloc: Global, attrs: &CondFieldList) -> Result<PickList, OutOfMemory>
        requires { length attrs.now < 2 ^ 32 }
        ensures { IfOk result (λ picks. picks ≡ picks_of attrs.now self.now.fields) }
    {
        let mut picks = PickList::new(alloc);
        for field in self.fields.as_slice() {
            picks.push(pick_of(alloc, field, attrs.as_slice())?)?;
        }
        Ok(picks)
    }
}

fn pick_of(alloc: Global, field: &CondField, attrs: &[CondField]) -> Result<Pick, OutOfMemory>
    requires { length attrs.now < 2 ^ 32 }
    ensures { IfOk result (λ pick. pick ≡ pick_of attrs.now field.now) }
{
    match field.dim {
        Some(dim) => Ok(Pick::Coord(dim)),
        None => attr_pick(alloc, field, attrs),
    }
}

fn attr_pick(alloc: Global, field: &CondField, attrs: &[CondField]) -> Result<Pick, OutOfMemory>
    requires { length attrs.now < 2 ^ 32 }
    ensures { IfOk result (λ pick. pick ≡ place_or_fill (place_from field.now 0 attrs.now) field.now) }
{
    match place_of(field, attrs) {
        Some(place) => Ok(Pick::Attr(place)),
        None => Ok(Pick::Fill(field.fill.copy(alloc)?)),
    }
}

fn place_of(field: &CondField, attrs: &[CondField]) -> Option<u32>
    requires { length attrs.now < 2 ^ 32 }
    ensures { result ≡ place_from field.now 0 attrs.now }
{
    for place in 0..attrs.len() {
        if is_same_field(field, &attrs[place]) {
            return Some(place as u32);
        }
    }
    None
}

// Whether an attribute counts as the field.
fn is_same_field(field: &CondField, attr: &CondField) -> bool
    ensures { result ≡ is_same_field field.now attr.now }
{
    field.name == attr.name && field.ty == attr.ty && field.nullable == attr.nullable
}
