//! Which attributes a read uses: those that it shows, and those that its filter or a delete names.
ghost use Rattle.std.specs.Prelude.{◌≡◌, ◌++◌, [], ◌∷◌, cond, slice_get, IfOk, OnOk, false};
ghost use Rattle.std.specs.Option.{option_map_or};
ghost use Rattle.ts_schema.specs.Attrs.{same_name};
ghost use Rattle.ts_model.specs.Used.{deletes_name, field_names, filter_names, names_field, places_used, shows_name, used_attrs, uses_name};

use std::alloc::Global;
use ts_base::{Duplicate, IndexList, Label, OutOfMemory};
use ts_cond::Cond;
use ts_domain::Dim;
use ts_model::{Deletion, Reading};
use ts_schema::{Attr, AttrList};

/// The attributes of a schema that a read uses.
pub(crate) fn used_attrs(
    alloc: Global,
    reading: &Reading,
    attrs: &AttrList,
) -> Result<AttrList, OutOfMemory>
    ensures { IfOk result (λ used. used ≡ used_attrs reading.now attrs.now) }
{
    let mut used = AttrList::new(alloc);
    for attr in attrs.as_slice() {
        if uses_name(reading, &attr.name) {
            used.push(attr.copy(alloc)?)?;
        }
    }
    Ok(used)
}

/// The places of these attributes. More than 2^32 of them have no memory.
pub(crate) fn places_used(
    alloc: Global,
    reading: &Reading,
    attrs: &AttrList,
) -> Result<IndexList, OutOfMemory>
    ensures { IfOk result (λ places. places ≡ places_used reading.now 0 attrs.now) }
{
    let Ok(count) = u32::try_from(attrs.len()) else {
        return Err(OutOfMemory);
    };
    let mut places = IndexList::new(alloc);
    for place in 0..count {
        let attr = attrs.at(u64::from(place));
        add_where(&mut places, uses_name(reading, &attr.name), place)?;
    }
    Ok(places)
}

// Adds a place, where it is wanted.
fn add_where(places: &mut IndexList, wanted: bool, place: u32) -> Result<(), OutOfMemory>
    ensures { OnOk result (places.new ≡ places.old ++ cond wanted (place ∷ []) []) }
{
    if wanted { places.push(place) } else { Ok(()) }
}

// Whether a read uses the values under a name.
fn uses_name(reading: &Reading, name: &Label) -> bool
    ensures { result ≡ uses_name reading.now name.now }
{
    shows_name(reading, name)
        || filter_names(&reading.ready.filter, name)
        || deletes_name(reading.deletions.as_slice(), name)
}

// Whether it shows the field with the name.
fn shows_name(reading: &Reading, name: &Label) -> bool
    ensures { result ≡ shows_name reading.now name.now }
{
    let (dims, attrs) = (
        reading.frame.domain.as_slice(),
        reading.current.attrs.as_slice(),
    );
    let fields = &reading.ready.fields;
    for field in 0..fields.len() {
        if is_named(dims, attrs, *fields.at(field), name) {
            return true;
        }
    }
    false
}

// Whether the field at a place has the name: the dimensions come first, and then the attributes.
fn is_named(dims: &[Dim], attrs: &[Attr], place: u32, name: &Label) -> bool
    ensures { result ≡ option_map_or (λ other. same_name other name.now) (slice_get (field_names dims.now attrs.now) place) false }
{
    let place = place as usize;
    if place < dims.len() {
        return dims[place].name == *name;
    }
    match attrs.get(place - dims.len()) {
        Some(attr) => attr.name == *name,
        None => false,
    }
}

// Whether a filter names it.
fn filter_names(filter: &Option<Cond>, name: &Label) -> bool
    ensures { result ≡ filter_names filter.now name.now }
{
    match filter {
        None => false,
        Some(condition) => names_field(condition, name),
    }
}

// Whether the condition of one of the deletes names it.
fn deletes_name(erased: &[Deletion], name: &Label) -> bool
    ensures { result ≡ deletes_name erased.now name.now }
{
    for deletion in erased {
        if names_field(&deletion.cond, name) {
            return true;
        }
    }
    false
}

// Whether a condition names it.
fn names_field(condition: &Cond, name: &Label) -> bool
    ensures { result ≡ names_field condition.now name.now }
{
    condition
        .fields
        .as_slice()
        .iter()
        .any(|field| field.name == *name)
}
