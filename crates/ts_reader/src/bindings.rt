//! Where deletes find their fields in the rows of each schema that a read knows.
ghost use Rattle.std.specs.Prelude.{◌≡◌, ◌<◌, ◌^◌, List, length, map, IfOk};
ghost use Rattle.ts_model.specs.Queries.{attr_fields};
ghost use Rattle.ts_model.specs.States.{attrs_got};
ghost use Rattle.ts_model.specs.Used.{used_attrs};
ghost use Rattle.ts_reader.specs.Deletes.{erases, picks_under, binding_of, bindings_of};
ghost use Rattle.ts_actor.specs.Known.{AreRising};
ghost use Rattle.std.specs.List.{list_any};
ghost use Rattle.ts_cond.specs.Picks.{picks_of};
ghost use Rattle.ts_schema.specs.declared.attrs.Attr.{Attr as AnyAttr};

use crate::used::used_attrs;
use std::alloc::Global;
use ts_actor::search_schemas;
use ts_base::{Key, OutOfMemory, Sequence};
use ts_batch::BatchCell;
use ts_cond::{CondFieldList, PickList};
use ts_match::matches_cell;
use ts_model::{Deletion, DeletionList, Reading, attr_fields};
use ts_schema::{AttrList, Schema, SchemaList};

/// For each delete where it finds its fields.
pub(crate) type PicksList = Sequence<PickList>;

/// Rows of these attributes, as a read sees them.
#[derive(Drop)]
pub(crate) struct Binding {
    /// The attributes.
    pub attrs: AttrList,
    /// Where each delete finds its fields there.
    pub picks: PicksList,
}

/// Rows of some schemas.
pub(crate) type BindingList = Sequence<Binding>;

/// The rows of each schema, as a read sees them.
#[derive(Drop)]
pub(crate) struct Bindings {
    /// Those of the schema that holds.
    pub current: Binding,
    /// Those of each further schema.
    pub further: BindingList,
    /// Those of a schema that the read does not know.
    pub unknown: Binding,
}

/// The rows of each schema that a read knows, with the values that it uses. Each delete is bound once
/// for each schema.
pub(crate) fn bindings_of(
    alloc: Global,
    reading: &Reading,
    schemas: &SchemaList,
) -> Result<Bindings, OutOfMemory>
    ensures { IfOk result (λ bindings. bindings ≡ bindings_of reading.now schemas.now) }
{
    Ok(Bindings {
        current: used_binding(alloc, reading, &reading.current.attrs)?,
        further: further_bindings(alloc, reading, schemas.as_slice())?,
        unknown: binding_of(alloc, &reading.deletions, AttrList::new(alloc))?,
    })
}

// The rows of each further schema.
fn further_bindings(
    alloc: Global,
    reading: &Reading,
    schemas: &[Schema],
) -> Result<BindingList, OutOfMemory>
    ensures { IfOk result (λ bindings. bindings ≡ map (λ s. binding_of reading.now.deletions (used_attrs reading.now s.attrs)) schemas.now) }
{
    let mut bindings = BindingList::new(alloc);
    for schema in schemas {
        bindings.push(used_binding(alloc, reading, &schema.attrs)?)?;
    }
    Ok(bindings)
}

// Rows of those of these attributes that the read uses.
fn used_binding(alloc: Global, reading: &Reading, attrs: &AttrList) -> Result<Binding, OutOfMemory>
    ensures { IfOk result (λ binding. binding ≡ binding_of reading.now.deletions (used_attrs reading.now attrs.now)) }
{
    binding_of(
        alloc,
        &reading.deletions,
        used_attrs(alloc, reading, attrs)?,
    )
}

// Rows of these attributes.
fn binding_of(alloc: Global, erased: &DeletionList, attrs: AttrList) -> Result<Binding, OutOfMemory>
    ensures { IfOk result (λ binding. binding ≡ binding_of erased.now attrs) }
{
    let fields = bound_fields(alloc, &attrs)?;
    let picks = picks_of(alloc, erased.as_slice(), &fields)?;
    Ok(Binding { attrs, picks })
}

// The fields of rows of these attributes. More than 2^32 of them have no memory.
fn bound_fields(alloc: Global, attrs: &AttrList) -> Result<CondFieldList, OutOfMemory>
    ensures is { IfOk result (λ fields. fields ≡ attr_fields attrs.now) }
    ensures few_fields { IfOk result (λ fields. length fields < 2 ^ 32) }
{
    let fields = attr_fields(alloc, attrs)?;
    let Ok(_) = u32::try_from(fields.len()) else {
        return Err(OutOfMemory);
    };
    Ok(fields)
}

// Where each delete finds its fields in rows with these.
fn picks_of(
    alloc: Global,
    erased: &[Deletion],
    fields: &CondFieldList,
) -> Result<PicksList, OutOfMemory>
    requires { length fields.now < 2 ^ 32 }
    ensures { IfOk result (λ picks. picks ≡ map (λ e. picks_of fields.now e.cond.fields) erased.now) }
{
    let mut picks = PicksList::new(alloc);
    for deletion in erased {
        picks.push(deletion.cond.bind(alloc, fields)?)?;
    }
    Ok(picks)
}

/// The rows of the schema with a key.
pub(crate) fn binding_at<'a>(
    reading: &Reading,
    schemas: &SchemaList,
    bindings: &'a Bindings,
    key: Key,
) -> &'a Binding
    requires rise { AreRising schemas.now }
    requires are { bindings.now ≡ bindings_of reading.now schemas.now }
    ensures { result.now ≡ binding_of reading.now.deletions (attrs_got reading.now schemas.now key) }
{
    if key == reading.current.key {
        return &bindings.current;
    }
    match search_schemas(schemas.as_slice(), key) {
        Ok(place) => bindings.further.at(place as u64),
        Err(_) => &bindings.unknown,
    }
}

/// Whether one of the deletes has a greater key than the version and matches it.
pub(crate) fn is_erased(erased: &DeletionList, binding: &Binding, version: &BatchCell) -> bool
    requires { binding.now.picks ≡ picks_under binding.now.attrs erased.now }
    ensures { result ≡ list_any (erases binding.now.attrs version.now) erased.now }
{
    for place in 0..erased.len() {
        if erases(erased.at(place), binding.picks.at(place), version) {
            return true;
        }
    }
    false
}

// Whether a delete has a greater key than the version and matches it.
fn erases(deletion: &Deletion, picks: &PickList, version: &BatchCell) -> bool
    ensures { (attrs : List AnyAttr) → picks.now ≡ picks_of (attr_fields attrs) deletion.now.cond.fields → result ≡ erases attrs version.now deletion.now }
{
    version.key() < deletion.key && matches_cell(&deletion.cond, picks, version)
}
