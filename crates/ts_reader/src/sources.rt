//! Where the values of attributes stand in rows of each schema that a read knows.
ghost use Rattle.std.specs.Prelude.{◌≡◌, map, IfOk};
ghost use Rattle.ts_actor.specs.Known.{AreRising};
ghost use Rattle.ts_model.specs.States.{attrs_got};
ghost use Rattle.ts_reader.specs.declared.bindings.Binding.{Binding as AnyBinding};
ghost use Rattle.ts_reader.specs.Deletes.{bindings_of};
ghost use Rattle.ts_reader.specs.Sources.{place_in, source_of};

use crate::bindings::{Binding, Bindings};
use std::alloc::Global;
use ts_actor::search_schemas;
use ts_base::{Key, OutOfMemory, Sequence};
use ts_model::Reading;
use ts_schema::{Attr, SchemaList};

/// The places of values, where there are some.
pub(crate) type FoundList = Sequence<Option<u64>>;

/// Where the value of an attribute stands in rows of each schema, if it stands there.
#[derive(Debug, Drop)]
pub(crate) struct Source {
    /// In those of the schema that holds.
    pub current: Option<u64>,
    /// In those of each further schema.
    pub further: FoundList,
}

/// Where the values of an attribute stand. It is found once for each schema.
pub(crate) fn source_of(
    alloc: Global,
    bindings: &Bindings,
    wanted: &Attr,
) -> Result<Source, OutOfMemory>
    ensures { IfOk result (λ source. source ≡ source_of bindings.now wanted.now) }
{
    Ok(Source {
        current: place_in(bindings.current.attrs.as_slice(), wanted),
        further: places_in(alloc, bindings.further.as_slice(), wanted)?,
    })
}

// The place of the attribute among those of each binding.
fn places_in(alloc: Global, bindings: &[Binding], wanted: &Attr) -> Result<FoundList, OutOfMemory>
    ensures { IfOk result (λ places. places ≡ map (λ (b : AnyBinding). place_in b.attrs wanted.now) bindings.now) }
{
    let mut places = FoundList::new(alloc);
    for binding in bindings {
        places.push(place_in(binding.attrs.as_slice(), wanted))?;
    }
    Ok(places)
}

// The place of the first of these attributes that agrees with the wanted one.
fn place_in(attrs: &[Attr], wanted: &Attr) -> Option<u64>
    ensures { result ≡ place_in attrs.now wanted.now }
{
    for place in 0..attrs.len() {
        if attrs[place].agrees(wanted) {
            return Some(place as u64);
        }
    }
    None
}

/// Where the value of the attribute stands in rows of the schema with a key.
pub(crate) fn place_at(
    reading: &Reading,
    schemas: &SchemaList,
    source: &Source,
    wanted: &Attr,
    key: Key,
) -> Option<u64>
    requires rise { AreRising schemas.now }
    requires are { source.now ≡ source_of (bindings_of reading.now schemas.now) wanted.now }
    ensures { result ≡ place_in (attrs_got reading.now schemas.now key) wanted.now }
{
    if key == reading.current.key {
        return source.current;
    }
    match search_schemas(schemas.as_slice(), key) {
        Ok(place) => *source.further.at(place as u64),
        Err(_) => None,
    }
}
