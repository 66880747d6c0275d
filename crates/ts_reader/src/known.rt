//! The schemas that a read knows, and what it wants of a fragment in one of them.
ghost use Rattle.std.specs.Prelude.{◌≡◌, IfOk};
ghost use Rattle.std.specs.Option.{option_copied};
ghost use Rattle.ts_model.specs.States.{known_schema, want_of};
ghost use Rattle.ts_actor.specs.Known.{AreRising};

use crate::used::places_used;
use std::alloc::Global;
use ts_actor::schema_among;
use ts_base::{Key, OutOfMemory};
use ts_model::Reading;
use ts_schema::{AttrList, Schema, SchemaList, Want};

/// The schema of a key among those that a read knows.
pub(crate) fn known_schema<'a>(
    reading: &'a Reading,
    schemas: &'a SchemaList,
    key: Key,
) -> Option<&'a Schema>
    requires { AreRising schemas.now }
    ensures { option_copied result ≡ known_schema reading.now schemas.now key }
{
    if key == reading.current.key {
        return Some(&reading.current);
    }
    schema_among(schemas.as_slice(), key)
}

/// What is wanted of a fragment with these attributes: all cells of the box that are stamped in the
/// interval, with the values that the read uses.
pub(crate) fn want_of(
    alloc: Global,
    reading: &Reading,
    attrs: &AttrList,
) -> Result<Want, OutOfMemory>
    ensures { IfOk result (λ want. want ≡ want_of reading.now attrs.now) }
{
    Ok(Want {
        sub: reading.ready.sub,
        attrs: places_used(alloc, reading, attrs)?,
        a: reading.from,
        b: reading.to,
    })
}
