//! The schemas that a job knows, and what it wants of a fragment in one of them.
ghost use Rattle.std.specs.Prelude.{◌≡◌, ◌<◌, Some, None, length, find, slice_index_or, IfOk, IsErr};
ghost use Rattle.std.specs.Option.{option_copied};
ghost use Rattle.ts_base.specs.Keys.{key_eq};
ghost use Rattle.ts_schema.specs.declared.schemas.Schema.{Schema as AnySchema};
ghost use Rattle.ts_model.specs.Queries.{places_from};
ghost use Rattle.ts_model.specs.States.{schema_among, wanted};
ghost use Rattle.ts_actor.specs.Known.{AreRising};

use std::alloc::Global;
use ts_base::{IndexList, Key, OutOfMemory};
use ts_domain::SubBox;
use ts_schema::{AttrList, Schema, Want};

/// The schema of a key among these, if there is one.
pub fn schema_among(schemas: &[Schema], key: Key) -> Option<&Schema>
    requires { AreRising schemas.now }
    ensures { option_copied result ≡ schema_among schemas.now key }
{
    match search_schemas(schemas, key) {
        Ok(place) => Some(&schemas[place]),
        Err(_) => None,
    }
}

/// Where the schema of a key is among these, or where it would go.
pub fn search_schemas(schemas: &[Schema], key: Key) -> Result<usize, usize>
    requires { AreRising schemas.now }
    ensures bound { IfOk result (λ place. place < length schemas.now) }
    ensures found { IfOk result (λ place. (other : AnySchema) → find (λ s. key_eq s.key key) schemas.now ≡ Some (slice_index_or schemas.now place other)) }
    ensures absent { IsErr result → find (λ s. key_eq s.key key) schemas.now ≡ None }
{
    schemas.binary_search_by_key(&key, |schema| schema.key)
}

/// What is wanted of a fragment with these attributes: the cells of the box that are stamped from `a`
/// to `b`, in milliseconds since 1970-01-01, with all their values.
pub fn wanted(
    alloc: Global,
    sub: SubBox,
    a: u64,
    b: u64,
    attrs: &AttrList,
) -> Result<Want, OutOfMemory>
    ensures { IfOk result (λ want. want ≡ wanted sub a b attrs.now) }
{
    Ok(Want {
        sub,
        attrs: first_places(alloc, attrs.len())?,
        a,
        b,
    })
}

// The first places of a list, from 0 on. More than 2^32 of them have no memory.
#[tactic(auto, using(crate::proofs::Collected::numbers_more))]
fn first_places(alloc: Global, count: u64) -> Result<IndexList, OutOfMemory>
    ensures { IfOk result (λ places. places ≡ places_from 0 count) }
{
    let Ok(count) = u32::try_from(count) else {
        return Err(OutOfMemory);
    };
    let mut places = IndexList::new(alloc);
    for place in 0..count {
        places.push(place)?;
    }
    Ok(places)
}
