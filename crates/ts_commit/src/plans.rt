//! Which fragments a consolidation merges.
ghost use Rattle.std.specs.Prelude.{◌≡◌, [], ℕ, List, IfOk, length, unwrap_or, map as list_map};
ghost use Rattle.std.specs.BTreeMap.{get};
ghost use Rattle.ts_base.specs.Keys.{key_cmp};
ghost use Rattle.ts_base.specs.declared.keys.Key.{Key as AnyKey};
ghost use Rattle.ts_base.specs.declared.heads.Head.{Head as AnyHead};
ghost use Rattle.ts_commit.specs.Plans.{of_schema, shared_schema, taken_from, plan_by, plan_in, plan_of, AreAttributes, attributes_in, IsPlan};
ghost use Rattle.ts_commit.specs.Passes.{passed};

use crate::choices::{Eligible, is_of_schema};
use crate::named::all_named;
use crate::totals::Total;
use crate::vacs::{Limits, Planned, VacList};
use std::alloc::Global;
use std::collections::BTreeMap;
use ts_base::{CountList, FragList, Head, HeadList, Key, OutOfMemory};

/// What a consolidation merges of the committed fragments in the interval from `a` to `b`, both ends
/// included.
///
/// The heads are those of committed fragments, in their order, and `attrs` has for each of them the
/// number of its schema's attributes. The `.vac` objects are those that count: their own fragments
/// are committed.
///
/// Eligible are the fragments in the interval that no `.vac` names. The plan takes those of one
/// schema: that of the first eligible fragment that shares its schema with at least `limits.min`
/// eligible ones, itself counted. It takes them in order, up to `limits.max` of them, up to a weight
/// of 2^24 and up to 2^32 - 1 origins, added up, and stops at the first that would pass a bound. The
/// weight is the number of cells, times one more than the number of attributes. The cells are those
/// of all fragments where these are sparse, and those of their common hull where they are dense.
///
/// Where no schema is shared so, or fewer than `limits.min` fragments can be taken, the plan is
/// nothing, and tells how many fragments are eligible.
///
/// The time grows with the number of heads and of names in the `.vac` objects, and with the logarithm
/// of that, since each is looked up in a set or a map.
pub fn plan(
    alloc: Global,
    heads: &HeadList,
    vacs: &VacList,
    attrs: &CountList,
    a: u64,
    b: u64,
    limits: Limits,
) -> Result<Planned, OutOfMemory>
    ensures plan { IfOk result (λ planned. planned ≡ plan_of heads.now vacs.now (attributes_in heads.now attrs.now) a b limits) }
    ensures told { IfOk result (IsPlan heads.now vacs.now (attributes_in heads.now attrs.now) a b limits) }
    ensures by_schema { IfOk result (λ planned. (attributes : AnyKey → ℕ) → AreAttributes attributes heads.now attrs.now → planned ≡ plan_of heads.now vacs.now attributes a b limits) }
{
    let eligible = Eligible {
        merged: all_named(alloc, vacs.as_slice())?,
        from: a,
        to: b,
    };
    plan_among(alloc, heads.as_slice(), &eligible, attrs.as_slice(), limits)
}

// The plan for the eligible fragments.
fn plan_among(
    alloc: Global,
    heads: &[Head],
    eligible: &Eligible,
    attrs: &[u64],
    limits: Limits,
) -> Result<Planned, OutOfMemory>
    ensures { IfOk result (λ planned. planned ≡ plan_in (attributes_in heads.now attrs.now) limits (passed eligible.now heads.now) (shared_schema limits.min (passed eligible.now heads.now))) }
{
    let counts = counts_of_schemas(alloc, heads, eligible)?;
    let count = eligible.count(heads);
    match shared_schema(heads, eligible, &counts, limits.min) {
        None => Ok(Planned::Nothing { eligible: count }),
        Some(schema) => {
            let attributes = attributes_in(heads, attrs, schema);
            let taken = taken(alloc, heads, eligible, schema, attributes, limits)?;
            Ok(plan_by(limits, count, taken))
        }
    }
}

// How many of the eligible fragments are of each schema.
fn counts_of_schemas(
    alloc: Global,
    heads: &[Head],
    eligible: &Eligible,
) -> Result<BTreeMap<Key, u64>, OutOfMemory>
    ensures { IfOk result (λ counts. (k : AnyKey) → unwrap_or (get key_cmp counts k) 0 ≡ length (of_schema k (passed eligible.now heads.now))) }
{
    let mut counts = BTreeMap::new(alloc);
    for head in heads {
        if eligible.has(head) {
            let count = count_of(&counts, head.schema);
            counts.insert(head.schema, count + 1)?;
        }
    }
    Ok(counts)
}

// How many are counted for a schema.
fn count_of(counts: &BTreeMap<Key, u64>, schema: Key) -> u64
    ensures { result ≡ unwrap_or (get key_cmp counts.now schema) 0 }
{
    counts.get(&schema).copied().unwrap_or(0)
}

// The schema of the first eligible fragment that shares its schema with at least so many.
fn shared_schema(
    heads: &[Head],
    eligible: &Eligible,
    counts: &BTreeMap<Key, u64>,
    least: u32,
) -> Option<Key>
    requires { (k : AnyKey) → unwrap_or (get key_cmp counts.now k) 0 ≡ length (of_schema k (passed eligible.now heads.now)) }
    ensures { result ≡ shared_schema least (passed eligible.now heads.now) }
{
    for head in heads {
        if eligible.has(head) && count_of(counts, head.schema) >= least as u64 {
            return Some(head.schema);
        }
    }
    None
}

// The number of attributes of a schema: that of the first head of the schema.
fn attributes_in(heads: &[Head], attrs: &[u64], schema: Key) -> u64
    ensures { result ≡ attributes_in heads.now attrs.now schema }
{
    for place in 0..heads.len().min(attrs.len()) {
        if is_of_schema(&heads[place], schema) {
            return attrs[place];
        }
    }
    0
}

// The eligible fragments of a schema with so many attributes, up to the first that would pass a bound.
fn taken(
    alloc: Global,
    heads: &[Head],
    eligible: &Eligible,
    schema: Key,
    attributes: u64,
    limits: Limits,
) -> Result<FragList, OutOfMemory>
    ensures { IfOk result (λ frags. frags ≡ list_map (λ head. head.frag) (taken_from attributes limits [] (of_schema schema (passed eligible.now heads.now)))) }
{
    let mut frags = FragList::new(alloc);
    let mut total = Total::new();
    for head in heads {
        if eligible.has(head) && is_of_schema(head, schema) {
            let more = total.with(head);
            if !more.is_in_bounds(attributes, limits) {
                return Ok(frags);
            }
            frags.push(head.frag)?;
            total = more;
        }
    }
    Ok(frags)
}

// The plan where so many fragments are eligible and these can be taken.
fn plan_by(limits: Limits, eligible: u64, taken: FragList) -> Planned
    ensures { (heads : List AnyHead) → taken ≡ list_map (λ head. head.frag) heads → result ≡ plan_by limits eligible heads }
{
    if taken.len() < limits.min as u64 {
        Planned::Nothing { eligible }
    } else {
        Planned::Take(taken)
    }
}
