//! How jobs put their objects, one after the other.
ghost use Rattle.std.specs.Prelude.{◌≡◌, ◌<◌, ◌^◌, suc, ◌-◌, [], ◌∷◌, length, slice_get, option_map, IfOk, IfSome};
ghost use Rattle.ts_actor.specs.Fetches.{IsWorkCall};
ghost use Rattle.ts_model.specs.Deeds.{IsKey};
ghost use Rattle.ts_model.specs.Jobs.{frag_of_job, key_of};
ghost use Rattle.ts_base.specs.Names.{IsSpelledFrag};
ghost use Rattle.ts_model.specs.States.{on_made, put_of, puts_schema, putting, with_item};
ghost use Rattle.ts_writer.specs.Writing.{AreSpelled, IsPutState, calls_left};

use crate::ends::put_ended;
use std::alloc::Global;
use ts_base::{Duplicate, FragKey, Key, Name, OutOfMemory};
use ts_model::{Job, NewObject, NewObjectList, Outcome, State};
use ts_schema::Schema;
use ts_store::{Call, Reply, SharedBytes};

/// The key of what a job makes.
pub(crate) fn key_of(job: &Job) -> Key
    ensures is { result ≡ key_of job.now }
    ensures key { IsKey result }
{
    key_with(job.at, job.id)
}

/// The fragment of what a job writes, which is the name of what it deletes too.
pub(crate) fn frag_of(job: &Job) -> FragKey
    ensures is { result ≡ frag_of_job job.now }
    ensures spelled { IsSpelledFrag result }
{
    FragKey {
        t1: job.at,
        t2: job.at,
        id: job.id,
        v: 1,
    }
}

/// The key of these numbers, which have their widths.
pub(crate) fn key_with(t: u64, id: u128) -> Key
    ensures is { result ≡ record { t = t; id = id } }
    ensures key { IsKey result }
{
    Key { t, id }
}

/// A job puts objects from a place on, and ends after the last.
pub(crate) fn put<F>(objects: NewObjectList, next: u64, end: Outcome) -> State<F>
    requires { AreSpelled objects }
    ensures is { result ≡ putting objects next end }
    ensures may { IsPutState result }
    ensures few_calls { calls_left result < 2 ^ 64 }
{
    if next < objects.len() {
        State::Puts { objects, next, end }
    } else {
        State::Over(end)
    }
}

/// The put of the object at a place, if there is one.
pub(crate) fn next_put(
    alloc: Global,
    objects: &NewObjectList,
    next: u64,
) -> Result<Option<Call>, OutOfMemory>
    requires { AreSpelled objects.now }
    ensures is { IfOk result (λ call. call ≡ option_map put_of (slice_get objects.now next)) }
    ensures spelled { IfOk result (λ call. IfSome call IsWorkCall) }
{
    if next < objects.len() {
        let object = objects.at(next);
        let bytes = object.bytes.copy(alloc)?;
        Ok(Some(Call::Put(object.name, bytes)))
    } else {
        Ok(None)
    }
}

/// Where the reply to the put of the object at a place leads.
pub(crate) fn after_put<F>(
    objects: NewObjectList,
    next: u64,
    end: Outcome,
    reply: &Reply,
) -> State<F>
    requires { AreSpelled objects }
    ensures may { IsPutState result }
    ensures fewer { next < length objects → calls_left result < length objects - next }
    ensures is { result ≡ with_item (λ o. on_made (put_of o) (putting objects (suc next) end) reply.now) (slice_get objects next) }
{
    if next >= objects.len() {
        return State::Over(Outcome::OutOfMemory);
    }
    let name = objects.at(next).name;
    match reply {
        Reply::Made => put(objects, next + 1, end),
        _ => put_ended(name, reply),
    }
}

/// The put of a job's schema, after which it ends so.
pub(crate) fn put_schema<F>(
    alloc: Global,
    job: &Job,
    schema: &Schema,
    end: Outcome,
) -> Result<State<F>, OutOfMemory>
    ensures is { IfOk result (λ state. state ≡ puts_schema job.now schema.now.attrs end) }
    ensures may { IfOk result IsPutState }
    ensures few_calls { IfOk result (λ state. calls_left state < 2 ^ 64) }
{
    let mut objects = NewObjectList::new(alloc);
    objects.push(NewObject {
        name: Name::Schema(key_of(job)),
        bytes: SharedBytes::of_list(schema.encode(alloc)?)?,
    })?;
    Ok(State::Puts {
        objects,
        next: 0,
        end,
    })
}
