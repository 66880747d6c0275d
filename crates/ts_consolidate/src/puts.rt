//! How a consolidation puts its objects, one after the other.
ghost use Rattle.std.specs.Prelude.{◌≡◌, ◌<◌, ◌≤◌, ◌^◌, suc, ◌-◌, length, slice_get, option_map, IfOk, IfSome};
ghost use Rattle.ts_actor.specs.Fetches.{IsWorkCall};
ghost use Rattle.ts_model.specs.States.{on_made, put_of, putting, with_item};
ghost use Rattle.ts_consolidate.specs.Merges.{HaveNames, IsMergeState, merges_left};

use std::alloc::Global;
use ts_actor::Pieces;
use ts_base::{Duplicate, Name, OutOfMemory, Place};
use ts_model::{NewObjectList, Outcome, Refusal, State};
use ts_store::{Call, Reply};

/// A job puts objects from a place on, and ends after the last.
pub(crate) fn put<P: Pieces>(objects: NewObjectList, next: u64, end: Outcome) -> State<P::Fetch>
    requires { HaveNames objects }
    ensures is { result ≡ putting objects next end }
    ensures may { IsMergeState P.codec result }
    ensures few_calls { merges_left P.left result < 2 ^ 64 }
    ensures left { merges_left P.left result ≤ length objects - next }
{
    if next < objects.len() {
        State::Puts { objects, next, end }
    } else {
        State::Over(end)
    }
}

/// The put of the object at a place, if there is one.
pub(crate) fn next_put(
    alloc: Global,
    objects: &NewObjectList,
    next: u64,
) -> Result<Option<Call>, OutOfMemory>
    requires { HaveNames objects.now }
    ensures is { IfOk result (λ call. call ≡ option_map put_of (slice_get objects.now next)) }
    ensures spelled { IfOk result (λ call. IfSome call IsWorkCall) }
{
    if next < objects.len() {
        let object = objects.at(next);
        let bytes = object.bytes.copy(alloc)?;
        Ok(Some(Call::Put(object.name, bytes)))
    } else {
        Ok(None)
    }
}

/// Where the reply to the put of the object at a place leads.
pub(crate) fn after_put<P: Pieces>(
    objects: NewObjectList,
    next: u64,
    end: Outcome,
    reply: &Reply,
) -> State<P::Fetch>
    requires { HaveNames objects }
    ensures is { result ≡ with_item (λ o. on_made (put_of o) (putting objects (suc next) end) reply.now) (slice_get objects next) }
    ensures may { IsMergeState P.codec result }
    ensures fewer { next < length objects → merges_left P.left result < length objects - next }
{
    if next >= objects.len() {
        return State::Over(Outcome::OutOfMemory);
    }
    let name = objects.at(next).name;
    match reply {
        Reply::Made => put::<P>(objects, next + 1, end),
        Reply::Failed => State::Over(Outcome::Refused(Refusal::StoreFault(Place::Name(name)))),
        Reply::Taken => State::Over(Outcome::Refused(Refusal::Taken(name))),
        _ => State::Over(Outcome::OutOfMemory),
    }
}
