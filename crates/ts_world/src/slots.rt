//! Where the actors of a world stand.
ghost use Rattle.std.specs.Prelude.{◌≡◌, ◌≢◌, ◌<◌, [], length, map, slice_set};
ghost use Rattle.std.specs.Option.{option_copied};
ghost use Rattle.ts_store.specs.Calls.{IsSpelledReply};
ghost use Rattle.ts_model.specs.Jobs.{IsFit};
ghost use Rattle.ts_actor.specs.Traces.{Trace, CanCome, Expects, filled};
ghost use Rattle.ts_commands.specs.Actors.{job_of, Follows};
ghost use Rattle.ts_world.specs.Slots.{standing_of, standings, IsSlot, IsDue, IsNextSlot, IsDueAt, IsAdvanced, AsksFor, dropped_slot};
ghost use Rattle.ts_world.specs.Views.{Dropped, end_in, end_of};

use crate::events::WorldFault;
use std::alloc::Global;
use std::mem;
use std::thread::Threads;
use ts_actor::{Actor, Pieces, Step};
use ts_base::Duplicate;
use ts_commands::AnyActor;
use ts_model::{Job, Outcome};
use ts_store::{Call, Reply};

/// An actor that waits for the reply to a call.
#[derive(Drop)]
pub(crate) struct Running<P: Pieces> {
    pub(crate) actor: AnyActor<P>,
    pub(crate) asked: Call,
}

/// Where an actor stands.
#[derive(Drop)]
pub(crate) enum Slot<P: Pieces> {
    /// It runs.
    Runs(Running<P>),
    /// It came to this end.
    Ended(Outcome),
    /// It was dropped.
    Dropped,
}

// The slot of an actor that has just come.
pub(crate) fn first_slot<P: Pieces, R: Threads + Sync>(rt: &R, alloc: Global, job: Job) -> Slot<P>
    requires { IsFit job }
    ensures slot_is { IsSlot P.codec job [] result }
    ensures up { standing_of result ≢ Dropped }
{
    go_on(rt, alloc, AnyActor::of(job), Reply::Start)
}

// Hands an actor the reply that it waits for.
pub(crate) fn go_on<P: Pieces, R: Threads + Sync>(
    rt: &R,
    alloc: Global,
    mut actor: AnyActor<P>,
    reply: Reply,
) -> Slot<P>
    requires due { Expects (Follows P.codec actor) reply }
    requires spelled { IsSpelledReply reply }
    ensures slot_is { (t : Trace) → Follows P.codec actor t → CanCome t.asked reply → IsSlot P.codec (job_of actor) (filled t reply) result }
    ensures up { standing_of result ≢ Dropped }
{
    match actor.next(rt, alloc, reply) {
        Step::Ask(asked) => Slot::Runs(Running { actor, asked }),
        Step::Done(end) => Slot::Ended(end),
    }
}

// The slot of an actor once it has its reply.
pub(crate) fn next_slot<P: Pieces, R: Threads + Sync>(
    rt: &R,
    alloc: Global,
    slot: Slot<P>,
    reply: Reply,
) -> Slot<P>
    requires { IsDue P.codec slot reply }
    ensures next { (r : _) → slot ≡ Slot.Runs r → IsNextSlot P.codec r reply result }
{
    match slot {
        Slot::Runs(running) => go_on(rt, alloc, running.actor, reply),
        other => other,
    }
}

// Hands the running actor with a number the reply that it waits for.
pub(crate) fn advance<P: Pieces, R: Threads + Sync>(
    rt: &R,
    alloc: Global,
    slots: &mut [Slot<P>],
    number: u32,
    reply: Reply,
)
    requires { IsDueAt P.codec slots.old number reply }
    ensures { IsAdvanced P.codec slots.old number reply slots.new }
{
    let place = number as usize;
    let slot = mem::replace(&mut slots[place], Slot::Dropped);
    let next = next_slot(rt, alloc, slot, reply);
    put_slot(slots, place, next);
}

// Puts a slot in the place of another.
pub(crate) fn put_slot<P: Pieces>(slots: &mut [Slot<P>], place: usize, slot: Slot<P>)
    requires { place < length slots.old }
    ensures { slots.new ≡ slice_set slots.old place slot }
{
    drop(mem::replace(&mut slots[place], slot));
}

// The end of an actor that ended.
fn end_in<P: Pieces>(slot: &Slot<P>) -> Option<&Outcome>
    ensures { option_copied result ≡ end_in (standing_of slot.now) }
{
    match slot {
        Slot::Ended(end) => Some(end),
        _ => None,
    }
}

// The end of the actor with a number, if it ended.
pub(crate) fn end_of<P: Pieces>(slots: &[Slot<P>], number: u32) -> Option<&Outcome>
    ensures { option_copied result ≡ end_of (standings slots.now) number }
{
    let place = number as usize;
    if slots.len() <= place {
        return None;
    }
    end_in(&slots[place])
}

// A copy of the call that the actor with a number waits to make.
pub(crate) fn asked_by<P: Pieces>(
    alloc: Global,
    slots: &[Slot<P>],
    number: u32,
) -> Result<Call, WorldFault>
    ensures { AsksFor slots.now number result }
{
    let place = number as usize;
    if slots.len() <= place {
        return Err(WorldFault::NoActor(number));
    }
    match &slots[place] {
        Slot::Runs(running) => Ok(running.asked.copy(alloc)?),
        _ => Err(WorldFault::NoActor(number)),
    }
}

// Drops each actor that runs.
pub(crate) fn drop_running<P: Pieces>(slots: &mut [Slot<P>])
    ensures { slots.new ≡ map dropped_slot slots.old }
{
    for slot in slots.iter_mut() {
        let was = mem::replace(slot, Slot::Dropped);
        drop(mem::replace(slot, dropped(was)));
    }
}

// The slot after a restart.
fn dropped<P: Pieces>(slot: Slot<P>) -> Slot<P>
    ensures { result ≡ dropped_slot slot }
{
    match slot {
        Slot::Runs(_running) => Slot::Dropped,
        other => other,
    }
}
