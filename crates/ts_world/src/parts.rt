//! The parts of a world, and what each event does to them.
ghost use Rattle.std.specs.Prelude.{◌≡◌, ◌≢◌, OnOk, OnErr, IfOk};
ghost use Rattle.std.specs.List.{list_any};
ghost use Rattle.ts_store.specs.declared.fate.Fate.TheVariants.{Unknown};
ghost use Rattle.ts_store.specs.Calls.{IsSpelledCall};
ghost use Rattle.ts_store.specs.Memory.{held_in};
ghost use Rattle.ts_model.specs.Told.{IsShortCall};
ghost use Rattle.ts_world.specs.declared.events.Event.TheVariants as event;
ghost use Rattle.ts_world.specs.Views.{Dropped, lane_of};
ghost use Rattle.ts_world.specs.Breaks.{TakesLive};
ghost use Rattle.ts_world.specs.Slots.{view_of, standings, is_taken, is_job_id, carries, AreSame, ArePartsOk, IsAdded, IsAnswer, IsMade, IsOwnFault, IsCalled};
ghost use Rattle.ts_world.specs.Clauses.{MaySpawn, job_spawned, Spawned, Called, Happens, HasCause, IsCallFault};

use crate::events::WorldFault;
use crate::leases::{carries, spare};
use crate::slots::{Slot, advance, asked_by, drop_running, first_slot, put_slot};
use crate::told::{MadeCall, changes, copy_reply};
use std::alloc::Global;
use std::snapshot::Snapshot;
use std::thread::Threads;
use ts_actor::Pieces;
use ts_base::{Duplicate, Name, OutOfMemory, Stop};
use ts_model::{Command, History, Job, JobList};
use ts_store::{Call, Entry, Fate, Journal, MemStore, Reply, apply};

/// The parts of a world.
#[derive(Drop)]
pub(crate) struct Parts<P: Pieces> {
    /// The store when the world began, for contracts alone.
    pub(crate) opening: Snapshot<MemStore>,
    /// What all actors share.
    pub(crate) store: MemStore,
    /// What had been done when the world began.
    pub(crate) past: History,
    /// The job of each actor that ever came.
    pub(crate) jobs: JobList,
    /// The calls that were made, in order.
    pub(crate) told: Vec<MadeCall>,
    /// Their entries.
    pub(crate) journal: Journal,
    /// Where each actor stands.
    pub(crate) slots: Vec<Slot<P>>,
}

// ---- an actor comes

/// Adds an actor with the job of this command, stamp and identifier, unless the identifier is taken.
pub(crate) fn spawn<P: Pieces, R: Threads + Sync>(
    parts: &mut Parts<P>,
    rt: &R,
    alloc: Global,
    command: Command,
    at: u64,
    id: u128,
) -> Result<(), WorldFault>
    requires kept { ArePartsOk P.codec P.spelled P.tracks parts.old }
    requires may { MaySpawn (view_of parts.old) command id }
    ensures kept { ArePartsOk P.codec P.spelled P.tracks parts.new }
    ensures spawned { OnOk result (Spawned (job_spawned command at id) (view_of parts.old) (view_of parts.new)) }
    ensures same { OnErr result (view_of parts.new ≡ view_of parts.old) }
    ensures cause { HasCause P.codec (event.Spawn command at id) (view_of parts.old) result }
{
    if is_taken(alloc, parts, id)? {
        return Err(WorldFault::IdTaken(id));
    }
    let job = Job {
        command,
        at,
        id,
        stop: Stop::Never,
    };
    let twin = job.copy(alloc)?;
    let slot = first_slot(rt, alloc, twin);
    add(parts, job, slot)?;
    Ok(())
}

// Whether a job or a held name has the identifier.
fn is_taken<P: Pieces>(alloc: Global, parts: &Parts<P>, id: u128) -> Result<bool, OutOfMemory>
    ensures { IfOk result (λ taken. taken ≡ is_taken parts.now.jobs (held_in parts.now.store) id) }
{
    if has_job(parts.jobs.as_slice(), id) {
        return Ok(true);
    }
    let names = parts.store.names(alloc)?;
    Ok(has_name(names.as_slice(), id))
}

// Whether a job has the identifier.
fn has_job(jobs: &[Job], id: u128) -> bool
    ensures { result ≡ list_any (is_job_id id) jobs.now }
{
    jobs.iter().any(|job| job.id == id)
}

// Whether a name carries the identifier.
fn has_name(names: &[Name], id: u128) -> bool
    ensures { result ≡ list_any (carries id) names.now }
{
    names.iter().any(|name| carries(*name, id))
}

// Adds an actor, with its job and its slot. Want of memory leaves the parts as they were.
fn add<P: Pieces>(parts: &mut Parts<P>, job: Job, slot: Slot<P>) -> Result<(), OutOfMemory>
    ensures added { OnOk result (IsAdded job slot parts.old parts.new) }
    ensures same { OnErr result (AreSame parts.old parts.new) }
{
    parts.slots.push(slot)?;
    let Ok(()) = parts.jobs.push(job) else {
        drop(parts.slots.pop());
        return Err(OutOfMemory);
    };
    Ok(())
}

// ---- an actor makes a call

/// Makes the next call of the running actor with this number and hands it the reply.
pub(crate) fn step<P: Pieces, R: Threads + Sync>(
    parts: &mut Parts<P>,
    rt: &R,
    alloc: Global,
    number: u32,
    fate: Fate,
) -> Result<(), WorldFault>
    requires kept { ArePartsOk P.codec P.spelled P.tracks parts.old }
    requires known { fate ≢ Unknown }
    ensures kept { ArePartsOk P.codec P.spelled P.tracks parts.new }
    ensures called { OnOk result (Called P.codec number fate (λ s. s ≢ Dropped) (view_of parts.old) (view_of parts.new)) }
    ensures same { OnErr result (view_of parts.new ≡ view_of parts.old) }
    ensures cause { HasCause P.codec (event.Step number fate) (view_of parts.old) result }
{
    let reply = call(parts, alloc, number, fate)?;
    advance(rt, alloc, &mut parts.slots, number, reply);
    Ok(())
}

/// Makes the next call of the running actor with this number and drops the actor.
pub(crate) fn stop<P: Pieces>(
    parts: &mut Parts<P>,
    alloc: Global,
    number: u32,
    fate: Fate,
) -> Result<(), WorldFault>
    requires kept { ArePartsOk P.codec P.spelled P.tracks parts.old }
    requires known { fate ≢ Unknown }
    ensures kept { ArePartsOk P.codec P.spelled P.tracks parts.new }
    ensures called { OnOk result (Called P.codec number fate (λ s. s ≡ Dropped) (view_of parts.old) (view_of parts.new)) }
    ensures same { OnErr result (view_of parts.new ≡ view_of parts.old) }
    ensures cause { HasCause P.codec (event.Stop number fate) (view_of parts.old) result }
{
    let reply = call(parts, alloc, number, fate)?;
    drop(reply);
    put_slot(&mut parts.slots, number as usize, Slot::Dropped);
    Ok(())
}

// Makes the call that the running actor with a number waits to make, and enters it.
fn call<P: Pieces>(
    parts: &mut Parts<P>,
    alloc: Global,
    number: u32,
    fate: Fate,
) -> Result<Reply, WorldFault>
    requires kept { ArePartsOk P.codec P.spelled P.tracks parts.old }
    requires known { fate ≢ Unknown }
    ensures called { IfOk result (λ reply. IsCalled number fate parts.old parts.new reply) }
    ensures same { OnErr result (AreSame parts.old parts.new) }
    ensures cause { IsCallFault P.codec (view_of parts.old) number result }
{
    match asked_by(alloc, parts.slots.as_slice(), number) {
        Ok(call) => make_own(parts, alloc, number, call, fate),
        Err(fault) => Err(fault),
    }
}

// Makes a call of an actor, unless it would take a lease from another actor which runs.
fn make_own<P: Pieces>(
    parts: &mut Parts<P>,
    alloc: Global,
    number: u32,
    call: Call,
    fate: Fate,
) -> Result<Reply, WorldFault>
    requires spelled { IsSpelledCall call }
    requires known { fate ≢ Unknown }
    ensures made { IfOk result (λ reply. IsMade (Some number) call fate parts.old parts.new reply) }
    ensures same { OnErr result (AreSame parts.old parts.new) }
    ensures fault { IsOwnFault parts.old number call result }
{
    match spare(
        parts.jobs.as_slice(),
        parts.slots.as_slice(),
        Some(number),
        &call,
    ) {
        Ok(()) => match make(parts, alloc, Some(number), call, fate) {
            Ok(reply) => Ok(reply),
            Err(OutOfMemory) => Err(WorldFault::OutOfMemory),
        },
        Err(fault) => Err(fault),
    }
}

/// Makes a call in the lane of an actor or in nobody's, and enters it with all that is known of it.
///
/// The memory for that is taken first; want of memory leaves the parts as they were.
pub(crate) fn make<P: Pieces>(
    parts: &mut Parts<P>,
    alloc: Global,
    actor: Option<u32>,
    call: Call,
    fate: Fate,
) -> Result<Reply, OutOfMemory>
    requires spelled { IsSpelledCall call }
    requires known { fate ≢ Unknown }
    ensures made { IfOk result (λ reply. IsMade actor call fate parts.old parts.new reply) }
    ensures same { OnErr result (AreSame parts.old parts.new) }
{
    let entry = Entry {
        lane: lane_of(actor),
        call: call.copy(alloc)?,
        fate,
    };
    parts.told.reserve(1)?;
    parts.journal.push(entry)?;
    measure(&call);
    let changed = changes(&parts.store, &call, fate);
    let Ok((reply, twin)) = answer(alloc, &mut parts.store, &call, fate) else {
        let _ = parts.journal.pop();
        return Err(OutOfMemory);
    };
    parts.told.push(MadeCall {
        actor,
        call,
        fate,
        reply: twin,
        changed,
    })?;
    Ok(reply)
}

// The lane of who makes a call.
fn lane_of(actor: Option<u32>) -> u32
    ensures { result ≡ lane_of actor }
{
    match actor {
        Some(number) => number,
        None => u32::MAX,
    }
}

// An object that is put is short enough to be got at once. The call itself does nothing.
fn measure(call: &Call)
    ensures { IsShortCall call.now }
{
    if let Call::Put(_, bytes) = call {
        let _count = bytes.len();
    }
}

// Asks the store a call with this fate, and gives its reply and a copy of that. Want of memory leaves
// what is held as it was.
fn answer(
    alloc: Global,
    store: &mut MemStore,
    call: &Call,
    fate: Fate,
) -> Result<(Reply, Reply), OutOfMemory>
    requires spelled { IsSpelledCall call.now }
    requires known { fate ≢ Unknown }
    ensures answered { IfOk result (λ replies. IsAnswer (held_in store.old) call.now fate replies.0 (held_in store.new)) }
    ensures twin { IfOk result (λ replies. replies.1 ≡ replies.0) }
    ensures same { OnErr result (held_in store.new ≡ held_in store.old) }
{
    store.force(fate);
    let reply = apply(alloc, store, call);
    if reply.is_no_memory() {
        return Err(OutOfMemory);
    }
    let twin = copy_reply(alloc, &reply)?;
    Ok((reply, twin))
}

// ---- all running actors are dropped

/// Drops each actor that runs.
pub(crate) fn restart<P: Pieces>(parts: &mut Parts<P>)
    requires { ArePartsOk P.codec P.spelled P.tracks parts.old }
    ensures kept { ArePartsOk P.codec P.spelled P.tracks parts.new }
    ensures restarted { Happens P.codec event.Restart (view_of parts.old) (view_of parts.new) }
{
    drop_running(&mut parts.slots);
}
