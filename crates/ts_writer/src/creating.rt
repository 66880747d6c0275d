//! How a create goes: the call that it makes next, and where the reply leads it.
ghost use Rattle.std.specs.Prelude.{◌≡◌, ◌≢◌, ◌<◌, ◌^◌, ◌+◌, true, None, Some, option_map, IfOk, IfSome, OnErr, IsTrue};
ghost use Rattle.ts_store.specs.Calls.{IsSpelledReply};
ghost use Rattle.ts_actor.specs.Fetches.{IsWorkCall};
ghost use Rattle.ts_actor.specs.Machines.{work_spares};
ghost use Rattle.ts_model.specs.declared.commands.Command.TheVariants.{Create};
ghost use Rattle.ts_model.specs.Commands.{create_refusal, fits, frame_made};
ghost use Rattle.ts_model.specs.Jobs.{refused_before};
ghost use Rattle.ts_model.specs.States.{asks, create_asks, create_goes, frame_put, goes, made_by, puts_first, takes_memory};
ghost use Rattle.ts_actor.specs.Seeks.{create_left};
ghost use Rattle.ts_writer.specs.Writing.{IsCreate, IsCreateJob, IsCreateState, IsCreatingState, calls_left};

use crate::ends::{get_ended, list_ended, put_ended, refuse};
use crate::puts::{after_put, key_of, next_put, put_schema};
use std::alloc::Global;
use std::marker::PhantomData;
use std::thread::Threads;
use ts_actor::{Automaton, Pieces};
use ts_base::{Duplicate, Name, OutOfMemory, Prefix};
use ts_domain::Domain;
use ts_model::{Command, Creating, FrameIn, Job, Outcome, Refusal, State};
use ts_schema::{Frame, Schema, schema_fault};
use ts_store::{Call, Reply, SharedBytes};

/// The automaton of creates.
#[derive(Drop)]
pub struct Creates<P> {
    pieces: PhantomData<P>,
}

impl<P: Pieces> Automaton for Creates<P> {
    type Fetch = P::Fetch;

    ghost codec = { P.codec };

    ghost serves = { IsCreateJob };

    ghost may = { IsCreateState };

    ghost left = { calls_left };

    ghost ends = { λ job end. tt };

    ghost calls = { λ job c. IsWorkCall c };

    ghost spares = { work_spares IsCreateJob };

    fn begin(alloc: Global, job: &Job) -> State<P::Fetch> {
        match &job.command {
            Command::Create(frame) => match refusal_of(alloc, frame) {
                None => State::Creates(Creating::PutsFrame),
                Some(refusal) => refuse(refusal),
            },
            _ => unreachable!(),
        }
    }

    fn ask(alloc: Global, job: &Job, state: &State<P::Fetch>) -> Result<Option<Call>, OutOfMemory> {
        match state {
            State::Creates(creating) => ask_creating(alloc, job, creating),
            State::Puts {
                objects,
                next,
                end: _,
            } => next_put(alloc, objects, *next),
            State::Over(_) => Ok(None),
            _ => unreachable!(),
        }
    }

    fn go<R: Threads + Sync>(
        _rt: &R,
        alloc: Global,
        job: &Job,
        state: State<P::Fetch>,
        reply: Reply,
    ) -> Result<State<P::Fetch>, OutOfMemory>
        requires job { IsCreateJob job.now }
        requires state { IsCreateState job.now state }
        requires reply { IsSpelledReply reply }
        ensures is { IfOk result (λ next. next ≡ goes P.codec job.now state reply) }
        ensures may { IfOk result (IsCreateState job.now) }
        ensures lacks { OnErr result (takes_memory state ≡ true) }
        ensures fewer { IfOk result (λ next. asks P.codec job.now state ≢ None → calls_left next < calls_left state) }
    {
        match state {
            State::Creates(creating) => go_creating::<P>(alloc, job, creating, &reply),
            State::Puts { objects, next, end } => Ok(after_put(objects, next, end, &reply)),
            State::Over(end) => Ok(State::Over(end)),
            _ => unreachable!(),
        }
    }
}

// The next call of a create that has not come to its puts.
fn ask_creating(alloc: Global, job: &Job, creating: &Creating) -> Result<Option<Call>, OutOfMemory>
    requires serves { IsCreateJob job.now }
    requires state { IsCreatingState job.now creating.now }
    ensures is { IfOk result (λ call. call ≡ create_asks job.now creating.now) }
    ensures spelled { IfOk result (λ call. IfSome call IsWorkCall) }
{
    match creating {
        Creating::PutsFrame => {
            let bytes = own_object(alloc, job)?;
            Ok(Some(Call::Put(Name::Domain, bytes)))
        }
        Creating::ComparesFrame => Ok(Some(Call::Get(Name::Domain, 0, u64::MAX))),
        Creating::ListsDeclared => Ok(Some(Call::List(Prefix::Schemas))),
    }
}

// Where a reply leads a create that has not come to its puts.
fn go_creating<P: Pieces>(
    alloc: Global,
    job: &Job,
    creating: Creating,
    reply: &Reply,
) -> Result<State<P::Fetch>, OutOfMemory>
    requires serves { IsCreateJob job.now }
    requires state { IsCreatingState job.now creating }
    ensures is { IfOk result (λ next. next ≡ create_goes job.now creating reply.now) }
    ensures may { IfOk result (IsCreateState job.now) }
    ensures fewer { IfOk result (λ next. calls_left next < create_left creating) }
{
    match creating {
        Creating::PutsFrame => after_frame::<P>(alloc, job, reply),
        Creating::ComparesFrame => after_present::<P>(alloc, job, reply),
        Creating::ListsDeclared => after_declared::<P>(alloc, job, reply),
    }
}

// What a create is to make.
fn frame_in(job: &Job) -> &FrameIn
    requires { IsCreate job.now.command }
    ensures { job.now.command ≡ Create result.now }
{
    match &job.command {
        Command::Create(frame) => frame,
        _ => unreachable!(),
    }
}

// Why a create is refused before its first call, if it is.
fn refusal_of(alloc: Global, frame: &FrameIn) -> Option<Refusal>
    requires { IsTrue (fits (Create frame.now)) }
    ensures { result ≡ create_refusal frame.now }
{
    match Domain::new(frame.dims.as_slice()) {
        Err(fault) => Some(Refusal::DomainBad(fault)),
        Ok(domain) => match schema_fault(alloc, &domain, frame.attrs.as_slice()) {
            Some(fault) => Some(Refusal::SchemaBad(fault)),
            None => None,
        },
    }
}

// The frame of a create that is not refused. It takes no memory.
fn frame_of(frame: &FrameIn) -> Frame
    requires fits { IsTrue (fits (Create frame.now)) }
    requires sound { create_refusal frame.now ≡ None }
    ensures { result ≡ frame_made frame.now }
{
    match Domain::new(frame.dims.as_slice()) {
        Ok(domain) => Frame {
            dense: frame.dense,
            domain,
            cell: frame.cell,
            tile: frame.tile,
            capacity: frame.capacity,
        },
        Err(_) => unreachable!(),
    }
}

// The object of the frame that a create makes.
fn own_object(alloc: Global, job: &Job) -> Result<SharedBytes, OutOfMemory>
    requires serves { IsCreateJob job.now }
    requires sound { refused_before job.now.command ≡ None }
    ensures { IfOk result (λ bytes. option_map frame_put (made_by job.now.command) ≡ Some (Call.Put Name.Domain bytes)) }
{
    SharedBytes::of_list(frame_of(frame_in(job)).encode(alloc)?)
}

// A create puts its first schema.
fn put_first<P: Pieces>(alloc: Global, job: &Job) -> Result<State<P::Fetch>, OutOfMemory>
    requires { IsCreateJob job.now }
    ensures is { IfOk result (λ state. state ≡ puts_first job.now (made_by job.now.command)) }
    ensures may { IfOk result (IsCreateState job.now) }
    ensures few_calls { IfOk result (λ state. calls_left state < 2 ^ 64) }
{
    let schema = Schema {
        key: key_of(job),
        attrs: frame_in(job).attrs.copy(alloc)?,
    };
    put_schema(alloc, job, &schema, Outcome::Created)
}

// Where the reply to the put of the frame leads: one that is there already is compared.
fn after_frame<P: Pieces>(
    alloc: Global,
    job: &Job,
    reply: &Reply,
) -> Result<State<P::Fetch>, OutOfMemory>
    requires serves { IsCreateJob job.now }
    requires sound { refused_before job.now.command ≡ None }
    ensures is { IfOk result (λ state. state ≡ goes P.codec job.now (State.Creates Creating.PutsFrame) reply.now) }
    ensures may { IfOk result (IsCreateState job.now) }
    ensures fewer { IfOk result (λ state. calls_left state < 2 ^ 195 + 2) }
{
    match reply {
        Reply::Taken => Ok(State::Creates(Creating::ComparesFrame)),
        Reply::Made => put_first::<P>(alloc, job),
        _ => Ok(put_ended(Name::Domain, reply)),
    }
}

// Where the frame that was there already leads: only one that is the job's own is let stand.
fn after_present<P: Pieces>(
    alloc: Global,
    job: &Job,
    reply: &Reply,
) -> Result<State<P::Fetch>, OutOfMemory>
    requires serves { IsCreateJob job.now }
    requires sound { refused_before job.now.command ≡ None }
    ensures is { IfOk result (λ state. state ≡ goes P.codec job.now (State.Creates Creating.ComparesFrame) reply.now) }
    ensures may { IfOk result (IsCreateState job.now) }
    ensures fewer { IfOk result (λ state. calls_left state < 2 ^ 195 + 1) }
{
    match reply {
        Reply::Bytes(bytes) => {
            if own_object(alloc, job)? == *bytes {
                Ok(State::Creates(Creating::ListsDeclared))
            } else {
                Ok(refuse(Refusal::ArrayExists))
            }
        }
        _ => Ok(get_ended(Name::Domain, reply)),
    }
}

// Where the listing of the schemas leads a create: where there is one, there is an array.
fn after_declared<P: Pieces>(
    alloc: Global,
    job: &Job,
    reply: &Reply,
) -> Result<State<P::Fetch>, OutOfMemory>
    requires { IsCreateJob job.now }
    ensures is { IfOk result (λ state. state ≡ goes P.codec job.now (State.Creates Creating.ListsDeclared) reply.now) }
    ensures may { IfOk result (IsCreateState job.now) }
    ensures fewer { IfOk result (λ state. calls_left state < 2 ^ 195) }
{
    match reply {
        Reply::Names(names) => {
            if names.len() == 0 {
                put_first::<P>(alloc, job)
            } else {
                Ok(refuse(Refusal::ArrayExists))
            }
        }
        _ => Ok(list_ended(Prefix::Schemas, reply)),
    }
}
