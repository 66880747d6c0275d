//! Jobs that put what they make of the schema that they work in and of the frame.
ghost use Rattle.std.specs.Prelude.{◌≡◌, ◌≢◌, ◌<◌, ◌^◌, true, List, None, IfOk, IfSome, OnErr};
ghost use Rattle.std.specs.Thread.{IsSync};
ghost use Rattle.ts_base.specs.declared.names.Name.{Name as AnyName};
ghost use Rattle.ts_store.specs.Calls.{IsSpelledReply};
ghost use Rattle.ts_schema.specs.FrameTexts.{IsFrame};
ghost use Rattle.ts_schema.specs.SchemaTexts.{AreAttrs};
ghost use Rattle.ts_actor.specs.Fetches.{IsWorkCall};
ghost use Rattle.ts_actor.specs.Machines.{work_spares};
ghost use Rattle.ts_model.specs.declared.commands.Job.{Job as AnyJob};
ghost use Rattle.ts_model.specs.declared.states.Listed.{Listed as AnyListed};
ghost use Rattle.ts_model.specs.declared.states.Seeking.TheVariants as seeking_state;
ghost use Rattle.ts_model.specs.Codecs.{Codec};
ghost use Rattle.ts_model.specs.States.{asks, begun, goes, looked_into, nothing_listed, takes_memory, works};
ghost use Rattle.ts_writer.specs.Writing.{IsAnyListed, IsLaterState, IsPutState, calls_left, puts_left};

use crate::puts::{after_put, next_put};
use std::alloc::Global;
use std::marker::PhantomData;
use std::thread::Threads;
use ts_actor::{Automaton, Works, ask_seeking, go_seeking};
use ts_base::{FragList, Name, OutOfMemory};
use ts_model::{Job, Listed, Seeking, State};
use ts_schema::{Frame, Schema};
use ts_store::{Call, Reply};

/// What an evolve, a write or a delete puts, made of the schema that it works in and of the frame.
///
/// Each function computes what the model says of any job. Only memory can be wanting.
pub trait Makes {
    /// How far the fetch of a fragment has come.
    type Fetch: Drop;

    /// How fragments are written and read.
    ghost codec: { Codec Self.Fetch };

    /// The jobs that it is for.
    ghost serves: { AnyJob → Type 0 };

    /// Where a job begins: it lists the schemas.
    fn begin(alloc: Global, job: &Job) -> State<Self::Fetch>
        requires { serves job.now }
        ensures is { result ≡ begun job.now.command }
        ensures may { IsLaterState result };

    /// What a job looks into, which is nothing.
    fn look(alloc: Global, job: &Job) -> Listed
        requires { serves job.now }
        ensures { (names : List AnyName) → result ≡ looked_into job.now.command names };

    /// A job puts what it makes, or is refused.
    fn make(
        alloc: Global,
        job: &Job,
        frame: &Frame,
        current: &Schema,
    ) -> Result<State<Self::Fetch>, OutOfMemory>
        requires job { serves job.now }
        requires frame { IsFrame frame.now }
        requires attrs { AreAttrs current.now.attrs }
        ensures is { IfOk result (λ state. (listed : AnyListed) → state ≡ works codec job.now job.now.command listed frame.now current.now) }
        ensures may { IfOk result IsLaterState }
        ensures fewer { IfOk result (λ state. calls_left state < 2 ^ 195) };
}

/// The automaton of such jobs.
#[derive(Drop)]
pub struct Making<M> {
    of: PhantomData<M>,
}

impl<M: Makes> Automaton for Making<M> {
    type Fetch = M::Fetch;

    ghost codec = { M.codec };

    ghost serves = { M.serves };

    ghost may = { λ job state. IsLaterState state };

    ghost left = { calls_left };

    ghost ends = { λ job end. tt };

    ghost calls = { λ job c. IsWorkCall c };

    ghost spares = { work_spares M.serves };

    fn begin(alloc: Global, job: &Job) -> State<M::Fetch> {
        M::begin(alloc, job)
    }

    fn ask(
        alloc: Global,
        _job: &Job,
        state: &State<M::Fetch>,
    ) -> Result<Option<Call>, OutOfMemory> {
        match state {
            State::Seeks(seeking) => Ok(Some(ask_seeking(seeking))),
            State::Puts {
                objects,
                next,
                end: _,
            } => next_put(alloc, objects, *next),
            State::Over(_) => Ok(None),
            _ => unreachable!(),
        }
    }

    fn go<R: Threads + Sync>(
        rt: &R,
        alloc: Global,
        job: &Job,
        state: State<M::Fetch>,
        reply: Reply,
    ) -> Result<State<M::Fetch>, OutOfMemory>
        requires job { M.serves job.now }
        requires state { IsLaterState state }
        requires reply { IsSpelledReply reply }
        requires sync { IsSync R.row }
        ensures is { IfOk result (λ next. next ≡ goes M.codec job.now state reply) }
        ensures may { IfOk result IsLaterState }
        ensures lacks { OnErr result (takes_memory state ≡ true) }
        ensures fewer { IfOk result (λ next. asks M.codec job.now state ≢ None → calls_left next < calls_left state) }
    {
        match state {
            State::Seeks(seeking) => go_seeking::<Making<M>, R>(rt, alloc, job, seeking, reply),
            State::Puts { objects, next, end } => Ok(after_put(objects, next, end, &reply)),
            State::Over(end) => Ok(State::Over(end)),
            _ => unreachable!(),
        }
    }
}

impl<M: Makes> Works for Making<M> {
    type Fetch = M::Fetch;

    ghost codec = { M.codec };

    ghost serves = { M.serves };

    ghost knows = { IsAnyListed };

    ghost may = { IsPutState };

    ghost left = { puts_left };

    fn look(alloc: Global, job: &Job, _names: &[Name]) -> Result<Listed, OutOfMemory> {
        Ok(M::look(alloc, job))
    }

    fn work<R: Threads + Sync>(
        _rt: &R,
        alloc: Global,
        job: &Job,
        _listed: Listed,
        frame: Frame,
        current: Schema,
    ) -> Result<State<M::Fetch>, OutOfMemory> {
        M::make(alloc, job, &frame, &current)
    }
}

/// Nothing to look into.
pub(crate) fn nothing_listed(alloc: Global) -> Listed
    ensures { result ≡ nothing_listed }
{
    Listed {
        fragments: FragList::new(alloc),
        counting: FragList::new(alloc),
        delete_names: FragList::new(alloc),
    }
}

/// Where such a job begins: it lists the schemas.
pub(crate) fn list_schemas<F>(alloc: Global) -> State<F>
    ensures is { result ≡ State.Seeks (seeking_state.ListsSchemas nothing_listed) }
    ensures may { IsLaterState result }
{
    State::Seeks(Seeking::ListsSchemas {
        listed: nothing_listed(alloc),
    })
}
