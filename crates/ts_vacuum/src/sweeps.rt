//! How a vacuum goes: the call that it makes next, and where the reply leads it.
ghost use Rattle.std.specs.Prelude.{◌≡◌, ◌≢◌, ◌<◌, true, None, IfOk, IfSome, OnErr};
ghost use Rattle.std.specs.Thread.{IsSync};
ghost use Rattle.ts_store.specs.Calls.{IsSpelledReply};
ghost use Rattle.ts_actor.specs.Fetches.{IsWorkCall};
ghost use Rattle.ts_model.specs.Jobs.{looked_at};
ghost use Rattle.ts_model.specs.States.{asks, goes, sweep_asks, sweep_goes, takes_memory};
ghost use Rattle.ts_vacuum.specs.Sweeping.{IsSweepCall, IsSweepState, IsSweeping, IsVacuumJob, sweep_left, sweeps_left, vacuum_spares};

use crate::removals::{after_removal, next_removal};
use crate::sweeping::{
    after_commits, after_parts_reply, after_schemas, after_vac_reply, parts_asked,
};
use std::alloc::Global;
use std::marker::PhantomData;
use std::thread::Threads;
use ts_actor::{Automaton, Pieces, vac_asked};
use ts_base::{OutOfMemory, Prefix};
use ts_model::{Command, Job, State, Sweeping};
use ts_store::{Call, Reply};

/// The automaton of vacuums, beside fragments that are written the way of `P`.
#[derive(Drop)]
pub struct Sweeps<P> {
    pieces: PhantomData<P>,
}

impl<P: Pieces> Automaton for Sweeps<P> {
    type Fetch = P::Fetch;

    ghost codec = { P.codec };

    ghost serves = { IsVacuumJob };

    ghost may = { λ job state. IsSweepState state };

    ghost left = { sweeps_left };

    ghost ends = { λ job end. tt };

    ghost calls = { λ job c. IsSweepCall c };

    ghost spares = { vacuum_spares };

    fn begin(_alloc: Global, job: &Job) -> State<P::Fetch> {
        match &job.command {
            Command::Vacuum => State::Sweeps(Sweeping::ListsCommits),
            _ => unreachable!(),
        }
    }

    fn ask(
        _alloc: Global,
        _job: &Job,
        state: &State<P::Fetch>,
    ) -> Result<Option<Call>, OutOfMemory> {
        match state {
            State::Sweeps(sweeping) => Ok(ask_sweeping(sweeping)),
            State::Removes {
                names,
                next,
                end: _,
            } => Ok(next_removal(names, *next)),
            State::Over(_) => Ok(None),
            _ => unreachable!(),
        }
    }

    fn go<R: Threads + Sync>(
        _rt: &R,
        alloc: Global,
        job: &Job,
        state: State<P::Fetch>,
        reply: Reply,
    ) -> Result<State<P::Fetch>, OutOfMemory>
        requires job { IsVacuumJob job.now }
        requires state { IsSweepState state }
        requires reply { IsSpelledReply reply }
        requires sync { IsSync R.row }
        ensures is { IfOk result (λ next. next ≡ goes P.codec job.now state reply) }
        ensures may { IfOk result IsSweepState }
        ensures lacks { OnErr result (takes_memory state ≡ true) }
        ensures fewer { IfOk result (λ next. asks P.codec job.now state ≢ None → sweeps_left next < sweeps_left state) }
    {
        match state {
            State::Sweeps(sweeping) => go_sweeping(alloc, job, sweeping, reply),
            State::Removes { names, next, end } => Ok(after_removal(names, next, end, &reply)),
            State::Over(end) => Ok(State::Over(end)),
            _ => unreachable!(),
        }
    }
}

// The next call of a vacuum that has not come to its removals.
fn ask_sweeping(sweeping: &Sweeping) -> Option<Call>
    requires { IsSweeping sweeping.now }
    ensures is { result ≡ sweep_asks sweeping.now }
    ensures works { IfSome result IsWorkCall }
{
    match sweeping {
        Sweeping::ListsCommits => Some(Call::List(Prefix::Commits)),
        Sweeping::ListsSchemas { sweep: _ } => Some(Call::List(Prefix::Schemas)),
        Sweeping::GetsVacs { sweep } => vac_asked(&sweep.counting, sweep.vacs.len()),
        Sweeping::ListsParts {
            sweep: _,
            set,
            listed,
        } => parts_asked(set, listed.len()),
    }
}

// Where a reply leads a vacuum that has not come to its removals.
fn go_sweeping<F: Drop>(
    alloc: Global,
    job: &Job,
    sweeping: Sweeping,
    reply: Reply,
) -> Result<State<F>, OutOfMemory>
    requires job { IsVacuumJob job.now }
    requires state { IsSweeping sweeping }
    requires reply { IsSpelledReply reply }
    ensures is { IfOk result (λ next. next ≡ sweep_goes job.now sweeping reply) }
    ensures may { IfOk result IsSweepState }
    ensures fewer { IfOk result (λ next. sweep_asks sweeping ≢ None → sweeps_left next < sweep_left sweeping) }
{
    match sweeping {
        Sweeping::ListsCommits => after_commits(alloc, reply),
        Sweeping::ListsSchemas { sweep } => after_schemas(alloc, sweep, looked_at(job), reply),
        Sweeping::GetsVacs { sweep } => after_vac_reply(alloc, sweep, reply),
        Sweeping::ListsParts { sweep, set, listed } => {
            after_parts_reply(alloc, sweep, set, listed, reply)
        }
    }
}

// The timestamp at which a vacuum looks for a schema: its stamp.
fn looked_at(job: &Job) -> u64
    requires { IsVacuumJob job.now }
    ensures { result ≡ looked_at job.now }
{
    match &job.command {
        Command::Vacuum => job.at,
        _ => unreachable!(),
    }
}
