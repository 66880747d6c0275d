//! How a job goes that begins with a listing of its own: the call that it makes next, and where the
//! reply leads it.
ghost use Rattle.std.specs.Prelude.{◌≡◌, ◌≢◌, ◌<◌, ◌^◌, true, None, All, IfOk, OnErr};
ghost use Rattle.std.specs.Thread.{IsSync};
ghost use Rattle.ts_base.specs.Names.{IsSpelled};
ghost use Rattle.ts_store.specs.Calls.{IsSpelledCall, IsSpelledReply};
ghost use Rattle.ts_model.specs.States.{asks, ended, goes, listing_of, lists, on_names, takes_memory};
ghost use Rattle.ts_vacuum.specs.Listing.{IsListCommand, IsListJob, IsListState, lists_left, no_lease};

use crate::leases::leases_unlocked;
use crate::removals::{after_removal, next_removal, remove};
use std::alloc::Global;
use std::marker::PhantomData;
use std::thread::Threads;
use ts_actor::{Automaton, Pieces, end_by};
use ts_base::{NameList, OutOfMemory, Prefix};
use ts_model::{Command, Job, Outcome, State};
use ts_store::{Call, Reply};

/// The automaton of jobs that begin with a listing of their own: `unlock` and `fragments`, beside
/// fragments that are written the way of `P`.
#[derive(Drop)]
pub struct Lists<P> {
    pieces: PhantomData<P>,
}

impl<P: Pieces> Automaton for Lists<P> {
    type Fetch = P::Fetch;

    ghost codec = { P.codec };

    ghost serves = { IsListJob };

    ghost may = { λ job state. IsListState state };

    ghost left = { lists_left };

    ghost ends = { λ job end. tt };

    ghost calls = { λ job c. IsSpelledCall c };

    ghost spares = { no_lease };

    fn begin(_alloc: Global, job: &Job) -> State<P::Fetch> {
        match &job.command {
            Command::Unlock { seed: _, lane: _ } | Command::Fragments => State::Lists,
            _ => unreachable!(),
        }
    }

    fn ask(
        _alloc: Global,
        job: &Job,
        state: &State<P::Fetch>,
    ) -> Result<Option<Call>, OutOfMemory> {
        match state {
            State::Lists => Ok(Some(listing_of(&job.command))),
            State::Removes {
                names,
                next,
                end: _,
            } => Ok(next_removal(names, *next)),
            State::Over(_) => Ok(None),
            _ => unreachable!(),
        }
    }

    fn go<R: Threads + Sync>(
        _rt: &R,
        alloc: Global,
        job: &Job,
        state: State<P::Fetch>,
        reply: Reply,
    ) -> Result<State<P::Fetch>, OutOfMemory>
        requires job { IsListJob job.now }
        requires state { IsListState state }
        requires reply { IsSpelledReply reply }
        requires sync { IsSync R.row }
        ensures is { IfOk result (λ next. next ≡ goes P.codec job.now state reply) }
        ensures may { IfOk result IsListState }
        ensures lacks { OnErr result (takes_memory state ≡ true) }
        ensures fewer { IfOk result (λ next. asks P.codec job.now state ≢ None → lists_left next < lists_left state) }
    {
        match state {
            State::Lists => after_listing(alloc, &job.command, reply),
            State::Removes { names, next, end } => Ok(after_removal(names, next, end, &reply)),
            State::Over(end) => Ok(State::Over(end)),
            _ => unreachable!(),
        }
    }
}

// What the command lists.
fn listing_of(command: &Command) -> Call
    requires { IsListCommand command.now }
    ensures is { result ≡ listing_of command.now }
    ensures spelled { IsSpelledCall result }
{
    match command {
        Command::Unlock { seed: _, lane: _ } => Call::List(Prefix::Leases),
        _ => Call::List(Prefix::Commits),
    }
}

// Where the reply to the listing leads.
fn after_listing<F: Drop>(
    alloc: Global,
    command: &Command,
    reply: Reply,
) -> Result<State<F>, OutOfMemory>
    requires command { IsListCommand command.now }
    requires reply { IsSpelledReply reply }
    ensures is { IfOk result (λ next. next ≡ on_names (listing_of command.now) (lists command.now) reply) }
    ensures may { IfOk result IsListState }
    ensures few { IfOk result (λ next. lists_left next < 2 ^ 64) }
{
    match reply {
        Reply::Names(names) => with_names(alloc, command, names),
        other => Ok(State::Over(end_by(&listing_of(command), &other))),
    }
}

// Where the listed names lead.
fn with_names<F: Drop>(
    alloc: Global,
    command: &Command,
    names: NameList,
) -> Result<State<F>, OutOfMemory>
    requires command { IsListCommand command.now }
    requires names { All IsSpelled names }
    ensures is { IfOk result (λ next. next ≡ lists command.now names) }
    ensures may { IfOk result IsListState }
    ensures few { IfOk result (λ next. lists_left next < 2 ^ 64) }
{
    match command {
        Command::Unlock { seed, lane } => {
            let leases = leases_unlocked(alloc, *seed, *lane, names)?;
            let count = leases.len();
            Ok(remove(leases, 0, Outcome::Unlocked(count)))
        }
        Command::Fragments => Ok(State::Over(Outcome::Listed(names))),
        _ => unreachable!(),
    }
}
